//! This file finds the source position from which each machine word of an image comes.

ghost use Rattle.std.specs.Prelude.{◌≡◌, ◌≤◌, IfOk, length};
ghost use Rattle.cyc_words.specs.Decision.{Decides};
ghost use Rattle.cyc_syntax.specs.TokenRule.{max_tokens};
ghost use Rattle.cyc_types.specs.TypedTrees.{Program};
ghost use Rattle.cyc_types.specs.TypedTreeView.{view_program};
ghost use Rattle.cyc_types.specs.typing.WellTyped.{IsWellTypedProgram};
ghost use Rattle.cyc_types.specs.Weight.{program_weight};
ghost use Rattle.cyc_soundness.specs.Sound.{IsSound};
ghost use Rattle.cyc_lower_proof.specs.inside.Lowered.{CanBeLowered};
ghost use Rattle.cyc_front.specs.Front.{IsAcceptedText};
ghost use Rattle.cyc_front.specs.inside.Phases.{HasTokens};
ghost use Rattle.cyc_compiler.specs.FullPreservation.{IsImageOf};
ghost use Rattle.cyc_image.specs.Notes.{AreAllowedIfAny, Carries};
ghost use Rattle.cyc_compiler.specs.Compiled.{IsCompiledText, IsRefusedAtLast, HasFaultAtLast};

use crate::compiler::{Compilation, build, room_for};
use cyc_asm::sources;
use cyc_frame::layout;
use cyc_front::run_phases;
use cyc_image::{Declared, Places, Site, Source, Stretch};
use cyc_inline::{Inlined, Opened, Origin, inline, line_of, name_expressions};
use cyc_lower::{Marks, lower, marks_of};
use cyc_machine_model::constants::TEXT_BASE;
use cyc_plain::{Function, Instruction, Operand};
use cyc_propagation::simplify;
use cyc_select::{FunctionLines, lines_of, select};
use cyc_syntax::{Declaration, Tree};
use cyc_types::Flowed;
use cyc_warnings::find_warnings;
use cyc_words::{Fault, Span};
use std::alloc::{AllocError, Global};

/// A compilation together with the source positions from which its image's machine words come.
#[derive(Drop)]
pub struct Placed {
    pub compilation: Compilation,
    pub places: Places,
}

/// Returns the exceptions that a program declares.
fn exceptions_of(alloc: Global, tree: &Tree) -> Result<Vec<Declared>, AllocError> {
    let mut exceptions = Vec::new(alloc);
    for declaration in &tree.declarations {
        if let Declaration::Exceptions { constructors } = declaration {
            for constructor in constructors {
                exceptions.push(Declared {
                    span: constructor.name.span,
                    has_int: constructor.has_int,
                })?;
            }
        }
    }
    Ok(exceptions)
}

/// Returns the index of the mark (a source position that the lowering noted) for an instruction, given the index of the mark for an
/// earlier instruction.
fn mark_at(marks: &Marks, before: usize, number: usize) -> usize {
    let mut found = before;
    for next in before.saturating_add(1)..marks.marks.len() {
        if marks.marks[next].first > number {
            return found;
        }
        found = next;
    }
    found
}

/// Returns true if an instruction rethrows the exception that a handler received; a `throw` in the text names its exception.
fn is_passing(instruction: &Instruction) -> bool {
    matches!(
        instruction,
        Instruction::Throw {
            tag: Operand::Slot { .. },
            ..
        }
    )
}

/// The place in the source text from which a line of assembly code comes, and the call for which the line was inlined, if any.
#[derive(Clone, Copy, PartialEq, Eq)]
struct Cause {
    source: Source,
    site: Option<Site>,
}

/// Appends the same cause, that is, the place in the source text, for each line of assembly code before the line `end`.
fn fill(causes: &mut Vec<Cause>, end: usize, cause: Cause) -> Result<(), AllocError> {
    for _ in causes.len()..end {
        causes.push(cause)?;
    }
    Ok(())
}

/// Returns the cause, that is, the place in the source text, of an instruction that was not inlined.
fn own_cause(source: Source) -> Cause {
    Cause { source, site: None }
}

/// Returns the source position at this index in the lowering's list of source positions (marks), or the position of
/// the function's name if the list is too short.
fn span_of(marks: &Marks, mark: usize, name: Span) -> Span {
    match marks.marks.get(mark) {
        Some(mark) => mark.span,
        None => name,
    }
}

/// The lowered program: the functions, their inlined versions, and the source positions noted for each function.
#[derive(Clone, Copy)]
struct Lowered<'a> {
    /// For each function that inlining changed: its version before inlining, and the instruction from which each
    /// of its instructions was made.
    opened: &'a [Option<Opened>],
    /// The program after recomputed expressions got slots of their own.
    named: &'a Inlined,
    marks: &'a [Marks],
}

impl<'a> Lowered<'a> {
    /// Returns the function with this index, as it was lowered.
    fn function(&self, number: usize) -> Option<&'a Function> {
        match self.opened.get(number)? {
            Some(opened) => Some(&opened.given),
            None => self.inlined(number),
        }
    }

    /// Returns the function with this index after inlining.
    fn inlined(&self, number: usize) -> Option<&'a Function> {
        match self.named.opened.get(number)? {
            Some(opened) => Some(&opened.given),
            None => self.named.plain.functions().get(number),
        }
    }

    /// Returns the instruction from which an instruction of the inlined function with this index was made.
    fn origin(&self, function: usize, index: usize) -> Option<Origin> {
        match self.opened.get(function)? {
            Some(opened) => opened.origins.get(index).copied(),
            None => Some(Origin { function, index }),
        }
    }
}

/// Returns the place in the source text from which an instruction comes: the one with index `number`
/// in the code of the function with index `function`.
fn source_of(
    code: &[Instruction],
    marks: &Marks,
    mark: usize,
    function: usize,
    number: usize,
    name: Span,
) -> Source {
    if number >= marks.raises {
        return Source::Raise { function };
    }
    let span = span_of(marks, mark, name);
    match code.get(number) {
        Some(instruction) if is_passing(instruction) => Source::PassOn { function, span },
        _ => Source::Part { function, span },
    }
}

/// Returns the place in the source text of an instruction that was inlined at a call, together with this call.
fn inlined_cause(lowered: Lowered<'_>, origin: Origin, site: Site) -> Cause {
    let (Some(function), Some(marks)) = (
        lowered.function(origin.function),
        lowered.marks.get(origin.function),
    ) else {
        return own_cause(Source::Start);
    };
    let mark = mark_at(marks, 0, origin.index);
    Cause {
        source: source_of(
            &function.code,
            marks,
            mark,
            origin.function,
            origin.index,
            function.name,
        ),
        site: Some(site),
    }
}

/// Returns the number of instructions of an inlined function that are placed at the end of the caller's
/// code, after the caller's own instructions.
fn rest_of(function: &Function) -> usize {
    let mut count: usize = 0;
    for index in line_of(&function.code)..function.code.len() {
        let moved = match function.code[index] {
            Instruction::Return { .. } | Instruction::Finish { .. } => function.results,
            _ => 0,
        };
        count = count.saturating_add(1).saturating_add(moved);
    }
    count
}

/// The inlined calls of a function, and for each call how many of its instructions come after the function's own code.
#[derive(Drop)]
struct Sites {
    sites: Vec<(Site, usize)>,
    /// The index of the first inlined call with instructions, at the end of the function's code, that have not been visited yet.
    next: usize,
    /// The total number of inlined instructions at the end of the function's code that have not been visited yet.
    left: usize,
}

impl Sites {
    /// Records an inlined call and the number of its instructions that come after the caller's code.
    fn note(&mut self, site: Site, callee: Option<&Function>) -> Result<(), AllocError> {
        let rest = match callee {
            Some(function) => rest_of(function),
            None => 0,
        };
        self.left = self.left.saturating_add(rest);
        self.sites.push((site, rest))?;
        Ok(())
    }

    /// Returns the call for which an instruction at the end of a function's code was inlined, given the number of
    /// instructions from it to the end of the code.
    fn site_at(&mut self, left: usize) -> Option<Site> {
        if left > self.left {
            return Some(self.sites.last()?.0);
        }
        for number in self.next..self.sites.len() {
            let (site, rest) = self.sites[number];
            if rest > 0 {
                self.sites[number] = (site, rest - 1);
                self.left = self.left.saturating_sub(1);
                self.next = number;
                return Some(site);
            }
        }
        None
    }
}

/// The lines of a function's assembly code, and the data from which the source positions of these lines are computed.
#[derive(Clone, Copy)]
struct Lines<'a> {
    /// The index of the function in the program.
    number: usize,
    /// The function's code after inlining.
    code: &'a [Instruction],
    /// The first line of assembly code of each instruction, and the line after the last instruction.
    lines: &'a [usize],
    end: usize,
}

/// Appends the place in the source text of each line of a function's assembly code.
fn add_function(
    alloc: Global,
    causes: &mut Vec<Cause>,
    lowered: Lowered<'_>,
    made: Lines<'_>,
) -> Result<(), AllocError> {
    let number = made.number;
    let (Some(function), Some(marks)) = (lowered.function(number), lowered.marks.get(number)) else {
        return Ok(());
    };
    let name = function.name;
    let entry = own_cause(Source::Part {
        function: number,
        span: name,
    });
    fill(
        causes,
        made.lines.first().copied().unwrap_or(made.end),
        entry,
    )?;
    let mut sites = Sites {
        sites: Vec::new(alloc),
        next: 0,
        left: 0,
    };
    let mut mark = 0;
    for index in 0..made.code.len() {
        let Some(origin) = lowered.origin(number, index) else {
            return Ok(());
        };
        let cause = if origin.function == number {
            mark = mark_at(marks, mark, origin.index);
            if let Some(Instruction::Enter { function: callee }) = made.code.get(index) {
                let span = span_of(marks, mark, name);
                let site = Site {
                    function: number,
                    span,
                };
                sites.note(site, lowered.function(*callee))?;
            }
            own_cause(source_of(&function.code, marks, mark, number, origin.index, name))
        } else {
            match sites.site_at(made.code.len().saturating_sub(index)) {
                Some(site) => inlined_cause(lowered, origin, site),
                None => entry,
            }
        };
        let following = made.lines.get(index.saturating_add(1)).copied();
        fill(causes, following.unwrap_or(made.end), cause)?;
    }
    Ok(())
}

/// Returns the first line of assembly code of each instruction of a function as it was after inlining. The argument has the
/// first lines of the instructions that a later pass made from them.
fn lines_before(
    alloc: Global,
    named: Option<&Opened>,
    lines: &[usize],
) -> Result<Vec<usize>, AllocError> {
    let mut firsts = Vec::with_capacity(alloc, lines.len())?;
    let Some(named) = named else {
        firsts.extend_from_slice(lines)?;
        return Ok(firsts);
    };
    for (index, origin) in named.origins.iter().enumerate() {
        if origin.index == firsts.len() {
            firsts.push(lines.get(index).copied().unwrap_or(0))?;
        }
    }
    Ok(firsts)
}

/// Returns the place in the source text of each line of the assembly code of all functions.
fn causes_of_lines(
    alloc: Global,
    lowered: Lowered<'_>,
    lines: &[FunctionLines],
    count: usize,
) -> Result<Vec<Cause>, AllocError> {
    let mut causes = Vec::new(alloc);
    for number in 0..lowered.opened.len() {
        let (Some(function), Some(own)) = (lowered.inlined(number), lines.get(number)) else {
            return Ok(causes);
        };
        let named = lowered.named.opened.get(number).and_then(Option::as_ref);
        let firsts = lines_before(alloc, named, &own.lines)?;
        fill(&mut causes, own.first, own_cause(Source::Start))?;
        let end = match lines.get(number + 1) {
            Some(next) => next.first,
            None => count,
        };
        let made = Lines {
            number,
            code: &function.code,
            lines: &firsts,
            end,
        };
        add_function(alloc, &mut causes, lowered, made)?;
    }
    Ok(causes)
}

/// Returns the stretches of machine words that are made from lines of assembly code of the same place in the source text.
fn stretches_of(
    alloc: Global,
    numbers: &[usize],
    causes: &[Cause],
) -> Result<Vec<Stretch>, AllocError> {
    let mut stretches: Vec<Stretch> = Vec::new(alloc);
    for (word, number) in numbers.iter().enumerate() {
        let cause = causes
            .get(*number)
            .copied()
            .unwrap_or(own_cause(Source::Start));
        match stretches.last() {
            Some(last) if last.source == cause.source && last.site == cause.site => {}
            _ => stretches.push(Stretch {
                address: address_of(word),
                source: cause.source,
                site: cause.site,
            })?,
        }
    }
    Ok(stretches)
}

/// Returns the address of the machine word with this index in the code of the image.
fn address_of(word: usize) -> u32 {
    let word = u32::try_from(word).unwrap_or(u32::MAX);
    TEXT_BASE.saturating_add(word.saturating_mul(4))
}

/// Returns the source positions from which the machine words of a program's image come. Repeats the passes on the same tree and
/// follows, for each pass, from which instruction each new instruction was made.
fn places_of(alloc: Global, program: &Flowed, exceptions: Vec<Declared>) -> Result<Places, Fault>
    requires well_typed { IsWellTypedProgram (view_program program.now.tree) }
    requires small { program_weight (view_program program.now.tree) ≤ max_tokens }
    requires can_be { CanBeLowered (view_program program.now.tree) }
{
    let plain = lower(alloc, program)?;
    let marks = marks_of(alloc, program)?;
    let room = room_for(&program.tree);
    let Inlined { plain, opened } = inline(alloc, plain, room)?;
    let named = name_expressions(alloc, plain, room)?;
    let simplified = simplify(alloc, &named.plain)?;
    let frames = layout(alloc, &simplified)?;
    let lines = lines_of(alloc, &simplified, &frames)?;
    let code = select(alloc, &simplified, &frames)?;
    let numbers = sources(alloc, &code)?;
    let lowered = Lowered {
        opened: &opened,
        named: &named,
        marks: &marks,
    };
    let causes = causes_of_lines(alloc, lowered, &lines, code.lines().len())?;
    let mut functions = Vec::new(alloc);
    for function in named.plain.functions() {
        functions.push(function.name)?;
    }
    Ok(Places {
        exceptions,
        functions,
        stretches: stretches_of(alloc, &numbers, &causes)?,
        end: address_of(numbers.len()),
    })
}

/// Compiles as `compile_with_tokens` does, and also returns the source positions from which the image's machine words come.
pub fn compile_with_places(
    alloc: Global,
    text: &[u8],
    note: Option<(u32, u32)>,
) -> Result<Placed, Fault>
    requires { AreAllowedIfAny note }
    // The results and faults of `compile_with_places` are those of `compile_with`.
    ensures decides { Decides (IsCompiledText text.now) (λ p made. IsImageOf p made.compilation.image.items) (IsRefusedAtLast text.now)
        (HasFaultAtLast text.now) result }
    ensures tokens { IfOk result (λ made. HasTokens text.now made.compilation.tokens.items) }
    ensures program { IfOk result (λ made. IsAcceptedText text.now (view_program made.compilation.program.tree)) }
    ensures sound { IfOk result (λ _. (p : Program) → IsAcceptedText text.now p → IsSound p) }
    ensures note { IfOk result (λ made. Carries made.compilation.image.items note) }
{
    let phases = run_phases(alloc, text)?;
    let warnings = find_warnings(alloc, &phases.tree, text);
    let exceptions = exceptions_of(alloc, &phases.tree)?;
    drop(phases.tree);
    let image = build(alloc, &phases.program, note)?;
    let Ok(places) = places_of(alloc, &phases.program, exceptions) else {
        // Every fault except that the compiler itself runs out of memory was reported before the image was made.
        return Err(Fault::memory());
    };
    Ok(Placed {
        compilation: Compilation {
            tokens: phases.tokens,
            warnings,
            program: phases.program,
            image,
        },
        places,
    })
}
