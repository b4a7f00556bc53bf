//! Lowers the functions of a typed tree and the whole program to a plain program.
ghost use Rattle.std.specs.Prelude.{◌≡◌, ◌+◌, ◌≤◌, length, map, option_map, IfOk};
ghost use Rattle.std.specs.List.{list_any};
ghost use Rattle.cyc_syntax.specs.TokenRule.{max_tokens};
ghost use Rattle.cyc_types.specs.TypeView.{view_ty};
ghost use Rattle.cyc_types.specs.TypedTreeView.{items_of, view_struct, view_function, view_program};
ghost use Rattle.cyc_types.specs.typing.WellTyped.{IsWellTypedProgram};
ghost use Rattle.cyc_types.specs.Weight.{program_weight};
ghost use Rattle.cyc_plain.specs.inside.Program.{routine_of};
ghost use Rattle.cyc_meaning.specs.FrameCount.{frame_count, kept_by_items};
ghost use Rattle.cyc_lower_proof.specs.inside.ControlCode.{outside_loops};
ghost use Rattle.cyc_lower_proof.specs.inside.Lowering.{items_code, blocks_kept, results_of, lower_function, lower_program, is_handle, may_open, scopes_if};
ghost use Rattle.cyc_sizes.specs.inside.Needs.{most_frame_count};
ghost use Rattle.cyc_lower_proof.specs.inside.Bounds.{HaveFewWords, IsClose, AreClose};
ghost use Rattle.cyc_lower.specs.inside.Emission.{most_locals, view_starts};
ghost use Rattle.cyc_lower_proof.specs.inside.Lowered.{CanBeLowered};

use crate::emitter::Emitter;
use crate::exits::nothing_opened;
use crate::globals::{starts_of_globals, words_of_globals};
use crate::locals::slots_of_locals;
use crate::marks::Marks;
use crate::starts::Starts;
use cyc_lower_proof::Exits;
use cyc_plain::{Function, Instruction, Plain, RECORD_WORDS};
use cyc_sizes::{frame_count, words_of, words_of_all};
use cyc_types::typed::{self, StructType};
use cyc_types::{Ty, TypedTree};
use std::alloc::{AllocError, Global};

/// The number of words of the largest value: a fat pointer has three.
const SPARE_SLOTS: usize = 3;

/// A function's frame has this many slots for tags of exceptions, after the slots of its locals.
const TAG_SLOTS: usize = 1;

/// The number of machine words of a stack frame that hold neither a local, nor a value saved across statements, nor a temporary.
const KEPT_WORDS: usize = 24;

/// A position beyond the end of any function's code and of the blocks after it that raise exceptions.
const FAR: usize = 9_223_372_036_854_775_816;

/// The number of instructions of a function's blocks that raise exceptions.
const BLOCKS: usize = 6;

/// Returns the number of result words of a function.
fn results_of(of_type: &Option<Ty>) -> usize
    ensures { result ≡ results_of (option_map view_ty of_type.now) }
{
    match of_type {
        Some(of_type) => words_of(of_type),
        None => 0,
    }
}

/// Returns how many instructions of the blocks that raise exceptions remain in the code, computed from the
/// farthest jump target. The first two instructions of the blocks that raise exceptions form one block.
fn blocks_kept(farthest: usize) -> usize
    ensures { result ≡ blocks_kept farthest }
{
    if farthest == 1 { 2 } else { farthest }
}

/// Emits the code of a function's body, whose temporaries begin at this slot. Records source positions if requested.
fn lower_body(
    alloc: Global,
    starts: &Starts,
    function: &typed::Function,
    free: usize,
    is_marked: bool,
) -> Result<Emitter, AllocError>
    requires { free + kept_by_items (items_of function.now.body.items) ≤ most_locals }
    ensures { IfOk result (λ made. made.code.items ≡ items_code (view_starts starts.now) (view_function function.now).body 0 outside_loops free) }
{
    let mut emitter = Emitter::new(alloc, function.span, is_marked);
    let exits = Exits {
        head: 0,
        leaving: 0,
        in_loop: nothing_opened(),
        in_function: nothing_opened(),
    };
    emitter.lower_items(starts, &function.body, exits, free)?;
    Ok(emitter)
}

/// Lowers a function. The slots of a function hold its locals, the tag of an exception, the handler records and the temporaries, and there
/// are slots for one more value. The body is emitted with provisional targets, far after its code, for the blocks that raise exceptions.
/// The positions of the blocks that raise exceptions are known only after the body is emitted. The provisional targets in the emitted body
/// are then replaced. The blocks that raise exceptions are then emitted, and those after the last one that is a jump target are removed.
fn lower_function(
    alloc: Global,
    structs: &[StructType],
    globals: &[usize],
    scopes: Option<usize>,
    function: &typed::Function,
) -> Result<Function, AllocError>
    requires few { frame_count (view_function function.now) ≤ most_frame_count }
    requires close { IsClose (map view_struct structs.now) globals.now scopes (view_function function.now) }
    ensures { IfOk result (λ f. routine_of f ≡ lower_function (map view_struct structs.now) globals.now scopes (view_function function.now)) }
{
    let (locals, tag_slot, free) = slots_of_locals(alloc, function)?;
    let far = Starts {
        locals: &locals,
        tag_slot,
        structs,
        raises: FAR,
        counters: &[],
        globals,
        scopes,
        alloc,
    };
    let mut emitter = lower_body(alloc, &far, function, free, false)?;
    let raises = emitter.place();
    emitter.settle(FAR, raises);
    let count = blocks_kept(emitter.farthest().saturating_sub(raises).min(BLOCKS));
    emitter.emit(Instruction::Finish { value: tag_slot })?;
    let end = emitter.place() + count;
    emitter.lower_blocks(tag_slot)?;
    emitter.take_back(end);
    let words = frame_count(function);
    Ok(Function {
        name: function.span,
        parameters: words_of_all(&function.parameters),
        results: results_of(&function.result),
        slots: words - KEPT_WORDS + TAG_SLOTS + SPARE_SLOTS,
        frame_count: words,
        code: emitter.code,
    })
}

fn lower_functions(
    alloc: Global,
    structs: &[StructType],
    globals: &[usize],
    scopes: Option<usize>,
    functions: &[typed::Function],
) -> Result<Vec<Function>, AllocError>
    requires few { HaveFewWords (map view_function functions.now) }
    requires close { AreClose (map view_struct structs.now) globals.now scopes (map view_function functions.now) }
    ensures { IfOk result (λ fs. map routine_of fs.items
        ≡ map (lower_function (map view_struct structs.now) globals.now scopes) (map view_function functions.now)) }
{
    let mut lowered = Vec::new(alloc);
    for function in functions {
        lowered.push(lower_function(alloc, structs, globals, scopes, function)?)?;
    }
    Ok(lowered)
}

/// Returns true if one of a function's locals is a region handle. Each lexical region that a function opens has a
/// local for its region handle.
fn has_handles(types: &[Ty]) -> bool
    ensures { result ≡ list_any is_handle (map view_ty types.now) }
{
    for of_type in types {
        if matches!(of_type, Ty::Handle { .. }) {
            return true;
        }
    }
    false
}

/// Returns true if any of these functions may open a lexical region.
fn may_open(functions: &[typed::Function]) -> bool
    ensures { result ≡ list_any may_open (map view_function functions.now) }
{
    for function in functions {
        if has_handles(&function.parameters) || has_handles(&function.locals) {
            return true;
        }
    }
    false
}

/// Returns the offset in a handler record at which a `try` keeps the number of open lexical regions, or `None` if none of these
/// functions may open regions.
fn scopes_of(functions: &[typed::Function]) -> Option<usize>
    ensures { result ≡ scopes_if (list_any may_open (map view_function functions.now)) }
{
    if may_open(functions) {
        Some(RECORD_WORDS)
    } else {
        None
    }
}

/// Returns the plain program of a typed tree, in which each function keeps its index.
pub(crate) fn lower_tree(alloc: Global, tree: &TypedTree) -> Result<Plain, AllocError>
    requires few { HaveFewWords (map view_function tree.now.functions.items) }
    requires well_typed { IsWellTypedProgram (view_program tree.now) }
    requires small { program_weight (view_program tree.now) ≤ max_tokens }
    requires can_be { CanBeLowered (view_program tree.now) }
    ensures { IfOk result (λ plain. plain ≡ lower_program (view_program tree.now)) }
{
    let starts = starts_of_globals(alloc, &tree.globals)?;
    let globals = words_of_globals(alloc, &tree.globals)?;
    let scopes = scopes_of(&tree.functions);
    let functions = lower_functions(alloc, &tree.structs, &starts, scopes, &tree.functions)?;
    Ok(Plain::new(functions, globals, tree.main))
}

/// Returns the source positions of a function's code. The blocks that raise exceptions may be at any position, since changing
/// targets changes no source position.
fn marks_of_function(
    alloc: Global,
    structs: &[StructType],
    globals: &[usize],
    scopes: Option<usize>,
    function: &typed::Function,
) -> Result<Marks, AllocError>
    requires { frame_count (view_function function.now) ≤ most_frame_count }
{
    let (locals, tag_slot, free) = slots_of_locals(alloc, function)?;
    let anywhere = Starts {
        locals: &locals,
        tag_slot,
        structs,
        raises: 0,
        counters: &[],
        globals,
        scopes,
        alloc,
    };
    let mut emitter = lower_body(alloc, &anywhere, function, free, true)?;
    emitter.enter(Some(function.end));
    emitter.emit(Instruction::Finish { value: tag_slot })?;
    Ok(Marks {
        raises: emitter.place(),
        marks: emitter.marks,
    })
}

/// Returns the source positions of the code of each function of a program.
pub(crate) fn marks_of_tree(alloc: Global, tree: &TypedTree) -> Result<Vec<Marks>, AllocError>
    requires few { HaveFewWords (map view_function tree.now.functions.items) }
    requires can_be { CanBeLowered (view_program tree.now) }
    ensures { IfOk result (λ marks. length marks.items ≡ length tree.now.functions.items) }
{
    let starts = starts_of_globals(alloc, &tree.globals)?;
    let scopes = scopes_of(&tree.functions);
    let mut all = Vec::new(alloc);
    for function in &tree.functions {
        all.push(marks_of_function(alloc, &tree.structs, &starts, scopes, function)?)?;
    }
    Ok(all)
}
