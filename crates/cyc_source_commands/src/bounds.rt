//! The text that states bounds on the calls, pages and steps that a program needs, for every input.
use cyc_bound::{CallBound, MOST_CALLS, PageBound, StepBound};
use cyc_cli::{FileName, Shown};
use cyc_compiler::{Bounded, Bounds, compile};
use cyc_elf::read_outline;
use cyc_syntax::{Sign, Token, TokenKind};
use cyc_types::typed::Function;
use cyc_words::Span;
use std::alloc::Global;
use std::fmt;

/// Returns the number of machine-code words in the image of a program, if the program compiles.
fn words_of(alloc: Global, text: &[u8]) -> Option<u32> {
    let image = compile(alloc, text).ok()?;
    let outline = read_outline(alloc, image.as_slice()).ok()?;
    let header = outline.loads.first()?;
    Some(header.memory_size / 4)
}

/// Returns the number of machine-code words in a program's image if the program's steps have a bound; otherwise returns `None`, since the
/// number is needed only with this bound.
pub fn words_by(alloc: Global, text: &[u8], bounds: &Bounds) -> Option<u32> {
    match bounds.steps {
        StepBound::Steps { .. } => words_of(alloc, text),
        StepBound::Cycle | StepBound::TooMany => None,
    }
}

/// The text about a program's needs has a line for the nested calls, one for the pages and one for the steps; each line states a bound or
/// that no bound exists. If no bound exists, the text then names the obstacle. If the obstacle is a cycle of calls, the text has a line
/// for each function, with the source position of its call of the next function. For any other obstacle the text has the source position
/// of a loop. After the line about steps, the text states the maximum number of instructions for all steps.
#[derive(Drop)]
pub struct Needs<'a> {
    pub name: &'a str,
    pub text: &'a [u8],
    pub bounded: &'a Bounded,
    /// The number of machine-code words of the image, if the program was compiled; no step takes more instructions.
    pub words: Option<u32>,
}

/// Returns the tokens from the first token at or after a source position.
fn tokens_from(tokens: &[Token], place: Span) -> &[Token] {
    let before = tokens.partition_point(|token| {
        (token.span.line, token.span.column) < (place.line, place.column)
    });
    tokens.get(before..).unwrap_or(&[])
}

/// Returns the bytes of a token in the source text.
fn spelled<'a>(text: &'a [u8], token: &Token) -> &'a [u8] {
    text.get(token.start..token.end).unwrap_or(&[])
}

impl<'a> Needs<'a> {
    fn function(&self, number: usize) -> Option<&Function> {
        self.bounded.program.tree.functions.get(number)
    }

    /// Returns the name of a function, as its declaration spells it.
    fn name_of(&self, function: &Function) -> &'a [u8] {
        match tokens_from(&self.bounded.tokens, function.span).first() {
            Some(token) => spelled(self.text, token),
            None => &[],
        }
    }

    /// Returns the source position at which the body of a function first calls the function named `callee`.
    fn call_of(&self, caller: &Function, callee: &[u8]) -> Option<Span> {
        let tokens = tokens_from(&self.bounded.tokens, caller.span).get(1..)?;
        for (place, token) in tokens.iter().enumerate() {
            if token.span == caller.end {
                return None;
            }
            let is_call = match tokens.get(place + 1) {
                Some(following) => following.kind == TokenKind::Sign(Sign::LeftParen),
                None => false,
            };
            if is_call && spelled(self.text, token) == callee {
                return Some(token.span);
            }
        }
        None
    }

    fn write_call<W: fmt::Write>(
        &self,
        caller: usize,
        callee: usize,
        f: &mut fmt::Formatter<W>,
    ) -> fmt::Result {
        let (Some(caller), Some(callee)) = (self.function(caller), self.function(callee)) else {
            return Ok(());
        };
        let (from, to) = (self.name_of(caller), self.name_of(callee));
        let place = self.call_of(caller, to).unwrap_or(caller.span);
        let (line, column) = (place.line, place.column);
        let (file, from, to) = (FileName(self.name.as_bytes()), Shown(from), Shown(to));
        write!(f, "{file}:{line}:{column}: {from} calls {to}\n")
    }

    fn write_cycle<W: fmt::Write>(
        &self,
        functions: &[usize],
        f: &mut fmt::Formatter<W>,
    ) -> fmt::Result {
        write!(f, "calls unbounded\n")?;
        let first = functions.first();
        for place in 0..functions.len() {
            let next = functions.get(place + 1).or(first);
            if let (Some(caller), Some(callee)) = (functions.get(place), next) {
                self.write_call(*caller, *callee, f)?;
            }
        }
        Ok(())
    }
}

impl Needs<'_> {
    /// Writes the line about a loop that prevents a bound.
    fn write_loop<W: fmt::Write>(
        &self,
        place: Span,
        said: &str,
        f: &mut fmt::Formatter<W>,
    ) -> fmt::Result {
        let file = FileName(self.name.as_bytes());
        write!(f, "{file}:{}:{}: {said}\n", place.line, place.column)
    }

    fn write_calls<W: fmt::Write>(&self, f: &mut fmt::Formatter<W>) -> fmt::Result {
        match &self.bounded.bounds.calls {
            CallBound::Calls { count } => write!(f, "calls {count}\n"),
            CallBound::Cycle { functions } => self.write_cycle(functions.as_slice(), f),
            CallBound::Deep => write!(f, "calls more than {MOST_CALLS}\n"),
        }
    }

    fn write_pages<W: fmt::Write>(&self, f: &mut fmt::Formatter<W>) -> fmt::Result {
        if let PageBound::Pages { count } = self.bounded.bounds.pages {
            return write!(f, "pages {count}\n");
        }
        f.write_str("pages unbounded\n")?;
        match self.bounded.loop_of_pages {
            Some(place) => {
                self.write_loop(place, "each turn of this loop makes or opens something", f)
            }
            None => Ok(()),
        }
    }

    fn write_steps<W: fmt::Write>(&self, f: &mut fmt::Formatter<W>) -> fmt::Result {
        match self.bounded.bounds.steps {
            StepBound::Steps { count } => {
                write!(f, "steps {count}\n")?;
                match self.words {
                    Some(words) => {
                        let instructions = u128::from(words) * (u128::from(count) + 1);
                        write!(f, "instructions {instructions}\n")
                    }
                    None => Ok(()),
                }
            }
            StepBound::Cycle | StepBound::TooMany => {
                f.write_str("steps unbounded\n")?;
                match self.bounded.loop_of_steps {
                    Some(place) => self.write_loop(
                        place,
                        "this loop may have any number of turns",
                        f,
                    ),
                    None => Ok(()),
                }
            }
        }
    }
}

impl fmt::Display for Needs<'_> {
    fn fmt<W: fmt::Write>(&self, f: &mut fmt::Formatter<W>) -> fmt::Result {
        self.write_calls(f)?;
        self.write_pages(f)?;
        self.write_steps(f)
    }
}

/// The changes that would give a program its missing bounds. The `Display` form is one line for a missing bound on calls and one for a
/// missing bound on pages, or empty if both bounds exist.
#[derive(Drop)]
pub struct Remedies<'a>(pub &'a Needs<'a>);

impl Remedies<'_> {
    /// Returns true if there is a change to suggest that would give the program a missing bound on calls or pages.
    pub fn has_any(&self) -> bool {
        let bounded = self.0.bounded;
        match (&bounded.bounds.calls, &bounded.bounds.pages) {
            (CallBound::Cycle { .. }, _) => true,
            (_, PageBound::Pages { .. }) => false,
            _ => bounded.loop_of_pages.is_some(),
        }
    }

    /// Writes the line that suggests a change for a missing bound on calls: if functions call each other
    /// in a cycle, the line names the last call of the cycle.
    fn write_calls<W: fmt::Write>(&self, f: &mut fmt::Formatter<W>) -> fmt::Result {
        let needs = self.0;
        let CallBound::Cycle { functions } = &needs.bounded.bounds.calls else {
            return Ok(());
        };
        let (Some(callee), Some(caller)) = (functions.first(), functions.last()) else {
            return Ok(());
        };
        let (Some(callee), Some(caller)) = (needs.function(*callee), needs.function(*caller)) else {
            return Ok(());
        };
        let name = needs.name_of(callee);
        let place = needs.call_of(caller, name).unwrap_or(caller.span);
        needs.write_loop(
            place,
            "hint: for a bound on calls write a loop in place of this call, with what is still to be done in variables or in a list",
            f,
        )
    }

    /// Writes the line that suggests a change for a missing bound on pages: the line names the loop or the cycle of calls that allocates
    /// without a bound.
    fn write_pages<W: fmt::Write>(&self, f: &mut fmt::Formatter<W>) -> fmt::Result {
        let needs = self.0;
        if let PageBound::Pages { .. } = needs.bounded.bounds.pages {
            return Ok(());
        }
        match needs.bounded.loop_of_pages {
            Some(place) => needs.write_loop(
                place,
                "hint: for a bound on pages make it once, before this loop, or make it in a region<`r> h; that stands in its body",
                f,
            ),
            None => Ok(()),
        }
    }
}

impl fmt::Display for Remedies<'_> {
    fn fmt<W: fmt::Write>(&self, f: &mut fmt::Formatter<W>) -> fmt::Result {
        self.write_calls(f)?;
        self.write_pages(f)
    }
}
