//! Explains why a used variable is empty (its value was moved) or locked (its value is lent), by the source position where it became so.
use crate::declarations::quoted_length;
use crate::expected::text_before;
use crate::reading::tree_of;
use cyc_check::check;
use cyc_cli::{FileName, Shown, excerpt_at, is_in_name};
use cyc_flow::{Cause, Change, diagnose};
use cyc_words::{Code, Fault, Span};
use std::alloc::Global;
use std::fmt;

/// Returns the source position where a variable became empty or locked, if the first fault of the text is that the flow rules forbid
/// a use of this empty or locked variable. Returns `None` for any other fault, or if memory runs out.
pub fn cause_of(alloc: Global, text: &[u8], fault: Fault) -> Option<Cause> {
    match fault.code {
        Code::EmptyVariable | Code::LockedVariable | Code::LoopEmptiesVariable => {}
        _ => return None,
    }
    let tree = tree_of(alloc, text).ok()?;
    let typed = check(alloc, &tree).ok()?;
    let explained = diagnose(alloc, &typed)?;
    if explained.fault != fault {
        return None;
    }
    explained.cause
}

/// Returns true if the name at a source position is the argument of a call of the function with this name.
fn is_given_to(function: &[u8], text: &[u8], line: u32, column: u32) -> bool {
    let before = excerpt_at(text, line, column).before;
    match before.strip_suffix(function) {
        Some(left) => !left.last().is_some_and(|byte| is_in_name(*byte)),
        None => false,
    }
}

/// The purpose for which a variable's value is moved.
#[derive(Clone, Copy)]
enum Goal {
    /// `ufree` receives the variable's value and frees its object.
    Freed,
    /// `free_ukey` receives the variable's key and consumes it.
    FreedKey,
    /// A function receives the variable's value as an argument.
    Argument,
    /// The variable's value is assigned, or stored in a new object.
    Other,
}

/// Returns the purpose for which the variable at a source position is moved.
fn goal_of(text: &[u8], line: u32, column: u32) -> Goal {
    let before = excerpt_at(text, line, column).before;
    if is_given_to(b"free_ukey(", text, line, column) {
        Goal::FreedKey
    } else if is_given_to(b"ufree(", text, line, column) {
        Goal::Freed
    } else if matches!(before.trim_ascii_end().last(), Some(b'(' | b',')) {
        Goal::Argument
    } else {
        Goal::Other
    }
}

/// Returns true if a `catch` stands in the text between a source position and the position of a fault.
fn is_after_try(text: &[u8], span: Span, fault: Fault) -> bool {
    let before = text_before(text, fault.line, fault.column);
    match before.strip_prefix(text_before(text, span.line, span.column)) {
        Some(between) => {
            let mut is_found = false;
            for word in between.split(|byte| !is_in_name(*byte)) {
                is_found = is_found || word == b"catch".as_slice();
            }
            is_found
        }
        None => false,
    }
}

/// Returns true if the variable at a source position is a key with which a declaration opens a dynamic region.
fn is_opened(text: &[u8], line: u32, column: u32) -> bool {
    is_given_to(b"open(", text, line, column)
}

/// Returns the words of the message on a fault, which depend on how the variable became empty or locked. In the words, `%` stands for
/// the variable's name, and `@` for the source position where it became so.
fn title_of(text: &[u8], fault: Fault, cause: Cause) -> &'static str {
    let goal = goal_of(text, cause.span.line, cause.span.column);
    match (cause.change, fault.code, goal) {
        (Change::Moved, Code::LoopEmptiesVariable, Goal::Freed | Goal::FreedKey) =>
            "the loop frees `%` at @, so its next turn has no value for it",
        (Change::Moved, Code::LoopEmptiesVariable, Goal::Argument | Goal::Other) =>
            "the loop moves `%` at @, so its next turn has no value for it",
        (Change::Moved, _, Goal::Freed) if is_given_to(b"ufree(", text, fault.line, fault.column) =>
            { "second ufree of `%`, freed at @" }
        (Change::Moved, _, Goal::Freed | Goal::FreedKey) => "use of `%` after it was freed at @",
        (Change::Moved, _, Goal::Argument | Goal::Other) => "use of `%` after it was moved at @",
        (Change::Peeked, _, _) => "`%` is in use from @ until the right side is evaluated",
        (Change::Locked, Code::LockedVariable, _) => "`%` is in use from @ until the block ends",
        (Change::Locked, _, _) => "`%` may be uninitialized here: a try lends it at @",
        (Change::Assigned, _, _) => "`%` may be uninitialized here: a try assigns it at @",
    }
}

/// Returns the words of a message on the move, assignment or lock that made a variable empty or locked. If a variable was
/// assigned or locked but is reported as empty, the body of a `try` may have emptied it.
fn words_of(text: &[u8], code: Code, cause: Cause) -> &'static str {
    let span = cause.span;
    match (cause.change, code, goal_of(text, span.line, span.column)) {
        (Change::Moved, _, Goal::Freed | Goal::FreedKey) => "is freed here",
        (Change::Moved, _, Goal::Argument | Goal::Other) => "is moved here",
        (Change::Peeked, _, _) => "is read here",
        (Change::Locked, Code::LockedVariable, _) if is_opened(text, span.line, span.column) =>
            "is opened here",
        (Change::Locked, Code::LockedVariable, _) => "is lent here",
        (Change::Locked, _, _) => "is lent here, in the body of a try",
        (Change::Assigned, _, _) => "is assigned here, in the body of a try",
    }
}

/// Returns the line on which the block that contains a source position ends.
fn end_of_block(text: &[u8], span: Span) -> Option<u32> {
    let start = text_before(text, span.line, span.column).len();
    let rest = text.get(start..)?;
    let (mut depth, mut skipped, mut line) = (0_usize, 0_usize, span.line);
    for (n, byte) in rest.iter().enumerate() {
        if skipped == 0 {
            skipped = quoted_length(rest.get(n..).unwrap_or(&[]));
        }
        match *byte {
            b'\n' => line = line.saturating_add(1),
            b'{' if skipped == 0 => depth = depth.saturating_add(1),
            b'}' if skipped == 0 && depth == 0 => return Some(line),
            b'}' if skipped == 0 => depth = depth.saturating_sub(1),
            _ => {}
        }
        skipped = skipped.saturating_sub(1);
    }
    None
}

/// Returns the last line of the block that locks a variable, if this line is below the fault.
pub fn end_of_use(text: &[u8], fault: Fault, cause: Cause) -> Option<u32> {
    if fault.code != Code::LockedVariable {
        return None;
    }
    match cause.change {
        Change::Locked => {
            let line = end_of_block(text, cause.span)?;
            if line > fault.line { Some(line) } else { None }
        }
        _ => None,
    }
}

const FREED_KEY: &str = "move free_ukey after the last use of the key";

/// Returns the advice on a variable that was moved at a source position.
fn advice_on_move(text: &[u8], fault: Fault, span: Span) -> &'static str {
    let goal = goal_of(text, span.line, span.column);
    match goal {
        Goal::FreedKey => FREED_KEY,
        _ if is_after_try(text, span, fault) => {
            "move it after the try, or give it a value in the clause"
        }
        Goal::Freed if is_given_to(b"ufree(", text, fault.line, fault.column) => {
            "delete one of the two, or give the variable a new object between them"
        }
        Goal::Freed => "use it before it is freed, or give it a new object first",
        Goal::Argument => {
            "lend it by let alias, let the function return it, or use it before the call"
        }
        Goal::Other =>
            "use the variable that owns it now, or lend it by let alias in place of moving it",
    }
}

/// Returns the advice on a fault whose variable became empty or locked at a known position, if it is more specific than the advice for the
/// fault's code.
pub fn advice_for(text: &[u8], fault: Fault, cause: Cause) -> Option<&'static str> {
    match (cause.change, fault.code) {
        (Change::Moved, Code::EmptyVariable) => Some(advice_on_move(text, fault, cause.span)),
        (Change::Moved, _) => match goal_of(text, cause.span.line, cause.span.column) {
            Goal::FreedKey => Some(FREED_KEY),
            _ => None,
        },
        (Change::Locked, Code::LockedVariable) => None,
        (Change::Assigned, _) => Some("give it a value in the clause"),
        (Change::Locked, _) => Some("open or lend it around the try, and not in its body"),
        (Change::Peeked, _) => Some("compute the right side into a variable first"),
    }
}

/// Returns the name at a source position, shortened for display.
pub fn name_at(text: &[u8], line: u32, column: u32) -> &[u8] {
    let after = excerpt_at(text, line, column).after;
    match after.iter().position(|byte| !is_in_name(*byte)) {
        Some(end) => &after[..end],
        None => after,
    }
}

/// Writes the first line of the explanation of a fault whose variable became empty or locked at a known source position.
#[derive(Drop)]
pub struct Headline<'a> {
    pub text: &'a [u8],
    pub fault: Fault,
    pub cause: Cause,
}

impl fmt::Display for Headline<'_> {
    fn fmt<W: fmt::Write>(&self, f: &mut fmt::Formatter<W>) -> fmt::Result {
        let Span { line, column } = self.cause.span;
        let name = name_at(self.text, line, column);
        if let Some(end) = end_of_use(self.text, self.fault, self.cause) {
            return write!(
                f,
                "`{}` is in use until the block ends (line {end})",
                Shown(name)
            );
        }
        let title = title_of(self.text, self.fault, self.cause);
        match title.split_once("%") {
            Some((before, rest)) => match rest.split_once("@") {
                Some((between, after)) => write!(
                    f,
                    "{before}{}{between}{line}:{column}{after}",
                    Shown(name)
                ),
                None => f.write_str(title),
            },
            None => f.write_str(title),
        }
    }
}

/// The words on the move, assignment or lock of a variable that caused a fault, with the variable's name.
#[derive(Drop)]
pub struct Deed<'a> {
    pub text: &'a [u8],
    pub code: Code,
    pub cause: Cause,
}

impl fmt::Display for Deed<'_> {
    fn fmt<W: fmt::Write>(&self, f: &mut fmt::Formatter<W>) -> fmt::Result {
        let span = self.cause.span;
        write!(
            f,
            "`{}` {}",
            Shown(name_at(self.text, span.line, span.column)),
            words_of(self.text, self.code, self.cause)
        )
    }
}

/// A line of the message about the position where the variable became empty or locked.
#[derive(Drop)]
pub struct Note<'a> {
    /// The name of the source file.
    pub name: &'a str,
    pub text: &'a [u8],
    pub code: Code,
    pub cause: Cause,
}

impl fmt::Display for Note<'_> {
    fn fmt<W: fmt::Write>(&self, f: &mut fmt::Formatter<W>) -> fmt::Result {
        let span = self.cause.span;
        write!(
            f,
            "{}:{}:{}: {}\n",
            FileName(self.name.as_bytes()),
            span.line,
            span.column,
            Deed {
                text: self.text,
                code: self.code,
                cause: self.cause
            }
        )?;
        write!(f, "{}", excerpt_at(self.text, span.line, span.column))
    }
}
