//! Finds the faults of tokens, of grammar and of the flow rules that remain in a text once its first fault is repaired.
//!
//! If a text cannot be split into tokens or has no syntax tree, each declaration with a fault of tokens or grammar is replaced by
//! blanks, and the remaining declarations are parsed.
ghost use Rattle.std.specs.Prelude.{◌≤◌, IfSome, length};
ghost use Rattle.cyc_front.specs.Front.{IsRefusedText};

use crate::declarations::{Extent, extent_of, starts_of};
use crate::expected::{expected_at, text_before};
use crate::reading::tree_of;
use crate::reported::{Refusal, name_of_ended, words_on_variable};
use cyc_flow::diagnose;
use cyc_syntax::Tree;
use cyc_types::TypedTree;
use cyc_types::typed::Function;
use cyc_words::{Code, Fault, Span};
use std::alloc::{AllocError, Global};
use std::mem::{ManuallyDrop, replace};

/// The most faults that are reported after the first one.
pub const MOST_FURTHER: usize = 20;

/// Returns true if a fault is at or between two source positions.
pub fn is_between(first: Span, fault: Fault, last: Span) -> bool {
    let place = (fault.line, fault.column);
    (first.line, first.column) <= place && place <= (last.line, last.column)
}

// ---- flow

/// Returns how many functions there are from the first function to the one that contains the fault (included), or the number of all
/// functions if no function contains the fault.
fn count_up_to(functions: &[Function], fault: Fault) -> usize
    ensures { result ≤ length functions.now }
{
    for (n, function) in functions.iter().enumerate() {
        if is_between(function.span, fault, function.end) {
            return n.saturating_add(1).min(functions.len());
        }
    }
    functions.len()
}

/// Reports the flow faults of a typed tree except the first one, one function after another.
pub fn tell_flow(
    alloc: Global,
    text: &[u8],
    tree: &Tree,
    typed: TypedTree,
    first: Fault,
    reported: &mut Vec<Refusal>,
) -> Result<(), Fault> {
    let mut typed = ManuallyDrop::new(typed);
    for _ in 0..=MOST_FURTHER {
        let Some(found) = diagnose(alloc, &typed) else {
            return Ok(());
        };
        if found.fault != first {
            if reported.len() >= MOST_FURTHER {
                return Ok(());
            }
            let words = match found.fault.code {
                Code::MissingReturn => name_of_ended(alloc, text, tree, found.fault),
                _ => words_on_variable(alloc, text, found.fault, found.cause),
            };
            reported.push(Refusal::of_flow(found.fault, words, found.cause))?;
        }
        let refused = count_up_to(&typed.functions, found.fault);
        let following = typed.functions.split_off(refused)?;
        let _ = ManuallyDrop::new(replace(&mut typed.functions, following));
    }
    Ok(())
}

// ---- tokens and grammar

/// Returns true if a fault's code is one that the lexer reports.
fn is_of_token(code: Code) -> bool {
    matches!(
        code,
        Code::UnknownByte | Code::UnclosedComment | Code::NumberTooLarge
    )
}

/// Replaces a byte range of a text by blanks and keeps its line feeds.
fn make_blank(text: &mut [u8], start: usize, end: usize) {
    for byte in text.iter_mut().take(end).skip(start) {
        if *byte != b'\n' {
            *byte = b' ';
        }
    }
}

/// Returns the text from the byte offset `end` on, after as many empty lines and blanks as the omitted text has. Source positions in
/// the remaining text are unchanged, and the omitted text is not parsed again.
fn rest_in_place(alloc: Global, text: &[u8], end: usize) -> Result<Vec<u8>, AllocError> {
    let mut left = Vec::new(alloc);
    let mut column = 0_usize;
    for byte in text.iter().take(end) {
        column = column.saturating_add(1);
        if *byte == b'\n' {
            left.push(b'\n')?;
            column = 0;
        }
    }
    for _ in 0..column {
        left.push(b' ')?;
    }
    for byte in text.iter().skip(end) {
        left.push(*byte)?;
    }
    Ok(left)
}

/// Returns the fault that the lexer or the parser finds in a text.
fn refused_reading(alloc: Global, text: &[u8]) -> Option<Fault>
    ensures { IfSome result (IsRefusedText text.now) }
{
    match tree_of(alloc, text) {
        Ok(tree) => {
            let _ = ManuallyDrop::new(tree);
            None
        }
        Err(fault) if fault.code == Code::Memory => None,
        Err(fault) => Some(fault),
    }
}

/// Reports the faults of tokens or grammar after a first one. After a fault of a token, it reports the faults of the text without the
/// declaration that contains this token. After a fault of grammar, it reports those of the later declarations.
pub fn tell_readings(
    alloc: Global,
    text: &[u8],
    first: Fault,
    reported: &mut Vec<Refusal>,
) -> Result<(), AllocError> {
    let starts = starts_of(alloc, text)?;
    let mut left = Vec::from_slice(alloc, text)?;
    let mut fault = first;
    for _ in 0..MOST_FURTHER {
        let place = text_before(text, fault.line, fault.column).len();
        let Extent { start, end } = extent_of(&starts, text.len(), place);
        // The text that remains to be parsed is a suffix of the whole text, so byte offsets are counted from the common end of both.
        let gone = text.len().saturating_sub(left.len());
        let end = end.saturating_sub(gone);
        if is_of_token(fault.code) {
            make_blank(&mut left, start.saturating_sub(gone), end);
        } else {
            left = rest_in_place(alloc, &left, end)?;
        }
        let Some(found) = refused_reading(alloc, &left) else {
            return Ok(());
        };
        // If no declaration remains in the text, an unexpected end of the text is not reported as a fault, since no declaration is
        // incomplete.
        if found.code == Code::UnexpectedEnd && starts_of(alloc, &left)?.is_empty() {
            return Ok(());
        }
        reported.push(Refusal::with_words(found, expected_at(alloc, &left, found)))?;
        fault = found;
    }
    Ok(())
}
