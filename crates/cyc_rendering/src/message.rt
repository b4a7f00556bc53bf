//! The message for human readers on a rejected text.
use crate::flow_cause::{Headline, Note, advice_for, end_of_use, name_at};
use crate::named::{AtToken, Naming, token_at};
use crate::reported::Refusal;
use cyc_cli::{FileName, Shown, excerpt_at, hint_at};
use cyc_flow::Cause;
use cyc_words::{Code, Fault};
use std::fmt;

/// The message on a fault in the file `name`. The message states the source position, the fault, the first line of the text on the
/// violated rule, and the source line with a marker under the position. After the source line, the message shows the remaining lines of
/// the text on the rule, and the advice. For an empty or locked variable, the message also names the source position where the variable
/// became empty or locked.
#[derive(Clone, Copy)]
pub struct Message<'a> {
    pub name: &'a str,
    pub text: &'a [u8],
    pub refusal: &'a Refusal,
}

/// Returns true if the message on a fault shows a source line. The fault that `main` is missing has no source line.
fn has_line(fault: Fault) -> bool {
    fault.code != Code::BadMain || (fault.line, fault.column) != (1, 1)
}

/// Returns the advice on a fault, chosen by its cause, or else by its code and the tokens that are expected.
fn hint_for(text: &[u8], fault: Fault, cause: Option<Cause>, words: &[u8]) -> &'static str {
    let expected = match words.strip_prefix(b"expected ") {
        Some(expected) => expected,
        None => words,
    };
    match cause.and_then(|cause| advice_for(text, fault, cause)) {
        Some(advice) => advice,
        None => hint_at(fault.code, text, fault.line, fault.column, expected),
    }
}

/// Returns the value of a digit in this number base, if it is one.
fn digit_of(byte: u8, base: u32) -> Option<u32> {
    let digit = match byte {
        b'0'..=b'9' => byte - b'0',
        b'a'..=b'f' => byte - b'a' + 10,
        b'A'..=b'F' => byte - b'A' + 10,
        _ => return None,
    };
    let digit = u32::from(digit);
    if digit < base { Some(digit) } else { None }
}

/// If the fault is a number that is too large for a signed int, returns the number as a 32-bit word. Returns `None` if
/// the number needs more than 32 bits or follows a minus sign.
fn bits_of(text: &[u8], fault: Fault) -> Option<u32> {
    let Fault { code, line, column } = fault;
    if code != Code::NumberTooLarge {
        return None;
    }
    let token = name_at(text, line, column);
    let (digits, base) = match (token.strip_prefix(b"0x"), token.strip_prefix(b"0X")) {
        (Some(digits), _) | (None, Some(digits)) => (digits, 16),
        (None, None) => (token, 10),
    };
    let mut bits = 0_u32;
    for byte in digits {
        bits = bits.checked_mul(base)?.checked_add(digit_of(*byte, base)?)?;
    }
    match excerpt_at(text, line, column)
        .before
        .trim_ascii_end()
        .last()
    {
        Some(b'-') => None,
        _ => Some(bits),
    }
}

/// The suggestion for a number that is too large for a signed int: the negative int with the same 32 bits.
#[derive(Drop)]
struct Signed {
    bits: u32,
}

impl fmt::Display for Signed {
    fn fmt<W: fmt::Write>(&self, f: &mut fmt::Formatter<W>) -> fmt::Result {
        let size = self.bits.wrapping_neg();
        if size > i32::MAX as u32 {
            write!(f, "-{} - 1", i32::MAX)
        } else {
            write!(f, "-{size}")
        }
    }
}

/// The lines of an explanation of a violated rule, split into the first line, the other lines, and the hint.
#[derive(Clone, Copy)]
struct Parts<'a> {
    first: &'a [u8],
    /// The lines after the first line; empty if the explanation has one line only.
    others: &'a [u8],
    /// The advice in the last line, if the last line is a hint.
    hint: Option<&'a [u8]>,
}

/// Returns the last line of a text of several lines.
fn last_of(lines: &[u8]) -> &[u8] {
    let mut last = lines;
    for line in lines.split(|byte| *byte == b'\n') {
        last = line;
    }
    last
}

/// Returns the lines of an explanation without the last one, if it is a hint.
fn without_hint(lines: &[u8]) -> &[u8] {
    let last = last_of(lines);
    if !last.starts_with(b"hint: ") {
        return lines;
    }
    let rest = lines.strip_suffix(last).unwrap_or(lines);
    rest.strip_suffix(b"\n").unwrap_or(rest)
}

/// Returns the lines of an explanation, split into the first line, the other lines, and the hint.
fn parts_of(lines: &[u8]) -> Parts<'_> {
    let hint = last_of(lines).strip_prefix(b"hint: ");
    let lines = without_hint(lines);
    match lines.iter().position(|byte| *byte == b'\n') {
        Some(end) => Parts {
            first: &lines[..end],
            others: lines.get(end.saturating_add(1)..).unwrap_or(&[]),
            hint,
        },
        None => Parts {
            first: lines,
            others: b"",
            hint,
        },
    }
}

impl Message<'_> {
    /// Returns the explanation of the violated rule, split into the first line, the other lines, and the hint.
    fn parts(&self) -> Parts<'_> {
        match &self.refusal.words {
            Some(words) => parts_of(words),
            None => parts_of(b""),
        }
    }

    /// Returns the last line of the block that locks the variable, if this line is below the fault.
    fn end_of_use(&self) -> Option<u32> {
        let cause = self.refusal.cause?;
        end_of_use(self.text, self.refusal.fault, cause)
    }

    /// Returns the lines of the explanation after the first line; empty if it has one line only.
    pub fn detail(&self) -> &[u8] {
        self.parts().others
    }

    /// Returns all lines of the explanation except the hint.
    pub fn said(&self) -> &[u8] {
        match &self.refusal.words {
            Some(words) => without_hint(words),
            None => b"",
        }
    }
}

/// Writes the lines of a message for display.
#[derive(Drop)]
pub struct Lines<'a>(pub &'a [u8]);

impl fmt::Display for Lines<'_> {
    fn fmt<W: fmt::Write>(&self, f: &mut fmt::Formatter<W>) -> fmt::Result {
        for (n, line) in self.0.split(|byte| *byte == b'\n').enumerate() {
            if n > 0 {
                f.write_str("\n")?;
            }
            write!(f, "{}", Shown(line))?;
        }
        Ok(())
    }
}

/// Writes a fault on one line: the first line of the text on the violated rule. If there is no such text, it writes the words for the
/// fault's code, with the name or token at the fault's source position.
#[derive(Drop)]
pub struct Summary<'a>(pub &'a Message<'a>);

impl fmt::Display for Summary<'_> {
    fn fmt<W: fmt::Write>(&self, f: &mut fmt::Formatter<W>) -> fmt::Result {
        let Message { text, refusal, .. } = *self.0;
        let fault = refusal.fault;
        if let Some(cause) = refusal.cause {
            return write!(f, "{}", Headline { text, fault, cause });
        }
        let first = self.0.parts().first;
        if first.is_empty() {
            return write!(f, "{}", AtToken { text, fault });
        }
        // The token is looked up only if it is shown, since the lookup reads the text up to the token's line.
        match fault.code {
            Code::MissingReturn => write!(
                f,
                "{}",
                Naming {
                    code: fault.code,
                    name: first
                }
            ),
            Code::UnexpectedToken => {
                let token = token_at(text, fault.line, fault.column);
                write!(f, "{}, found `{}`", Shown(first), Shown(token))
            }
            Code::UnexpectedEnd => write!(f, "{}, found the end of the file", Shown(first)),
            _ => write!(f, "{}", Shown(first)),
        }
    }
}

/// Writes the advice on a fault for display.
#[derive(Drop)]
pub struct Advice<'a>(pub &'a Message<'a>);

impl fmt::Display for Advice<'_> {
    fn fmt<W: fmt::Write>(&self, f: &mut fmt::Formatter<W>) -> fmt::Result {
        let Message { text, refusal, .. } = *self.0;
        let Parts { first, hint, .. } = self.0.parts();
        if let Some(hint) = hint {
            return write!(f, "{}", Shown(hint));
        }
        if let Some(bits) = bits_of(text, refusal.fault) {
            return write!(
                f,
                "an int has 32 bits and a sign: write {}",
                Signed { bits }
            );
        }
        if let Some(line) = self.0.end_of_use() {
            return write!(f, "move this after line {line}");
        }
        f.write_str(hint_for(text, refusal.fault, refusal.cause, first))
    }
}

impl fmt::Display for Message<'_> {
    fn fmt<W: fmt::Write>(&self, f: &mut fmt::Formatter<W>) -> fmt::Result {
        let Message {
            name,
            text,
            refusal,
        } = *self;
        let Fault { code, line, column } = refusal.fault;
        write!(
            f,
            "{}:{line}:{column}: {}\n",
            FileName(name.as_bytes()),
            Summary(self)
        )?;
        if has_line(refusal.fault) {
            write!(f, "{}", excerpt_at(text, line, column))?;
        }
        let others = self.detail();
        if !others.is_empty() {
            for line in others.split(|byte| *byte == b'\n') {
                write!(f, "    {}\n", Shown(line))?;
            }
        }
        if let Some(cause) = refusal.cause {
            let note = Note {
                name,
                text,
                code,
                cause,
            };
            write!(f, "{note}")?;
        }
        write!(f, "    hint: {}\n", Advice(self))
    }
}
