//! The first line of the message on a fault of which only its code and the token at its position are known. `docs/codes.txt` is the table
//! of codes; a test of the suite compares the words in this file with this table.
use crate::flow_cause::name_at;
use cyc_cli::{Shown, excerpt_at, meaning};
use cyc_words::{Code, Fault};
use std::fmt;

/// Returns the words on a fault with this code. In the words, `%` stands for the token.
fn named(code: Code) -> &'static str {
    match code {
        Code::UnknownByte => "unexpected character `%`",
        Code::NumberTooLarge => "integer constant `%` is too large: at most 2147483647",
        Code::UnexpectedToken => "unexpected token `%`",
        Code::UnknownName => "undeclared name `%`",
        Code::DeclaredTwice => "`%` is already declared",
        Code::UniqueShared => "cannot copy the unique pointer `%`",
        Code::NotAPlace => "expected an lvalue, found `%`",
        Code::OutsideLoop => "`%` outside a loop",
        Code::EmptyVariable => "`%` may be uninitialized here",
        Code::LockedVariable => "`%` is in use here",
        Code::MissingReturn => "`%` may end without returning a value",
        Code::FrameTooLarge => "the stack frame of `%` is too large: at most 256 words",
        _ => "",
    }
}

/// The operators and punctuation of more than one byte.
const SIGNS: &str = ":=:~&&~||~==~!=~<=~>=~<<~>>~->";

/// Returns the number of bytes of the character that begins a text. A character that is not ASCII includes its continuation bytes in UTF-8.
fn character_length(text: &[u8]) -> usize {
    match text {
        [0xc0..=0xff, rest @ ..] => {
            let end = rest.iter().position(|byte| !matches!(*byte, 0x80..=0xbf));
            end.unwrap_or(rest.len()).min(3).saturating_add(1)
        }
        _ => text.len().min(1),
    }
}

/// Returns the token at a source position in the form in which messages show it. A character constant is shown by its quote only.
pub(crate) fn token_at(text: &[u8], line: u32, column: u32) -> &[u8] {
    let name = name_at(text, line, column);
    if !name.is_empty() {
        return name;
    }
    let after = excerpt_at(text, line, column).after;
    for sign in SIGNS.split('~') {
        if after.starts_with(sign.as_bytes()) {
            return &after[..sign.len()];
        }
    }
    after.get(..character_length(after)).unwrap_or(after)
}

/// Returns true if the message should show the token at a fault. An expression that cannot be assigned may consist of more tokens, and
/// the token at the end of a function is not its name.
fn is_by_token(text: &[u8], fault: Fault, token: &[u8]) -> bool {
    match fault.code {
        Code::NotAPlace => {
            let after = excerpt_at(text, fault.line, fault.column).after;
            let following = after.get(token.len()..).unwrap_or(&[]).trim_ascii_start();
            matches!(following, [] | [b';' | b',' | b')' | b':', ..])
                || matches!(following, [b'=', ..]) && !following.starts_with(b"==")
        }
        Code::MissingReturn => false,
        Code::UnknownByte => true,
        // The first token of a region's name is a backquote, which the message does not show.
        _ => token != b"`".as_slice(),
    }
}

/// Writes the words of the message on a fault with this code; in these words, the given name stands in place of `%`.
#[derive(Drop)]
pub(crate) struct Naming<'a> {
    pub(crate) code: Code,
    pub(crate) name: &'a [u8],
}

impl fmt::Display for Naming<'_> {
    fn fmt<W: fmt::Write>(&self, f: &mut fmt::Formatter<W>) -> fmt::Result {
        match named(self.code).split_once("%") {
            Some((before, after)) => write!(f, "{before}{}{after}", Shown(self.name)),
            None => f.write_str(meaning(self.code)),
        }
    }
}

/// Writes the words of the message on a fault, with the token at the fault if the token shows the error.
#[derive(Drop)]
pub(crate) struct AtToken<'a> {
    pub(crate) text: &'a [u8],
    pub(crate) fault: Fault,
}

impl fmt::Display for AtToken<'_> {
    fn fmt<W: fmt::Write>(&self, f: &mut fmt::Formatter<W>) -> fmt::Result {
        let Fault { code, line, column } = self.fault;
        if named(code).is_empty() {
            return f.write_str(meaning(code));
        }
        let name = token_at(self.text, line, column);
        if is_by_token(self.text, self.fault, name) {
            write!(f, "{}", Naming { code, name })
        } else {
            f.write_str(meaning(code))
        }
    }
}
