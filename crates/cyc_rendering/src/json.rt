//! Faults and warnings as JSON objects, as `--json` prints them.
use crate::expected::text_before;
use crate::flow_cause::Deed;
use crate::message::{Advice, Lines, Message, Summary};
use crate::warnings::WarningText;
use cyc_cli::{Edit, Entry, Range, Related, Shown, is_in_name};
use cyc_warnings::{Found, Warning};
use cyc_words::{Code, Fault, Span};
use std::alloc::{AllocError, Global};

// ---- ranges

/// The operators that consist of more than one byte, longest first, and the two bytes that begin a comment.
const SIGNS: &str = ":=:~&&~||~==~!=~<=~>=~<<~>>~->~/*";

/// Returns the length of the name or number at the beginning of a text.
fn name_length(text: &[u8]) -> usize {
    match text.iter().position(|byte| !is_in_name(*byte)) {
        Some(end) => end,
        None => text.len(),
    }
}

/// Returns the length of the number at the beginning of a text.
fn number_length(text: &[u8]) -> usize {
    if let [b'0', b'x' | b'X', digits @ ..] = text {
        let end = digits.iter().position(|byte| !byte.is_ascii_hexdigit());
        let length = end.unwrap_or(digits.len());
        if length > 0 {
            return length.saturating_add(2);
        }
    }
    let end = text.iter().position(|byte| !byte.is_ascii_digit());
    end.unwrap_or(text.len())
}

/// Returns the length of the token at the beginning of a text. The length is 1 for a byte that begins no token and for each operator that
/// is not in the list of longer operators.
fn token_length(text: &[u8]) -> usize {
    match text {
        [] | [b'\n', ..] => return 0,
        [b'0'..=b'9', ..] => return number_length(text),
        [b'`', b'0'..=b'9', ..] | [b'\'', b'\'', ..] => return 1,
        [b'`', name @ ..] => return name_length(name).saturating_add(1),
        [b'\'', b'\\', _, b'\'', ..] => return 4,
        [b'\'', _, b'\'', ..] => return 3,
        _ => {}
    }
    for sign in SIGNS.split('~') {
        if text.starts_with(sign.as_bytes()) {
            return sign.len();
        }
    }
    name_length(text).max(1)
}

/// Returns the bytes of a text from a line and column to the end of the text.
fn text_from(text: &[u8], line: u32, column: u32) -> &[u8] {
    let start = text_before(text, line, column).len();
    text.get(start..).unwrap_or(&[])
}

/// Returns the token at a line and column of a text.
fn token_at(text: &[u8], line: u32, column: u32) -> &[u8] {
    let rest = text_from(text, line, column);
    rest.get(..token_length(rest)).unwrap_or(rest)
}

/// Returns the source range of `length` bytes that begins at a line and column.
fn range_of(line: u32, column: u32, length: usize) -> Range {
    let length = u32::try_from(length).unwrap_or(0);
    Range {
        line,
        column,
        end_line: line,
        end_column: column.saturating_add(length),
    }
}

/// Returns the source range of the token at a source position.
fn range_at(text: &[u8], span: Span) -> Range {
    let token = token_at(text, span.line, span.column);
    range_of(span.line, span.column, token.len())
}

/// Returns the source range of a fault. The fault that `main` is missing has no token, so its range is empty.
fn range_of_fault(text: &[u8], fault: Fault) -> Range {
    let Fault { code, line, column } = fault;
    if code == Code::BadMain && (line, column) == (1, 1) {
        return range_of(line, column, 0);
    }
    range_at(text, Span { line, column })
}

// ---- edits

/// The edit that a fault's hint describes: a replacement of the token at the fault, or an insertion before it.
#[derive(Clone, Copy)]
struct Change<'a> {
    is_before: bool,
    text: &'a str,
}

/// Returns true if a byte occurs in a text.
fn has_byte(text: &str, byte: u8) -> bool {
    text.as_bytes().iter().position(|b| *b == byte).is_some()
}

/// Returns the edit that replaces the token at a fault by a text.
fn in_place(text: &str) -> Option<Change<'_>> {
    Some(Change {
        is_before: false,
        text,
    })
}

/// Hints about misspelled operators: the beginning of the hint, the word in the source, and the operator that replaces the word.
const WORDS: [(&str, &str, &str); 9] = [
    ("write && for and", "and", "&&"),
    ("write || for or", "or", "||"),
    ("delete the word: there is no const", "const", ""),
    ("delete the word: there is no const", "static", ""),
    ("delete the word: there is no const", "extern", ""),
    ("delete the word: there is no const", "inline", ""),
    ("delete the word: there is no const", "register", ""),
    ("delete the word: there is no const", "volatile", ""),
    ("delete the word: there is no const", "restrict", ""),
];

/// Returns the edit that a hint suggests: a text to insert before a token or to replace the token by.
fn change_by<'a>(hint: &'a str, token: &str) -> Option<Change<'a>> {
    if let Some(rest) = hint.strip_prefix("did you mean `") {
        let name = rest.strip_suffix("`?")?;
        return if has_byte(name, b'`') || has_byte(token, b'`') {
            None
        } else {
            in_place(name)
        };
    }
    if let Some(number) = hint.strip_prefix("an int has 32 bits and a sign: write ") {
        return if has_byte(number, b' ') {
            None
        } else {
            in_place(number)
        };
    }
    if hint.starts_with("write ; before it") {
        return Some(Change {
            is_before: true,
            text: ";",
        });
    }
    for (beginning, word, text) in WORDS {
        if hint.starts_with(beginning) && token == word {
            return in_place(text);
        }
    }
    None
}

/// Returns the edit that a hint describes for the token in this source range. A hint about a misspelled keyword yields
/// no edit, since the keyword is an earlier token than the one at the fault.
fn edit_by<'a>(hint: &'a str, code: Code, token: &[u8], range: Range) -> Option<Edit<'a>> {
    if code == Code::UnexpectedToken && hint.starts_with("did you mean") {
        return None;
    }
    let change = change_by(hint, str::from_utf8(token).ok()?)?;
    let range = if change.is_before {
        range_of(range.line, range.column, 0)
    } else {
        range
    };
    Some(Edit {
        range,
        text: change.text,
    })
}

// ---- output lines

/// Returns the text itself, or `None` if it is empty.
fn if_any(text: &str) -> Option<&str> {
    if text.is_empty() { None } else { Some(text) }
}

/// Returns the second source position for a fault, if there is one: the position where the variable's state changed, or a position to
/// which the explanation of the fault refers.
fn other_place(message: &Message<'_>) -> Option<Span> {
    match message.refusal.cause {
        Some(cause) => Some(cause.span),
        None => message.refusal.place,
    }
}

/// Returns the words of the message about the second source position of a fault.
fn words_on_place(alloc: Global, message: &Message<'_>) -> Result<String, AllocError> {
    let Message { text, refusal, .. } = *message;
    match refusal.cause {
        Some(cause) => format!(in alloc;
            "{}",
            Deed {
                text,
                code: refusal.fault.code,
                cause
            }
        ),
        None => format!(in alloc; "{}", Lines(message.said())),
    }
}

/// Returns a fault as a JSON object and a line feed. The JSON strings are those for human readers: a byte of the source file that is not
/// valid UTF-8, or a control character, is written as `\x` and two hexadecimal digits.
pub fn line_of_refusal(
    alloc: Global,
    message: &Message<'_>,
    is_first: bool,
) -> Result<String, AllocError> {
    let Message {
        name,
        text,
        refusal,
    } = *message;
    let fault = refusal.fault;
    let rule = format!(in alloc; "{:?}", fault.code)?;
    let file = format!(in alloc; "{}", Shown(name.as_bytes()))?;
    let summary = format!(in alloc; "{}", Summary(message))?;
    let detail = format!(in alloc; "{}", Lines(message.detail()))?;
    let hint = format!(in alloc; "{}", Advice(message))?;
    let other = words_on_place(alloc, message)?;
    let range = range_of_fault(text, fault);
    let token = token_at(text, fault.line, fault.column);
    let entry = Entry {
        kind: "refusal",
        rule: rule.as_str(),
        code: Some(fault.code.number()),
        is_first,
        file: file.as_str(),
        range,
        message: summary.as_str(),
        detail: if_any(detail.as_str()),
        hint: Some(hint.as_str()),
        edit: edit_by(hint.as_str(), fault.code, token, range),
        related: match other_place(message) {
            Some(span) => Some(Related {
                range: range_at(text, span),
                message: other.as_str(),
            }),
            None => None,
        },
    };
    format!(in alloc; "{entry}\n")
}

/// Returns the name of a kind of warning.
fn name_of(warning: Warning) -> &'static str {
    match warning {
        Warning::DoubleMinus => "DoubleMinus",
        Warning::AddedMinus => "AddedMinus",
        Warning::ConditionAssigns => "ConditionAssigns",
        Warning::ShiftCount => "ShiftCount",
        Warning::CharCompared => "CharCompared",
        Warning::CharConstant => "CharConstant",
        Warning::EmptyIf => "EmptyIf",
        Warning::EmptyWhile => "EmptyWhile",
        Warning::NoEffect => "NoEffect",
        Warning::OrderChain => "OrderChain",
        Warning::ConstantOperand => "ConstantOperand",
        Warning::ComparedFirst => "ComparedFirst",
        Warning::DivisionByZero => "DivisionByZero",
        Warning::ArraySize => "ArraySize",
        Warning::IndexOutside => "IndexOutside",
        Warning::Unreachable => "Unreachable",
        Warning::NeverRead => "NeverRead",
        Warning::NeverGivenBack => "NeverGivenBack",
        Warning::HiddenCharacter => "HiddenCharacter",
        Warning::SelfCompared => "SelfCompared",
        Warning::SelfAssigned => "SelfAssigned",
        Warning::NotCompared => "NotCompared",
        Warning::ShiftOfSum => "ShiftOfSum",
        Warning::NeverBoth => "NeverBoth",
        Warning::AlwaysOne => "AlwaysOne",
        Warning::DanglingElse => "DanglingElse",
        Warning::MisleadingIndent => "MisleadingIndent",
        Warning::HidesLocal => "HidesLocal",
        Warning::SameCondition => "SameCondition",
        Warning::KeyNeverFreed => "KeyNeverFreed",
        Warning::UnchangedCondition => "UnchangedCondition",
    }
}

/// Returns the JSON object for a warning about this source file, with this message.
fn entry_of_warning<'a>(file: &'a str, message: &'a str, text: &[u8], found: &Found) -> Entry<'a> {
    Entry {
        kind: "warning",
        rule: name_of(found.warning),
        code: None,
        is_first: false,
        file,
        range: range_at(text, found.span),
        message,
        detail: None,
        hint: None,
        edit: None,
        related: None,
    }
}

/// Returns a warning as a JSON object and a line feed.
pub fn line_of_warning(
    alloc: Global,
    name: &str,
    text: &[u8],
    found: &Found,
) -> Result<String, AllocError> {
    let file = format!(in alloc; "{}", Shown(name.as_bytes()))?;
    let message = format!(in alloc; "{}", WarningText { text, found })?;
    let entry = entry_of_warning(file.as_str(), message.as_str(), text, found);
    format!(in alloc; "{entry}\n")
}
