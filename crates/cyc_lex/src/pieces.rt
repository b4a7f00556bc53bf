//! This file reads one piece: the longest token, space or comment at the start of a text.
ghost use Rattle.std.specs.Prelude.{◌≡◌, ℕ, ◌<◌, ◌≤◌, true, Some, None, length, take, All, IfOk, IfErr, slice_index};
ghost use Rattle.cyc_syntax.specs.Spelling as spec;
ghost use Rattle.cyc_lex.specs.inside.Found.{IsFound};
ghost use Rattle.cyc_lex.specs.Refusals.{FailsHere};

use crate::classes::{escaped, is_hex_digit, is_letter, is_plain, is_space};
use crate::runs::{
    MAX_NUMBER, closed_len, digits_len, hex_digits_len, line_len, name_len, number_value,
};
use crate::spellings::{keyword, sign};
use cyc_syntax::{Sign, TokenKind};
use cyc_words::Code;

/// The piece (token, space or comment) at the start of a text: its kind, if it is a token, and its length.
#[derive(Clone, Copy)]
pub struct Found {
    pub kind: Option<TokenKind>,
    pub len: usize,
}

fn token(kind: TokenKind, len: usize) -> Found
    ensures { result ≡ record { kind = Some kind; len = len } }
{
    Found {
        kind: Some(kind),
        len,
    }
}

fn blank(len: usize) -> Found
    ensures { result ≡ record { kind = None; len = len } }
{
    Found { kind: None, len }
}

/// Reads a name, or the keyword that the name spells.
fn read_name(text: &[u8]) -> Found
    requires nonempty { 0 < length text.now }
    requires letter { spec.is_letter (slice_index text.now 0) ≡ true }
    ensures { IsFound text.now result.kind result.len }
{
    let len = name_len(text);
    match keyword(&text[..len]) {
        Some(keyword) => token(TokenKind::Keyword(keyword), len),
        None => token(TokenKind::Identifier, len),
    }
}

/// Reads a region name: a backquote and a name, which may be spelled like a keyword.
fn read_region_name(text: &[u8]) -> Result<Found, Code>
    requires nonempty { 0 < length text.now }
    requires backquote { slice_index text.now 0 ≡ 96 }
    ensures found { IfOk result (λ f. IsFound text.now f.kind f.len) }
    ensures fails { IfErr result (λ code. FailsHere code text.now) }
{
    if text.len() < 2 || !is_letter(text[1]) {
        return Err(Code::UnknownByte);
    }
    Ok(token(TokenKind::RegionName, 1 + name_len(&text[1..])))
}

/// Returns true if the text begins with a hexadecimal number: `0x` or `0X`, and a digit.
fn begins_hexadecimal(text: &[u8]) -> bool
    ensures { result ≡ spec.is_hexadecimal (take 3 text.now) }
{
    text.len() > 2
        && text[0] == b'0'
        && (text[1] == b'x' || text[1] == b'X')
        && is_hex_digit(text[2])
}

/// Returns the number that these digits denote, as a piece of this length.
fn number(base: u64, digits: &[u8], len: usize) -> Result<Found, Code>
    requires positive { 0 < base }
    requires within { base ≤ 16 }
    requires digits { All (λ b. spec.is_hex_digit b ≡ true) digits.now }
    ensures found { IfOk result (λ f. (n : ℕ) × (n ≡ spec.number_in base digits.now) × (n ≤ MAX_NUMBER)
        × (f ≡ record { kind = Some (TokenKind.Number n); len = len })) }
    ensures fails { IfErr result (λ code. (code ≡ Code.NumberTooLarge) × (MAX_NUMBER < spec.number_in base digits.now)) }
{
    match number_value(base, digits) {
        Some(n) => Ok(token(TokenKind::Number(n), len)),
        None => Err(Code::NumberTooLarge),
    }
}

/// Reads a number: `0`, a decimal number with another first digit, or a hexadecimal number.
fn read_number(text: &[u8]) -> Result<Found, Code>
    requires nonempty { 0 < length text.now }
    requires digit { spec.is_digit (slice_index text.now 0) ≡ true }
    ensures found { IfOk result (λ f. IsFound text.now f.kind f.len) }
    ensures fails { IfErr result (λ code. FailsHere code text.now) }
{
    if begins_hexadecimal(text) {
        let digits = &text[2..];
        let len = hex_digits_len(digits);
        return number(16, &digits[..len], 2 + len);
    }
    if text[0] == b'0' {
        return Ok(token(TokenKind::Number(0), 1));
    }
    let len = digits_len(text);
    number(10, &text[..len], len)
}

/// Reads a character constant: one byte between single quotes, or an escape sequence.
fn read_character(text: &[u8]) -> Result<Found, Code>
    requires nonempty { 0 < length text.now }
    requires quote { slice_index text.now 0 ≡ 39 }
    ensures found { IfOk result (λ f. IsFound text.now f.kind f.len) }
    ensures fails { IfErr result (λ code. FailsHere code text.now) }
{
    if text.len() > 2 && is_plain(text[1]) && text[2] == b'\'' {
        return Ok(token(TokenKind::Character(text[1]), 3));
    }
    if text.len() < 4 || text[1] != b'\\' || text[3] != b'\'' {
        return Err(Code::UnknownByte);
    }
    match escaped(text[2]) {
        Some(value) => Ok(token(TokenKind::Character(value), 4)),
        None => Err(Code::UnknownByte),
    }
}

/// Reads a comment, or the token `/`.
fn read_slash(text: &[u8]) -> Result<Found, Code>
    requires nonempty { 0 < length text.now }
    requires slash { slice_index text.now 0 ≡ 47 }
    ensures found { IfOk result (λ f. IsFound text.now f.kind f.len) }
    ensures fails { IfErr result (λ code. FailsHere code text.now) }
{
    if text.len() < 2 {
        return Ok(token(TokenKind::Sign(Sign::Slash), 1));
    }
    match text[1] {
        b'/' => Ok(blank(2 + line_len(&text[2..]))),
        b'*' => match closed_len(&text[2..]) {
            Some(len) => Ok(blank(2 + len)),
            None => Err(Code::UnclosedComment),
        },
        _ => Ok(token(TokenKind::Sign(Sign::Slash), 1)),
    }
}

/// Reads the piece (token, space or comment) at the start of a text. Fails if no piece begins there, or if the
/// piece is a number above the limit.
pub fn read_piece(text: &[u8]) -> Result<Found, Code>
    requires { 0 < length text.now }
    ensures found { IfOk result (λ f. IsFound text.now f.kind f.len) }
    ensures fails { IfErr result (λ code. FailsHere code text.now) }
{
    let first = text[0];
    if is_letter(first) {
        return Ok(read_name(text));
    }
    if first.is_ascii_digit() {
        return read_number(text);
    }
    if first == b'/' {
        return read_slash(text);
    }
    if let Some((sign, len)) = sign(text) {
        return Ok(token(TokenKind::Sign(sign), len));
    }
    match first {
        b'`' => read_region_name(text),
        b'\'' => read_character(text),
        _ if is_space(first) => Ok(blank(1)),
        _ => Err(Code::UnknownByte),
    }
}
