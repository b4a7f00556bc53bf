//! This file is the lexer: it turns a text into its tokens, or into its first fault.
ghost use Rattle.std.specs.Prelude.{◌≡◌, ◌≤◌, ◌⊎◌, length, map, IfOk, IfErr};
ghost use Rattle.cyc_words.specs.Decision.{Decides};
ghost use Rattle.cyc_words.specs.Fault.{memory_fault};
ghost use Rattle.cyc_syntax.specs.Tokens.{token_of};
ghost use Rattle.cyc_syntax.specs.TokenRule.{AreTokensOf};
ghost use Rattle.cyc_lex.specs.Refusals.{IsAccepted, IsRefused};

use crate::classes::is_space;
use crate::pieces::read_piece;
use cyc_syntax::{Token, place_after};
use cyc_words::{Code, Fault, Span};
use std::alloc::Global;

/// The largest number of bytes of a text.
pub const MAX_BYTES: usize = 1048576;

/// The largest number of tokens of a text.
pub const MAX_TOKENS: usize = 60000;

/// Returns the tokens of a text, by the token rule: at each position the longest token, space or comment is read.
///
/// A text with too many bytes is rejected at 1:1. In any other text, the first fault is reported, and of several codes at one position the
/// lowest one. The faults are a position at which no token, space or comment begins, an unclosed comment, a number above the limit, and
/// one token too many. Any growth of the token list may fail for lack of memory.
pub fn lex(alloc: Global, text: &[u8]) -> Result<Vec<Token>, Fault>
    // For an accepted text the result is its tokens, and for a rejected text its first fault.
    ensures decides { Decides (IsAccepted text.now) (λ tokens v. map (token_of text.now) v.items ≡ tokens) (IsRefused text.now) (IsRefused text.now) result }
    // Each token of the result records its source position and its length in the text.
    ensures lie { IfOk result (λ v. AreTokensOf text.now v.items) }
{
    if text.len() > MAX_BYTES {
        return Err(Fault::new(Code::TextTooLong, 1, 1));
    }
    read_tokens(alloc, text)
}

/// Returns the tokens of a text that has at most `MAX_BYTES` bytes.
fn read_tokens(alloc: Global, text: &[u8]) -> Result<Vec<Token>, Fault>
    requires { length text.now ≤ MAX_BYTES }
    ensures accepted { IfOk result (λ v. IsAccepted text.now (map (token_of text.now) v.items)) }
    ensures lie { IfOk result (λ v. AreTokensOf text.now v.items) }
    ensures refused { IfErr result (λ f. (f ≡ memory_fault) ⊎ IsRefused text.now f) }
{
    let mut tokens = Vec::new(alloc);
    let mut place = Span { line: 1, column: 1 };
    let mut start = 0;
    while start < text.len() {
        if is_space(text[start]) {
            place = place_after(place, &text[start..start + 1]);
            start += 1;
            continue;
        }
        let found = match read_piece(&text[start..]) {
            Ok(found) => found,
            Err(code) => return Err(Fault::new(code, place.line, place.column)),
        };
        let end = start + found.len;
        if let Some(kind) = found.kind {
            if tokens.len() == MAX_TOKENS {
                return Err(Fault::new(Code::TooManyTokens, place.line, place.column));
            }
            let span = place;
            tokens.push(Token {
                kind,
                span,
                start,
                end,
            })?;
            // No token contains a line feed, so after a token only the column advances.
            place.column += found.len as u32;
        } else {
            place = place_after(place, &text[start..end]);
        }
        start = end;
    }
    Ok(tokens)
}
