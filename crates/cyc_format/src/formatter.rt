//! Formats a text. If memory runs out, the text stays unchanged.
ghost use Rattle.cyc_words.specs.Decision.{Decides};
ghost use Rattle.cyc_lex.specs.Refusals.{IsAccepted, IsRefused};
ghost use Rattle.cyc_format.specs.Formatted.{HasSameTokens};

use crate::comparison::are_spelled_alike;
use crate::layout::lay_out;
use cyc_lex::lex;
use cyc_syntax::Token;
use cyc_words::{Code, Fault};
use std::alloc::Global;

/// The maximal number of times that the formatter formats a text again to find a layout that formatting leaves unchanged.
const MOST_ROUNDS: usize = 4;

/// Returns a layout of a text with these tokens that formatting leaves unchanged, or the text itself if none is found. Returns `None` if
/// memory runs out. For a valid program the first layout is a correct result.
fn lay_out_settled(alloc: Global, text: &[u8], tokens: &[Token]) -> Option<Vec<u8>> {
    let mut laid = lay_out(alloc, text, tokens)?;
    for _ in 0..MOST_ROUNDS {
        let tokens = match lex(alloc, laid.as_slice()) {
            Ok(tokens) => tokens,
            Err(_) => return Some(laid),
        };
        let again = lay_out(alloc, laid.as_slice(), tokens.as_slice())?;
        if again.as_slice() == laid.as_slice() {
            return Some(laid);
        }
        laid = again;
    }
    Vec::from_slice(alloc, text).ok()
}

/// Formats a text. The result has the same tokens as the text. If the layout had other tokens or exceeded the size limit of texts, the
/// text is returned unchanged.
///
/// If a text has no list of tokens, `format` returns the fault that `lex` returns. The only other error of `format` is lack of memory.
pub fn format(alloc: Global, text: &[u8]) -> Result<Vec<u8>, Fault>
    ensures { Decides (IsAccepted text.now) (λ tokens answer. HasSameTokens tokens answer.items) (IsRefused text.now) (IsRefused text.now) result }
{
    let tokens = lex(alloc, text)?;
    let read = tokens.as_slice();
    let Some(laid) = lay_out_settled(alloc, text, read) else {
        return Err(Fault::memory());
    };
    let written = laid.as_slice();
    match lex(alloc, written) {
        Ok(others) => {
            let found = others.as_slice();
            let same = are_spelled_alike(text, read, written, found);
            if same {
                return Ok(laid);
            }
        }
        Err(fault) if fault.code == Code::Memory => return Err(Fault::memory()),
        Err(_) => {}
    }
    Ok(Vec::from_slice(alloc, text)?)
}
