//! Compares the tokens of two texts.
ghost use Rattle.std.specs.Prelude.{◌≡◌, IsTrue, map, All};
ghost use Rattle.cyc_syntax.specs.Tokens.{spelling_of};
ghost use Rattle.cyc_syntax.specs.TokenRule.{LiesIn};

use cyc_syntax::Token;

/// Returns true if the tokens of two texts have equal spellings.
pub(crate) fn are_spelled_alike(
    text: &[u8],
    tokens: &[Token],
    other: &[u8],
    others: &[Token],
) -> bool
    requires lie { All (LiesIn text.now) tokens.now }
    requires others_lie { All (LiesIn other.now) others.now }
    ensures { IsTrue result → map (spelling_of text.now) tokens.now ≡ map (spelling_of other.now) others.now }
{
    if tokens.len() != others.len() {
        return false;
    }
    let mut i = 0;
    while i < tokens.len() {
        let (token, other_token) = (tokens[i], others[i]);
        if text[token.start..token.end] == other[other_token.start..other_token.end] {
            i += 1;
        } else {
            return false;
        }
    }
    true
}
