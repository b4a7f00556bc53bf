//! Computes source positions (line and column) in a text.
ghost use Rattle.std.specs.Prelude.{◌≡◌, ℕ, ◌+◌, ◌^◌, ◌<◌, List, ◌++◌, length};
ghost use Rattle.cyc_syntax.specs.inside.Place.{IsAfter};

use cyc_words::Span;

/// Returns the source position after some bytes, from the position before them.
pub fn place_after(place: Span, bytes: &[u8]) -> Span
    requires line { place.line + length bytes.now < 2 ^ 32 }
    requires column { place.column + length bytes.now < 2 ^ 32 }
    ensures { (front : List ℕ) → IsAfter place front → IsAfter result (front ++ bytes.now) }
{
    let mut line = place.line;
    let mut column = place.column;
    for b in bytes {
        if *b == b'\n' {
            line += 1;
            column = 1;
        } else {
            column += 1;
        }
    }
    Span { line, column }
}
