//! This file prints messages to the user: a message never fills more than a screen or two, no matter what the
//! text or the command line contains.
ghost use Rattle.std.specs.Prelude.{IfSome, ◌≤◌, length};
ghost use Rattle.std.specs.Fmt.Cut.{IsTextOrCut};
ghost use Rattle.std.specs.Fmt.InlineText.{inline_text};

use std::fmt::{Display, InlineText};

/// The largest number of bytes of a message; a message that is cut to this length is followed by a line feed.
pub const MOST_SAID: usize = 4095;

/// Returns the bytes of a message: the complete message, or as many bytes as allowed, ending in three dots.
pub fn within_bounds<D: Display + Drop>(message: D) -> InlineText<MOST_SAID>
    ensures bounded { length (inline_text result) ≤ MOST_SAID }
    ensures whole { IfSome (D.output message) (λ bytes. IsTextOrCut MOST_SAID bytes (inline_text result)) }
{
    InlineText::of(message)
}

/// Prints a message on standard error. A failure to print is ignored.
pub fn say<R: Eprint, D: Display + Drop>(rt: &R, message: D) {
    let text = within_bounds(message);
    let lines = text.as_str();
    let _ = rt.eprint(lines);
    if !lines.ends_with('\n') {
        let _ = rt.eprint("\n");
    }
}
