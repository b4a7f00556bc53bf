//! The stack frames of all functions of a program.
ghost use Rattle.std.specs.Prelude.{◌≡◌};

use crate::frame::Frame;
use std::marker::Model;

/// A frame for each function of a program, in the order of the functions' indices.
#[derive(Drop)]
pub struct Frames {
    frames: Vec<Frame>,
}

impl Model for Frames {
    ghost use Rattle.std.specs.Prelude.{List};
    ghost use Rattle.cyc_frame.specs.inside.Frame.{Frame};

    ghost Value = { List Frame };

    ghost view = { λ a. a.frames.items };
}

impl Frames {
    pub(crate) fn new(frames: Vec<Frame>) -> Frames
        ensures { result ≡ frames.items }
    {
        Frames { frames }
    }

    /// Returns the frames of all functions as a slice.
    pub fn as_slice(&self) -> &[Frame]
        ensures { result.now ≡ self.now }
    {
        &self.frames
    }
}
