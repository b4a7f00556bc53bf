//! A device that refuses every exchange of a byte, for runs that use no input and no output.

ghost use Rattle.std.specs.Prelude.{None, false, true};

use cyc_words::{ByteIn, ByteOut, Failed};

/// A device that fails at each call, so that the machine leaves each exchange to `step`.
#[derive(Drop)]
pub struct Closed;

impl ByteIn for Closed {
    ghost remaining = { λ _. None };

    ghost failed = { λ _. true };

    ghost ended = { λ _. false };

    ghost asked_past_end = { λ _. false };

    fn next(&mut self) -> Result<Option<u8>, Failed> {
        Err(Failed)
    }
}

impl ByteOut for Closed {
    ghost written = { λ _. None };

    ghost failed = { λ _. true };

    fn put(&mut self, _byte: u8) -> Result<(), Failed> {
        Err(Failed)
    }
}
