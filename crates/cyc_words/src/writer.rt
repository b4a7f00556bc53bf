//! This file defines an output device over the trait `Write` of std.

ghost use Rattle.std.specs.Prelude.{◌≡◌, false};

use super::device::{ByteOut, Failed};
use std::io::Write;

/// An output device over a writer of std. The device reports the bytes written to it if the writer reports the bytes that it holds.
///
/// Each call of the device makes one write of one byte. A write that takes no byte is a failure. Every error of the writer, even
/// `Interrupted`, is a failure. After a failure the writer is never called again. The device never flushes the writer.
#[derive(Drop)]
pub struct Writer<W> {
    inner: W,
    has_failed: bool,
}

impl<W> Writer<W> {
    ghost use Rattle.cyc_words.specs.inside.Writer.{writer_inner, writer_has_failed};

    /// Returns a device over `inner` that has not failed.
    pub fn new(inner: W) -> Self
        ensures inner { writer_inner result ≡ inner }
        ensures works { writer_has_failed result ≡ false }
    {
        Writer {
            inner,
            has_failed: false,
        }
    }
}

impl<W: Write> ByteOut for Writer<W> {
    ghost written = { λ s. W.contents s.inner };

    ghost failed = { λ s. s.has_failed };

    fn put(&mut self, byte: u8) -> Result<(), Failed> {
        if self.has_failed {
            return Err(Failed);
        }
        match self.inner.write(&[byte]) {
            Ok(1) => Ok(()),
            Ok(_) | Err(_) => {
                self.has_failed = true;
                Err(Failed)
            }
        }
    }
}
