//! This file defines an input device over the trait `Read` of std.

ghost use Rattle.std.specs.Prelude.{◌≡◌, false};

use super::device::{ByteIn, Failed};
use std::io::Read;

/// An input device over a reader of std. The device reports the unread bytes if the reader reports them.
///
/// Each call of the device makes one read of one byte. A read of 0 bytes is the end of the input. Every error of the reader,
/// even `Interrupted`, is a failure; after a failure the reader is never called again.
#[derive(Drop)]
pub struct Reader<R> {
    inner: R,
    has_failed: bool,
    has_ended: bool,
    was_asked_past_end: bool,
}

impl<R> Reader<R> {
    ghost use Rattle.cyc_words.specs.inside.Reader.{
      reader_inner,
      reader_has_failed,
      reader_has_ended,
      reader_was_asked_past_end,
    };

    /// Returns a device over `inner` that has not failed and has not reached the end of the input.
    pub fn new(inner: R) -> Self
        ensures inner { reader_inner result ≡ inner }
        ensures works { reader_has_failed result ≡ false }
        ensures begins { reader_has_ended result ≡ false }
        ensures unasked { reader_was_asked_past_end result ≡ false }
    {
        Reader {
            inner,
            has_failed: false,
            has_ended: false,
            was_asked_past_end: false,
        }
    }

    /// Returns true once a byte was requested after the end of the input.
    pub fn was_asked_past_end(&self) -> bool
        ensures { result ≡ reader_was_asked_past_end self.now }
    {
        self.was_asked_past_end
    }
}

impl<R: Read> ByteIn for Reader<R> {
    ghost remaining = { λ s. R.remaining s.inner };

    ghost failed = { λ s. s.has_failed };

    ghost ended = { λ s. s.has_ended };

    ghost asked_past_end = { λ s. s.was_asked_past_end };

    fn next(&mut self) -> Result<Option<u8>, Failed> {
        self.was_asked_past_end = self.has_ended || self.was_asked_past_end;
        if self.has_failed {
            return Err(Failed);
        }
        let mut byte = [0];
        match self.inner.read(&mut byte) {
            Ok(0) => {
                self.has_ended = true;
                Ok(None)
            }
            Ok(_) => Ok(Some(byte[0])),
            Err(_) => {
                self.has_failed = true;
                Err(Failed)
            }
        }
    }
}
