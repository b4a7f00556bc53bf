//! This file defines devices that read or write one byte at a time.

ghost use Rattle.std.specs.Prelude.{◌≡◌, ◌||◌, ℕ, List, Bool, true, Option, is_err, IsTrue, IsErr, OnOk, OnErr, flat_map};
ghost use Rattle.std.specs.Io.KnownBytes.{Keeps};
ghost use Rattle.cyc_words.specs.Device.{Gives, Takes, TakesText, is_end};

/// The error of a device that could not read or write a byte.
#[derive(Clone, Copy, Debug, PartialEq, Eq)]
pub struct Failed;

/// An input device.
///
/// A `ByteIn` may report the bytes that have not been read yet; `None` reports nothing. The reported bytes are consumed one at a time
/// from the front.
pub trait ByteIn {
    ghost remaining: { Self → Option (List ℕ) };

    ghost failed: { Self → Bool };

    /// True once a call of `next` has returned the end of the input.
    ghost ended: { Self → Bool };

    /// True once a byte was requested after the end of the input.
    ghost asked_past_end: { Self → Bool };

    /// Returns the next byte, or `None` at the end of the input.
    ///
    /// Any call of `next` may return `Failed`; after such a failure, each later call returns `Failed`. A failure does not change the
    /// bytes that the device reports as unread.
    fn next(&mut self) -> Result<Option<u8>, Failed>
        ensures bytes { Gives (remaining self.old) result (remaining self.new) }
        ensures fails { failed self.new ≡ is_err result }
        ensures stays { IsTrue (failed self.old) → IsErr result }
        ensures ends { ended self.new ≡ (is_end result || ended self.old) }
        ensures asks { asked_past_end self.new ≡ (ended self.old || asked_past_end self.old) };

    /// Returns true if the result of the next call of `next` is available without waiting.
    fn is_ready(&self) -> bool {
        false
    }
}

/// An output device.
///
/// A `ByteOut` may report the bytes that it has taken; `None` reports nothing. The reported bytes only grow at the end.
pub trait ByteOut {
    ghost written: { Self → Option (List ℕ) };

    ghost failed: { Self → Bool };

    /// Takes one byte.
    ///
    /// Any call of `put` may return `Failed`; after such a failure, each later call returns `Failed`. A failure does not change the
    /// bytes that the device reports as written.
    fn put(&mut self, byte: u8) -> Result<(), Failed>
        ensures bytes { Takes (written self.old) byte result (written self.new) }
        ensures fails { failed self.new ≡ is_err result }
        ensures stays { IsTrue (failed self.old) → IsErr result };

    /// Flushes the bytes that the device has taken but has not yet passed on; a caller uses it before a call that waits for input.
    ///
    /// Flushing does not change the reported bytes. If flushing fails, then the next call of `put` returns the failure.
    fn pass_on(&mut self)
        ensures bytes { Keeps (written self.old) (written self.new) }
        ensures fails { failed self.new ≡ failed self.old }
    {}

    /// Takes the bytes of a text in order, up to the first failure.
    final fn put_all(&mut self, text: &[u8]) -> Result<(), Failed>
    where
        Self: Sized,
        ensures bytes { TakesText (written self.old) text.now result (written self.new) }
        ensures works { OnOk result (failed self.new ≡ failed self.old) }
        ensures fails { OnErr result (failed self.new ≡ true) }
    {
        for byte in text {
            self.put(*byte)?;
        }
        Ok(())
    }

    /// Takes several texts in order, up to the first failure.
    final fn put_parts(&mut self, parts: &[&[u8]]) -> Result<(), Failed>
    where
        Self: Sized,
        ensures bytes { TakesText (written self.old) (flat_map (λ part. part.now) parts.now) result
            (written self.new) }
        ensures works { OnOk result (failed self.new ≡ failed self.old) }
        ensures fails { OnErr result (failed self.new ≡ true) }
    {
        for part in parts {
            self.put_all(part)?;
        }
        Ok(())
    }
}
