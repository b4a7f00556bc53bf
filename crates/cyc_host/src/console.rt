//! This file provides the standard input and output of a run as devices. The standard output of a run is buffered. The buffer is flushed
//! before the run waits for input, so that a user sees a question before answering it. On a terminal the buffer is also flushed after each
//! line.
ghost use Rattle.std.specs.Prelude.{◌≡◌, [], ◌∷◌, false, IfOk, IsTrue, MatchOption, OnOk};
ghost use Rattle.std.specs.Io.{ReadsAtMost};
ghost use Rattle.std.specs.Io.Buffered.{reader_remaining};
ghost use Rattle.std.specs.Io.KnownBytes.{Consumes, Keeps, ReadConsumes};
ghost use Rattle.cyc_words.specs.Device.{Gives};
ghost use Rattle.cyc_host.specs.inside.Console.{EndsAs, screen_held, screen_is_stuck, screen_written};

use crate::answer::Answer;
use cyc_words::{ByteIn, ByteOut, Failed};
use std::alloc::Global;
use std::io;
use std::io::{BufRead, BufReader, BufWriter, ErrorKind, Read, Write};

/// The standard output of a run, with a buffer.
#[derive(Drop)]
pub struct Screen<W: Write + Drop> {
    output: BufWriter<W>,
    /// True if each line is flushed as soon as it ends.
    by_lines: bool,
    /// True if some byte was written since the last line feed.
    is_within_line: bool,
    /// True if buffered bytes could not be flushed.
    is_stuck: bool,
    has_failed: bool,
}

impl<W: Write + Drop> Screen<W> {
    ghost use Rattle.cyc_host.specs.inside.Console.{screen_written, screen_held, screen_is_stuck};

    /// Returns a screen with an empty buffer; with `by_lines` each line is flushed when it ends. The only error is that memory for
    /// the buffer cannot be allocated.
    pub fn new(alloc: Global, output: W, by_lines: bool) -> io::Result<Self>
        ensures { IfOk result (λ s. Keeps (W.contents output) (screen_written W.contents s)) }
    {
        Ok(Screen {
            output: BufWriter::new(alloc, output)?,
            by_lines,
            is_within_line: false,
            is_stuck: false,
            has_failed: false,
        })
    }

    /// Returns true if the user has seen the beginning of a line that has not ended.
    pub fn is_within_line(&self) -> bool {
        self.by_lines && self.is_within_line
    }

    /// Flushes the buffer. On success the buffer is empty, and every required flush succeeded.
    pub fn finish(&mut self) -> io::Result<()>
        ensures bytes { Keeps (screen_written W.contents self.old) (screen_written W.contents self.new) }
        ensures whole { OnOk result (screen_held self.new ≡ []) }
        ensures never_stuck { OnOk result ((screen_is_stuck self.old ≡ false) × (screen_is_stuck self.new ≡ false)) }
    {
        if self.is_stuck {
            return Err(io::Error::from(ErrorKind::WriteZero));
        }
        match self.output.flush() {
            Ok(()) => Ok(()),
            Err(error) => {
                self.is_stuck = true;
                Err(error)
            }
        }
    }
}

impl<W: Write + Drop> ByteOut for Screen<W> {
    ghost use Rattle.cyc_host.specs.inside.Console.{screen_written, screen_is_stuck};

    ghost written = { screen_written W.contents };

    ghost failed = { λ s. s.has_failed };

    fn put(&mut self, byte: u8) -> Result<(), Failed> {
        if self.has_failed || self.is_stuck {
            self.has_failed = true;
            return Err(Failed);
        }
        match self.output.write(&[byte]) {
            Ok(1) => {}
            Ok(_) | Err(_) => {
                self.has_failed = true;
                return Err(Failed);
            }
        }
        self.is_within_line = byte != b'\n';
        if self.by_lines && !self.is_within_line {
            self.pass_on();
        }
        Ok(())
    }

    fn pass_on(&mut self)
        ensures bytes { Keeps (screen_written W.contents self.old) (screen_written W.contents self.new) }
        ensures fails { self.new.has_failed ≡ self.old.has_failed }
        // A failure to flush is permanent: no later operation clears it.
        ensures sticks { IsTrue (screen_is_stuck self.old) → IsTrue (screen_is_stuck self.new) }
    {
        if self.output.flush().is_err() {
            self.is_stuck = true;
        }
    }
}

/// Returns the outcome of a command, or a write fault if the command's output could not be flushed completely.
pub fn finish_for<W: Write + Drop>(screen: &mut Screen<W>, answer: Answer) -> Answer
    ensures answer { EndsAs answer (screen_held screen.new) (screen_is_stuck screen.new) result }
    ensures bytes { Keeps (screen_written W.contents screen.old) (screen_written W.contents screen.new) }
{
    match screen.finish() {
        Ok(()) => answer,
        Err(_) => Answer::WriteFault,
    }
}

/// The largest number of retries of a read that a signal interrupted.
const TRIES: usize = 64;

/// The number of bytes that are read ahead from a reader that may block.
const MOST_AHEAD: usize = 8192;

/// The standard input of a run, with a buffer.
#[derive(Drop)]
pub struct Keyboard<R> {
    input: BufReader<R>,
    /// True if a read of a byte that is not in the buffer may block.
    may_wait: bool,
    has_failed: bool,
    has_ended: bool,
    was_asked_past_end: bool,
    /// The bytes that were read, if they are recorded.
    kept: Option<Vec<u8>>,
}

/// The largest number of bytes of an input that are recorded.
const MOST_KEPT: usize = 67_108_864;

/// Returns the recorded bytes of an input extended by one more byte; `None` if this byte cannot be
/// recorded, as when `MOST_KEPT` bytes already are.
fn kept_with(kept: Option<Vec<u8>>, byte: u8) -> Option<Vec<u8>> {
    let mut bytes = kept?;
    if bytes.len() >= MOST_KEPT || bytes.push(byte).is_err() {
        return None;
    }
    Some(bytes)
}

/// Reads a byte, and retries if a signal interrupts the read.
#[tactic(auto, using(cyc_words::proofs::DeviceLemmas::Keeps_trans, cyc_words::proofs::DeviceLemmas::ReadConsumes_kept))]
fn read_byte<R: Read>(input: &mut R, byte: &mut [u8]) -> io::Result<usize>
    ensures bound { ReadsAtMost result byte.new }
    ensures bytes { ReadConsumes (R.remaining input.old) (R.remaining input.new) result byte.new }
{
    for _ in 0..TRIES {
        match input.read(byte) {
            Err(error) if error.kind() == ErrorKind::Interrupted => {}
            result => return result,
        }
    }
    input.read(byte)
}

/// Removes the first byte from the input buffer and returns it; `None` if the buffer is empty.
fn take_held<R: Read>(input: &mut BufReader<R>) -> Option<u8>
    ensures { MatchOption result (input.new ≡ input.old)
        (λ byte. Consumes (reader_remaining R.remaining input.old) (reader_remaining R.remaining input.new) (byte ∷ [])) }
{
    let held = input.buffer();
    if held.is_empty() {
        return None;
    }
    let byte = held[0];
    input.consume(1);
    Some(byte)
}

/// Returns the next byte of an input, and reads from the device if the buffer is empty.
fn next_byte<R: Read>(input: &mut BufReader<R>) -> io::Result<Option<u8>>
    ensures { Gives (reader_remaining R.remaining input.old) result (reader_remaining R.remaining input.new) }
{
    if let Some(byte) = take_held(input) {
        return Ok(Some(byte));
    }
    let mut byte = [0];
    match read_byte(input, &mut byte) {
        Ok(0) => Ok(None),
        Ok(_) => Ok(Some(byte[0])),
        Err(error) => Err(error),
    }
}

impl<R: Read + Drop> Keyboard<R> {
    ghost use Rattle.cyc_host.specs.inside.Console.{keyboard_remaining};

    /// Returns a keyboard from which nothing was requested yet; a reader that never blocks (`may_wait` is false) is read one byte at a
    /// time. The constructor fails if memory for the buffer cannot be allocated.
    pub fn new(alloc: Global, input: R, may_wait: bool) -> io::Result<Self>
        ensures { IfOk result (λ k. Keeps (R.remaining input) (keyboard_remaining R.remaining k)) }
    {
        let ahead = if may_wait { MOST_AHEAD } else { 1 };
        Ok(Keyboard {
            input: BufReader::with_capacity(alloc, ahead, input)?,
            may_wait,
            has_failed: false,
            has_ended: false,
            was_asked_past_end: false,
            kept: None,
        })
    }

    /// Records all input that is read from now on, so that a run can be replayed.
    pub fn keep(&mut self, alloc: Global)
        ensures { keyboard_remaining R.remaining self.new ≡ keyboard_remaining R.remaining self.old }
    {
        self.kept = Some(Vec::new(alloc));
    }

    /// Returns the recorded bytes of the input; `None` if nothing is recorded, as when there were too many bytes.
    pub fn kept(&self) -> Option<&[u8]> {
        match &self.kept {
            Some(bytes) => Some(bytes.as_slice()),
            None => None,
        }
    }
}

impl<R: Read> ByteIn for Keyboard<R> {
    ghost use Rattle.cyc_host.specs.inside.Console.{keyboard_remaining};

    ghost remaining = { keyboard_remaining R.remaining };

    ghost failed = { λ k. k.has_failed };

    ghost ended = { λ k. k.has_ended };

    ghost asked_past_end = { λ k. k.was_asked_past_end };

    fn next(&mut self) -> Result<Option<u8>, Failed> {
        self.was_asked_past_end = self.has_ended || self.was_asked_past_end;
        if self.has_failed {
            return Err(Failed);
        }
        match next_byte(&mut self.input) {
            Ok(Some(byte)) => {
                if self.kept.is_some() {
                    self.kept = kept_with(self.kept.take(), byte);
                }
                Ok(Some(byte))
            }
            Ok(None) => {
                self.has_ended = true;
                Ok(None)
            }
            Err(_) => {
                self.has_failed = true;
                Err(Failed)
            }
        }
    }

    /// Returns true if a byte is buffered, or if reading cannot block.
    fn is_ready(&self) -> bool {
        !self.may_wait || !self.input.buffer().is_empty()
    }
}
