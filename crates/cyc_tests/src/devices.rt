//! This file has devices that fail, for tests.

use std::io;

/// A reader and writer that succeeds for a number of calls, fails once, and then succeeds again. The reader supplies the byte x
/// endlessly, and the writer accepts one byte at a time.
#[derive(Drop)]
pub struct FailsOnce {
    calls_before: usize,
    calls: usize,
    pub taken: usize,
}

impl FailsOnce {
    /// Returns a device that succeeds for `calls_before` calls, fails at the next call and then succeeds again.
    pub fn new(calls_before: usize) -> FailsOnce {
        FailsOnce {
            calls_before,
            calls: 0,
            taken: 0,
        }
    }

    fn fails_now(&mut self) -> bool {
        self.calls = self.calls.saturating_add(1);
        self.calls == self.calls_before.saturating_add(1)
    }
}

impl io::Read for FailsOnce {
    fn read(&mut self, buf: &mut [u8]) -> io::Result<usize> {
        if self.fails_now() {
            return Err(io::Error::other("no byte"));
        }
        match buf {
            [first, ..] => {
                *first = b'x';
                Ok(1)
            }
            [] => Ok(0),
        }
    }
}

impl io::Write for FailsOnce {
    fn write(&mut self, buf: &[u8]) -> io::Result<usize> {
        if self.fails_now() || buf.is_empty() {
            return Ok(0);
        }
        self.taken = self.taken.saturating_add(1);
        Ok(1)
    }

    fn flush(&mut self) -> io::Result<()> {
        Ok(())
    }
}
