//! This file provides the standard output as a writer. It returns an error before the system would kill the
//! process for exceeding the limit of file sizes.
ghost use Rattle.std.specs.Prelude.{◌≡◌, take};

use crate::system::{file_limit, room_of_output};
use std::io;
use std::io::{ErrorKind, Write};

/// The standard output of the program. If it is a file of the greatest length that the system allows, then writing a further byte is an
/// error, instead of a signal that kills the process.
#[derive(Drop)]
pub struct Output<'a> {
    rt: &'a HostRuntime,
    /// The greatest length that the system allows for a file.
    limit: u64,
}

/// Returns at most the first `most` bytes of a slice.
fn first(bytes: &[u8], most: u64) -> &[u8]
    ensures { result.now ≡ take most bytes.now }
{
    match usize::try_from(most) {
        Ok(most) if most < bytes.len() => &bytes[..most],
        _ => bytes,
    }
}

impl<'a> Output<'a> {
    /// Returns the standard output.
    pub fn new(rt: &'a HostRuntime) -> Output<'a> {
        Output {
            rt,
            limit: file_limit(rt),
        }
    }
}

impl<'a> Write for Output<'a> {
    fn write(&mut self, bytes: &[u8]) -> io::Result<usize> {
        let part = first(bytes, room_of_output(self.rt, self.limit));
        if part.is_empty() && !bytes.is_empty() {
            return Err(io::Error::from(ErrorKind::FileTooLarge));
        }
        self.rt.stdout().write(part)
    }

    fn flush(&mut self) -> io::Result<()> {
        self.rt.stdout().flush()
    }
}
