//! This file provides the standard input as a reader. When the reader of a file is dropped, the file's position is after the last byte
//! that was consumed, as a program in C leaves it.
use std::io::{BufRead, Lock, Read, Stdin, StdinLock};
use std::{fs, io};

/// The standard input of the program.
#[derive(Drop)]
pub enum Input {
    /// The standard input is a regular file. While it is locked, it reads ahead, and when the lock is dropped, it seeks back
    /// over the bytes that were not consumed.
    File(StdinLock<'static>),
    /// The standard input is a pipe, a terminal or a device, in which seeking back is not possible.
    Stream(Stdin),
}

impl Input {
    /// The standard input.
    pub fn new(rt: &HostRuntime) -> Input {
        match fs::metadata(rt, "/dev/stdin") {
            Ok(metadata) if metadata.is_file() => Input::File(rt.stdin().lock()),
            _ => Input::Stream(rt.stdin()),
        }
    }

    /// Returns true if a read may block until bytes arrive.
    pub fn may_wait(&self) -> bool {
        matches!(self, Input::Stream(_))
    }
}

impl Read for Input {
    fn read(&mut self, bytes: &mut [u8]) -> io::Result<usize> {
        match self {
            Input::File(lock) => {
                lock.fill_buf()?;
                lock.read(bytes)
            }
            Input::Stream(stdin) => stdin.read(bytes),
        }
    }
}
