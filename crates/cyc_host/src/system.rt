//! This file reads the system's limits for this process from files of `/proc`. Without these files, no limit is known.
ghost use Rattle.std.specs.Prelude.{◌≡◌, ◌↔◌, ◌≤◌, ◌-◌, IsTrue};

use std::io::Read;
use std::rt::Files;
use std::{fs, str};

/// The number of bytes of stack that the program requires. A quarter of the stack may hold the command line and the environment, for which
/// the system allows no more. No command needs more than the remaining stack, for any text or image.
pub const STACK: u64 = 4_194_304;

/// The maximum number of bytes read from a file of `/proc`. Each file of `/proc` that is read has at most this many bytes.
const MOST: usize = 4096;

/// Reads a file of `/proc`, as far as it fits in `room`. Returns the number of bytes read; 0 if the file does not exist.
fn read_part<R: Files>(rt: &R, path: &str, room: &mut [u8; MOST]) -> usize
    ensures { result ≤ 4096 }
{
    let Ok(mut file) = fs::open(rt, path) else {
        return 0;
    };
    file.read(room).unwrap_or(0)
}

/// Returns the first word (the text up to a space or tab) of a text.
fn first_word(text: &[u8]) -> Option<&str> {
    for word in text.split(|byte| matches!(*byte, b' ' | b'\t')) {
        if !word.is_empty() {
            return str::from_utf8(word).ok();
        }
    }
    None
}

/// Returns the first word after a name at the beginning of a line of a text.
fn word_after<'a>(text: &'a [u8], name: &[u8]) -> Option<&'a str> {
    for line in text.split(|byte| *byte == b'\n') {
        if let Some(following) = line.strip_prefix(name) {
            return first_word(following);
        }
    }
    None
}

/// Returns the limit of this process that has the given name in `/proc/self/limits`, in bytes. If there
/// is no such limit, the result is the greatest 64-bit number.
fn limit_of<R: Files>(rt: &R, name: &[u8]) -> u64 {
    let mut room = [0; MOST];
    let count = read_part(rt, "/proc/self/limits", &mut room);
    match word_after(&room[..count], name) {
        Some(word) => word.parse().unwrap_or(u64::MAX),
        None => u64::MAX,
    }
}

/// Returns the limit of the stack size of this process, in bytes.
#[inline(never)]
pub fn stack_limit<R: Files>(rt: &R) -> u64 {
    limit_of(rt, b"Max stack size")
}

/// Returns the limit of the size of files that this process writes, in bytes. The system kills a process that writes beyond this limit.
#[inline(never)]
pub fn file_limit<R: Files>(rt: &R) -> u64 {
    limit_of(rt, b"Max file size")
}

/// Returns true if a stack with this size limit is sufficient for the program.
pub fn is_enough_stack(limit: u64) -> bool
    ensures { IsTrue result ↔ (4194304 ≤ limit) }
{
    limit >= STACK
}

/// Returns the number of bytes that may still be written to a file, given the limit and the file offset of the next byte.
fn room_at(limit: u64, place: u64) -> u64
    ensures { result ≡ limit - place }
{
    limit.saturating_sub(place)
}

/// The flag of an open file that makes each write append to the file. The flags are given in octal.
const APPENDS: u64 = 0o2000;

/// Returns the file offset of the next byte written to the standard output, if the standard output is a file of this length.
fn place_of_output<R: Files>(rt: &R, length: u64) -> u64 {
    let mut room = [0; MOST];
    let count = read_part(rt, "/proc/self/fdinfo/1", &mut room);
    let said = &room[..count];
    let flags = word_after(said, b"flags:").map(|word| u64::from_str_radix(word, 8));
    match flags {
        Some(Ok(flags)) if flags & APPENDS == 0 => {}
        _ => return length,
    }
    match word_after(said, b"pos:") {
        Some(word) => word.parse().unwrap_or(length),
        None => length,
    }
}

/// If the standard output is a file, returns the number of bytes that it accepts under this limit of file sizes. Otherwise returns the
/// greatest 64-bit number.
#[inline(never)]
pub fn room_of_output<R: Files>(rt: &R, limit: u64) -> u64 {
    if limit == u64::MAX {
        return u64::MAX;
    }
    match fs::metadata(rt, "/proc/self/fd/1") {
        Ok(metadata) if metadata.is_file() => {
            room_at(limit, place_of_output(rt, metadata.len()))
        }
        _ => u64::MAX,
    }
}
