//! The note that stores an image's limits on the pages and the calls of a run.

ghost use Rattle.std.specs.Prelude.{◌≡◌, ◌+◌, ◌≤◌, ◌&&◌, not, nat_lt, ◌==◌, length};
ghost use Rattle.cyc_elf.specs.Header.{field};
ghost use Rattle.cyc_elf.specs.Note.{named_size, note_size, description_size, note_type, is_named, limits_at, are_limits};

use crate::fields::word_at;

/// The name of the note's owner, with its terminating zero byte.
pub const NAME: [u8; 8] = [b'C', b'y', b'c', b'l', b'o', b'n', b'e', 0];

/// The size of the owner's name in bytes, with its terminating zero.
pub const NAME_SIZE: u32 = 8;

/// The size of a note's description in bytes, which are two machine words.
pub const DESCRIPTION_SIZE: u32 = 8;

/// The type that distinguishes the note with limits from other notes of the owner "Cyclone".
pub const NOTE_TYPE: u32 = 1;

/// The number of bytes of a note up to the end of the owner's name.
pub const NAMED_SIZE: usize = 20;

/// The number of bytes of a note with limits on pages and calls.
pub const NOTE_SIZE: usize = 28;

/// The smallest number of pages that a note may specify.
pub const MIN_PAGES: u32 = 3;

/// The greatest number of pages that a note may specify.
pub const MAX_PAGES: u32 = 65_536;

/// The smallest number of simultaneous calls that a note may specify.
pub const MIN_CALLS: u32 = 1;

/// The greatest number of simultaneous calls that a note may specify.
pub const MAX_CALLS: u32 = 4096;

/// Returns true if the 12-byte ELF note header at `start` has the owner `NAME`'s name size, and the bytes after it begin with `NAME`.
#[tactic(auto, unfolding(crate::specs::Note::is_named))]
pub fn is_named(file: &[u8], start: usize) -> bool
    requires { start + named_size ≤ length file.now }
    ensures { result ≡ is_named file.now start }
{
    word_at(file, start) == NAME_SIZE && file[start + 12..].starts_with(&NAME)
}

/// Returns the maximal numbers of heap pages and of simultaneous calls that the ELF note at `start` states.
#[tactic(auto, unfolding(crate::specs::Note::limits_at))]
pub fn limits_at(file: &[u8], start: usize) -> (u32, u32)
    requires { start + note_size ≤ length file.now }
    ensures { result ≡ limits_at file.now start }
{
    (word_at(file, start + 20), word_at(file, start + 24))
}

/// Returns true if the limits on heap pages and on simultaneous calls are in their allowed ranges.
fn are_limits(limits: (u32, u32)) -> bool
    ensures { result ≡ are_limits limits }
{
    let (pages, calls) = limits;
    MIN_PAGES <= pages && pages <= MAX_PAGES && MIN_CALLS <= calls && calls <= MAX_CALLS
}

/// Returns true if the ELF note of `size` bytes at `start` satisfies the format rules of a note that limits heap pages and
/// simultaneous calls. The function does not check the rule that this must be the first such note.
pub fn keeps_rules(file: &[u8], start: usize, size: usize) -> bool
    requires { start + size ≤ length file.now }
    ensures { result ≡ (not (nat_lt size note_size) && (field 4 (start + 4) file.now == description_size)
        && (field 4 (start + 8) file.now == note_type) && are_limits (limits_at file.now start)) }
{
    NOTE_SIZE <= size
        && word_at(file, start + 4) == DESCRIPTION_SIZE
        && word_at(file, start + 8) == NOTE_TYPE
        && are_limits(limits_at(file, start))
}
