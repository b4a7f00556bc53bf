//! Fixed-width numbers in the headers, most significant byte first.

ghost use Rattle.std.specs.Prelude.{◌≡◌, ◌+◌, ◌≤◌, length};
ghost use Rattle.cyc_elf.specs.Header.{field};

use byteorder::{BigEndian, ByteOrder};

/// Returns the number in the two bytes at `offset`.
#[tactic(auto, unfolding(crate::specs::Header::field))]
pub fn half_at(file: &[u8], offset: usize) -> u16
    requires { offset + 2 ≤ length file.now }
    ensures { result ≡ field 2 offset file.now }
{
    BigEndian::read_u16(&file[offset..])
}

/// Returns the number in the four bytes at `offset`.
#[tactic(auto, unfolding(crate::specs::Header::field))]
pub fn word_at(file: &[u8], offset: usize) -> u32
    requires { offset + 4 ≤ length file.now }
    ensures { result ≡ field 4 offset file.now }
{
    BigEndian::read_u32(&file[offset..])
}
