//! This file represents a word as four bytes, big-endian.

ghost use Rattle.std.specs.Prelude.{◌≡◌};
ghost use Rattle.cyc_words.specs.Bytes.{bytes_of_word, word_of_bytes, byte_in, with_byte};

/// Returns the word whose four bytes are given, the highest byte first.
pub fn word_at(bytes: &[u8; 4]) -> u32
    ensures { result ≡ word_of_bytes bytes.now }
{
    u32::from_be_bytes(*bytes)
}

/// Returns the four bytes of a word, the highest byte first.
pub fn bytes_of(word: u32) -> [u8; 4]
    ensures { result ≡ bytes_of_word word }
{
    word.to_be_bytes()
}

/// Returns the byte of a word at a position. Position 0 is the highest byte, at the lowest address; each position from 3 on is the lowest
/// byte.
pub fn byte_in(word: u32, place: u32) -> u8
    ensures { result ≡ byte_in word place }
{
    match place {
        0 => (word / 0x100_0000) as u8,
        1 => (word / 0x1_0000 % 0x100) as u8,
        2 => (word / 0x100 % 0x100) as u8,
        _ => (word % 0x100) as u8,
    }
}

/// Returns the word after its byte at this position is replaced; the other bytes stay unchanged.
pub fn with_byte(word: u32, place: u32, byte: u8) -> u32
    ensures { result ≡ with_byte word place byte }
{
    let byte = byte as u32;
    match place {
        0 => byte * 0x100_0000 + word % 0x100_0000,
        1 => word / 0x100_0000 * 0x100_0000 + byte * 0x1_0000 + word % 0x1_0000,
        2 => word / 0x1_0000 * 0x1_0000 + byte * 0x100 + word % 0x100,
        _ => word / 0x100 * 0x100 + byte,
    }
}
