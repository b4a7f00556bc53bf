//! This file has the arithmetic on counts of words and pages, which every store that is divided into pages uses.

ghost use Rattle.std.specs.Prelude.{◌≡◌, ◌≢◌, ◌+◌, ◌*◌, ◌%◌, ◌^◌, ◌<◌, ◌≤◌, ◌⊎◌, IsTrue, MatchOption, false};
ghost use Rattle.cyc_words.specs.Demand.{class_of};

use super::range::{MOST_BLOCK_WORDS, STORE_BASE};

/// Returns the number of words of a block of a size class.
#[inline]
pub fn size_of(class: u32) -> u32
    requires { class ≤ 10 }
    ensures { result ≡ 2 ^ class }
{
    1 << class
}

/// Returns the size class of a block with this many words: the exponent of the least power of two that is at least as large.
pub fn class_of(words: u32) -> u32
    requires { words ≤ 1024 }
    ensures { result ≡ class_of words }
{
    for class in 0..10 {
        if words <= size_of(class) {
            return class;
        }
    }
    10
}

/// Returns true if a block of this many words may be requested.
#[inline]
pub fn is_size(words: u32) -> bool
    ensures yes { IsTrue result → (1 ≤ words) × (words ≤ MOST_BLOCK_WORDS) }
    ensures no { result ≡ false → (words ≡ 0) ⊎ (MOST_BLOCK_WORDS < words) }
{
    1 <= words && words <= MOST_BLOCK_WORDS
}

/// Returns the address of a word, given its index among the words of all pages.
#[inline]
pub fn address_at(word: u32) -> u32
    requires { word < 0x400_0000 }
    ensures { result ≡ STORE_BASE + 4 * word }
{
    STORE_BASE + 4 * word
}

/// Returns the index of a word among the words of all pages, given its address.
#[inline]
pub fn number_at(address: u32) -> Option<u32>
    ensures { MatchOption result ((address < STORE_BASE) ⊎ (address % 4 ≢ 0)) (λ number. address ≡ STORE_BASE + 4 * number) }
{
    if address < STORE_BASE {
        return None;
    }
    if address % 4 != 0 {
        return None;
    }
    Some((address - STORE_BASE) / 4)
}
