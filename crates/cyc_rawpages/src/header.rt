//! The words at the start of a pool's block: for each page, a header followed by 1,024 bits, one for each word of the page.

ghost use Rattle.std.specs.Int.{bit_at};
ghost use Rattle.std.specs.Prelude.{◌==◌, if◌then◌else◌, ◌≡◌, ◌≢◌, ℕ, ◌+◌, ◌*◌, ◌<◌, ◌≤◌, ◌⊎◌};
ghost use Rattle.cyc_rawpages.specs.inside.Pool.{header_at, bits_at};

/// The number of words of a page. Each page also has this number of bits, one for each of its words, whose meaning is up to the pool's
/// caller.
pub const PAGE_WORDS: u32 = 1024;

/// The number of words in the header of a page.
pub const HEADER_WORDS: u32 = 8;

/// The number of words that a page's header and its 1,024 bits take together.
pub const HEAD_WORDS: u32 = 40;

/// The maximum number of pages of a pool.
pub const MOST_PAGES: u32 = 65536;

/// The index, in a page's header, of the fill mark, which counts the page's words that are filled.
pub const FILL: u32 = 0;

/// The index, in a page's header, of the page's owner.
pub const OWNER: u32 = 1;

/// The index, in a page's header, of the low half of the page's serial number.
pub const LOW: u32 = 2;

/// The index, in a page's header, of the high half of the page's serial number.
pub const HIGH: u32 = 3;

/// The index, in a page's header, of the link to the next page of its chain or of the free list.
pub const NEXT: u32 = 4;

/// The index, in the header of a chain's head page, of the chain's last page.
pub const TAIL: u32 = 5;

/// The page number that represents the absence of a page.
pub const NONE: u32 = 0xffff_ffff;

/// Returns the index of a field of a page's header, among the words at the pool's start. These words hold, for
/// each page, a header and 1,024 bits, one for each word of the page.
#[inline]
pub(crate) fn header_at(page: u32, field: u32) -> usize
    ensures { result ≡ header_at page field }
{
    HEAD_WORDS as usize * page as usize + field as usize
}

/// Returns the index of the word with a given bit of a page, among the words at the pool's start. These words hold, for
/// each page, a header and 1,024 bits, one for each word of the page.
#[inline]
pub(crate) fn bits_at(page: u32, bit: u32) -> usize
    requires { bit < PAGE_WORDS }
    ensures { result ≡ bits_at (PAGE_WORDS * page + bit) }
{
    HEAD_WORDS as usize * page as usize + (HEADER_WORDS + bit / 32) as usize
}

/// Returns a word with one of its bits set or cleared.
#[inline]
pub(crate) fn marked(word: u32, bit: u32, value: bool) -> u32
    requires { bit < 32 }
    ensures same { (bit_at result bit == 1) ≡ value }
    ensures other { (i : ℕ) → i < 32 → i ≢ bit → bit_at result i ≡ bit_at word i }
{
    if value {
        word | 1 << bit
    } else {
        word & !(1 << bit)
    }
}

/// Returns a word in which `count` bits from bit `first` on are set or cleared.
#[inline]
pub(crate) fn marked_from(word: u32, first: u32, count: u32, value: bool) -> u32
    requires { first + count ≤ 32 }
    ensures inside { (i : ℕ) → first ≤ i → i < first + count → (bit_at result i == 1) ≡ value }
    ensures outside { (i : ℕ) → (i < first) ⊎ (first + count ≤ i) → bit_at result i ≡ bit_at word i }
{
    let mask = ((1u64 << (first + count)) - (1u64 << first)) as u32;
    if value {
        word | mask
    } else {
        word ^ (word & mask)
    }
}
