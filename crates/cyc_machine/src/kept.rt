//! Memory ranges of which only a part is stored. The first words of the data range and the last words of the stack are stored, and all
//! other words are 0. Space is reserved for all words of a range, and the stored part grows when another word is loaded or written.

ghost use Rattle.std.specs.Prelude.{◌≡◌, ◌+◌, ◌-◌, ◌*◌, ◌^◌, ◌<◌, ◌≤◌, ◌++◌, length, max, min, nat_le, replicate, slice_index, slice_set};
ghost use Rattle.std.specs.Prelude.{vec_capacity, if◌then◌else◌};
ghost use Rattle.cyc_machine.specs.Arrays.{all_globals, all_stack};

use cyc_machine_model::constants::DATA_WORDS;

/// Returns the number of words to store, from the number stored now, the number required and the maximum. The number of stored words
/// at least doubles when it grows, so that each word is moved only a few times.
fn kept_next(kept: usize, wanted: usize, most: usize) -> usize
    requires kept { kept ≤ most }
    requires short { most ≤ 2 ^ 32 }
    ensures { result ≡ (if nat_le wanted kept then kept else max wanted (min (max (2 * kept) 1024) most)) }
{
    if wanted <= kept {
        kept
    } else {
        wanted.max((2 * kept).max(1024).min(most))
    }
}

/// Extends the stored words of a memory range, which start at the range's first word, to `count` words.
fn keep_first(kept: &mut Vec<u32>, count: usize)
    requires more { length kept.old.items ≤ count }
    requires room { count ≤ vec_capacity kept.old }
    ensures words { kept.new.items ≡ kept.old.items ++ replicate (count - length kept.old.items) 0 }
    ensures room { vec_capacity kept.old ≤ vec_capacity kept.new }
{
    let Ok(()) = kept.resize(count, 0) else {
        return;
    };
}

/// Extends the stored words of a memory range, which end at the range's last word, to `count` words.
fn keep_last(kept: &mut Vec<u32>, count: usize)
    requires more { length kept.old.items ≤ count }
    requires room { count ≤ vec_capacity kept.old }
    ensures words { kept.new.items ≡ replicate (count - length kept.old.items) 0 ++ kept.old.items }
    ensures room { vec_capacity kept.old ≤ vec_capacity kept.new }
{
    let more = count - kept.len();
    if more == 0 {
        return;
    }
    keep_first(kept, count);
    kept.rotate_right(more);
}

/// Returns the word of the data range with the given index.
pub fn global_word(kept: &[u32], number: usize) -> u32
    requires { number < DATA_WORDS }
    ensures { result ≡ slice_index (all_globals kept.now) number }
{
    if number < kept.len() { kept[number] } else { 0 }
}

/// Writes the word of the data range with the given index.
pub fn set_global_word(kept: &mut Vec<u32>, number: usize, word: u32)
    requires inside { number < DATA_WORDS }
    requires short { length kept.old.items ≤ DATA_WORDS }
    requires room { DATA_WORDS ≤ vec_capacity kept.old }
    ensures words { all_globals kept.new.items ≡ slice_set (all_globals kept.old.items) number word }
    ensures short { length kept.new.items ≤ DATA_WORDS }
    ensures room { DATA_WORDS ≤ vec_capacity kept.new }
{
    let next = kept_next(kept.len(), number + 1, DATA_WORDS);
    keep_first(kept, next);
    kept[number] = word;
}

/// Extends the stored part of the data range up to the word with the given index, which is about to be accessed.
pub fn keep_global_word(kept: &mut Vec<u32>, number: usize)
    requires inside { number < DATA_WORDS }
    requires short { length kept.old.items ≤ DATA_WORDS }
    requires room { DATA_WORDS ≤ vec_capacity kept.old }
    ensures words { all_globals kept.new.items ≡ all_globals kept.old.items }
    ensures kept { number < length kept.new.items }
    ensures short { length kept.new.items ≤ DATA_WORDS }
    ensures room { DATA_WORDS ≤ vec_capacity kept.new }
{
    let next = kept_next(kept.len(), number + 1, DATA_WORDS);
    keep_first(kept, next);
}

/// Returns a word of a stack of `count` words, by its index from the lowest word on.
pub fn stack_word(kept: &[u32], count: usize, number: usize) -> u32
    requires inside { number < count }
    requires short { length kept.now ≤ count }
    ensures { result ≡ slice_index (all_stack count kept.now) number }
{
    let left_out = count - kept.len();
    if left_out <= number {
        kept[number - left_out]
    } else {
        0
    }
}

/// Writes a word of a stack of `count` words, by its index from the lowest word on.
pub fn set_stack_word(kept: &mut Vec<u32>, count: usize, number: usize, word: u32)
    requires inside { number < count }
    requires short { length kept.old.items ≤ count }
    requires room { count ≤ vec_capacity kept.old }
    requires few { count ≤ 2 ^ 32 }
    ensures words { all_stack count kept.new.items ≡ slice_set (all_stack count kept.old.items) number word }
    ensures short { length kept.new.items ≤ count }
    ensures room { count ≤ vec_capacity kept.new }
{
    let wanted = count - number;
    let next = kept_next(kept.len(), wanted, count);
    keep_last(kept, next);
    kept[next - wanted] = word;
}

/// Extends the stored part of a stack of `count` words down to the word with the given index, which is about to be accessed.
pub fn keep_stack_word(kept: &mut Vec<u32>, count: usize, number: usize)
    requires inside { number < count }
    requires short { length kept.old.items ≤ count }
    requires room { count ≤ vec_capacity kept.old }
    requires few { count ≤ 2 ^ 32 }
    ensures words { all_stack count kept.new.items ≡ all_stack count kept.old.items }
    ensures kept { count ≤ number + length kept.new.items }
    ensures short { length kept.new.items ≤ count }
    ensures room { count ≤ vec_capacity kept.new }
{
    let next = kept_next(kept.len(), count - number, count);
    keep_last(kept, next);
}
