//! The words of blocks, and the classes of unique ones.

ghost use Rattle.std.specs.Prelude.{◌≡◌, ◌+◌, ◌<◌, ◌≤◌, ◌^◌, map};
ghost use Rattle.cyc_words.specs.Demand.{class_of, blocks_in_page, pages_for};
ghost use Rattle.cyc_meaning.specs.Values.{bytes_of_kind, following, block_size};
ghost use Rattle.cyc_interpret.specs.WorldView.{view_cell};

use crate::objects::Cell;
use cyc_types::typed::Kind;

/// The words of a page of the store.
const PAGE_WORDS: u128 = 1024;

/// The bytes of a cell.
pub(crate) fn bytes_of_kind(kind: Kind) -> u32
    ensures { result ≡ bytes_of_kind kind }
{
    match kind {
        Kind::Char => 1,
        Kind::Fat => 12,
        _ => 4,
    }
}

/// The end of a cell of a kind that stands after so many bytes.
fn following(kind: Kind, at: u128) -> u128
    requires { at < 2 ^ 100 }
    ensures is { result ≡ following kind at }
    ensures near { result ≤ at + 16 }
{
    match kind {
        Kind::Char => at + 1,
        _ => 4 * ((at + 3) / 4) + bytes_of_kind(kind) as u128,
    }
}

/// The words of a block of cells: at least one.
pub(crate) fn block_size(cells: &Vec<Cell>) -> u128
    ensures { result ≡ block_size (map view_cell cells.now.items) }
{
    let mut at = 0;
    for cell in cells {
        at = following(cell.kind, at);
    }
    let words = (at + 3) / 4;
    if words < 1 { 1 } else { words }
}

/// The words of a block of a class.
fn size_of(class: u32) -> u128
    requires { class ≤ 10 }
    ensures { result ≡ 2 ^ class }
{
    1 << class
}

/// The class of a block: the exponent of the least power of two that holds it.
pub(crate) fn class_of(size: u128) -> u32
    ensures is { result ≡ class_of size }
    ensures bound { result ≤ 10 }
{
    for class in 0..10 {
        if size <= size_of(class) {
            return class;
        }
    }
    10
}

/// How many blocks of a class fit one page.
fn blocks_in_page(class: u32) -> u128
    requires { class ≤ 10 }
    ensures is { result ≡ blocks_in_page class }
    ensures some { 0 < result }
    ensures few { result ≤ 1024 }
{
    PAGE_WORDS >> class
}

/// The pages for so many unique blocks of a class.
pub(crate) fn pages_for(class: u32, live: u128) -> u128
    requires class { class ≤ 10 }
    requires live { live < 2 ^ 100 }
    ensures { result ≡ pages_for class live }
{
    let in_page = blocks_in_page(class);
    (live + (in_page - 1)) / in_page
}
