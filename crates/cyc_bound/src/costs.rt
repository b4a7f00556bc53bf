//! The measures of costs, saturating sums, and the costs of steps, regions and blocks.
ghost use Rattle.std.specs.Prelude.{◌≡◌, ◌+◌, ◌*◌, ◌^◌, ◌≤◌, min, max, get_or};
ghost use Rattle.cyc_words.specs.Demand.{class_of};
ghost use Rattle.cyc_meaning.specs.Values.{bytes_of_kind, following};
ghost use Rattle.cyc_bound.specs.Costs.{too_many, step_cost, opening_cost, lasting_cost, block_cost, array_block_cost, size_of_bytes, most_elements};
ghost use Rattle.cyc_bound.specs.Costs.{plain_cost, fields_made_cost, elements_cost, array_cost, loop_cost, caught_cost};

use cyc_types::typed::Kind;

/// The kind of cost that is counted: steps, regions or blocks of one kind.
#[derive(Clone, Copy)]
pub enum Measure {
    /// Counts the steps of a run.
    Steps,
    /// Counts the regions that a program opens.
    Openings,
    /// Counts the blocks allocated in regions, including the heap.
    Blocks,
    /// Counts the words of the blocks allocated in regions, including the heap.
    Words,
    /// Two measures count the blocks that `new` allocates on the heap, and the words of these blocks.
    HeapBlocks,
    HeapWords,
    /// Two measures count the blocks allocated by handles, and the words of these blocks.
    RegionBlocks,
    RegionWords,
    /// Counts the unique blocks of this size class.
    Uniques { class: u32 },
    /// Counts the things that may outlast every lexical region: handles of the heap used as values, and dynamic regions.
    Lasting,
}

/// The site of an allocation: the heap, the region of a handle, or no region.
#[derive(Clone, Copy)]
pub enum Site {
    /// On the heap.
    Heap,
    /// The object is allocated in the region of a handle.
    Region,
    /// The object is allocated in no region, because it is unique.
    Unique,
}

/// The greatest value that a computed cost can have; every greater cost is replaced by this value.
pub const TOO_MANY: u64 = 1 << 50;

// ---- saturating sums

pub(crate) fn plus(first: u64, second: u64) -> u64
    ensures { result ≡ min too_many (first + second) }
{
    first.saturating_add(second).min(TOO_MANY)
}

pub(crate) fn times(count: u64, cost: u64) -> u64
    ensures { result ≡ min too_many (count * cost) }
{
    count.saturating_mul(cost).min(TOO_MANY)
}

pub(crate) fn greater(first: u64, second: u64) -> u64
    ensures { result ≡ max first second }
{
    if first < second { second } else { first }
}

// ---- steps and regions

/// Returns the cost of one step of a run.
pub(crate) fn step_cost(measure: Measure) -> u64
    ensures { result ≡ step_cost measure }
{
    match measure {
        Measure::Steps => 1,
        _ => 0,
    }
}

/// Returns the cost of opening a region that a program declares.
pub(crate) fn opening_cost(measure: Measure) -> u64
    ensures { result ≡ opening_cost measure }
{
    match measure {
        Measure::Openings => 1,
        _ => 0,
    }
}

/// Returns the cost of a handle of the heap used as a value, or of a dynamic region, since these may outlast every lexical region.
pub(crate) fn lasting_cost(measure: Measure) -> u64
    ensures { result ≡ lasting_cost measure }
{
    match measure {
        Measure::Lasting => 1,
        _ => 0,
    }
}

/// Returns a cost plus the cost of `count` steps.
pub(crate) fn with_steps(measure: Measure, count: u64, cost: u64) -> u64
    ensures { result ≡ min too_many (count * step_cost measure + cost) }
{
    plus(times(count, step_cost(measure)), cost)
}

/// Returns the cost of any number of iterations of a loop, from the cost of one iteration.
pub(crate) fn loop_cost(turn: u64) -> u64
    ensures { result ≡ loop_cost turn }
{
    if turn == 0 { 0 } else { TOO_MANY }
}

/// Returns the cost of a function from the table of costs, or 0 if the function does not exist.
pub(crate) fn known_cost(costs: &[u64], function: usize) -> u64
    ensures { result ≡ get_or costs.now function 0 }
{
    match costs.get(function) {
        Some(cost) => *cost,
        None => 0,
    }
}

/// Returns the cost of the body of a catch clause, with the declaration of the local that receives the exception's int.
pub(crate) fn caught_cost(measure: Measure, number: Option<usize>, items: u64) -> u64
    ensures { result ≡ min too_many (caught_cost measure number items) }
{
    match number {
        None => with_steps(measure, 2, items),
        Some(_) => with_steps(measure, 3, items),
    }
}

// ---- blocks

/// Returns the number of words of the blocks of a size class.
fn size_of(class: u32) -> u128
    requires { class ≤ 10 }
    ensures { result ≡ 2 ^ class }
{
    1 << class
}

/// Returns the size class of a block: the exponent of the least power of two that is at least the block's size in words.
fn class_of(size: u128) -> u32
    ensures { result ≡ class_of size }
{
    for class in 0..10 {
        if size <= size_of(class) {
            return class;
        }
    }
    10
}

/// Returns the cost of a block of `size` words.
pub(crate) fn block_cost(measure: Measure, site: Site, size: u128) -> u64
    ensures { result ≡ min too_many (block_cost measure site size) }
{
    match (measure, site) {
        (Measure::Blocks, Site::Heap | Site::Region)
        | (Measure::HeapBlocks, Site::Heap)
        | (Measure::RegionBlocks, Site::Region) => 1,
        (Measure::Words, Site::Heap | Site::Region)
        | (Measure::HeapWords, Site::Heap)
        | (Measure::RegionWords, Site::Region) => size.min(1 << 50) as u64,
        (Measure::Uniques { class }, Site::Unique) if class_of(size) == class => 1,
        _ => 0,
    }
}

/// Returns the cost of the block of an array with unknown length.
pub(crate) fn array_block_cost(measure: Measure, site: Site) -> u64
    ensures { result ≡ array_block_cost measure site }
{
    match (measure, site) {
        (Measure::Blocks, Site::Heap | Site::Region)
        | (Measure::HeapBlocks, Site::Heap)
        | (Measure::RegionBlocks, Site::Region)
        | (Measure::Uniques { .. }, Site::Unique) => 1,
        (Measure::Words, Site::Heap | Site::Region)
        | (Measure::HeapWords, Site::Heap)
        | (Measure::RegionWords, Site::Region) => 1000,
        _ => 0,
    }
}

fn bytes_of_kind(kind: Kind) -> u128
    ensures { result ≡ bytes_of_kind kind }
{
    match kind {
        Kind::Char => 1,
        Kind::Fat => 12,
        _ => 4,
    }
}

/// Returns the offset just after a struct field of the given representation kind (int, char, pointer, ..) that follows `bytes` bytes of
/// other fields.
pub(crate) fn bytes_after(kind: Kind, bytes: u128) -> u128
    requires { bytes ≤ 2 ^ 100 }
    ensures { result ≡ following kind bytes }
{
    match kind {
        Kind::Char => bytes + 1,
        Kind::Fat => 4 * ((bytes + 3) / 4) + 12,
        _ => 4 * ((bytes + 3) / 4) + 4,
    }
}

/// Returns the number of words of an object with the given number of bytes.
fn size_of_bytes(bytes: u128) -> u128
    requires { bytes ≤ 2 ^ 101 }
    ensures { result ≡ size_of_bytes bytes }
{
    let words = (bytes + 3) / 4;
    if words == 0 { 1 } else { words }
}

/// Returns the largest number of elements of the given representation kind (int, char, pointer, ..) in an array.
fn most_elements(kind: Kind) -> u64
    ensures { result ≡ most_elements kind }
{
    match kind {
        Kind::Char => 4000,
        Kind::Fat => 333,
        _ => 1000,
    }
}

/// Returns the cost of a new memory cell, including its first write.
pub(crate) fn plain_cost(measure: Measure, site: Site, kind: Kind) -> u64
    ensures { result ≡ min too_many (plain_cost measure site kind) }
{
    let size = size_of_bytes(bytes_after(kind, 0));
    with_steps(measure, 3, block_cost(measure, site, size))
}

/// Returns the cost of creating an object with `count` fields and `bytes` bytes.
pub(crate) fn fields_made_cost(measure: Measure, site: Site, count: usize, bytes: u128) -> u64
    requires { bytes ≤ 2 ^ 101 }
    ensures { result ≡ min too_many (fields_made_cost measure site count bytes) }
{
    let made = with_steps(measure, 2, block_cost(measure, site, size_of_bytes(bytes)));
    with_steps(measure, count as u64, made)
}

/// Returns the cost of `count` array elements, each of which costs `element`.
fn elements_cost(measure: Measure, element: u64, count: u64) -> u64
    ensures { result ≡ min too_many (elements_cost measure element count) }
{
    let turns = times(count, plus(step_cost(measure), element));
    with_steps(measure, 3, turns)
}

/// Returns the cost of an array; the program may write the array's length as a number.
pub(crate) fn array_cost(
    measure: Measure,
    site: Site,
    kind: Kind,
    element: u64,
    length: Option<u64>,
) -> u64
    ensures { result ≡ min too_many (array_cost measure site kind element length) }
{
    let most = most_elements(kind);
    match length {
        None => plus(
            elements_cost(measure, element, most),
            array_block_cost(measure, site),
        ),
        Some(length) => {
            let count = if length < most { length } else { most };
            let size = size_of_bytes(count as u128 * bytes_of_kind(kind));
            plus(
                elements_cost(measure, element, count),
                block_cost(measure, site, size),
            )
        }
    }
}
