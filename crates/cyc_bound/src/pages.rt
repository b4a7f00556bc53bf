//! Computes the bound on pages from the costs of runs. The costs count regions, the blocks in regions, the words of these blocks, and the
//! unique blocks of each size class. If lexical regions free everything allocated in them, only regions open at the same time count.
ghost use Rattle.std.specs.Prelude.{◌≡◌, ◌<◌, ◌≤◌, true, false, IfOk};
ghost use Rattle.cyc_words.specs.Demand.{blocks_in_page, pages_for};
ghost use Rattle.cyc_types.specs.TypedTreeView.{view_program};
ghost use Rattle.cyc_bound.specs.Costs.{too_many};
ghost use Rattle.cyc_bound.specs.Pages.{further_pages, GivesBack, IsPageAnswer};
ghost use Rattle.cyc_bound.specs.inside.ItemCosts.{IsUniqueAnswer};
ghost use Rattle.cyc_bound.specs.inside.RegionCosts.{IsRegionAnswer};

use crate::at_once::cost_at_once;
use crate::costs::{Measure, TOO_MANY};
use crate::function_costs::order_of;
use crate::steps::run_cost;
use cyc_types::typed::TypedTree;
use std::alloc::{AllocError, Global};

/// The number of words in a page of the heap.
const PAGE_WORDS: u64 = 1024;

/// The bound on the heap pages that a run of a program requests.
#[derive(Drop)]
pub enum PageBound {
    /// A run requests at most `count` pages.
    Pages { count: u64 },
    /// The computed costs give the number of opened regions or of allocated blocks no bound below `TOO_MANY`.
    TooMany,
    /// The costs of functions still grow after the last round, for instance because a cycle of calls allocates each time.
    Cycle,
}

/// The number of size classes of unique blocks.
const CLASSES: u32 = 11;

/// Returns the number of pages of regions besides the first page of each region, computed from the total numbers of blocks and words.
fn further_pages(blocks: u64, words: u64) -> u64
    requires { words < too_many }
    ensures { result ≡ further_pages blocks words }
{
    let by_words = 2 * words / (PAGE_WORDS + 1);
    if blocks < by_words { blocks } else { by_words }
}

/// Returns the number of blocks of a size class that fit into one page.
fn blocks_in_page(class: u32) -> u64
    requires { class ≤ 10 }
    ensures is { result ≡ blocks_in_page class }
    ensures some { 0 < result }
{
    PAGE_WORDS >> class
}

/// Returns the number of pages for the given number of unique blocks of a size class.
fn pages_for(class: u32, blocks: u64) -> u64
    requires class { class ≤ 10 }
    requires blocks { blocks < too_many }
    ensures { result ≡ pages_for class blocks }
{
    let in_page = blocks_in_page(class);
    (blocks + (in_page - 1)) / in_page
}

/// Returns the number of pages for all unique blocks, or the reason why there is no bound on these pages.
fn unique_pages(alloc: Global, tree: &TypedTree, order: &[usize]) -> Result<PageBound, AllocError>
    ensures { IfOk result (λ bound. IsUniqueAnswer (view_program tree.now) bound) }
{
    let mut pages = 0;
    for class in 0..CLASSES {
        let Some(blocks) = run_cost(alloc, tree, order, Measure::Uniques { class })? else {
            return Ok(PageBound::Cycle);
        };
        if blocks >= TOO_MANY {
            return Ok(PageBound::TooMany);
        }
        pages += pages_for(class, blocks);
    }
    Ok(PageBound::Pages { count: pages })
}

/// Returns true if lexical regions free everything that is opened and allocated in them, so that only objects made by `new` can
/// outlast the regions.
pub(crate) fn gives_back(
    alloc: Global,
    tree: &TypedTree,
    order: &[usize],
) -> Result<bool, AllocError>
    ensures { IfOk result (λ gives_back. GivesBack (view_program tree.now) gives_back) }
{
    match run_cost(alloc, tree, order, Measure::Lasting)? {
        Some(cost) => Ok(cost == 0),
        None => Ok(false),
    }
}

/// Returns the number of pages of regions under the assumption that no region is freed, or the reason why there is no bound on these pages.
fn pages_of_all(alloc: Global, tree: &TypedTree, order: &[usize]) -> Result<PageBound, AllocError>
    ensures { IfOk result (λ bound. IsRegionAnswer (view_program tree.now) false bound) }
{
    let Some(openings) = run_cost(alloc, tree, order, Measure::Openings)? else {
        return Ok(PageBound::Cycle);
    };
    let Some(blocks) = run_cost(alloc, tree, order, Measure::Blocks)? else {
        return Ok(PageBound::Cycle);
    };
    let Some(words) = run_cost(alloc, tree, order, Measure::Words)? else {
        return Ok(PageBound::Cycle);
    };
    if openings >= TOO_MANY || blocks >= TOO_MANY || words >= TOO_MANY {
        return Ok(PageBound::TooMany);
    }
    let count = openings + further_pages(blocks, words);
    Ok(PageBound::Pages { count })
}

/// Returns the number of pages of the heap and of the lexical regions open at the same time, or the reason why no bound exists.
fn pages_at_once(alloc: Global, tree: &TypedTree, order: &[usize]) -> Result<PageBound, AllocError>
    ensures { IfOk result (λ bound. IsRegionAnswer (view_program tree.now) true bound) }
{
    let Some(openings) = cost_at_once(alloc, tree, order, Measure::Openings)? else {
        return Ok(PageBound::Cycle);
    };
    let Some(blocks) = cost_at_once(alloc, tree, order, Measure::RegionBlocks)? else {
        return Ok(PageBound::Cycle);
    };
    let Some(words) = cost_at_once(alloc, tree, order, Measure::RegionWords)? else {
        return Ok(PageBound::Cycle);
    };
    let Some(heap_blocks) = run_cost(alloc, tree, order, Measure::HeapBlocks)? else {
        return Ok(PageBound::Cycle);
    };
    let Some(heap_words) = run_cost(alloc, tree, order, Measure::HeapWords)? else {
        return Ok(PageBound::Cycle);
    };
    if openings >= TOO_MANY
        || blocks >= TOO_MANY
        || words >= TOO_MANY
        || heap_blocks >= TOO_MANY
        || heap_words >= TOO_MANY
    {
        return Ok(PageBound::TooMany);
    }
    let heap = 1 + further_pages(heap_blocks, heap_words);
    let count = heap + (openings + further_pages(blocks, words));
    Ok(PageBound::Pages { count })
}

/// Returns the number of pages of all regions, including the heap, or the reason why there is no bound on these pages.
fn region_pages(
    alloc: Global,
    tree: &TypedTree,
    order: &[usize],
    gives_back: bool,
) -> Result<PageBound, AllocError>
    ensures { IfOk result (λ bound. IsRegionAnswer (view_program tree.now) gives_back bound) }
{
    if gives_back {
        pages_at_once(alloc, tree, order)
    } else {
        pages_of_all(alloc, tree, order)
    }
}

/// Returns a bound on the heap pages that any run of a program requests, for all inputs.
///
/// A loop or cycle of calls in which nothing is opened or allocated does not prevent a bound on pages. If lexical regions free their
/// blocks, a loop that opens and closes a region in each iteration does not prevent a bound on pages. If memory runs out, `pages_of`
/// returns an error.
pub fn pages_of(alloc: Global, tree: &TypedTree) -> Result<PageBound, AllocError>
    ensures { IfOk result (λ bound. IsPageAnswer (view_program tree.now) bound) }
{
    let order = order_of(alloc, tree)?;
    let gives_back = gives_back(alloc, tree, &order)?;
    let regions = match region_pages(alloc, tree, &order, gives_back)? {
        PageBound::Pages { count } => count,
        other => return Ok(other),
    };
    match unique_pages(alloc, tree, &order)? {
        PageBound::Pages { count } => {
            let count = regions + count;
            Ok(PageBound::Pages { count })
        }
        other => Ok(other),
    }
}
