//! This file tests the store on a pool of pages when the serial numbers of regions reach their last value. In no run of
//! a program do the serial numbers of regions reach their last value.

use crate::expect::expect;
use cyc_pagestore::PageStore;
use cyc_rawpages::Pool;
use cyc_store::{HEAP, Store};
use std::alloc::Global;

/// Returns a new store of `pages` pages, from 3 to 65,536.
fn paged_of(alloc: Global, pages: u32) -> Option<PageStore> {
    if pages < 3 || 65_536 < pages {
        return None;
    }
    PageStore::new(alloc, pages).ok()
}

/// A region that has one block on each of two pages.
#[derive(Clone, Copy)]
struct Pair {
    handle: u32,
    first: u32,
    second: u32,
}

/// Opens a region and allocates two blocks in it, each with the number `number` in its first word.
fn open_pair(store: &mut PageStore, number: u32) -> Option<Pair> {
    let handle = store.open_dynamic().ok()?;
    let first = store.alloc(handle, 1000).ok()?;
    let second = store.alloc(handle, 1000).ok()?;
    if store.save(first, number) && store.save(second, number) {
        return Some(Pair {
            handle,
            first,
            second,
        });
    }
    None
}

/// Returns true if the first words of both blocks of a pair contain this number or, without a number, if both words are not live.
fn has_number(store: &PageStore, pair: Pair, number: Option<u32>) -> bool {
    store.load(pair.first) == number && store.load(pair.second) == number
}

/// Opens four regions of a store; the tests close all of them except the last.
fn open_four(store: &mut PageStore) -> Option<[Pair; 4]> {
    let one = open_pair(store, 1)?;
    let two = open_pair(store, 2)?;
    let three = open_pair(store, 3)?;
    let kept = open_pair(store, 4)?;
    Some([one, two, three, kept])
}

/// Closes a region. Returns true if the words of the closed region are dead, and the words of another region are unchanged.
fn is_closed(store: &mut PageStore, pair: Pair, other: Pair, number: u32) -> bool {
    let closed = store.close_dynamic(pair.handle).is_ok();
    closed && has_number(store, pair, None) && has_number(store, other, Some(number))
}

/// Closes three regions while the serial numbers of a new store reach their last value; one region stays open, and another region is
/// opened afterwards.
fn passes_last_serial(store: &mut PageStore) -> Option<bool> {
    let [one, two, three, kept] = open_four(store)?;
    let block = store.alloc(HEAP, 1).ok()?;
    let saved = store.save(block, 5);
    store.come_to_last_serial();
    let first = is_closed(store, one, two, 2) && has_number(store, kept, Some(4));
    let second = is_closed(store, two, three, 3) && has_number(store, one, None);
    let third = is_closed(store, three, kept, 4);
    let gone = has_number(store, one, None) && has_number(store, two, None);
    let again = open_pair(store, 6)?;
    let open = has_number(store, kept, Some(4)) && has_number(store, again, Some(6));
    let held = saved && store.load(block) == Some(5);
    Some(first && second && third && gone && open && held)
}

/// Returns true if a new store still works after its serial numbers have reached their last value.
fn stays_dead(alloc: Global, pages: u32) -> Option<bool> {
    passes_last_serial(&mut paged_of(alloc, pages)?)
}

#[test]
fn stale_words_stay_dead(rt: HostRuntime) {
    let right = stays_dead(rt.alloc(), 16);
    expect(&rt, right == Some(true), "past the last serial");
}

/// Returns true if one of the 1,024 bits that a pool has for each page can be set and cleared by itself; stores set many bits at a time.
fn bit_is_set(alloc: Global, pages: u32) -> Option<bool> {
    if pages > 65_536 {
        return None;
    }
    let mut pool = Pool::new(alloc, pages).ok()?;
    let page = pool.take()?;
    let before = pool.bit(page, 5);
    pool.set_bit(page, 5, true);
    let set = pool.bit(page, 5);
    pool.set_bit(page, 5, false);
    Some(!before && set && !pool.bit(page, 5))
}

#[test]
fn one_bit(rt: HostRuntime) {
    let right = bit_is_set(rt.alloc(), 3);
    expect(&rt, right == Some(true), "a bit of a page");
}
