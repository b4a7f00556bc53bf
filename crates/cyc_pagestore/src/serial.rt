//! The serials of pages: each opening and each closing of a region assigns a new serial to the region's first page.

ghost use Rattle.std.specs.Prelude.{◌≡◌, ◌≤◌, ◌<◌, ◌*◌, ◌/◌, ◌%◌, ℕ, nat_lt};
ghost use Rattle.cyc_rawpages.specs.inside.Pool.{PoolState};
ghost use Rattle.cyc_pagestore.specs.inside.Live.{IsWhole, AreNewer, AreOne, Readies, reach, Renumbers};

use cyc_rawpages::{PageNo, Pool};
use cyc_store::PAGE_WORDS;

/// Returns the number of a page's words that are live by its fill mark (the end of its filled words). All filled words are live if
/// the page has the serial of its owner (its region's first page), else none.
#[inline]
pub(crate) fn reach(pool: &Pool, page: u32) -> u32
    requires whole { IsWhole pool.now }
    requires there { page < pool.now.pages }
    ensures { result ≡ reach pool.now page }
{
    let first = PAGE_WORDS * page;
    let page = PageNo { number: page };
    let fill = pool.fill(page);
    if fill <= first {
        return 0;
    }
    let owner = PageNo {
        number: pool.owner(page),
    };
    if pool.serial(page) == pool.serial(owner) {
        fill - first
    } else {
        0
    }
}

/// Returns true if a word is live by the fill mark of its page, which counts the words up to the last filled one.
#[inline]
pub(crate) fn is_within(pool: &Pool, word: u32) -> bool
    requires whole { IsWhole pool.now }
    requires there { word < 1024 * pool.now.pages }
    ensures { result ≡ nat_lt (word % 1024) (reach pool.now (word / 1024)) }
{
    let page = PageNo {
        number: word / PAGE_WORDS,
    };
    if pool.fill(page) <= word {
        return false;
    }
    let owner = PageNo {
        number: pool.owner(page),
    };
    pool.serial(page) == pool.serial(owner)
}

/// Renumbers all pages: each page gets the number of its owner (its region's first page) plus one as its serial, and a page without
/// live words becomes empty.
fn renumber(pool: &mut Pool, pages: u32)
    requires whole { IsWhole pool.old }
    requires pages { pages ≡ pool.old.pages }
    ensures { Renumbers pool.old pool.new }
{
    for number in 0..pages {
        if reach(pool, number) == 0 {
            pool.set_fill(PageNo { number }, 0);
        }
    }
    for number in 0..pages {
        let owner = pool.owner(PageNo { number });
        pool.set_serial(PageNo { number }, owner as u64 + 1);
    }
}

/// Returns a serial above those of all pages and below the last possible serial.
pub(crate) fn next_serial(pool: &mut Pool, pages: u32, next: u64) -> u64
    requires whole { IsWhole pool.old }
    requires pages { pages ≡ pool.old.pages }
    requires newer { AreNewer pool.old next }
    requires one { AreOne pool.old }
    ensures { Readies pool.old pool.new result }
{
    if next == u64::MAX {
        renumber(pool, pages);
        return 65_537;
    }
    next
}
