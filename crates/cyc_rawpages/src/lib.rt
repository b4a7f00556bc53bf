//! Pages of raw memory: one block of memory contains the words and the headers of all pages.
//!
//! Only four functions of the module `cells` use the raw pointer; code outside `cells` uses none. `specs/inside/Pool` defines the
//! values stored in a pool and their representation in words.
#![tactic(auto)]

mod block;
mod cells;
mod change;
mod header;
mod pool;
mod roll;

pub use header::PAGE_WORDS;
pub use pool::{Chain, PageNo, Pool};
