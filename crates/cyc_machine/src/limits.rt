//! The limits of a run: heap pages and active calls.

ghost use Rattle.std.specs.Prelude.{◌≡◌, ◌≤◌, ◌↔◌, IsSome, IfSome};
ghost use Rattle.cyc_machine_model.specs.Bounds.{AreAllowed};

use cyc_machine_model::constants::{MAX_CALLS, MAX_PAGES, MIN_CALLS, MIN_PAGES};
use std::marker::Model;

/// The limits of a run: the number of heap pages, from 3 to 65,536, and the number of simultaneously active calls, from 1 to 4,096.
#[derive(Clone, Copy, Debug, PartialEq, Eq)]
pub struct Limits {
    pages: u32,
    calls: u32,
}

// Contracts refer to the page limit and to the call limit.
impl Model for Limits {
    ghost use Rattle.cyc_machine_model.specs.Bounds.{Bounds, AreAllowed};

    ghost Value = { Bounds };

    ghost view = { λ l. record { pages = l.pages; calls = l.calls } };

    ghost invariant = { λ l. AreAllowed l.pages l.calls };

    ghost inverse = { λ b. record { pages = b.pages; calls = b.calls } };
}

impl Limits {
    /// Returns the limits, or `None` exactly if the number of pages or the number of calls is out of its range.
    pub fn new(pages: u32, calls: u32) -> Option<Limits>
        ensures allowed { IsSome result ↔ AreAllowed pages calls }
        ensures values { IfSome result (λ l. l ≡ record { pages = pages; calls = calls }) }
    {
        if MIN_PAGES <= pages && pages <= MAX_PAGES && MIN_CALLS <= calls && calls <= MAX_CALLS {
            Some(Limits { pages, calls })
        } else {
            None
        }
    }

    /// Returns the number of heap pages, of 4,096 bytes each.
    pub fn pages(&self) -> u32
        ensures value { result ≡ self.now.pages }
        ensures allowed { AreAllowed self.now.pages self.now.calls }
    {
        self.pages
    }

    /// Returns the maximum number of simultaneously active calls. The stack has 256 words for each call.
    pub fn calls(&self) -> u32
        ensures value { result ≡ self.now.calls }
        ensures allowed { AreAllowed self.now.pages self.now.calls }
    {
        self.calls
    }
}
