//! This file defines the limits on pages and calls that a command line gives, and their effect.

ghost use Rattle.std.specs.Prelude.{◌≡◌, IfSome};
ghost use Rattle.cyc_machine_model.specs.Bounds.{AreAllowed};
ghost use Rattle.cyc_cli.specs.inside.Limits.{capped, capped_by, carried_by, limits_by, limits_for};

use cyc_machine::Limits;
use cyc_machine::constants::{MAX_CALLS, MAX_PAGES, MIN_CALLS, MIN_PAGES};
use std::marker::Model;

/// The number of heap pages that a run may use if no limit is given.
pub const DEFAULT_PAGES: u32 = 1024;

/// The number of calls that may be active at once in a run if no limit is given.
pub const DEFAULT_CALLS: u32 = 4096;

/// The limits on pages and calls as a command line gives them: each limit is in its range, or is omitted.
#[derive(Clone, Copy)]
pub struct GivenLimits {
    pub(crate) pages: Option<u32>,
    pub(crate) calls: Option<u32>,
}

// The view of given limits through which contracts refer to the limit on pages and the limit on calls.
impl Model for GivenLimits {
    ghost use Rattle.cyc_cli.specs.inside.Limits.{Given, AreInRange};

    ghost Value = { Given };

    ghost view = { λ g. record { pages = g.pages; calls = g.calls } };

    ghost invariant = { λ g. AreInRange g.pages g.calls };

    ghost inverse = { λ g. record { pages = g.pages; calls = g.calls } };
}

/// Returns the smaller of a number and an upper bound (cap), or the number itself if there is no upper bound.
fn capped(number: u32, cap: Option<u32>) -> u32
    ensures { result ≡ capped cap number }
{
    match cap {
        Some(most) => number.min(most),
        None => number,
    }
}

impl GivenLimits {
    /// Returns both limits for a run that needs this many pages and calls: each limit is the greater of the need and the least
    /// allowed limit. Returns `None` if the program needs more than the greatest allowed limit.
    pub fn for_needs(pages: u64, calls: u64) -> Option<GivenLimits>
        ensures { result ≡ limits_for pages calls }
    {
        if pages <= u64::from(MAX_PAGES) && calls <= u64::from(MAX_CALLS) {
            Some(GivenLimits {
                pages: Some(MIN_PAGES.max(pages as u32)),
                calls: Some(MIN_CALLS.max(calls as u32)),
            })
        } else {
            None
        }
    }

    /// Returns the limits on pages and calls that are stored in a compiled image. If neither the limit on pages nor that on calls is
    /// given, no limits are stored; if only one is given, the default is stored for the other.
    pub fn carried(self) -> Option<(u32, u32)>
        ensures value { result ≡ carried_by self.pages self.calls }
        ensures allowed { IfSome result (λ limits. AreAllowed limits.0 limits.1) }
    {
        if self.pages.is_none() && self.calls.is_none() {
            return None;
        }
        let pages = self.pages.unwrap_or(DEFAULT_PAGES);
        Some((pages, self.calls.unwrap_or(DEFAULT_CALLS)))
    }

    /// Returns the limits on pages and calls for a run of an image that contains the limits `note`. Each limit is the command line's,
    /// or else the image's, or else the default, but no limit is above the limit in `caps`.
    pub fn of_run(self, caps: GivenLimits, note: Option<(u32, u32)>) -> Limits
        requires { IfSome note (λ limits. AreAllowed limits.0 limits.1) }
        ensures { result ≡ capped_by caps (limits_by self note) }
    {
        let (pages, calls) = note.unwrap_or((DEFAULT_PAGES, DEFAULT_CALLS));
        let pages = capped(self.pages.unwrap_or(pages), caps.pages);
        let calls = capped(self.calls.unwrap_or(calls), caps.calls);
        Limits::new(pages, calls).unwrap()
    }
}
