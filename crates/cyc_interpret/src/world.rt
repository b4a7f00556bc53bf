//! All regions and objects, which the calls under way share.

ghost use Rattle.std.specs.Prelude.{◌≡◌, ◌<◌, ℕ, get_or, map};
ghost use Rattle.cyc_words.specs.Demand.{demand_of};
ghost use Rattle.cyc_meaning.specs.State.{counted};
ghost use Rattle.cyc_meaning.specs.Objects.{live_in};
ghost use Rattle.cyc_interpret.specs.WorldView.{view_region, view_object};

use crate::objects::{Object, Region};

/// Regions and objects have the numbers of their places in these lists.
#[derive(Drop)]
pub struct World {
    pub regions: Vec<Region>,
    pub objects: Vec<Object>,
    /// Of each class of unique blocks, the pages for the most of them that were live so far.
    pub classes: [u128; 11],
    /// How many of each class are live.
    pub live: [u128; 11],
    /// The pages of the store that are asked for.
    pub pages: u128,
    /// How many regions, objects and cells were made.
    pub made: u64,
    pub output: Vec<u8>,
    /// All of the input, and how much of it is read.
    pub input: Vec<u8>,
    pub read: usize,
    pub ghost demand: { demand_of (counted (map view_region regions.items)) classes ≡ pages },
    pub ghost counts: { (class : ℕ) → class < 11 → live_in class (map view_object objects.items) ≡ get_or live class 0 },
}
