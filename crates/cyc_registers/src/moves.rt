//! Moves of several words from slots to slots.
ghost use Rattle.std.specs.Prelude.{◌≡◌};
ghost use Rattle.cyc_registers.specs.inside.Bars.{is_crossing};

/// Returns true if a move of several words, done word by word, overwrites sources that are still to be moved.
pub fn is_crossing(destination: usize, source: usize, count: usize) -> bool
    ensures { result ≡ is_crossing destination source count }
{
    source < destination && destination - source < count
}
