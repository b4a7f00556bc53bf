//! Tables of numbers that have one entry for each function or for each instruction.
ghost use Rattle.std.specs.Prelude.{◌≡◌};
ghost use Rattle.cyc_inline.specs.inside.Sites as sites;

/// Returns the table entry for a function or an instruction, or 0 if the table has no such entry.
pub(crate) fn place_in(places: &[usize], index: usize) -> usize
    ensures { result ≡ sites.place_in places.now index }
{
    match places.get(index) {
        Some(place) => *place,
        None => 0,
    }
}
