//! This file has the function that appends one element to a list and lets the list grow.
ghost use Rattle.std.specs.Prelude.{◌≡◌, [], ◌∷◌, ◌++◌, is_ok, if◌then◌else◌};

use std::alloc::AllocError;

/// Appends an element to a list. Most lists of a program are short, so a list first gets capacity for two elements, and twice as
/// much each time it is full.
pub(crate) fn append<T: Drop>(list: &mut Vec<T>, item: T) -> Result<(), AllocError>
    ensures items { list.new.items ≡ (if is_ok result then list.old.items ++ item ∷ [] else list.old.items) }
{
    if list.len() == list.capacity() {
        list.reserve_exact(list.len().max(2))?;
    }
    list.push(item)?;
    Ok(())
}
