//! Computes the slots of the locals of a function from their types.
ghost use Rattle.std.specs.Prelude.{◌≡◌, ◌+◌, ◌≤◌, ◌++◌, [], ◌∷◌, map, IfOk};
ghost use Rattle.cyc_types.specs.Types.{words_of};
ghost use Rattle.cyc_types.specs.TypeView.{view_ty};
ghost use Rattle.cyc_types.specs.TypedTreeView.{view_function};
ghost use Rattle.cyc_words.specs.Word.{add_of};
ghost use Rattle.cyc_meaning.specs.Values.{kind_of, bytes_of_kind};
ghost use Rattle.cyc_meaning.specs.FrameCount.{words_of_all, frame_count};
ghost use Rattle.cyc_lower_proof.specs.inside.Slots.{starts_from, begins_word, field_from, field_of, slot_of, counter_of};
ghost use Rattle.cyc_lower_proof.specs.inside.ValueCode.{slot_types, tag_slot, first_temporary};
ghost use Rattle.cyc_sizes.specs.inside.Needs.{most_frame_count};
ghost use Rattle.cyc_lower.specs.inside.Emission.{view_starts};

use crate::operands::{bytes_of_kind, kind_of};
use crate::starts::Starts;
use cyc_sizes::words_of;
use cyc_types::Ty;
use cyc_types::typed::{Function, Kind};
use std::alloc::{AllocError, Global};

/// Returns the first slot of the local with this index.
pub(crate) fn slot_of(starts: &Starts, number: usize) -> usize
    ensures { result ≡ slot_of (view_starts starts.now) number }
{
    match starts.locals.get(number) {
        Some(slot) => *slot,
        None => 0,
    }
}

/// Returns the slot of the loop counter that fills the elements of the enclosing array at this nesting level.
pub(crate) fn counter_of(starts: &Starts, level: usize) -> usize
    ensures { result ≡ counter_of (view_starts starts.now) level }
{
    match starts.counters.get(level) {
        Some(slot) => *slot,
        None => 0,
    }
}

/// Returns the slots of the loop counters that fill the enclosing arrays, extended by this slot for the counter of one more array.
pub(crate) fn with_counter(starts: &Starts, slot: usize) -> Result<Vec<usize>, AllocError>
    ensures { IfOk result (λ counters. counters.items ≡ starts.now.counters.now ++ slot ∷ []) }
{
    let mut counters = Vec::new(starts.alloc);
    counters.extend_from_slice(starts.counters)?;
    counters.push(slot)?;
    Ok(counters)
}

/// Returns the offset of a cell of the given representation kind, placed after this number of bytes. A char begins directly after the
/// bytes before it, any other cell at the next multiple of 4.
pub(crate) fn begins_word(kind: Kind, at: u32) -> u32
    ensures { result ≡ begins_word kind at }
{
    match kind {
        Kind::Char => at,
        Kind::Int | Kind::Nullable | Kind::NonNull | Kind::Fat | Kind::Handle | Kind::Key =>
            at.wrapping_add(3) / 4 * 4,
    }
}

/// Returns the offset of a cell of this type that comes after a number of bytes.
fn begins_at(of_type: &Ty, at: u32) -> u32
    ensures { result ≡ begins_word (kind_of (view_ty of_type.now)) at }
{
    begins_word(kind_of(of_type), at)
}

/// Returns the end offset of a cell of this type that begins at an offset.
fn ends_at(of_type: &Ty, begin: u32) -> u32
    ensures { result ≡ add_of begin (bytes_of_kind (kind_of (view_ty of_type.now))) }
{
    begin.wrapping_add(bytes_of_kind(kind_of(of_type)) as u32)
}

/// Returns the number of bytes from the beginning of a struct to the field with this index.
fn bytes_before(fields: &[Ty], field: usize) -> u32
    ensures { result ≡ field_from 0 (map view_ty fields.now) field }
{
    let mut bytes: u32 = 0;
    let mut left = field;
    for of_type in fields {
        let begin = begins_at(of_type, bytes);
        if left == 0 {
            return begin;
        }
        bytes = ends_at(of_type, begin);
        left -= 1;
    }
    bytes
}

/// Returns the number of bytes from the beginning of the struct with this index to its field.
pub(crate) fn field_of(starts: &Starts, number: usize, field: usize) -> u32
    ensures { result ≡ field_of (view_starts starts.now) number field }
{
    match starts.structs.get(number) {
        Some(of_type) => bytes_before(&of_type.fields, field),
        None => 0,
    }
}

/// Appends the first slots of parameters or other locals, each with as many slots as its type has words. Returns the slot after them.
fn add_locals(starts: &mut Vec<usize>, first: usize, types: &[Ty]) -> Result<usize, AllocError>
    requires { first + words_of_all (map view_ty types.now) ≤ most_frame_count }
    ensures { IfOk result (λ following. (following ≡ first + words_of_all (map view_ty types.now))
        × (starts.new.items ≡ starts.old.items ++ starts_from first (map view_ty types.now))) }
{
    let mut slot = first;
    for of_type in types {
        starts.push(slot)?;
        slot += words_of(of_type);
    }
    Ok(slot)
}

/// Returns the first slots of the locals of a function, the slot after the locals, and the first slot for temporaries.
pub(crate) fn slots_of_locals(
    alloc: Global,
    function: &Function,
) -> Result<(Vec<usize>, usize, usize), AllocError>
    requires { frame_count (view_function function.now) ≤ most_frame_count }
    ensures { IfOk result (λ slots. (slots.0.items ≡ starts_from 0 (slot_types (view_function function.now)))
        × (slots.1 ≡ tag_slot (view_function function.now)) × (slots.2 ≡ first_temporary (view_function function.now))) }
{
    let mut starts = Vec::new(alloc);
    let following = add_locals(&mut starts, 0, &function.parameters)?;
    let end = add_locals(&mut starts, following, &function.locals)?;
    Ok((starts, end, end + 1))
}
