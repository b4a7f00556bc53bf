//! This file reads the limits on pages and calls that an image contains.

ghost use Rattle.std.specs.Prelude.{IfOk};
ghost use Rattle.cyc_elf.specs.Reading.{reading};
ghost use Rattle.cyc_image.specs.Notes.{AreAllowedIfAny, Notes};

use cyc_elf::{ElfFault, read_outline};
use std::alloc::Global;

/// Returns the limits on pages and calls that an image contains for its runs, or `None` if it contains no limits. The error is the first
/// rule of the image format that the image violates.
pub fn note_of(alloc: Global, image: &[u8]) -> Result<Option<(u32, u32)>, ElfFault>
    // The result is the limits of the image in these bytes, or the first rule of the image format that the bytes violate.
    ensures exact { Notes result (reading image.now) }
    // The returned limits on pages and calls are valid for a run.
    ensures allowed { IfOk result (λ note. AreAllowedIfAny note) }
{
    let outline = read_outline(alloc, image)?;
    Ok(outline.note)
}
