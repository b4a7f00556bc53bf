//! The outline of a file: the image as its headers describe it.

ghost use Rattle.std.specs.Prelude.{◌≡◌, ◌+◌, ◌≤◌, All, IfOk, length};
ghost use Rattle.cyc_elf.specs.Image.{contents_of};
ghost use Rattle.cyc_elf.specs.Outline.{outlined};

use crate::image::Image;
use crate::program_header::ProgramHeader;
use crate::table::segments_of;
use std::alloc::{AllocError, Global};

/// An image whose segments' bytes are still in the file, at the offsets that the program headers give. An outline needs no more memory than
/// the table of program headers, whatever the size of the segments.
#[derive(Drop)]
pub struct Outline {
    /// The address of the image's first instruction.
    pub entry: u32,
    /// The loadable program headers, in the order of the file.
    pub loads: Vec<ProgramHeader>,
    /// The maximal numbers of heap pages and of simultaneous calls of a run, if the file states them, as in an `Image`.
    pub note: Option<(u32, u32)>,
}

impl Outline {
    /// Returns the image that the outline describes, with the bytes of each segment copied from the file.
    pub fn image(&self, alloc: Global, file: &[u8]) -> Result<Image, AllocError>
        requires { All (λ h. h.offset + h.file_size ≤ length file.now) self.now.loads.items }
        ensures { IfOk result (λ image. contents_of image ≡ outlined file.now self.now) }
    {
        let segments = segments_of(alloc, file, &self.loads)?;
        Ok(Image {
            entry: self.entry,
            segments,
            note: self.note,
        })
    }
}
