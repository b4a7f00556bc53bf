//! Executable images: the reader and the writer of 32-bit, big-endian ELF files for MIPS.
//!
//! An [`Image`] is an entry address, the segments that a program starts with, and optionally the limits of its runs. [`write_image`] lays
//! out an image as a file. [`read_image`] reads a file's headers and segments, or reports the first fault. The format is that of the System
//! V ABI, chapters 4 and 5; limits are in a note of this project's own. The reader ignores section tables, symbol tables and notes without
//! limits, and the writer writes none of them.
#![tactic(auto)]

mod fault;
mod fields;
mod file_header;
mod image;
mod note;
mod outline;
mod program_header;
mod reading;
mod table;
mod writing;

pub use fault::ElfFault;
pub use image::{Image, Segment};
pub use outline::Outline;
pub use program_header::ProgramHeader;
pub use reading::{read_image, read_outline};
pub use writing::write_image;
