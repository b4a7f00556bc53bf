//! The text that the command `info` writes about an image.
ghost use Rattle.std.specs.Prelude.{◌≡◌, Some, flat_map, map};
ghost use Rattle.std.specs.Fmt.{WritesOnOk};
ghost use Rattle.cyc_image_commands.specs.inside.Info.{extent_in, form_line, has_form, hex_of, is_data, is_text, limits_line, outline_text, range_of};
ghost use Rattle.cyc_image_commands.specs.inside.Info.{segment_line};

use cyc_elf::{Outline, ProgramHeader};
use cyc_machine::constants::{DATA_BASE, DATA_END, TEXT_BASE, TEXT_END};
use std::fmt;

/// The flags of segments of the two kinds: readable and executable (4 and 1), and readable and writable (4 and 2).
const READ_AND_EXECUTE: u32 = 5;

const READ_AND_WRITE: u32 = 6;

fn write_hex<W: fmt::Write>(byte: u8, f: &mut fmt::Formatter<W>) -> fmt::Result
    ensures { WritesOnOk W.write_str_gives f.old result (hex_of byte) f.new }
{
    write!(f, "{byte:02x}")
}

/// An address, written as eight hexadecimal digits.
#[derive(Drop)]
struct Address(u32);

impl fmt::Display for Address {
    ghost use Rattle.cyc_image_commands.specs.inside.Info.{address_text};

    ghost output = { λ a. Some (address_text a.0) };

    fn fmt<W: fmt::Write>(&self, f: &mut fmt::Formatter<W>) -> fmt::Result {
        write_hex((self.0 >> 24) as u8, f)?;
        write_hex(((self.0 >> 16) % 256) as u8, f)?;
        write_hex(((self.0 >> 8) % 256) as u8, f)?;
        write_hex((self.0 % 256) as u8, f)
    }
}

/// Returns the name of the machine's memory range that contains the first address of a segment.
fn range_of(segment: &ProgramHeader) -> &'static str
    ensures { result.now ≡ range_of (extent_in segment.now) }
{
    if TEXT_BASE <= segment.vaddr && segment.vaddr < TEXT_END {
        "text"
    } else if DATA_BASE <= segment.vaddr && segment.vaddr < DATA_END {
        "data"
    } else {
        "elsewhere"
    }
}

fn write_segment<W: fmt::Write>(segment: &ProgramHeader, f: &mut fmt::Formatter<W>) -> fmt::Result
    ensures { WritesOnOk W.write_str_gives f.old result (segment_line (extent_in segment.now)) f.new }
{
    write!(
        f,
        "{} at {}, {} words, {} bytes in the file, flags {}\n",
        range_of(segment),
        Address(segment.vaddr),
        segment.memory_size.div_ceil(4),
        segment.file_size,
        segment.flags
    )
}

fn write_segments<W: fmt::Write>(
    segments: &[ProgramHeader],
    f: &mut fmt::Formatter<W>,
) -> fmt::Result
    ensures { WritesOnOk W.write_str_gives f.old result (flat_map segment_line (map extent_in segments.now)) f.new }
{
    for segment in segments {
        write_segment(segment, f)?;
    }
    Ok(())
}

fn write_limits<W: fmt::Write>(limits: Option<(u32, u32)>, f: &mut fmt::Formatter<W>) -> fmt::Result
    ensures { WritesOnOk W.write_str_gives f.old result (limits_line limits) f.new }
{
    match limits {
        Some((pages, calls)) => write!(f, "limits {pages} pages, {calls} calls\n"),
        None => f.write_str("limits none\n"),
    }
}

fn is_text(segment: &ProgramHeader) -> bool
    ensures { result ≡ is_text (extent_in segment.now) }
{
    segment.vaddr == TEXT_BASE
        && segment.flags == READ_AND_EXECUTE
        && segment.file_size == segment.memory_size
}

fn is_data(segment: &ProgramHeader) -> bool
    ensures { result ≡ is_data (extent_in segment.now) }
{
    segment.vaddr == DATA_BASE
        && segment.flags == READ_AND_WRITE
        && segment.file_size == segment.memory_size
        && segment.memory_size % 4 == 0
        && 0 < segment.memory_size
}

/// Returns true if an image has the form of this compiler's images. An image of this form has its entry address at the start of the
/// code range. An image of this form has one code segment, one data segment if there are globals, and no other segment.
fn has_form(image: &Outline) -> bool
    ensures { result ≡ has_form image.now.entry (map extent_in image.now.loads.items) }
{
    if image.entry != TEXT_BASE {
        return false;
    }
    match image.loads.as_slice() {
        [text] => is_text(text),
        [text, data] => is_text(text) && is_data(data),
        _ => false,
    }
}

fn write_form<W: fmt::Write>(is_ours: bool, f: &mut fmt::Formatter<W>) -> fmt::Result
    ensures { WritesOnOk W.write_str_gives f.old result (form_line is_ours) f.new }
{
    if is_ours {
        f.write_str("form of this compiler\n")
    } else {
        f.write_str("form another\n")
    }
}

/// The outline of an image (its entry address, program headers and limits). `Display` writes the image's description: its entry, a line
/// for each segment, its limits, and a statement if it has the form of this compiler's images.
#[derive(Drop)]
pub struct Description<'a>(pub &'a Outline);

impl fmt::Display for Description<'_> {
    ghost output = { λ d. Some (outline_text d.0.now) };

    fn fmt<W: fmt::Write>(&self, f: &mut fmt::Formatter<W>) -> fmt::Result {
        let image = self.0;
        write!(f, "entry at {}\n", Address(image.entry))?;
        write_segments(image.loads.as_slice(), f)?;
        write_limits(image.note, f)?;
        write_form(has_form(image), f)
    }
}
