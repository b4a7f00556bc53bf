//! Lists the words of an image's machine code with the instructions that they encode.

ghost use Rattle.std.specs.Prelude.{◌≡◌, ◌+◌, ◌<◌, ◌≤◌, ◌&&◌, ◌||◌, nat_le, nat_lt, true, All, OnOk, OnErr, length, map, Err};
ghost use Rattle.std.specs.Io.KnownBytes.{Keeps};
ghost use Rattle.std.specs.List.{flat_map};
ghost use Rattle.cyc_words.specs.Device.{TakesText};
ghost use Rattle.cyc_isa.specs.Text.{hex_digit_of, hex_digits_of};
ghost use Rattle.cyc_elf.specs.Image.{IsSegment};
ghost use Rattle.cyc_elf.specs.Outline.{fields_of};
ghost use Rattle.cyc_machine_model.specs.State.{text_base, text_end};
ghost use Rattle.cyc_elf.specs.Reading.{reading, segment_of};
ghost use Rattle.cyc_emulator.specs.Faults.{is_write};
ghost use Rattle.cyc_emulator.specs.declared.report.RunFault.TheVariants.{Memory};
ghost use Rattle.cyc_emulator.specs.Listing.{word_text, head_of, line_of, segment_lines, listed_lines, Shows};

use crate::report::RunFault;
use cyc_elf::{ProgramHeader, read_outline};
use cyc_isa::{decode, write_text};
use cyc_machine::constants::{TEXT_BASE, TEXT_END};
use cyc_machine::segment_word_at;
use cyc_words::{ByteOut, Failed};
use std::alloc::Global;

fn hex_digit(digit: u32) -> u8
    requires { digit < 16 }
    ensures { result ≡ hex_digit_of digit }
{
    let digit = digit as u8;
    if digit < 10 {
        b'0' + digit
    } else {
        b'a' + (digit - 10)
    }
}

#[tactic(auto, unfolding(cyc_isa::specs::Text::hex_digits_of))]
fn hex_digits(word: u32) -> [u8; 8]
    ensures { result ≡ hex_digits_of word }
{
    [
        hex_digit(word >> 28),
        hex_digit((word >> 24) % 16),
        hex_digit((word >> 20) % 16),
        hex_digit((word >> 16) % 16),
        hex_digit((word >> 12) % 16),
        hex_digit((word >> 8) % 16),
        hex_digit((word >> 4) % 16),
        hex_digit(word % 16),
    ]
}

/// Writes the text of a machine word: the instruction that it encodes, or `.word`.
#[tactic(auto, unfolding(crate::specs::Listing::word_text))]
fn put_word<W: ByteOut>(address: u32, word: u32, out: &mut W) -> Result<(), Failed>
    ensures bytes { TakesText (W.written out.old) (word_text address word) result (W.written out.new) }
    ensures works { OnOk result (W.failed out.new ≡ W.failed out.old) }
    ensures fails { OnErr result (W.failed out.new ≡ true) }
{
    match decode(word) {
        Some(instr) => write_text(instr, address, out),
        None => out.put_all(b".word"),
    }
}

/// Writes an address and the word at that address.
fn put_head<W: ByteOut>(address: u32, word: u32, out: &mut W) -> Result<(), Failed>
    ensures bytes { TakesText (W.written out.old) (head_of address word) result (W.written out.new) }
    ensures works { OnOk result (W.failed out.new ≡ W.failed out.old) }
    ensures fails { OnErr result (W.failed out.new ≡ true) }
{
    let address = hex_digits(address);
    let word = hex_digits(word);
    out.put_parts(&[&address, b": ", &word, b" "])
}

/// Writes the listing line of a word.
fn put_line<W: ByteOut>(address: u32, word: u32, out: &mut W) -> Result<(), Failed>
    ensures bytes { TakesText (W.written out.old) (line_of address word) result (W.written out.new) }
    ensures works { OnOk result (W.failed out.new ≡ W.failed out.old) }
    ensures fails { OnErr result (W.failed out.new ≡ true) }
{
    put_head(address, word, out)?;
    put_word(address, word, out)?;
    out.put_all(b"\n")
}

/// Writes the lines of the segment that a program header describes.
fn put_segment<W: ByteOut>(file: &[u8], header: &ProgramHeader, out: &mut W) -> Result<(), Failed>
    requires stored { header.now.offset + header.now.file_size ≤ length file.now }
    requires segment { IsSegment (segment_of file.now (fields_of header.now)) }
    ensures bytes { TakesText (W.written out.old) (segment_lines (segment_of file.now (fields_of header.now))) result (W.written out.new) }
    ensures works { OnOk result (W.failed out.new ≡ W.failed out.old) }
    ensures fails { OnErr result (W.failed out.new ≡ true) }
{
    for number in 0..header.memory_size.div_ceil(4) {
        let offset = 4 * number;
        put_line(
            header.vaddr + offset,
            segment_word_at(file, header, offset as usize),
            out,
        )?;
    }
    Ok(())
}

fn is_in_text(address: u32) -> bool
    ensures { result ≡ (nat_le text_base address && nat_lt address text_end) }
{
    TEXT_BASE <= address && address < TEXT_END
}

/// Writes the lines of the segment that a program header describes, if the segment begins in the address range for machine code (text).
fn put_listed<W: ByteOut>(file: &[u8], header: &ProgramHeader, out: &mut W) -> Result<(), Failed>
    requires stored { header.now.offset + header.now.file_size ≤ length file.now }
    requires segment { IsSegment (segment_of file.now (fields_of header.now)) }
    ensures bytes { TakesText (W.written out.old) (listed_lines (segment_of file.now (fields_of header.now))) result (W.written out.new) }
    ensures works { OnOk result (W.failed out.new ≡ W.failed out.old) }
    ensures fails { OnErr result (W.failed out.new ≡ true) }
{
    if is_in_text(header.vaddr) {
        put_segment(file, header, out)
    } else {
        Ok(())
    }
}

/// Writes the lines of the segments that these program headers describe.
fn put_all_listed<W: ByteOut>(
    file: &[u8],
    loads: &[ProgramHeader],
    out: &mut W,
) -> Result<(), Failed>
    requires stored { All (λ h. h.offset + h.file_size ≤ length file.now) loads.now }
    requires segments { All IsSegment (map (segment_of file.now) (map fields_of loads.now)) }
    ensures bytes { TakesText (W.written out.old) (flat_map listed_lines (map (segment_of file.now) (map fields_of loads.now))) result (W.written out.new) }
    ensures works { OnOk result (W.failed out.new ≡ W.failed out.old) }
    ensures fails { OnErr result (W.failed out.new ≡ true) }
{
    for number in 0..loads.len() {
        put_listed(file, &loads[number], out)?;
    }
    Ok(())
}

/// Lists an image: a line for each word of each segment that begins in the address range for machine code. A line has the address, the
/// word, and the text of the encoded instruction, or `.word` if the word encodes none. The bytes of the segments are not copied from the
/// file.
///
/// If the writer fails, a prefix of the listing has been written.
pub fn disassemble<W: ByteOut>(alloc: Global, image: &[u8], writer: &mut W) -> Result<(), RunFault>
    ensures shows { Shows (reading image.now) (W.written writer.old) (W.written writer.new) result }
    // `disassemble` returns `Memory` only before it has written the first line.
    ensures memory { result ≡ Err Memory → Keeps (W.written writer.old) (W.written writer.new) }
    // `disassemble` returns `Write` exactly if the writer failed in this call.
    ensures writer { W.failed writer.new ≡ (is_write result || W.failed writer.old) }
{
    let outline = read_outline(alloc, image)?;
    match put_all_listed(image, &outline.loads, writer) {
        Ok(()) => Ok(()),
        Err(_) => Err(RunFault::Write),
    }
}
