//! This file builds the image of a compiled program from the machine words of its code and the initial values of its globals.

ghost use Rattle.std.specs.Prelude.{◌≡◌, ◌+◌, ◌*◌, ◌^◌, ◌<◌, ◌≤◌, Ok, IfOk, length};
ghost use Rattle.std.specs.List.{AllByRecursion};
ghost use Rattle.cyc_words.specs.Word.{IsWord};
ghost use Rattle.cyc_elf.specs.Image.{segment_contents, contents_of};
ghost use Rattle.cyc_elf.specs.Layout.{layout};
ghost use Rattle.cyc_elf.specs.Reading.{reading};
ghost use Rattle.cyc_machine_model.specs.State.{text_base, text_end, globals_length};
ghost use Rattle.cyc_image.specs.Notes.{AreAllowedIfAny};
ghost use Rattle.cyc_compiler.specs.ProgramImage.{bytes_of_words, segment_of, program_image};

use cyc_elf::{Image, Segment, write_image};
use cyc_machine_model::constants::{DATA_BASE, TEXT_BASE};
use cyc_words::bytes_of;
use std::alloc::{AllocError, Global};

/// The flags of a segment that is readable (4) and executable (1).
pub(crate) const READ_AND_EXECUTE: u32 = 5;

/// The flags of a segment that is readable (4) and writable (2).
pub(crate) const READ_AND_WRITE: u32 = 6;

/// Returns the bytes of words, one word after another.
fn bytes_of_words(alloc: Global, words: &[u32]) -> Result<Vec<u8>, AllocError>
    ensures bytes { IfOk result (λ bytes. bytes.items ≡ bytes_of_words words.now) }
    ensures words { IfOk result (λ _. AllByRecursion IsWord words.now) }
{
    let mut bytes = Vec::with_capacity(alloc, 4 * words.len())?;
    for word in words {
        bytes.extend_from_slice(&bytes_of(*word))?;
    }
    Ok(bytes)
}

/// Returns a segment that contains these words.
fn segment_of(alloc: Global, vaddr: u32, flags: u32, words: &[u32]) -> Result<Segment, AllocError>
    requires { 4 * length words.now < 2 ^ 32 }
    ensures segment { IfOk result (λ segment. segment_contents segment ≡ segment_of vaddr flags words.now) }
    ensures words { IfOk result (λ _. AllByRecursion IsWord words.now) }
{
    let bytes = bytes_of_words(alloc, words)?;
    let size = bytes.len() as u32;
    Ok(Segment {
        vaddr,
        flags,
        bytes,
        size,
    })
}

/// Returns the image of a program: a code segment, a data segment if there are globals, and the limits
/// on pages and calls in `note`, if there are any.
fn image_of_program(
    alloc: Global,
    words: &[u32],
    globals: &[u32],
    note: Option<(u32, u32)>,
) -> Result<Image, AllocError>
    requires fit { text_base + 4 * length words.now ≤ text_end }
    requires few { length globals.now ≤ globals_length }
    ensures image { IfOk result (λ image. contents_of image ≡ program_image words.now globals.now note) }
    ensures words { IfOk result (λ _. AllByRecursion IsWord words.now) }
    ensures globals { IfOk result (λ _. AllByRecursion IsWord globals.now) }
{
    let text = segment_of(alloc, TEXT_BASE, READ_AND_EXECUTE, words)?;
    let segments = if globals.is_empty() {
        vec![in alloc; text]?
    } else {
        let data = segment_of(alloc, DATA_BASE, READ_AND_WRITE, globals)?;
        vec![in alloc; text, data]?
    };
    Ok(Image {
        entry: TEXT_BASE,
        segments,
        note,
    })
}

/// Writes the image of a program as the bytes of a file.
pub(crate) fn write_program(
    alloc: Global,
    words: &[u32],
    globals: &[u32],
    note: Option<(u32, u32)>,
) -> Result<Vec<u8>, AllocError>
    requires some { 0 < length words.now }
    requires fit { text_base + 4 * length words.now ≤ text_end }
    requires few { length globals.now ≤ globals_length }
    requires allowed { AreAllowedIfAny note }
    ensures exact { IfOk result (λ file. file.items ≡ layout (program_image words.now globals.now note)) }
    ensures read { IfOk result (λ file. reading file.items ≡ Ok (program_image words.now globals.now note)) }
    ensures words { IfOk result (λ _. AllByRecursion IsWord words.now) }
    ensures globals { IfOk result (λ _. AllByRecursion IsWord globals.now) }
{
    let image = image_of_program(alloc, words, globals, note)?;
    write_image(alloc, &image)
}
