//! An instruction listing that shows the functions and the source lines of the program beside the instructions. The functions and lines
//! are found by a file of source positions. The annotated listing is tested but not verified.
use cyc_cli::{FileName, Shown};
use cyc_host::find_text;
use cyc_image::{Source, stretch_at};
use cyc_places::Table;
use cyc_words::{ByteOut, Failed};
use std::alloc::{AllocError, Global};
use std::fmt::Display;

/// A function of an image: its index in the program, and the address of its first instruction.
#[derive(Clone, Copy)]
struct Begun {
    number: usize,
    address: u32,
}

/// Returns the functions that have instructions in the image, in order of address.
fn functions_of(alloc: Global, table: &Table) -> Result<Vec<Begun>, AllocError> {
    let mut found: Vec<Begun> = Vec::new(alloc);
    for stretch in &table.stretches {
        let Some(number) = stretch.frame_function() else {
            continue;
        };
        let is_new = match found.last() {
            Some(last) => last.number != number,
            None => true,
        };
        if is_new {
            found.push(Begun {
                number,
                address: stretch.address,
            })?;
        }
    }
    Ok(found)
}

/// A source file: its name, its bytes, and the byte offsets at which its lines begin.
#[derive(Drop)]
struct Text {
    name: Vec<u8>,
    bytes: Vec<u8>,
    starts: Vec<usize>,
}

impl Text {
    /// Reads the source file with the given name; the text is empty if the file cannot be read.
    fn named(rt: &HostRuntime, name: &[u8]) -> Result<Text, AllocError> {
        let bytes = match str::from_utf8(name) {
            Ok(path) => find_text(rt, path),
            Err(_) => None,
        };
        let bytes = bytes.unwrap_or(Vec::new(rt.alloc()));
        let mut starts = Vec::new(rt.alloc());
        starts.push(0)?;
        for (place, byte) in bytes.iter().enumerate() {
            if *byte == b'\n' {
                starts.push(place.saturating_add(1))?;
            }
        }
        Ok(Text {
            name: Vec::from_slice(rt.alloc(), name)?,
            bytes,
            starts,
        })
    }

    /// Returns a line of the source file by its number, counted from 1; the line is empty if the file does not have it.
    fn line(&self, number: u32) -> &[u8] {
        let place = number.saturating_sub(1) as usize;
        let Some(start) = self.starts.get(place) else {
            return &[];
        };
        let line = self.bytes.get(*start..).unwrap_or(&[]);
        let end = line.iter().position(|byte| *byte == b'\n');
        line.get(..end.unwrap_or(line.len())).unwrap_or(&[])
    }
}

/// Returns the source files of a program; the first is the one that contains the program itself.
fn texts_of(rt: &HostRuntime, table: &Table) -> Result<Vec<Text>, AllocError> {
    let mut texts: Vec<Text> = Vec::new(rt.alloc());
    texts.push(Text::named(rt, &table.source)?)?;
    for part in &table.parts {
        let is_known = texts
            .iter()
            .any(|text| text.name.as_slice() == part.file.as_slice());
        if !is_known {
            texts.push(Text::named(rt, &part.file)?)?;
        }
    }
    Ok(texts)
}

/// Returns the number that hexadecimal digits denote.
fn number_in(digits: &[u8]) -> Option<u32> {
    u32::from_str_radix(str::from_utf8(digits).ok()?, 16).ok()
}

/// The number of hexadecimal digits of an address in a listing.
const DIGITS: usize = 8;

/// Returns the address at the beginning of a line of a listing.
fn address_in(line: &[u8]) -> Option<u32> {
    number_in(line.get(..DIGITS)?)
}

/// Returns the target address of the branch or jump instruction in a line of a listing, if the line contains one.
fn target_in(line: &[u8]) -> Option<u32> {
    let start = line.len().checked_sub(DIGITS)?;
    let before = line.get(..start)?;
    if before.ends_with(b" 0x") {
        number_in(line.get(start..)?)
    } else {
        None
    }
}

/// A device that receives an instruction listing and passes on its lines, each with the function and
/// source line of its instruction. The device for annotated listings passes on at most `left` lines.
#[derive(Drop)]
pub struct Annotated<'a, W: ByteOut + Drop> {
    alloc: Global,
    pub writer: W,
    table: &'a Table,
    texts: Vec<Text>,
    functions: Vec<Begun>,
    /// The bytes of the current line of the listing, which has not ended yet.
    line: Vec<u8>,
    /// The number of the source line that was shown last.
    shown: u32,
    pub left: u32,
    has_failed: bool,
}

impl<'a, W: ByteOut + Drop> Annotated<'a, W> {
    /// Returns a device that passes listing lines on to `writer` and has received no bytes yet.
    pub fn new(
        rt: &HostRuntime,
        writer: W,
        table: &'a Table,
        left: u32,
    ) -> Result<Annotated<'a, W>, AllocError> {
        Ok(Annotated {
            alloc: rt.alloc(),
            writer,
            table,
            texts: texts_of(rt, table)?,
            functions: functions_of(rt.alloc(), table)?,
            line: Vec::new(rt.alloc()),
            shown: 0,
            left,
            has_failed: false,
        })
    }

    fn put_words<D: Display + Drop>(&mut self, words: D) -> Result<(), Failed> {
        match format!(in self.alloc; "{words}") {
            Ok(text) => self.writer.put_all(text.as_bytes()),
            Err(_) => Err(Failed),
        }
    }

    /// Returns the function that contains an address: the last function that begins at the address or before it.
    fn function_at(&self, address: u32) -> Option<Begun> {
        let after = self
            .functions
            .partition_point(|function| function.address <= address);
        self.functions.get(after.checked_sub(1)?).copied()
    }

    /// Writes the name of the function that begins at the given address, if a function begins there.
    fn put_function(&mut self, address: u32) -> Result<(), Failed> {
        let Some(begun) = self.function_at(address) else {
            return Ok(());
        };
        if begun.address != address {
            return Ok(());
        }
        self.shown = 0;
        let table = self.table;
        match table.functions.get(begun.number) {
            Some(named) => {
                self.writer.put_all(b"\n")?;
                self.put_words(named)?;
                self.writer.put_all(b":\n")
            }
            None => Ok(()),
        }
    }

    /// Writes the source line from which the instruction at an address comes, unless that line was written last.
    fn put_source(&mut self, address: u32) -> Result<(), Failed> {
        let table = self.table;
        let Some(stretch) = stretch_at(&table.stretches, address) else {
            return Ok(());
        };
        let span = match (stretch.site, stretch.source) {
            (Some(site), _) => site.span,
            (None, Source::Part { span, .. } | Source::PassOn { span, .. }) => span,
            (None, _) => return Ok(()),
        };
        if span.line == self.shown {
            return Ok(());
        }
        self.shown = span.line;
        let (file, line) = table.home_of(span.line);
        let shown = match self.texts.iter().find(|text| text.name.as_slice() == file) {
            Some(text) => text.line(line),
            None => &[],
        };
        let words = format!(in self.alloc; "; {}:{line}: {}\n", FileName(file), Shown(shown));
        match words {
            Ok(words) => self.writer.put_all(words.as_bytes()),
            Err(_) => Err(Failed),
        }
    }

    /// Writes the function that contains the target of the line's branch or jump, and the target's offset in the function.
    fn put_target(&mut self) -> Result<(), Failed> {
        let Some(target) = target_in(&self.line) else {
            return Ok(());
        };
        let Some(begun) = self.function_at(target) else {
            return Ok(());
        };
        let table = self.table;
        if target >= table.end {
            return Ok(());
        }
        let Some(named) = table.functions.get(begun.number) else {
            return Ok(());
        };
        self.writer.put_all(b" <")?;
        self.put_words(named)?;
        match target.saturating_sub(begun.address) {
            0 => self.writer.put_all(b">"),
            beyond => {
                let words = format!(in self.alloc; "+0x{beyond:x}>");
                match words {
                    Ok(words) => self.writer.put_all(words.as_bytes()),
                    Err(_) => Err(Failed),
                }
            }
        }
    }

    /// Passes on the line of the instruction listing that has just ended.
    fn end_line(&mut self) -> Result<(), Failed> {
        if self.left == 0 {
            return Err(Failed);
        }
        if let Some(address) = address_in(&self.line) {
            self.put_function(address)?;
            self.put_source(address)?;
        }
        self.writer.put_all(&self.line)?;
        self.put_target()?;
        self.line.clear();
        self.left = self.left.saturating_sub(1);
        self.writer.put_all(b"\n")
    }
}

impl<W: ByteOut + Drop> ByteOut for Annotated<'_, W> {
    ghost use Rattle.std.specs.Prelude.{None};

    ghost written = { λ s. None };

    ghost failed = { λ s. s.has_failed };

    fn put(&mut self, byte: u8) -> Result<(), Failed> {
        let is_taken = if self.has_failed {
            false
        } else if byte == b'\n' {
            self.end_line().is_ok()
        } else {
            self.line.push(byte).is_ok()
        };
        self.has_failed = !is_taken;
        if is_taken { Ok(()) } else { Err(Failed) }
    }
}
