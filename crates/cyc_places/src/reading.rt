//! Reads the contents of a file of places, which maps code addresses to source positions.
use crate::writing::HEAD;
use cyc_cli::Shown;
use cyc_image::{Site, Source, Stretch};
use cyc_words::Span;
use std::alloc::{AllocError, Global};
use std::fmt;

/// The name of a function or exception in a file of places, which maps code addresses to source positions.
#[derive(Drop)]
pub struct Named {
    pub name: Vec<u8>,
    pub has_int: bool,
}

/// The maximal number of bytes of a name that messages show; three dots stand for the rest of a longer name.
const MOST_SHOWN: usize = 160;

/// Shows a name; a name that is too long is cut off and ends in three dots.
impl fmt::Display for Named {
    fn fmt<W: fmt::Write>(&self, f: &mut fmt::Formatter<W>) -> fmt::Result {
        match self.name.get(..MOST_SHOWN) {
            Some(part) if self.name.len() > MOST_SHOWN => write!(f, "{}...", Shown(part)),
            _ => write!(f, "{}", Shown(&self.name)),
        }
    }
}

/// The beginning of a stretch of the program text that comes from another file.
#[derive(Drop)]
pub struct Elsewhere {
    /// The first line of a stretch of program text that comes from another file, as a line number in the whole text.
    pub first: u32,
    /// The number, within the other file, of the first line of a stretch of program text that comes from this file.
    pub line: u32,
    pub file: Vec<u8>,
}

/// The contents of a file of places, which maps code addresses to source positions.
#[derive(Drop)]
pub struct Table {
    /// The name of the source file.
    pub source: Vec<u8>,
    /// The stretches of the program text that come from other files, in order.
    pub parts: Vec<Elsewhere>,
    pub sum: u64,
    /// The declared exceptions, in the order of their identifying numbers.
    pub exceptions: Vec<Named>,
    /// The names of the functions, in the order of their indices.
    pub functions: Vec<Named>,
    pub stretches: Vec<Stretch>,
    /// The first address after all stretches of code (ranges of machine words, each made for one source construct).
    pub end: u32,
}

/// Returns the number that a string of digits represents in the given base.
fn number_in(digits: &[u8], base: u64) -> Option<u64> {
    if digits.is_empty() {
        return None;
    }
    let mut number: u64 = 0;
    for byte in digits {
        let digit = match byte {
            b'0'..=b'9' => byte - b'0',
            b'a'..=b'f' => byte - b'a' + 10,
            _ => return None,
        };
        if u64::from(digit) >= base {
            return None;
        }
        number = number.checked_mul(base)?.checked_add(u64::from(digit))?;
    }
    Some(number)
}

/// Returns the 32-bit number that a space-separated word of a text line represents.
fn small_in(word: Option<&[u8]>, base: u64) -> Option<u32> {
    u32::try_from(number_in(word?, base)?).ok()
}

/// Returns the word with the given index in a line of text, counted from 0.
fn word_in(line: &[u8], number: usize) -> Option<&[u8]> {
    line.split(|byte| *byte == b' ').nth(number)
}

/// Returns the source position that two consecutive words of a line of text represent; the first word has the given index in the line.
fn span_in(line: &[u8], number: usize) -> Option<Span> {
    Some(Span {
        line: small_in(word_in(line, number), 10)?,
        column: small_in(word_in(line, number.saturating_add(1)), 10)?,
    })
}

/// Returns the source construct of code, which a line of text states after the address of the code, and the index of
/// the next word in the line.
fn source_in(line: &[u8]) -> Option<(Source, usize)> {
    let first = word_in(line, 1);
    if first == Some(b"start") {
        return Some((Source::Start, 2));
    }
    let function = small_in(first, 10)? as usize;
    if word_in(line, 2) == Some(b"raise") {
        return Some((Source::Raise { function }, 3));
    }
    let span = span_in(line, 2)?;
    match word_in(line, 4) {
        Some(b"pass") => Some((Source::PassOn { function, span }, 5)),
        _ => Some((Source::Part { function, span }, 4)),
    }
}

/// Returns the inlined call that the last words of a line of text represent, beginning with the word of the given index.
fn site_in(line: &[u8], number: usize) -> Option<Site> {
    if word_in(line, number.saturating_add(4)).is_some() {
        return None;
    }
    Some(Site {
        function: small_in(word_in(line, number.saturating_add(1)), 10)? as usize,
        span: span_in(line, number.saturating_add(2))?,
    })
}

/// Returns the stretch of code (machine words made for one source construct) that a line of text describes.
fn stretch_in(line: &[u8], address: u32) -> Option<Stretch> {
    let (source, following) = source_in(line)?;
    let site = match word_in(line, following) {
        None => None,
        Some(b"in") => Some(site_in(line, following)?),
        Some(_) => return None,
    };
    Some(Stretch {
        address,
        source,
        site,
    })
}

/// The reason why a file of places, which maps code addresses to source positions, could not be read.
#[derive(Clone, Copy)]
pub enum Unread {
    /// The file of places, which maps code addresses to source positions, is malformed.
    Malformed,
    Memory,
}

impl From<AllocError> for Unread {
    fn from(_error: AllocError) -> Unread {
        Unread::Memory
    }
}

/// Appends an element to a list, or reports that memory for the list cannot be allocated.
fn put<T: Drop>(list: &mut Vec<T>, item: T) -> Result<(), Unread> {
    match list.push(item) {
        Ok(()) => Ok(()),
        Err(_) => Err(Unread::Memory),
    }
}

/// Returns a copy of a name from a file of places, which maps code addresses to source positions.
fn read_name(alloc: Global, name: &[u8], has_int: bool) -> Result<Named, Unread> {
    Ok(Named {
        name: Vec::from_slice(alloc, name)?,
        has_int,
    })
}

/// Returns the stretch of program text, taken from another file, that a line of the file of places
/// describes. After its first word, such a line has two numbers and a file name, which may contain spaces.
fn part_in(alloc: Global, line: &[u8]) -> Result<Elsewhere, Unread> {
    let first = small_in(word_in(line, 1), 10).ok_or(Unread::Malformed)?;
    let begin = small_in(word_in(line, 2), 10).ok_or(Unread::Malformed)?;
    let mut spaces: usize = 0;
    let mut name: &[u8] = line;
    for (place, byte) in line.iter().enumerate() {
        if *byte == b' ' && spaces < 3 {
            spaces = spaces.saturating_add(1);
            name = line.get(place.saturating_add(1)..).unwrap_or(&[]);
        }
    }
    Ok(Elsewhere {
        first,
        line: begin,
        file: Vec::from_slice(alloc, name)?,
    })
}

impl Table {
    /// Returns the file that a line of the whole text comes from, and the line's number in that file.
    pub fn home_of(&self, line: u32) -> (&[u8], u32) {
        let after = self.parts.partition_point(|part| part.first <= line);
        match after.checked_sub(1).and_then(|last| self.parts.get(last)) {
            Some(part) => {
                let beyond = line.saturating_sub(part.first);
                (&part.file, part.line.saturating_add(beyond))
            }
            None => (&self.source, line),
        }
    }

    /// Adds what one line of a file of places (the map from code addresses to source positions) states to the table; the line is not the
    /// file's first line.
    fn add(&mut self, alloc: Global, line: &[u8]) -> Result<(), Unread> {
        let name = word_in(line, 1).unwrap_or(b"");
        match word_in(line, 0) {
            Some(b"source") => {
                let shown = line.strip_prefix(b"source ").unwrap_or(b"");
                self.source = Vec::from_slice(alloc, shown)?;
            }
            Some(b"part") => {
                let part = part_in(alloc, line)?;
                put(&mut self.parts, part)?;
            }
            Some(b"image") => self.sum = number_in(name, 16).ok_or(Unread::Malformed)?,
            Some(b"exception") => {
                let has_int = word_in(line, 2) == Some(b"int");
                put(&mut self.exceptions, read_name(alloc, name, has_int)?)?;
            }
            Some(b"function") => put(&mut self.functions, read_name(alloc, name, false)?)?,
            word => {
                let address = small_in(word, 16).ok_or(Unread::Malformed)?;
                if word_in(line, 1) == Some(b"end") {
                    self.end = address;
                } else {
                    let stretch = stretch_in(line, address).ok_or(Unread::Malformed)?;
                    put(&mut self.stretches, stretch)?;
                }
            }
        }
        Ok(())
    }
}

/// Reads a file of places, which maps code addresses to source positions, and returns its contents.
pub fn table_in(alloc: Global, file: &[u8]) -> Result<Table, Unread> {
    let mut table = Table {
        source: Vec::new(alloc),
        parts: Vec::new(alloc),
        sum: 0,
        exceptions: Vec::new(alloc),
        functions: Vec::new(alloc),
        stretches: Vec::new(alloc),
        end: 0,
    };
    let mut is_first = true;
    for line in file.split(|byte| *byte == b'\n') {
        if is_first {
            if line != HEAD {
                return Err(Unread::Malformed);
            }
            is_first = false;
        } else if !line.is_empty() {
            table.add(alloc, line)?;
        }
    }
    Ok(table)
}
