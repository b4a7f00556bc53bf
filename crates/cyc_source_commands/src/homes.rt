//! Adapts messages about a text that was joined from several files: each source position names the file that contains it. A position in
//! the program's own file is unchanged. The program's own file comes first in the joined text, so its line numbers are those of the
//! joined text.
use cyc_cli::{FileName, Quoted, Shown};
use cyc_places::Part;
use std::alloc::{AllocError, Global};
use std::fmt::Display;

/// Returns the file that contains a line of the joined text, and the line's number in that file, unless it is the program's own file.
fn home_of<'a>(parts: &[Part<'a>], line: u32) -> Option<(&'a str, u32)> {
    let after = parts.partition_point(|part| part.first <= line);
    let part = parts.get(after.checked_sub(1)?)?;
    let beyond = line.saturating_sub(part.first);
    Some((part.name, part.line.saturating_add(beyond)))
}

/// Reads a line number followed by the character `sign` at the start of a text about a joined text. Returns the file, other than the
/// program's own, that contains this line of the joined text, the line's number in that file, and the text after `sign`.
fn home_in<'a, 't>(
    parts: &[Part<'a>],
    text: &'t str,
    sign: char,
) -> Option<(&'a str, u32, &'t str)> {
    let (number, rest) = text.split_once(sign)?;
    let (name, line) = home_of(parts, number.parse().ok()?)?;
    Some((name, line, rest))
}

/// A message under construction: some pieces are copied, and the source positions between them are rewritten.
#[derive(Drop)]
struct Pieces<'a> {
    alloc: Global,
    parts: &'a [Part<'a>],
    made: String,
}

impl Pieces<'_> {
    fn put<D: Display + Drop>(&mut self, shown: D) -> Result<(), AllocError> {
        let text = format!(in self.alloc; "{shown}")?;
        self.made.push_str(text.as_str())
    }

    /// Appends a line for the user in which each source position in words follows ` at `.
    fn put_words(&mut self, line: &str) -> Result<(), AllocError> {
        let mut is_first = true;
        for piece in line.split(" at ") {
            if is_first {
                self.made.push_str(piece)?;
                is_first = false;
                continue;
            }
            self.made.push_str(" at ")?;
            match home_in(self.parts, piece, ':') {
                Some((name, at, rest)) => {
                    self.put(FileName(name.as_bytes()))?;
                    let text = format!(in self.alloc; ":{at}:{rest}")?;
                    self.made.push_str(text.as_str())?;
                }
                None => self.made.push_str(piece)?,
            }
        }
        Ok(())
    }

    /// Appends a line for the user, which may begin with a source position.
    fn put_line(&mut self, line: &str, head: &str) -> Result<(), AllocError> {
        match line.strip_prefix(head) {
            Some(placed) => match home_in(self.parts, placed, ':') {
                Some((name, at, rest)) => {
                    self.put(FileName(name.as_bytes()))?;
                    let text = format!(in self.alloc; ":{at}:")?;
                    self.made.push_str(text.as_str())?;
                    self.put_words(rest)
                }
                None => self.put_words(line),
            },
            None => self.put_words(line),
        }
    }

    /// Appends the members of a JSON object, in which a line number follows the member name `name`.
    fn put_members(&mut self, object: &str, name: &str) -> Result<(), AllocError> {
        let mut is_first = true;
        for piece in object.split(name) {
            if is_first {
                self.made.push_str(piece)?;
                is_first = false;
                continue;
            }
            self.made.push_str(name)?;
            match home_in(self.parts, piece, ',') {
                Some((_, at, rest)) => {
                    let text = format!(in self.alloc; "{at},{rest}")?;
                    self.made.push_str(text.as_str())?;
                }
                None => self.made.push_str(piece)?,
            }
        }
        Ok(())
    }
}

/// Returns the message for the user about a text whose program is in the file `name`, with positions in other files rewritten.
pub fn words_by_homes(
    alloc: Global,
    said: &str,
    name: &str,
    parts: &[Part<'_>],
) -> Result<String, AllocError> {
    let head = format!(in alloc; "{}:", FileName(name.as_bytes()))?;
    let mut pieces = Pieces {
        alloc,
        parts,
        made: String::new(alloc),
    };
    let mut is_first = true;
    for line in said.split('\n') {
        if !is_first {
            pieces.made.push('\n')?;
        }
        is_first = false;
        pieces.put_line(line, head.as_str())?;
    }
    Ok(pieces.made)
}

/// Returns the file of the source position that follows the given words in a JSON object, as JSON, if it is not the program's file.
fn file_after(
    alloc: Global,
    object: &str,
    words: &str,
    parts: &[Part<'_>],
) -> Result<Option<String>, AllocError> {
    let Some((_, place)) = object.split_once(words) else {
        return Ok(None);
    };
    match home_in(parts, place, ',') {
        Some((name, _, _)) => {
            let shown = format!(in alloc; "{}", Shown(name.as_bytes()))?;
            Ok(Some(format!(in alloc; "{}", Quoted(shown.as_str()))?))
        }
        None => Ok(None),
    }
}

const FILE: &str = "\"file\":";

const LINE: &str = ",\"line\":";

const RELATED: &str = "\"related\":[{\"line\":";

const END: &str = "}]}\n";

/// Returns a JSON object with the file of its source position replaced.
fn with_file(alloc: Global, object: &str, file: &str) -> Result<String, AllocError> {
    if let Some((before, after)) = object.split_once(FILE) {
        if let Some((_, rest)) = after.split_once(LINE) {
            return format!(in alloc; "{before}{FILE}{file}{LINE}{rest}");
        }
    }
    format!(in alloc; "{object}")
}

/// Returns the given JSON object, on a line, with the name of the file that contains its source position; the program's own file is
/// `name`. If a second source position is in a different file, that file's name is added as the last member.
pub fn object_by_homes(
    alloc: Global,
    object: &str,
    name: &str,
    parts: &[Part<'_>],
) -> Result<String, AllocError> {
    let own = format!(in alloc; "{}", Shown(name.as_bytes()))?;
    let own = format!(in alloc; "{}", Quoted(own.as_str()))?;
    let file = file_after(alloc, object, LINE, parts)?;
    let other = file_after(alloc, object, RELATED, parts)?;
    let file = match &file {
        Some(file) => file.as_str(),
        None => own.as_str(),
    };
    let other = match &other {
        Some(other) => other.as_str(),
        None => own.as_str(),
    };
    let mut made = with_file(alloc, object, file)?;
    if file != other && object.split_once(RELATED).is_some() {
        if let Some(before) = made.as_str().strip_suffix(END) {
            made = format!(in alloc; "{before},{FILE}{other}{END}")?;
        }
    }
    let mut lines = Pieces {
        alloc,
        parts,
        made: String::new(alloc),
    };
    lines.put_members(made.as_str(), "\"line\":")?;
    let mut ends = Pieces {
        alloc,
        parts,
        made: String::new(alloc),
    };
    ends.put_members(lines.made.as_str(), "\"endLine\":")?;
    Ok(ends.made)
}
