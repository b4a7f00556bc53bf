//! The formatted text, as far as it is written.
use crate::gap::Comment;
use std::alloc::Global;

/// The most bytes of a text. A formatted text above the size limit is not completed, since it cannot be a result.
const MOST_BYTES: usize = 1048576;

/// The deepest indentation level; the lines of deeper levels are indented as much as those of this level.
const DEEPEST: usize = 40;

/// The number of spaces by which each level is indented.
const STEP: usize = 2;

#[derive(Drop)]
pub(crate) struct Sheet {
    bytes: Vec<u8>,
    /// The number of bytes on the last line written.
    pub(crate) column: usize,
    /// True if memory has not run out, so that the text is complete so far.
    is_whole: bool,
}

/// Returns the bytes of a line without trailing blanks.
fn without_blanks(bytes: &[u8]) -> &[u8] {
    let mut length: usize = 0;
    for (n, byte) in bytes.iter().enumerate() {
        if !matches!(*byte, b' ' | b'\t' | b'\r') {
            length = n.saturating_add(1);
        }
    }
    bytes.get(..length).unwrap_or(bytes)
}

/// Returns the number of leading blanks of a line.
fn blanks_of(bytes: &[u8]) -> usize {
    for (n, byte) in bytes.iter().enumerate() {
        if !matches!(*byte, b' ' | b'\t' | b'\r') {
            return n;
        }
    }
    bytes.len()
}

impl Sheet {
    pub(crate) fn new(alloc: Global) -> Sheet {
        Sheet {
            bytes: Vec::new(alloc),
            column: 0,
            is_whole: true,
        }
    }

    pub(crate) fn is_empty(&self) -> bool {
        self.bytes.is_empty()
    }

    /// Returns the bytes of the formatted text, or `None` if memory ran out.
    pub(crate) fn finish(self) -> Option<Vec<u8>> {
        let Sheet {
            bytes,
            is_whole,
            ..
        } = self;
        if is_whole { Some(bytes) } else { None }
    }

    pub(crate) fn put(&mut self, bytes: &[u8]) {
        if self.bytes.len() > MOST_BYTES {
            return;
        }
        self.is_whole = self.bytes.extend_from_slice(bytes).is_ok() && self.is_whole;
        self.column = self.column.saturating_add(bytes.len());
    }

    pub(crate) fn put_spaces(&mut self, count: usize) {
        for _ in 0..count {
            self.put(b" ");
        }
    }

    /// Ends the line, if one was begun, and begins the next line at an indentation level, after an empty line if `is_apart`.
    pub(crate) fn end_line(&mut self, level: usize, is_apart: bool) {
        if !self.is_empty() {
            self.put(b"\n");
            if is_apart {
                self.put(b"\n");
            }
        }
        self.column = 0;
        self.put_spaces(level.min(DEEPEST).saturating_mul(STEP));
    }

    /// Writes a comment. If the comment's first line moves to another column, its following lines are moved by the same number of columns.
    pub(crate) fn put_comment(&mut self, text: &[u8], comment: Comment) {
        let bytes = text.get(comment.start..comment.end).unwrap_or(&[]);
        let (from, to) = (comment.column, self.column);
        for (n, line) in bytes.split(|byte| *byte == b'\n').enumerate() {
            let line = without_blanks(line);
            if n == 0 {
                self.put(line);
            } else {
                self.put(b"\n");
                self.column = 0;
                self.put_moved(line, from, to);
            }
        }
    }

    /// Writes a line, other than the first, of a comment that was moved from the column `from` to the column `to`.
    fn put_moved(&mut self, line: &[u8], from: usize, to: usize) {
        if from == to || line.is_empty() {
            self.put(line);
            return;
        }
        let blanks = blanks_of(line);
        self.put_spaces(blanks.saturating_add(to).saturating_sub(from));
        self.put(line.get(blanks..).unwrap_or(line));
    }
}
