//! The gap between two tokens: blanks, line ends and comments.
use std::alloc::Global;

/// A comment in the gap between two tokens.
#[derive(Clone, Copy)]
pub(crate) struct Comment {
    pub(crate) start: usize,
    pub(crate) end: usize,
    /// True if the comment extends to the end of its line.
    pub(crate) is_line: bool,
    /// The number of line ends just before the comment.
    pub(crate) lines: usize,
    /// The number of blanks just before the comment on its line.
    pub(crate) blanks: usize,
    /// The number of bytes on the comment's line before the comment.
    pub(crate) column: usize,
}

/// The gap between two tokens of the original text.
#[derive(Drop)]
pub(crate) struct Gap {
    pub(crate) comments: Vec<Comment>,
    /// The number of line ends after the last comment, or in the whole gap if it has no comment.
    pub(crate) lines: usize,
    /// True if the gap contains a line end outside comments.
    pub(crate) has_line_end: bool,
    /// True if memory has not run out, so that the list of the gap's comments is complete.
    pub(crate) is_whole: bool,
}

/// Returns the byte at a byte offset, or 0 past the end of the text.
pub(crate) fn byte_at(text: &[u8], place: usize) -> u8 {
    match text.get(place) {
        Some(byte) => *byte,
        None => 0,
    }
}

/// Returns the end of the line comment that begins at a byte offset.
fn line_end(text: &[u8], start: usize, end: usize) -> usize {
    for place in start..end {
        if byte_at(text, place) == b'\n' {
            return place;
        }
    }
    end
}

/// Returns the end of the block comment that begins at a byte offset.
fn block_end(text: &[u8], start: usize, end: usize) -> usize {
    for place in start.saturating_add(3)..end {
        if byte_at(text, place) == b'/' && byte_at(text, place.saturating_sub(1)) == b'*' {
            return place.saturating_add(1);
        }
    }
    end
}

/// Returns the column after some bytes, the first of which is at this column.
fn column_after(column: usize, bytes: &[u8]) -> usize {
    let mut column = column;
    for byte in bytes {
        column = if *byte == b'\n' {
            0
        } else {
            column.saturating_add(1)
        };
    }
    column
}

impl Gap {
    pub(crate) fn new(alloc: Global) -> Gap {
        Gap {
            comments: Vec::new(alloc),
            lines: 0,
            has_line_end: false,
            is_whole: true,
        }
    }

    /// Reads the gap that these bytes form, the first of which is at this column.
    pub(crate) fn read(&mut self, text: &[u8], start: usize, end: usize, column: usize) {
        self.comments.clear();
        self.lines = 0;
        self.has_line_end = false;
        let mut place = start;
        let mut column = column;
        let mut blanks: usize = 0;
        for _ in start..end {
            if place >= end {
                break;
            }
            let next = self.take(text, place, end, column, blanks);
            let bytes = text.get(place..next).unwrap_or(&[]);
            column = column_after(column, bytes);
            blanks = if matches!(bytes, [b' ' | b'\t' | b'\r']) {
                blanks.saturating_add(1)
            } else {
                0
            };
            place = next;
        }
    }

    /// Reads the blank, line end or comment at a byte offset, and returns the offset after it.
    fn take(
        &mut self,
        text: &[u8],
        place: usize,
        end: usize,
        column: usize,
        blanks: usize,
    ) -> usize {
        match byte_at(text, place) {
            b'\n' => {
                self.lines = self.lines.saturating_add(1);
                self.has_line_end = true;
                place.saturating_add(1)
            }
            b'/' => {
                let is_line = byte_at(text, place.saturating_add(1)) == b'/';
                let following = if is_line {
                    line_end(text, place, end)
                } else {
                    block_end(text, place, end)
                };
                self.add(Comment {
                    start: place,
                    end: following,
                    is_line,
                    lines: self.lines,
                    blanks,
                    column,
                });
                following
            }
            _ => place.saturating_add(1),
        }
    }

    fn add(&mut self, comment: Comment) {
        self.is_whole = self.comments.push(comment).is_ok() && self.is_whole;
        self.lines = 0;
    }
}
