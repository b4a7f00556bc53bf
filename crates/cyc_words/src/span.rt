//! This file defines source positions in a text.

/// A source position in a text: line and column, counted from 1. A column counts bytes, and only a line feed ends a line.
#[derive(Clone, Copy, Debug, PartialEq, Eq)]
pub struct Span {
    pub line: u32,
    pub column: u32,
}
