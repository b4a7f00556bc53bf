//! The parser's input: tokens in which each name is replaced by the number that identifies its text.

use cyc_syntax::{Keyword, Name, Sign};
use cyc_words::Span;

/// A token without its source position. A region name and an identifier with equal texts have the same identifying number.
#[derive(Clone, Copy)]
pub(crate) enum Terminal {
    Identifier(Name),
    RegionName(Name),
    Number(u32),
    Character(u8),
    Word(Keyword),
    Mark(Sign),
}

#[derive(Clone, Copy)]
pub(crate) struct Symbol {
    pub(crate) terminal: Terminal,
    pub(crate) span: Span,
}
