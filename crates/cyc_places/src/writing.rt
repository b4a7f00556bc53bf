//! Writes the file of places of an image, which maps code addresses to source positions.
use cyc_cli::Shown;
use cyc_image::{Places, Site, Source, Stretch};
use cyc_syntax::Token;
use cyc_words::Span;
use std::fmt;

/// The first line of a file of places (the map from code addresses to source positions), which names the format.
pub const HEAD: &[u8] = b"cyclone places 2";

/// The maximal number of bytes of a name that is stored in a file of places, the map from code addresses to source positions.
const MOST_NAME: usize = 128;

/// Returns a name, cut off at the maximal length that a file of places stores.
fn kept_name(name: &[u8]) -> &[u8] {
    &name[..name.len().min(MOST_NAME)]
}

/// Returns a hash of an image's bytes (FNV-1a); the hash serves to match an image with its file of places.
pub fn sum_of(bytes: &[u8]) -> u64 {
    let mut sum: u64 = 0xcbf2_9ce4_8422_2325;
    for byte in bytes {
        sum = (sum ^ u64::from(*byte)).wrapping_mul(0x0000_0100_0000_01b3);
    }
    sum
}

/// The beginning of a stretch of the program text that comes from another file.
#[derive(Clone, Copy)]
pub struct Part<'a> {
    /// The first line of a stretch of program text that comes from another file, as a line number in the whole text.
    pub first: u32,
    /// The number, within the other file, of the first line of a stretch of program text that comes from this file.
    pub line: u32,
    /// The name of the other file from which a stretch of the program text comes.
    pub name: &'a str,
}

/// The file of places (the map from code addresses to source positions) of an image that was compiled from a program text. The
/// `Display` form is the content of the file of places.
#[derive(Drop)]
pub struct PlacesText<'a> {
    /// The name of the source file.
    pub name: &'a str,
    /// The stretches of the program text that come from other files, in order.
    pub parts: &'a [Part<'a>],
    pub text: &'a [u8],
    /// The tokens of the program text, in order.
    pub tokens: &'a [Token],
    pub image: &'a [u8],
    pub places: &'a Places,
}

/// Returns true if a token begins before the given source position.
fn is_before(token: &Token, span: Span) -> bool {
    (token.span.line, token.span.column) < (span.line, span.column)
}

impl PlacesText<'_> {
    /// Returns the index of the first token that does not begin before the given source position.
    fn number_at(&self, span: Span) -> usize {
        let mut low: usize = 0;
        let mut high = self.tokens.len();
        // Binary search: each iteration halves the range of tokens that remains to be searched.
        for _ in 0..usize::BITS {
            let middle = low.saturating_add(high.saturating_sub(low) / 2);
            match self.tokens.get(middle) {
                Some(token) if middle < high && is_before(token, span) => low =
                    middle.saturating_add(1),
                _ => high = middle,
            }
        }
        low
    }

    /// Returns the name at a source position, cut off at the maximal length that a file of places stores.
    fn name_at(&self, span: Span) -> &[u8] {
        match self.tokens.get(self.number_at(span)) {
            Some(token) => kept_name(self.text.get(token.start..token.end).unwrap_or(b"?")),
            None => b"?",
        }
    }
}

/// Writes the line of text for a stretch of code, that is, for machine words made for one source construct.
fn write_stretch<W: fmt::Write>(stretch: &Stretch, f: &mut fmt::Formatter<W>) -> fmt::Result {
    write!(f, "{:08x} ", stretch.address)?;
    match stretch.source {
        Source::Start => f.write_str("start")?,
        Source::Part { function, span } => write!(f, "{function} {} {}", span.line, span.column)?,
        Source::Raise { function } => write!(f, "{function} raise")?,
        Source::PassOn { function, span } => {
            write!(f, "{function} {} {} pass", span.line, span.column)?
        }
    }
    if let Some(Site { function, span }) = stretch.site {
        write!(f, " in {function} {} {}", span.line, span.column)?;
    }
    f.write_str("\n")
}

impl fmt::Display for PlacesText<'_> {
    fn fmt<W: fmt::Write>(&self, f: &mut fmt::Formatter<W>) -> fmt::Result {
        write!(f, "{}\n", Shown(HEAD))?;
        write!(f, "source {}\n", Shown(self.name.as_bytes()))?;
        for part in self.parts {
            let name = Shown(part.name.as_bytes());
            write!(f, "part {} {} {name}\n", part.first, part.line)?;
        }
        write!(f, "image {:016x}\n", sum_of(self.image))?;
        for declared in &self.places.exceptions {
            let name = Shown(self.name_at(declared.span));
            let int = if declared.has_int { " int" } else { "" };
            write!(f, "exception {name}{int}\n")?;
        }
        for span in &self.places.functions {
            let name = Shown(self.name_at(*span));
            write!(f, "function {name} {} {}\n", span.line, span.column)?;
        }
        for stretch in &self.places.stretches {
            write_stretch(stretch, f)?;
        }
        write!(f, "{:08x} end\n", self.places.end)
    }
}
