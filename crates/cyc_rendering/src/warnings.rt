//! The warnings about an accepted text, for human readers.
use crate::named::token_at;
use cyc_cli::{FileName, Shown, excerpt_at};
use cyc_warnings::{Found, MOST_WARNINGS, text_of};
use std::fmt;

/// Writes the words of a warning about a text, with the word in the text at the warning's source position.
#[derive(Drop)]
pub struct WarningText<'a> {
    pub text: &'a [u8],
    pub found: &'a Found,
}

impl fmt::Display for WarningText<'_> {
    fn fmt<W: fmt::Write>(&self, f: &mut fmt::Formatter<W>) -> fmt::Result {
        let Found { warning, named, .. } = *self.found;
        let words = text_of(warning);
        match words.split_once("%") {
            Some((before, after)) => {
                let name = token_at(self.text, named.line, named.column);
                write!(f, "{before}{}{after}", Shown(name))
            }
            None => f.write_str(words),
        }
    }
}

/// The warnings about an accepted text, in the order in which they are written. For each warning, `Display` writes its position, its
/// text, and the source line with a marker under the position. If there are no warnings, `Display` writes nothing.
#[derive(Drop)]
pub struct Warnings<'a> {
    /// The name of the source file.
    pub name: &'a str,
    pub text: &'a [u8],
    /// The warnings that were found in the text, in the order in which they are written.
    pub found: &'a [Found],
}

impl fmt::Display for Warnings<'_> {
    fn fmt<W: fmt::Write>(&self, f: &mut fmt::Formatter<W>) -> fmt::Result {
        let name = self.name.as_bytes();
        for (n, found) in self.found.iter().enumerate() {
            if n >= MOST_WARNINGS {
                return write!(f, "{}: further warnings are not shown\n", FileName(name));
            }
            let (line, column) = (found.span.line, found.span.column);
            let text = self.text;
            let words = WarningText { text, found };
            write!(f, "{}:{line}:{column}: warning: {words}\n", FileName(name))?;
            write!(f, "{}", excerpt_at(text, line, column))?;
        }
        Ok(())
    }
}
