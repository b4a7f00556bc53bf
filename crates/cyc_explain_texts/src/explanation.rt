//! The explanation of a fault: text lines and a source position.
use cyc_words::Span;

/// The explanation of a fault, as text lines, with the last source position that these lines mention.
#[derive(Drop)]
pub struct Explanation {
    /// The lines state the violated rule with the names, types or regions involved; the last line has no line feed. If the last line
    /// begins with `hint: `, it is advice that replaces the general advice for the fault's code.
    pub lines: Vec<u8>,
    /// The last source position that the lines of the explanation mention, if they mention one.
    pub place: Option<Span>,
}
