//! This file relates an image to the source text of its program: each sequence of consecutive machine words comes from one span of the
//! text.
use cyc_words::Span;

/// The origin of a machine word of an image in the program, such as a span of its source text.
#[derive(Clone, Copy, Debug, PartialEq, Eq)]
pub enum Source {
    /// The machine word comes from the code that runs before `main`.
    Start,
    /// The machine word comes from the source text at this span, in the function with this index.
    Part { function: usize, span: Span },
    /// The machine word comes from the code that raises a built-in exception for all failed checks of the function with this index.
    Raise { function: usize },
    /// The machine word comes from code, in the function with this index, that passes on an exception uncaught by the `try` at this span.
    PassOn { function: usize, span: Span },
}

/// A call that the compiler inlined.
#[derive(Clone, Copy, Debug, PartialEq, Eq)]
pub struct Site {
    /// The index of the calling function, in whose frame the code is executed.
    pub function: usize,
    /// The source position of the call.
    pub span: Span,
}

/// A sequence of consecutive machine words of an image that come from the same span of the program. The sequence
/// begins at the address in its field `address` and ends where the next sequence begins.
#[derive(Clone, Copy, Debug, PartialEq, Eq)]
pub struct Stretch {
    pub address: u32,
    pub source: Source,
    /// The inlined call from which the machine words of this sequence come, if any.
    pub site: Option<Site>,
}

impl Stretch {
    /// Returns the index of the function in whose stack frame the code in this sequence of machine words is executed.
    pub fn frame_function(&self) -> Option<usize> {
        match (self.site, self.source) {
            (Some(site), _) => Some(site.function),
            (None, Source::Start) => None,
            (
                None,
                Source::Part { function, .. }
                | Source::Raise { function }
                | Source::PassOn { function, .. },
            ) => Some(function),
        }
    }
}

/// An exception that a program declares.
#[derive(Clone, Copy, Debug, PartialEq, Eq)]
pub struct Declared {
    /// The source position of the exception's name.
    pub span: Span,
    pub has_int: bool,
}

/// For the machine words of an image, the spans of the program's source text from which they come.
#[derive(Drop)]
pub struct Places {
    /// The declared exceptions, in the order of the numbers that identify them.
    pub exceptions: Vec<Declared>,
    /// The source positions of the names of the functions, in the order of the functions' indices.
    pub functions: Vec<Span>,
    /// The sequences of consecutive machine words that come from one span of the program, for all words of the image's text, in order.
    pub stretches: Vec<Stretch>,
    /// The first address after the last of the sequences of machine words.
    pub end: u32,
}

/// Returns the sequence of consecutive machine words that come from the same span of the program and include the word at an address.
pub fn stretch_at(stretches: &[Stretch], address: u32) -> Option<Stretch> {
    let mut found = None;
    let mut low: usize = 0;
    let mut high = stretches.len();
    // The loop is a binary search by address: each iteration halves the range of table entries that may contain the address.
    for _ in 0..usize::BITS {
        let middle = low.saturating_add(high.saturating_sub(low) / 2);
        match stretches.get(middle) {
            Some(stretch) if middle < high && stretch.address <= address => {
                found = Some(*stretch);
                low = middle.saturating_add(1);
            }
            _ => high = middle,
        }
    }
    found
}
