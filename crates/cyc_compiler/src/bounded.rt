//! This file defines the bounds of a program's needs.
use cyc_bound::{CallBound, PageBound, StepBound};
use cyc_syntax::Token;
use cyc_types::Flowed;
use cyc_words::Span;

/// The bounds of what the runs of a program need, for every input.
#[derive(Drop)]
pub struct Bounds {
    /// The bound on active calls, including the call of `main`.
    pub calls: CallBound,
    /// The bound on pages of the heap store.
    pub pages: PageBound,
    /// The bound on steps of the program.
    pub steps: StepBound,
}

/// The bounds of a text's program, together with the tokens and the typed tree of the text.
#[derive(Drop)]
pub struct Bounded {
    pub tokens: Vec<Token>,
    pub program: Flowed,
    pub bounds: Bounds,
    /// The source position of a loop that prevents a bound on pages, and that of a loop that prevents a bound on steps, if any. The
    /// positions of loops are unverified.
    pub loop_of_pages: Option<Span>,
    pub loop_of_steps: Option<Span>,
}
