//! The messages on the faults of a rejected text, and the warnings about a text, as lines or as JSON objects.
#![tactic(auto)]

pub use cyc_rendering::{Message, Refusal, Warnings, line_of_refusal, line_of_warning};
pub use further::refusals_after;
pub use reported::refusal_of;

mod further;
mod refusal;
mod reported;
