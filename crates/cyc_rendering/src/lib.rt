//! The texts of faults and warnings for human readers, as lines and as JSON objects. Explanations that need an analysis of the
//! violated rule are in another crate.
#![tactic(auto)]

pub use expected::expected_at;
pub use flow_cause::cause_of;
pub use further::{MOST_FURTHER, is_between, tell_flow, tell_readings};
pub use json::{line_of_refusal, line_of_warning};
pub use message::Message;
pub use reading::tree_of;
pub use reported::{Refusal, name_of_ended, words_on_variable};
pub use warnings::Warnings;

mod declarations;
mod empty_pointer;
mod expected;
mod flow_cause;
mod further;
mod json;
mod message;
mod named;
mod reading;
mod reported;
mod warnings;
