//! This crate has the texts that a user at a terminal writes and reads: the command line, the messages, and a source line with a mark
//! under a source position.
#![tactic(auto)]

pub use advice::{Ending, image_fault, meaning};
pub use arguments::{Request, StoreKind, read_request};
pub use excerpt::{Excerpt, FileName, Lines, Shown, excerpt_at};
pub use habits::{hint_at, is_in_name};
pub use json::{Edit, Entry, Quoted, Range, Related};
pub use limits::GivenLimits;
pub use pages::page;

mod advice;
mod arguments;
mod codes;
mod commands;
mod excerpt;
mod habits;
mod json;
mod limits;
mod number;
mod pages;
mod version;
