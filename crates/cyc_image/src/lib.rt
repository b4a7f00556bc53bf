//! This crate has facts about images that the compiler and the emulator share: an image's limits, and the source text from which its
//! machine words come.
#![tactic(auto)]

pub mod laws;
mod notes;
mod stretches;

pub use notes::note_of;
pub use stretches::{Declared, Places, Site, Source, Stretch, stretch_at};
