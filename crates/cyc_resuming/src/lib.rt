//! A run of an image that goes on from call to call: each call executes at most as many instructions as its budget allows.
#![tactic(auto)]

pub mod laws;
mod pause;
mod resuming;

pub use pause::{Pause, Slice, Standing};
pub use resuming::{Paused, load, resume};
