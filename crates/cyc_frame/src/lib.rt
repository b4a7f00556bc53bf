//! Frame layout assigns a word of a function's stack frame to each slot, and limits the size of frames.
#![tactic(auto)]

mod frame;
mod frames;
mod layouts;

pub use frame::Frame;
pub use frames::Frames;
pub use layouts::layout;
