//! A MIPS32 machine for user programs: it loads an image, and executes the image's instructions one at a time.
#![tactic(auto)]

mod access;
mod closed;
mod exchanged;
mod fast;
mod fault;
mod kept;
mod limits;
mod machine;
mod memory;
mod operation;
mod registers;
mod results;
mod service;
mod start;
mod text;

pub use cyc_machine_model::{Cause, End, Event, Exchange, Stretch, constants, laws};
pub use exchanged::{Ahead, Device, Exchanged, NOTHING, note_byte};
pub use fault::LoadFault;
pub use limits::Limits;
pub use machine::Machine;
pub use start::segment_word_at;
