//! The emulator runs an image, lists it, or replays a run up to its stop.
#![tactic(auto)]

mod engine;
mod following;
mod listing;
mod report;

pub use engine::{run, run_counting, run_plain, run_with};
pub use following::{MOST_REPORTED, Trail, follow};
pub use listing::disassemble;
pub use report::{Limit, Peaks, Report, RunFault, Stop};
