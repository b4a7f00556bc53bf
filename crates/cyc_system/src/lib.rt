//! The product's functions in one crate: they translate a text to a typed tree or an image, run an image, and list an image.
#![tactic(auto)]

pub mod laws;

pub use cyc_compiler::{
    Bounded, Bounds, Compilation, Placed, bounds, bounds_with_tokens, compile, compile_with,
    compile_with_places, compile_with_tokens,
};
pub use cyc_emulator::{
    Limit, MOST_REPORTED, Peaks, Report, RunFault, Stop, Trail, disassemble, follow, run,
    run_counting, run_plain, run_with,
};
pub use cyc_front::{Phases, accept, run_phases};
pub use cyc_image::{Declared, Places, Site, Source, Stretch, note_of, stretch_at};
