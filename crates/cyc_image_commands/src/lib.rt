//! The commands that take an image: `run`, `disasm` and `info`.
#![tactic(auto)]

pub use commands::{
    Allowance, describe_file, list_file, refuse_report, run_file, run_made, write_outcome,
};
pub use work::Manner;

mod annotated;
mod commands;
mod info;
mod report;
mod whereabouts;
mod work;
