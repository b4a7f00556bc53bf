//! The commands that take a source file: they check the file, compile it, report its needs, or format it.
#![tactic(auto)]

pub use commands::{
    Made, Outputs, bound_file, check_file, compile_file, format_file, make_file, print_name,
};

mod bounds;
mod commands;
mod formatting;
mod homes;
mod library;
mod programs;
mod telling;
mod work;
