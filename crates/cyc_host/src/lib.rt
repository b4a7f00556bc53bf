//! This crate is the program's interface to its host: files, the standard streams and the system's limits. It also
//! defines the outcomes of commands and their last lines.
#![tactic(auto)]

pub use answer::{Answer, cause_words, ending, explanation};
pub use console::{Keyboard, Screen, finish_for};
pub use files::{
    find_text, is_one_file, name_of_file, read_image, read_places, read_text, will_be_one_file,
    write_file,
};
pub use input::Input;
pub use output::Output;
pub use said::{MOST_SAID, say, within_bounds};
pub use system::{STACK, is_enough_stack, stack_limit};

mod answer;
mod console;
mod files;
mod input;
mod output;
mod said;
mod system;
