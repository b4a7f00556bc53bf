//! This crate computes sizes of a typed program on its tree: the words of a function's frame, and the tokens of the program's spelling.
//!
//! The crate `cyc_meaning` defines the frame count, which a run's frame limit uses; the crate `cyc_types` defines the weight, which
//! bounds the length of an image.
#![tactic(auto)]

mod frames;
mod weights;

pub use frames::{
    frame_count, items_need, kept_by_items, words_at, words_of, words_of_all, words_of_kind,
};
pub use weights::weight_of;
