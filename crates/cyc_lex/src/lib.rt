//! This crate is the lexer: it turns the bytes of a text into its tokens.
#![tactic(auto)]

mod classes;
pub mod laws;
mod lexer;
mod pieces;
mod runs;
mod spellings;

pub use lexer::lex;
