//! The parser: it builds the tree of a list of tokens, exactly if such a tree exists.
#![tactic(auto, unfolding(crate::specs::inside::Parsing::bind, crate::specs::inside::Parsing::choose, crate::specs::inside::Parsing::if_sees, crate::specs::inside::Parsing::if_starts, crate::specs::inside::Parsing::if_is, crate::specs::inside::Parsing::refuse_item))]

mod cursor;
mod declarations;
mod expressions;
mod growth;
mod handlers;
mod initials;
mod items;
pub mod laws;
mod operands;
mod operators;
mod statements;
mod stop;
mod symbol;
mod tree;
mod types;

pub use tree::parse;
