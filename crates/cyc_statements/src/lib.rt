//! This crate checks the requirements that statements and declarations in blocks have themselves, apart from
//! those of the statements and expressions in them, and handles the declarations.
//!
//! Each function of this crate handles one form of statement or declaration: its requirements, its additions to the scope, and its typed
//! node. The tree traversal that calls these functions is in `cyc_check`.
#![tactic(auto)]

pub mod forms;
pub mod items;
pub mod nodes;
