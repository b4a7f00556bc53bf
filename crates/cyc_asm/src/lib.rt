//! The assembler translates labelled code to the words of the text range.
//!
//! The delay slot of a branch or jump contains one of the three instructions before it, if moving the instruction changes no
//! behaviour; otherwise the slot is empty. A branch whose label may be out of reach is replaced by an inverse branch over a
//! jump. The assembler adds no instructions except no-ops in empty delay slots and the jumps after inverse branches.
#![tactic(auto)]

mod assembler;
pub mod constants;
mod emission;
pub mod laws;
mod layout;
mod order;
mod origin;
mod slots;

pub use assembler::assemble;
pub use origin::sources;
