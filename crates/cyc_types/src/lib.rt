//! Types and regions of the Cyclone subset, the typed tree with its typing rules, and the outlives relation between regions.
#![tactic(auto)]

pub use flowed::Flowed;
pub use known::Known;
pub use name_set::NameSet;
pub use names::RegionNames;
pub use outlives::Outlives;
pub use region::Region;
pub use scope::{Kind, Scope};
pub use signature::Signature;
pub use structs::StructNames;
pub use ty::Ty;
pub use typed::TypedTree;

mod constraint_table;
mod constraints;
mod flowed;
pub mod formation;
mod known;
pub mod laws;
mod name_set;
mod names;
mod openings;
mod outlives;
pub mod parameters;
mod region;
mod region_list;
mod scope;
mod signature;
mod structs;
mod ty;
pub mod typed;
