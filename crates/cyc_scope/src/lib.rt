//! The context of the type checker at an expression or a statement: declarations, meaning of names, live regions, and entry and exit of
//! scopes. The crate also defines the reasons for which checking stops, and the accumulation of the typing rules' requirements.
#![tactic(auto)]

pub use body::Tables;
pub use demands::{
    demand_field, demand_global, demand_name, demand_names, demand_other, demand_struct,
    demand_type, is_name_of,
};
pub use exceptions::Thrown;
pub use meaning::Meaning;
pub use program::{Field, Program};
pub use scope::{Mark, Scope};
pub use settled::Settled;
pub use stop::{Stop, refused};

mod body;
mod declared;
mod demands;
mod exceptions;
mod locals;
mod meaning;
mod plain;
mod program;
mod regions;
mod routine;
mod scope;
mod settled;
mod stop;
mod table;
