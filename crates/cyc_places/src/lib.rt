//! Files of places state, as lines of text, the source position or other source of each word of an image's text. The format of files of
//! places is described in `docs/PLACES.md`.
#![tactic(auto)]

pub use functions::Functions;
pub use reading::{Elsewhere, Named, Table, Unread, table_in};
pub use writing::{Part, PlacesText, sum_of};

mod functions;
mod reading;
mod writing;
