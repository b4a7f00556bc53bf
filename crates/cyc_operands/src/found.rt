//! The memory locations that expressions denote: variables and cells.
ghost use Rattle.std.specs.Prelude.{◌≡◌};
ghost use Rattle.cyc_types.specs.TypeView.{view_ty};
ghost use Rattle.cyc_types.specs.TypedTreeView.{view_side};
ghost use Rattle.cyc_types.specs.typing.Expressions.{type_of_side};

use crate::given::type_of_place;
use cyc_types::typed::Side;
use cyc_types::{Region, Ty};

/// A memory location that an expression denotes, and the region that contains it.
#[derive(Drop)]
pub struct Found {
    pub side: Side,
    pub region: Region,
}

/// Returns the type of the value stored in a memory location, such as an operand of a swap.
pub fn type_of_side(side: &Side) -> &Ty
    ensures { view_ty result.now ≡ type_of_side (view_side side.now) }
{
    match side {
        Side::Variable { of_type, .. } => of_type,
        Side::Cell { place } => type_of_place(place),
    }
}
