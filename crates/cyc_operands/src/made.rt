//! The initial values of new objects.
ghost use Rattle.std.specs.Prelude.{Ok};
ghost use Rattle.cyc_types.specs.TypedTreeView.{view_initial};
ghost use Rattle.cyc_scope.specs.inside.Code.{Gives};

use cyc_scope::{Settled, Stop};
use cyc_syntax::PointerKind;
use cyc_types::Ty;
use cyc_types::typed::Initial;
use std::alloc::Global;

/// The initial value of a new object, the object's type, the pointer kind (`*`, `@` or `?`) of the pointer to it, and the
/// checked requirements on them.
#[derive(Drop)]
pub struct Made {
    pub settled: Settled,
    pub initial: Box<Initial>,
    pub target: Ty,
    pub mark: PointerKind,
}

/// Returns the initial value of a new object in a box.
#[inline(never)]
pub fn boxed_initial(alloc: Global, initial: Initial) -> Result<Box<Initial>, Stop>
    ensures { Gives (λ b. view_initial b.value) result (Ok (view_initial initial)) }
{
    Ok(Box::new(alloc, initial)?)
}
