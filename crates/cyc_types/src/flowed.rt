//! The type of typed trees that satisfy the flow rules.
ghost use Rattle.cyc_types.specs.TypedTreeView.{view_program};
ghost use Rattle.cyc_types.specs.flow.Programs.{IsAllowedProgram};

use crate::typed::TypedTree;

/// A typed tree that satisfies the flow rules. The flow check creates this value, and the later passes take it as input.
#[derive(Drop)]
pub struct Flowed {
    pub tree: TypedTree,
    pub ghost allowed: { ∥ IsAllowedProgram (view_program tree) ∥₁ },
}
