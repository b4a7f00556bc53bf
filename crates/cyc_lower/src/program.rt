//! Lowers a whole program.
ghost use Rattle.std.specs.Prelude.{◌≤◌};
ghost use Rattle.cyc_words.specs.Decision.{Decides};
ghost use Rattle.cyc_syntax.specs.TokenRule.{max_tokens};
ghost use Rattle.cyc_types.specs.typing.WellTyped.{IsWellTypedProgram};
ghost use Rattle.cyc_types.specs.Weight.{program_weight};
ghost use Rattle.cyc_types.specs.TypedTreeView.{view_program};
ghost use Rattle.cyc_meaning.specs.Sizes.{HasTooMany};
ghost use Rattle.cyc_lower_proof.specs.inside.Lowered.{CanBeLowered, IsAccepted, IsLowered};

use crate::functions::lower_tree;
use crate::limits::MOST_FUNCTIONS;
use cyc_plain::Plain;
use cyc_types::Flowed;
use cyc_words::{Code, Fault};
use std::alloc::Global;

/// Returns the plain program (three-address code) of a typed tree that satisfies the flow rules, for example that used variables hold
/// values.
///
/// A program with more than `MOST_FUNCTIONS` functions is rejected with `TooManyFunctions`, at the name of the first function beyond the
/// limit. A program within the limit is rejected only for lack of memory.
pub fn lower(alloc: Global, program: &Flowed) -> Result<Plain, Fault>
    requires well_typed { IsWellTypedProgram (view_program program.now.tree) }
    requires small { program_weight (view_program program.now.tree) ≤ max_tokens }
    requires can_be { CanBeLowered (view_program program.now.tree) }

    // The plain program that `lower` returns has the behaviour of the source program. A program that `lower` rejects has
    // too many functions.
    ensures { Decides (IsAccepted (view_program program.now.tree)) IsLowered (HasTooMany (view_program program.now.tree))
        (HasTooMany (view_program program.now.tree)) result }
{
    let functions = &program.tree.functions;
    if functions.len() > MOST_FUNCTIONS {
        let name = functions[MOST_FUNCTIONS].span;
        return Err(Fault::new(Code::TooManyFunctions, name.line, name.column));
    }
    let plain = lower_tree(alloc, &program.tree)?;
    Ok(plain)
}
