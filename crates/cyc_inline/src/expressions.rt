//! Gives repeated expressions of a plain program (in three-address code) slots of their own, so that their values need not be recomputed.
ghost use Rattle.std.specs.Prelude.{◌≤◌, IfOk, max, sum_by};
ghost use Rattle.cyc_plain.specs.inside.Program.{size};
ghost use Rattle.cyc_inline.specs.inside.Changes.{AreReported, notes_of};
ghost use Rattle.cyc_inline.specs.inside.Inlined.{IsInlined};

use crate::inlining::{Inlined, Work, remake};
use cyc_plain::Plain;
use std::alloc::{AllocError, Global};

/// Returns the program with duplicated instructions, which store the values of repeated expressions in extra slots. The new program's
/// size is at most `room` words, or at most the size of the given program.
pub fn name_expressions(alloc: Global, plain: Plain, room: usize) -> Result<Inlined, AllocError>
    ensures inlined { IfOk result (λ made. IsInlined plain made.plain) }
    ensures size { IfOk result (λ made. sum_by size made.plain.functions ≤ max (sum_by size plain.functions) room) }
    ensures reported { IfOk result (λ made. AreReported plain made.plain (notes_of made.opened.items)) }
{
    remake(alloc, plain, Work::Duplicates, room)
}
