//! This file removes from plain programs the computations, tests and moves whose result is already known.
ghost use Rattle.std.specs.Prelude.{IfOk};
ghost use Rattle.cyc_plain.specs.inside.Program.{routine_of};
ghost use Rattle.cyc_propagation.specs.inside.Entries.{with_code};
ghost use Rattle.cyc_propagation.specs.inside.Room.{IsMadeFunction};
ghost use Rattle.cyc_propagation.specs.inside.Simplified.{IsSimplified};
ghost use Rattle.cyc_propagation.specs.inside.Table.{IsReplaced};

use crate::candidates::is_candidate;
use crate::pins::pins_of;
use crate::room::spare;
use crate::tail::without_tail;
use crate::walk::walked_soon;
use cyc_plain::{Function, Instruction, Plain};
use std::alloc::{AllocError, Global};

/// Returns the simplified code of a function.
fn simplified_code(
    alloc: Global,
    plain: &Plain,
    function: &Function,
) -> Result<Vec<Instruction>, AllocError>
    ensures { IfOk result (λ code. IsReplaced plain.now (routine_of function.now) (with_code (routine_of function.now) code.items)) }
{
    if is_candidate(&function.code) {
        let pinned = pins_of(alloc, function)?;
        if let Some(code) = walked_soon(alloc, plain, function, &pinned)? {
            return Ok(code);
        }
    }
    without_tail(alloc, &function.code)
}

/// Returns the simplified form of a function.
fn simplified(alloc: Global, plain: &Plain, function: &Function) -> Result<Function, AllocError>
    ensures { IfOk result (λ made. IsMadeFunction plain.now (routine_of function.now) (routine_of made)) }
{
    let code = simplified_code(alloc, plain, function)?;
    let code = spare(alloc, plain, code)?;
    Ok(Function {
        name: function.name,
        parameters: function.parameters,
        results: function.results,
        slots: function.slots,
        frame_count: function.frame_count,
        code,
    })
}

/// Returns the program without redundant work, for example moves from a slot to the same slot, sums that a slot already contains, and
/// tests that cannot fail.
pub fn simplify(alloc: Global, plain: &Plain) -> Result<Plain, AllocError>
    ensures { IfOk result (λ simplified. IsSimplified plain.now simplified) }
{
    let given = plain.functions();
    let mut functions = Vec::with_capacity(alloc, given.len())?;
    for number in 0..given.len() {
        let function = simplified(alloc, plain, plain.function(number))?;
        functions.push(function)?;
    }
    let mut globals = Vec::with_capacity(alloc, plain.globals().len())?;
    globals.extend_from_slice(plain.globals())?;
    Ok(Plain::new(functions, globals, plain.main()))
}
