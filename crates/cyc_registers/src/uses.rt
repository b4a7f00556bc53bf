//! The slots that each instruction of a function reads and writes, among those that may get registers. These slots are computed once
//! and then looked up by the instruction's index.
ghost use Rattle.std.specs.Prelude.{◌≡◌, length, IfOk};
ghost use Rattle.cyc_plain.specs.inside.Program.{routine_of};
ghost use Rattle.cyc_registers.specs.inside.Masks as masks_of;

use crate::masks::{bar_mask, read_mask, write_mask};
use cyc_plain::{Function, Instruction, Plain};
use std::alloc::{AllocError, Global};

/// The slots that an instruction reads, writes and excludes from registers, as bit masks of the candidates for registers.
#[derive(Clone, Copy)]
pub(crate) struct Uses {
    /// The slots that the instruction reads.
    pub(crate) reads: u64,
    /// The slots that the instruction writes and does not exclude from registers.
    pub(crate) writes: u64,
    /// The slots that the instruction excludes from registers.
    pub(crate) bars: u64,
}

/// Returns the slots that an instruction reads, writes and excludes from registers, in a function with `results` result words.
fn uses_of(plain: &Plain, results: usize, masks: &[u64], instruction: Instruction) -> Uses
    ensures { result ≡ masks_of.uses_of plain.now results masks.now instruction }
{
    Uses {
        reads: read_mask(masks, results, instruction),
        writes: write_mask(masks, plain, instruction),
        bars: bar_mask(masks, instruction),
    }
}

/// Returns, for each instruction of a function, the slots that it reads, writes and excludes from registers, among the
/// candidates for registers.
pub(crate) fn all_uses(
    alloc: Global,
    plain: &Plain,
    function: &Function,
    masks: &[u64],
) -> Result<Vec<Uses>, AllocError>
    ensures table { IfOk result (λ uses. length uses.items ≡ length function.now.code.items) }
    ensures uses { IfOk result (λ uses. masks_of.AreUses plain.now (routine_of function.now) masks.now uses.items) }
{
    let mut uses = Vec::with_capacity(alloc, function.code.len())?;
    for index in 0..function.code.len() {
        uses.push(uses_of(plain, function.results, masks, function.code[index]))?;
    }
    Ok(uses)
}
