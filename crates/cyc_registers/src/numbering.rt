//! Numbers the slots that may get registers; the number of a slot is stored as a bit mask in which only the bit with this number is set.
ghost use Rattle.std.specs.Prelude.{◌≤◌, IfOk};
ghost use Rattle.cyc_registers.specs.inside.Masks.{AreMasks};

use crate::liveness::MOST_CHOSEN;
use crate::spill_costs::SpillCosts;
use std::alloc::{AllocError, Global};

/// Appends the bit mask of one more slot: the next free bit if the slot is chosen as a candidate for registers and a bit is left, else
/// 0. Returns the number of the next free bit.
fn number(masks: &mut Vec<u64>, next: u32, is_chosen: bool) -> Result<u32, AllocError>
    requires numbered { AreMasks masks.old.items next }
    requires few { next ≤ MOST_CHOSEN }
    ensures numbered { IfOk result (λ after. AreMasks masks.new.items after) }
    ensures few { IfOk result (λ after. after ≤ MOST_CHOSEN) }
{
    if !is_chosen || next >= MOST_CHOSEN {
        masks.push(0)?;
        return Ok(next);
    }
    masks.push(1 << next)?;
    Ok(next + 1)
}

/// Returns the bit masks of all slots: the slots with the highest spill costs become candidates for registers and get consecutive
/// numbers, each stored as a mask with one bit.
pub(crate) fn masks_of(alloc: Global, costs: &SpillCosts) -> Result<Vec<u64>, AllocError>
    ensures { IfOk result (λ masks. AreMasks masks.items MOST_CHOSEN) }
{
    let mut masks = Vec::with_capacity(alloc, costs.count())?;
    let mut choice = costs.choice(alloc)?;
    let mut next = 0;
    for slot in 0..costs.count() {
        next = number(&mut masks, next, choice.takes(costs.most_at(slot)))?;
    }
    Ok(masks)
}
