//! The instructions whose first machine word may be computed before the branches that target them, in the delay slots of these branches.
ghost use Rattle.std.specs.Prelude.{◌≡◌, ◌<◌, length, slice_get, IfOk};
ghost use Rattle.cyc_plain.specs.inside.Program.{routine_of};
ghost use Rattle.cyc_registers.specs.inside.Fills.{AreFillable};
ghost use Rattle.cyc_registers.specs.inside.FillPlaces as checks;
ghost use Rattle.cyc_registers.specs.inside.LivenessTable.{IsSound};
ghost use Rattle.cyc_registers.specs.inside.Masks.{AreMasks};
ghost use Rattle.cyc_registers.specs.inside.Sharing.{AreHolders};

use crate::home::Home;
use crate::liveness::{Lives, MOST_CHOSEN};
use crate::masks::mask_at;
use cyc_plain::{Function, Instruction, Plain};
use std::alloc::{AllocError, Global};

/// Returns true if a slot has no register, or no slot with its register is live after the instruction at `index`.
fn is_free(holders: &[u64], live: &[u64], homes: &[Home], index: usize, slot: usize) -> bool
    requires { index < length live.now }
    ensures { result ≡ checks.is_free holders.now live.now homes.now index slot }
{
    match homes.get(slot) {
        Some(Home::Both { register }) | Some(Home::Register { register }) => {
            mask_at(live, index + 1) & mask_at(holders, *register as usize) == 0
        }
        _ => true,
    }
}

/// Returns true if the instruction at the branch target may be executed in the delay slot of the branch at `index`.
fn may_fill(
    holders: &[u64],
    live: &[u64],
    homes: &[Home],
    code: &[Instruction],
    index: usize,
    target: usize,
) -> bool
    requires { index < length live.now }
    ensures { result ≡ checks.may_fill holders.now live.now homes.now index (slice_get code.now target) }
{
    match code.get(target) {
        Some(Instruction::Move { destination, .. })
        | Some(Instruction::Unary { destination, .. })
        | Some(Instruction::Binary { destination, .. }) => {
            is_free(holders, live, homes, index, *destination)
        }
        _ => false,
    }
}

/// Excludes the target of the branch at `index` from the instructions that fill delay slots, if it may not fill this branch's delay slot.
fn bar(
    holders: &[u64],
    live: &[u64],
    homes: &[Home],
    code: &[Instruction],
    index: usize,
    instruction: Instruction,
    fills: &mut Vec<bool>,
)
    requires { index < length live.now }
    ensures { fills.new.items ≡ checks.barring holders.now live.now homes.now code.now index instruction fills.old.items }
{
    if let Instruction::Branch { target, .. } = instruction {
        if target < fills.len() && !may_fill(holders, live, homes, code, index, target) {
            fills[target] = false;
        }
    }
}

/// Returns the instructions of a function's code that may fill delay slots.
pub(crate) fn fills_of(
    alloc: Global,
    plain: &Plain,
    function: &Function,
    masks: &[u64],
    lives: &Lives,
    holders: &[u64],
    homes: &[Home],
) -> Result<Vec<bool>, AllocError>
    requires numbered { AreMasks masks.now MOST_CHOSEN }
    requires sound { IsSound plain.now (routine_of function.now) masks.now lives.now.live.items lives.now.calls lives.now.clauses lives.now.barred }
    requires table { length lives.now.live.items ≡ length function.now.code.items }
    requires holders { AreHolders masks.now holders.now homes.now }
    ensures { IfOk result (λ fills. AreFillable plain.now (routine_of function.now) homes.now fills.items) }
{
    let mut fills = vec![in alloc; true; function.code.len()]?;
    for index in 0..function.code.len() {
        let instruction = function.code[index];
        bar(
            holders,
            &lives.live,
            homes,
            &function.code,
            index,
            instruction,
            &mut fills,
        );
    }
    Ok(fills)
}
