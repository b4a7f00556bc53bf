//! Register allocation: spill costs, liveness, the assignment of registers to slots, and the instructions that need no machine
//! code after this assignment.
ghost use Rattle.std.specs.Prelude.{◌≡◌, ◌≤◌, IfOk};
ghost use Rattle.cyc_plain.specs.inside.Program.{routine_of};
ghost use Rattle.cyc_registers.specs.inside.Interference.{AreHomes};
ghost use Rattle.cyc_registers.specs.inside.Idle.{AreIdle};
ghost use Rattle.cyc_registers.specs.inside.Fills.{AreFillable};

use crate::choice::choose;
use crate::fills::fills_of;
use crate::home::{Home, MOST_SAVED};
use crate::idle::idle_places;
use crate::interference::Interference;
use crate::liveness::{Analysis, is_sound, liveness_of};
use crate::numbering::masks_of;
use crate::sharing::{are_right, groups_of, holders_of};
use crate::spill_costs::spill_costs_of;
use crate::uses::all_uses;
use cyc_plain::{Function, Plain};
use std::alloc::{AllocError, Global};

/// The result of register allocation: the homes of a function's slots (a register, memory or both), and the
/// instructions that then need no machine code.
#[derive(Drop)]
pub struct Allocation {
    /// The home of each slot: a register, memory, or both.
    pub homes: Vec<Home>,
    /// The number of callee-saved registers assigned to slots; the assigned ones are the first of all callee-saved registers.
    pub saved: usize,
    /// True for each instruction that needs no machine code (is idle). Instructions past the end of the list are not idle.
    pub idle: Vec<bool>,
    /// True for each instruction whose first machine word may be computed before the branches to it, in their delay slots.
    /// Instructions past the end of the list fill no delay slots.
    pub fills: Vec<bool>,
}

/// Returns a list of slots' homes in which every slot is in memory.
fn in_memory(alloc: Global, plain: &Plain, function: &Function) -> Result<Vec<Home>, AllocError>
    ensures { IfOk result (λ homes. AreHomes plain.now (routine_of function.now) 0 homes.items) }
{
    Ok(vec![in alloc; Home::Memory; function.slots]?)
}

/// Returns an allocation with all slots in memory, machine code for each instruction, and no filled delay slot. An allocation of all
/// slots in memory is correct for any code.
fn memory_alone(alloc: Global, plain: &Plain, function: &Function) -> Result<Allocation, AllocError>
    ensures homes { IfOk result (λ given. AreHomes plain.now (routine_of function.now) given.saved given.homes.items) }
    ensures saved { IfOk result (λ given. given.saved ≡ 0) }
    ensures fills { IfOk result (λ given. AreFillable plain.now (routine_of function.now) given.homes.items given.fills.items) }
    ensures idle { IfOk result (λ given. AreIdle plain.now (routine_of function.now) given.homes.items given.idle.items) }
{
    Ok(Allocation {
        homes: in_memory(alloc, plain, function)?,
        saved: 0,
        idle: Vec::new(alloc),
        fills: Vec::new(alloc),
    })
}

/// Returns a home (register, memory or both) for each slot of a function, and the instructions that need no machine code with these homes.
/// The slots with the highest spill costs get registers, which slots may share if they are never live at once. At most `most` callee-saved
/// registers are used.
pub fn allocate(
    alloc: Global,
    plain: &Plain,
    function: &Function,
    most: usize,
) -> Result<Allocation, AllocError>
    requires { most ≤ MOST_SAVED }
    ensures homes { IfOk result (λ given. AreHomes plain.now (routine_of function.now) given.saved given.homes.items) }
    ensures saved { IfOk result (λ given. given.saved ≤ most) }
    ensures fills { IfOk result (λ given. AreFillable plain.now (routine_of function.now) given.homes.items given.fills.items) }
    ensures idle { IfOk result (λ given. AreIdle plain.now (routine_of function.now) given.homes.items given.idle.items) }
{
    let costs = spill_costs_of(alloc, function)?;
    let masks = masks_of(alloc, &costs)?;
    let uses = all_uses(alloc, plain, function, &masks)?;
    let lives = liveness_of(alloc, function, &uses, &costs.backward)?;
    if !is_sound(plain, function, &masks, &uses, &lives) {
        return memory_alone(alloc, plain, function);
    }
    let interference = Interference::of_code(function, &masks, &uses, &lives.live);
    let chosen = choose(alloc, function, &costs, &masks, &lives, &interference, most)?;
    let homes = &chosen.homes;
    let holders = holders_of(&masks, homes);
    let groups = groups_of(alloc, &holders)?;
    let saved = chosen.saved;
    let analysis = Analysis {
        plain,
        function,
        masks: &masks,
        uses: &uses,
        lives: &lives,
    };
    if !are_right(&analysis, &holders, &groups, saved, homes) {
        return memory_alone(alloc, plain, function);
    }
    let idle = idle_places(alloc, plain, function, &masks, &lives, homes)?;
    let fills = fills_of(alloc, plain, function, &masks, &lives, &holders, homes)?;
    Ok(Allocation {
        homes: chosen.homes,
        saved,
        idle,
        fills,
    })
}
