//! The check of the slots' homes: slots may share a register only if no two of the slots are live simultaneously.
ghost use Rattle.std.specs.Prelude.{◌≡◌, ◌<◌, ◌≤◌, length, true, sum_by, take, IfOk};
ghost use Rattle.cyc_plain.specs.inside.Program.{routine_of};
ghost use Rattle.cyc_registers.specs.inside.Interference.{AreHomes, both_count, home_of, saved_count};
ghost use Rattle.cyc_registers.specs.inside.LivenessTable.{IsSound};
ghost use Rattle.cyc_registers.specs.inside.Masks.{AreMasks, AreUses, range_mask};
ghost use Rattle.cyc_registers.specs.inside.Sharing as checks;

use crate::home::{FIRST_PRESERVED, FIRST_REGISTER, Home, MOST_BOTH, MOST_SAVED, REGISTERS_END};
use crate::liveness::{Analysis, MOST_CHOSEN, after_mask, is_within, may_have};
use crate::masks::{mask_at, range_mask};
use crate::uses::Uses;
use cyc_plain::{Function, Instruction, Plain};
use std::alloc::{AllocError, Global};

/// The number of entries of tables that are indexed by register number.
const REGISTERS: usize = REGISTERS_END as usize;

/// Returns true if a set has at most one slot.
fn is_single(slots: u64) -> bool
    ensures { result ≡ checks.is_single slots }
{
    slots & slots.saturating_sub(1) == 0
}

/// Returns for each register the slots that have it, indexed by register. The result is unverified: it is checked together with the
/// slots' homes.
pub(crate) fn holders_of(masks: &[u64], homes: &[Home]) -> [u64; REGISTERS] {
    let mut holders = [0; REGISTERS];
    for slot in 0..homes.len() {
        match homes[slot] {
            Home::Memory => {}
            Home::Both { register } | Home::Register { register } => {
                if let Some(slots) = holders.get_mut(register as usize) {
                    *slots = *slots | mask_at(masks, slot);
                }
            }
        }
    }
    holders
}

/// Appends a set of slots, which share a register, to the list of such sets, if the set has more than one slot.
fn add_group(groups: &mut Vec<u64>, slots: u64) -> Result<(), AllocError>
    ensures { IfOk result (λ done. groups.new.items ≡ checks.with_group groups.old.items slots) }
{
    if is_single(slots) {
        return Ok(());
    }
    groups.push(slots)?;
    Ok(())
}

/// Returns the sets of slots that share a register: one set for each register that more than one slot has.
pub(crate) fn groups_of(alloc: Global, holders: &[u64]) -> Result<Vec<u64>, AllocError>
    ensures { IfOk result (λ groups. checks.AreGroups holders.now (length holders.now) groups.items) }
{
    let mut groups = Vec::new(alloc);
    for register in 0..holders.len() {
        add_group(&mut groups, mask_at(holders, register))?;
    }
    Ok(groups)
}

fn is_given(saved: usize, register: u8) -> bool
    requires { saved ≤ MOST_SAVED }
    ensures { result ≡ checks.is_given saved register }
{
    FIRST_REGISTER <= register && (register as usize) < FIRST_PRESERVED as usize + saved
}

/// Returns true if a slot's home (register or memory) is correct in isolation, and the set of slots stored for its register includes
/// the slot.
fn suits(analysis: &Analysis, holders: &[u64], saved: usize, slot: usize, home: Home) -> bool
    requires { saved ≤ MOST_SAVED }
    ensures { result ≡ checks.suits analysis.now.masks.now analysis.now.lives.now.live.items holders.now analysis.now.lives.now.calls
        analysis.now.lives.now.clauses
        analysis.now.lives.now.barred analysis.now.function.now.parameters saved slot home }
{
    let (function, masks, lives) = (analysis.function, analysis.masks, analysis.lives);
    let mask = mask_at(masks, slot);
    match home {
        Home::Memory => true,
        Home::Both { register } => {
            may_have(function, masks, lives, slot)
                && (is_given(saved, register) && mask_at(holders, register as usize) == mask)
        }
        Home::Register { register } => {
            may_have(function, masks, lives, slot)
                && (is_given(saved, register)
                    && (is_within(mask, mask_at(holders, register as usize))
                        && (lives.clauses & mask == 0
                            && (FIRST_PRESERVED <= register || lives.calls & mask == 0))))
        }
    }
}

/// Returns true if the home (register, memory or both) of each slot is correct, as far as this depends on the slot alone.
fn all_suit(analysis: &Analysis, holders: &[u64], saved: usize, homes: &[Home]) -> bool
    requires { saved ≤ MOST_SAVED }
    ensures { result ≡ true → checks.AllSuit analysis.now.masks.now analysis.now.lives.now.live.items holders.now analysis.now.lives.now.calls
        analysis.now.lives.now.clauses
        analysis.now.lives.now.barred analysis.now.function.now.parameters saved homes.now }
{
    for slot in 0..homes.len() {
        if !suits(analysis, holders, saved, slot, homes[slot]) {
            return false;
        }
    }
    true
}

fn both_in(home: Home) -> usize
    ensures { result ≡ both_count home }
{
    match home {
        Home::Both { .. } => 1,
        _ => 0,
    }
}

fn saved_in(home: Home) -> usize
    ensures { result ≡ saved_count home }
{
    match home {
        Home::Memory => 0,
        Home::Both { register } | Home::Register { register } => {
            if register < FIRST_PRESERVED { 0 } else { 1 }
        }
    }
}

/// Returns the number of slots with a register in addition to memory.
fn both_in_all(homes: &[Home]) -> usize
    ensures { result ≡ sum_by both_count homes.now }
{
    let mut both = 0;
    for slot in 0..homes.len() {
        both += both_in(homes[slot]);
    }
    both
}

/// Returns how many callee-saved registers the first `count` slots have.
fn saved_in_first(homes: &[Home], count: usize) -> usize
    ensures { result ≡ sum_by saved_count (take count homes.now) }
{
    let mut saved = 0;
    for slot in 0..count.min(homes.len()) {
        saved += saved_in(homes[slot]);
    }
    saved
}

/// Returns true if a set contains at most one slot of each group of slots that share a register.
fn are_single(groups: &[u64], set: u64) -> bool
    ensures { result ≡ true → checks.AreSingle groups.now set }
{
    for number in 0..groups.len() {
        if !is_single(set & groups[number]) {
            return false;
        }
    }
    true
}

/// Returns true if a set contains at most one slot of each group of slots that share a register, given that the set `known` does.
/// A subset of a set with at most one slot of each group has at most one slot of each group.
fn are_alone(groups: &[u64], known: u64, set: u64) -> bool
    requires { checks.AreAlone groups.now known }
    ensures { result ≡ true → checks.AreAlone groups.now set }
{
    is_within(set, known) || are_single(groups, set)
}

/// Returns true if none of the slots that share a register is written, or at most one of them is written or live after the instruction.
fn is_apart(written: u64, following: u64, slots: u64) -> bool
    ensures { result ≡ checks.is_apart written following slots }
{
    written & slots == 0 || is_single((written | following) & slots)
}

fn are_apart(groups: &[u64], written: u64, following: u64) -> bool
    ensures { result ≡ true → checks.AreApart groups.now written following }
{
    if written == 0 {
        return true;
    }
    for number in 0..groups.len() {
        if !is_apart(written, following, groups[number]) {
            return false;
        }
    }
    true
}

/// Returns the slots that are live at an instruction. For a move of several words, the slots to which the words are moved are included.
fn standing_mask(uses: Uses, instruction: Instruction, index: usize, live: &[u64]) -> u64
    requires { index < length live.now }
    ensures { result ≡ checks.standing_mask uses instruction index live.now }
{
    match instruction {
        Instruction::MoveWords { .. } => mask_at(live, index) | uses.writes,
        _ => mask_at(live, index),
    }
}

/// Returns true if no two slots that share a register interfere anywhere. After an instruction, only the written slots and those live
/// after it need a new check.
fn never_meet(
    plain: &Plain,
    function: &Function,
    masks: &[u64],
    uses: &[Uses],
    live: &[u64],
    groups: &[u64],
) -> bool
    requires uses { AreUses plain.now (routine_of function.now) masks.now uses.now }
    requires all { length uses.now ≡ length function.now.code.items }
    requires table { length live.now ≡ length function.now.code.items }
    ensures { result ≡ true → checks.NeverMeet plain.now (routine_of function.now) masks.now live.now groups.now (length function.now.code.items) }
{
    let mut known = 0;
    for index in 0..function.code.len() {
        let instruction = function.code[index];
        let used = uses[index];
        let standing = standing_mask(used, instruction, index, live);
        let following = after_mask(instruction, index, live);
        if !are_alone(groups, known, standing) {
            return false;
        }
        if !are_apart(groups, used.writes, following) {
            return false;
        }
        known = standing & following | used.writes;
    }
    true
}

/// Returns true if no two slots that share a register interfere, and at most one of them is a parameter.
fn may_share(
    plain: &Plain,
    function: &Function,
    masks: &[u64],
    uses: &[Uses],
    live: &[u64],
    groups: &[u64],
) -> bool
    requires uses { AreUses plain.now (routine_of function.now) masks.now uses.now }
    requires all { length uses.now ≡ length function.now.code.items }
    requires table { length live.now ≡ length function.now.code.items }
    ensures meet { result ≡ true → checks.NeverMeet plain.now (routine_of function.now) masks.now live.now groups.now (length function.now.code.items) }
    ensures parameters { result ≡ true → checks.AreSingle groups.now (range_mask masks.now 0 function.now.parameters) }
{
    groups.len() == 0
        || (are_single(groups, range_mask(masks, 0, function.parameters))
            && never_meet(plain, function, masks, uses, live, groups))
}

/// Returns true if the homes of the slots (registers or memory) are correct for a function that saves `saved` callee-saved registers.
pub(crate) fn are_right(
    analysis: &Analysis,
    holders: &[u64],
    groups: &[u64],
    saved: usize,
    homes: &[Home],
) -> bool
    requires numbered { AreMasks analysis.now.masks.now MOST_CHOSEN }
    requires uses { AreUses analysis.now.plain.now (routine_of analysis.now.function.now) analysis.now.masks.now analysis.now.uses.now }
    requires all { length analysis.now.uses.now ≡ length analysis.now.function.now.code.items }
    requires sound { IsSound analysis.now.plain.now (routine_of analysis.now.function.now) analysis.now.masks.now analysis.now.lives.now.live.items
        analysis.now.lives.now.calls
        analysis.now.lives.now.clauses analysis.now.lives.now.barred }
    requires table { length analysis.now.lives.now.live.items ≡ length analysis.now.function.now.code.items }
    requires groups { checks.AreGroups holders.now (length holders.now) groups.now }
    requires saved { saved ≤ MOST_SAVED }
    ensures homes { result ≡ true → AreHomes analysis.now.plain.now (routine_of analysis.now.function.now) saved homes.now }
    ensures holders { result ≡ true → checks.AreHolders analysis.now.masks.now holders.now homes.now }
{
    let function = analysis.function;
    if homes.len() != function.slots {
        return false;
    }
    if !all_suit(analysis, holders, saved, homes) {
        return false;
    }
    if both_in_all(homes) > MOST_BOTH {
        return false;
    }
    if saved_in_first(homes, function.parameters) > saved {
        return false;
    }
    let live = &analysis.lives.live;
    may_share(
        analysis.plain,
        function,
        analysis.masks,
        analysis.uses,
        live,
        groups,
    )
}
