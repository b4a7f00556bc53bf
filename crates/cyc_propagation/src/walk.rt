//! Simplifies the code of a function, each instruction under the facts known at its position.
ghost use Rattle.std.specs.Prelude.{◌≡◌, ℕ, ◌+◌, ◌<◌, ◌^◌, true, IfOk, IfSome, OnOk, length};
ghost use Rattle.cyc_plain.specs.inside.Program.{routine_of};
ghost use Rattle.cyc_plain.specs.inside.Uses.{At};
ghost use Rattle.cyc_propagation.specs.inside.Entries as entries_of;
ghost use Rattle.cyc_propagation.specs.inside.Facts as facts_of;
ghost use Rattle.cyc_propagation.specs.inside.Table as table;

use crate::effects::go_on;
use crate::entries::Search;
use crate::entry::{
    Entry, adopt, come_to, enter, is_entry_suited, is_target, may_go_on, may_jump, no_entries,
};
use crate::fact::Fact;
use crate::facts::Facts;
use crate::jumps::{goes_on, is_end};
use crate::known::{is_unreached, never};
use crate::outcomes::made;
use crate::replacement::put_at;
use cyc_plain::{Function, Instruction, Plain};
use std::alloc::{AllocError, Global};

/// A function of a program, and its slots whose address is taken.
#[derive(Clone, Copy)]
struct Setting<'a> {
    plain: &'a Plain,
    function: &'a Function,
    /// For each slot of the function, true if its address is taken.
    pinned: &'a [bool],
}

/// Returns true if an instruction jumps only to targets whose required facts are known.
fn jumps_well(
    pinned: &[bool],
    entries: &[Entry],
    facts: &[Fact],
    instruction: Instruction,
    index: usize,
) -> bool
    requires { index + 1 < 2 ^ 64 }
    ensures { result ≡ entries_of.jumps_well pinned.now (entries_of.entry_in entries.now) facts.now instruction index }
{
    match instruction {
        Instruction::Jump { target } => {
            is_unreached(facts) || may_jump(entries, target, facts, None)
        }
        Instruction::Branch { target, .. } => may_jump(
            entries,
            target,
            facts,
            made(pinned, instruction, index, target),
        ),
        Instruction::Try { handler, .. } => {
            facts.is_empty() && may_jump(entries, handler, facts, None)
        }
        _ => true,
    }
}

/// Returns true if the next instruction requires only known facts, or control cannot reach it.
fn goes_well(entries: &[Entry], following: &[Fact], instruction: Instruction, index: usize) -> bool
    requires { index + 1 < 2 ^ 64 }
    ensures { result ≡ entries_of.goes_well (entries_of.entry_in entries.now) following.now instruction index }
{
    match instruction {
        Instruction::Jump { .. }
        | Instruction::Return { .. }
        | Instruction::Throw { .. }
        | Instruction::Finish { .. }
        | Instruction::Uncaught { .. } => true,
        _ => may_go_on(entries, index + 1, following),
    }
}

/// Updates the known facts to those at the next position, if no jump has the next position as its target. After an instruction that
/// never falls through, the next position is unreachable.
pub(crate) fn come_after(
    plain: &Plain,
    pinned: &[bool],
    facts: &mut Facts,
    instruction: Instruction,
    index: usize,
) -> Result<(), AllocError>
    requires { index + 1 < 2 ^ 64 }
    ensures { OnOk result (facts.new ≡ table.after_put plain.now pinned.now facts.old instruction index) }
{
    if goes_on(instruction) {
        return go_on(plain, pinned, facts, instruction, index);
    }
    if facts.are_of_no_run() {
        return Ok(());
    }
    facts.clear();
    facts.remember(Some(never()))
}

/// Returns true if the facts known at a forward jump must be merged into those of its target. The facts at an unreachable jump are
/// not merged. In a code region whose facts the search has found, only jumps to positions where a run ends need a merge.
fn is_merged(
    code: &[Instruction],
    is_searched: bool,
    facts: &[Fact],
    index: usize,
    target: usize,
) -> bool
    ensures { result ≡ true → index < target }
{
    index < target && (!is_unreached(facts) && (!is_searched || is_end(code, target)))
}

/// Keeps only those facts of a jump target that are also known at the jump. Returns true if all facts that the jump target still
/// requires are known at the jump.
fn merge_at(
    entries: &mut Vec<Entry>,
    code: &[Instruction],
    target: usize,
    facts: &[Fact],
    more: Option<Fact>,
) -> Result<bool, AllocError>
    ensures narrowed { IfOk result (λ is_known. (index : ℕ) → index < target
        → entries_of.AreNarrowed index (entries_of.entry_in entries.old.items) (entries_of.entry_in entries.new.items)) }
    ensures known { IfOk result (λ is_known. is_known ≡ true → table.may_jump (entries_of.entry_in entries.new.items target) facts.now more ≡ true) }
{
    let is_inside = target < entries.len();
    come_to(entries, code, target, facts, more)?;
    Ok(is_inside)
}

/// Keeps only those facts of an instruction's forward jump target that are also known at the instruction. Returns true if the facts
/// known at the instruction imply those that its jump target still requires.
#[tactic(auto, using(crate::proofs::Entered::jumped_well))]
fn merge_target(
    entries: &mut Vec<Entry>,
    setting: &Setting,
    is_searched: bool,
    facts: &[Fact],
    instruction: Instruction,
    index: usize,
) -> Result<bool, AllocError>
    requires { index + 1 < 2 ^ 64 }
    ensures narrowed { IfOk result (λ is_right. entries_of.AreNarrowed index (entries_of.entry_in entries.old.items) (entries_of.entry_in entries.new.items)) }
    ensures right { IfOk result (λ is_right. is_right ≡ true
        → entries_of.jumps_well setting.now.pinned.now (entries_of.entry_in entries.new.items) facts.now instruction index ≡ true) }
{
    let pinned = setting.pinned;
    let code = &setting.function.code;
    match instruction {
        Instruction::Jump { target } | Instruction::Branch { target, .. } => {
            if !is_merged(code, is_searched, facts, index, target) {
                return Ok(jumps_well(pinned, entries, facts, instruction, index));
            }
            let more = made(pinned, instruction, index, target);
            let is_known = merge_at(entries, code, target, facts, more)?;
            Ok(is_known || jumps_well(pinned, entries, facts, instruction, index))
        }
        Instruction::Try { handler, .. } => {
            if is_merged(code, is_searched, facts, index, handler) {
                let more = made(pinned, instruction, index, handler);
                merge_at(entries, code, handler, facts, more)?;
                return Ok(jumps_well(pinned, entries, facts, instruction, index));
            }
            Ok(jumps_well(pinned, entries, facts, instruction, index))
        }
        _ => Ok(true),
    }
}

/// Begins a code region at a position, if a region begins there.
fn begin_at(
    setting: &Setting,
    search: &mut Search,
    entries: &mut Vec<Entry>,
    facts: &[Fact],
    place: usize,
) -> Result<(), AllocError>
    ensures { OnOk result ((index : ℕ) → index < place → entries_of.AreNarrowed index (entries_of.entry_in entries.old.items)
        (entries_of.entry_in entries.new.items)) }
{
    if search.begins_at(place) {
        search.begin(
            setting.plain,
            setting.function,
            setting.pinned,
            facts,
            place,
        )?;
        adopt(&mut search.guesses, entries, place, search.region.end);
    }
    Ok(())
}

/// Keeps only those facts of a jump target that are also known after the previous instruction. Returns true if all facts that the
/// jump target still requires are known after the previous instruction.
fn join(
    entries: &mut Vec<Entry>,
    code: &[Instruction],
    is_searched: bool,
    facts: &[Fact],
    place: usize,
) -> Result<bool, AllocError>
    ensures narrowed { IfOk result (λ is_known. (index : ℕ) → index < place
        → entries_of.AreNarrowed index (entries_of.entry_in entries.old.items) (entries_of.entry_in entries.new.items)) }
    ensures known { IfOk result (λ is_known. is_known ≡ true → table.may_go_on (entries_of.entry_in entries.new.items place) facts.now None ≡ true) }
{
    if is_searched || !is_target(entries, place) || is_unreached(facts) {
        return Ok(false);
    }
    let is_inside = place < entries.len();
    come_to(entries, code, place, facts, None)?;
    Ok(is_inside)
}

/// Updates the facts at a position that control reaches from the previous instruction. Returns true only if all facts
/// required at this position are known after the previous instruction.
fn come_next(
    setting: &Setting,
    search: &mut Search,
    entries: &mut Vec<Entry>,
    facts: &[Fact],
    place: usize,
) -> Result<bool, AllocError>
    ensures narrowed { IfOk result (λ is_known. (index : ℕ) → index < place
        → entries_of.AreNarrowed index (entries_of.entry_in entries.old.items) (entries_of.entry_in entries.new.items)) }
    ensures known { IfOk result (λ is_known. is_known ≡ true → table.may_go_on (entries_of.entry_in entries.new.items place) facts.now None ≡ true) }
{
    begin_at(setting, search, entries, facts, place)?;
    let is_known = join(
        entries,
        &setting.function.code,
        search.region.is_searched,
        facts,
        place,
    )?;
    Ok(is_known)
}

/// Updates the facts at the position after an instruction. Returns true if control does not continue at the position after
/// the instruction, or if only known facts are required at this position.
fn continue_after(
    setting: &Setting,
    search: &mut Search,
    entries: &mut Vec<Entry>,
    following: &[Fact],
    instruction: Instruction,
    index: usize,
) -> Result<bool, AllocError>
    requires { index + 1 < 2 ^ 64 }
    ensures narrowed { IfOk result (λ is_right. entries_of.AreNarrowed index (entries_of.entry_in entries.old.items) (entries_of.entry_in entries.new.items)) }
    ensures right { IfOk result (λ is_right. is_right ≡ true
        → entries_of.goes_well (entries_of.entry_in entries.new.items) following.now instruction index ≡ true) }
{
    if come_next(setting, search, entries, following, index + 1)? {
        return Ok(true);
    }
    Ok(goes_well(entries, following, instruction, index))
}

/// Returns true if an instruction does not jump, and the next position is no jump target and begins no code region. An unreachable
/// jump is treated as not jumping.
fn is_straight(
    search: &Search,
    entries: &[Entry],
    facts: &[Fact],
    instruction: Instruction,
    index: usize,
) -> bool
    requires { index + 1 < 2 ^ 64 }
    ensures { result ≡ true → entries_of.is_straight (entries_of.entry_in entries.now) facts.now instruction index ≡ true }
{
    match instruction {
        Instruction::Branch { .. } | Instruction::Try { .. } => false,
        Instruction::Jump { .. } => {
            is_unreached(facts) && (!search.begins_at(index + 1) && !is_target(entries, index + 1))
        }
        _ => !search.begins_at(index + 1) && !is_target(entries, index + 1),
    }
}

/// Processes an instruction that jumps, or whose next position is a jump target or begins a code region. Replaces `facts` by the facts
/// known at the next position. Returns true if the facts known after the instruction imply those required at the next position.
fn merge_into_successor(
    setting: &Setting,
    search: &mut Search,
    entries: &mut Vec<Entry>,
    facts: &mut Facts,
    instruction: Instruction,
    index: usize,
) -> Result<bool, AllocError>
    requires { index + 1 < 2 ^ 64 }
    ensures narrowed { IfOk result (λ is_right. is_right ≡ true
        → entries_of.AreNarrowed index (entries_of.entry_in entries.old.items) (entries_of.entry_in entries.new.items)) }
    ensures checked { IfOk result (λ is_right. is_right ≡ true
        → table.is_checked_at setting.now.plain.now setting.now.pinned.now (entries_of.entry_in entries.new.items) facts.old instruction index ≡ true) }
    ensures facts { IfOk result (λ is_right. is_right ≡ true
        → facts.new ≡ table.entered_or (entries_of.entry_in entries.new.items (index + 1))
        (table.after_put setting.now.plain.now setting.now.pinned.now facts.old instruction index)) }
{
    let (plain, pinned) = (setting.plain, setting.pinned);
    let is_searched = search.region.is_searched;
    if !merge_target(
        entries,
        setting,
        is_searched,
        facts.all(),
        instruction,
        index,
    )? {
        return Ok(false);
    }
    come_after(plain, pinned, facts, instruction, index)?;
    if !continue_after(setting, search, entries, facts.all(), instruction, index)? {
        return Ok(false);
    }
    if !is_entry_suited(pinned, entries, index + 1) {
        return Ok(false);
    }
    enter(entries, index + 1, facts)?;
    Ok(true)
}

/// Processes one instruction. Replaces `facts` by the facts known at the next position. Returns true if the facts known after the
/// instruction imply those required at the next position.
fn pass_on(
    setting: &Setting,
    search: &mut Search,
    entries: &mut Vec<Entry>,
    facts: &mut Facts,
    instruction: Instruction,
    index: usize,
) -> Result<bool, AllocError>
    requires { index + 1 < 2 ^ 64 }
    ensures narrowed { IfOk result (λ is_right. is_right ≡ true
        → entries_of.AreNarrowed index (entries_of.entry_in entries.old.items) (entries_of.entry_in entries.new.items)) }
    ensures checked { IfOk result (λ is_right. is_right ≡ true
        → table.is_checked_at setting.now.plain.now setting.now.pinned.now (entries_of.entry_in entries.new.items) facts.old instruction index ≡ true) }
    ensures facts { IfOk result (λ is_right. is_right ≡ true
        → facts.new ≡ table.entered_or (entries_of.entry_in entries.new.items (index + 1))
        (table.after_put setting.now.plain.now setting.now.pinned.now facts.old instruction index)) }
{
    if is_straight(search, entries, facts.all(), instruction, index) {
        come_after(setting.plain, setting.pinned, facts, instruction, index)?;
        return Ok(true);
    }
    merge_into_successor(setting, search, entries, facts, instruction, index)
}

fn instruction_at(function: &Function, index: usize) -> Instruction
    requires { index < length function.now.code.items }
    ensures { At (routine_of function.now) index result }
{
    function.code[index]
}

/// Returns the code of a function, in which each instruction is simplified under the facts known at its position. There is a result
/// only if the facts that the unverified search found pass the check.
fn walked(
    alloc: Global,
    plain: &Plain,
    function: &Function,
    pinned: &[bool],
    is_short: bool,
) -> Result<Option<Vec<Instruction>>, AllocError>
    ensures { IfOk result (λ made. IfSome made (λ code.
        entries_of.IsWalkedBySome plain.now (routine_of function.now) pinned.now code.items)) }
{
    let mut code = Vec::with_capacity(alloc, function.code.len())?;
    let mut entries = no_entries(alloc, function.code.len())?;
    let mut search = Search::new(alloc, &function.code, is_short)?;
    let mut facts = Facts::new(alloc);
    let setting = Setting {
        plain,
        function,
        pinned,
    };
    come_next(&setting, &mut search, &mut entries, facts.all(), 0)?;
    for index in 0..function.code.len() {
        let given = instruction_at(function, index);
        let instruction = put_at(&facts, index, function.code.len(), given);
        code.push_reserved(instruction);
        if !pass_on(
            &setting,
            &mut search,
            &mut entries,
            &mut facts,
            instruction,
            index,
        )? {
            return Ok(None);
        }
    }
    Ok(Some(code))
}

/// Returns the simplified code of a function. A search for facts with a single pass over each code region is tried first, since it mostly
/// succeeds.
pub(crate) fn walked_soon(
    alloc: Global,
    plain: &Plain,
    function: &Function,
    pinned: &[bool],
) -> Result<Option<Vec<Instruction>>, AllocError>
    ensures { IfOk result (λ made. IfSome made (λ code.
        entries_of.IsWalkedBySome plain.now (routine_of function.now) pinned.now code.items)) }
{
    if let Some(code) = walked(alloc, plain, function, pinned, true)? {
        return Ok(Some(code));
    }
    walked(alloc, plain, function, pinned, false)
}
