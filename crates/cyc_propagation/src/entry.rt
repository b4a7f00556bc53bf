//! The facts required at jump targets.
ghost use Rattle.std.specs.Prelude.{◌≡◌, ℕ, ◌<◌, true, IfOk, OnOk, None, length};
ghost use Rattle.cyc_propagation.specs.inside.Facts as facts_of;
ghost use Rattle.cyc_propagation.specs.inside.Entries as entries_of;
ghost use Rattle.cyc_propagation.specs.inside.Table as table;

use crate::fact::{Fact, MOST_FACTS};
use crate::facts::Facts;
use crate::jumps::is_end;
use crate::known::{are_known, follows_found, found_from, next_place};
use crate::pins::are_suited;
use cyc_plain::Instruction;
use std::alloc::{AllocError, Global};
use std::mem;

/// The maximal number of facts recorded for a jump target. More facts are recorded for a jump target
/// than for other positions, since each jump on a path to the target may add one fact.
const MOST_ENTRY_FACTS: usize = 4 * MOST_FACTS;

/// The facts at a position in the code.
#[derive(Drop)]
pub(crate) struct Entry {
    /// True if the position is a jump target. If the position is no jump target, its facts are those after the previous instruction.
    pub(crate) is_target: bool,
    pub(crate) facts: Vec<Fact>,
}

/// Returns the records of the facts at `count` positions, none of which is known to be a jump target yet.
pub(crate) fn no_entries(alloc: Global, count: usize) -> Result<Vec<Entry>, AllocError> {
    let mut entries = Vec::with_capacity(alloc, count)?;
    for _ in 0..count {
        entries.push_reserved(Entry {
            is_target: false,
            facts: Vec::new(alloc),
        });
    }
    Ok(entries)
}

/// Returns true if a code position is a jump target.
pub(crate) fn is_target(entries: &[Entry], place: usize) -> bool
    ensures { result ≡ entries_of.is_entered (entries_of.entry_in entries.now place) }
{
    match entries.get(place) {
        Some(entry) => entry.is_target,
        None => false,
    }
}

/// Returns true if the facts that a jump target requires are known at the jump.
pub(crate) fn may_jump(entries: &[Entry], target: usize, facts: &[Fact], more: Option<Fact>) -> bool
    ensures { result ≡ table.may_jump (entries_of.entry_in entries.now target) facts.now more }
{
    match entries.get(target) {
        Some(entry) => entry.is_target && are_known(&entry.facts, facts, more),
        None => false,
    }
}

/// Returns true if the next position is no jump target, or if all facts required at the next position are known.
pub(crate) fn may_go_on(entries: &[Entry], next: usize, facts: &[Fact]) -> bool
    ensures { result ≡ table.may_go_on (entries_of.entry_in entries.now next) facts.now None }
{
    match entries.get(next) {
        Some(entry) => !entry.is_target || are_known(&entry.facts, facts, None),
        None => true,
    }
}

/// Returns true if the facts required at a position contain only slots whose address is not taken, and constants that fit a machine word.
pub(crate) fn is_entry_suited(pinned: &[bool], entries: &[Entry], place: usize) -> bool
    ensures { result ≡ table.is_entry_suited pinned.now (entries_of.entry_in entries.now place) }
{
    match entries.get(place) {
        Some(entry) => !entry.is_target || are_suited(pinned, &entry.facts),
        None => true,
    }
}

/// Replaces the known facts by those required at a position, if it is a jump target.
pub(crate) fn enter(entries: &[Entry], place: usize, facts: &mut Facts) -> Result<(), AllocError>
    ensures { OnOk result (facts.new ≡ table.entered_or (entries_of.entry_in entries.now place) facts.old) }
{
    if let Some(entry) = entries.get(place) {
        if entry.is_target {
            facts.replace(&entry.facts)?;
        }
    }
    Ok(())
}

/// Removes the facts required at a jump target that do not follow from the known facts. Returns true if no fact was removed. Looking up
/// the required facts among the known facts is fastest if both lists have their facts in the same order.
fn restrict(asked: &mut Vec<Fact>, facts: &[Fact], more: Option<Fact>) -> bool
    ensures less { entries_of.IsLess asked.old.items asked.new.items }
    ensures known { table.are_known asked.new.items facts.now more ≡ true }
{
    let count = asked.len();
    let mut kept = 0;
    let mut next = 0;
    for _ in 0..count {
        let fact = asked[kept];
        let place = found_from(facts, next, &fact);
        next = next_place(facts, place, next);
        if follows_found(facts, &more, &fact, place) {
            kept += 1;
        } else {
            asked.remove(kept);
        }
    }
    kept == count
}

/// Adds the fact that a branch establishes, if there is one, to the facts recorded for the branch target. If
/// the recorded list already has the maximal number of facts, the oldest fact is dropped.
#[tactic(auto, using(crate::proofs::Entered::known_of_itself, crate::proofs::Entered::known_with_one, crate::proofs::Entered::known_without_first,))]
fn remember_more(known: &mut Vec<Fact>, more: Option<Fact>) -> Result<(), AllocError>
    ensures { OnOk result (table.are_known known.new.items known.old.items more ≡ true) }
{
    if let Some(fact) = more {
        if known.len() >= MOST_ENTRY_FACTS {
            known.remove(0);
        }
        known.push(fact)?;
    }
    Ok(())
}

/// Records the facts on the first path to a position. For a position where a run ends, no facts are recorded.
fn come_first(
    entry: &mut Entry,
    is_end: bool,
    facts: &[Fact],
    more: Option<Fact>,
) -> Result<(), AllocError>
    ensures target { OnOk result (entry.new.is_target ≡ true) }
    ensures known { OnOk result (table.are_known entry.new.facts.items facts.now more ≡ true) }
{
    entry.is_target = true;
    entry.facts.clear();
    if is_end {
        return Ok(());
    }
    entry.facts.reserve(facts.len() + 1)?;
    entry.facts.extend_from_slice(facts)?;
    remember_more(&mut entry.facts, more)
}

/// Records the facts known on the first path to a position; on later paths, keeps only those that the facts
/// of the new path imply. Returns true if the facts recorded for the position do not change.
#[tactic(auto, using(crate::proofs::Entered::known_where_set))]
pub(crate) fn come_to(
    entries: &mut Vec<Entry>,
    code: &[Instruction],
    place: usize,
    facts: &[Fact],
    more: Option<Fact>,
) -> Result<bool, AllocError>
    ensures narrowed { IfOk result (λ is_still. (index : ℕ) → index < place
        → entries_of.AreNarrowed index (entries_of.entry_in entries.old.items) (entries_of.entry_in entries.new.items)) }
    ensures known { IfOk result (λ is_still. place < length entries.old.items
        → table.may_jump (entries_of.entry_in entries.new.items place) facts.now more ≡ true) }
{
    if place >= entries.len() {
        return Ok(false);
    }
    if entries[place].is_target {
        return Ok(restrict(&mut entries[place].facts, facts, more));
    }
    come_first(&mut entries[place], is_end(code, place), facts, more)?;
    Ok(false)
}

/// Moves the facts guessed for a position, if it is a jump target, into the record of the facts required there.
fn adopt_at(guesses: &mut Vec<Entry>, entries: &mut Vec<Entry>, place: usize)
    ensures { (index : ℕ) → index < place → entries_of.AreNarrowed index (entries_of.entry_in entries.old.items) (entries_of.entry_in entries.new.items) }
{
    if place >= entries.len() || entries[place].is_target {
        return;
    }
    if let Some(guess) = guesses.get_mut(place) {
        if guess.is_target {
            mem::swap(&mut entries[place], guess);
        }
    }
}

/// Moves the facts guessed for the positions from `first` up to `end` into the records of the facts required there.
pub(crate) fn adopt(guesses: &mut Vec<Entry>, entries: &mut Vec<Entry>, first: usize, end: usize)
    ensures { (index : ℕ) → index < first → entries_of.AreNarrowed index (entries_of.entry_in entries.old.items) (entries_of.entry_in entries.new.items) }
{
    for place in first..end.min(guesses.len()) {
        adopt_at(guesses, entries, place);
    }
}
