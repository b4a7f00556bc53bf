//! The flow state of all locals during the traversal of an expression. The search for a fault's cause, only for diagnostics, is a second
//! traversal that follows one local.
ghost use Rattle.std.specs.Prelude.{◌≡◌, ◌++◌, [], IfOk};
ghost use Rattle.cyc_types.specs.flow.States.{meet, with_fullness};
ghost use Rattle.cyc_types.specs.flow.Touched.{and_local};
ghost use Rattle.cyc_flow.specs.inside.Code.{view_fullness, view_state, undone, begun, lowered, Notes, are_emptied};

use crate::expressions::Tracked;
use crate::state::{Change, Fullness, State};
use crate::touched::Touched;
use std::alloc::{AllocError, Global};

/// The flow state at a program point in an expression, and the locals touched (consumed, assigned or locked) before this point.
#[derive(Drop)]
pub(crate) struct Evaluation {
    pub(crate) state: State,
    pub(crate) touched: Touched,
    /// The changes of locals since the start of the expression, or of the innermost enclosing operand of `&&` or `||`, in order.
    pub(crate) trail: Vec<Change>,
}

/// Returns the list of changed locals, each with its present state (empty, lent or full).
#[tactic(auto, using(std::proofs::lemmas::List::drop_more, crate::proofs::Trails::noted_now))]
fn changed(alloc: Global, state: &State, trail: &[Change]) -> Result<Vec<Change>, AllocError>
    ensures { IfOk result (λ v. Notes v.items (view_state state.now) trail.now) }
{
    let mut changed = Vec::new(alloc);
    for change in trail {
        changed.push(Change {
            number: change.number,
            before: state.fullness(change.number),
        })?;
    }
    Ok(changed)
}

/// Returns true if each changed local may be empty in the present flow state.
#[tactic(auto, using(std::proofs::lemmas::List::drop_more))]
fn are_emptied(state: &State, trail: &[Change]) -> bool
    ensures { result ≡ are_emptied trail.now (view_state state.now) }
{
    for change in trail {
        if !state.fullness(change.number).is_vacant() {
            return false;
        }
    }
    true
}

impl Evaluation {
    pub(crate) fn new(alloc: Global, tracked: Tracked) -> Evaluation
        ensures state { view_state result.state ≡ view_state tracked.state }
        ensures touched { result.touched.numbers.list ≡ tracked.touched.numbers.list }
    {
        Evaluation {
            state: tracked.state,
            touched: tracked.touched,
            trail: Vec::new(alloc),
        }
    }

    pub(crate) fn end(self) -> Tracked
        ensures state { view_state result.state ≡ view_state self.state }
        ensures touched { result.touched.numbers.list ≡ self.touched.numbers.list }
    {
        Tracked {
            state: self.state,
            touched: self.touched,
        }
    }

    /// Sets the state of one local. A state that stays the same is not recorded, so `&&` and `||` visit only real changes.
    pub(crate) fn set(&mut self, number: usize, fullness: Fullness) -> Result<(), AllocError>
        ensures state { IfOk result (λ _. view_state self.new.state ≡ with_fullness (view_fullness fullness) (view_state self.old.state) number) }
        ensures touched { IfOk result (λ _. self.new.touched.numbers.list ≡ self.old.touched.numbers.list) }
        ensures begun { IfOk result (λ _. begun self.new ≡ begun self.old) }
    {
        let before = self.state.fullness(number);
        if before == fullness {
            return Ok(());
        }
        self.trail.push(Change { number, before })?;
        self.state.set(number, fullness);
        Ok(())
    }

    /// Records that a local is consumed or assigned in the expression.
    pub(crate) fn touch(&mut self, number: usize) -> Result<(), AllocError>
        ensures state { IfOk result (λ _. view_state self.new.state ≡ view_state self.old.state) }
        ensures touched { IfOk result (λ _. self.new.touched.numbers.list ≡ and_local number self.old.touched.numbers.list) }
        ensures begun { IfOk result (λ _. begun self.new ≡ begun self.old) }
    {
        self.touched.add(number)?;
        Ok(())
    }

    /// Sets the flow state back to that at the start of the expression, by undoing the changes recorded since.
    fn undo(&mut self)
        ensures state { view_state self.new.state ≡ begun self.old }
        ensures touched { self.new.touched.numbers.list ≡ self.old.touched.numbers.list }
        ensures trail { self.new.trail.items ≡ [] }
    {
        while let Some(change) = self.trail.pop() {
            self.state.set(change.number, change.before);
        }
    }

    /// Sets each changed local to the emptier of two states: its present state and its recorded state.
    #[tactic(auto, using(std::proofs::lemmas::List::drop_more))]
    fn lower(&mut self, changes: &[Change]) -> Result<(), AllocError>
        ensures state { IfOk result (λ _. view_state self.new.state ≡ lowered changes.now (view_state self.old.state)) }
        ensures touched { IfOk result (λ _. self.new.touched.numbers.list ≡ self.old.touched.numbers.list) }
        ensures begun { IfOk result (λ _. begun self.new ≡ begun self.old) }
    {
        for change in changes {
            let fullness = self.state.fullness(change.number).lower(change.before);
            self.set(change.number, fullness)?;
        }
        Ok(())
    }

    /// Replaces the state by its meet with the state at the start. If an operand has only consumed locals, the result is the present state;
    /// skipping the meet of flow states if an operand has only consumed locals keeps nested operators cheap, since
    /// each of them would visit the same changes again.
    #[tactic(auto, using(crate::proofs::Trails::meet_undone, crate::proofs::Trails::meet_emptied))]
    pub(crate) fn meet_start(&mut self, alloc: Global) -> Result<(), AllocError>
        ensures state { IfOk result (λ _. view_state self.new.state ≡ meet (begun self.old) (view_state self.old.state)) }
        ensures touched { IfOk result (λ _. self.new.touched.numbers.list ≡ self.old.touched.numbers.list) }
        ensures begun { IfOk result (λ _. begun self.new ≡ begun self.old) }
    {
        if are_emptied(&self.state, &self.trail) {
            return Ok(());
        }
        let changed = changed(alloc, &self.state, &self.trail)?;
        self.undo();
        self.lower(&changed)
    }

    /// Ends an operand of `&&` or `||`, and adds its changes of locals to the list of changes that were recorded before the operand.
    #[tactic(auto, using(crate::proofs::Trails::undone_append))]
    pub(crate) fn resume(&mut self, outer: Vec<Change>) -> Result<(), AllocError>
        ensures state { IfOk result (λ _. view_state self.new.state ≡ view_state self.old.state) }
        ensures touched { IfOk result (λ _. self.new.touched.numbers.list ≡ self.old.touched.numbers.list) }
        ensures begun { IfOk result (λ _. begun self.new ≡ undone outer.items (begun self.old)) }
    {
        if outer.is_empty() {
            return Ok(());
        }
        let mut all = outer;
        all.extend_from_slice(&self.trail)?;
        self.trail = all;
        Ok(())
    }
}
