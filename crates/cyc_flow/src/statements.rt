//! The flow state after a statement that satisfies the flow rules. Each method receives the state before its statement.
ghost use Rattle.std.specs.Prelude.{◌≡◌, ◌++◌, [], IfOk, None, Ok, option_map};
ghost use Rattle.cyc_syntax.specs.inside.TreeView.{place_of_span};
ghost use Rattle.cyc_types.specs.Rules.{and_then, settled, run};
ghost use Rattle.cyc_types.specs.TypedTreeView.{view_expression, view_converted, view_side, view_statement, view_item, items_of, default_of, clauses_of};
ghost use Rattle.cyc_types.specs.TypedTrees.{While, Try};
ghost use Rattle.cyc_types.specs.flow.States.{Unreached, Full, meet, with_each};
ghost use Rattle.cyc_types.specs.flow.Touched.{and_local, touched, touched_value, touched_thrown, touched_converted, touched_declaration};
ghost use Rattle.cyc_types.specs.flow.Touched.{touched_side, touched_statement, touched_item, touched_items, touched_clauses};
ghost use Rattle.cyc_types.specs.flow.Expressions.{rule, rule_converted};
ghost use Rattle.cyc_types.specs.flow.Statements.{rule_value, rule_thrown, rule_side, peeked_side, side_demanded, rule_swapped, continue_demanded};
ghost use Rattle.cyc_types.specs.flow.Statements.{locked_by, locks_of, rule_declared, rule_locked, caught, with_caught, or_clause, at_end};
ghost use Rattle.cyc_types.specs.flow.Statements.{rule_statement, rule_item, rule_items, rule_clauses};
ghost use Rattle.cyc_flow.specs.inside.Code.{view_state, Ends, Gives, GivesKnown, GivesClauses, known};
ghost use Rattle.cyc_types.specs.flow.Programs.{in_function};
ghost use Rattle.cyc_flow.specs.inside.Steps.{stands, view_loop};

use crate::evaluation::Evaluation;
use crate::expressions::{Tracked, and_peeked, peek_after};
use crate::settled::{Settled, check_head};
use crate::state::{Fullness, State, meet};
use crate::stop::Stop;
use crate::touched::Touched;
use cyc_types::typed::{Clause, Converted, Expr, Item, Lvalue, Side, Stmt};
use cyc_words::Span;
use std::alloc::Global;
use std::mem;

// ---- parts of statements

/// Checks an expression that is not part of another expression.
fn evaluate(alloc: Global, value: &Expr, tracked: Tracked) -> Result<Tracked, Stop>
    ensures { Gives result (run (rule [] (view_expression value.now) (view_state tracked.state)))
        (touched (view_expression value.now) tracked.touched.numbers.list) }
{
    let mut evaluation = Evaluation::new(alloc, tracked);
    evaluation.evaluate(alloc, &[], value)?;
    Ok(evaluation.end())
}

/// Checks an expression whose value is converted, at a point where no peeked value (read from a local without a move) is still unused.
fn convert(alloc: Global, value: &Converted, tracked: Tracked) -> Result<Tracked, Stop>
    ensures { Gives result (run (rule_converted [] (view_converted value.now) (view_state tracked.state)))
        (touched_converted (view_converted value.now) tracked.touched.numbers.list) }
{
    let mut evaluation = Evaluation::new(alloc, tracked);
    evaluation.convert(alloc, &[], value)?;
    Ok(evaluation.end())
}

/// Checks the flow of the expression whose value a `return` returns, if there is one.
fn return_value(alloc: Global, value: &Option<Converted>, tracked: Tracked) -> Result<Tracked, Stop>
    ensures { Gives result (run (rule_value (option_map view_converted value.now) (view_state tracked.state)))
        (touched_value (option_map view_converted value.now) tracked.touched.numbers.list) }
{
    match value {
        None => Ok(tracked),
        Some(value) => convert(alloc, value, tracked),
    }
}

/// Checks the flow of the int expression that a `throw` passes with its exception, if there is one.
fn throw_value(alloc: Global, value: &Option<Expr>, tracked: Tracked) -> Result<Tracked, Stop>
    ensures { Gives result (run (rule_thrown (option_map view_expression value.now) (view_state tracked.state)))
        (touched_thrown (option_map view_expression value.now) tracked.touched.numbers.list) }
{
    match value {
        None => Ok(tracked),
        Some(value) => evaluate(alloc, value, tracked),
    }
}

/// Checks the declaration of a local, which holds its initial value or is empty.
fn declare(
    alloc: Global,
    number: usize,
    value: &Option<Converted>,
    tracked: Tracked,
) -> Result<Tracked, Stop>
    ensures { Gives result (run (rule_declared number (option_map view_converted value.now) (view_state tracked.state)))
        (touched_declaration number (option_map view_converted value.now) tracked.touched.numbers.list) }
{
    match value {
        None => {
            let mut following = tracked.with_fullness(number, Fullness::Vacant);
            following.touch(number)?;
            Ok(following)
        }
        Some(value) => {
            let following = convert(alloc, value, tracked)?;
            Ok(following.with_fullness(number, Fullness::Full))
        }
    }
}

/// Returns the flow state after a statement that never ends: unreachable.
fn left(tracked: Tracked) -> Tracked
    ensures state { view_state result.state ≡ Unreached }
    ensures touched { result.touched.numbers.list ≡ tracked.touched.numbers.list }
{
    Tracked {
        state: State::Unreached,
        touched: tracked.touched,
    }
}

// ---- swaps

/// Returns the local from which an operand of a swap peeks (reads without a move) the pointer that it dereferences, if any.
fn peeked_side(side: &Side) -> Option<usize>
    ensures { result ≡ peeked_side (view_side side.now) }
{
    match side {
        Side::Variable { .. } => None,
        Side::Cell { place } => peek_after(place),
    }
}

/// Checks the evaluation of the left or right operand of a swap, as an assignable expression.
fn find_side(
    alloc: Global,
    waiting: &[usize],
    side: &Side,
    tracked: Tracked,
) -> Result<Tracked, Stop>
    ensures { Gives result (run (rule_side waiting.now (view_side side.now) (view_state tracked.state)))
        (touched_side (view_side side.now) tracked.touched.numbers.list) }
{
    match side {
        Side::Variable { .. } => Ok(tracked),
        Side::Cell { place } => {
            let mut evaluation = Evaluation::new(alloc, tracked);
            evaluation.find(alloc, waiting, place)?;
            Ok(evaluation.end())
        }
    }
}

/// Requires that a variable that is an operand of a swap holds a value that is not lent, after both operands of the swap were evaluated.
fn use_side(asked: &mut Settled, waiting: &[usize], side: &Side, state: &State)
    ensures { asked.new.known ≡ settled asked.old.known (side_demanded waiting.now (view_side side.now) (view_state state.now)) }
{
    if let Side::Variable { place, .. } = side {
        if let Lvalue::Local { span, number } = place {
            asked.use_local(waiting, state, *span, *number);
        }
    }
}

/// Checks a swap.
#[tactic(auto, using(cyc_types::proofs::RuleLaws::settled_append))]
fn swap(alloc: Global, left: &Side, right: &Side, tracked: Tracked) -> Result<Tracked, Stop>
    ensures { Gives result (run (rule_swapped (view_side left.now) (view_side right.now) (view_state tracked.state)))
        (touched_side (view_side right.now) (touched_side (view_side left.now) tracked.touched.numbers.list)) }
{
    let tracked = find_side(alloc, &[], left, tracked)?;
    let waiting = and_peeked(alloc, &[], peeked_side(left))?;
    let tracked = find_side(alloc, &waiting, right, tracked)?;
    let mut settled = Settled::new();
    use_side(&mut settled, &[], left, &tracked.state);
    use_side(&mut settled, &waiting, right, &tracked.state);
    settled.end()?;
    Ok(tracked)
}

// ---- statements

/// The enclosing loop: the source position of its `while`, and the flow state at the loop's head.
#[derive(Drop)]
pub(crate) struct Loop {
    span: Span,
    head: State,
}

/// The data of the traversal of a function's statements.
#[derive(Drop)]
pub(crate) struct Walk {
    alloc: Global,
    /// The locals that declarations and statements have locked (lent until the end of a block) since the start of the
    /// enclosing loop's body, in order.
    locks: Vec<usize>,
    /// The meet of the flow states at the `break` statements so far that leave the enclosing loop.
    breaks: State,
}

impl Walk {
    pub(crate) fn new(alloc: Global) -> Walk
        ensures locks { result.locks.items ≡ [] }
        ensures breaks { view_state result.breaks ≡ Unreached }
    {
        Walk {
            alloc,
            locks: Vec::new(alloc),
            breaks: State::Unreached,
        }
    }

    /// Checks a `break`, which leaves the enclosing loop, and adds its flow state to those at the loop's breaks.
    fn break_loop(&mut self, tracked: Tracked) -> Tracked
        ensures state { view_state result.state ≡ Unreached }
        ensures touched { result.touched.numbers.list ≡ tracked.touched.numbers.list }
        ensures breaks { view_state self.new.breaks ≡ meet (view_state self.old.breaks) (with_each Full self.old.locks.items (view_state tracked.state)) }
        ensures locks { self.new.locks.items ≡ self.old.locks.items }
    {
        let before = mem::replace(&mut self.breaks, State::Unreached);
        let at_exit = tracked.state.filled(&self.locks);
        self.breaks = meet(before, at_exit);
        Tracked {
            state: State::Unreached,
            touched: tracked.touched,
        }
    }

    /// Checks that a `continue` may return to the head of the enclosing loop.
    fn check_continue(&self, around: Option<&Loop>, state: State) -> Result<(), Stop>
        ensures { Ends result (settled None (continue_demanded (option_map (λ l. view_loop l.now) around.entry)
            (with_each Full self.now.locks.items (view_state state)))) }
    {
        let Some(around) = around else {
            return Ok(());
        };
        let at_exit = state.filled(&self.locks);
        check_head(&at_exit, &around.head, around.span)
    }

    /// Checks a declaration or statement that declares one local and locks another one, that is, lends it
    /// until the end of the block. The locked local's name is at the given source position.
    fn lock(
        &mut self,
        number: usize,
        span: Span,
        locked: usize,
        tracked: Tracked,
    ) -> Result<Tracked, Stop>
        ensures gives { Gives result (run (rule_locked number (place_of_span span) locked (view_state tracked.state)))
            (and_local locked tracked.touched.numbers.list) }
        ensures breaks { IfOk result (λ _. view_state self.new.breaks ≡ view_state self.old.breaks) }
        ensures locks { IfOk result (λ _. self.new.locks.items ≡ and_local locked self.old.locks.items) }
    {
        let mut settled = Settled::new();
        settled.look(&tracked.state, span, locked);
        settled.end()?;
        let lent = tracked.with_fullness(locked, Fullness::Locked);
        let mut following = lent.with_fullness(number, Fullness::Full);
        following.touch(locked)?;
        self.locks.push(locked)?;
        Ok(following)
    }

    /// Checks a statement. The argument `around` is the enclosing loop, if any.
    #[cycle(statement)]
    fn check_statement(
        &mut self,
        around: Option<&Loop>,
        statement: &Stmt,
        tracked: Tracked,
    ) -> Result<Tracked, Stop>
        ensures known { GivesKnown result (run (rule_statement (stands (option_map (λ l. view_loop l.now) around.entry) self.old.locks.items)
            (view_statement statement.now) (known (view_state tracked.state) (view_state self.old.breaks))))
            (touched_statement (view_statement statement.now) tracked.touched.numbers.list) (view_state self.new.breaks) }
        ensures locks { IfOk result (λ _. self.new.locks.items ≡ self.old.locks.items) }
    {
        match statement {
            Stmt::Block { items, .. } => self.check_block(around, items, tracked),
            Stmt::Empty => Ok(tracked),
            Stmt::Evaluate { value, .. } => evaluate(self.alloc, value, tracked),
            Stmt::Swap { left, right, .. } => swap(self.alloc, left, right, tracked),
            Stmt::If {
                condition,
                then,
                otherwise,
                ..
            } => {
                let inside = evaluate(self.alloc, condition, tracked)?;
                let other = inside.state.copy(self.alloc)?;
                let following = self.check_statement(around, then, inside)?;
                let inside_other = Tracked {
                    state: other,
                    touched: following.touched,
                };
                let after_other = self.check_statement(around, otherwise, inside_other)?;
                Ok(Tracked {
                    state: meet(following.state, after_other.state),
                    touched: after_other.touched,
                })
            }
            Stmt::While {
                span,
                condition,
                body,
            } => self.check_loop(body, condition, *span, tracked),
            Stmt::Return { value, .. } => Ok(left(return_value(self.alloc, value, tracked)?)),
            Stmt::Break => Ok(self.break_loop(tracked)),
            Stmt::Continue => {
                self.check_continue(around, tracked.state)?;
                Ok(Tracked {
                    state: State::Unreached,
                    touched: tracked.touched,
                })
            }
            Stmt::Throw { value, .. } => Ok(left(throw_value(self.alloc, value, tracked)?)),
            Stmt::Try {
                body,
                clauses,
                default,
                ..
            } => {
                let before = tracked.state.copy(self.alloc)?;
                let inside = Tracked {
                    state: tracked.state,
                    touched: Touched::none(self.alloc),
                };
                let end = self.check_statement(around, body, inside)?;
                let start = before.emptied(&end.touched);
                let following = end.after_body(tracked.touched);
                let following = self.check_clauses(around, &start, clauses, following)?;
                match default {
                    None => Ok(following),
                    Some(body) => self.check_clause(around, &start, None, &body.items, following),
                }
            }
        }
    }

    /// Checks a loop whose `while` is at this source position.
    #[cycle(statement)]
    fn check_loop(
        &mut self,
        body: &Stmt,
        condition: &Expr,
        span: Span,
        tracked: Tracked,
    ) -> Result<Tracked, Stop>
        ensures known { GivesKnown result (run (rule_statement in_function
            (While (place_of_span span) (view_expression condition.now) (view_statement body.now))
            (known (view_state tracked.state) (view_state self.old.breaks))))
            (touched_statement (view_statement body.now) (touched (view_expression condition.now) tracked.touched.numbers.list))
            (view_state self.new.breaks) }
        ensures locks { IfOk result (λ _. self.new.locks.items ≡ self.old.locks.items) }
    {
        let head = tracked.state.copy(self.alloc)?;
        let inside = evaluate(self.alloc, condition, tracked)?;
        let exit = inside.state.copy(self.alloc)?;
        let around = Loop { span, head };
        let locks = mem::replace(&mut self.locks, Vec::new(self.alloc));
        let outer = mem::replace(&mut self.breaks, State::Unreached);
        let end = self.check_statement(Some(&around), body, inside)?;
        let breaks = mem::replace(&mut self.breaks, outer);
        self.locks = locks;
        check_head(&end.state, &around.head, span)?;
        // Control leaves a loop either after its condition was evaluated or by a break.
        Ok(Tracked {
            state: meet(exit, breaks),
            touched: end.touched,
        })
    }

    /// Checks the clauses of a `catch`, each of which begins with the same flow state.
    #[cycle(statement)]
    fn check_clauses(
        &mut self,
        around: Option<&Loop>,
        start: &State,
        clauses: &[Clause],
        tracked: Tracked,
    ) -> Result<Tracked, Stop>
        ensures known { GivesClauses (stands (option_map (λ l. view_loop l.now) around.entry) self.old.locks.items) (view_state start.now) result
            (clauses_of clauses.now) (known (view_state tracked.state) (view_state self.old.breaks)) tracked.touched.numbers.list
            (view_state self.new.breaks) }
        ensures locks { IfOk result (λ _. self.new.locks.items ≡ self.old.locks.items) }
    {
        let mut following = tracked;
        for clause in clauses {
            following = self.check_clause(around, start, clause.number, &clause.items, following)?;
        }
        Ok(following)
    }

    /// Checks a catch clause, given the flow state at its beginning. The int of the exception, if it has one, is stored in a local.
    #[cycle(statement)]
    fn check_clause(
        &mut self,
        around: Option<&Loop>,
        start: &State,
        number: Option<usize>,
        items: &[Item],
        before: Tracked,
    ) -> Result<Tracked, Stop>
        ensures known { GivesKnown result (and_then (run (rule_items (stands (option_map (λ l. view_loop l.now) around.entry) self.old.locks.items)
            (items_of items.now) (known (with_caught number (view_state start.now)) (view_state self.old.breaks))))
            (λ k. Ok (or_clause (view_state before.state) (items_of items.now) k))) (touched_items (items_of items.now) before.touched.numbers.list)
            (view_state self.new.breaks) }
        ensures locks { IfOk result (λ _. self.new.locks.items ≡ self.old.locks.items) }
    {
        let mut caught = start.copy(self.alloc)?;
        if let Some(number) = number {
            caught.set(number, Fullness::Full);
        }
        let inside = Tracked {
            state: caught,
            touched: before.touched,
        };
        let end = self.check_block(around, items, inside)?;
        Ok(Tracked {
            state: meet(before.state, end.state),
            touched: end.touched,
        })
    }

    /// Checks a block. At the end of the block, the locals that its declarations and statements have locked (lent until the
    /// block's end) are full again, that is, their values are no longer lent.
    #[cycle(statement)]
    fn check_block(
        &mut self,
        around: Option<&Loop>,
        items: &[Item],
        tracked: Tracked,
    ) -> Result<Tracked, Stop>
        ensures known { GivesKnown result (and_then (run (rule_items (stands (option_map (λ l. view_loop l.now) around.entry) self.old.locks.items)
            (items_of items.now) (known (view_state tracked.state) (view_state self.old.breaks)))) (λ k. Ok (at_end (items_of items.now) k)))
            (touched_items (items_of items.now) tracked.touched.numbers.list) (view_state self.new.breaks) }
        ensures locks { IfOk result (λ _. self.new.locks.items ≡ self.old.locks.items) }
    {
        let mark = self.locks.len();
        let end = self.check_items(around, items, tracked)?;
        let state = end.state.filled(&self.locks[mark..]);
        self.locks.truncate(mark);
        Ok(Tracked {
            state,
            touched: end.touched,
        })
    }

    /// Checks the declarations and statements of a block. The locals that they lock (lend until the block's end) stay locked afterwards.
    #[cycle(statement)]
    #[tactic(auto, using(std::proofs::lemmas::List::drop_more, std::proofs::lemmas::List::append_assoc))]
    pub(crate) fn check_items(
        &mut self,
        around: Option<&Loop>,
        items: &[Item],
        tracked: Tracked,
    ) -> Result<Tracked, Stop>
        ensures known { GivesKnown result (run (rule_items (stands (option_map (λ l. view_loop l.now) around.entry) self.old.locks.items)
            (items_of items.now) (known (view_state tracked.state) (view_state self.old.breaks))))
            (touched_items (items_of items.now) tracked.touched.numbers.list) (view_state self.new.breaks) }
        ensures locks { IfOk result (λ _. self.new.locks.items ≡ self.old.locks.items ++ locks_of (items_of items.now)) }
    {
        let mut following = tracked;
        for item in items {
            following = self.check_item(around, item, following)?;
        }
        Ok(following)
    }

    /// Checks a declaration or statement of a block.
    #[cycle(statement)]
    fn check_item(
        &mut self,
        around: Option<&Loop>,
        item: &Item,
        tracked: Tracked,
    ) -> Result<Tracked, Stop>
        ensures known { GivesKnown result (run (rule_item (stands (option_map (λ l. view_loop l.now) around.entry) self.old.locks.items)
            (view_item item.now) (known (view_state tracked.state) (view_state self.old.breaks))))
            (touched_item (view_item item.now) tracked.touched.numbers.list) (view_state self.new.breaks) }
        ensures locks { IfOk result (λ _. self.new.locks.items ≡ self.old.locks.items ++ locked_by (view_item item.now)) }
    {
        match item {
            Item::Execute { statement } => self.check_statement(around, statement, tracked),
            Item::Local { number, value, .. } => declare(self.alloc, *number, value, tracked),
            Item::Region { number, .. } => Ok(tracked.with_fullness(*number, Fullness::Full)),
            Item::Open {
                number,
                span,
                key,
                ..
            } => self.lock(*number, *span, *key, tracked),
            Item::Alias {
                number,
                span,
                source,
                ..
            } => self.lock(*number, *span, *source, tracked),
            Item::DynamicRegion { number, .. } => {
                Ok(tracked.with_fullness(*number, Fullness::Full))
            }
        }
    }
}
