//! Emits the code of statements. Each method of this file appends code to the existing code.
ghost use Rattle.std.specs.Prelude.{◌≡◌, ◌+◌, ◌≤◌, length, option_map};
ghost use Rattle.cyc_types.specs.TypeView.{view_ty};
ghost use Rattle.cyc_types.specs.TypedTreeView.{view_converted, view_expression, view_statement, items_of};
ghost use Rattle.cyc_meaning.specs.FrameCount.{kept_by, kept_by_items};
ghost use Rattle.cyc_lower_proof.specs.inside.ControlCode.{inside_try, is_nothing};
ghost use Rattle.cyc_lower_proof.specs.inside.ValueCode.{blank_code};
ghost use Rattle.cyc_lower_proof.specs.inside.Lowering.{declaration_code, statement_code, items_code};
ghost use Rattle.cyc_sizes.specs.inside.Needs.{kept_by_item};
ghost use Rattle.cyc_lower.specs.inside.Emission.{Appends, most_locals, item_code, exits_after, free_after, then_code, view_starts};

use crate::emitter::Emitter;
use crate::exits::{exits_after, inside_try};
use crate::locals::slot_of;
use crate::loops::goes_through;
use crate::marks::{place_of_item, place_of_statement};
use crate::operands::kind_of;
use crate::starts::Starts;
use cyc_lower_proof::Exits;
use cyc_plain::{Instruction, Operand};
use cyc_sizes::words_of;
use cyc_types::Ty;
use cyc_types::typed::{Converted, Expr, Item, Kind, LogicalOperator, Stmt};
use std::alloc::AllocError;

/// Returns the first slot for temporaries after a declaration or statement of a block. After a lexical region
/// is opened, the temporaries begin after the slot with the number of regions open before.
fn free_after(item: &Item, free: usize) -> usize
    requires { free + kept_by_item item.now ≤ most_locals }
    ensures { result ≡ free_after item.now free }
{
    match item {
        Item::Region { .. } => free + 1,
        Item::Execute { .. }
        | Item::Local { .. }
        | Item::Open { .. }
        | Item::Alias { .. }
        | Item::DynamicRegion { .. } => free,
    }
}

/// Returns true if a statement is empty, as an omitted `else` part is.
fn is_nothing(statement: &Stmt) -> bool
    ensures { result ≡ is_nothing (view_statement statement.now) }
{
    matches!(statement, Stmt::Empty)
}

impl Emitter {
    /// Emits the declaration of a local without an initial value. Only a char receives a value, since the word of a char must be below 256.
    fn leave_blank(&mut self, kind: Kind, slot: usize) -> Result<(), AllocError>
        ensures { Appends result self.old self.new (blank_code kind slot) }
    {
        match kind {
            Kind::Char => self.emit(Instruction::Move {
                destination: slot,
                source: Operand::Word { word: 0 },
            }),
            Kind::Int | Kind::Nullable | Kind::NonNull | Kind::Fat | Kind::Handle | Kind::Key => Ok(
                (),
            ),
        }
    }

    /// Emits the declaration of a local, with its initial value if it has one.
    fn lower_declaration(
        &mut self,
        starts: &Starts,
        number: usize,
        of_type: &Ty,
        value: &Option<Converted>,
        free: usize,
    ) -> Result<(), AllocError>
        requires { free ≤ most_locals + length self.old.code.items }
        ensures { Appends result self.old self.new (declaration_code (view_starts starts.now) number (view_ty of_type.now)
            (option_map view_converted value.now) (length self.old.code.items) free) }
    {
        let Some(value) = value else {
            return self.leave_blank(kind_of(of_type), slot_of(starts, number));
        };
        self.lower_initial(starts, value, slot_of(starts, number), free)
    }

    /// Emits an `if` statement without an `else` part.
    #[cycle(statement)]
    fn lower_then(
        &mut self,
        starts: &Starts,
        then: &Stmt,
        condition: &Expr,
        exits: Exits,
        free: usize,
    ) -> Result<(), AllocError>
        requires slots { free + kept_by (view_statement then.now) ≤ most_locals }
        requires begun { exits.head ≤ length self.old.code.items }
        ensures { Appends result self.old self.new (then_code (view_starts starts.now) (view_expression condition.now) (view_statement then.now)
            (length self.old.code.items) exits free) }
    {
        let tested = self.lower_branch(starts, LogicalOperator::AndThen, condition, free)?;
        let over = self.reserve()?;
        self.lower_statement(starts, then, exits, free)?;
        self.fail_here(over, &tested);
        Ok(())
    }

    /// Emits a statement; the handlers and regions to close when it leaves a loop or the function (its exits) are given.
    #[cycle(statement)]
    pub(crate) fn lower_statement(
        &mut self,
        starts: &Starts,
        statement: &Stmt,
        exits: Exits,
        free: usize,
    ) -> Result<(), AllocError>
        requires slots { free + kept_by (view_statement statement.now) ≤ most_locals }
        requires begun { exits.head ≤ length self.old.code.items }
        ensures { Appends result self.old self.new (statement_code (view_starts starts.now) (view_statement statement.now)
            (length self.old.code.items) exits free) }
    {
        let outer = self.enter(place_of_statement(statement));
        let made = self.lower_form(starts, statement, exits, free);
        self.leave(outer);
        made
    }

    /// Emits a statement whose source position is already set.
    #[cycle(statement)]
    fn lower_form(
        &mut self,
        starts: &Starts,
        statement: &Stmt,
        exits: Exits,
        free: usize,
    ) -> Result<(), AllocError>
        requires slots { free + kept_by (view_statement statement.now) ≤ most_locals }
        requires begun { exits.head ≤ length self.old.code.items }
        ensures { Appends result self.old self.new (statement_code (view_starts starts.now) (view_statement statement.now)
            (length self.old.code.items) exits free) }
    {
        match statement {
            Stmt::Block { items, .. } => self.lower_items(starts, items, exits, free),
            Stmt::Empty => Ok(()),
            Stmt::Evaluate { value, .. } => self.discard(starts, value, free),
            Stmt::Swap { left, right, .. } => self.lower_swap(starts, left, right, free),
            Stmt::If {
                condition,
                then,
                otherwise,
                ..
            } => {
                if is_nothing(otherwise) {
                    return self.lower_then(starts, then, condition, exits, free);
                }
                let tested = self.lower_branch(starts, LogicalOperator::AndThen, condition, free)?;
                let over_then = self.reserve()?;
                self.lower_statement(starts, then, exits, free)?;
                let over_otherwise = self.reserve()?;
                self.fail_here(over_then, &tested);
                self.lower_statement(starts, otherwise, exits, free)?;
                self.jump_here(over_otherwise);
                Ok(())
            }
            Stmt::While {
                condition,
                body,
                ..
            } => {
                if goes_through(starts, condition, body) {
                    return self.lower_through(starts, body, condition, exits, free);
                }
                self.lower_loop(starts, body, condition, exits, free)
            }
            Stmt::Return { value, .. } => self.lower_return(starts, value, exits, free),
            Stmt::Break => self.lower_break(exits),
            Stmt::Continue => self.lower_continue(exits),
            Stmt::Throw { tag, value, .. } => self.lower_throw(starts, *tag, value, free),
            Stmt::Try {
                body,
                clauses,
                default,
                ..
            } => {
                let following = self.begin_try(starts, free)?;
                let opening = self.reserve()?;
                self.lower_statement(starts, body, inside_try(exits, free), following)?;
                let out = self.end_body(opening, free)?;
                self.restore_scopes(starts, free)?;
                self.lower_clauses(starts, clauses, out, exits, free)?;
                self.lower_default(starts, default, exits, free)?;
                self.jump_here(out);
                Ok(())
            }
        }
    }

    /// Emits one declaration or statement of a block.
    #[cycle(statement)]
    fn lower_item(
        &mut self,
        starts: &Starts,
        item: &Item,
        exits: Exits,
        free: usize,
    ) -> Result<(), AllocError>
        requires slots { free + kept_by_item item.now ≤ most_locals }
        requires begun { exits.head ≤ length self.old.code.items }
        ensures { Appends result self.old self.new (item_code (view_starts starts.now) item.now (length self.old.code.items) exits free) }
    {
        let outer = self.enter(place_of_item(item));
        let made = self.lower_entry(starts, item, exits, free);
        self.leave(outer);
        made
    }

    /// Emits a declaration or statement of a block whose source position is already set.
    #[cycle(statement)]
    fn lower_entry(
        &mut self,
        starts: &Starts,
        item: &Item,
        exits: Exits,
        free: usize,
    ) -> Result<(), AllocError>
        requires slots { free + kept_by_item item.now ≤ most_locals }
        requires begun { exits.head ≤ length self.old.code.items }
        ensures { Appends result self.old self.new (item_code (view_starts starts.now) item.now (length self.old.code.items) exits free) }
    {
        match item {
            Item::Execute { statement } => self.lower_statement(starts, statement, exits, free),
            Item::Local {
                number,
                of_type,
                value,
                ..
            } => self.lower_declaration(starts, *number, of_type, value, free),
            Item::Region { number, .. } => self.open_lexical(starts, *number, free),
            // The word of a key is the handle of the region that the key opens.
            Item::Open { number, key, .. } => {
                let source = Operand::Slot {
                    number: slot_of(starts, *key),
                };
                self.name_local(starts, 1, *number, source)
            }
            Item::Alias {
                number,
                of_type,
                source,
                ..
            } => {
                let source = Operand::Slot {
                    number: slot_of(starts, *source),
                };
                self.name_local(starts, words_of(of_type), *number, source)
            }
            Item::DynamicRegion { number, .. } => self.open_dynamic(starts, *number, free),
        }
    }

    /// Emits the declarations and statements of a block. At the end of the block, each lexical region that the block opened is
    /// closed, newest first.
    #[cycle(statement)]
    pub(crate) fn lower_items(
        &mut self,
        starts: &Starts,
        items: &[Item],
        exits: Exits,
        free: usize,
    ) -> Result<(), AllocError>
        requires slots { free + kept_by_items (items_of items.now) ≤ most_locals }
        requires begun { exits.head ≤ length self.old.code.items }
        ensures { Appends result self.old self.new (items_code (view_starts starts.now) (items_of items.now) (length self.old.code.items) exits free) }
    {
        let mut inside = exits;
        let mut following = free;
        for item in items {
            self.lower_item(starts, item, inside, following)?;
            inside = exits_after(item, inside, following);
            following = free_after(item, following);
        }
        while following > free {
            following -= 1;
            self.close_lexical(following)?;
        }
        Ok(())
    }
}
