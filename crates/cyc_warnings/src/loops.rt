//! This file finds loops whose conditions nothing changes.
use crate::expressions::is_double;
use crate::finder::Finder;
use crate::locals::Idle;
use crate::statements::is_empty;
use cyc_syntax::{Expr, Item, PrefixOperator, Stmt};
use cyc_words::Span;

/// Returns true if the declarations and statements of a block are only semicolons.
fn are_empty(items: &[Item]) -> bool {
    for item in items {
        if !is_empty(item) {
            return false;
        }
    }
    true
}

/// Returns true if a statement is only a semicolon, or a block of semicolons.
fn is_blank(statement: &Stmt) -> bool {
    match statement {
        Stmt::Empty { .. } => true,
        Stmt::Block { block } | Stmt::Labelled { block, .. } => are_empty(&block.items),
        _ => false,
    }
}

/// Returns true if a prefix operator only computes a value. Two minus signs that stand together are warned of as such, and so no loop with
/// them in its condition is.
fn is_steady(span: Span, operator: PrefixOperator, operand: &Expr) -> bool {
    match operator {
        PrefixOperator::Dereference | PrefixOperator::AddressOf => false,
        PrefixOperator::Negate => !is_double(span, operand),
        PrefixOperator::Not | PrefixOperator::Complement => true,
    }
}

/// What is known of a loop before its body is searched.
#[derive(Clone, Copy)]
pub(crate) struct LoopHead {
    idle: Idle,
    /// True if only assignments to the watched locals can change the condition's value.
    is_steady: bool,
    changes: usize,
    exits: usize,
}

impl Finder {
    /// Searches the head of a loop for warnings, and watches the locals of its condition.
    pub(crate) fn begin_loop(&mut self, span: Span, condition: &Expr, body: &Stmt) -> LoopHead {
        let first = self.locals.watched();
        let is_steady = self.watch(condition);
        let end = self.locals.watched();
        let head = LoopHead {
            idle: Idle { span, first, end },
            is_steady,
            changes: self.locals.changes_in(first, end),
            exits: self.exits,
        };
        self.look_at_head(span, condition, body);
        head
    }

    /// Notes a loop whose body, which has been searched, neither changes the watched locals nor leaves the loop.
    pub(crate) fn end_loop(&mut self, head: LoopHead, body: &Stmt) {
        let LoopHead {
            idle,
            is_steady,
            changes,
            exits,
        } = head;
        let is_changed = self.locals.changes_in(idle.first, idle.end) != changes;
        let is_idle = is_steady && idle.first < idle.end && !is_changed && self.exits == exits;
        if is_idle && !is_blank(body) {
            self.locals.add_idle(idle);
        }
    }

    /// Watches the locals on which an expression depends. Returns true if only assignments to these can change the expression's value.
    fn watch(&mut self, expression: &Expr) -> bool {
        match expression {
            Expr::Number { .. } | Expr::Character { .. } | Expr::Null { .. } => true,
            Expr::Variable { name } => {
                let is_local = self.is_local(*name);
                if is_local {
                    self.locals.watch(self.known.local(name.name.number));
                }
                is_local
            }
            Expr::Bracketed { inner, .. } => self.watch(inner),
            Expr::NumberOfElements { pointer, .. } => self.watch(pointer),
            Expr::LowByteOf { value, .. } => self.watch(value),
            Expr::Prefixed {
                span,
                operator,
                operand,
            } => is_steady(*span, *operator, operand) && self.watch(operand),
            Expr::Binary { first, rest } => {
                let mut is_watched = self.watch(first);
                for operation in rest {
                    is_watched = self.watch(&operation.operand) && is_watched;
                }
                is_watched
            }
            _ => false,
        }
    }
}
