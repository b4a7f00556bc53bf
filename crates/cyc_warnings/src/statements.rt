//! This file finds warnings in declarations and statements, and in the expressions in them.
use crate::constants::constant_of;
use crate::expressions::{is_bare, is_lost, is_null};
use crate::finder::Finder;
use crate::layout::{dangling, misleading, repeated};
use crate::locals::{Local, Use};
use crate::places::{span_of, span_of_item, span_of_leaving};
use crate::shapes::{Home, INT, Shape};
use crate::warning::Warning;
use cyc_syntax::{Clause, Expr, Initial, Item, Stmt};
use cyc_words::Span;

/// Returns true if a declaration or statement of a block is only a semicolon.
pub(crate) fn is_empty(item: &Item) -> bool {
    matches!(
        item,
        Item::Statement {
            statement: Stmt::Empty { .. },
        }
    )
}

/// Returns the number of elements of the array that an expression creates.
fn length_of(expression: &Expr) -> Option<u32> {
    match expression {
        Expr::Bracketed { inner, .. } => length_of(inner),
        Expr::New { value, .. } | Expr::RegionNew { value, .. } => match &**value {
            Initial::Array { length, .. } => constant_of(length),
            _ => None,
        },
        _ => None,
    }
}

impl Finder {
    // ---- items

    /// Searches the declarations and statements of a block for warnings. Returns true if the last of them always leaves the block. The
    /// analysis does not look for exits inside loops.
    #[cycle(statements)]
    pub(crate) fn look_at_block(&mut self, items: &[Item]) -> bool {
        let depth = self.known.depth();
        let mut left_by = None;
        let mut is_said = false;
        let mut leaves = false;
        for item in items {
            leaves = false;
            if !is_empty(item) {
                if let (Some(last), false) = (left_by, is_said) {
                    self.warn_after(span_of_item(item), Warning::Unreachable, last);
                    is_said = true;
                }
                if let Item::Statement { statement } = item {
                    leaves = self.look_at_statement(statement);
                } else {
                    self.look_at_declaration(item);
                }
                left_by = if leaves {
                    Some(span_of_leaving(item))
                } else {
                    None
                };
            }
        }
        self.known.unbind(depth);
        self.look_at_layout(items);
        leaves
    }

    /// Searches the declarations and statements of a block for those that seem to belong to the statement before them.
    fn look_at_layout(&mut self, items: &[Item]) {
        let mut last = None;
        for item in items {
            if !is_empty(item) {
                if let Some(last) = last {
                    self.look_at_neighbours(last, item);
                }
                last = Some(item);
            }
        }
    }

    fn look_at_neighbours(&mut self, last: &Item, item: &Item) {
        if let Item::Statement { statement } = last {
            let place = span_of_item(item);
            if let Some(head) = misleading(span_of_item(last), statement, place) {
                self.warn_after(place, Warning::MisleadingIndent, head);
            }
        }
    }

    fn look_at_declaration(&mut self, item: &Item) {
        match item {
            Item::Statement { .. } => {}
            Item::Local {
                of_type,
                name,
                value,
            } => {
                let shape = Shape::written(of_type, self.known.unique);
                let mut local = Local::new(name.span, shape);
                local.is_ordinary = true;
                if let Some(value) = value {
                    self.look_at_initial_value(shape, value);
                    self.fill_from(&mut local, value);
                }
                if self.is_local(*name) {
                    self.warn(name.span, Warning::HidesLocal);
                }
                self.declare(*name, local);
            }
            Item::Region { handle, key, .. } => {
                if let Some(key) = key {
                    self.note(*key, Use::Looked);
                }
                self.declare_handle(*handle);
            }
            Item::Alias {
                of_type,
                name,
                source,
                ..
            } => {
                self.note(*source, Use::Looked);
                let shape = Shape::written(of_type, self.known.unique);
                self.declare(*name, Local::new(name.span, shape));
            }
            Item::DynamicRegion { key, .. } => self.declare_key(*key),
        }
    }

    /// Searches the initial value of a local of this type for warnings.
    fn look_at_initial_value(&mut self, shape: Shape, value: &Expr) {
        if shape.is_char() {
            self.look_at_byte(value);
        }
        self.look_at(value, Use::Value);
    }

    /// Records facts about a local's initial value: if it is other than `NULL`, its number of elements if it is an array, and the region of
    /// a unique pointer.
    fn fill_from(&self, local: &mut Local, value: &Expr) {
        local.is_filled = !is_null(value);
        local.length = length_of(value);
        if matches!(local.shape.home, Home::LeftOut) && self.is_unique(value) {
            local.shape.home = Home::Unique;
        }
    }

    // ---- statements

    /// Searches a statement for warnings. Returns true if the statement always leaves its block.
    #[cycle(statements)]
    pub(crate) fn look_at_statement(&mut self, statement: &Stmt) -> bool {
        match statement {
            Stmt::Block { block } | Stmt::Labelled { block, .. } => self.look_at_block(
                &block.items,
            ),
            Stmt::Expression { value } => {
                self.look_at_value(value);
                false
            }
            Stmt::Swap { left, right } => {
                self.look_at(left, Use::Taken);
                self.look_at(right, Use::Taken);
                false
            }
            Stmt::If {
                span,
                condition,
                then,
                otherwise,
            } => {
                self.look_at_condition(*span, condition);
                let leaves = self.look_at_statement(then);
                let Some(otherwise) = otherwise else {
                    self.look_at_branch(then);
                    return false;
                };
                self.look_at_chain(condition, otherwise);
                self.look_at_statement(otherwise) && leaves
            }
            Stmt::While {
                span,
                condition,
                body,
            } => {
                let head = self.begin_loop(*span, condition, body);
                self.look_at_statement(body);
                self.end_loop(head, body);
                false
            }
            Stmt::Return { value, .. } => {
                self.count_exit();
                self.look_at_returned(value);
                true
            }
            Stmt::Throw { value, .. } => {
                self.count_exit();
                if let Some(value) = value {
                    self.look_at(value, Use::Value);
                }
                true
            }
            Stmt::Try {
                body,
                clauses,
                default,
                ..
            } => {
                self.look_at_statement(body);
                self.look_at_clauses(clauses);
                if let Some(items) = default {
                    self.look_at_block(items);
                }
                false
            }
            Stmt::Empty { .. } => false,
            Stmt::Break { .. } => {
                self.count_exit();
                true
            }
            Stmt::Continue { .. } => true,
        }
    }

    #[cycle(statements)]
    fn look_at_clauses(&mut self, clauses: &[Clause]) {
        for clause in clauses {
            let depth = self.known.depth();
            if let Some(variable) = clause.variable {
                self.declare(variable, Local::new(variable.span, INT));
            }
            self.look_at_block(&clause.items);
            self.known.unbind(depth);
        }
    }

    /// Counts one more statement that may leave a loop.
    fn count_exit(&mut self) {
        self.exits = self.exits.saturating_add(1);
    }

    fn look_at_returned(&mut self, value: &Option<Expr>) {
        if let Some(value) = value {
            if self.gives_char {
                self.look_at_byte(value);
            }
            self.look_at(value, Use::Value);
        }
    }

    /// Searches an expression that is a statement for warnings.
    fn look_at_value(&mut self, value: &Expr) {
        let before = self.effects;
        self.look_at(value, Use::Dropped);
        if is_bare(value) && (self.effects == before || is_lost(value)) {
            self.warn(span_of(value), Warning::NoEffect);
        }
    }

    /// Searches the condition of the statement at this source position for warnings.
    fn look_at_condition(&mut self, span: Span, condition: &Expr) {
        if let Expr::Assign { .. } = condition {
            self.warn(span, Warning::ConditionAssigns);
        }
        self.look_at(condition, Use::Looked);
    }

    /// Searches the branch of an `if` without `else` for warnings.
    fn look_at_branch(&mut self, then: &Stmt) {
        if let Stmt::Empty { span } = then {
            self.warn(*span, Warning::EmptyIf);
        }
        if let Some(span) = dangling(then) {
            self.warn(span, Warning::DanglingElse);
        }
    }

    /// Searches the conditions after an `else` for one that is the same as the condition before it.
    fn look_at_chain(&mut self, condition: &Expr, otherwise: &Stmt) {
        if let Some(span) = repeated(condition, otherwise) {
            self.warn(span, Warning::SameCondition);
        }
    }

    /// Searches the condition of the loop at this source position for warnings, and tests if the loop's body is empty.
    pub(crate) fn look_at_head(&mut self, span: Span, condition: &Expr, body: &Stmt) {
        let before = self.effects;
        self.look_at_condition(span, condition);
        if let Stmt::Empty { span } = body {
            if self.effects == before {
                self.warn(*span, Warning::EmptyWhile);
            }
        }
    }
}
