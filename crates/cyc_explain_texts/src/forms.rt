//! The syntactic forms of a function's body (declarations, statements, expressions) as a list in source order, each after its components.
//! Code that visits the list of forms needs no recursion.
use crate::wanted::{Wanted, wanted_by, wanted_of};
use cyc_operands::span_of;
use cyc_syntax::{
    Block, Clause, Expr, Ident, Initial, Item, Operation, Postfix, Stmt, WrittenType,
};
use cyc_words::Span;
use std::alloc::Global;

/// A number larger than the number of syntactic forms (declarations, statements, expressions) in any source text.
const MOST: usize = 1_000_000;

/// The use of an expression's value, such as an operand or a call argument.
#[derive(Clone, Copy)]
pub enum Role<'b> {
    /// The value is an operand that must satisfy this requirement.
    Operand(Wanted),
    /// The value is assigned to the given lvalue.
    Assigned(&'b Expr),
    /// The value initialises the local with the given name and written type.
    Local(Ident, &'b WrittenType),
    Returned,
    /// The value initialises the field with the given index, of a struct with the given name and regions.
    Field(Ident, &'b [Ident], usize),
    /// The value is the argument with the given index, in a call of the given function with the given arguments.
    Argument(Ident, &'b [Expr], usize),
}

impl Role<'_> {
    /// Returns true if this use of a value puts a requirement on the value.
    pub fn is_asked(&self) -> bool {
        !matches!(self, Role::Operand(Wanted::Nothing))
    }

    /// Returns true if the use of a value only examines it, so that a unique pointer is not moved.
    pub fn is_looked_at(&self) -> bool {
        match self {
            Role::Operand(wanted) => wanted.is_looked_at(),
            _ => false,
        }
    }
}

/// A syntactic form of a function's body (a declaration, statement or expression) that may have requirements. The subexpressions and
/// substatements of a form are separate list entries.
#[derive(Clone, Copy)]
pub enum Form<'b> {
    Expression {
        expression: &'b Expr,
        role: Role<'b>,
    },
    /// A statement, with the source position of the end of the enclosing block, or `None` directly in a function's body.
    Statement {
        statement: &'b Stmt,
        end: Option<Span>,
    },
    Item {
        item: &'b Item,
        end: Option<Span>,
    },
    /// A list entry that marks the start of the declarations and statements of a block.
    Items {
        items: &'b Vec<Item>,
    },
    /// A list entry that marks the start of the declarations and statements of a catch clause.
    Clause {
        clause: &'b Clause,
    },
    /// A list entry that marks the beginning of a block, with the block's label and its source position.
    Begin {
        label: Option<Ident>,
        span: Span,
    },
}

/// The list of the syntactic forms (declarations, statements, expressions) of a function's body while it is being built.
#[derive(Drop)]
pub struct Forms<'b> {
    /// The syntactic forms that still have to be split into their components; the next form to split is the last.
    pending: Vec<Form<'b>>,
    /// The syntactic forms (declarations, statements, expressions) that were already split into their components. In this list each form
    /// precedes its components, and the components are listed from last to first.
    pub listed: Vec<Form<'b>>,
    /// True if memory never ran out while the list was built, so that it lacks no declaration, statement or expression.
    pub is_whole: bool,
}

/// Returns the list of the syntactic forms (declarations, statements, expressions) of a function's body.
pub fn forms_of<'b>(alloc: Global, body: &'b Block) -> Forms<'b> {
    let mut forms = Forms {
        pending: Vec::new(alloc),
        listed: Vec::new(alloc),
        is_whole: true,
    };
    forms.add_items(&body.items, None);
    for _ in 0..MOST {
        if !forms.take_next() {
            break;
        }
    }
    forms
}

impl<'b> Forms<'b> {
    /// Moves the next pending syntactic form, if there is one, to the list of the forms that are already split. Adds the form's
    /// components to the pending forms.
    fn take_next(&mut self) -> bool {
        match self.pending.pop() {
            Some(form) => {
                self.is_whole = self.listed.push(form).is_ok() && self.is_whole;
                self.add_parts_of(&form);
                true
            }
            None => false,
        }
    }

    /// Adds the components of a syntactic form to the forms that are still to be split.
    fn add_parts_of(&mut self, form: &Form<'b>) {
        match form {
            Form::Expression { expression, .. } => self.add_parts(expression),
            Form::Statement { statement, end } => self.add_inner(statement, *end),
            Form::Item { item, end } => self.add_in_item(item, *end),
            Form::Items { .. } | Form::Clause { .. } | Form::Begin { .. } => {}
        }
    }

    fn add(&mut self, form: Form<'b>) {
        self.is_whole = self.pending.push(form).is_ok() && self.is_whole;
    }

    // ---- items

    fn add_items(&mut self, items: &'b Vec<Item>, end: Option<Span>) {
        self.add(Form::Items { items });
        for item in items {
            self.add(Form::Item { item, end });
        }
    }

    /// Adds the components of a declaration or statement to the forms that are still to be split.
    fn add_in_item(&mut self, item: &'b Item, end: Option<Span>) {
        match item {
            Item::Statement { statement } => self.add_statement(statement, end),
            Item::Local {
                name,
                of_type,
                value: Some(value),
            } => self.add_expression(value, Role::Local(*name, of_type)),
            _ => {}
        }
    }

    // ---- statements

    fn add_statement(&mut self, statement: &'b Stmt, end: Option<Span>) {
        self.add(Form::Statement { statement, end });
    }

    /// Adds the components of a statement, such as its expressions and substatements, to the forms that are still to be split.
    fn add_inner(&mut self, statement: &'b Stmt, end: Option<Span>) {
        match statement {
            Stmt::If {
                condition,
                then,
                otherwise,
                ..
            } => {
                self.add_operand(condition, Wanted::Tested);
                self.add_statement(then, end);
                if let Some(statement) = otherwise {
                    self.add_statement(statement, end);
                }
            }
            Stmt::While {
                condition,
                body,
                ..
            } => {
                self.add_operand(condition, Wanted::Tested);
                self.add_statement(body, end);
            }
            Stmt::Try {
                span,
                body,
                clauses,
                default,
            } => {
                self.add_statement(body, end);
                self.add_clauses(clauses, end);
                if let Some(items) = default {
                    self.add_default(items, *span, end);
                }
            }
            _ => self.add_plain(statement),
        }
    }

    /// Adds the components of a block, or of a statement that contains no other statement, to the forms that are still to be split.
    fn add_plain(&mut self, statement: &'b Stmt) {
        match statement {
            Stmt::Block { block } => self.add_block(None, block),
            Stmt::Labelled { label, block } => self.add_block(Some(*label), block),
            Stmt::Expression { value } => self.add_operand(value, Wanted::Nothing),
            Stmt::Swap { left, right } => {
                self.add_operand(left, Wanted::Nothing);
                self.add_operand(right, Wanted::Nothing);
            }
            Stmt::Return {
                value: Some(value),
                ..
            } => self.add_expression(value, Role::Returned),
            Stmt::Throw {
                value: Some(value),
                ..
            } => self.add_operand(value, Wanted::Int),
            _ => {}
        }
    }

    fn add_block(&mut self, label: Option<Ident>, block: &'b Block) {
        self.add_begin(label, block.span);
        self.add_items(&block.items, Some(block.end));
    }

    fn add_clauses(&mut self, clauses: &'b Vec<Clause>, end: Option<Span>) {
        for clause in clauses {
            self.add(Form::Clause { clause });
            self.add_items(&clause.items, end);
        }
    }

    /// Adds the declarations and statements of a default catch clause to the forms still to be split. `around` is the
    /// source position of the statement that has the default clause.
    fn add_default(&mut self, items: &'b Vec<Item>, around: Span, end: Option<Span>) {
        self.add_begin(None, start_of(items, around));
        self.add_items(items, end);
    }

    fn add_begin(&mut self, label: Option<Ident>, span: Span) {
        self.add(Form::Begin { label, span });
    }

    // ---- expressions

    fn add_expression(&mut self, expression: &'b Expr, role: Role<'b>) {
        self.add(Form::Expression { expression, role });
    }

    fn add_operand(&mut self, expression: &'b Expr, wanted: Wanted) {
        self.add_expression(expression, Role::Operand(wanted));
    }

    /// Adds the subexpressions of an expression to the forms that are still to be split.
    fn add_parts(&mut self, expression: &'b Expr) {
        match expression {
            Expr::Call {
                function,
                arguments,
            } => self.add_arguments(*function, arguments),
            Expr::Chained { base, postfixes } => {
                self.add_operand(base, Wanted::Nothing);
                self.add_indices(postfixes);
            }
            Expr::New { value, .. } => self.add_initial(value),
            Expr::RegionNew { region, value, .. } => {
                self.add_operand(region, Wanted::Handle);
                self.add_initial(value);
            }
            Expr::Binary { first, rest } => {
                self.add_operand(first, Wanted::Nothing);
                self.add_operands(rest);
            }
            Expr::Assign { target, value } => {
                self.add_operand(target, Wanted::Nothing);
                self.add_expression(value, Role::Assigned(target));
            }
            _ => self.add_only_operand(expression),
        }
    }

    /// Adds the operand of an expression with exactly one operand to the forms that are still to be split.
    fn add_only_operand(&mut self, expression: &'b Expr) {
        match expression {
            Expr::Bracketed { inner, .. } => self.add_operand(inner, Wanted::Nothing),
            Expr::NumberOfElements { pointer, .. } => self.add_operand(pointer, Wanted::Fat),
            Expr::LowByteOf { value, .. } => self.add_operand(value, Wanted::Int),
            Expr::FreeUnique { pointer, .. } => self.add_operand(pointer, Wanted::Freed),
            Expr::Prefixed {
                operator,
                operand,
                ..
            } => self.add_operand(operand, wanted_of(*operator)),
            _ => {}
        }
    }

    fn add_arguments(&mut self, function: Ident, arguments: &'b [Expr]) {
        let mut number = 0usize;
        for argument in arguments {
            self.add_expression(argument, Role::Argument(function, arguments, number));
            number = number.saturating_add(1);
        }
    }

    fn add_fields(&mut self, name: Ident, regions: &'b [Ident], values: &'b [Expr]) {
        let mut number = 0usize;
        for value in values {
            self.add_expression(value, Role::Field(name, regions, number));
            number = number.saturating_add(1);
        }
    }

    fn add_indices(&mut self, postfixes: &'b [Postfix]) {
        for postfix in postfixes {
            if let Postfix::Index { index } = postfix {
                self.add_operand(index, Wanted::Int);
            }
        }
    }

    fn add_operands(&mut self, operations: &'b [Operation]) {
        for operation in operations {
            self.add_operand(&operation.operand, wanted_by(operation.operator).1);
        }
    }

    fn add_initial(&mut self, initial: &'b Initial) {
        match initial {
            Initial::Plain { value } => self.add_operand(value, Wanted::Content),
            Initial::Fields {
                name,
                regions,
                values,
            } => self.add_fields(*name, regions, values),
            Initial::Array {
                length,
                element,
                ..
            } => {
                self.add_operand(length, Wanted::Int);
                self.add_operand(element, Wanted::Content);
            }
        }
    }
}

/// Returns the source position where the declarations and statements of a default catch clause begin. A default clause stores no
/// source position, so an empty one is given the beginning of the enclosing statement.
fn start_of(items: &Vec<Item>, around: Span) -> Span {
    match items.first() {
        Some(Item::Local { of_type, .. }) => of_type.span,
        Some(
            Item::Statement {
                statement: Stmt::Expression { value },
            },
        ) => span_of(value),
        _ => around,
    }
}
