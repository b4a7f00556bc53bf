//! This file explains a fault in a function's body. The names and regions in scope at the fault are those at which the checker stopped. The
//! declarations, statements and expressions of a function's body are examined in the order of the text, each after its subexpressions.
use crate::calls::explain_call;
use crate::expressions::{
    explain_address, explain_binary, explain_chain, explain_key, explain_name, explain_place,
    explain_target,
};
use crate::statements::{
    explain_alias, explain_exception, explain_opened, explain_return, explain_swap,
    explain_written_here,
};
use crate::values::explain_value;
use cyc_check::scope_at_fault;
use cyc_declarations::{collect, members};
use cyc_explain_texts::forms::{Form, Forms, forms_of};
use cyc_explain_texts::homes::Origin;
use cyc_explain_texts::messages::Message;
use cyc_explain_texts::names::explain_region_twice;
use cyc_explain_texts::objects::explain_made;
use cyc_explain_texts::teller::Teller;
use cyc_scope::{Program, Scope};
use cyc_syntax::{
    Block, Clause, Declaration, Expr, Ident, Item, Member, Parameters, PrefixOperator, Stmt, Tree,
};
use cyc_types::RegionNames;
use cyc_words::Span;
use std::mem::ManuallyDrop;

// ---- functions

/// Explains a fault in the body of a declaration, if the fault is in this body.
pub(crate) fn explain_body(teller: &mut Teller, tree: &Tree, declaration: &Declaration) {
    if let Declaration::Function { body, .. } = declaration {
        if teller.is_from(body.span) && !teller.is_from(body.end) {
            let program = ManuallyDrop::new(collect(teller.alloc, tree));
            if let Ok(program) = &*program {
                explain_function(teller, program, &tree.declarations, declaration);
            }
        }
    }
}

/// Explains a fault in the body of a function, if the declarations of the program are valid.
fn explain_function(
    teller: &mut Teller,
    program: &Program,
    declarations: &[Declaration],
    declaration: &Declaration,
) {
    if let Declaration::Function {
        result,
        name,
        parameters,
        body,
    } = declaration
    {
        let at_fault = scope_at_fault(teller.alloc, program, result, *name, parameters, body);
        let mut at_fault = ManuallyDrop::new(at_fault);
        if let Ok(scope) = &mut *at_fault {
            explain_at_fault(teller, scope, declarations, *name, parameters, body);
        }
    }
}

/// Explains a fault in the body of a function, using the scope at the fault.
fn explain_at_fault(
    teller: &mut Teller,
    scope: &mut Scope<'_>,
    declarations: &[Declaration],
    name: Ident,
    parameters: &Parameters,
    body: &Block,
) {
    note_head(teller, scope.names(), name, members(parameters));
    explain_declared(teller, &body.items);
    let forms = ManuallyDrop::new(forms_of(teller.alloc, body));
    explain_forms(teller, scope, declarations, &forms);
}

/// Records, for the explanation, the regions and names of a function's signature, and declares its parameters in the scope.
fn note_head(teller: &mut Teller, names: &RegionNames, name: Ident, members: &[Member]) {
    teller.notes.function = name.name.number;
    teller.notes.homes.add_parameters(names, name, members);
    teller.unknown = Message::UnknownInBody;
    teller.declared.clear();
    for member in members {
        teller.declare(member.name);
    }
}

/// Explains the fault in the declarations, statements and expressions of a function's body; the list has them in reverse order of the text.
fn explain_forms(
    teller: &mut Teller,
    scope: &mut Scope<'_>,
    declarations: &[Declaration],
    forms: &Forms<'_>,
) {
    teller.is_whole = teller.is_whole && forms.is_whole;
    let mut left = forms.listed.len();
    for _ in 0..forms.listed.len() {
        left = left.saturating_sub(1);
        if let Some(form) = forms.listed.get(left) {
            explain_form(teller, scope, declarations, form);
        }
    }
}

fn explain_form(
    teller: &mut Teller,
    scope: &mut Scope<'_>,
    declarations: &[Declaration],
    form: &Form<'_>,
) {
    match form {
        Form::Expression { expression, role } => {
            explain_expression(teller, scope, declarations, expression);
            explain_value(teller, scope, declarations, expression, role);
        }
        Form::Statement { statement, .. } => explain_statement(teller, scope, statement),
        Form::Item { item, end } => explain_item(teller, scope, item, *end),
        Form::Clause { clause } => explain_clause(teller, scope, clause),
        Form::Items { items } => explain_declared(teller, items),
        Form::Begin { label, span } => explain_begin(teller, *label, *span),
    }
}

/// Adds the region of a block to the regions that the explanation can name.
fn explain_begin(teller: &mut Teller, label: Option<Ident>, span: Span) {
    match label {
        Some(label) => add_region(teller, label, Origin::Block),
        None => teller.notes.homes.add(None, span, Origin::Block),
    }
}

// ---- items

/// Explains a local that a block declares twice or whose name is already declared. The names that a block declares are out of scope after
/// the block.
fn explain_declared(teller: &mut Teller, items: &Vec<Item>) {
    for item in items {
        match item {
            Item::Statement { .. } => {}
            Item::Local { name, .. }
            | Item::Region { handle: name, .. }
            | Item::Alias { name, .. }
            | Item::DynamicRegion { key: name, .. } => teller.declare(*name),
        }
    }
    teller.declared.clear();
}

/// Explains a fault in a declaration or statement of a block that ends at source position `end`.
fn explain_item(teller: &mut Teller, scope: &mut Scope<'_>, item: &Item, end: Option<Span>) {
    match item {
        Item::Statement { .. } => {}
        Item::Local { of_type, .. } => explain_written_here(teller, scope, of_type),
        Item::Region { region, key, .. } => {
            explain_region_item(teller, scope, *region, *key, end);
        }
        Item::DynamicRegion { region, .. } => add_region(teller, *region, Origin::Dynamic),
        Item::Alias {
            region,
            of_type,
            source,
            ..
        } => {
            add_region(teller, *region, Origin::Alias);
            explain_alias(teller, scope, *region, of_type, *source);
        }
    }
}

/// Explains a fault in a declaration that opens a key's region or a new region, in a block that ends at source position `end`.
fn explain_region_item(
    teller: &mut Teller,
    scope: &Scope<'_>,
    region: Ident,
    key: Option<Ident>,
    end: Option<Span>,
) {
    match key {
        Some(key) => {
            explain_opened(teller, scope, region, key);
            teller.note_opened(region, end);
        }
        None => add_region(teller, region, Origin::Item),
    }
}

/// Adds a region to those that the explanation can name; explains the fault if the region's name is already declared.
fn add_region(teller: &mut Teller, name: Ident, origin: Origin) {
    explain_region_twice(teller, name);
    teller.notes.homes.add(Some(name), name.span, origin);
}

// ---- statements

fn explain_statement(teller: &mut Teller, scope: &mut Scope<'_>, statement: &Stmt) {
    match statement {
        Stmt::Swap { left, right } => explain_swap(teller, scope, left, right),
        Stmt::Return { span, value } => {
            explain_return(teller, scope, *span, matches!(value, Some(_)));
        }
        Stmt::Throw { exception, .. } => explain_exception(teller, scope, *exception),
        _ => {}
    }
}

/// Explains a fault before the statements of a `catch` clause, or a second declaration of the clause's variable.
fn explain_clause(teller: &mut Teller, scope: &Scope<'_>, clause: &Clause) {
    explain_exception(teller, scope, clause.exception);
    teller
        .notes
        .homes
        .add(None, clause.exception.span, Origin::Block);
    if let Some(variable) = clause.variable {
        teller.declare(variable);
        explain_declared(teller, &clause.items);
    }
}

// ---- expressions

/// Explains a violated requirement of an expression's own form, in contrast to a violated requirement of its
/// subexpressions or on its value.
fn explain_expression(
    teller: &mut Teller,
    scope: &mut Scope<'_>,
    declarations: &[Declaration],
    expression: &Expr,
) {
    match expression {
        Expr::Call {
            function,
            arguments,
        } => {
            if teller.is_at(function.span) {
                explain_call(teller, scope, declarations, *function, arguments, None);
            }
        }
        Expr::Chained { base, postfixes } => explain_chain(teller, scope, base, postfixes),
        Expr::Binary { first, rest } => explain_binary(teller, scope, first, rest),
        Expr::Prefixed {
            span,
            operator: PrefixOperator::Dereference,
            operand,
        } => explain_target(teller, scope, *span, operand),
        _ => explain_plain(teller, scope, expression),
    }
}

/// Explains a fault inside an expression of a form that itself puts no requirement on the types of its subexpressions.
fn explain_plain(teller: &mut Teller, scope: &Scope<'_>, expression: &Expr) {
    match expression {
        Expr::UniqueRegion { span } => teller.tell(Message::UniqueRegionAlone, *span),
        Expr::Variable { name } => explain_name(teller, scope, *name),
        Expr::FreeKey { key, .. } => explain_key(teller, scope, *key),
        Expr::Prefixed {
            operator: PrefixOperator::AddressOf,
            operand,
            ..
        } => explain_address(teller, scope, operand),
        Expr::New { value, .. } | Expr::RegionNew { value, .. } => {
            explain_made(teller, scope, value);
        }
        Expr::Assign { target, .. } => explain_place(teller, scope, target),
        _ => {}
    }
}
