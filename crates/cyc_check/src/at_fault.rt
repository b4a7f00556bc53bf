//! Computes the scope and types at the fault of a rejected program, for the explanation of the fault.
ghost use Rattle.std.specs.Prelude.{◌≡◌, ◌⊎◌, map, IfSome};
ghost use Rattle.cyc_words.specs.Fault.{memory_fault};
ghost use Rattle.cyc_syntax.specs.inside.TreeView.{view_declaration};
ghost use Rattle.cyc_types.specs.typing.Programs.{IsRefusedProgram};

use crate::statements::check_items;
use crate::tree::check;
use cyc_declarations::{members, signature_of};
use cyc_expressions::{check_expression, check_looked, check_place};
use cyc_operands::{Given, span_of, type_of_side};
use cyc_scope::{Program, Scope, Stop, Tables};
use cyc_syntax::{Block, Expr, Ident, Parameters, Tree, WrittenType};
use cyc_types::Ty;
use cyc_types::typed::ValueType;
use cyc_words::Fault;
use std::alloc::Global;

/// Returns the fault with which `check` rejects a syntax tree, or `None` if it accepts the tree.
pub fn refusal(alloc: Global, tree: &Tree) -> Option<Fault>
    // `refusal` returns a fault only if the program is rejected or memory ran out.
    ensures { IfSome result (λ f. (f ≡ memory_fault) ⊎ IsRefusedProgram tree.now.names (map view_declaration tree.now.declarations.items) f) }
{
    match check(alloc, tree) {
        Ok(_) => None,
        Err(fault) => Some(fault),
    }
}

/// Returns the scope at the beginning of a function's body.
fn scope_of<'p>(
    alloc: Global,
    program: &'p Program,
    returned: &Option<WrittenType>,
    name: Ident,
    parameters: &Parameters,
) -> Result<Scope<'p>, Stop> {
    let mut tables = Tables::new(alloc);
    let names = &mut tables.names;
    let signature = signature_of(alloc, program.known(), names, returned, parameters)?;
    Scope::of_body(
        alloc,
        program,
        tables,
        &signature,
        name,
        members(parameters),
    )
}

/// Returns the scope at the first fault in the body of a function, including the scopes of the blocks around the fault. For a body
/// without a fault, returns the scope at its end.
///
/// # Errors
///
/// Returns an error if memory ran out before the check of the function's body began.
pub fn scope_at_fault<'p>(
    alloc: Global,
    program: &'p Program,
    returned: &Option<WrittenType>,
    name: Ident,
    parameters: &Parameters,
    body: &Block,
) -> Result<Scope<'p>, Stop> {
    let mut scope = scope_of(alloc, program, returned, name, parameters)?;
    let _ = check_items(&mut scope, &body.items);
    Ok(scope)
}

// ---- types

fn kept(given: Given<'_>) -> Option<ValueType> {
    match given {
        Given::Void => Some(ValueType::Void),
        Given::Null => Some(ValueType::Null),
        Given::Int | Given::Char | Given::HeapHandle | Given::Value(_) => match given.of_type() {
            Ok(of_type) => Some(ValueType::Value { of_type }),
            Err(_) => None,
        },
    }
}

/// Returns the type of an expression, as a used value or as a peek (a read that moves no unique pointer).
/// Returns `None` if the expression is rejected.
pub fn value_type(
    scope: &mut Scope<'_>,
    expression: &Expr,
    is_looked_at: bool,
) -> Option<ValueType> {
    let checked = if is_looked_at {
        check_looked(scope, expression)
    } else {
        check_expression(scope, expression)
    };
    match checked {
        Ok(node) => kept(Given::by(&node)),
        Err(_) => None,
    }
}

/// Returns the type of the value stored in the memory location that an assignable expression (lvalue) denotes, or `None` if the
/// expression is rejected.
pub fn place_type(scope: &mut Scope<'_>, expression: &Expr) -> Option<Ty> {
    match check_place(scope, expression, span_of(expression)) {
        Ok(found) => type_of_side(&found.side).share().ok(),
        Err(_) => None,
    }
}
