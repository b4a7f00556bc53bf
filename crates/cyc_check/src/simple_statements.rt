//! Checks statements and declarations that contain only expressions: first their expressions, and then the requirements
//! of the statement itself (`cyc_statements`).
ghost use Rattle.std.specs.Prelude.{◌≡◌, OnOk, IfOk, option_map};
ghost use Rattle.cyc_syntax.specs.inside.TreeView.{place_of_span, view_name, view_type, view_expression};
ghost use Rattle.cyc_syntax.specs.Trees.{Return, Swap, Throw, Evaluate};
ghost use Rattle.cyc_types.specs.TypedTreeView as typed_view;
ghost use Rattle.cyc_types.specs.Rules.{run};
ghost use Rattle.cyc_types.specs.typing.Scopes.{Ordinary, with_local};
ghost use Rattle.cyc_types.specs.typing.Statements.{declared_type, rule_condition, rule_returned, rule_thrown, rule_initial, rule_local, rule_statement};
ghost use Rattle.cyc_scope.specs.inside.Code.{Gives};
ghost use Rattle.cyc_operands.specs.inside.Operands.{view_boxed};
ghost use Rattle.cyc_statements.specs.inside.Nodes.{view_boxed_statement, view_initialised};

use cyc_expressions::{check_expression, check_looked, check_place};
use cyc_operands::{as_int, span_of};
use cyc_scope::{Scope, Stop};
use cyc_statements::forms::{condition, no_value_wanted, returned, swapped, thrown};
use cyc_statements::items::{Initialised, declare_local, initialise, is_type, uninitialised};
use cyc_statements::nodes::{evaluation, return_of};
use cyc_syntax::{Expr, Ident, WrittenType};
use cyc_types::typed;
use cyc_types::typed::Converted;
use cyc_words::Span;

// ---- statements

/// Checks the condition of an `if` or a `while`.
pub(crate) fn check_condition(
    scope: &mut Scope<'_>,
    written: &Expr,
) -> Result<Box<typed::Expr>, Stop>
    ensures gives { Gives view_boxed result (run (rule_condition scope.old (view_expression written.now))) }
    ensures same { OnOk result (scope.new ≡ scope.old) }
{
    let value = check_looked(scope, written)?;
    condition(scope.alloc(), span_of(written), value)
}

/// Returns the typed statement of an expression used as a statement.
pub(crate) fn check_evaluation(
    scope: &mut Scope<'_>,
    expression: &Expr,
) -> Result<Box<typed::Stmt>, Stop>
    ensures gives { Gives view_boxed_statement result (run (rule_statement scope.old (Evaluate (view_expression expression.now)))) }
    ensures same { OnOk result (scope.new ≡ scope.old) }
{
    let value = check_expression(scope, expression)?;
    evaluation(scope.alloc(), span_of(expression), value)
}

/// Returns the typed statement that swaps the values stored in two assignable expressions.
pub(crate) fn check_swap(
    scope: &mut Scope<'_>,
    left: &Expr,
    right: &Expr,
) -> Result<Box<typed::Stmt>, Stop>
    ensures gives { Gives view_boxed_statement result (run (rule_statement scope.old (Swap (view_expression left.now) (view_expression right.now)))) }
    ensures same { OnOk result (scope.new ≡ scope.old) }
{
    let span = span_of(left);
    let first = check_place(scope, left, span)?;
    let second = check_place(scope, right, span_of(right))?;
    swapped(scope.alloc(), span, first, second)
}

fn check_returned(
    scope: &mut Scope<'_>,
    span: Span,
    value: &Option<Expr>,
) -> Result<Option<Converted>, Stop>
    ensures gives { Gives (option_map typed_view.view_converted) result
        (run (rule_returned scope.old (place_of_span span) (option_map view_expression value.now))) }
    ensures same { OnOk result (scope.new ≡ scope.old) }
{
    match value {
        None => {
            no_value_wanted(scope, span)?;
            Ok(None)
        }
        Some(written) => {
            let value = check_expression(scope, written)?;
            returned(scope, span, span_of(written), value)
        }
    }
}

/// Returns the typed `return` statement, which has a value exactly if the function has a result.
pub(crate) fn check_return(
    scope: &mut Scope<'_>,
    span: Span,
    value: &Option<Expr>,
) -> Result<Box<typed::Stmt>, Stop>
    ensures gives { Gives view_boxed_statement result (run (rule_statement scope.old (Return (place_of_span span) (option_map view_expression value.now)))) }
    ensures same { OnOk result (scope.new ≡ scope.old) }
{
    let value = check_returned(scope, span, value)?;
    return_of(scope.alloc(), span, value)
}

/// Checks the int argument of a thrown exception, if one is written.
fn check_thrown(
    scope: &mut Scope<'_>,
    value: &Option<Expr>,
) -> Result<Option<Box<typed::Expr>>, Stop>
    ensures gives { Gives (option_map view_boxed) result (run (rule_thrown scope.old (option_map view_expression value.now))) }
    ensures same { OnOk result (scope.new ≡ scope.old) }
{
    match value {
        None => Ok(None),
        Some(written) => {
            let value = check_expression(scope, written)?;
            let value = as_int(scope.alloc(), value)?;
            Ok(Some(value))
        }
    }
}

/// Returns the typed `throw` of an exception that the program declares, with a value exactly if the exception has an int.
pub(crate) fn check_throw(
    scope: &mut Scope<'_>,
    span: Span,
    exception: Ident,
    value: &Option<Expr>,
) -> Result<Box<typed::Stmt>, Stop>
    ensures gives { Gives view_boxed_statement result (run
        (rule_statement scope.old (Throw (place_of_span span) (view_name exception) (option_map view_expression value.now)))) }
    ensures same { OnOk result (scope.new ≡ scope.old) }
{
    let thrown_value = check_thrown(scope, value)?;
    thrown(scope, span, exception, value, thrown_value)
}

// ---- locals

fn check_initial(
    scope: &mut Scope<'_>,
    written: &WrittenType,
    name: Ident,
    value: &Option<Expr>,
) -> Result<Initialised, Stop>
    ensures gives { Gives view_initialised result (run (rule_initial scope.old (view_type written.now) (view_name name)
        (option_map view_expression value.now))) }
    ensures same { OnOk result (scope.new ≡ scope.old) }
{
    match value {
        None => uninitialised(scope, written, name),
        Some(expression) => {
            let node = check_expression(scope, expression)?;
            initialise(scope, written, name, span_of(expression), node)
        }
    }
}

/// Returns the typed declaration of a local; the local is in scope after it.
pub(crate) fn check_local(
    scope: &mut Scope<'_>,
    written: &WrittenType,
    name: Ident,
    value: &Option<Expr>,
) -> Result<typed::Item, Stop>
    ensures gives { Gives typed_view.view_item result (run
        (rule_local scope.old (view_type written.now) (view_name name) (option_map view_expression value.now))) }
    ensures following { IfOk result (λ j. scope.new ≡ with_local Ordinary (view_name name) (declared_type (typed_view.view_item j)) scope.old) }
{
    is_type(scope, written)?;
    let local = check_initial(scope, written, name, value)?;
    declare_local(scope, name, local)
}
