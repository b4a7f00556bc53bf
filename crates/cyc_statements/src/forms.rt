//! This file checks the requirements of the statements themselves, after their expressions are checked.
ghost use Rattle.std.specs.Prelude.{◌&&◌, not, [], ◌∷◌, None, Ok, option_map};
ghost use Rattle.cyc_words.specs.declared.fault.Code.TheVariants as codes;
ghost use Rattle.cyc_syntax.specs.inside.TreeView.{place_of_span, view_name, view_expression};
ghost use Rattle.cyc_types.specs.TypeView.{view_ty};
ghost use Rattle.cyc_types.specs.TypedTrees as nodes;
ghost use Rattle.cyc_types.specs.TypedTrees.{type_of};
ghost use Rattle.cyc_types.specs.TypedTreeView as typed_view;
ghost use Rattle.cyc_types.specs.Rules.{demand, settled, Own, run};
ghost use Rattle.cyc_types.specs.typing.Tests.{is_left_out, ty_eq, is_struct};
ghost use Rattle.cyc_types.specs.typing.Expressions.{type_of_side, conversion, test_wanted};
ghost use Rattle.cyc_types.specs.typing.Expressions as rules;
ghost use Rattle.cyc_types.specs.typing.Statements.{returned, in_loop_alone, swapped, exception_among, thrown_demanded, thrown, caught};
ghost use Rattle.cyc_scope.specs.inside.Code.{Gives, Ends};
ghost use Rattle.cyc_operands.specs.inside.Operands.{view_given, view_boxed, view_found};
ghost use Rattle.cyc_statements.specs.inside.Nodes.{view_boxed_statement};

use crate::nodes::{boxed, throw_of};
use cyc_operands::types::{is_struct, same_type};
use cyc_operands::{Found, Given, as_int, convert, converted, span_of, test_wanted, type_of_side};
use cyc_scope::{Scope, Settled, Stop, refused};
use cyc_syntax::{Expr, Ident};
use cyc_types::typed::Converted;
use cyc_types::{NameSet, Ty, typed};
use cyc_words::{Code, Span};
use std::alloc::Global;

/// Returns the checked condition of an `if` or a `while`, whose value is at this source position.
pub fn condition(
    alloc: Global,
    span: Span,
    value: Box<typed::Expr>,
) -> Result<Box<typed::Expr>, Stop>
    ensures { Gives view_boxed result (run (Own (test_wanted (type_of (rules.as_int (view_boxed value))) (place_of_span span) ∷ [])
        (rules.as_int (view_boxed value)))) }
{
    let value = as_int(alloc, value)?;
    test_wanted(Given::by(&value), span)?;
    Ok(value)
}

/// Checks that a value can be converted to this type.
fn conversion_wanted(scope: &Scope<'_>, value: Given<'_>, to: &Ty, span: Span) -> Result<(), Stop>
    ensures { Ends result (settled None (conversion scope.now.regions (view_given value.entry) (view_ty to.now) (place_of_span span))) }
{
    let mut settled = Settled::new();
    convert(&mut settled, scope, value, to, span);
    settled.end()
}

/// Checks that a function has no result if it contains, at this source position, a `return` without a value.
pub fn no_value_wanted(scope: &Scope<'_>, span: Span) -> Result<(), Stop>
    ensures { Ends result (settled None (demand codes.TypeMismatch (place_of_span span) (is_left_out scope.now.result) ∷ [])) }
{
    let mut settled = Settled::new();
    settled.demand(Code::TypeMismatch, span, scope.result_type().is_none());
    settled.end()
}

/// Returns the converted value of the `return` at the first source position; the value is at the second position.
pub fn returned(
    scope: &Scope<'_>,
    span: Span,
    value_span: Span,
    value: Box<typed::Expr>,
) -> Result<Option<Converted>, Stop>
    ensures { Gives (option_map typed_view.view_converted) result
        (run (returned scope.now scope.now.result (place_of_span span) (place_of_span value_span) (view_boxed value))) }
{
    let Some(of_type) = scope.result_type() else {
        return Err(refused(Code::TypeMismatch, span));
    };
    conversion_wanted(scope, Given::by(&value), of_type, value_span)?;
    Ok(Some(converted(value, of_type)))
}

/// Checks that the values in two lvalues may be swapped; the first lvalue begins at this source position.
fn swap_wanted(left: &Found, right: &Found, span: Span) -> Result<(), Stop>
    ensures { Ends result (settled None (demand codes.TypeMismatch (place_of_span span)
        (ty_eq (type_of_side (typed_view.view_side left.now.side)) (type_of_side (typed_view.view_side right.now.side))
        && not (is_struct (type_of_side (typed_view.view_side left.now.side)))) ∷ [])) }
{
    let of_type = type_of_side(&left.side);
    let mut settled = Settled::new();
    settled.demand(
        Code::TypeMismatch,
        span,
        same_type(of_type, type_of_side(&right.side)) && !is_struct(of_type),
    );
    settled.end()
}

/// Returns the statement that swaps the values in two lvalues.
#[inline(never)]
fn swap_of(
    alloc: Global,
    span: Span,
    left: Box<Found>,
    right: Box<Found>,
) -> Result<Box<typed::Stmt>, Stop>
    ensures { Gives view_boxed_statement result (Ok (nodes.Swap (view_found left).side (view_found right).side)) }
{
    let left = Box::into_inner(left).side;
    let right = Box::into_inner(right).side;
    boxed(alloc, typed::Stmt::Swap { span, left, right })
}

/// Returns the checked swap of the values in two lvalues; the first lvalue begins at this source position.
pub fn swapped(
    alloc: Global,
    span: Span,
    left: Box<Found>,
    right: Box<Found>,
) -> Result<Box<typed::Stmt>, Stop>
    ensures { Gives view_boxed_statement result (run (swapped (place_of_span span) (view_found left) (view_found right))) }
{
    swap_wanted(&left, &right, span)?;
    swap_of(alloc, span, left, right)
}

/// Checks that an exception is thrown with an int exactly if it is declared with one.
fn thrown_wanted(
    has_int: bool,
    span: Span,
    written: &Option<Expr>,
    value: &Option<Box<typed::Expr>>,
) -> Result<(), Stop>
    ensures { Ends result (settled None (thrown_demanded has_int (place_of_span span) (option_map view_expression written.now)
        (option_map view_boxed value.now))) }
{
    let mut settled = Settled::new();
    match (written, value) {
        (Some(expression), Some(value)) => {
            settled.demand(Code::TypeMismatch, span, has_int);
            settled.demand(
                Code::TypeMismatch,
                span_of(expression),
                Given::by(value).is_int(),
            );
        }
        _ => settled.demand(Code::TypeMismatch, span, !has_int),
    }
    settled.end()
}

/// Returns the node that throws the exception with this name at this source position, with the given value.
pub fn thrown(
    scope: &Scope<'_>,
    span: Span,
    exception: Ident,
    written: &Option<Expr>,
    value: Option<Box<typed::Expr>>,
) -> Result<Box<typed::Stmt>, Stop>
    ensures { Gives view_boxed_statement result (run (thrown scope.now (exception_among scope.now.exceptions exception.name.number)
        (view_name exception) (option_map view_expression written.now) (option_map view_boxed value))) }
{
    let Some(known) = scope.exception(exception.name.number) else {
        return Err(refused(Code::UnknownName, exception.span));
    };
    thrown_wanted(known.has_int, exception.span, written, &value)?;
    throw_of(scope.alloc(), span, known.number, value)
}

/// Returns the number that identifies the exception of a `catch` clause with or without an int; the exceptions of the earlier clauses are
/// in `before`.
pub fn caught(
    scope: &Scope<'_>,
    before: &NameSet,
    exception: Ident,
    variable: Option<Ident>,
) -> Result<usize, Stop>
    ensures { Gives (λ n. n) result (run (caught scope.now (exception_among scope.now.exceptions exception.name.number) before.now
        (view_name exception) (option_map view_name variable))) }
{
    let Some(known) = scope.exception(exception.name.number) else {
        return Err(refused(Code::UnknownName, exception.span));
    };
    let mut settled = Settled::new();
    settled.demand(
        Code::DeclaredTwice,
        exception.span,
        !before.has(exception.name.number),
    );
    settled.demand(
        Code::TypeMismatch,
        exception.span,
        variable.is_some() == known.has_int,
    );
    settled.end()?;
    Ok(known.number)
}

/// Returns the node of a `break` or `continue` at this source position, which must be in a loop.
pub fn leaves_loop(
    scope: &Scope<'_>,
    span: Span,
    statement: typed::Stmt,
) -> Result<Box<typed::Stmt>, Stop>
    ensures { Gives view_boxed_statement result (run (in_loop_alone scope.now (place_of_span span) (typed_view.view_statement statement))) }
{
    let statement = boxed(scope.alloc(), statement)?;
    let mut settled = Settled::new();
    settled.demand(Code::OutsideLoop, span, scope.in_loop());
    settled.end()?;
    Ok(statement)
}
