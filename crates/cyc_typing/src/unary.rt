//! Unary operators.
ghost use Rattle.std.specs.Prelude.{[], ◌∷◌, not, None, Ok};
ghost use Rattle.cyc_syntax.specs.inside.TreeView.{place_of_span};
ghost use Rattle.cyc_words.specs.declared.fault.Code.TheVariants as codes;
ghost use Rattle.cyc_types.specs.TypedTrees as nodes;
ghost use Rattle.cyc_types.specs.TypedTrees.{type_of};
ghost use Rattle.cyc_types.specs.Rules.{demand, settled, run, Own};
ghost use Rattle.cyc_types.specs.typing.Tests.{is_fat, is_unique, is_void, is_value};
ghost use Rattle.cyc_types.specs.typing.Expressions.{freed};
ghost use Rattle.cyc_scope.specs.inside.Code.{Ends, Gives};
ghost use Rattle.cyc_operands.specs.inside.Operands.{view_given, view_boxed};
ghost use Rattle.cyc_typing.specs.inside.Forms.{computed};

use cyc_operands::{Given, as_int, boxed, int_wanted, test_wanted};
use cyc_scope::{Settled, Stop};
use cyc_types::typed;
use cyc_types::typed::UnaryOperator;
use cyc_words::{Code, Span};
use std::alloc::Global;

#[inline(never)]
fn unary(
    alloc: Global,
    operator: UnaryOperator,
    operand: Box<typed::Expr>,
) -> Result<Box<typed::Expr>, Stop>
    ensures { Gives view_boxed result (Ok (nodes.Unary operator (view_boxed operand))) }
{
    boxed(alloc, typed::Expr::Unary { operator, operand })
}

/// Checks and returns a unary operator with its operand; `span` is the operand's source position.
#[inline(never)]
pub fn computed(
    alloc: Global,
    operator: UnaryOperator,
    span: Span,
    operand: Box<typed::Expr>,
) -> Result<Box<typed::Expr>, Stop>
    ensures { Gives view_boxed result (run (computed operator (place_of_span span) (view_boxed operand))) }
{
    let operand = as_int(alloc, operand)?;
    match operator {
        UnaryOperator::Not => test_wanted(Given::by(&operand), span)?,
        UnaryOperator::Negate
        | UnaryOperator::Complement
        | UnaryOperator::Widen
        | UnaryOperator::LowByte => int_wanted(Given::by(&operand), span)?,
    }
    unary(alloc, operator, operand)
}

fn fat_wanted(value: Given<'_>, span: Span) -> Result<(), Stop>
    ensures { Ends result (settled None (demand codes.TypeMismatch (place_of_span span) (is_value is_fat (view_given value.entry)) ∷ [])) }
{
    let mut settled = Settled::new();
    settled.demand(Code::TypeMismatch, span, value.is_fat());
    settled.end()
}

#[inline(never)]
fn count(alloc: Global, pointer: Box<typed::Expr>) -> Result<Box<typed::Expr>, Stop>
    ensures { Gives view_boxed result (Ok (nodes.NumberOfElements (view_boxed pointer))) }
{
    boxed(alloc, typed::Expr::NumberOfElements { pointer })
}

/// Checks and returns `numelts` of a pointer; `span` is the pointer's source position.
#[inline(never)]
pub fn number_of_elements(
    alloc: Global,
    span: Span,
    pointer: Box<typed::Expr>,
) -> Result<Box<typed::Expr>, Stop>
    ensures { Gives view_boxed result (run (Own (demand codes.TypeMismatch (place_of_span span) (is_value is_fat (type_of (view_boxed pointer))) ∷ [])
        (nodes.NumberOfElements (view_boxed pointer)))) }
{
    fat_wanted(Given::by(&pointer), span)?;
    count(alloc, pointer)
}

fn unique_wanted(value: Given<'_>, span: Span) -> Result<(), Stop>
    ensures { Ends result (settled None (demand codes.TypeMismatch (place_of_span span) (not (is_void (view_given value.entry)))
        ∷ demand codes.RegionOrKeyMisused (place_of_span span) (is_value is_unique (view_given value.entry)) ∷ [])) }
{
    let mut settled = Settled::new();
    settled.demand(Code::TypeMismatch, span, !value.is_void());
    settled.demand(Code::RegionOrKeyMisused, span, value.is_unique());
    settled.end()
}

#[inline(never)]
fn free(alloc: Global, pointer: Box<typed::Expr>) -> Result<Box<typed::Expr>, Stop>
    ensures { Gives view_boxed result (Ok (nodes.FreeUnique (view_boxed pointer))) }
{
    boxed(alloc, typed::Expr::FreeUnique { pointer })
}

/// Checks and returns the expression that frees a unique pointer; `span` is the pointer's source position.
#[inline(never)]
pub fn freed(alloc: Global, span: Span, pointer: Box<typed::Expr>) -> Result<Box<typed::Expr>, Stop>
    ensures { Gives view_boxed result (run (freed (place_of_span span) (view_boxed pointer))) }
{
    unique_wanted(Given::by(&pointer), span)?;
    free(alloc, pointer)
}
