//! This file creates the nodes of typed statements. Functions outside the tree traversal create and move the nodes, so that the stack
//! frames of the traversal are small for nodes of any size.
ghost use Rattle.std.specs.Prelude.{◌≡◌, Ok, option_map};
ghost use Rattle.cyc_syntax.specs.inside.TreeView.{place_of_span};
ghost use Rattle.cyc_types.specs.TypedTrees as nodes;
ghost use Rattle.cyc_types.specs.TypedTreeView as typed_view;
ghost use Rattle.cyc_scope.specs.inside.Code.{Gives};
ghost use Rattle.cyc_operands.specs.inside.Operands.{view_boxed};
ghost use Rattle.cyc_statements.specs.inside.Nodes.{view_boxed_statement};

use cyc_scope::Stop;
use cyc_types::typed;
use cyc_types::typed::Converted;
use cyc_words::Span;
use std::alloc::Global;

/// Returns the node of a statement in a box.
#[inline(never)]
pub fn boxed(alloc: Global, statement: typed::Stmt) -> Result<Box<typed::Stmt>, Stop>
    ensures { Gives view_boxed_statement result (Ok (typed_view.view_statement statement)) }
{
    Ok(Box::new(alloc, statement)?)
}

/// Returns the node of a statement that does nothing.
#[inline(never)]
pub fn empty(alloc: Global) -> Result<Box<typed::Stmt>, Stop>
    ensures { Gives view_boxed_statement result (Ok nodes.Empty) }
{
    boxed(alloc, typed::Stmt::Empty)
}

/// Returns the node of the statement that evaluates an expression.
#[inline(never)]
pub fn evaluation(
    alloc: Global,
    span: Span,
    value: Box<typed::Expr>,
) -> Result<Box<typed::Stmt>, Stop>
    ensures { Gives view_boxed_statement result (Ok (nodes.Evaluate (view_boxed value))) }
{
    let value = Box::into_inner(value);
    boxed(alloc, typed::Stmt::Evaluate { span, value })
}

/// Returns the node of a block, with the number that identifies its region.
#[inline(never)]
pub fn block_of(
    alloc: Global,
    region: usize,
    items: Vec<typed::Item>,
) -> Result<Box<typed::Stmt>, Stop>
    ensures { Gives view_boxed_statement result (Ok (nodes.Block region (typed_view.items_of items.items))) }
{
    boxed(alloc, typed::Stmt::Block { region, items })
}

/// Returns the node of an `if`.
#[inline(never)]
pub fn choice(
    alloc: Global,
    span: Span,
    condition: Box<typed::Expr>,
    then: Box<typed::Stmt>,
    otherwise: Box<typed::Stmt>,
) -> Result<Box<typed::Stmt>, Stop>
    ensures { Gives view_boxed_statement result (Ok (nodes.If (view_boxed condition) (view_boxed_statement then) (view_boxed_statement otherwise))) }
{
    let condition = Box::into_inner(condition);
    boxed(
        alloc,
        typed::Stmt::If {
            span,
            condition,
            then,
            otherwise,
        },
    )
}

/// Returns the node of a loop.
#[inline(never)]
pub fn repetition(
    alloc: Global,
    span: Span,
    condition: Box<typed::Expr>,
    body: Box<typed::Stmt>,
) -> Result<Box<typed::Stmt>, Stop>
    ensures { Gives view_boxed_statement result (Ok (nodes.While (place_of_span span) (view_boxed condition) (view_boxed_statement body))) }
{
    let condition = Box::into_inner(condition);
    boxed(
        alloc,
        typed::Stmt::While {
            span,
            condition,
            body,
        },
    )
}

/// Returns the node of a `return`.
#[inline(never)]
pub fn return_of(
    alloc: Global,
    span: Span,
    value: Option<Converted>,
) -> Result<Box<typed::Stmt>, Stop>
    ensures { Gives view_boxed_statement result (Ok (nodes.Return (option_map typed_view.view_converted value))) }
{
    boxed(alloc, typed::Stmt::Return { span, value })
}

/// Returns the node of a `throw`.
#[inline(never)]
pub fn throw_of(
    alloc: Global,
    span: Span,
    tag: usize,
    value: Option<Box<typed::Expr>>,
) -> Result<Box<typed::Stmt>, Stop>
    ensures { Gives view_boxed_statement result (Ok (nodes.Throw tag (option_map view_boxed value))) }
{
    let value = match value {
        Some(value) => Some(Box::into_inner(value)),
        None => None,
    };
    boxed(alloc, typed::Stmt::Throw { span, tag, value })
}

/// Returns the node of a `try` with its catch clauses.
#[inline(never)]
pub fn try_of(
    alloc: Global,
    span: Span,
    body: Box<typed::Stmt>,
    clauses: Vec<typed::Clause>,
    default: Option<typed::Body>,
) -> Result<Box<typed::Stmt>, Stop>
    ensures { Gives view_boxed_statement result (Ok (nodes.Try (view_boxed_statement body)
        (typed_view.clauses_of clauses.items (typed_view.default_of default)))) }
{
    boxed(
        alloc,
        typed::Stmt::Try {
            span,
            body,
            clauses,
            default,
        },
    )
}

/// Returns the element of a block that consists of a statement.
pub fn execution(statement: Box<typed::Stmt>) -> typed::Item
    ensures { typed_view.view_item result ≡ nodes.Execute (view_boxed_statement statement) }
{
    let statement = Box::into_inner(statement);
    typed::Item::Execute { statement }
}
