//! The source positions for which instructions are emitted.
ghost use Rattle.std.specs.Prelude.{◌≡◌, ◌≤◌, length, IfOk};
ghost use Rattle.cyc_syntax.specs.TokenRule.{max_tokens};
ghost use Rattle.cyc_types.specs.typing.WellTyped.{IsWellTypedProgram};
ghost use Rattle.cyc_types.specs.TypedTreeView.{view_program};
ghost use Rattle.cyc_types.specs.Weight.{program_weight};
ghost use Rattle.cyc_lower_proof.specs.inside.Lowered.{CanBeLowered};

use crate::functions::marks_of_tree;
use cyc_types::Flowed;
use cyc_types::typed::{Dereference, Expr, Item, Lvalue, Operation, Stmt};
use cyc_words::Span;
use std::alloc::{AllocError, Global};

/// The source position of the instructions of a function from index `first` up to the next `Mark`. A `Mark` has the source position of a
/// call, `new`, pointer access, operator or variable, or of the enclosing statement or declaration. If the code of a function body runs
/// off its end, its source position is that of the function's name.
#[derive(Clone, Copy, Debug, PartialEq, Eq)]
pub struct Mark {
    /// The index of the first instruction with this source position.
    pub first: usize,
    pub span: Span,
}

/// The source positions of the code of a function.
#[derive(Drop)]
pub struct Marks {
    pub marks: Vec<Mark>,
    /// The index of the first instruction of the blocks that raise exceptions for all failing checks of the function. The instructions of
    /// the blocks that raise exceptions have no source position of their own.
    pub raises: usize,
}

/// Returns the source positions of the code of each function of the program that `lower` returns.
pub fn marks_of(alloc: Global, program: &Flowed) -> Result<Vec<Marks>, AllocError>
    requires well_typed { IsWellTypedProgram (view_program program.now.tree) }
    requires small { program_weight (view_program program.now.tree) ≤ max_tokens }
    requires can_be { CanBeLowered (view_program program.now.tree) }
    ensures { IfOk result (λ marks. length marks.items ≡ length program.now.tree.functions.items) }
{
    marks_of_tree(alloc, &program.tree)
}

/// Returns the source position of a variable, if its node has one.
fn place_of_variable(variable: Lvalue) -> Option<Span> {
    match variable {
        Lvalue::Local { span, .. } => Some(span),
        Lvalue::Global { .. } => None,
    }
}

/// Returns the source position of an access through a pointer.
pub(crate) fn place_of_access(access: &Dereference) -> Span {
    match access {
        Dereference::Target { span, .. }
        | Dereference::Member { span, .. }
        | Dereference::Element { span, .. } => *span,
    }
}

/// Returns the source position of an expression, if its node has one.
pub(crate) fn place_of_value(value: &Expr) -> Option<Span> {
    match value {
        Expr::Call { span, .. }
        | Expr::New { span, .. }
        | Expr::Move { span, .. }
        | Expr::Peek { span, .. } => Some(*span),
        Expr::Copy { source, .. } => place_of_variable(*source),
        Expr::AddressOf { place, .. } => place_of_variable(*place),
        Expr::Load { source } => Some(place_of_access(source)),
        Expr::AddressOfCell { place, .. } => Some(place_of_access(place)),
        Expr::Store { target, .. } => Some(place_of_access(target)),
        _ => None,
    }
}

/// Returns the source position of an operator that computes. For an operator on two ints, the source position is that of the right operand.
pub(crate) fn place_of_operation(operation: &Operation) -> Option<Span> {
    match operation {
        Operation::Compute { span, .. } => Some(*span),
        Operation::Test { .. } | Operation::Pointer { .. } | Operation::PointerPeek { .. } => None,
    }
}

/// Returns the source position of a statement, if its node has one.
pub(crate) fn place_of_statement(statement: &Stmt) -> Option<Span> {
    match statement {
        Stmt::Evaluate { span, .. }
        | Stmt::Swap { span, .. }
        | Stmt::If { span, .. }
        | Stmt::While { span, .. }
        | Stmt::Return { span, .. }
        | Stmt::Throw { span, .. }
        | Stmt::Try { span, .. } => Some(*span),
        Stmt::Block { .. } | Stmt::Empty | Stmt::Break | Stmt::Continue => None,
    }
}

/// Returns the source position of the declaration, if an element of a block is one.
pub(crate) fn place_of_item(item: &Item) -> Option<Span> {
    match item {
        Item::Execute { .. } => None,
        Item::Local { span, .. }
        | Item::Region { span, .. }
        | Item::Open { span, .. }
        | Item::Alias { span, .. }
        | Item::DynamicRegion { span, .. } => Some(*span),
    }
}
