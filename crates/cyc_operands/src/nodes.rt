//! Puts tree nodes into boxes. The checker passes boxes between functions, so its stack frames are small for nodes of any size.
ghost use Rattle.std.specs.Prelude.{Ok};
ghost use Rattle.cyc_types.specs.TypedTrees as nodes;
ghost use Rattle.cyc_types.specs.TypedTreeView.{view_expression};
ghost use Rattle.cyc_scope.specs.inside.Code.{Gives};
ghost use Rattle.cyc_operands.specs.inside.Operands.{view_boxed};

use cyc_scope::Stop;
use cyc_types::typed;
use std::alloc::Global;

/// Returns a typed expression in a box.
#[inline(always)]
pub fn boxed(alloc: Global, expression: typed::Expr) -> Result<Box<typed::Expr>, Stop>
    ensures { Gives view_boxed result (Ok (view_expression expression)) }
{
    Ok(Box::new(alloc, expression)?)
}

/// Returns the tree node of an integer constant, in a box.
#[inline(never)]
pub fn number(alloc: Global, value: u32) -> Result<Box<typed::Expr>, Stop>
    ensures { Gives view_boxed result (Ok (nodes.Number value)) }
{
    boxed(alloc, typed::Expr::Number { value })
}

/// Returns the tree node of `NULL`, in a box.
#[inline(never)]
pub fn null_pointer(alloc: Global) -> Result<Box<typed::Expr>, Stop>
    ensures { Gives view_boxed result (Ok nodes.NullPointer) }
{
    boxed(alloc, typed::Expr::NullPointer)
}

/// Returns the tree node of `heap_region`, in a box.
#[inline(never)]
pub fn heap_region(alloc: Global) -> Result<Box<typed::Expr>, Stop>
    ensures { Gives view_boxed result (Ok nodes.HeapRegion) }
{
    boxed(alloc, typed::Expr::HeapRegion)
}
