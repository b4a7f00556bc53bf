//! Searches for a `break` that leaves the body of a loop.
ghost use Rattle.std.specs.Prelude.{◌≡◌};
ghost use Rattle.cyc_types.specs.TypedTrees.{NoClauses};
ghost use Rattle.cyc_types.specs.TypedTreeView.{view_statement, items_of, clauses_of, default_of};
ghost use Rattle.cyc_lower_proof.specs.inside.ControlCode.{breaks, items_break, clauses_break};
ghost use Rattle.cyc_lower.specs.inside.Emission.{item_breaks};

use cyc_types::typed::{Body, Clause, Item, Stmt};

/// Returns true if a statement may leave the enclosing loop by a `break`.
#[cycle(breaks)]
pub(crate) fn breaks(statement: &Stmt) -> bool
    ensures { result ≡ breaks (view_statement statement.now) }
{
    match statement {
        Stmt::Block { items, .. } => items_break(items),
        Stmt::If {
            then,
            otherwise,
            ..
        } => breaks(then) || breaks(otherwise),
        Stmt::Try {
            body,
            clauses,
            default,
            ..
        } => {
            if breaks(body) {
                return true;
            }
            if clauses_break(clauses) {
                return true;
            }
            default_breaks(default)
        }
        Stmt::Break => true,
        _ => false,
    }
}

#[cycle(breaks)]
fn item_breaks(item: &Item) -> bool
    ensures { result ≡ item_breaks item.now }
{
    match item {
        Item::Execute { statement } => breaks(statement),
        _ => false,
    }
}

#[cycle(breaks)]
fn items_break(items: &[Item]) -> bool
    ensures { result ≡ items_break (items_of items.now) }
{
    for item in items {
        if item_breaks(item) {
            return true;
        }
    }
    false
}

#[cycle(breaks)]
fn clauses_break(clauses: &[Clause]) -> bool
    ensures { result ≡ clauses_break (clauses_of clauses.now NoClauses) }
{
    for clause in clauses {
        if items_break(&clause.items) {
            return true;
        }
    }
    false
}

#[cycle(breaks)]
fn default_breaks(default: &Option<Body>) -> bool
    ensures { result ≡ clauses_break (default_of default.now) }
{
    match default {
        Some(body) => items_break(&body.items),
        None => false,
    }
}
