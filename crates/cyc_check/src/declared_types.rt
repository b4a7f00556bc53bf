//! Collects the types of the locals that a body declares, from its typed tree.
ghost use Rattle.std.specs.Prelude.{◌≡◌, ◌++◌, map, [], ◌∷◌, OnOk};
ghost use Rattle.cyc_types.specs.TypeView.{view_ty};
ghost use Rattle.cyc_types.specs.TypedTrees.{NoItems, MoreItems, NoClauses};
ghost use Rattle.cyc_types.specs.TypedTreeView.{view_statement, view_item, items_of, clauses_of};
ghost use Rattle.cyc_types.specs.Declarations.{declared_types, item_types, clause_types};

use cyc_types::typed::{Clause, Item, Stmt};
use cyc_types::{Region, Ty};
use std::alloc::AllocError;

/// Appends the types of the locals that a statement declares to the list of types.
#[cycle(declared)]
fn add_statement_types(statement: &Stmt, types: &mut Vec<Ty>) -> Result<(), AllocError>
    ensures { OnOk result (map view_ty types.new.items ≡ map view_ty types.old.items ++ declared_types (view_statement statement.now)) }
{
    match statement {
        Stmt::Block { items, .. } => add_item_types(items, types),
        Stmt::If {
            then,
            otherwise,
            ..
        } => {
            add_statement_types(then, types)?;
            add_statement_types(otherwise, types)
        }
        Stmt::While { body, .. } => add_statement_types(body, types),
        Stmt::Try {
            body,
            clauses,
            default,
            ..
        } => {
            add_statement_types(body, types)?;
            add_clause_types(clauses, types)?;
            match default {
                Some(body) => add_item_types(&body.items, types),
                None => Ok(()),
            }
        }
        _ => Ok(()),
    }
}

/// Appends the types of the locals that the declarations and statements of a block declare to the list of types.
#[cycle(declared)]
pub(crate) fn add_item_types(items: &[Item], types: &mut Vec<Ty>) -> Result<(), AllocError>
    ensures { OnOk result (map view_ty types.new.items ≡ map view_ty types.old.items ++ item_types (items_of items.now)) }
{
    for item in items {
        add_one_item_types(item, types)?;
    }
    Ok(())
}

/// Appends the types of the locals that one declaration or statement declares to the list of types.
#[cycle(declared)]
fn add_one_item_types(item: &Item, types: &mut Vec<Ty>) -> Result<(), AllocError>
    ensures { OnOk result (map view_ty types.new.items ≡ map view_ty types.old.items ++ item_types (MoreItems (view_item item.now) NoItems)) }
{
    match item {
        Item::Execute { statement } => add_statement_types(statement, types),
        Item::Local { of_type, .. } | Item::Alias { of_type, .. } => add(of_type.share()?, types),
        Item::Region { region, .. } | Item::Open { region, .. } => {
            let region = Region::Variable(*region);
            add(Ty::Handle { region }, types)
        }
        Item::DynamicRegion { region, .. } => {
            let region = Region::Variable(*region);
            add(Ty::Key { region }, types)
        }
    }
}

/// Appends the types of the locals that the clauses of a `catch` declare to the list of types.
#[cycle(declared)]
fn add_clause_types(clauses: &[Clause], types: &mut Vec<Ty>) -> Result<(), AllocError>
    ensures { OnOk result (map view_ty types.new.items ≡ map view_ty types.old.items ++ clause_types (clauses_of clauses.now NoClauses)) }
{
    for clause in clauses {
        if clause.number.is_some() {
            add(Ty::Int, types)?;
        }
        add_item_types(&clause.items, types)?;
    }
    Ok(())
}

fn add(of_type: Ty, types: &mut Vec<Ty>) -> Result<(), AllocError>
    ensures { OnOk result (map view_ty types.new.items ≡ map view_ty types.old.items ++ view_ty of_type ∷ []) }
{
    types.push(of_type)?;
    Ok(())
}
