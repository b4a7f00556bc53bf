//! Computes the typed tree of a syntax tree, or its fault.
ghost use Rattle.std.specs.Prelude.{◌≡◌, map};
ghost use Rattle.cyc_words.specs.Decision.{Decides};
ghost use Rattle.cyc_syntax.specs.inside.TreeView.{view_declaration};
ghost use Rattle.cyc_types.specs.TypedTreeView.{view_program};
ghost use Rattle.cyc_types.specs.typing.Programs.{IsTypedProgram, IsRefusedProgram, check_of};
ghost use Rattle.cyc_scope.specs.inside.Code.{Gives};

use crate::functions::functions_of;
use cyc_declarations::{collect, parts_of};
use cyc_scope::Stop;
use cyc_syntax::Tree;
use cyc_types::TypedTree;
use cyc_words::Fault;
use std::alloc::Global;

/// Returns the typed tree of a syntax tree, exactly if the typing rules derive one.
///
/// If the tree is not well-typed, `check` returns the first fault: in the declarations in order, then for a missing `main`, at 1:1, and
/// then in the bodies in order. Of all faults of one construct, the one with the lowest code is returned. An allocation for any table
/// or node may fail for lack of memory.
pub fn check(alloc: Global, tree: &Tree) -> Result<TypedTree, Fault>
    // If `check` accepts a program, the result is its typed tree; if it rejects a program, the result is its fault.
    ensures decides { Decides (IsTypedProgram tree.now.names (map view_declaration tree.now.declarations.items))
        (λ program typed. view_program typed ≡ program) (IsRefusedProgram tree.now.names (map view_declaration tree.now.declarations.items))
        (IsRefusedProgram tree.now.names (map view_declaration tree.now.declarations.items)) result }
{
    Ok(typed_tree(alloc, tree)?)
}

/// Returns the result that the typing rules determine for a syntax tree.
fn typed_tree(alloc: Global, tree: &Tree) -> Result<TypedTree, Stop>
    ensures { Gives view_program result (check_of tree.now.names (map view_declaration tree.now.declarations.items)) }
{
    let program = collect(alloc, tree)?;
    let declarations = tree.declarations.as_slice();
    let parts = parts_of(alloc, program.known(), declarations)?;
    let functions = functions_of(alloc, &program, declarations)?;
    Ok(parts.with_functions(functions))
}
