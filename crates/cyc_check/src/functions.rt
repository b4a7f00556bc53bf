//! Checks the bodies of functions.
ghost use Rattle.std.specs.Prelude.{◌≡◌, map, option_map, IfOk};
ghost use Rattle.cyc_syntax.specs.inside.TreeView.{place_of_span, view_name, view_type, view_parameters, view_block, view_declaration};
ghost use Rattle.cyc_types.specs.inside.SignatureView.{view_signature};
ghost use Rattle.cyc_types.specs.TypedTreeView as typed_view;
ghost use Rattle.cyc_types.specs.Rules.{run};
ghost use Rattle.cyc_types.specs.typing.DeclarationRules.{signature_of};
ghost use Rattle.cyc_types.specs.typing.Programs.{rule_function, rule_functions};
ghost use Rattle.cyc_scope.specs.inside.Code.{Gives};
ghost use Rattle.cyc_check.specs.inside.FunctionParts.{function_with};

use crate::declared_types::add_item_types;
use crate::statements::check_items;
use cyc_declarations::{members, signature_of};
use cyc_scope::{Program, Scope, Stop, Tables};
use cyc_syntax::{Block, Declaration, Ident, Parameters, WrittenType};
use cyc_types::{Signature, typed};
use cyc_words::Span;
use std::alloc::{AllocError, Global};

/// Returns the typed function with this signature, these declarations and statements, and this number of regions. The function's
/// body ends at the given source position.
fn function_with(
    alloc: Global,
    signature: Signature,
    name: Ident,
    body: Vec<typed::Item>,
    regions: usize,
    end: Span,
) -> Result<typed::Function, AllocError>
    ensures { IfOk result (λ f. typed_view.view_function f
        ≡ function_with (view_signature signature) (view_name name) regions (place_of_span end) (typed_view.items_of body.items)) }
{
    let mut locals = Vec::new(alloc);
    add_item_types(&body, &mut locals)?;
    Ok(typed::Function {
        name: name.name,
        span: name.span,
        parameters: signature.parameters,
        result: signature.result,
        variables: signature.variables,
        effect: signature.effect,
        constraints: signature.constraints,
        locals,
        region: 0,
        regions,
        body,
        end,
    })
}

/// A function that the checker has accepted, and the tables of names and locals, which are reused for the check of the next function.
#[derive(Drop)]
struct Checked {
    function: typed::Function,
    tables: Tables,
}

fn check_function(
    alloc: Global,
    program: &Program,
    tables: Tables,
    returned: &Option<WrittenType>,
    name: Ident,
    parameters: &Parameters,
    block: &Block,
) -> Result<Checked, Stop>
    ensures { Gives (λ k. typed_view.view_function k.function) result
        (run (rule_function program.now (signature_of program.now.known (option_map view_type returned.now) (view_parameters parameters.now))
        (view_name name) (view_parameters parameters.now) (view_block block.now))) }
{
    let mut tables = tables;
    let signature = signature_of(
        alloc,
        program.known(),
        &mut tables.names,
        returned,
        parameters,
    )?;
    let members = members(parameters);
    let mut scope = Scope::of_body(alloc, program, tables, &signature, name, members)?;
    let body = check_items(&mut scope, &block.items)?;
    let regions = scope.next_region();
    let function = function_with(alloc, signature, name, body, regions, block.end)?;
    Ok(Checked {
        function,
        tables: scope.into_tables(),
    })
}

/// Returns the typed functions of a program, or the first fault in their bodies.
pub(crate) fn functions_of(
    alloc: Global,
    program: &Program,
    declarations: &[Declaration],
) -> Result<Vec<typed::Function>, Stop>
    ensures { Gives (λ v. map typed_view.view_function v.items) result (run (rule_functions program.now (map view_declaration declarations.now))) }
{
    let mut tables = Tables::new(alloc);
    let mut all = Vec::new(alloc);
    for declaration in declarations {
        match declaration {
            Declaration::Struct { .. } => {}
            Declaration::Exceptions { .. } => {}
            Declaration::Global { .. } => {}
            Declaration::Function {
                result,
                name,
                parameters,
                body,
            } => {
                let checked = check_function(
                    alloc, program, tables, result, *name, parameters, body,
                )?;
                tables = checked.tables;
                all.push(checked.function)?;
            }
        }
    }
    Ok(all)
}
