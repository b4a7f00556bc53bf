//! Checks that the signatures of functions are well-formed.
ghost use Rattle.std.specs.Prelude.{◌≡◌, ◌∷◌, ◌||◌, List, None, Some, nat_eq, not, map, option_map, OnOk};
ghost use Rattle.cyc_syntax.specs.inside.TreeView.{place_of_span, view_name, view_type, view_member, view_parameters, view_constraint};
ghost use Rattle.cyc_types.specs.Types.{Ty};
ghost use Rattle.cyc_types.specs.Rules.{Part, demands, settled as settle, run};
ghost use Rattle.cyc_types.specs.typing.Formation.{type_demanded};
ghost use Rattle.cyc_types.specs.typing.DeclarationRules.{is_int_written, is_main_head, is_function_new, head_demanded, result_demanded};
ghost use Rattle.cyc_types.specs.typing.DeclarationRules.{effect_demanded, constraints_demanded, rule_new, rule_parameters, rule_effect};
ghost use Rattle.cyc_types.specs.typing.DeclarationRules.{rule_function_head};
ghost use Rattle.cyc_scope.specs.inside.Code.{Gives, Ends};
ghost use Rattle.cyc_declarations.specs.inside.KeyTables.{effect_asked, AreKeysOf};

use crate::distinct::check_new;
use crate::globals::demand_head;
use crate::keys::Keys;
use crate::signatures::{HeadTypes, members};
use crate::structs::Inside;
use cyc_scope::{Settled, Stop, demand_name, demand_other, demand_type, is_name_of};
use cyc_syntax::{BaseType, Constraint, Ident, Member, Parameters, WrittenType};
use cyc_types::formation::region_of;
use cyc_types::{Known, NameSet, Region, RegionNames};
use cyc_words::Code;
use std::alloc::Global;

/// Returns true if the result type of a function is written as `int`.
fn is_int_written(returned: &Option<WrittenType>) -> bool
    ensures { result ≡ is_int_written (option_map view_type returned.now) }
{
    match returned {
        Some(written) => match written.base {
            BaseType::Int => written.marks.is_empty(),
            _ => false,
        },
        None => false,
    }
}

/// Returns true if a function with the given signature may have the name `main`.
fn is_main_head(returned: &Option<WrittenType>, parameters: &Parameters) -> bool
    ensures { result ≡ is_main_head (option_map view_type returned.now) (view_parameters parameters.now) }
{
    is_int_written(returned)
        && members(parameters).is_empty()
        && parameters.effect.is_none()
        && parameters.constraints.is_empty()
}

/// Checks that the result type of a function, as written, is well-formed; it may use the region names that the parameters declare.
fn check_result(
    known: &Known,
    names: &RegionNames,
    returned: &Option<WrittenType>,
) -> Result<(), Stop>
    ensures { Ends result (settle None (result_demanded known.now names.now (option_map view_type returned.now))) }
{
    let mut settled = Settled::new();
    if let Some(written) = returned {
        demand_type(&mut settled, known.structs(), names, None, written);
    }
    settled.end()
}

/// Checks that the name of a function is new; the name may be `main` only if the signature is allowed for `main`.
fn check_name(
    known: &Known,
    before: &NameSet,
    returned: &Option<WrittenType>,
    name: Ident,
    parameters: &Parameters,
) -> Result<(), Stop>
    ensures { Ends result (settle None (head_demanded (view_name name).place (is_function_new known.now before.now (view_name name).name)
        (not (nat_eq (view_name name).name known.now.main) || is_main_head (option_map view_type returned.now) (view_parameters parameters.now)))) }
{
    let number = name.name.number;
    let is_new = !before.has(number) && !known.has_region(number);
    let is_no_main = number != known.main() || is_main_head(returned, parameters);
    let mut settled = Settled::new();
    demand_head(&mut settled, name, is_new, is_no_main);
    settled.end()
}

/// Checks that the type of a parameter is well-formed and the parameter's name is new, and adds the name to the names declared so far.
fn check_parameter(
    known: &Known,
    own: usize,
    before: &mut NameSet,
    parameter: &Member,
) -> Result<(), Stop>
    ensures gives { Gives (λ _. tt) result (run (Part (demands
        (type_demanded known.now.structs known.now.regions (Some own) (view_member parameter.now).of_type))
        (λ _. rule_new before.old (view_member parameter.now).name))) }
    ensures before { OnOk result (before.new ≡ (view_member parameter.now).name.name ∷ before.old) }
{
    let mut settled = Settled::new();
    demand_type(
        &mut settled,
        known.structs(),
        known.regions(),
        Some(own),
        &parameter.of_type,
    );
    settled.end()?;
    check_new(before, parameter.name)
}

fn check_parameters(
    known: &Known,
    own: usize,
    before: &mut NameSet,
    parameters: &[Member],
) -> Result<(), Stop>
    ensures { Gives (λ _. tt) result (run (rule_parameters known.now own before.old (map view_member parameters.now))) }
{
    for parameter in parameters {
        check_parameter(known, own, before, parameter)?;
    }
    Ok(())
}

/// Requires that the regions of an effect as written are in scope. No region of the effect may be the unique region or have
/// a key (for opening it).
fn demand_effect(settled: &mut Settled, names: &RegionNames, keys: &Keys, regions: &[Ident])
    ensures { settled.new.known ≡ settle settled.old.known (effect_asked names.now keys.now (map view_name regions.now)) }
{
    for name in regions {
        demand_name(settled, names, None, *name);
        let is_unique = is_name_of(names, Region::Unique, *name);
        let has_key = keys.has(region_of(names, *name));
        settled.demand(Code::RegionOrKeyMisused, name.span, !is_unique && !has_key);
    }
}

/// Checks that an effect is well-formed, given the keys of dynamic regions among the function's types.
#[tactic(auto, using(crate::proofs::KeyLemmas::asked_same))]
fn check_effect(names: &RegionNames, keys: &Keys, effect: &Option<Vec<Ident>>) -> Result<(), Stop>
    ensures { (ts : List Ty) → AreKeysOf keys.now ts → Gives (λ _. tt) result
        (run (rule_effect names.now ts (option_map (λ rs. map view_name rs.items) effect.now))) }
{
    let mut settled = Settled::new();
    if let Some(regions) = effect {
        demand_effect(&mut settled, names, keys, regions);
    }
    settled.end()
}

fn check_constraints(names: &RegionNames, constraints: &[Constraint]) -> Result<(), Stop>
    ensures { Ends result (settle None (constraints_demanded names.now (map view_constraint constraints.now))) }
{
    let mut settled = Settled::new();
    for constraint in constraints {
        demand_name(&mut settled, names, None, constraint.longer);
        demand_other(&mut settled, names, Region::Unique, constraint.longer);
        demand_name(&mut settled, names, None, constraint.shorter);
        demand_other(&mut settled, names, Region::Unique, constraint.shorter);
    }
    settled.end()
}

/// Checks that the signature of a function is well-formed and the function's name is new, and adds the name to the names declared so far.
pub(crate) fn check_function(
    alloc: Global,
    known: &Known,
    before: &mut NameSet,
    inside: &mut Inside,
    returned: &Option<WrittenType>,
    name: Ident,
    parameters: &Parameters,
) -> Result<(), Stop>
    ensures gives { Gives (λ _. tt) result (run (rule_function_head known.now before.old (option_map view_type returned.now) (view_name name)
        (view_parameters parameters.now))) }
    ensures before { OnOk result (before.new ≡ (view_name name).name ∷ before.old) }
{
    let types = HeadTypes::new(alloc, known, &mut inside.regions, returned, parameters)?;
    let keys = types.keys(alloc)?;
    drop(types);
    check_result(known, &inside.regions, returned)?;
    check_name(known, before, returned, name, parameters)?;
    inside.members.clear();
    check_parameters(
        known,
        name.name.number,
        &mut inside.members,
        members(parameters),
    )?;
    check_effect(&inside.regions, &keys, &parameters.effect)?;
    check_constraints(&inside.regions, &parameters.constraints)?;
    before.add(name.name.number)?;
    Ok(())
}
