//! Checks that the declarations of structs are well-formed.
ghost use Rattle.std.specs.Prelude.{◌≡◌, ◌∷◌, map, OnOk};
ghost use Rattle.cyc_syntax.specs.inside.TreeView.{view_name, view_member};
ghost use Rattle.cyc_types.specs.Rules.{Part, demands, run};
ghost use Rattle.cyc_types.specs.typing.Formation.{field_demanded};
ghost use Rattle.cyc_types.specs.typing.DeclarationRules.{parameter_names, rule_new, rule_fields, rule_struct};
ghost use Rattle.cyc_scope.specs.inside.Code.{Gives};

use crate::distinct::{check_distinct, check_new};
use cyc_scope::{Settled, Stop, demand_field};
use cyc_syntax::{Ident, Member};
use cyc_types::{Known, NameSet, Region, RegionNames, StructNames};
use std::alloc::AllocError;

/// The names that one struct or function declares: the names of its fields or parameters, and the names of regions.
#[derive(Drop)]
pub(crate) struct Inside {
    pub(crate) members: NameSet,
    pub(crate) regions: RegionNames,
}

/// Declares the region parameters of a struct, which become the region variables from 0 on.
pub(crate) fn declare_parameters(
    names: &mut RegionNames,
    parameters: &[Ident],
) -> Result<(), AllocError>
    ensures { OnOk result (names.new ≡ parameter_names (map view_name parameters.now) 0 names.old) }
{
    for i in (0..parameters.len()).rev() {
        names.declare(parameters[i].name.number, Region::Variable(i))?;
    }
    Ok(())
}

/// Checks that the type of a field is well-formed and the field's name is new, and adds the name to the names declared so far.
fn check_field(
    structs: &StructNames,
    names: &RegionNames,
    before: &mut NameSet,
    field: &Member,
) -> Result<(), Stop>
    ensures gives { Gives (λ _. tt) result (run (Part (demands (field_demanded structs.now names.now (view_member field.now).of_type))
        (λ _. rule_new before.old (view_member field.now).name))) }
    ensures before { OnOk result (before.new ≡ (view_member field.now).name.name ∷ before.old) }
{
    let mut settled = Settled::new();
    demand_field(&mut settled, structs, names, &field.of_type);
    settled.end()?;
    check_new(before, field.name)
}

fn check_fields(
    known: &Known,
    names: &RegionNames,
    before: &mut NameSet,
    fields: &[Member],
) -> Result<(), Stop>
    ensures { Gives (λ _. tt) result (run (rule_fields known.now names.now before.old (map view_member fields.now))) }
{
    for field in fields {
        check_field(known.structs(), names, before, field)?;
    }
    Ok(())
}

/// Checks that a struct is well-formed and the struct's name is new, and adds the name to the names declared so far.
pub(crate) fn check_struct(
    known: &Known,
    before: &mut NameSet,
    inside: &mut Inside,
    name: Ident,
    parameters: &[Ident],
    fields: &[Member],
) -> Result<(), Stop>
    ensures gives { Gives (λ _. tt) result (run (rule_struct known.now before.old (view_name name) (map view_name parameters.now)
        (map view_member fields.now))) }
    ensures before { OnOk result (before.new ≡ (view_name name).name ∷ before.old) }
{
    check_new(before, name)?;
    known.reset_set(&mut inside.members)?;
    check_distinct(&mut inside.members, parameters)?;
    known.reset(&mut inside.regions)?;
    declare_parameters(&mut inside.regions, parameters)?;
    inside.members.clear();
    check_fields(known, &inside.regions, &mut inside.members, fields)
}
