//! Computes the signature of a function from the function's declaration.
ghost use Rattle.std.specs.Prelude.{◌≡◌, pred, map, option_map, IfOk, OnOk};
ghost use Rattle.cyc_syntax.specs.inside.TreeView.{view_name, view_type, view_member, view_parameters, view_constraint};
ghost use Rattle.cyc_types.specs.declared.region.Region.TheVariants.{Heap};
ghost use Rattle.cyc_types.specs.TypeView.{view_ty};
ghost use Rattle.cyc_types.specs.inside.SignatureView.{view_signature};
ghost use Rattle.cyc_types.specs.typing.Formation.{region_of};
ghost use Rattle.cyc_types.specs.typing.DeclarationRules.{members_of, parameter_naming, parameter_types, result_written, and_result, effect_of};
ghost use Rattle.cyc_types.specs.typing.DeclarationRules.{constraints_of, signature_of};
ghost use Rattle.cyc_declarations.specs.inside.KeyTables.{AreKeysOf, without, effect_by};

use crate::keys::{Keys, keys_of};
use cyc_syntax::{Constraint, Ident, Member, ParameterList, Parameters, WrittenType};
use cyc_types::formation::{region_of, type_written};
use cyc_types::parameters::types_for;
use cyc_types::{Known, Region, RegionNames, Signature, Ty};
use smallvec::SmallVec;
use std::alloc::{AllocError, Global};

/// Returns the parameters of a function; a parameter list `void` has none.
pub fn members(parameters: &Parameters) -> &[Member]
    ensures { map view_member result.now ≡ members_of (view_parameters parameters.now).list }
{
    match &parameters.list {
        ParameterList::Void => &[],
        ParameterList::Listed { members } => members,
    }
}

/// The parameter and result types in the signature of a function.
#[derive(Drop)]
pub(crate) struct HeadTypes {
    parameters: Vec<Ty>,
    result: Option<Ty>,
    /// How many region variables the function has: one for each region that its parameters name or omit.
    variables: usize,
}

/// Returns the result type of a function; the type may use the region names that the parameters declare.
fn result_written(
    alloc: Global,
    known: &Known,
    names: &RegionNames,
    returned: &Option<WrittenType>,
) -> Result<Option<Ty>, AllocError>
    ensures { IfOk result (λ t. option_map view_ty t ≡ result_written known.now names.now (option_map view_type returned.now)) }
{
    match returned {
        Some(written) => {
            let of_type = type_written(alloc, known.structs(), names, Region::Heap, written)?;
            Ok(Some(of_type))
        }
        None => Ok(None),
    }
}

impl HeadTypes {
    ghost use Rattle.std.specs.Prelude.{◌≡◌, pred, map, option_map, IfOk, OnOk};
    ghost use Rattle.cyc_syntax.specs.inside.TreeView.{view_type, view_parameters};
    ghost use Rattle.cyc_types.specs.TypeView.{view_ty};
    ghost use Rattle.cyc_types.specs.typing.DeclarationRules.{parameter_naming, parameter_types, result_written, and_result};
    ghost use Rattle.cyc_declarations.specs.inside.KeyTables.{AreKeysOf};

    /// Returns the parameter and result types of a signature. After the call, `names` contains exactly the built-in region
    /// names and those that the signature's parameters declare.
    pub(crate) fn new(
        alloc: Global,
        known: &Known,
        names: &mut RegionNames,
        returned: &Option<WrittenType>,
        parameters: &Parameters,
    ) -> Result<HeadTypes, AllocError>
        ensures parameters { IfOk result (λ t. map view_ty t.parameters.items ≡ parameter_types known.now (view_parameters parameters.now)) }
        ensures returned { IfOk result (λ t. option_map view_ty t.result
            ≡ result_written known.now (parameter_naming known.now (view_parameters parameters.now)).names (option_map view_type returned.now)) }
        ensures variables { IfOk result (λ t. t.variables ≡ pred (parameter_naming known.now (view_parameters parameters.now)).next) }
        ensures names { OnOk result (names.new ≡ (parameter_naming known.now (view_parameters parameters.now)).names) }
    {
        known.reset(names)?;
        let mut next = 1;
        let parameters = types_for(
            alloc,
            known.structs(),
            names,
            &mut next,
            members(parameters),
        )?;
        let returned = result_written(alloc, known, names, returned)?;
        Ok(HeadTypes {
            parameters,
            result: returned,
            variables: next.saturating_sub(1),
        })
    }

    /// Returns the set of the regions that have a key (used to open dynamic regions) among the types of the signature.
    pub(crate) fn keys(&self, alloc: Global) -> Result<Keys, AllocError>
        ensures { IfOk result (λ keys. AreKeysOf keys (and_result (map view_ty self.now.parameters.items) (option_map view_ty self.now.result))) }
    {
        keys_of(alloc, &self.parameters, &self.result)
    }
}

/// Returns the first `variables` region variables, without those whose key (used to open a dynamic region) is in the set.
fn without_keys(
    alloc: Global,
    keys: &Keys,
    variables: usize,
) -> Result<SmallVec<Region, 4>, AllocError>
    ensures { IfOk result (λ rs. rs.items ≡ without keys.now variables 1) }
{
    let mut all = SmallVec::new(alloc);
    for i in 0..variables {
        let region = Region::Variable(i + 1);
        if !keys.has(region) {
            all.push(region)?;
        }
    }
    Ok(all)
}

fn regions_of(
    alloc: Global,
    names: &RegionNames,
    written: &[Ident],
) -> Result<SmallVec<Region, 4>, AllocError>
    ensures { IfOk result (λ rs. rs.items ≡ map (region_of names.now) (map view_name written.now)) }
{
    let mut all = SmallVec::with_capacity(alloc, written.len())?;
    for name in written {
        all.push(region_of(names, *name))?;
    }
    Ok(all)
}

/// Returns the effect of a signature (the regions that must be live at a call). An omitted effect consists of all regions
/// of the types, except the regions that have a key.
fn effect_of(
    alloc: Global,
    names: &RegionNames,
    keys: &Keys,
    variables: usize,
    effect: &Option<Vec<Ident>>,
) -> Result<SmallVec<Region, 4>, AllocError>
    ensures { IfOk result (λ rs. rs.items ≡ effect_by names.now keys.now variables (option_map (λ rs. map view_name rs.items) effect.now)) }
{
    match effect {
        Some(written) => regions_of(alloc, names, written),
        None => without_keys(alloc, keys, variables),
    }
}

fn constraints_of(
    alloc: Global,
    names: &RegionNames,
    written: &[Constraint],
) -> Result<SmallVec<(Region, Region), 4>, AllocError>
    ensures { IfOk result (λ cs. cs.items ≡ constraints_of names.now (map view_constraint written.now)) }
{
    let mut all = SmallVec::with_capacity(alloc, written.len())?;
    for constraint in written {
        let longer = region_of(names, constraint.longer);
        let shorter = region_of(names, constraint.shorter);
        all.push((longer, shorter))?;
    }
    Ok(all)
}

/// Returns the signature of a function. After the call, `names` contains exactly the built-in region names and those that the
/// signature's parameters declare.
#[tactic(auto, using(crate::proofs::KeyLemmas::effect_same))]
pub fn signature_of(
    alloc: Global,
    known: &Known,
    names: &mut RegionNames,
    returned: &Option<WrittenType>,
    parameters: &Parameters,
) -> Result<Signature, AllocError>
    ensures signature { IfOk result (λ s. view_signature s ≡ signature_of known.now (option_map view_type returned.now) (view_parameters parameters.now)) }
    ensures names { OnOk result (names.new ≡ (parameter_naming known.now (view_parameters parameters.now)).names) }
{
    let types = HeadTypes::new(alloc, known, names, returned, parameters)?;
    let keys = types.keys(alloc)?;
    let effect = effect_of(alloc, names, &keys, types.variables, &parameters.effect)?;
    let constraints = constraints_of(alloc, names, &parameters.constraints)?;
    Ok(Signature {
        variables: types.variables,
        parameters: types.parameters,
        result: types.result,
        effect,
        constraints,
    })
}
