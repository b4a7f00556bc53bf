//! The type of a function and its requirements on callers, as its callers know them.
ghost use Rattle.std.specs.Prelude.{◌≡◌, List, map, option_map, IfOk};
ghost use Rattle.cyc_types.specs.Types.{substituted_region, substituted_ty};
ghost use Rattle.cyc_types.specs.TypeView.{view_ty};
ghost use Rattle.cyc_types.specs.inside.SignatureView.{substituted_pair};

use crate::{Region, Ty};
use smallvec::SmallVec;
use std::alloc::{AllocError, Global};

/// The type of a function together with its requirements on callers (live regions and outlives constraints). A
/// signature's region variables are numbered from 1.
#[derive(Drop)]
pub struct Signature {
    /// The number of regions in the types of the function's parameters: the named ones, and one for each omitted region.
    pub variables: usize,
    pub parameters: Vec<Ty>,
    /// The result type of the function; `None` for `void`.
    pub result: Option<Ty>,
    /// The regions that must be live at a call of the function.
    pub effect: SmallVec<Region, 4>,
    /// Pairs of regions, of which the first must outlive the second at a call.
    pub constraints: SmallVec<(Region, Region), 4>,
}

impl Signature {
    ghost use Rattle.std.specs.Prelude.{◌≡◌, IfOk};
    ghost use Rattle.cyc_types.specs.typing.Expressions.{instantiated};
    ghost use Rattle.cyc_types.specs.inside.SignatureView.{view_signature};

    /// Returns the signature as instantiated at a call: each region variable is replaced by the region at its number in `instance`.
    pub fn instantiated(&self, alloc: Global, instance: &[Region]) -> Result<Signature, AllocError>
        ensures { IfOk result (λ s. view_signature s ≡ instantiated instance.now (view_signature self.now)) }
    {
        Ok(Signature {
            variables: 0,
            parameters: types_substituted(alloc, &self.parameters, instance)?,
            result: result_substituted(alloc, &self.result, instance)?,
            effect: regions_substituted(alloc, &self.effect, instance)?,
            constraints: pairs_substituted(alloc, &self.constraints, instance)?,
        })
    }
}

fn types_substituted(
    alloc: Global,
    types: &[Ty],
    instance: &[Region],
) -> Result<Vec<Ty>, AllocError>
    ensures { IfOk result (λ all. map view_ty all.items ≡ map (substituted_ty instance.now) (map view_ty types.now)) }
{
    let mut all = Vec::with_capacity(alloc, types.len())?;
    for of_type in types {
        all.push(of_type.substituted(alloc, instance)?)?;
    }
    Ok(all)
}

fn result_substituted(
    alloc: Global,
    written: &Option<Ty>,
    instance: &[Region],
) -> Result<Option<Ty>, AllocError>
    ensures { IfOk result (λ t. option_map view_ty t ≡ option_map (substituted_ty instance.now) (option_map view_ty written.now)) }
{
    match written {
        Some(of_type) => Ok(Some(of_type.substituted(alloc, instance)?)),
        None => Ok(None),
    }
}

fn regions_substituted(
    alloc: Global,
    regions: &[Region],
    instance: &[Region],
) -> Result<SmallVec<Region, 4>, AllocError>
    ensures { IfOk result (λ all. all.items ≡ map (substituted_region instance.now) regions.now) }
{
    let mut all = SmallVec::with_capacity(alloc, regions.len())?;
    for region in regions {
        all.push(region.substituted(instance))?;
    }
    Ok(all)
}

fn pairs_substituted(
    alloc: Global,
    pairs: &[(Region, Region)],
    instance: &[Region],
) -> Result<SmallVec<(Region, Region), 4>, AllocError>
    ensures { IfOk result (λ all. all.items ≡ map (substituted_pair instance.now) pairs.now) }
{
    let mut all = SmallVec::with_capacity(alloc, pairs.len())?;
    for pair in pairs {
        all.push((pair.0.substituted(instance), pair.1.substituted(instance)))?;
    }
    Ok(all)
}
