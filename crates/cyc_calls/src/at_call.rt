//! A signature at a call: each region variable is replaced by the region that the table has for this variable.
ghost use Rattle.std.specs.Prelude.{◌≡◌, option_map, IfOk};
ghost use Rattle.cyc_types.specs.Types.{substituted_region, substituted_ty};
ghost use Rattle.cyc_types.specs.TypeView.{view_ty};
ghost use Rattle.cyc_types.specs.inside.SignatureView.{view_signature};
ghost use Rattle.cyc_types.specs.typing.Expressions.{instantiated};
ghost use Rattle.cyc_calls.specs.inside.Instances.{instance_in};

use cyc_types::{Region, Signature, Ty};
use smallvec::SmallVec;
use std::alloc::{AllocError, Global};

/// Returns the region that replaces a parameter's region at a call. A variable without a recorded region becomes the heap.
pub(crate) fn region_at(table: &[Option<Region>], region: Region) -> Region
    ensures { result ≡ substituted_region (instance_in table.now) region }
{
    match region {
        Region::Variable(number) => match table.get(number) {
            Some(known) => known.unwrap_or(Region::Heap),
            None => region,
        },
        Region::Heap | Region::Unique => region,
    }
}

/// Returns the regions of a table; a variable without a recorded region has the heap.
fn regions_in(alloc: Global, table: &[Option<Region>]) -> Result<SmallVec<Region, 5>, AllocError>
    ensures { IfOk result (λ all. all.items ≡ instance_in table.now) }
{
    let mut all = SmallVec::with_capacity(alloc, table.len())?;
    for region in table {
        all.push(region.unwrap_or(Region::Heap))?;
    }
    Ok(all)
}

/// Returns the whole signature as it is at a call, with its region variables replaced.
pub(crate) fn signature_at(
    alloc: Global,
    table: &[Option<Region>],
    signature: &Signature,
) -> Result<Signature, AllocError>
    ensures { IfOk result (λ s. view_signature s ≡ instantiated (instance_in table.now) (view_signature signature.now)) }
{
    let regions = regions_in(alloc, table)?;
    signature.instantiated(alloc, &regions)
}

/// Returns the type of the result of a call, with the region variables replaced.
pub(crate) fn result_at(
    alloc: Global,
    table: &[Option<Region>],
    written: &Option<Ty>,
) -> Result<Option<Ty>, AllocError>
    ensures { IfOk result (λ t. option_map view_ty t ≡ option_map (substituted_ty (instance_in table.now)) (option_map view_ty written.now)) }
{
    match written {
        None => Ok(None),
        Some(Ty::Int) => Ok(Some(Ty::Int)),
        Some(Ty::Char) => Ok(Some(Ty::Char)),
        Some(of_type) => {
            let regions = regions_in(alloc, table)?;
            Ok(Some(of_type.substituted(alloc, &regions)?))
        }
    }
}
