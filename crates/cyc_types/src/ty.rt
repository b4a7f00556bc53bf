//! Types with explicit regions.

use crate::Region;
use cyc_syntax::PointerKind;
use smallvec::SmallVec;
use std::alloc::{AllocError, Global};
use std::rc::Rc;

/// A type in which each region is explicit. A value of this type is a well-formed type of the subset, or a struct type as the target of a
/// pointer. A copy of a type shares the original's target type and region arguments, so copying does not allocate.
#[derive(Drop)]
pub enum Ty {
    Int,
    /// The type of a byte, 0 to 255.
    Char,
    Pointer {
        kind: PointerKind,
        target: Rc<Ty>,
        region: Region,
    },
    /// `region_t<..>`
    Handle {
        region: Region,
    },
    /// `uregion_key_t<..>`
    Key {
        region: Region,
    },
    /// The struct with this index, with one region argument for each of its region parameters.
    Struct {
        number: usize,
        regions: Rc<SmallVec<Region, 4>>,
    },
}

impl Ty {
    ghost use Rattle.std.specs.Prelude.{◌≡◌, IsTrue, IfOk, ◌↔◌};
    ghost use Rattle.cyc_types.specs.Types.{substituted_ty, words_of};
    ghost use Rattle.cyc_types.specs.TypeView.{view_ty};

    /// Returns true if two types are equal at each level: in pointer kinds (`*`, `@`, `?`), regions and structs.
    pub fn equals(&self, other: &Ty) -> bool
        ensures { IsTrue result ↔ (view_ty self.now ≡ view_ty other.now) }
    {
        match (self, other) {
            (Ty::Int, Ty::Int) | (Ty::Char, Ty::Char) => true,
            (
                Ty::Pointer {
                    kind,
                    target,
                    region,
                },
                Ty::Pointer {
                    kind: other_kind,
                    target: other_target,
                    region: other_region,
                },
            ) => *kind == *other_kind && *region == *other_region && target.equals(other_target),
            (
                Ty::Handle { region },
                Ty::Handle {
                    region: other_region,
                },
            ) => *region == *other_region,
            (
                Ty::Key { region },
                Ty::Key {
                    region: other_region,
                },
            ) => *region == *other_region,
            (
                Ty::Struct { number, regions },
                Ty::Struct {
                    number: other_number,
                    regions: other_regions,
                },
            ) => *number == *other_number && regions.as_slice() == other_regions.as_slice(),
            _ => false,
        }
    }

    /// Returns a copy of the type that shares the original's target type and region arguments.
    pub fn share(&self) -> Result<Ty, AllocError>
        ensures { IfOk result (λ ty. view_ty ty ≡ view_ty self.now) }
    {
        Ok(match self {
            Ty::Int => Ty::Int,
            Ty::Char => Ty::Char,
            Ty::Pointer {
                kind,
                target,
                region,
            } => Ty::Pointer {
                kind: *kind,
                target: target.clone()?,
                region: *region,
            },
            Ty::Handle { region } => Ty::Handle { region: *region },
            Ty::Key { region } => Ty::Key { region: *region },
            Ty::Struct { number, regions } => Ty::Struct {
                number: *number,
                regions: regions.clone()?,
            },
        })
    }

    /// Returns the type with each region variable replaced by the region at its number in `map`; a region variable past the end of `map`
    /// stays.
    pub fn substituted(&self, alloc: Global, map: &[Region]) -> Result<Ty, AllocError>
        ensures { IfOk result (λ ty. view_ty ty ≡ substituted_ty map.now (view_ty self.now)) }
    {
        Ok(match self {
            Ty::Int => Ty::Int,
            Ty::Char => Ty::Char,
            Ty::Pointer {
                kind,
                target,
                region,
            } => {
                let target = target.substituted(alloc, map)?;
                Ty::Pointer {
                    kind: *kind,
                    target: Rc::new(alloc, target)?,
                    region: region.substituted(map),
                }
            }
            Ty::Handle { region } => Ty::Handle {
                region: region.substituted(map),
            },
            Ty::Key { region } => Ty::Key {
                region: region.substituted(map),
            },
            Ty::Struct { number, regions } => Ty::Struct {
                number: *number,
                regions: all_substituted(alloc, regions, map)?,
            },
        })
    }

    /// Returns the number of 32-bit words of a variable of this type: three for a fat pointer, otherwise one.
    pub fn words(&self) -> u32
        ensures { result ≡ words_of (view_ty self.now) }
    {
        match self {
            Ty::Pointer {
                kind: PointerKind::Fat,
                ..
            } => 3,
            _ => 1,
        }
    }
}

ghost use Rattle.std.specs.Prelude.{◌≡◌, IfOk, map};
ghost use Rattle.cyc_types.specs.Types.{substituted_region};

/// Returns the list of regions with replacements substituted for its region variables.
fn all_substituted(
    alloc: Global,
    regions: &[Region],
    replacements: &[Region],
) -> Result<Rc<SmallVec<Region, 4>>, AllocError>
    ensures { IfOk result (λ all. all.value.items ≡ map (substituted_region replacements.now) regions.now) }
{
    let mut all = SmallVec::with_capacity(alloc, regions.len())?;
    for region in regions {
        all.push(region.substituted(replacements))?;
    }
    Ok(Rc::new(alloc, all)?)
}
