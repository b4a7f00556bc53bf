//! The set of the regions whose keys (used to open dynamic regions) occur in a list of types.
ghost use Rattle.std.specs.Prelude.{◌≡◌, ◌||◌, map, option_map, IfOk, OnOk};
ghost use Rattle.cyc_types.specs.declared.region.Region.{Region};
ghost use Rattle.cyc_types.specs.TypeView.{view_ty};
ghost use Rattle.cyc_types.specs.typing.Formation.{is_key_of};
ghost use Rattle.cyc_types.specs.typing.DeclarationRules.{has_key, and_result};
ghost use Rattle.cyc_declarations.specs.inside.KeyTables.{has, AreKeysOf};

use cyc_types::{NameSet, Region, Ty};
use std::alloc::{AllocError, Global};

/// The regions whose keys (used to open dynamic regions) occur in a list of types. A region is looked up in constant time.
#[derive(Drop)]
pub(crate) struct Keys {
    heap: bool,
    unique: bool,
    /// The indices of the region variables whose keys (used to open dynamic regions) occur in the types.
    variables: NameSet,
}

impl Keys {
    ghost use Rattle.std.specs.Prelude.{◌≡◌, ◌||◌, IfOk, OnOk, false};
    ghost use Rattle.cyc_types.specs.declared.region.Region.{Region};
    ghost use Rattle.cyc_types.specs.TypeView.{view_ty};
    ghost use Rattle.cyc_types.specs.typing.Formation.{is_key_of};
    ghost use Rattle.cyc_declarations.specs.inside.KeyTables.{has};

    fn new(alloc: Global) -> Keys
        ensures { (r : Region) → has result r ≡ false }
    {
        Keys {
            heap: false,
            unique: false,
            variables: NameSet::new(alloc),
        }
    }

    /// Returns true if the set contains the given region, as one that has a key (used to open a dynamic region).
    pub(crate) fn has(&self, region: Region) -> bool
        ensures { result ≡ has self.now region }
    {
        match region {
            Region::Heap => self.heap,
            Region::Unique => self.unique,
            Region::Variable(number) => self.variables.has(number),
        }
    }

    /// Adds the region of a type to the set, if the type is that of a key (used to open a dynamic region).
    fn add(&mut self, of_type: &Ty) -> Result<(), AllocError>
        ensures { OnOk result ((r : Region) → has self.new r ≡ (has self.old r || is_key_of r (view_ty of_type.now))) }
    {
        if let Ty::Key { region } = of_type {
            match region {
                Region::Heap => self.heap = true,
                Region::Unique => self.unique = true,
                Region::Variable(number) => self.variables.add(*number)?,
            }
        }
        Ok(())
    }
}

/// Returns the set of the regions whose keys (used to open dynamic regions) are among the types of parameters and result.
pub(crate) fn keys_of(
    alloc: Global,
    types: &[Ty],
    returned: &Option<Ty>,
) -> Result<Keys, AllocError>
    ensures { IfOk result (λ keys. (r : Region) → has keys r ≡ has_key (and_result (map view_ty types.now) (option_map view_ty returned.now)) r) }
{
    let mut keys = Keys::new(alloc);
    if let Some(of_type) = returned {
        keys.add(of_type)?;
    }
    for of_type in types {
        keys.add(of_type)?;
    }
    Ok(keys)
}
