//! The names that are visible in the whole text of a program.
ghost use Rattle.std.specs.Prelude.{◌≡◌, map, IfOk};
ghost use Rattle.cyc_syntax.specs.inside.TreeView.{view_declaration};
ghost use Rattle.cyc_types.specs.typing.DeclarationRules.{structs_of};

use crate::{NameSet, Region, RegionNames, StructNames};
use cyc_syntax::Declaration;
use std::alloc::{AllocError, Global};
use std::marker::Model;

/// The names that are visible in the whole text of a program: the built-in regions, its structs, and `main`.
#[derive(Drop)]
pub struct Known {
    structs: StructNames,
    /// The names of the heap and of the unique region.
    regions: RegionNames,
    heap: usize,
    unique: usize,
    main: usize,
}

impl Model for Known {
    ghost use Rattle.std.specs.Prelude.{◌≡◌};
    ghost use Rattle.cyc_types.specs.typing.DeclarationRules.{Known as KnownValue};
    ghost use Rattle.cyc_types.specs.inside.Namings.{first_regions};

    ghost Value = { KnownValue };

    ghost view = { λ k. record { regions = k.regions; structs = k.structs; main = k.main } };

    ghost invariant = { λ k. k.regions ≡ first_regions k.heap k.unique };
}

/// Returns the names and parameter counts of a program's structs, in order.
fn structs_of(alloc: Global, declarations: &[Declaration]) -> Result<StructNames, AllocError>
    ensures { IfOk result (λ structs. structs ≡ structs_of (map view_declaration declarations.now)) }
{
    let mut structs = StructNames::new(alloc);
    for declaration in declarations {
        if let Declaration::Struct { name, regions, .. } = declaration {
            structs.declare(name.name.number, regions.len())?;
        }
    }
    Ok(structs)
}

impl Known {
    ghost use Rattle.std.specs.Prelude.{◌≡◌, map, IfOk, OnOk};
    ghost use Rattle.cyc_syntax.specs.inside.TreeView.{view_declaration};
    ghost use Rattle.cyc_types.specs.typing.DeclarationRules.{structs_of, is_among, region_numbers};
    ghost use Rattle.cyc_types.specs.inside.Namings.{first_regions};

    /// Returns the names that are visible in a whole program with these declarations, from the names of the heap, the unique
    /// region and `main`.
    pub fn new(
        alloc: Global,
        heap: usize,
        unique: usize,
        main: usize,
        declarations: &[Declaration],
    ) -> Result<Known, AllocError>
        ensures { IfOk result (λ k. k ≡ record { regions = first_regions heap unique; structs = structs_of (map view_declaration declarations.now); main = main }) }
    {
        let mut regions = RegionNames::new(alloc);
        regions.declare(unique, Region::Unique)?;
        regions.declare(heap, Region::Heap)?;
        Ok(Known {
            structs: structs_of(alloc, declarations)?,
            regions,
            heap,
            unique,
            main,
        })
    }

    /// Returns the names of the declared structs.
    pub fn structs(&self) -> &StructNames
        ensures { result.now ≡ self.now.structs }
    {
        &self.structs
    }

    /// Returns the names of the built-in regions.
    pub fn regions(&self) -> &RegionNames
        ensures { result.now ≡ self.now.regions }
    {
        &self.regions
    }

    /// Returns the number that identifies the name `main`.
    pub fn main(&self) -> usize
        ensures { result ≡ self.now.main }
    {
        self.main
    }

    /// Returns true if `name` is the name of a built-in region.
    pub fn has_region(&self, name: usize) -> bool
        ensures { result ≡ is_among name (region_numbers self.now.regions) }
    {
        name == self.heap || name == self.unique
    }

    /// Resets a table of region names to the built-in region names.
    #[tactic(auto, using(std::proofs::lemmas::List::drop_all))]
    pub fn reset(&self, names: &mut RegionNames) -> Result<(), AllocError>
        ensures { OnOk result (names.new ≡ self.now.regions) }
    {
        names.close(0);
        names.declare(self.unique, Region::Unique)?;
        names.declare(self.heap, Region::Heap)
    }

    /// Resets a set of names to the built-in region names.
    pub fn reset_set(&self, names: &mut NameSet) -> Result<(), AllocError>
        ensures { OnOk result (names.new ≡ region_numbers self.now.regions) }
    {
        names.clear();
        names.add(self.unique)?;
        names.add(self.heap)
    }
}
