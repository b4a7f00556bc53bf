//! A table of the region names in scope, with constant-time lookup.

use crate::{NameSet, Region};
use std::alloc::{AllocError, Global};
use std::marker::Model;

/// A region name in scope, the region that it denotes, and the region that it denoted before this declaration.
#[derive(Clone, Copy)]
struct Binding {
    name: usize,
    region: Region,
    hidden: Option<Region>,
}

/// The region names in scope. Contracts see this table as a list of names, newest first.
#[derive(Drop)]
pub struct RegionNames {
    /// The bindings of names to regions, oldest first.
    bindings: Vec<Binding>,
    /// For each name, the region that the name denotes, if any.
    newest: Vec<Option<Region>>,
}

impl Model for RegionNames {
    ghost use Rattle.std.specs.Prelude.{List};
    ghost use Rattle.cyc_types.specs.typing.Scopes.{RegionName};
    ghost use Rattle.cyc_types.specs.inside.Names.{names_of, Finds};

    ghost Value = { List RegionName };

    ghost view = { λ n. names_of n.bindings.items };

    ghost invariant = { λ n. Finds n.newest.items n.bindings.items };
}

impl RegionNames {
    ghost use Rattle.std.specs.Prelude.{◌≡◌, ℕ, ◌-◌, ◌<◌, [], ◌∷◌, ◌++◌, length, drop, get_or, None, OnOk};
    ghost use Rattle.cyc_types.specs.typing.Scopes.{region_among};
    ghost use Rattle.cyc_types.specs.typing.DeclarationRules.{region_numbers};

    /// Returns an empty table of region names.
    pub fn new(alloc: Global) -> RegionNames
        ensures { result ≡ [] }
    {
        RegionNames {
            bindings: Vec::new(alloc),
            newest: Vec::new(alloc),
        }
    }

    /// Returns the number of names in scope, including hidden ones.
    pub fn len(&self) -> usize
        ensures { result ≡ length self.now }
    {
        self.bindings.len()
    }

    /// Returns the region that the name denotes, if the name is declared.
    pub fn find(&self, name: usize) -> Option<Region>
        ensures { result ≡ region_among self.now name }
    {
        match self.newest.get(name) {
            Some(region) => *region,
            None => None,
        }
    }

    /// Declares a name; the declaration hides an older declaration of the same name.
    pub fn declare(&mut self, name: usize, region: Region) -> Result<(), AllocError>
        ensures { OnOk result (self.new ≡ record { name = name; region = region } ∷ self.old) }
    {
        grow(&mut self.newest, name)?;
        let hidden = self.newest[name];
        self.bindings.push(Binding {
            name,
            region,
            hidden,
        })?;
        self.newest[name] = Some(region);
        Ok(())
    }

    /// Removes the newest name from the table.
    fn undo(&mut self)
        ensures { self.new ≡ drop 1 self.old }
    {
        let Some(binding) = self.bindings.pop() else {
            return;
        };
        self.newest[binding.name] = binding.hidden;
    }

    /// Removes all names except the `count` oldest.
    #[tactic(auto, using(cyc_words::proofs::Lists::drop_one_more))]
    pub fn close(&mut self, count: usize)
        ensures { self.new ≡ drop (length self.old - count) self.old }
    {
        for _ in count..self.len() {
            self.undo();
        }
    }

    /// Adds the names to a set, oldest first.
    pub fn add_to(&self, set: &mut NameSet) -> Result<(), AllocError>
        ensures { OnOk result (set.new ≡ region_numbers self.now ++ set.old) }
    {
        add_all(&self.bindings, set)
    }
}

ghost use Rattle.std.specs.Prelude.{◌≡◌, ℕ, ◌<◌, ◌++◌, length, get_or, None, OnOk};
ghost use Rattle.cyc_types.specs.typing.DeclarationRules.{region_numbers};
ghost use Rattle.cyc_types.specs.inside.Names.{names_of};

/// Adds the names of bindings to a set, oldest first.
fn add_all(bindings: &[Binding], set: &mut NameSet) -> Result<(), AllocError>
    ensures { OnOk result (set.new ≡ region_numbers (names_of bindings.now) ++ set.old) }
{
    for binding in bindings {
        set.add(binding.name)?;
    }
    Ok(())
}

/// Grows the table of regions, indexed by name, until it has an entry for `name`.
fn grow(table: &mut Vec<Option<Region>>, name: usize) -> Result<(), AllocError>
    ensures same { (x : ℕ) → get_or table.new.items x None ≡ get_or table.old.items x None }
    ensures long { OnOk result (name < length table.new.items) }
{
    if name < table.len() {
        return Ok(());
    }
    let Some(length) = name.checked_add(1) else {
        return Err(AllocError);
    };
    table.resize(length, None)?;
    Ok(())
}
