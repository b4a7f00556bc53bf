//! The structs of a program; a struct is found by its name in constant time.

use std::alloc::{AllocError, Global};
use std::marker::Model;

/// A struct found by its name: the struct's index among the structs, and the number of its region parameters.
#[derive(Clone, Copy)]
pub struct Known {
    pub number: usize,
    pub parameters: usize,
}

/// A declared struct: its name and the number of its region parameters.
#[derive(Clone, Copy)]
struct Entry {
    name: usize,
    parameters: usize,
}

/// The declared structs in order; a struct's number is its index in this list. If a name is declared twice, the first declaration counts.
#[derive(Drop)]
pub struct StructNames {
    entries: Vec<Entry>,
    /// For each name, the first struct with that name, if any.
    by_name: Vec<Option<Known>>,
}

impl Model for StructNames {
    ghost use Rattle.std.specs.Prelude.{◌≡◌, ℕ, List, map, get_or, None};
    ghost use Rattle.cyc_types.specs.typing.Scopes.{StructName};
    ghost use Rattle.cyc_types.specs.inside.StructTables.{view_entry, known_from};

    ghost Value = { List StructName };

    ghost view = { λ s. map view_entry s.entries.items };

    ghost invariant = { λ s. (x : ℕ) → get_or s.by_name.items x None ≡ known_from 0 (map view_entry s.entries.items) x };
}

impl StructNames {
    ghost use Rattle.std.specs.Prelude.{◌≡◌, ℕ, [], ◌∷◌, ◌++◌, length, OnOk};
    ghost use Rattle.cyc_types.specs.typing.Formation.{struct_number, parameters_among};
    ghost use Rattle.cyc_types.specs.inside.StructTables.{known_from};

    /// Returns an empty list of structs.
    pub fn new(alloc: Global) -> StructNames
        ensures { result ≡ [] }
    {
        StructNames {
            entries: Vec::new(alloc),
            by_name: Vec::new(alloc),
        }
    }

    fn len(&self) -> usize
        ensures { result ≡ length self.now }
    {
        self.entries.len()
    }

    /// Returns the first struct with the given name, if any.
    fn find(&self, name: usize) -> Option<Known>
        ensures { result ≡ known_from 0 self.now name }
    {
        match self.by_name.get(name) {
            Some(known) => *known,
            None => None,
        }
    }

    /// Returns the index of the first struct with the given name, or the count of all structs if no struct has the name.
    #[tactic(auto, using(crate::proofs::StructLemmas::number_found, crate::proofs::StructLemmas::number_lost))]
    pub fn number(&self, name: usize) -> usize
        ensures { result ≡ struct_number self.now name }
    {
        match self.find(name) {
            Some(known) => known.number,
            None => self.len(),
        }
    }

    /// Returns the number of region parameters of the struct with the given name, if the struct exists.
    #[tactic(auto, using(crate::proofs::StructLemmas::parameters_found, crate::proofs::StructLemmas::parameters_lost))]
    pub fn parameters(&self, name: usize) -> Option<usize>
        ensures { result ≡ parameters_among self.now name }
    {
        match self.find(name) {
            Some(known) => Some(known.parameters),
            None => None,
        }
    }

    /// Declares a struct with the given number of region parameters. A lookup still finds an earlier struct with the same name.
    pub fn declare(&mut self, name: usize, parameters: usize) -> Result<(), AllocError>
        ensures { OnOk result (self.new ≡ self.old ++ record { name = name; parameters = parameters } ∷ []) }
    {
        grow(&mut self.by_name, name)?;
        let known = self.find(name);
        let number = self.len();
        self.entries.push(Entry { name, parameters })?;
        match known {
            Some(_) => {}
            None => self.by_name[name] = Some(Known { number, parameters }),
        }
        Ok(())
    }
}

ghost use Rattle.std.specs.Prelude.{◌≡◌, ℕ, ◌<◌, length, get_or, None, OnOk};

/// Grows the table of structs, indexed by name, until it has an entry for `name`.
fn grow(table: &mut Vec<Option<Known>>, name: usize) -> Result<(), AllocError>
    ensures same { (x : ℕ) → get_or table.new.items x None ≡ get_or table.old.items x None }
    ensures long { OnOk result (name < length table.new.items) }
{
    if name < table.len() {
        return Ok(());
    }
    let Some(length) = name.checked_add(1) else {
        return Err(AllocError);
    };
    table.resize(length, None)?;
    Ok(())
}
