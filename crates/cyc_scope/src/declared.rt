//! The functions and globals of a program; a function or global is found by its name in constant time.

use crate::meaning::Meaning;
use crate::routine::Routine;
use crate::stop::Stop;
use crate::table::grow;
use cyc_types::typed::{Callee, Lvalue};
use cyc_types::{Region, Ty};
use std::alloc::Global;
use std::marker::Model;

#[derive(Drop)]
pub(crate) enum Entity {
    Global { number: usize, of_type: Ty },
    Function { callee: Callee, routine: Routine },
}

/// A declared function or global, with its name, as the table of declarations stores it.
#[derive(Drop)]
pub(crate) struct Entry {
    pub(crate) name: usize,
    pub(crate) entity: Entity,
}

/// The declared functions and globals, in order of declaration. If a name is declared twice, the first declaration counts.
#[derive(Drop)]
pub(crate) struct Declared {
    entries: Vec<Entry>,
    /// For each name, the index of the first declared function or global with the name.
    by_name: Vec<Option<usize>>,
}

impl Model for Declared {
    ghost use Rattle.std.specs.Prelude.{◌≡◌, ℕ, List, map, get_or, None};
    ghost use Rattle.std.specs.Coded.{codes};
    ghost use Rattle.cyc_types.specs.typing.Scopes.{Declared as DeclaredValue};
    ghost use Rattle.cyc_scope.specs.inside.Codes.{ty_code};
    ghost use Rattle.cyc_scope.specs.inside.Tables.{first_place, declared_names};

    ghost Value = { List DeclaredValue };

    ghost coded = { Prim.hlevel (codes, ty_code) };

    ghost use Rattle.cyc_scope.specs.inside.Entries.{view_entry};

    ghost view = { λ d. map view_entry d.entries.items };

    ghost invariant = { λ d. (x : ℕ) → get_or d.by_name.items x None ≡ first_place (declared_names (map view_entry d.entries.items)) x };
}

impl Entry {
    ghost use Rattle.std.specs.Prelude.{◌≡◌, IsTrue};
    ghost use Rattle.cyc_scope.specs.inside.Plain.{IsPlainRoutine};
    ghost use Rattle.cyc_scope.specs.inside.Meanings.{view_meaning};
    ghost use Rattle.cyc_scope.specs.inside.Entries.{view_entity};

    fn meaning(&self) -> Meaning<'_>
        ensures { view_meaning result ≡ view_entity self.now.entity }
    {
        match &self.entity {
            Entity::Global { number, of_type } => Meaning::Variable {
                target: Lvalue::Global { number: *number },
                of_type,
                home: Region::Heap,
            },
            Entity::Function { callee, routine } => Meaning::Routine {
                callee: *callee,
                signature: routine.signature(),
            },
        }
    }

    /// Returns true if the declaration is that of a function with a plain signature (each region of its parameters occurs only once).
    fn is_plain(&self) -> bool
        ensures { IsTrue result → IsPlainRoutine (view_entity self.now.entity) }
    {
        match &self.entity {
            Entity::Global { .. } => false,
            Entity::Function { routine, .. } => routine.is_plain(),
        }
    }
}

impl Declared {
    ghost use Rattle.std.specs.Prelude.{◌≡◌, [], ◌∷◌, ◌++◌, option_map, IsTrue, OnOk, IfErr};
    ghost use Rattle.cyc_types.specs.typing.Scopes.{meaning_in};
    ghost use Rattle.cyc_scope.specs.declared.stop.Stop.TheVariants.{Memory};
    ghost use Rattle.cyc_scope.specs.inside.Tables.{first_place, declared_names, first_declared};
    ghost use Rattle.cyc_scope.specs.inside.Meanings.{view_meaning};
    ghost use Rattle.cyc_scope.specs.inside.Entries.{view_entity, view_entry};
    ghost use Rattle.cyc_scope.specs.inside.Plain.{IsPlainRoutine};

    pub(crate) fn new(alloc: Global) -> Declared
        ensures { result ≡ [] }
    {
        Declared {
            entries: Vec::new(alloc),
            by_name: Vec::new(alloc),
        }
    }

    /// Returns the index of the first declared function or global with the given name.
    fn place(&self, name: usize) -> Option<usize>
        ensures { result ≡ first_place (declared_names self.now) name }
    {
        match self.by_name.get(name) {
            Some(place) => *place,
            None => None,
        }
    }

    /// Returns the first declared function or global with the given name.
    fn find(&self, name: usize) -> Option<&Entry>
        ensures { option_map (λ e. view_entry e.now) result ≡ first_declared self.now name }
    {
        match self.place(name) {
            Some(place) => self.entries.get(place),
            None => None,
        }
    }

    #[tactic(auto, using(crate::proofs::TableLemmas::meaning_first))]
    pub(crate) fn meaning(&self, name: usize) -> Meaning<'_>
        ensures { view_meaning result ≡ meaning_in self.now name }
    {
        match self.find(name) {
            Some(entry) => entry.meaning(),
            None => Meaning::Unknown,
        }
    }

    /// Returns true if the name denotes a function with a plain signature (each region of its parameters occurs only once).
    pub(crate) fn is_plain(&self, name: usize) -> bool
        ensures { IsTrue result → IsPlainRoutine (meaning_in self.now name) }
    {
        match self.find(name) {
            Some(entry) => entry.is_plain(),
            None => false,
        }
    }

    pub(crate) fn declare(&mut self, name: usize, entity: Entity) -> Result<(), Stop>
        ensures declared { OnOk result (self.new ≡ self.old ++ record { name = name; meaning = view_entity entity } ∷ []) }
        ensures memory { IfErr result (λ e. e ≡ Memory) }
    {
        grow(&mut self.by_name, name)?;
        let known = self.place(name);
        let place = self.entries.len();
        self.entries.push(Entry { name, entity })?;
        match known {
            Some(_) => {}
            None => self.by_name[name] = Some(place),
        }
        Ok(())
    }
}
