//! A set of names with constant-time membership.

use std::alloc::{AllocError, Global};
use std::marker::Model;

/// A set of names. Contracts see it as the list of names added, newest first.
#[derive(Drop)]
pub struct NameSet {
    /// The names in the set, oldest first.
    names: Vec<usize>,
    /// For each name, true if the name is in the set.
    marks: Vec<bool>,
}

impl Model for NameSet {
    ghost use Rattle.std.specs.Prelude.{◌≡◌, ℕ, List, nat_eq, false, get_or, reverse};
    ghost use Rattle.std.specs.List.{list_any};

    ghost Value = { List ℕ };

    ghost view = { λ s. reverse s.names.items };

    ghost invariant = { λ s. (x : ℕ) → get_or s.marks.items x false ≡ list_any (nat_eq x) (reverse s.names.items) };
}

impl NameSet {
    ghost use Rattle.std.specs.Prelude.{◌≡◌, [], ◌∷◌, nat_eq, OnOk};
    ghost use Rattle.std.specs.List.{list_any};

    /// Returns the empty set.
    pub fn new(alloc: Global) -> NameSet
        ensures { result ≡ [] }
    {
        NameSet {
            names: Vec::new(alloc),
            marks: Vec::new(alloc),
        }
    }

    /// Returns true if the set contains the name.
    pub fn has(&self, name: usize) -> bool
        ensures { result ≡ list_any (nat_eq name) self.now }
    {
        match self.marks.get(name) {
            Some(mark) => *mark,
            None => false,
        }
    }

    /// Adds a name, which may already be in the set. If the addition fails, the set is unchanged.
    pub fn add(&mut self, name: usize) -> Result<(), AllocError>
        ensures { OnOk result (self.new ≡ name ∷ self.old) }
    {
        grow(&mut self.marks, name)?;
        self.names.push(name)?;
        mark(&mut self.marks, name);
        Ok(())
    }

    /// Removes all names.
    pub fn clear(&mut self)
        ensures { self.new ≡ [] }
    {
        unmark_all(&mut self.marks, &self.names);
        self.names.clear();
    }
}

ghost use Rattle.std.specs.Prelude.{◌≡◌, ℕ, ◌<◌, length, nat_eq, not, ◌||◌, ◌&&◌, false, get_or, OnOk};
ghost use Rattle.std.specs.List.{list_any};

/// Grows the table of flags, indexed by name, until it has an entry for `name`.
pub(crate) fn grow(table: &mut Vec<bool>, name: usize) -> Result<(), AllocError>
    ensures same { (x : ℕ) → get_or table.new.items x false ≡ get_or table.old.items x false }
    ensures long { OnOk result (name < length table.new.items) }
{
    if name < table.len() {
        return Ok(());
    }
    let Some(length) = name.checked_add(1) else {
        return Err(AllocError);
    };
    table.resize(length, false)?;
    Ok(())
}

pub(crate) fn mark(table: &mut Vec<bool>, name: usize)
    requires { name < length table.old.items }
    ensures { (x : ℕ) → get_or table.new.items x false ≡ (nat_eq x name || get_or table.old.items x false) }
{
    table[name] = true;
}

fn unmark(table: &mut Vec<bool>, name: usize)
    ensures { (x : ℕ) → get_or table.new.items x false ≡ (not (nat_eq x name) && get_or table.old.items x false) }
{
    if name < table.len() {
        table[name] = false;
    }
}

fn unmark_all(table: &mut Vec<bool>, names: &[usize])
    ensures { (x : ℕ) → get_or table.new.items x false ≡ (not (list_any (nat_eq x) names.now) && get_or table.old.items x false) }
{
    for name in names {
        unmark(table, *name);
    }
}
