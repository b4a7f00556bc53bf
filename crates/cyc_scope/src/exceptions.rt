//! The exceptions of a program; an exception is found by its name in constant time.

use crate::stop::Stop;
use crate::table::grow;
use std::alloc::Global;
use std::marker::Model;

/// An exception that can be thrown and caught: the number that identifies it, and a flag that is true if it carries an int.
#[derive(Clone, Copy)]
pub struct Thrown {
    pub number: usize,
    pub has_int: bool,
}

#[derive(Clone, Copy)]
pub(crate) struct Entry {
    pub(crate) name: usize,
    pub(crate) has_int: bool,
}

/// The exceptions of the program in order of declaration. If a name is declared twice, the first declaration counts.
#[derive(Drop)]
pub(crate) struct Exceptions {
    entries: Vec<Entry>,
    /// For each name, the index of the first exception with the name.
    by_name: Vec<Option<usize>>,
}

impl Model for Exceptions {
    ghost use Rattle.std.specs.Prelude.{◌≡◌, ℕ, List, map, get_or, None};
    ghost use Rattle.cyc_types.specs.typing.Scopes.{Exception};
    ghost use Rattle.cyc_scope.specs.inside.Tables.{first_place, exception_names};
    ghost use Rattle.cyc_scope.specs.inside.Entries.{view_exception};

    ghost Value = { List Exception };

    ghost view = { λ e. map view_exception e.entries.items };

    ghost invariant = { λ e. (x : ℕ) → get_or e.by_name.items x None ≡ first_place (exception_names (map view_exception e.entries.items)) x };
}

impl Exceptions {
    ghost use Rattle.std.specs.Prelude.{◌≡◌, ◌<◌, [], ◌∷◌, ◌++◌, length, option_map, OnOk, IfErr, IfSome};
    ghost use Rattle.cyc_types.specs.typing.Statements.{exception_among, exception_number};
    ghost use Rattle.cyc_scope.specs.declared.stop.Stop.TheVariants.{Memory};
    ghost use Rattle.cyc_scope.specs.inside.Tables.{first_place, exception_names};

    pub(crate) fn new(alloc: Global) -> Exceptions
        ensures { result ≡ [] }
    {
        Exceptions {
            entries: Vec::new(alloc),
            by_name: Vec::new(alloc),
        }
    }

    /// Returns the index of the first exception with the given name.
    fn place(&self, name: usize) -> Option<usize>
        ensures { result ≡ first_place (exception_names self.now) name }
    {
        match self.by_name.get(name) {
            Some(place) => *place,
            None => None,
        }
    }

    /// Returns the exception with the given name.
    pub(crate) fn find(&self, name: usize) -> Option<Thrown>
        ensures has_int { exception_among self.now name ≡ option_map (λ t. t.has_int) result }
        ensures number { IfSome result (λ t. t.number ≡ exception_number self.now name) }
    {
        match self.place(name) {
            Some(place) => {
                let entry = self.entries[place];
                Some(Thrown {
                    number: place + 1,
                    has_int: entry.has_int,
                })
            }
            None => None,
        }
    }

    pub(crate) fn declare(&mut self, name: usize, has_int: bool) -> Result<(), Stop>
        ensures declared { OnOk result (self.new ≡ self.old ++ record { name = name; has_int = has_int } ∷ []) }
        ensures memory { IfErr result (λ e. e ≡ Memory) }
    {
        grow(&mut self.by_name, name)?;
        let known = self.place(name);
        let place = self.entries.len();
        self.entries.push(Entry { name, has_int })?;
        match known {
            Some(_) => {}
            None => self.by_name[name] = Some(place),
        }
        Ok(())
    }
}
