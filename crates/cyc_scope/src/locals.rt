//! The locals in scope; a local is found by its name in constant time.

use crate::meaning::Meaning;
use crate::stop::Stop;
use crate::table::grow;
use cyc_syntax::Ident;
use cyc_types::typed::Lvalue;
use cyc_types::{Region, Ty};
use std::alloc::Global;
use std::marker::Model;

/// The kind of construct that declares a local: a declaration or parameter, a `region` declaration, or an array `for`.
#[derive(Clone, Copy)]
pub(crate) enum Sort {
    Ordinary,
    /// A `region` item.
    OfRegion,
    /// A `for`.
    OfLoop,
}

/// A local variable or a parameter, or the loop counter of an array `for`.
#[derive(Drop)]
pub(crate) struct Local {
    pub(crate) name: usize,
    /// The index of the local in its function; for the loop counter of a `for`, its nesting level.
    pub(crate) number: usize,
    pub(crate) of_type: Ty,
    /// The number that identifies the region in which the local is stored, that of the block that declares it.
    pub(crate) region: usize,
    pub(crate) sort: Sort,
}

/// A local in scope, with the index of the older local that it hides.
#[derive(Drop)]
struct Binding {
    local: Local,
    hidden: Option<usize>,
}

/// The locals in scope. Contracts see this table as a list of locals, newest first.
#[derive(Drop)]
pub(crate) struct Locals {
    /// The table entries of the locals in scope, oldest first.
    bindings: Vec<Binding>,
    /// For each name, the index of the newest local in scope with the name.
    newest: Vec<Option<usize>>,
}

impl Model for Locals {
    ghost use Rattle.std.specs.Prelude.{List};
    ghost use Rattle.std.specs.Coded.{codes};
    ghost use Rattle.cyc_types.specs.typing.Scopes.{LocalVariable};
    ghost use Rattle.cyc_scope.specs.inside.Codes.{ty_code};

    ghost Value = { List LocalVariable };

    ghost coded = { Prim.hlevel (codes, ty_code) };

    ghost use Rattle.cyc_scope.specs.inside.Entries.{locals_of, Finds};

    ghost view = { λ l. locals_of l.bindings.items };

    ghost invariant = { λ l. Finds l.newest.items l.bindings.items };
}

impl Local {
    ghost use Rattle.std.specs.Prelude.{◌≡◌};
    ghost use Rattle.cyc_syntax.specs.inside.TreeView.{view_name, place_of_span};
    ghost use Rattle.cyc_types.specs.typing.Scopes.{local_meaning};
    ghost use Rattle.cyc_scope.specs.inside.Meanings.{view_meaning};
    ghost use Rattle.cyc_scope.specs.inside.Entries.{view_sort, view_local};

    /// Returns the meaning of a name that denotes this local, at the name's source position `name.span`.
    fn meaning(&self, name: Ident) -> Meaning<'_>
        ensures { view_meaning result ≡ local_meaning (view_local self.now).sort (view_local self.now) (view_name name).place }
    {
        let target = Lvalue::Local {
            span: name.span,
            number: self.number,
        };
        let of_type = &self.of_type;
        match self.sort {
            Sort::Ordinary => Meaning::Variable {
                target,
                of_type,
                home: Region::Variable(self.region),
            },
            Sort::OfRegion => Meaning::Fixed { target, of_type },
            Sort::OfLoop => Meaning::Counter { level: self.number },
        }
    }
}

impl Locals {
    ghost use Rattle.std.specs.Prelude.{◌≡◌, ℕ, ◌-◌, ◌<◌, List, [], ◌∷◌, length, drop, option_map, get_or, None, OnOk, OnErr, IfErr};
    ghost use Rattle.cyc_syntax.specs.inside.TreeView.{view_name};
    ghost use Rattle.cyc_types.specs.typing.Scopes.{Declared, meaning_in, meaning_among, is_declared_in};
    ghost use Rattle.cyc_scope.specs.declared.stop.Stop.TheVariants.{Memory};
    ghost use Rattle.cyc_scope.specs.inside.Meanings.{view_meaning};
    ghost use Rattle.cyc_scope.specs.inside.Marks.{Descends};
    ghost use Rattle.cyc_scope.specs.inside.Tables.{newest_place};
    ghost use Rattle.cyc_scope.specs.inside.Entries.{view_local, view_binding, local_names, newest, meaning_or};

    pub(crate) fn new(alloc: Global) -> Locals
        ensures { result ≡ [] }
    {
        Locals {
            bindings: Vec::new(alloc),
            newest: Vec::new(alloc),
        }
    }

    pub(crate) fn len(&self) -> usize
        ensures { result ≡ length self.now }
    {
        self.bindings.len()
    }

    /// Returns the index of the newest local with the given name.
    fn place(&self, name: usize) -> Option<usize>
        ensures { result ≡ newest_place (local_names self.now) name }
    {
        match self.newest.get(name) {
            Some(place) => *place,
            None => None,
        }
    }

    /// Returns the newest local with the given name.
    fn find(&self, name: usize) -> Option<&Binding>
        ensures { option_map (λ b. view_binding b.now) result ≡ newest self.now name }
    {
        match self.place(name) {
            Some(place) => self.bindings.get(place),
            None => None,
        }
    }

    /// Returns the meaning of a name as a local, or `None` if no local in scope has the name.
    #[inline]
    #[tactic(auto, using(crate::proofs::LocalLemmas::meaning_found, crate::proofs::LocalLemmas::meaning_lost))]
    pub(crate) fn meaning(&self, name: Ident) -> Option<Meaning<'_>>
        ensures { (ds : List Declared) → meaning_among self.now ds (view_name name)
            ≡ meaning_or (meaning_in ds name.name.number) (option_map view_meaning result) }
    {
        match self.find(name.name.number) {
            Some(binding) => Some(binding.local.meaning(name)),
            None => None,
        }
    }

    /// Returns true if the innermost block, whose region is `region`, declares a local with the given name.
    #[tactic(auto, using(crate::proofs::LocalLemmas::declared_lost))]
    pub(crate) fn is_declared_in(&self, region: usize, name: usize) -> bool
        requires { Descends region self.now }
        ensures { result ≡ is_declared_in region self.now name }
    {
        match self.find(name) {
            Some(binding) => binding.local.region == region,
            None => false,
        }
    }

    pub(crate) fn declare(&mut self, local: Local) -> Result<(), Stop>
        ensures declared { OnOk result (self.new ≡ view_local local ∷ self.old) }
        ensures unchanged { OnErr result (self.new ≡ self.old) }
        ensures memory { IfErr result (λ e. e ≡ Memory) }
    {
        let name = local.name;
        grow(&mut self.newest, name)?;
        let hidden = self.newest[name];
        let place = self.bindings.len();
        self.bindings.push(Binding { local, hidden })?;
        self.newest[name] = Some(place);
        Ok(())
    }

    /// Removes the newest local from the table.
    fn undo(&mut self)
        ensures { self.new ≡ drop 1 self.old }
    {
        let Some(binding) = self.bindings.pop() else {
            return;
        };
        self.newest[binding.local.name] = binding.hidden;
    }

    /// Removes all locals except the `count` oldest.
    #[tactic(auto, using(cyc_words::proofs::Lists::drop_one_more))]
    pub(crate) fn close(&mut self, count: usize)
        ensures { self.new ≡ drop (length self.old - count) self.old }
    {
        for _ in count..self.len() {
            self.undo();
        }
    }
}
