//! The context of the type checker at an expression or a statement.

use crate::exceptions::Thrown;
use crate::locals::{Local, Locals, Sort};
use crate::meaning::Meaning;
use crate::program::{Field, Program};
use crate::regions::Regions;
use crate::stop::Stop;
use crate::table::after;
use cyc_syntax::Ident;
use cyc_types::{Kind, NameSet, Region, RegionNames, StructNames, Ty};
use std::alloc::Global;
use std::marker::Model;

/// The size that a scope had at some point of a function's body. The function `leave` uses this size to remove the names that came into
/// scope after that point of the body.
#[derive(Clone, Copy)]
pub struct Mark {
    /// How many locals, region names and open scopes the scope has.
    pub locals: usize,
    pub names: usize,
    pub opened: usize,
    /// The number that identifies the region of the innermost enclosing block.
    pub region: usize,
    pub in_loop: bool,
    /// The number of array initialisers with `for` that enclose the current expression.
    pub counters: usize,
}

/// The context in which the checker checks an expression or statement of a function's body. The context consists of the declarations of
/// the program, the meaning of names, the live regions, and the numbers that identify the next declared local and the next region.
///
/// Regions are numbered from the outermost block to the innermost. So the region number of the newest local with a name decides
/// if the innermost block declares that name.
#[derive(Drop)]
pub struct Scope<'a> {
    pub(crate) alloc: Global,
    pub(crate) program: &'a Program,
    /// The result type of the function being checked.
    pub(crate) result: Option<Ty>,
    pub(crate) names: RegionNames,
    /// The region names that the function has declared so far, including those no longer in scope.
    pub(crate) taken: NameSet,
    pub(crate) regions: Regions,
    pub(crate) locals: Locals,
    pub(crate) next_local: usize,
    pub(crate) next_region: usize,
    /// The number that identifies the region of the innermost enclosing block.
    pub(crate) region: usize,
    pub(crate) in_loop: bool,
    /// The number of array initialisers with `for` that enclose the current expression.
    pub(crate) counters: usize,
}

impl<'a> Model for Scope<'a> {
    ghost use Rattle.std.specs.Prelude.{◌<◌, option_map};
    ghost use Rattle.std.specs.Coded.{codes};
    ghost use Rattle.cyc_types.specs.TypeView.{view_ty};
    ghost use Rattle.cyc_types.specs.typing.Scopes.{Scope as ScopeValue};
    ghost use Rattle.cyc_scope.specs.inside.Codes.{ty_code};

    ghost Value = { ScopeValue };

    ghost coded = { Prim.hlevel (codes, ty_code) };

    ghost use Rattle.cyc_scope.specs.inside.Marks.{Descends};

    ghost view = { λ s. record {
      structs = s.program.now.known.structs;
      fields = s.program.now.fields;
      exceptions = s.program.now.exceptions;
      program = s.program.now.declared;
      result = option_map view_ty s.result;
      names = s.names;
      taken = s.taken;
      regions = s.regions;
      locals = s.locals;
      next_local = s.next_local;
      next_region = s.next_region;
      region = s.region;
      in_loop = s.in_loop;
      counters = s.counters;
    } };

    ghost invariant = { λ s. Descends s.region s.locals × (s.region < s.next_region) };
}

impl<'a> Scope<'a> {
    ghost use Rattle.std.specs.Prelude.{◌≡◌, [], map, slice_get, unwrap_or, option_map, IsTrue, OnOk, IfErr, IfSome};
    ghost use Rattle.cyc_syntax.specs.inside.TreeView.{view_name};
    ghost use Rattle.cyc_types.specs.declared.scope.Kind.TheVariants as kinds;
    ghost use Rattle.cyc_types.specs.TypeView.{view_ty};
    ghost use Rattle.cyc_types.specs.Closure.{is_outliving};
    ghost use Rattle.cyc_types.specs.typing.Scopes as scopes;
    ghost use Rattle.cyc_types.specs.typing.Scopes.{is_taken, is_live, is_declared, meaning_of, in_block, with_name, in_labelled, in_body};
    ghost use Rattle.cyc_types.specs.typing.Scopes.{with_local, with_counter, with_opened, with_region, with_key_opened};
    ghost use Rattle.cyc_types.specs.typing.Statements.{exception_among, exception_number};
    ghost use Rattle.cyc_scope.specs.declared.stop.Stop.TheVariants.{Memory};
    ghost use Rattle.cyc_scope.specs.inside.Meanings.{view_meaning};
    ghost use Rattle.cyc_scope.specs.inside.Entries.{view_field, view_sort};
    ghost use Rattle.cyc_scope.specs.inside.Marks.{IsInOrder, mark_of, left_to, with_next_opened};
    ghost use Rattle.cyc_scope.specs.inside.Plain.{IsPlainRoutine};

    /// Returns the allocator from which the type check takes all its memory.
    pub fn alloc(&self) -> Global {
        self.alloc
    }

    /// Returns the structs of the program.
    pub fn structs(&self) -> &StructNames
        ensures { result.now ≡ self.now.structs }
    {
        self.program.known().structs()
    }

    /// Returns the fields of the struct with the given index, or an empty list if the struct does not exist.
    pub fn fields(&self, number: usize) -> &[Field]
        ensures { map view_field result.now ≡ unwrap_or (slice_get self.now.fields number) [] }
    {
        self.program.fields(number)
    }

    /// Returns the exception with the given name.
    pub fn exception(&self, name: usize) -> Option<Thrown>
        ensures has_int { exception_among self.now.exceptions name ≡ option_map (λ t. t.has_int) result }
        ensures number { IfSome result (λ t. t.number ≡ exception_number self.now.exceptions name) }
    {
        self.program.exception(name)
    }

    /// Returns the region names in scope.
    pub fn names(&self) -> &RegionNames
        ensures { result.now ≡ self.now.names }
    {
        &self.names
    }

    /// Returns the result type of the function being checked.
    pub fn result_type(&self) -> Option<&Ty>
        ensures { option_map (λ t. view_ty t.now) result ≡ self.now.result }
    {
        match &self.result {
            Some(of_type) => Some(of_type),
            None => None,
        }
    }

    /// Returns the index that the next declared local gets.
    pub fn next_local(&self) -> usize
        ensures { result ≡ self.now.next_local }
    {
        self.next_local
    }

    /// Returns the number that will identify the next declared region.
    pub fn next_region(&self) -> usize
        ensures { result ≡ self.now.next_region }
    {
        self.next_region
    }

    /// Returns true inside a loop, where `break` and `continue` are allowed.
    pub fn in_loop(&self) -> bool
        ensures { result ≡ self.now.in_loop }
    {
        self.in_loop
    }

    /// Returns the number of enclosing array initialisers with `for`, which is the nesting level of the next one.
    pub fn counters(&self) -> usize
        ensures { result ≡ self.now.counters }
    {
        self.counters
    }

    /// Returns the meaning of a name at this point.
    pub fn meaning(&self, name: Ident) -> Meaning<'_>
        ensures { view_meaning result ≡ meaning_of self.now (view_name name) }
    {
        match self.locals.meaning(name) {
            Some(meaning) => meaning,
            None => self.program.meaning(name.name.number),
        }
    }

    /// Returns true if a name denotes, at this point, a function with a plain signature (each region of its parameters occurs only once).
    pub fn is_plain(&self, name: Ident) -> bool
        ensures { IsTrue result → IsPlainRoutine (meaning_of self.now (view_name name)) }
    {
        match self.locals.meaning(name) {
            Some(_) => false,
            None => self.program.is_plain(name.name.number),
        }
    }

    /// Returns true if the innermost block declares a local with the given name.
    pub fn is_declared(&self, name: Ident) -> bool
        ensures { result ≡ is_declared self.now (view_name name) }
    {
        self.locals.is_declared_in(self.region, name.name.number)
    }

    /// Returns true if the function has declared a region with the given name.
    pub fn is_taken(&self, name: Ident) -> bool
        ensures { result ≡ is_taken self.now (view_name name) }
    {
        self.taken.has(name.name.number)
    }

    /// Returns true if the region is live at this point.
    pub fn is_live(&self, region: Region) -> bool
        ensures { result ≡ is_live self.now region }
    {
        self.regions.is_live(region)
    }

    /// Returns true if region `a` outlives region `b`.
    pub fn outlives(&self, a: Region, b: Region) -> bool
        ensures { result ≡ is_outliving self.now.regions a b }
    {
        self.regions.outlives(a, b)
    }

    /// Enters a block.
    pub fn enter_block(&mut self) -> Result<(), Stop>
        ensures entered { OnOk result (self.new ≡ in_block self.old) }
        ensures memory { IfErr result (λ e. e ≡ Memory) }
    {
        let region = self.next_region;
        let next = after(region)?;
        self.regions
            .open_scope(Region::Variable(region), Kind::Block)?;
        self.region = region;
        self.next_region = next;
        Ok(())
    }

    /// Enters a block that has a label.
    pub fn enter_labelled(&mut self, label: Ident) -> Result<(), Stop>
        ensures entered { OnOk result (self.new ≡ in_labelled (view_name label) self.old) }
        ensures memory { IfErr result (λ e. e ≡ Memory) }
    {
        self.name_region(label)?;
        self.enter_block()
    }

    /// Enters the body of a loop.
    pub fn enter_loop(&mut self)
        ensures { self.new ≡ in_body self.old }
    {
        self.in_loop = true;
    }

    fn declare(&mut self, sort: Sort, name: Ident, of_type: Ty) -> Result<(), Stop>
        ensures declared { OnOk result (self.new ≡ with_local (view_sort sort) (view_name name) (view_ty of_type) self.old) }
        ensures memory { IfErr result (λ e. e ≡ Memory) }
    {
        let number = self.next_local;
        let next = after(number)?;
        self.locals.declare(Local {
            name: name.name.number,
            number,
            of_type,
            region: self.region,
            sort,
        })?;
        self.next_local = next;
        Ok(())
    }

    /// Declares a local that may be assigned.
    pub fn declare_local(&mut self, name: Ident, of_type: Ty) -> Result<(), Stop>
        ensures declared { OnOk result (self.new ≡ with_local scopes.Ordinary (view_name name) (view_ty of_type) self.old) }
        ensures memory { IfErr result (λ e. e ≡ Memory) }
    {
        self.declare(Sort::Ordinary, name, of_type)
    }

    /// Declares the handle of a `region` declaration, which may not be assigned.
    pub fn declare_fixed(&mut self, name: Ident, of_type: Ty) -> Result<(), Stop>
        ensures declared { OnOk result (self.new ≡ with_local scopes.OfRegion (view_name name) (view_ty of_type) self.old) }
        ensures memory { IfErr result (λ e. e ≡ Memory) }
    {
        self.declare(Sort::OfRegion, name, of_type)
    }

    /// Declares the loop counter of an array initialiser with `for`, and enters the expression for the elements.
    pub fn declare_counter(&mut self, name: Ident) -> Result<(), Stop>
        ensures declared { OnOk result (self.new ≡ with_counter (view_name name) self.old) }
        ensures memory { IfErr result (λ e. e ≡ Memory) }
    {
        let level = self.counters;
        let next = after(level)?;
        self.locals.declare(Local {
            name: name.name.number,
            number: level,
            of_type: Ty::Int,
            region: self.region,
            sort: Sort::OfLoop,
        })?;
        self.counters = next;
        Ok(())
    }

    /// Gives the name `name` to the region that will be declared next.
    pub fn name_region(&mut self, name: Ident) -> Result<(), Stop>
        ensures named { OnOk result (self.new ≡ with_name (view_name name) self.old) }
        ensures memory { IfErr result (λ e. e ≡ Memory) }
    {
        self.names
            .declare(name.name.number, Region::Variable(self.next_region))?;
        self.taken.add(name.name.number)?;
        Ok(())
    }

    /// Declares and opens the next region, to which `name_region` already gave a name.
    pub fn open_next(&mut self, kind: Kind) -> Result<(), Stop>
        ensures opened { OnOk result (self.new ≡ with_next_opened kind self.old) }
        ensures memory { IfErr result (λ e. e ≡ Memory) }
    {
        let region = self.next_region;
        let next = after(region)?;
        self.regions.open_scope(Region::Variable(region), kind)?;
        self.next_region = next;
        Ok(())
    }

    /// Declares a region with the given name, and opens the region.
    pub fn open_region(&mut self, kind: Kind, name: Ident) -> Result<(), Stop>
        ensures opened { OnOk result (self.new ≡ with_opened kind (view_name name) self.old) }
        ensures memory { IfErr result (λ e. e ≡ Memory) }
    {
        self.name_region(name)?;
        self.open_next(kind)
    }

    /// Declares a region with the given name without opening the region.
    pub fn declare_region(&mut self, name: Ident) -> Result<(), Stop>
        ensures declared { OnOk result (self.new ≡ with_region (view_name name) self.old) }
        ensures memory { IfErr result (λ e. e ≡ Memory) }
    {
        let next = after(self.next_region)?;
        self.name_region(name)?;
        self.next_region = next;
        Ok(())
    }

    /// Opens the given dynamic region, for which the function has a key.
    pub fn open_key(&mut self, region: Region) -> Result<(), Stop>
        ensures opened { OnOk result (self.new ≡ with_key_opened region self.old) }
        ensures memory { IfErr result (λ e. e ≡ Memory) }
    {
        self.regions.open_scope(region, Kind::Dynamic)?;
        Ok(())
    }

    /// Returns the current size of the scope, for `leave`.
    pub fn mark(&self) -> Mark
        ensures mark { result ≡ mark_of self.now }
        ensures order { IsInOrder self.now }
    {
        Mark {
            locals: self.locals.len(),
            names: self.names.len(),
            opened: self.regions.len(),
            region: self.region,
            in_loop: self.in_loop,
            counters: self.counters,
        }
    }

    /// Removes the names that came into scope since the mark (a record of the scope's size) was taken. The indices of the
    /// removed locals and regions, and the removed region names, are not used for later declarations.
    pub fn leave(&mut self, mark: Mark)
        requires { IsInOrder (left_to mark self.old) }
        ensures { self.new ≡ left_to mark self.old }
    {
        self.locals.close(mark.locals);
        self.names.close(mark.names);
        self.regions.close(mark.opened);
        self.region = mark.region;
        self.in_loop = mark.in_loop;
        self.counters = mark.counters;
    }
}
