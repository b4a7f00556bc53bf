//! Cells, variables and their regions.

ghost use Rattle.std.specs.Prelude.{◌≡◌, ◌∷◌, ℕ, ◌==◌, Some, IfOk, OnOk, if◌then◌else◌, option_map, slice_get};
ghost use Rattle.cyc_types.specs.TypedTreeView.{view_lvalue, items_of};
ghost use Rattle.cyc_meaning.specs.State as meaning;
ghost use Rattle.cyc_meaning.specs.State.{Running, Proceeding, Rest, cell_at, region_at, opened, with_local, with_counter};
ghost use Rattle.cyc_meaning.specs.Parts.{object_of, read, loaded, loaded_from, stored, stored_at, declared, inside, region_end, closing};
ghost use Rattle.cyc_meaning.specs.Places.{loaded_at};
ghost use Rattle.cyc_meaning.specs.Regions.{closing_lexical};
ghost use Rattle.cyc_interpret.specs.WorldView.{view_operand, view_value};
ghost use Rattle.cyc_interpret.specs.View.{view_environment, flat, stack_of, environment_of, world_of, state_of};
ghost use Rattle.cyc_interpret.specs.inside.Found.{after};

use crate::entry::{Entry, Environment, Focus};
use crate::found::Access;
use crate::machine::Machine;
use crate::objects::Sort;
use crate::operators::is_kind;
use crate::value::{Operand, Value};
use cyc_types::typed::{Item, Kind, Lvalue};
use std::alloc::AllocError;

// ---- the environment

/// An object has this number now, and all others what they had.
fn put_object(
    numbers: &mut Vec<Option<usize>>,
    number: usize,
    value: usize,
) -> Result<(), AllocError>
    ensures { OnOk result ((other : ℕ) → flat (slice_get numbers.new.items other) ≡ (if other == number then Some value else flat (slice_get numbers.old.items other))) }
{
    if number < numbers.len() {
        numbers[number] = Some(value);
        return Ok(());
    }
    for _ in numbers.len()..number {
        numbers.push(None)?;
    }
    numbers.push(Some(value))?;
    Ok(())
}

/// An index has this number now, and all others what they had.
fn put_index(numbers: &mut Vec<Option<u32>>, number: usize, value: u32) -> Result<(), AllocError>
    ensures { OnOk result ((other : ℕ) → flat (slice_get numbers.new.items other) ≡ (if other == number then Some value else flat (slice_get numbers.old.items other))) }
{
    if number < numbers.len() {
        numbers[number] = Some(value);
        return Ok(());
    }
    for _ in numbers.len()..number {
        numbers.push(None)?;
    }
    numbers.push(Some(value))?;
    Ok(())
}

impl Environment {
    pub(crate) fn local(&self, number: usize) -> Option<usize>
        ensures { result ≡ (view_environment self.now).locals number }
    {
        match self.locals.get(number) {
            Some(object) => *object,
            None => None,
        }
    }

    pub(crate) fn counter(&self, level: usize) -> Option<u32>
        ensures { result ≡ (view_environment self.now).counters level }
    {
        match self.counters.get(level) {
            Some(index) => *index,
            None => None,
        }
    }

    pub(crate) fn object_of(&self, place: Lvalue) -> Option<usize>
        ensures { result ≡ object_of (view_environment self.now) (view_lvalue place) }
    {
        match place {
            Lvalue::Local { number, .. } => self.local(number),
            Lvalue::Global { number } => Some(number),
        }
    }

    /// A local is this object now.
    fn name(&mut self, number: usize, object: usize) -> Result<(), AllocError>
        ensures { OnOk result (view_environment self.new ≡ with_local (view_environment self.old) number object) }
    {
        put_object(&mut self.locals, number, object)?;
        Ok(())
    }

    /// The counter of a level has this value now.
    pub(crate) fn count(&mut self, level: usize, index: u32) -> Result<(), AllocError>
        ensures { OnOk result (view_environment self.new ≡ with_counter (view_environment self.old) level index) }
    {
        put_index(&mut self.counters, level, index)?;
        Ok(())
    }
}

// ---- cells

impl<'a> Machine<'a> {
    fn read(&mut self, kind: Kind, content: Option<Value>)
        ensures { state_of self.new ≡ read kind (option_map view_value content) (stack_of self.old) (environment_of self.old) (world_of self.old) }
    {
        match content {
            Some(value) => self.give(kind, value),
            None => self.fail(),
        }
    }

    /// A cell of this kind is read.
    pub(crate) fn load(&mut self, kind: Kind, object: usize, offset: usize)
        ensures { state_of self.new ≡ loaded kind (cell_at (world_of self.old) object offset) (stack_of self.old) (environment_of self.old) (world_of self.old) }
    {
        match self.world.find(object, offset) {
            Access::Missing => self.fail(),
            Access::Closed => self.die(),
            Access::Found { cell } => {
                if is_kind(cell.kind, kind) {
                    self.read(kind, cell.content);
                } else {
                    self.fail();
                }
            }
        }
    }

    /// The variable of an object is read.
    pub(crate) fn load_from(&mut self, kind: Kind, object: Option<usize>)
        ensures { state_of self.new ≡ loaded_from kind object (stack_of self.old) (environment_of self.old) (world_of self.old) }
    {
        match object {
            Some(object) => self.load(kind, object, 0),
            None => self.fail(),
        }
    }

    /// The cell that a thin pointer is to is read.
    pub(crate) fn load_at(&mut self, kind: Kind, place: Value)
        ensures { state_of self.new ≡ loaded_at kind (view_value place) (stack_of self.old) (environment_of self.old) (world_of self.old) }
    {
        match place {
            Value::Thin { object, offset } => self.load(kind, object, offset),
            _ => self.fail(),
        }
    }

    /// Returns true if the cell is there and has the kind of what is stored: if not, the run is over.
    pub(crate) fn store(&mut self, object: usize, offset: usize, operand: Operand) -> bool
        ensures { (focus : meaning.Focus) → after result focus self.new ≡ stored (cell_at (world_of self.old) object offset) object offset (view_operand operand) focus (stack_of self.old) (environment_of self.old) (world_of self.old) }
    {
        match self.world.find(object, offset) {
            Access::Missing => {
                self.fail();
                false
            }
            Access::Closed => {
                self.die();
                false
            }
            Access::Found { cell } => {
                if is_kind(cell.kind, operand.kind) {
                    self.world.write(object, offset, operand.value);
                    true
                } else {
                    self.fail();
                    false
                }
            }
        }
    }

    /// The same of the cell that a thin pointer is to.
    pub(crate) fn store_at(&mut self, place: Value, operand: Operand) -> bool
        ensures { (focus : meaning.Focus) → after result focus self.new ≡ stored_at (view_value place) (view_operand operand) focus (stack_of self.old) (environment_of self.old) (world_of self.old) }
    {
        match place {
            Value::Thin { object, offset } => self.store(object, offset, operand),
            _ => {
                self.fail();
                false
            }
        }
    }
}

// ---- variables and their regions

impl<'a> Machine<'a> {
    /// A local is a new object in the region of the innermost block.
    pub(crate) fn declare(
        &mut self,
        number: usize,
        kind: Kind,
        content: Option<Value>,
    ) -> Result<bool, AllocError>
        ensures proceeding { IfOk result (λ made. after made meaning.Proceeding self.new ≡ declared (region_at (world_of self.old) self.old.environment.home) meaning.Proceeding number kind (option_map view_value content) (stack_of self.old) (environment_of self.old) (world_of self.old)) }
        ensures any { IfOk result (λ made. (focus : meaning.Focus) → after made focus self.new ≡ declared (region_at (world_of self.old) self.old.environment.home) focus number kind (option_map view_value content) (stack_of self.old) (environment_of self.old) (world_of self.old)) }
    {
        match self.world.is_open(self.environment.home) {
            None => {
                self.fail();
                Ok(false)
            }
            Some(false) => {
                self.die();
                Ok(false)
            }
            Some(true) => {
                self.environment.name(number, self.world.objects.len())?;
                self.world
                    .declare(self.alloc, self.environment.home, kind, content)?;
                Ok(true)
            }
        }
    }

    /// A region of variables is opened, and what closes it is noted.
    pub(crate) fn open(&mut self) -> Result<(), AllocError>
        ensures stack { OnOk result (stack_of self.new ≡ region_end (environment_of self.old) (world_of self.old) ∷ stack_of self.old) }
        ensures environment { OnOk result (environment_of self.new ≡ inside (environment_of self.old) (world_of self.old)) }
        ensures world { OnOk result (world_of self.new ≡ opened (world_of self.old)) }
    {
        let region = self.world.regions.len();
        self.stack.push(Entry::CloseRegion {
            region,
            home: self.environment.home,
        })?;
        self.environment.home = region;
        self.world.open(self.alloc, Sort::Stack)?;
        Ok(())
    }

    pub(crate) fn enter_block(&mut self, items: &'a Vec<Item>) -> Result<(), AllocError>
        ensures { OnOk result (state_of self.new ≡ Running Proceeding (Rest (items_of items.now.items) ∷ region_end (environment_of self.old) (world_of self.old) ∷ stack_of self.old) (inside (environment_of self.old) (world_of self.old)) (opened (world_of self.old))) }
    {
        self.open()?;
        self.stack.push(Entry::Rest { items, from: 0 })?;
        self.go(Focus::Proceeding);
        Ok(())
    }

    /// A region of variables is closed, by whichever way it is left.
    pub(crate) fn close(&mut self, region: usize, home: usize) -> bool
        ensures { (focus : meaning.Focus) → after result focus self.new ≡ closing (region_at (world_of self.old) region) focus region home (stack_of self.old) (environment_of self.old) (world_of self.old) }
    {
        match self.world.is_open(region) {
            None => {
                self.fail();
                false
            }
            Some(false) => {
                self.die();
                false
            }
            Some(true) => {
                self.world.close(region);
                self.environment.home = home;
                true
            }
        }
    }

    /// The same of a lexical region.
    pub(crate) fn close_lexical(&mut self, region: usize) -> bool
        ensures { (focus : meaning.Focus) → after result focus self.new ≡ closing_lexical (region_at (world_of self.old) region) focus region (stack_of self.old) (environment_of self.old) (world_of self.old) }
    {
        match self.world.is_open(region) {
            None => {
                self.fail();
                false
            }
            Some(false) => {
                self.die();
                false
            }
            Some(true) => {
                self.world.close(region);
                true
            }
        }
    }
}
