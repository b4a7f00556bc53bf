//! Lexical and dynamic regions, keys, aliases, and unique objects that are given back.

ghost use Rattle.std.specs.Prelude.{◌≡◌, OnOk, drop, slice_get};
ghost use Rattle.cyc_types.specs.TypedTreeView.{items_of};
ghost use Rattle.cyc_meaning.specs.State.{region_at};
ghost use Rattle.cyc_meaning.specs.Regions.{step_naming, opens_lexical, opens_dynamic, opens_by_key, opened_by, opens_with, closes_dynamic, closes_with, aliases, aliased, frees_in_region, frees_object, frees};
ghost use Rattle.cyc_interpret.specs.WorldView.{view_operand, view_value};
ghost use Rattle.cyc_interpret.specs.View.{stack_of, environment_of, world_of, state_of};

use crate::entry::{Entry, Focus};
use crate::machine::Machine;
use crate::objects::{Owner, Sort};
use crate::value::{Operand, Value};
use cyc_types::typed::{Item, Kind};
use std::alloc::AllocError;

impl<'a> Machine<'a> {
    /// A local is made that holds something from the start, and what is left of its block goes on.
    pub(crate) fn name(
        &mut self,
        number: usize,
        operand: Operand,
        items: &'a Vec<Item>,
        from: usize,
    ) -> Result<(), AllocError>
        ensures { OnOk result (state_of self.new ≡ step_naming number (view_operand operand) (items_of (drop from items.now.items)) (stack_of self.old) (environment_of self.old) (world_of self.old)) }
    {
        self.stack.push(Entry::Rest { items, from })?;
        if self.declare(number, operand.kind, Some(operand.value))? {
            self.go(Focus::Proceeding);
        }
        Ok(())
    }

    /// A lexical region is opened, and then its handle is made.
    pub(crate) fn open_lexical(
        &mut self,
        number: usize,
        items: &'a Vec<Item>,
        from: usize,
    ) -> Result<(), AllocError>
        ensures { OnOk result (state_of self.new ≡ opens_lexical number (items_of (drop from items.now.items)) (stack_of self.old) (environment_of self.old) (world_of self.old)) }
    {
        let region = self.world.regions.len();
        self.stack.push(Entry::CloseLexical { region })?;
        self.world.open(self.alloc, Sort::Lexical)?;
        self.go(Focus::Naming {
            number,
            operand: Operand {
                kind: Kind::Handle,
                value: Value::Handle { region },
            },
            items,
            from,
        });
        Ok(())
    }

    /// `new_ukey` opens a region, and its key is a local.
    pub(crate) fn open_dynamic(
        &mut self,
        number: usize,
        items: &'a Vec<Item>,
        from: usize,
    ) -> Result<(), AllocError>
        ensures { OnOk result (state_of self.new ≡ opens_dynamic number (items_of (drop from items.now.items)) (stack_of self.old) (environment_of self.old) (world_of self.old)) }
    {
        let region = self.world.regions.len();
        self.world.open(self.alloc, Sort::Dynamic)?;
        self.go(Focus::Naming {
            number,
            operand: Operand {
                kind: Kind::Key,
                value: Value::Key { region },
            },
            items,
            from,
        });
        Ok(())
    }

    /// `open` reads the key of a region.
    pub(crate) fn open_by_key(
        &mut self,
        number: usize,
        key: usize,
        items: &'a Vec<Item>,
        from: usize,
    ) -> Result<(), AllocError>
        ensures { OnOk result (state_of self.new ≡ opens_by_key number key (items_of (drop from items.now.items)) (stack_of self.old) (environment_of self.old) (world_of self.old)) }
    {
        self.stack.push(Entry::OpenBy {
            number,
            lent: key,
            items,
            from,
        })?;
        let object = self.environment.local(key);
        self.load_from(Kind::Key, object);
        Ok(())
    }

    /// A local becomes the handle of a dynamic region that is open.
    #[tactic(auto, using(crate::proofs::Closes::opens_by, crate::proofs::Closes::opens_no_other))]
    fn open_region(
        &mut self,
        region: usize,
        number: usize,
        lent: usize,
        items: &'a Vec<Item>,
        from: usize,
    ) -> Result<(), AllocError>
        ensures { OnOk result (state_of self.new ≡ opened_by (region_at (world_of self.old) region) region number lent (items_of (drop from items.now.items)) (stack_of self.old) (environment_of self.old) (world_of self.old)) }
    {
        match self.world.is_open(region) {
            None => self.fail(),
            Some(false) => self.die(),
            Some(true) => {
                if self.world.is_dynamic(region) {
                    self.stack.push(Entry::EndLoan { lent })?;
                    self.go(Focus::Naming {
                        number,
                        operand: Operand {
                            kind: Kind::Handle,
                            value: Value::Handle { region },
                        },
                        items,
                        from,
                    });
                } else {
                    self.fail();
                }
            }
        }
        Ok(())
    }

    pub(crate) fn open_with(
        &mut self,
        number: usize,
        lent: usize,
        items: &'a Vec<Item>,
        from: usize,
        key: Value,
    ) -> Result<(), AllocError>
        ensures { OnOk result (state_of self.new ≡ opens_with number lent (items_of (drop from items.now.items)) (view_value key) (stack_of self.old) (environment_of self.old) (world_of self.old)) }
    {
        match key {
            Value::Key { region } => self.open_region(region, number, lent, items, from)?,
            _ => self.fail(),
        }
        Ok(())
    }

    #[tactic(auto, using(crate::proofs::Closes::closes_no_other))]
    fn close_dynamic(&mut self, region: usize)
        ensures { state_of self.new ≡ closes_dynamic (region_at (world_of self.old) region) region (stack_of self.old) (environment_of self.old) (world_of self.old) }
    {
        match self.world.is_open(region) {
            None => self.fail(),
            Some(false) => self.die(),
            Some(true) => {
                if self.world.is_dynamic(region) {
                    self.world.close(region);
                    self.go(Focus::Proceeding);
                } else {
                    self.fail();
                }
            }
        }
    }

    /// `free_ukey` closes the region of a key.
    pub(crate) fn close_with(&mut self, key: Value)
        ensures { state_of self.new ≡ closes_with (view_value key) (stack_of self.old) (environment_of self.old) (world_of self.old) }
    {
        match key {
            Value::Key { region } => self.close_dynamic(region),
            _ => self.fail(),
        }
    }

    /// The unique pointer of a local is read, which another local is to hold too.
    pub(crate) fn alias(
        &mut self,
        number: usize,
        kind: Kind,
        source: usize,
        items: &'a Vec<Item>,
        from: usize,
    ) -> Result<(), AllocError>
        ensures { OnOk result (state_of self.new ≡ aliases number kind source (items_of (drop from items.now.items)) (stack_of self.old) (environment_of self.old) (world_of self.old)) }
    {
        self.stack.push(Entry::AliasOf {
            number,
            lent: source,
            items,
            from,
        })?;
        let object = self.environment.local(source);
        self.load_from(kind, object);
        Ok(())
    }

    pub(crate) fn alias_as(
        &mut self,
        number: usize,
        lent: usize,
        items: &'a Vec<Item>,
        from: usize,
        operand: Operand,
    ) -> Result<(), AllocError>
        ensures { OnOk result (state_of self.new ≡ aliased number lent (items_of (drop from items.now.items)) (view_operand operand) (stack_of self.old) (environment_of self.old) (world_of self.old)) }
    {
        self.stack.push(Entry::EndLoan { lent })?;
        self.go(Focus::Naming {
            number,
            operand,
            items,
            from,
        });
        Ok(())
    }

    /// What a region owns is no unique object.
    #[tactic(auto, using(crate::proofs::Closes::no_unique))]
    fn free_in_region(&mut self, region: usize)
        ensures { state_of self.new ≡ frees_in_region (region_at (world_of self.old) region) (world_of self.old) }
    {
        match self.world.is_open(region) {
            None => self.fail(),
            Some(false) => self.die(),
            Some(true) => self.fail(),
        }
    }

    fn free_object(&mut self, object: usize)
        ensures { state_of self.new ≡ frees_object (slice_get (world_of self.old).objects object) object (stack_of self.old) (environment_of self.old) (world_of self.old) }
    {
        match self.world.owner(object) {
            None => self.fail(),
            Some(Owner::InRegion { region }) => self.free_in_region(region),
            Some(Owner::Unique { live: false }) => self.die(),
            Some(Owner::Unique { live: true }) => {
                self.world.free(object);
                self.go(Focus::Proceeding);
            }
        }
    }

    /// `ufree` gives back a whole unique object. That of null does nothing.
    pub(crate) fn free(&mut self, value: Value)
        ensures { state_of self.new ≡ frees (view_value value) (stack_of self.old) (environment_of self.old) (world_of self.old) }
    {
        match value {
            Value::Null => self.go(Focus::Proceeding),
            Value::Thin { object, offset } => {
                if offset == 0 {
                    self.free_object(object);
                } else {
                    self.fail();
                }
            }
            Value::Fat { part } => {
                if part.start == 0 {
                    self.free_object(part.object);
                } else {
                    self.fail();
                }
            }
            _ => self.fail(),
        }
    }
}
