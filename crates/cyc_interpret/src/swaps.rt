//! Swaps: both places are found, then both are read, the left one first, and written.

ghost use Rattle.std.specs.Prelude.{◌≡◌, OnOk, option_map};
ghost use Rattle.cyc_types.specs.TypedTreeView.{view_side};
ghost use Rattle.cyc_meaning.specs.Swaps.{both_places, finds_right_object, finds_right, finds_left_object, swaps, swap_read, swap_content, swap_loaded_at, step_swapping};
ghost use Rattle.cyc_interpret.specs.WorldView.{view_operand, view_value};
ghost use Rattle.cyc_interpret.specs.View.{stack_of, environment_of, world_of, state_of};

use crate::entry::{Entry, Focus};
use crate::found::Access;
use crate::machine::Machine;
use crate::operators::{is_kind, kind_of};
use crate::places::{peeked, type_of_place};
use crate::value::{Operand, Value, Write};
use cyc_types::typed::{Kind, Side};
use std::alloc::AllocError;

impl<'a> Machine<'a> {
    pub(crate) fn find_both(&mut self, kind: Kind, left: Value, right: Value)
        ensures { state_of self.new ≡ both_places kind (view_value left) (view_value right) (stack_of self.old) (environment_of self.old) (world_of self.old) }
    {
        self.go(Focus::Swapping {
            kind,
            left,
            right,
            before: None,
        });
    }

    fn find_right_object(&mut self, kind: Kind, left: Value, object: Option<usize>)
        ensures { state_of self.new ≡ finds_right_object kind (view_value left) object (stack_of self.old) (environment_of self.old) (world_of self.old) }
    {
        match object {
            None => self.fail(),
            Some(object) => self.find_both(kind, left, Value::Thin { object, offset: 0 }),
        }
    }

    pub(crate) fn find_right(
        &mut self,
        kind: Kind,
        peek: Option<usize>,
        is_cell: bool,
        left: Value,
        right: &'a Side,
    ) -> Result<(), AllocError>
        ensures { OnOk result (state_of self.new ≡ finds_right kind peek is_cell (view_value left) (view_side right.now) (stack_of self.old) (environment_of self.old) (world_of self.old)) }
    {
        match right {
            Side::Variable { place, .. } => {
                let object = self.environment.object_of(*place);
                self.find_right_object(kind, left, object);
            }
            Side::Cell { place } => {
                self.stack.push(Entry::SwapRight {
                    kind,
                    peek,
                    is_cell,
                    left,
                })?;
                self.go(Focus::Locating { place });
            }
        }
        Ok(())
    }

    fn find_left_object(
        &mut self,
        kind: Kind,
        object: Option<usize>,
        right: &'a Side,
    ) -> Result<(), AllocError>
        ensures { OnOk result (state_of self.new ≡ finds_left_object kind object (view_side right.now) (stack_of self.old) (environment_of self.old) (world_of self.old)) }
    {
        match object {
            None => self.fail(),
            Some(object) => self.find_right(
                kind,
                None,
                false,
                Value::Thin { object, offset: 0 },
                right,
            )?,
        }
        Ok(())
    }

    pub(crate) fn swap(&mut self, left: &'a Side, right: &'a Side) -> Result<(), AllocError>
        ensures { OnOk result (state_of self.new ≡ swaps (view_side left.now) (view_side right.now) (stack_of self.old) (environment_of self.old) (world_of self.old)) }
    {
        match left {
            Side::Variable { place, of_type } => {
                let object = self.environment.object_of(*place);
                self.find_left_object(kind_of(of_type), object, right)?;
            }
            Side::Cell { place } => {
                self.stack.push(Entry::SwapLeft {
                    kind: kind_of(type_of_place(place)),
                    peek: peeked(place),
                    right,
                })?;
                self.go(Focus::Locating { place });
            }
        }
        Ok(())
    }

    fn swap_read(
        &mut self,
        kind: Kind,
        left: Value,
        right: Value,
        before: Option<Operand>,
        value: Value,
    )
        ensures { state_of self.new ≡ swap_read kind (view_value left) (view_value right) (option_map view_operand before) (view_value value) (stack_of self.old) (environment_of self.old) (world_of self.old) }
    {
        let operand = Operand { kind, value };
        match before {
            None => self.go(Focus::Swapping {
                kind,
                left,
                right,
                before: Some(operand),
            }),
            Some(before) => self.go(Focus::Exchanging {
                first: Write {
                    place: left,
                    operand,
                },
                second: Write {
                    place: right,
                    operand: before,
                },
            }),
        }
    }

    fn swap_content(
        &mut self,
        kind: Kind,
        left: Value,
        right: Value,
        before: Option<Operand>,
        content: Option<Value>,
    )
        ensures { state_of self.new ≡ swap_content kind (view_value left) (view_value right) (option_map view_operand before) (option_map view_value content) (stack_of self.old) (environment_of self.old) (world_of self.old) }
    {
        match content {
            None => self.fail(),
            Some(value) => self.swap_read(kind, left, right, before, value),
        }
    }

    /// One of both places is read.
    fn swap_load_at(
        &mut self,
        kind: Kind,
        left: Value,
        right: Value,
        before: Option<Operand>,
        place: Value,
    )
        ensures { state_of self.new ≡ swap_loaded_at kind (view_value left) (view_value right) (option_map view_operand before) (view_value place) (stack_of self.old) (environment_of self.old) (world_of self.old) }
    {
        match place {
            Value::Thin { object, offset } => match self.world.find(object, offset) {
                Access::Missing => self.fail(),
                Access::Closed => self.die(),
                Access::Found { cell } => {
                    if is_kind(cell.kind, kind) {
                        self.swap_content(kind, left, right, before, cell.content);
                    } else {
                        self.fail();
                    }
                }
            },
            _ => self.fail(),
        }
    }

    pub(crate) fn exchange(
        &mut self,
        kind: Kind,
        left: Value,
        right: Value,
        before: Option<Operand>,
    )
        ensures { state_of self.new ≡ step_swapping kind (view_value left) (view_value right) (option_map view_operand before) (stack_of self.old) (environment_of self.old) (world_of self.old) }
    {
        match before {
            None => self.swap_load_at(kind, left, right, None, left),
            Some(operand) => self.swap_load_at(kind, left, right, Some(operand), right),
        }
    }
}
