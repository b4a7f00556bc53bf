//! New objects: `new` and `rnew`.

ghost use Rattle.std.specs.Prelude.{◌≡◌, ◌*◌, ◌∷◌, [], None, OnOk, IfOk, Some, drop, map, nat_le, reverse};
ghost use Rattle.cyc_types.specs.TypedTreeView.{view_expression, view_initial, view_placement, arguments_of};
ghost use Rattle.cyc_types.specs.declared.typed.Kind.TheVariants as kinds;
ghost use Rattle.cyc_meaning.specs.Values.{Thin, bytes_of_kind, words_for};
ghost use Rattle.cyc_meaning.specs.Allocation.{writes_from, blanks_of, blanks, makes_of, makes_plain, makes_fields, makes_array, most_words, step_beginning, step_repeating, fills_element, makes, allocates, makes_by};
ghost use Rattle.cyc_meaning.specs.Parts.{step_writing};
ghost use Rattle.cyc_interpret.specs.WorldView.{view_operand, operands_of, view_value, view_write, view_owner, view_cell};
ghost use Rattle.cyc_interpret.specs.View.{stack_of, environment_of, world_of, state_of};

use crate::entry::{Entry, Focus, Progress, Slot};
use crate::found::Reached;
use crate::machine::Machine;
use crate::objects::{Cell, Owner};
use crate::operators::is_kind;
use crate::sizes::bytes_of_kind;
use crate::value::{Operand, Part, Value, Write};
use cyc_types::typed::{Converted, Expr, Initial, Kind, Placement};
use std::alloc::{AllocError, Global};

// ---- a value in each cell

/// Cells for these values, which hold nothing yet.
fn blanks_of(alloc: Global, values: &Vec<Operand>) -> Result<Vec<Cell>, AllocError>
    ensures { IfOk result (λ cells. map view_cell cells.items ≡ blanks_of (operands_of values.now.items)) }
{
    let mut cells = Vec::new(alloc);
    for value in values {
        cells.push(Cell {
            kind: value.kind,
            content: None,
        })?;
    }
    Ok(cells)
}

/// So many cells of a kind, which hold nothing yet.
fn blanks(alloc: Global, count: u32, kind: Kind) -> Result<Vec<Cell>, AllocError>
    ensures { IfOk result (λ cells. map view_cell cells.items ≡ blanks count kind) }
{
    let mut cells = Vec::new(alloc);
    for _ in 0..count {
        cells.push(Cell {
            kind,
            content: None,
        })?;
    }
    Ok(cells)
}

/// Returns true if so many elements of a kind are not too many for an array.
fn is_length(count: u32, kind: Kind) -> bool
    ensures { result ≡ nat_le (words_for (count * bytes_of_kind kind)) most_words }
{
    let bytes = count as u64 * bytes_of_kind(kind) as u64;
    (bytes + 3) / 4 <= 1000
}

impl<'a> Machine<'a> {
    /// A new object for these values, one cell each.
    fn make_of(&mut self, owner: Owner, values: Vec<Operand>) -> Result<(), AllocError>
        ensures { OnOk result (state_of self.new ≡ makes_of (view_owner owner) (operands_of values.items) (stack_of self.old) (environment_of self.old) (world_of self.old)) }
    {
        let object = self.world.objects.len();
        let cells = blanks_of(self.alloc, &values)?;
        match self.world.create(owner, cells)? {
            Reached::Missing => self.fail(),
            Reached::Closed => self.die(),
            Reached::Found => self.go(Focus::Filling {
                object,
                values,
                from: 0,
            }),
        }
        Ok(())
    }

    /// The cells of a new object are written one by one, from this one on. Then the pointer to it is passed on.
    pub(crate) fn fill(&mut self, object: usize, values: Vec<Operand>, from: usize)
        ensures { state_of self.new ≡ step_writing (writes_from object from (operands_of (drop from values.items))) (Some (record { kind = kinds.NonNull; value = Thin object 0 })) (stack_of self.old) (environment_of self.old) (world_of self.old) }
    {
        match values.get(from) {
            None => self.give(Kind::NonNull, Value::Thin { object, offset: 0 }),
            Some(value) => {
                let value = *value;
                if self.store(object, from, value) {
                    self.go(Focus::Filling {
                        object,
                        values,
                        from: from + 1,
                    });
                }
            }
        }
    }

    /// The first cell of a swap is written.
    pub(crate) fn write_first(&mut self, first: Write, second: Write)
        ensures { state_of self.new ≡ step_writing (view_write first ∷ view_write second ∷ []) None (stack_of self.old) (environment_of self.old) (world_of self.old) }
    {
        if self.store_at(first.place, first.operand) {
            self.go(Focus::Restoring { last: second });
        }
    }

    /// The second cell of a swap is written.
    pub(crate) fn write_last(&mut self, last: Write)
        ensures { state_of self.new ≡ step_writing (view_write last ∷ []) None (stack_of self.old) (environment_of self.old) (world_of self.old) }
    {
        if self.store_at(last.place, last.operand) {
            self.go(Focus::Exchanged);
        }
    }

    /// The only cell of a new object has this kind.
    pub(crate) fn make_plain(
        &mut self,
        owner: Owner,
        kind: Kind,
        value: Operand,
    ) -> Result<(), AllocError>
        ensures { OnOk result (state_of self.new ≡ makes_plain (view_owner owner) kind (view_operand value) (stack_of self.old) (environment_of self.old) (world_of self.old)) }
    {
        if is_kind(value.kind, kind) {
            let mut values = Vec::new(self.alloc);
            values.push(value)?;
            self.make_of(owner, values)?;
        } else {
            self.fail();
        }
        Ok(())
    }

    /// Fields are evaluated and converted one by one, from this one on.
    pub(crate) fn make_fields(
        &mut self,
        owner: Owner,
        before: Vec<Operand>,
        fields: &'a Vec<Converted>,
        from: usize,
    ) -> Result<(), AllocError>
        ensures { OnOk result (state_of self.new ≡ makes_fields (view_owner owner) (reverse (operands_of before.items)) (arguments_of (drop from fields.now.items)) (stack_of self.old) (environment_of self.old) (world_of self.old)) }
    {
        match fields.get(from) {
            None => self.make_of(owner, before)?,
            Some(field) => {
                self.stack.push(Entry::MakeFields {
                    owner,
                    before,
                    fields,
                    from: from + 1,
                })?;
                self.stack.push(Entry::ConvertTo {
                    from: field.from,
                    to: field.to,
                    value: &field.value,
                })?;
                self.go(Focus::Evaluating {
                    value: &field.value,
                });
            }
        }
        Ok(())
    }

    // ---- arrays

    /// The length of an array is checked.
    pub(crate) fn make_array(
        &mut self,
        owner: Owner,
        level: usize,
        kind: Kind,
        element: &'a Expr,
        length: Value,
    )
        ensures { state_of self.new ≡ makes_array (view_owner owner) level kind (view_expression element.now) (view_value length) (stack_of self.old) (environment_of self.old) (world_of self.old) }
    {
        match length {
            Value::Int { word: count } => {
                if is_length(count, kind) {
                    self.go(Focus::Beginning {
                        owner,
                        count,
                        level,
                        kind,
                        element,
                    });
                } else {
                    self.go(Focus::Throwing { tag: 3, value: 0 });
                }
            }
            _ => self.fail(),
        }
    }

    /// The block of an array is made.
    pub(crate) fn begin_array(
        &mut self,
        owner: Owner,
        count: u32,
        level: usize,
        kind: Kind,
        element: &'a Expr,
    ) -> Result<(), AllocError>
        ensures { OnOk result (state_of self.new ≡ step_beginning (view_owner owner) count level kind (view_expression element.now) (stack_of self.old) (environment_of self.old) (world_of self.old)) }
    {
        let object = self.world.objects.len();
        let cells = blanks(self.alloc, count, kind)?;
        match self.world.create(owner, cells)? {
            Reached::Missing => self.fail(),
            Reached::Closed => self.die(),
            Reached::Found => self.go(Focus::Repeating {
                progress: Progress {
                    object,
                    count,
                    index: 0,
                    level,
                },
                kind,
                element,
            }),
        }
        Ok(())
    }

    /// The next element of an array is evaluated, or the pointer to all is passed on.
    pub(crate) fn repeat_element(
        &mut self,
        progress: Progress,
        kind: Kind,
        element: &'a Expr,
    ) -> Result<(), AllocError>
        ensures { OnOk result (state_of self.new ≡ step_repeating progress.object progress.count progress.index progress.level kind (view_expression element.now) (stack_of self.old) (environment_of self.old) (world_of self.old)) }
    {
        if progress.index == progress.count {
            self.give(
                Kind::Fat,
                Value::Fat {
                    part: Part {
                        object: progress.object,
                        start: 0,
                        count: progress.count,
                        index: 0,
                    },
                },
            );
        } else {
            self.stack.push(Entry::FillElement {
                slot: Slot {
                    object: progress.object,
                    count: progress.count,
                    index: progress.index,
                    level: progress.level,
                },
                kind,
                element,
            })?;
            self.environment.count(progress.level, progress.index)?;
            self.go(Focus::Evaluating { value: element });
        }
        Ok(())
    }

    /// An element of an array is written.
    pub(crate) fn fill_element(&mut self, slot: Slot, kind: Kind, element: &'a Expr, value: Operand)
        ensures { state_of self.new ≡ fills_element slot.object slot.count slot.index slot.level kind (view_expression element.now) (view_operand value) (stack_of self.old) (environment_of self.old) (world_of self.old) }
    {
        if is_kind(value.kind, kind) {
            if self.store(slot.object, slot.index as usize, value) {
                self.go(Focus::Repeating {
                    progress: Progress {
                        object: slot.object,
                        count: slot.count,
                        index: slot.index + 1,
                        level: slot.level,
                    },
                    kind,
                    element,
                });
            }
        } else {
            self.fail();
        }
    }

    // ---- all forms

    fn make(&mut self, owner: Owner, initial: &'a Initial) -> Result<(), AllocError>
        ensures { OnOk result (state_of self.new ≡ makes (view_owner owner) (view_initial initial.now) (stack_of self.old) (environment_of self.old) (world_of self.old)) }
    {
        match initial {
            Initial::Plain { kind, value } => {
                self.stack.push(Entry::MakePlain { owner, kind: *kind })?;
                self.go(Focus::Evaluating { value });
            }
            Initial::Fields { values } => self.make_fields(owner, Vec::new(self.alloc), values, 0)?,
            Initial::Array {
                level,
                length,
                kind,
                element,
                ..
            } => {
                self.stack.push(Entry::MakeArray {
                    owner,
                    level: *level,
                    kind: *kind,
                    element,
                })?;
                self.go(Focus::Evaluating { value: length });
            }
        }
        Ok(())
    }

    /// `new` makes an object in the heap, `rnew` in the region of a handle, which is evaluated first, or a unique one.
    pub(crate) fn allocate(
        &mut self,
        placement: &'a Placement,
        initial: &'a Initial,
    ) -> Result<(), AllocError>
        ensures { OnOk result (state_of self.new ≡ allocates (view_placement placement.now) (view_initial initial.now) (stack_of self.old) (environment_of self.old) (world_of self.old)) }
    {
        match placement {
            Placement::OnHeap => self.make(Owner::InRegion { region: 0 }, initial)?,
            Placement::AsUnique => self.make(Owner::Unique { live: true }, initial)?,
            Placement::ByHandle { handle } => {
                self.stack.push(Entry::PlaceBy { initial })?;
                self.go(Focus::Evaluating { value: handle });
            }
        }
        Ok(())
    }

    pub(crate) fn make_by(&mut self, initial: &'a Initial, handle: Value) -> Result<(), AllocError>
        ensures { OnOk result (state_of self.new ≡ makes_by (view_initial initial.now) (view_value handle) (stack_of self.old) (environment_of self.old) (world_of self.old)) }
    {
        match handle {
            Value::Handle { region } => {
                self.stack.push(Entry::BesideHandle { region })?;
                self.make(Owner::InRegion { region }, initial)?;
            }
            _ => self.fail(),
        }
        Ok(())
    }
}
