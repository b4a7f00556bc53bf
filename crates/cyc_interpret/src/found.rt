//! What is found among regions and objects.

ghost use Rattle.std.specs.Prelude.{◌≡◌, Some, map, option_map, slice_get};
ghost use Rattle.cyc_types.specs.TypeView.{view_ty};
ghost use Rattle.cyc_meaning.specs.Values.{kind_of, kinds_of, are_kinds};
ghost use Rattle.cyc_meaning.specs.State as meaning;
ghost use Rattle.cyc_meaning.specs.State.{is_live, located, cell_at};
ghost use Rattle.cyc_meaning.specs.Objects.{object_at, both_found, compared};
ghost use Rattle.cyc_meaning.specs.Parts.{leads_to, cell_of};
ghost use Rattle.cyc_meaning.specs.Places.{member_of};
ghost use Rattle.cyc_meaning.specs.Regions.{is_dynamic};
ghost use Rattle.cyc_interpret.specs.WorldView.{view_value, view_owner, view_cell, view_object, view_reach};
ghost use Rattle.cyc_interpret.specs.View.{view_world};
ghost use Rattle.cyc_interpret.specs.inside.Found.{IsAccess, IsCell, IsReached, view_compared};

use crate::objects::{Cell, Object, Owner, Sort};
use crate::operators::{is_kind, kind_of};
use crate::value::{Reach, Value};
use crate::world::World;
use cyc_types::Ty;
use cyc_types::typed::Kind;

/// What an access finds: a cell, that its object is closed or freed, or nothing.
#[derive(Clone, Copy)]
pub(crate) enum Access {
    Found { cell: Cell },
    Closed,
    Missing,
}

/// Whether two pointers are equal, where their objects are there.
#[derive(Clone, Copy)]
pub(crate) enum Compared {
    Found { equal: bool },
    Closed,
    Missing,
}

/// Whether what is looked for is there.
#[derive(Clone, Copy)]
pub(crate) enum Reached {
    Found,
    Closed,
    Missing,
}

fn is_live(world: &World, owner: Owner) -> bool
    ensures { result ≡ is_live (view_world world.now) (view_owner owner) }
{
    match owner {
        Owner::InRegion { region } => match world.regions.get(region) {
            Some(region) => region.is_open,
            None => false,
        },
        Owner::Unique { live } => live,
    }
}

impl Object {
    fn at(&self, offset: usize) -> Access
        ensures { IsCell result (located (view_object self.now) (slice_get (view_object self.now).cells offset)) (view_object self.now) }
    {
        match self.cells.get(offset) {
            None => Access::Missing,
            Some(cell) => Access::Found { cell: *cell },
        }
    }

    fn kind_at(&self, offset: usize) -> Option<Kind>
        ensures { result ≡ option_map (λ c. c.kind) (slice_get (view_object self.now).cells offset) }
    {
        match self.cells.get(offset) {
            None => None,
            Some(cell) => Some(cell.kind),
        }
    }
}

impl World {
    /// Whether a region is open, if it was ever made.
    pub(crate) fn is_open(&self, number: usize) -> Option<bool>
        ensures { result ≡ option_map (λ r. r.is_open) (slice_get (view_world self.now).regions number) }
    {
        match self.regions.get(number) {
            Some(region) => Some(region.is_open),
            None => None,
        }
    }

    /// Returns true if a region is a dynamic one.
    pub(crate) fn is_dynamic(&self, number: usize) -> bool
        ensures { (r : meaning.Region) → slice_get (view_world self.now).regions number ≡ Some r → result ≡ is_dynamic r.sort }
    {
        match self.regions.get(number) {
            Some(region) => match region.sort {
                Sort::Dynamic => true,
                _ => false,
            },
            None => false,
        }
    }

    /// Who gives an object back, if it was ever made.
    pub(crate) fn owner(&self, object: usize) -> Option<Owner>
        ensures { option_map view_owner result ≡ option_map (λ x. x.owner) (slice_get (view_world self.now).objects object) }
    {
        match self.objects.get(object) {
            Some(x) => Some(x.owner),
            None => None,
        }
    }

    /// A cell of an object that is there.
    #[tactic(auto, using(crate::proofs::Kept::accessed, crate::proofs::Kept::past, crate::proofs::Kept::gone))]
    pub(crate) fn find(&self, object: usize, offset: usize) -> Access
        ensures { IsAccess (view_world self.now) object result (cell_at (view_world self.now) object offset) }
    {
        match self.objects.get(object) {
            None => Access::Missing,
            Some(x) => {
                if is_live(self, x.owner) {
                    x.at(offset)
                } else {
                    Access::Closed
                }
            }
        }
    }

    /// Whether an object is there.
    pub(crate) fn reach(&self, object: usize) -> Reached
        ensures { IsReached result (object_at (view_world self.now) object) }
    {
        match self.owner(object) {
            None => Reached::Missing,
            Some(owner) => {
                if is_live(self, owner) {
                    Reached::Found
                } else {
                    Reached::Closed
                }
            }
        }
    }

    /// Whether the objects of two pointers are there, and then whether the pointers are equal.
    fn compare_objects(&self, object: usize, other: usize, equal: bool) -> Compared
        ensures { view_compared result ≡ both_found (object_at (view_world self.now) object) (object_at (view_world self.now) other) equal }
    {
        match self.reach(object) {
            Reached::Missing => Compared::Missing,
            Reached::Closed => match self.reach(other) {
                Reached::Missing => Compared::Missing,
                Reached::Closed => Compared::Closed,
                Reached::Found => Compared::Closed,
            },
            Reached::Found => match self.reach(other) {
                Reached::Missing => Compared::Missing,
                Reached::Closed => Compared::Closed,
                Reached::Found => Compared::Found { equal },
            },
        }
    }

    /// Whether two thin pointers are equal.
    pub(crate) fn compare(&self, left: Value, right: Value) -> Compared
        ensures { view_compared result ≡ compared (view_world self.now) (view_value left) (view_value right) }
    {
        match left {
            Value::Null => match right {
                Value::Null => Compared::Found { equal: true },
                Value::Thin { .. } => Compared::Found { equal: false },
                _ => Compared::Missing,
            },
            Value::Thin { object, offset } => match right {
                Value::Null => Compared::Found { equal: false },
                Value::Thin {
                    object: other,
                    offset: place,
                } => self.compare_objects(object, other, object == other && offset == place),
                _ => Compared::Missing,
            },
            _ => Compared::Missing,
        }
    }

    /// The kind of a cell, also after its object is gone.
    fn kind_at(&self, object: usize, offset: usize) -> Option<Kind>
        ensures { result ≡ option_map (λ c. c.kind) (cell_of (slice_get (view_world self.now).objects object) offset) }
    {
        match self.objects.get(object) {
            None => None,
            Some(x) => x.kind_at(offset),
        }
    }

    /// Returns true if a pointer leads to what the tree names.
    #[tactic(auto, using(crate::proofs::FieldKinds::target_none, crate::proofs::FieldKinds::target_some))]
    pub(crate) fn leads_to(&self, target: Option<Kind>, reach: Reach) -> bool
        ensures { result ≡ leads_to (view_world self.now) target (view_reach reach) }
    {
        match reach {
            Reach::At { object, offset } => match target {
                None => offset == 0,
                Some(kind) => match self.kind_at(object, offset) {
                    None => false,
                    Some(found) => is_kind(found, kind),
                },
            },
            _ => true,
        }
    }

    /// The field of this number of an object with the kinds of a struct's fields.
    pub(crate) fn member_of(&self, reach: Reach, fields: &Vec<Ty>, field: usize) -> Reach
        ensures { view_reach result ≡ member_of (view_world self.now) (view_reach reach) (map kind_of (map view_ty fields.now.items)) field }
    {
        match reach {
            Reach::At { object, offset } => match self.objects.get(object) {
                None => Reach::Nowhere,
                Some(x) => {
                    if offset == 0 && have_kinds(&x.cells, fields) {
                        Reach::At {
                            object,
                            offset: field,
                        }
                    } else {
                        Reach::Nowhere
                    }
                }
            },
            _ => reach,
        }
    }
}

/// Returns true if cells have the kinds of these types, one for one.
fn have_kinds(cells: &Vec<Cell>, types: &Vec<Ty>) -> bool
    ensures { result ≡ are_kinds (kinds_of (map view_cell cells.now.items)) (map kind_of (map view_ty types.now.items)) }
{
    for at in 0..cells.len() {
        match types.get(at) {
            None => return false,
            Some(of_type) => {
                if !is_kind(cells[at].kind, kind_of(of_type)) {
                    return false;
                }
            }
        }
    }
    match types.get(cells.len()) {
        None => true,
        Some(_of_type) => false,
    }
}
