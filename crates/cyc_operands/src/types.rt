//! Tests of types that the typing rules use as conditions, and functions that return the region, the target or the struct of a type.
ghost use Rattle.std.specs.Prelude.{◌≡◌, IfOk};
ghost use Rattle.cyc_types.specs.Types.{region_eq, Value};
ghost use Rattle.cyc_types.specs.TypeView.{view_ty};
ghost use Rattle.cyc_types.specs.typing.Tests.{ty_eq, is_thin_mark, is_pointer, is_non_null, is_unique, is_key, is_struct, is_moved, is_int, is_char};
ghost use Rattle.cyc_types.specs.typing.Tests.{is_fat, is_handle, target_of, region_of, struct_of, arguments_of, kind_of_mark, kind_of};
ghost use Rattle.cyc_types.specs.typing.Expressions.{is_convertible, has_members, is_movable};

use cyc_syntax::PointerKind;
use cyc_types::typed::Kind;
use cyc_types::{Region, Ty};
use std::alloc::AllocError;

/// Returns true if two regions are equal.
pub fn same_region(a: Region, b: Region) -> bool
    ensures { result ≡ region_eq a b }
{
    match (a, b) {
        (Region::Heap, Region::Heap) | (Region::Unique, Region::Unique) => true,
        (Region::Variable(m), Region::Variable(n)) => m == n,
        _ => false,
    }
}

/// Returns true if the types are equal, including their regions, pointer kinds and target types.
pub fn same_type(a: &Ty, b: &Ty) -> bool
    ensures { result ≡ ty_eq (view_ty a.now) (view_ty b.now) }
{
    a.equals(b)
}

/// Returns true if a pointer kind is that of thin pointers.
pub fn is_thin_mark(kind: PointerKind) -> bool
    ensures { result ≡ is_thin_mark kind }
{
    match kind {
        PointerKind::Nullable | PointerKind::NonNull => true,
        PointerKind::Fat => false,
    }
}

/// Returns true if the type is that of ints.
pub fn is_int_type(of_type: &Ty) -> bool
    ensures { result ≡ is_int (Value (view_ty of_type.now)) }
{
    matches!(of_type, Ty::Int)
}

pub(crate) fn is_char_type(of_type: &Ty) -> bool
    ensures { result ≡ is_char (Value (view_ty of_type.now)) }
{
    matches!(of_type, Ty::Char)
}

/// Returns true if the type is a pointer type, with any kind of pointer.
pub fn is_pointer(of_type: &Ty) -> bool
    ensures { result ≡ is_pointer (view_ty of_type.now) }
{
    matches!(of_type, Ty::Pointer { .. })
}

/// Returns true if the type is that of pointers that are never null.
pub fn is_non_null(of_type: &Ty) -> bool
    ensures { result ≡ is_non_null (view_ty of_type.now) }
{
    matches!(
        of_type,
        Ty::Pointer {
            kind: PointerKind::NonNull,
            ..
        }
    )
}

/// Returns true if the type is that of unique pointers.
pub fn is_unique(of_type: &Ty) -> bool
    ensures { result ≡ is_unique (view_ty of_type.now) }
{
    match of_type {
        Ty::Pointer { region, .. } => same_region(*region, Region::Unique),
        _ => false,
    }
}

/// Returns true if the type is that of a key.
pub fn is_key(of_type: &Ty) -> bool
    ensures { result ≡ is_key (view_ty of_type.now) }
{
    matches!(of_type, Ty::Key { .. })
}

/// Returns true if the type is that of a struct.
pub fn is_struct(of_type: &Ty) -> bool
    ensures { result ≡ is_struct (view_ty of_type.now) }
{
    matches!(of_type, Ty::Struct { .. })
}

/// Returns true if a variable of the given type is empty after its value is used, because the value is moved.
pub fn is_moved(of_type: &Ty) -> bool
    ensures { result ≡ is_moved (view_ty of_type.now) }
{
    is_unique(of_type) || is_key(of_type)
}

pub(crate) fn is_fat(of_type: &Ty) -> bool
    ensures { result ≡ is_fat (view_ty of_type.now) }
{
    match of_type {
        Ty::Pointer { kind, .. } => !is_thin_mark(*kind),
        _ => false,
    }
}

/// Returns true if the type is that of a handle.
pub fn is_handle(of_type: &Ty) -> bool
    ensures { result ≡ is_handle (view_ty of_type.now) }
{
    matches!(of_type, Ty::Handle { .. })
}

/// Returns true if the type is that of thin pointers to a struct.
pub(crate) fn has_members(of_type: &Ty) -> bool
    ensures { result ≡ has_members (view_ty of_type.now) }
{
    match of_type {
        Ty::Pointer { kind, target, .. } => is_thin_mark(*kind) && is_struct(target),
        _ => false,
    }
}

/// Returns true if the type is that of fat pointers to which an int can be added.
pub(crate) fn is_movable(of_type: &Ty) -> bool
    ensures { result ≡ is_movable (view_ty of_type.now) }
{
    is_fat(of_type) && !is_unique(of_type)
}

/// Returns true if a value of the first type may be converted to the second, disregarding the regions of outermost pointers.
pub(crate) fn is_convertible(of_type: &Ty, wanted: &Ty) -> bool
    ensures { result ≡ is_convertible (view_ty of_type.now) (view_ty wanted.now) }
{
    match (of_type, wanted) {
        (Ty::Int | Ty::Char, Ty::Int | Ty::Char) => true,
        (
            Ty::Pointer { target, .. },
            Ty::Pointer {
                target: wanted_target,
                ..
            },
        ) => same_type(target, wanted_target),
        (
            Ty::Handle { region },
            Ty::Handle {
                region: wanted_region,
            },
        ) => same_region(*region, *wanted_region),
        (
            Ty::Key { region },
            Ty::Key {
                region: wanted_region,
            },
        ) => same_region(*region, *wanted_region),
        _ => false,
    }
}

/// Returns the region of a pointer, a handle or a key; for any other type the heap.
pub fn region_of(of_type: &Ty) -> Region
    ensures { result ≡ region_of (view_ty of_type.now) }
{
    match of_type {
        Ty::Pointer { region, .. } | Ty::Handle { region } | Ty::Key { region } => *region,
        Ty::Int | Ty::Char | Ty::Struct { .. } => Region::Heap,
    }
}

/// Returns the target type of a pointer; for any other type an int.
pub(crate) fn target_of(of_type: &Ty) -> Result<Ty, AllocError>
    ensures { IfOk result (λ t. view_ty t ≡ target_of (view_ty of_type.now)) }
{
    match of_type {
        Ty::Pointer { target, .. } => target.share(),
        _ => Ok(Ty::Int),
    }
}

/// Returns the index of the struct that a type names; for any other type 0.
pub fn struct_of(of_type: &Ty) -> usize
    ensures { result ≡ struct_of (view_ty of_type.now) }
{
    match of_type {
        Ty::Struct { number, .. } => *number,
        _ => 0,
    }
}

/// Returns the region arguments of a struct; any other type has none.
pub fn arguments_of(of_type: &Ty) -> &[Region]
    ensures { result.now ≡ arguments_of (view_ty of_type.now) }
{
    match of_type {
        Ty::Struct { regions, .. } => regions,
        _ => &[],
    }
}

fn kind_of_mark(kind: PointerKind) -> Kind
    ensures { result ≡ kind_of_mark kind }
{
    match kind {
        PointerKind::Nullable => Kind::Nullable,
        PointerKind::NonNull => Kind::NonNull,
        PointerKind::Fat => Kind::Fat,
    }
}

/// Returns the representation kind (int, pointer, handle, ..) of a memory cell of the given type. No cell has a struct type.
pub fn kind_of(of_type: &Ty) -> Kind
    ensures { result ≡ kind_of (view_ty of_type.now) }
{
    match of_type {
        Ty::Int | Ty::Struct { .. } => Kind::Int,
        Ty::Char => Kind::Char,
        Ty::Pointer { kind, .. } => kind_of_mark(*kind),
        Ty::Handle { .. } => Kind::Handle,
        Ty::Key { .. } => Kind::Key,
    }
}
