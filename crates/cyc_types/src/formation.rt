//! Converts types as written in the source to types, by total functions: an omitted region and an unknown name have defaults. The faults of
//! a written type are found separately.
ghost use Rattle.std.specs.Prelude.{◌≡◌, ℕ, map, option_map, replicate, unwrap_or, IfOk, OnOk, List};
ghost use Rattle.cyc_syntax.specs.inside.TreeView.{view_name, view_base, view_pointer, view_type};
ghost use Rattle.cyc_types.specs.declared.region.Region.TheVariants.{Heap};
ghost use Rattle.cyc_types.specs.Types as types;
ghost use Rattle.cyc_types.specs.TypeView.{view_ty};
ghost use Rattle.cyc_types.specs.typing.Formation.{region_of, region_or, arguments_or, base_written, pointers_written, type_written};
ghost use Rattle.cyc_types.specs.inside.WrittenMarks.{left_out_by};

use crate::names::RegionNames;
use crate::structs::StructNames;
use crate::{Region, Ty};
use cyc_syntax::{BaseType, Ident, Pointer, WrittenType};
use smallvec::SmallVec;
use std::alloc::{AllocError, Global};
use std::rc::Rc;

/// Returns the region that a name denotes; an unknown name denotes the heap.
pub fn region_of(names: &RegionNames, name: Ident) -> Region
    ensures { result ≡ region_of names.now (view_name name) }
{
    match names.find(name.name.number) {
        Some(region) => region,
        None => Region::Heap,
    }
}

/// Returns the region written after a pointer sign (`*`, `@` or `?`), or `left_out` if no region is written.
fn region_or(names: &RegionNames, left_out: Region, written: Option<Ident>) -> Region
    ensures { result ≡ region_or names.now left_out (option_map view_name written) }
{
    match written {
        Some(name) => region_of(names, name),
        None => left_out,
    }
}

/// Returns a list with `count` copies of the heap region.
pub(crate) fn heaps(alloc: Global, count: usize) -> Result<Rc<SmallVec<Region, 4>>, AllocError>
    ensures { IfOk result (λ rs. rs.value.items ≡ replicate count Heap) }
{
    let mut all = SmallVec::with_capacity(alloc, count)?;
    for _ in 0..count {
        all.push(Region::Heap)?;
    }
    Ok(Rc::new(alloc, all)?)
}

/// Returns the region arguments of a struct with `count` region parameters. Omitted region arguments are the heap.
pub fn arguments_or(
    alloc: Global,
    names: &RegionNames,
    count: usize,
    written: &[Ident],
) -> Result<Rc<SmallVec<Region, 4>>, AllocError>
    ensures { IfOk result (λ rs. rs.value.items ≡ arguments_or names.now count (map view_name written.now)) }
{
    if written.is_empty() {
        return heaps(alloc, count);
    }
    let mut all = SmallVec::with_capacity(alloc, written.len())?;
    for name in written {
        all.push(region_of(names, *name))?;
    }
    Ok(Rc::new(alloc, all)?)
}

/// Returns the type that a written type has before its pointer signs (`*`, `@`, `?`) are applied.
fn base_written(
    alloc: Global,
    structs: &StructNames,
    names: &RegionNames,
    base: &BaseType,
) -> Result<Ty, AllocError>
    ensures { IfOk result (λ t. view_ty t ≡ base_written structs.now names.now (view_base base.now)) }
{
    Ok(match base {
        BaseType::Int => Ty::Int,
        BaseType::Char => Ty::Char,
        BaseType::Struct { name, regions } => {
            let count = structs.parameters(name.name.number).unwrap_or(0);
            Ty::Struct {
                number: structs.number(name.name.number),
                regions: arguments_or(alloc, names, count, regions)?,
            }
        }
        BaseType::Handle { region } => Ty::Handle {
            region: region_of(names, *region),
        },
        BaseType::Key { region } => Ty::Key {
            region: region_of(names, *region),
        },
    })
}

/// Returns the default region of a pointer sign with `following` pointer signs after it: `outermost` for the last sign, the heap
/// for all other signs.
fn left_out_by(outermost: Region, following: usize) -> Region
    ensures { result ≡ left_out_by outermost following }
{
    if following == 0 {
        return outermost;
    }
    Region::Heap
}

/// Returns the pointer type that the given pointer sign (`*`, `@` or `?`) makes of the given target type.
fn pointer_written(
    alloc: Global,
    names: &RegionNames,
    left_out: Region,
    target: Ty,
    mark: Pointer,
) -> Result<Ty, AllocError>
    ensures { IfOk result (λ t. view_ty t ≡ types.Pointer mark.kind (view_ty target) (region_or names.now left_out (view_pointer mark).region)) }
{
    Ok(Ty::Pointer {
        kind: mark.kind,
        target: Rc::new(alloc, target)?,
        region: region_or(names, left_out, mark.region),
    })
}

/// Returns the pointer type that applying the pointer signs (`*`, `@`, `?`) to the base type gives, from the innermost sign on.
fn pointers_written(
    alloc: Global,
    names: &RegionNames,
    outermost: Region,
    base: Ty,
    marks: &[Pointer],
) -> Result<Ty, AllocError>
    ensures { IfOk result (λ t. view_ty t ≡ pointers_written names.now outermost (view_ty base) (map view_pointer marks.now)) }
{
    let mut of_type = base;
    let mut following = marks.len();
    for mark in marks {
        following -= 1;
        of_type = pointer_written(
            alloc,
            names,
            left_out_by(outermost, following),
            of_type,
            *mark,
        )?;
    }
    Ok(of_type)
}

/// Returns the type denoted by a written type, from the known structs and region names. An omitted region is `outermost` at the
/// outermost pointer sign, and the heap elsewhere.
pub fn type_written(
    alloc: Global,
    structs: &StructNames,
    names: &RegionNames,
    outermost: Region,
    written: &WrittenType,
) -> Result<Ty, AllocError>
    ensures { IfOk result (λ t. view_ty t ≡ type_written structs.now names.now outermost (view_type written.now)) }
{
    let base = base_written(alloc, structs, names, &written.base)?;
    pointers_written(alloc, names, outermost, base, &written.marks)
}
