//! The types of a function's parameters. The types of parameters declare the region names that occur in them; each omitted region is
//! a new region.
ghost use Rattle.std.specs.Prelude.{◌≡◌, suc, map, option_map, IfOk, OnOk};
ghost use Rattle.cyc_syntax.specs.inside.TreeView.{view_name, view_base, view_pointer, view_type, view_member};
ghost use Rattle.cyc_types.specs.declared.region.Region.TheVariants.{Variable};
ghost use Rattle.cyc_types.specs.Types as types;
ghost use Rattle.cyc_types.specs.TypeView.{view_ty};
ghost use Rattle.cyc_types.specs.typing.Formation.{region_for, after_region, mark_for, after_mark, regions_for, after_regions, arguments_for};
ghost use Rattle.cyc_types.specs.typing.Formation.{base_for, after_base, pointers_for, after_marks, type_for, after_type, types_for, after_members};
ghost use Rattle.cyc_types.specs.inside.Namings.{naming};

use crate::formation::heaps;
use crate::names::RegionNames;
use crate::structs::StructNames;
use crate::{Region, Ty};
use cyc_syntax::{BaseType, Ident, Member, Pointer, WrittenType};
use smallvec::SmallVec;
use std::alloc::{AllocError, Global};
use std::rc::Rc;

/// Returns the next region variable, which is new, and increments the number that the next region will get.
fn next_region(next: &mut usize) -> Result<Region, AllocError>
    ensures region { IfOk result (λ r. r ≡ Variable next.old) }
    ensures next { OnOk result (next.new ≡ suc next.old) }
{
    let number = *next;
    let Some(following) = number.checked_add(1) else {
        return Err(AllocError);
    };
    *next = following;
    Ok(Region::Variable(number))
}

/// Returns the region of a name; an unknown name is declared and gets the next region.
fn region_for(names: &mut RegionNames, next: &mut usize, name: Ident) -> Result<Region, AllocError>
    ensures region { IfOk result (λ r. r ≡ region_for (naming names.old next.old) (view_name name)) }
    ensures naming { OnOk result (naming names.new next.new ≡ after_region (naming names.old next.old) (view_name name)) }
{
    if let Some(known) = names.find(name.name.number) {
        return Ok(known);
    }
    let region = next_region(next)?;
    names.declare(name.name.number, region)?;
    Ok(region)
}

/// Returns the region written after a pointer sign of a parameter's type; if none is written, the next region variable is returned.
fn mark_for(
    names: &mut RegionNames,
    next: &mut usize,
    written: Option<Ident>,
) -> Result<Region, AllocError>
    ensures region { IfOk result (λ r. r ≡ mark_for (naming names.old next.old) (option_map view_name written)) }
    ensures naming { OnOk result (naming names.new next.new ≡ after_mark (naming names.old next.old) (option_map view_name written)) }
{
    match written {
        Some(name) => region_for(names, next, name),
        None => next_region(next),
    }
}

/// Returns the region arguments of a struct with `count` region parameters. Omitted region arguments are the heap.
fn arguments_for(
    alloc: Global,
    names: &mut RegionNames,
    next: &mut usize,
    count: usize,
    written: &[Ident],
) -> Result<Rc<SmallVec<Region, 4>>, AllocError>
    ensures arguments { IfOk result (λ rs. rs.value.items ≡ arguments_for (naming names.old next.old) count (map view_name written.now)) }
    ensures naming { OnOk result (naming names.new next.new ≡ after_regions (naming names.old next.old) (map view_name written.now)) }
{
    if written.is_empty() {
        return heaps(alloc, count);
    }
    let mut all = SmallVec::with_capacity(alloc, written.len())?;
    for name in written {
        all.push(region_for(names, next, *name)?)?;
    }
    Ok(Rc::new(alloc, all)?)
}

/// Returns the type that a written parameter type has before its pointer signs (`*`, `@`, `?`) are applied.
fn base_for(
    alloc: Global,
    structs: &StructNames,
    names: &mut RegionNames,
    next: &mut usize,
    base: &BaseType,
) -> Result<Ty, AllocError>
    ensures base { IfOk result (λ t. view_ty t ≡ base_for structs.now (naming names.old next.old) (view_base base.now)) }
    ensures naming { OnOk result (naming names.new next.new ≡ after_base (naming names.old next.old) (view_base base.now)) }
{
    Ok(match base {
        BaseType::Int => Ty::Int,
        BaseType::Char => Ty::Char,
        BaseType::Struct { name, regions } => {
            let count = structs.parameters(name.name.number).unwrap_or(0);
            Ty::Struct {
                number: structs.number(name.name.number),
                regions: arguments_for(alloc, names, next, count, regions)?,
            }
        }
        BaseType::Handle { region } => Ty::Handle {
            region: region_for(names, next, *region)?,
        },
        BaseType::Key { region } => Ty::Key {
            region: region_for(names, next, *region)?,
        },
    })
}

/// Returns the pointer type that the given pointer sign (`*`, `@` or `?`) of a parameter's type makes of the given target type.
fn pointer_for(
    alloc: Global,
    names: &mut RegionNames,
    next: &mut usize,
    target: Ty,
    mark: Pointer,
) -> Result<Ty, AllocError>
    ensures pointer { IfOk result (λ t. view_ty t ≡ types.Pointer mark.kind (view_ty target)
        (mark_for (naming names.old next.old) (view_pointer mark).region)) }
    ensures naming { OnOk result (naming names.new next.new ≡ after_mark (naming names.old next.old) (view_pointer mark).region) }
{
    Ok(Ty::Pointer {
        kind: mark.kind,
        target: Rc::new(alloc, target)?,
        region: mark_for(names, next, mark.region)?,
    })
}

/// Returns the pointer type that applying the pointer signs to a parameter's base type gives, from the innermost sign on.
fn pointers_for(
    alloc: Global,
    names: &mut RegionNames,
    next: &mut usize,
    base: Ty,
    marks: &[Pointer],
) -> Result<Ty, AllocError>
    ensures pointers { IfOk result (λ t. view_ty t ≡ pointers_for (naming names.old next.old) (view_ty base) (map view_pointer marks.now)) }
    ensures naming { OnOk result (naming names.new next.new ≡ after_marks (naming names.old next.old) (map view_pointer marks.now)) }
{
    let mut of_type = base;
    for mark in marks {
        of_type = pointer_for(alloc, names, next, of_type, *mark)?;
    }
    Ok(of_type)
}

/// Returns the type of a parameter, from the known structs and region names. Region names that the parameter's type
/// declares are added to the known region names.
fn type_for(
    alloc: Global,
    structs: &StructNames,
    names: &mut RegionNames,
    next: &mut usize,
    written: &WrittenType,
) -> Result<Ty, AllocError>
    ensures made { IfOk result (λ t. view_ty t ≡ type_for structs.now (naming names.old next.old) (view_type written.now)) }
    ensures naming { OnOk result (naming names.new next.new ≡ after_type (naming names.old next.old) (view_type written.now)) }
{
    let base = base_for(alloc, structs, names, next, &written.base)?;
    pointers_for(alloc, names, next, base, &written.marks)
}

/// Returns the types of parameters, from the known structs, the region names and the number that the next region will get. After the call,
/// the region names that the parameters declare are known.
pub fn types_for(
    alloc: Global,
    structs: &StructNames,
    names: &mut RegionNames,
    next: &mut usize,
    members: &[Member],
) -> Result<Vec<Ty>, AllocError>
    ensures types { IfOk result (λ ts. map view_ty ts.items ≡ types_for structs.now (naming names.old next.old) (map view_member members.now)) }
    ensures naming { OnOk result (naming names.new next.new ≡ after_members (naming names.old next.old) (map view_member members.now)) }
{
    let mut all = Vec::with_capacity(alloc, members.len())?;
    for member in members {
        all.push(type_for(alloc, structs, names, next, &member.of_type)?)?;
    }
    Ok(all)
}
