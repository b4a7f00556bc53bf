//! Checks of the requirements that the typing rules put on a type as written in the source.
ghost use Rattle.std.specs.Prelude.{◌≡◌, Bool, not, map, option_map};
ghost use Rattle.cyc_words.specs.declared.fault.Code.TheVariants as codes;
ghost use Rattle.cyc_syntax.specs.inside.TreeView.{place_of_span, view_name, view_base, view_pointer, view_type};
ghost use Rattle.cyc_types.specs.Rules.{demand, noted, settled as settle};
ghost use Rattle.cyc_types.specs.typing.Formation.{is_name_of, name_demanded, names_demanded, is_count, struct_demanded, base_demanded};
ghost use Rattle.cyc_types.specs.typing.Formation.{mark_demanded, marks_demanded, is_shape, type_demanded, is_key_base, field_demanded};
ghost use Rattle.cyc_types.specs.typing.Formation.{is_global_shape, global_demanded};

use crate::settled::Settled;
use cyc_syntax::{BaseType, Ident, Pointer, PointerKind, WrittenType};
use cyc_types::{Region, RegionNames, StructNames};
use cyc_words::{Code, Span};

/// Returns true if a region name is declared and denotes the given region.
pub fn is_name_of(names: &RegionNames, region: Region, name: Ident) -> bool
    ensures { result ≡ is_name_of names.now region (view_name name) }
{
    match names.find(name.name.number) {
        Some(known) => known == region,
        None => false,
    }
}

/// Records a fault if a region name is not declared. For a region name in a parameter, the function instead records a
/// fault if the region name equals the name of the function's own region.
pub fn demand_name(settled: &mut Settled, names: &RegionNames, own: Option<usize>, name: Ident)
    ensures { settled.new.known ≡ noted settled.old.known (name_demanded names.now own (view_name name)) }
{
    match own {
        Some(own) => settled.demand(Code::DeclaredTwice, name.span, name.name.number != own),
        None => {
            let is_known = names.find(name.name.number).is_some();
            settled.demand(Code::UnknownName, name.span, is_known);
        }
    }
}

/// Requires that a region name does not denote the given region.
pub fn demand_other(settled: &mut Settled, names: &RegionNames, region: Region, name: Ident)
    ensures { settled.new.known ≡ noted settled.old.known
        (demand codes.RegionOrKeyMisused (place_of_span name.span) (not (is_name_of names.now region (view_name name)))) }
{
    let is_other = !is_name_of(names, region, name);
    settled.demand(Code::RegionOrKeyMisused, name.span, is_other);
}

/// Checks the typing rules' requirements on the region arguments of a struct type.
pub fn demand_names(
    settled: &mut Settled,
    names: &RegionNames,
    own: Option<usize>,
    regions: &[Ident],
)
    ensures { settled.new.known ≡ settle settled.old.known (names_demanded names.now own (map view_name regions.now)) }
{
    for region in regions {
        demand_name(settled, names, own, *region);
        demand_other(settled, names, Region::Unique, *region);
    }
}

/// Returns true if a struct type is written with no region arguments, or with as many as the struct has region parameters.
fn is_count(count: Option<usize>, regions: &[Ident]) -> bool
    ensures { result ≡ is_count count (map view_name regions.now) }
{
    match count {
        Some(count) => regions.is_empty() || regions.len() == count,
        None => true,
    }
}

/// Checks the typing rules' requirements on a struct type as written with its region arguments; `span` is where the written type begins.
pub fn demand_struct(
    settled: &mut Settled,
    structs: &StructNames,
    names: &RegionNames,
    own: Option<usize>,
    span: Span,
    name: Ident,
    regions: &[Ident],
)
    ensures { settled.new.known ≡ settle settled.old.known
        (struct_demanded structs.now names.now own (place_of_span span) (view_name name) (map view_name regions.now)) }
{
    let count = structs.parameters(name.name.number);
    settled.demand(Code::UnknownName, name.span, count.is_some());
    settled.demand(Code::TypeMismatch, span, is_count(count, regions));
    demand_names(settled, names, own, regions);
}

/// Checks the requirements on the base of a type as written, which precedes its pointer signs (`*`, `@` or `?`).
/// `span` is where the written type begins.
fn demand_base(
    settled: &mut Settled,
    structs: &StructNames,
    names: &RegionNames,
    own: Option<usize>,
    span: Span,
    base: &BaseType,
)
    ensures { settled.new.known ≡ settle settled.old.known (base_demanded structs.now names.now own (place_of_span span) (view_base base.now)) }
{
    match base {
        BaseType::Int | BaseType::Char => {}
        BaseType::Struct { name, regions } => {
            demand_struct(settled, structs, names, own, span, *name, regions);
        }
        BaseType::Handle { region } => {
            demand_name(settled, names, own, *region);
            demand_other(settled, names, Region::Unique, *region);
        }
        BaseType::Key { region } => {
            demand_name(settled, names, own, *region);
            demand_other(settled, names, Region::Unique, *region);
            demand_other(settled, names, Region::Heap, *region);
        }
    }
}

fn demand_mark(
    settled: &mut Settled,
    names: &RegionNames,
    own: Option<usize>,
    region: Option<Ident>,
)
    ensures { settled.new.known ≡ settle settled.old.known (mark_demanded names.now own (option_map view_name region)) }
{
    if let Some(name) = region {
        demand_name(settled, names, own, name);
    }
}

fn demand_marks(settled: &mut Settled, names: &RegionNames, own: Option<usize>, marks: &[Pointer])
    ensures { settled.new.known ≡ settle settled.old.known (marks_demanded names.now own (map view_pointer marks.now)) }
{
    for mark in marks {
        demand_mark(settled, names, own, mark.region);
    }
}

/// Returns true if the form of a type as written is allowed: a struct only as the target of a thin pointer, and no pointer to a key.
fn is_shape(base: &BaseType, marks: &[Pointer]) -> bool
    ensures { result ≡ is_shape (view_base base.now) (map view_pointer marks.now) }
{
    match base {
        BaseType::Int | BaseType::Char | BaseType::Handle { .. } => true,
        BaseType::Struct { .. } => match marks.first() {
            Some(mark) => mark.kind != PointerKind::Fat,
            None => false,
        },
        BaseType::Key { .. } => marks.is_empty(),
    }
}

/// Checks the requirements on a type as written, given the known structs and region names. The type of a parameter of the
/// function `own` may declare region names.
#[tactic(auto, using(cyc_types::proofs::RuleLaws::settled_append))]
pub fn demand_type(
    settled: &mut Settled,
    structs: &StructNames,
    names: &RegionNames,
    own: Option<usize>,
    written: &WrittenType,
)
    ensures { settled.new.known ≡ settle settled.old.known (type_demanded structs.now names.now own (view_type written.now)) }
{
    demand_base(settled, structs, names, own, written.span, &written.base);
    demand_marks(settled, names, own, &written.marks);
    let is_shape = is_shape(&written.base, &written.marks);
    settled.demand(Code::TypeMismatch, written.span, is_shape);
}

fn is_key(base: &BaseType) -> bool
    ensures { result ≡ is_key_base (view_base base.now) }
{
    match base {
        BaseType::Key { .. } => true,
        _ => false,
    }
}

/// Checks the typing rules' requirements on the type of a field as written.
#[tactic(auto, using(cyc_types::proofs::RuleLaws::settled_append))]
pub fn demand_field(
    settled: &mut Settled,
    structs: &StructNames,
    names: &RegionNames,
    written: &WrittenType,
)
    ensures { settled.new.known ≡ settle settled.old.known (field_demanded structs.now names.now (view_type written.now)) }
{
    demand_type(settled, structs, names, None, written);
    settled.demand(
        Code::RegionOrKeyMisused,
        written.span,
        !is_key(&written.base),
    );
}

/// Returns true if a type as written is an int, a char or a pointer.
fn is_global_shape(base: &BaseType, marks: &[Pointer]) -> bool
    ensures { result ≡ is_global_shape (view_base base.now) (map view_pointer marks.now) }
{
    match base {
        BaseType::Int | BaseType::Char => true,
        _ => !marks.is_empty(),
    }
}

/// Checks the typing rules' requirements on the type of a global as written.
#[tactic(auto, using(cyc_types::proofs::RuleLaws::settled_append))]
pub fn demand_global(
    settled: &mut Settled,
    structs: &StructNames,
    names: &RegionNames,
    written: &WrittenType,
)
    ensures { settled.new.known ≡ settle settled.old.known (global_demanded structs.now names.now (view_type written.now)) }
{
    demand_type(settled, structs, names, None, written);
    let is_shape = is_global_shape(&written.base, &written.marks);
    settled.demand(Code::TypeMismatch, written.span, is_shape);
}
