//! This file checks the declarations in blocks and creates their typed tree nodes.
ghost use Rattle.std.specs.Prelude.{◌≡◌, [], ◌∷◌, None, OnOk, IfOk, IfErr, option_map};
ghost use Rattle.cyc_words.specs.declared.fault.Code.TheVariants as codes;
ghost use Rattle.cyc_syntax.specs.Trees.{Named};
ghost use Rattle.cyc_syntax.specs.inside.TreeView.{place_of_span, view_name, view_type};
ghost use Rattle.cyc_types.specs.declared.scope.Kind.TheVariants as kinds;
ghost use Rattle.cyc_types.specs.declared.region.Region.TheVariants as regions;
ghost use Rattle.cyc_types.specs.Types as types;
ghost use Rattle.cyc_types.specs.TypeView.{view_ty};
ghost use Rattle.cyc_types.specs.TypedTrees.{type_of};
ghost use Rattle.cyc_types.specs.TypedTrees as nodes;
ghost use Rattle.cyc_types.specs.TypedTreeView as typed_view;
ghost use Rattle.cyc_types.specs.Rules.{demand, settled, run};
ghost use Rattle.cyc_types.specs.typing.Scopes.{Ordinary, OfRegion, meaning_of, is_declared, with_local, with_opened, with_region, with_key_opened};
ghost use Rattle.cyc_types.specs.typing.Formation.{is_known, type_demanded};
ghost use Rattle.cyc_types.specs.typing.Formation as formation;
ghost use Rattle.cyc_types.specs.typing.Tests as tests;
ghost use Rattle.cyc_types.specs.typing.Expressions.{conversion};
ghost use Rattle.cyc_types.specs.typing.Statements.{new_demanded, new_name_demanded, left_out_of, local_type, initialised, rule_initial};
ghost use Rattle.cyc_types.specs.typing.Statements.{rule_lexical, rule_dynamic};
ghost use Rattle.cyc_types.specs.typing.Statements.{number_of_region, local_number, open_demanded, opened, rule_opened, is_local, with_region_of};
ghost use Rattle.cyc_types.specs.typing.Statements.{rule_alias, declared_type, with_caught};
ghost use Rattle.cyc_scope.specs.declared.stop.Stop.TheVariants as stops;
ghost use Rattle.cyc_scope.specs.inside.Code.{Gives, Ends};
ghost use Rattle.cyc_operands.specs.inside.Operands.{view_given, view_boxed};
ghost use Rattle.cyc_statements.specs.inside.Aliases.{alias_asked, alias_of};
ghost use Rattle.cyc_statements.specs.inside.Nodes.{view_initialised};

use cyc_operands::types::{is_key, is_unique, region_of as region_of_type, same_type};
use cyc_operands::{Given, convert, converted};
use cyc_scope::{Meaning, Scope, Settled, Stop, demand_type, refused};
use cyc_syntax::{Ident, WrittenType};
use cyc_types::formation::{region_of, type_written};
use cyc_types::typed::Lvalue;
use cyc_types::{Kind, Region, Ty, typed};
use cyc_words::{Code, Span};
use std::alloc::AllocError;

// ---- the demands

/// Checks that this name of a region is new in its function.
pub fn is_region_new(scope: &Scope<'_>, name: Ident) -> Result<(), Stop>
    ensures { Ends result (settled None (new_name_demanded scope.now (view_name name) ∷ [])) }
{
    let mut settled = Settled::new();
    settled.demand(Code::DeclaredTwice, name.span, !scope.is_taken(name));
    settled.end()
}

/// Checks that the name of a region is new in its function, and that the name of a local is new in its block.
fn are_new(scope: &Scope<'_>, region: Ident, local: Ident) -> Result<(), Stop>
    ensures { Ends result (settled None (new_name_demanded scope.now (view_name region) ∷ new_demanded scope.now (view_name local) ∷ [])) }
{
    let mut settled = Settled::new();
    settled.demand(Code::DeclaredTwice, region.span, !scope.is_taken(region));
    settled.demand(Code::DeclaredTwice, local.span, !scope.is_declared(local));
    settled.end()
}

/// Checks that a written type is valid in the current scope.
pub fn is_type(scope: &Scope<'_>, written: &WrittenType) -> Result<(), Stop>
    ensures { Ends result (settled None (type_demanded scope.now.structs scope.now.names None (view_type written.now))) }
{
    let mut settled = Settled::new();
    demand_type(&mut settled, scope.structs(), scope.names(), None, written);
    settled.end()
}

/// Checks that the name of a local without an initial value is new.
fn is_local_new(scope: &Scope<'_>, name: Ident) -> Result<(), Stop>
    ensures { Ends result (settled None (new_demanded scope.now (view_name name) ∷ [])) }
{
    let mut settled = Settled::new();
    settled.demand(Code::DeclaredTwice, name.span, !scope.is_declared(name));
    settled.end()
}

/// Checks that the name of a local is new, and that its initial value, which is at this source position, can be converted to its type.
fn is_initialised(
    scope: &Scope<'_>,
    name: Ident,
    span: Span,
    value: Given<'_>,
    of_type: &Ty,
) -> Result<(), Stop>
    ensures { Ends result (settled None (new_demanded scope.now (view_name name)
        ∷ conversion scope.now.regions (view_given value.entry) (view_ty of_type.now) (place_of_span span))) }
{
    let mut settled = Settled::new();
    settled.demand(Code::DeclaredTwice, name.span, !scope.is_declared(name));
    convert(&mut settled, scope, value, of_type, span);
    settled.end()
}

fn is_region_known(scope: &Scope<'_>, name: Ident) -> Result<(), Stop>
    ensures { Ends result (settled None (demand codes.UnknownName (place_of_span name.span) (is_known scope.now.names (view_name name)) ∷ [])) }
{
    let mut settled = Settled::new();
    settled.demand(
        Code::UnknownName,
        name.span,
        scope.names().find(name.name.number).is_some(),
    );
    settled.end()
}

/// Checks that a variable of this type, named at this source position, may open a region: it must be the region's key, and the handle's
/// name must be new.
fn is_opened(
    scope: &Scope<'_>,
    region: Ident,
    handle: Ident,
    span: Span,
    of_type: &Ty,
) -> Result<(), Stop>
    ensures { Ends result (settled None (open_demanded scope.now (view_name region) (view_name handle) (place_of_span span) (view_ty of_type.now))) }
{
    let has_key = is_key(of_type);
    let is_its_region = region_of(scope.names(), region) == region_of_type(of_type);
    let mut settled = Settled::new();
    settled.demand(Code::DeclaredTwice, handle.span, !scope.is_declared(handle));
    settled.demand(
        Code::RegionOrKeyMisused,
        region.span,
        !has_key || is_its_region,
    );
    settled.demand(Code::RegionOrKeyMisused, span, has_key);
    settled.end()
}

// ---- locals

/// Returns the region that the type of a local with this initial value gets if the type names no region.
fn left_out_of(value: Given<'_>) -> Region
    ensures { result ≡ left_out_of (view_given value.entry) }
{
    match value {
        Given::Value(of_type) => match of_type {
            Ty::Pointer { region, .. } => *region,
            _ => Region::Heap,
        },
        _ => Region::Heap,
    }
}

/// The type of a local, and its initial value, if there is one.
#[derive(Drop)]
pub struct Initialised {
    of_type: Ty,
    value: Option<Box<typed::Expr>>,
}

/// Returns the type and the initial value of a local; the initial value is at this source position.
pub fn initialise(
    scope: &Scope<'_>,
    written: &WrittenType,
    name: Ident,
    span: Span,
    value: Box<typed::Expr>,
) -> Result<Initialised, Stop>
    ensures { Gives view_initialised result (run (initialised scope.now (view_name name) (place_of_span span) (view_boxed value)
        (local_type scope.now (type_of (view_boxed value)) (view_type written.now)))) }
{
    let left_out = left_out_of(Given::by(&value));
    let of_type = type_written(
        scope.alloc(),
        scope.structs(),
        scope.names(),
        left_out,
        written,
    )?;
    is_initialised(scope, name, span, Given::by(&value), &of_type)?;
    Ok(Initialised {
        of_type,
        value: Some(value),
    })
}

/// Returns the type of a local that is declared without an initial value.
pub fn uninitialised(
    scope: &Scope<'_>,
    written: &WrittenType,
    name: Ident,
) -> Result<Initialised, Stop>
    ensures { Gives view_initialised result (run (rule_initial scope.now (view_type written.now) (view_name name) None)) }
{
    is_local_new(scope, name)?;
    let of_type = type_written(
        scope.alloc(),
        scope.structs(),
        scope.names(),
        Region::Heap,
        written,
    )?;
    Ok(Initialised {
        of_type,
        value: None,
    })
}

/// Returns the tree node that declares the local with this index.
fn declaration(span: Span, number: usize, local: Initialised) -> typed::Item
    ensures { typed_view.view_item result ≡ nodes.Declare number (view_initialised local).0 (view_initialised local).1 }
{
    let Initialised { of_type, value } = local;
    let value = match value {
        None => None,
        Some(value) => Some(converted(value, &of_type)),
    };
    typed::Item::Local {
        span,
        number,
        of_type,
        value,
    }
}

/// Returns the typed tree node that declares a local, and adds the local to the scope.
pub fn declare_local(
    scope: &mut Scope<'_>,
    name: Ident,
    local: Initialised,
) -> Result<typed::Item, Stop>
    ensures item { IfOk result (λ j. typed_view.view_item j ≡ nodes.Declare scope.old.next_local (view_initialised local).0 (view_initialised local).1) }
    ensures following { IfOk result (λ j. scope.new ≡ with_local Ordinary (view_name name) (declared_type (typed_view.view_item j)) scope.old) }
    ensures memory { IfErr result (λ e. e ≡ stops.Memory) }
{
    let number = scope.next_local();
    scope.declare_local(name, local.of_type.share()?)?;
    Ok(declaration(name.span, number, local))
}

/// Declares the local that receives the int of an exception, if the catch clause has one.
pub fn declare_caught(scope: &mut Scope<'_>, variable: Option<Ident>) -> Result<Option<usize>, Stop>
    ensures number { IfOk result (λ n. n ≡ option_map (λ (y : Named). scope.old.next_local) (option_map view_name variable)) }
    ensures caught { OnOk result (scope.new ≡ with_caught (option_map view_name variable) scope.old) }
    ensures memory { IfErr result (λ e. e ≡ stops.Memory) }
{
    let Some(name) = variable else {
        return Ok(None);
    };
    let number = scope.next_local();
    scope.declare_local(name, Ty::Int)?;
    Ok(Some(number))
}

// ---- regions

/// Opens a lexical region and declares its handle.
pub fn open_lexical(
    scope: &mut Scope<'_>,
    region: Ident,
    handle: Ident,
) -> Result<typed::Item, Stop>
    ensures gives { Gives typed_view.view_item result (run (rule_lexical scope.old (view_name region) (view_name handle))) }
    ensures following { OnOk result (scope.new ≡ with_local OfRegion (view_name handle) (types.Handle (regions.Variable scope.old.next_region))
        (with_opened kinds.Lexical (view_name region) scope.old)) }
{
    are_new(scope, region, handle)?;
    let own = scope.next_region();
    let number = scope.next_local();
    scope.open_region(Kind::Lexical, region)?;
    let of_type = Ty::Handle {
        region: Region::Variable(own),
    };
    scope.declare_fixed(handle, of_type)?;
    Ok(typed::Item::Region {
        span: region.span,
        region: own,
        number,
    })
}

/// Creates a dynamic region and declares its key.
pub fn declare_dynamic(
    scope: &mut Scope<'_>,
    region: Ident,
    key: Ident,
) -> Result<typed::Item, Stop>
    ensures gives { Gives typed_view.view_item result (run (rule_dynamic scope.old (view_name region) (view_name key))) }
    ensures following { OnOk result (scope.new ≡ with_local Ordinary (view_name key) (types.Key (regions.Variable scope.old.next_region))
        (with_region (view_name region) scope.old)) }
{
    are_new(scope, region, key)?;
    let own = scope.next_region();
    let number = scope.next_local();
    scope.declare_region(region)?;
    let of_type = Ty::Key {
        region: Region::Variable(own),
    };
    scope.declare_local(key, of_type)?;
    Ok(typed::Item::DynamicRegion {
        span: region.span,
        region: own,
        number,
    })
}

fn number_of_region(region: Region) -> usize
    ensures { result ≡ number_of_region region }
{
    match region {
        Region::Variable(number) => number,
        Region::Heap | Region::Unique => 0,
    }
}

fn local_number(variable: Lvalue) -> usize
    ensures { result ≡ local_number (typed_view.view_lvalue variable) }
{
    match variable {
        Lvalue::Local { number, .. } => number,
        Lvalue::Global { .. } => 0,
    }
}

/// Returns the tree node that opens the region of the key with this name.
fn opened(scope: &Scope<'_>, region: Ident, handle: Ident, key: Ident) -> Result<typed::Item, Stop>
    ensures { Gives typed_view.view_item result (run (opened scope.now (view_name region) (view_name handle) (meaning_of scope.now (view_name key))
        (place_of_span key.span))) }
{
    let number = scope.next_local();
    match scope.meaning(key) {
        Meaning::Unknown => Err(refused(Code::UnknownName, key.span)),
        Meaning::Variable {
            target,
            of_type,
            ..
        } => {
            is_opened(scope, region, handle, key.span, of_type)?;
            Ok(typed::Item::Open {
                region: number_of_region(region_of_type(of_type)),
                number,
                span: key.span,
                key: local_number(target),
            })
        }
        Meaning::Fixed { target, of_type } => {
            is_opened(scope, region, handle, key.span, of_type)?;
            Ok(typed::Item::Open {
                region: 0,
                number,
                span: key.span,
                key: local_number(target),
            })
        }
        Meaning::Counter { .. } => {
            is_opened(scope, region, handle, key.span, &Ty::Int)?;
            Ok(typed::Item::Open {
                region: 0,
                number,
                span: key.span,
                key: 0,
            })
        }
        Meaning::Routine { .. } => Err(refused(Code::TypeMismatch, key.span)),
    }
}

/// Returns the typed tree node that opens the dynamic region of a key, and adds the region's handle to the scope.
pub fn open_dynamic(
    scope: &mut Scope<'_>,
    region: Ident,
    handle: Ident,
    key: Ident,
) -> Result<typed::Item, Stop>
    ensures gives { Gives typed_view.view_item result (run (rule_opened scope.old (view_name region) (view_name handle) (view_name key))) }
    ensures following { OnOk result (scope.new ≡ with_local OfRegion (view_name handle)
        (types.Handle (formation.region_of scope.old.names (view_name region)))
        (with_key_opened (formation.region_of scope.old.names (view_name region)) scope.old)) }
{
    is_region_known(scope, region)?;
    let item = opened(scope, region, handle, key)?;
    let own = region_of(scope.names(), region);
    scope.open_key(own)?;
    scope.declare_fixed(handle, Ty::Handle { region: own })?;
    Ok(item)
}

// ---- aliases

fn is_local(variable: Lvalue) -> bool
    ensures { result ≡ is_local (typed_view.view_lvalue variable) }
{
    match variable {
        Lvalue::Local { .. } => true,
        Lvalue::Global { .. } => false,
    }
}

/// Returns true if this is the type of the alias of a unique pointer, with the region `own` as the region of the alias.
fn is_alias_type(written: &Ty, of_type: &Ty, own: Region) -> bool
    ensures { result ≡ tests.ty_eq (view_ty written.now) (with_region_of own (view_ty of_type.now)) }
{
    match of_type {
        Ty::Pointer { kind, target, .. } => match written {
            Ty::Pointer {
                kind: written_kind,
                target: written_target,
                region,
            } => *written_kind == *kind && same_type(written_target, target) && *region == own,
            _ => false,
        },
        _ => same_type(written, of_type),
    }
}

/// Checks that a local with this written type may share the object of the variable whose name is at this source position. The number
/// `own` identifies the region of this local.
fn is_aliased(
    scope: &Scope<'_>,
    own: usize,
    name: Ident,
    written: (Span, &Ty),
    is_shared: bool,
    source: (Span, &Ty),
) -> Result<(), Stop>
    ensures { Ends result (settled None (alias_asked (is_declared scope.now (view_name name)) own (view_name name) (place_of_span written.entry.0)
        (view_ty written.entry.1.now) is_shared (view_ty source.entry.1.now) (place_of_span source.entry.0))) }
{
    let has_unique = is_unique(source.1);
    let is_its_type = is_alias_type(written.1, source.1, Region::Variable(own));
    let mut settled = Settled::new();
    settled.demand(Code::DeclaredTwice, name.span, !scope.is_declared(name));
    settled.demand(Code::TypeMismatch, written.0, !has_unique || is_its_type);
    settled.demand(Code::UniqueShared, source.0, !is_shared);
    settled.demand(Code::RegionOrKeyMisused, source.0, has_unique);
    settled.end()
}

/// Returns the written type of an alias of a variable of this type; an omitted region becomes the region of the alias.
fn alias_type(scope: &Scope<'_>, written: &WrittenType, of_type: &Ty) -> Result<Ty, AllocError>
    ensures { IfOk result (λ t. view_ty t ≡ formation.type_written scope.now.structs scope.now.names (tests.region_of (view_ty of_type.now))
        (view_type written.now)) }
{
    type_written(
        scope.alloc(),
        scope.structs(),
        scope.names(),
        region_of_type(of_type),
        written,
    )
}

/// Returns the tree node that declares an alias of the variable `source`; the region of the alias, identified by the number `own`,
/// is already in scope.
fn aliased(
    scope: &Scope<'_>,
    own: usize,
    name: Ident,
    written: &WrittenType,
    source: Ident,
) -> Result<typed::Item, Stop>
    ensures { Gives typed_view.view_item result (run (alias_of (is_declared scope.now (view_name name)) scope.now.structs scope.now.names
        scope.now.next_local own (view_name name) (view_type written.now) (meaning_of scope.now (view_name source)) (place_of_span source.span))) }
{
    match scope.meaning(source) {
        Meaning::Unknown => Err(refused(Code::UnknownName, source.span)),
        Meaning::Variable {
            target,
            of_type,
            ..
        } => {
            let is_shared = is_unique(of_type) && !is_local(target);
            let alias = alias_type(scope, written, of_type)?;
            is_aliased(
                scope,
                own,
                name,
                (written.span, &alias),
                is_shared,
                (source.span, of_type),
            )?;
            Ok(alias_item(scope, own, alias, source.span, local_number(target)))
        }
        Meaning::Fixed { target, of_type } => {
            let alias = alias_type(scope, written, of_type)?;
            is_aliased(
                scope,
                own,
                name,
                (written.span, &alias),
                false,
                (source.span, of_type),
            )?;
            Ok(alias_item(
                scope,
                own,
                of_type.share()?,
                source.span,
                local_number(target),
            ))
        }
        Meaning::Counter { .. } => {
            let alias = alias_type(scope, written, &Ty::Int)?;
            is_aliased(
                scope,
                own,
                name,
                (written.span, &alias),
                false,
                (source.span, &Ty::Int),
            )?;
            Ok(alias_item(scope, own, Ty::Int, source.span, 0))
        }
        Meaning::Routine { .. } => Err(refused(Code::TypeMismatch, source.span)),
    }
}

fn alias_item(
    scope: &Scope<'_>,
    region: usize,
    of_type: Ty,
    span: Span,
    source: usize,
) -> typed::Item
    ensures { typed_view.view_item result ≡ nodes.DeclareAlias region scope.now.next_local (view_ty of_type) (place_of_span span) source }
{
    typed::Item::Alias {
        region,
        number: scope.next_local(),
        of_type,
        span,
        source,
    }
}

/// Returns the type of the local that a typed declaration declares.
fn declared_type(item: &typed::Item) -> Result<Ty, AllocError>
    ensures { IfOk result (λ t. view_ty t ≡ declared_type (typed_view.view_item item.now)) }
{
    match item {
        typed::Item::Local { of_type, .. } | typed::Item::Alias { of_type, .. } => of_type.share(),
        _ => Ok(Ty::Int),
    }
}

/// Declares a local that shares the unique object of another local.
pub fn declare_alias(
    scope: &mut Scope<'_>,
    region: Ident,
    written: &WrittenType,
    name: Ident,
    source: Ident,
) -> Result<typed::Item, Stop>
    ensures gives { Gives typed_view.view_item result (run
        (rule_alias scope.old (view_name region) (view_type written.now) (view_name name) (view_name source))) }
    ensures following { IfOk result (λ j. scope.new ≡ with_local Ordinary (view_name name) (declared_type (typed_view.view_item j))
        (with_opened kinds.Alias (view_name region) scope.old)) }
{
    is_region_new(scope, region)?;
    let own = scope.next_region();
    scope.open_region(Kind::Alias, region)?;
    is_type(scope, written)?;
    let item = aliased(scope, own, name, written, source)?;
    scope.declare_local(name, declared_type(&item)?)?;
    Ok(item)
}
