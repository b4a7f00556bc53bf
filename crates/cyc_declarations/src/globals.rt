//! The declarations of globals, and their initial values.
ghost use Rattle.std.specs.Prelude.{◌≡◌, ◌∷◌, None, map, option_map, IfOk, OnOk};
ghost use Rattle.cyc_syntax.specs.inside.TreeView.{place_of_span, view_name, view_type, view_value, view_declaration};
ghost use Rattle.cyc_types.specs.TypeView.{view_ty};
ghost use Rattle.cyc_types.specs.TypedTreeView.{view_constant, view_global};
ghost use Rattle.cyc_types.specs.Rules.{settled as settle, run};
ghost use Rattle.cyc_types.specs.typing.Tests.{is_number, is_pointer, is_non_null};
ghost use Rattle.cyc_types.specs.typing.Formation.{global_demanded};
ghost use Rattle.cyc_types.specs.typing.DeclarationRules.{value_demanded, head_demanded, rule_global};
ghost use Rattle.cyc_types.specs.typing.Programs.{word_of, constant_of, globals_of};
ghost use Rattle.cyc_scope.specs.inside.Code.{Gives, Ends};

use cyc_scope::{Settled, Stop, demand_global};
use cyc_syntax::{Declaration, GlobalValue, Ident, PointerKind, WrittenType};
use cyc_types::formation::type_written;
use cyc_types::{Known, NameSet, Region, Ty, typed};
use cyc_words::{Code, Span};
use std::alloc::{AllocError, Global};

/// Returns true if a value of the given type is written as a number.
fn is_number(of_type: &Ty) -> bool
    ensures { result ≡ is_number (view_ty of_type.now) }
{
    match of_type {
        Ty::Int | Ty::Char => true,
        _ => false,
    }
}

fn is_pointer(of_type: &Ty) -> bool
    ensures { result ≡ is_pointer (view_ty of_type.now) }
{
    match of_type {
        Ty::Pointer { .. } => true,
        _ => false,
    }
}

fn is_non_null(of_type: &Ty) -> bool
    ensures { result ≡ is_non_null (view_ty of_type.now) }
{
    match of_type {
        Ty::Pointer {
            kind: PointerKind::NonNull,
            ..
        } => true,
        _ => false,
    }
}

/// Requires that the initial value of a global fits the global's type.
fn demand_value(settled: &mut Settled, of_type: &Ty, span: Span, value: Option<GlobalValue>)
    ensures { settled.new.known ≡ settle settled.old.known (value_demanded (view_ty of_type.now) (place_of_span span) (option_map view_value value)) }
{
    match value {
        None => settled.demand(Code::NullForNonNull, span, !is_non_null(of_type)),
        Some(
            GlobalValue::Number { span, .. }
            | GlobalValue::Negative { span, .. }
            | GlobalValue::Character { span, .. },
        ) => settled.demand(Code::TypeMismatch, span, is_number(of_type)),
        Some(GlobalValue::Null { span }) => {
            settled.demand(Code::TypeMismatch, span, is_pointer(of_type));
            settled.demand(Code::NullForNonNull, span, !is_non_null(of_type));
        }
    }
}

/// Requires that a name is new, and that it is not `main` unless this is allowed.
pub(crate) fn demand_head(settled: &mut Settled, name: Ident, is_new: bool, is_no_main: bool)
    ensures { settled.new.known ≡ settle settled.old.known (head_demanded (place_of_span name.span) is_new is_no_main) }
{
    settled.demand(Code::DeclaredTwice, name.span, is_new);
    settled.demand(Code::BadMain, name.span, is_no_main);
}

fn check_type(known: &Known, written: &WrittenType) -> Result<(), Stop>
    ensures { Ends result (settle None (global_demanded known.now.structs known.now.regions (view_type written.now))) }
{
    let mut settled = Settled::new();
    demand_global(&mut settled, known.structs(), known.regions(), written);
    settled.end()
}

/// Checks that a global is well-formed and its name is new, and adds the global's name to the names declared so far.
#[tactic(auto, using(cyc_types::proofs::RuleLaws::settled_append))]
pub(crate) fn check_global(
    alloc: Global,
    known: &Known,
    before: &mut NameSet,
    written: &WrittenType,
    name: Ident,
    value: Option<GlobalValue>,
) -> Result<(), Stop>
    ensures gives { Gives (λ _. tt) result (run (rule_global known.now before.old (view_type written.now) (view_name name) (option_map view_value value))) }
    ensures before { OnOk result (before.new ≡ (view_name name).name ∷ before.old) }
{
    check_type(known, written)?;
    let of_type = type_written(
        alloc,
        known.structs(),
        known.regions(),
        Region::Heap,
        written,
    )?;
    let mut settled = Settled::new();
    let is_new = !before.has(name.name.number);
    demand_head(&mut settled, name, is_new, name.name.number != known.main());
    demand_value(&mut settled, &of_type, written.span, value);
    before.add(name.name.number)?;
    settled.end()
}

/// Returns the initial word of a global, from the global's type and its written value: a char keeps only the low byte.
fn word_of(of_type: &Ty, written: u32) -> u32
    ensures { result ≡ word_of (view_ty of_type.now) written }
{
    match of_type {
        Ty::Char => written % 256,
        _ => written,
    }
}

/// Returns the initial value of a global; if no value is written, the initial value is 0 or null.
fn constant_of(of_type: &Ty, value: Option<GlobalValue>) -> typed::Constant
    ensures { view_constant result ≡ constant_of (view_ty of_type.now) (option_map view_value value) }
{
    match value {
        None => {
            if is_pointer(of_type) {
                typed::Constant::Null
            } else {
                typed::Constant::Word { value: 0 }
            }
        }
        Some(GlobalValue::Number { value, .. }) => typed::Constant::Word {
            value: word_of(of_type, value),
        },
        Some(GlobalValue::Negative { value, .. }) => typed::Constant::Word {
            value: word_of(of_type, cyc_words::sub(0, value)),
        },
        Some(GlobalValue::Character { value, .. }) => typed::Constant::Word {
            value: word_of(of_type, u32::from(value)),
        },
        Some(GlobalValue::Null { .. }) => typed::Constant::Null,
    }
}

/// Returns the globals of a program.
pub(crate) fn globals_of(
    alloc: Global,
    known: &Known,
    declarations: &[Declaration],
) -> Result<Vec<typed::Global>, AllocError>
    ensures { IfOk result (λ v. map view_global v.items ≡ globals_of known.now (map view_declaration declarations.now)) }
{
    let mut all = Vec::new(alloc);
    for declaration in declarations {
        if let Declaration::Global {
            of_type,
            name,
            value,
        } = declaration
        {
            let of_type = type_written(
                alloc,
                known.structs(),
                known.regions(),
                Region::Heap,
                of_type,
            )?;
            let value = constant_of(&of_type, *value);
            all.push(typed::Global {
                name: name.name,
                of_type,
                value,
            })?;
        }
    }
    Ok(all)
}
