//! This file explains faults in a call, in terms of the caller and of the called function.
use cyc_check::value_type;
use cyc_declarations::members;
use cyc_explain_texts::conversions::{explain_conversion, say_closed, say_shorter};
use cyc_explain_texts::homes::Homes;
use cyc_explain_texts::lexicon::NO_NAME;
use cyc_explain_texts::messages::Message;
use cyc_explain_texts::names::{Sort, explain_unknown};
use cyc_explain_texts::teller::Teller;
use cyc_operands::types::region_of;
use cyc_scope::{Meaning, Scope};
use cyc_syntax::{Declaration, Expr, Ident};
use cyc_types::typed::ValueType;
use cyc_types::{Region, RegionNames, Signature, Ty};
use cyc_words::{Code, Span};
use std::alloc::Global;
use std::mem::ManuallyDrop;

// ---- regions of the call

/// Records, for the explanation, the name of a called function, its regions as its own signature names them, and the name of its
/// parameter with this index.
fn note_theirs(
    teller: &mut Teller,
    declarations: &[Declaration],
    names: &RegionNames,
    function: Ident,
    number: usize,
) {
    teller.notes.theirs.all.clear();
    teller.notes.other = function.name.number;
    teller.notes.name = NO_NAME;
    for declaration in declarations {
        if let Declaration::Function {
            name,
            parameters,
            ..
        } = declaration
        {
            if name.name == function.name {
                let theirs = &mut teller.notes.theirs;
                theirs.add_parameters(names, *name, members(parameters));
                if let Some(parameter) = members(parameters).get(number) {
                    teller.notes.name = parameter.name.name.number;
                }
            }
        }
    }
}

/// Returns the region in the list `given` at the index of the first occurrence of a region variable in the list `variables`.
fn region_among(variables: &[Region], given: &[Region], variable: Region) -> Option<Region> {
    let mut found = None;
    for i in 0..variables.len() {
        if variables[i] == variable && found.is_none() {
            found = given.get(i).copied();
        }
    }
    found
}

/// Returns the region in an argument's type that stands where the parameter's type has the given region variable.
fn region_in(parameter: &Ty, given: &Ty, variable: Region) -> Option<Region> {
    match (parameter, given) {
        (
            Ty::Pointer { target, .. },
            Ty::Pointer {
                target: given_target,
                ..
            },
        ) => match region_in(target, given_target, variable) {
            Some(found) => Some(found),
            None => region_outside(parameter, given, variable),
        },
        (
            Ty::Struct { regions, .. },
            Ty::Struct {
                regions: given_regions,
                ..
            },
        ) => region_among(regions, given_regions, variable),
        (Ty::Handle { .. } | Ty::Key { .. }, Ty::Handle { .. } | Ty::Key { .. }) => {
            region_outside(parameter, given, variable)
        }
        _ => None,
    }
}

/// Returns the region of an argument's pointer, handle or key, if the parameter's region is this region variable.
fn region_outside(parameter: &Ty, given: &Ty, variable: Region) -> Option<Region> {
    if region_of(parameter) == variable {
        Some(region_of(given))
    } else {
        None
    }
}

/// Returns the region, in the types of a call's arguments, that corresponds to a region variable in the parameter types.
/// If no region in the argument types corresponds to the region variable, the result is the heap.
fn region_given(parameters: &[Ty], values: &[ValueType], variable: Region) -> Region {
    let mut found = None;
    for i in 0..parameters.len() {
        if let (None, Some(ValueType::Value { of_type })) = (found, values.get(i)) {
            found = region_in(&parameters[i], of_type, variable);
        }
    }
    found.unwrap_or(Region::Heap)
}

/// Returns the regions that a call with these argument values binds to the region variables of the called function.
fn instance_of(alloc: Global, signature: &Signature, values: &[ValueType]) -> Vec<Region> {
    let mut instance = Vec::new(alloc);
    for number in 0..signature.variables.saturating_add(1) {
        let variable = Region::Variable(number);
        let _ = instance.push(region_given(&signature.parameters, values, variable));
    }
    instance
}

// ---- demands of the called function

/// Returns the types of the values of expressions, up to the first invalid one.
fn values_of(scope: &mut Scope<'_>, expressions: &[Expr]) -> Vec<ValueType> {
    let mut values = Vec::new(scope.alloc());
    let mut is_known = true;
    for expression in expressions {
        if is_known {
            match value_type(scope, expression, false) {
                Some(value) => is_known = values.push(value).is_ok(),
                None => is_known = false,
            }
        }
    }
    values
}

/// Returns the name of a region, if it has one.
fn name_of(homes: &Homes, region: Region) -> Option<usize> {
    match homes.find(region) {
        Some(home) => home.name,
        None => None,
    }
}

/// Adds to the explanation which region of the caller takes the place of a region of the called function.
fn say_here(teller: &mut Teller, own: Region, here: Region) {
    teller.notes.their_regions.0 = own;
    teller.notes.regions.0 = here;
    let theirs = name_of(&teller.notes.theirs, own);
    let ours = name_of(&teller.notes.homes, here);
    match (theirs, ours) {
        (Some(their_name), Some(our_name)) if their_name == our_name => {
            teller.say(Message::HereOfSameName);
        }
        _ => {
            if let Region::Variable(_) = own {
                teller.say(Message::Here);
            }
        }
    }
}

/// Explains a constraint between regions that a call violates.
fn explain_constraint(
    teller: &mut Teller,
    scope: &Scope<'_>,
    function: Ident,
    own: (Region, Region),
    here: (Region, Region),
) {
    if teller.is_fault(Code::NotOutlived, function.span) && !scope.outlives(here.0, here.1) {
        teller.notes.their_regions = own;
        teller.say(Message::HasConstraint);
        say_here(teller, own.0, here.0);
        say_here(teller, own.1, here.1);
        say_shorter(teller, here.0, here.1);
    }
}

/// Adds to the explanation the effect of a function, which is the set of regions that it may access.
fn say_effect(teller: &mut Teller, effect: &[Region]) {
    teller.say(Message::Effect);
    let mut is_first = true;
    for region in effect {
        teller.notes.their_regions.0 = *region;
        teller.say(if is_first {
            Message::EffectFirst
        } else {
            Message::EffectNext
        });
        is_first = false;
    }
    teller.say(Message::EffectEnd);
}

/// Explains a region of a function's effect that is not live at the call.
fn explain_effect(
    teller: &mut Teller,
    scope: &Scope<'_>,
    function: Ident,
    effect: &[Region],
    own: Region,
    here: Region,
) {
    if teller.is_fault(Code::EffectNotCovered, function.span) && !scope.is_live(here) {
        say_effect(teller, effect);
        say_here(teller, own, here);
        teller.say(Message::LineEnd);
        say_closed(teller, here);
    }
}

/// Explains an argument that cannot be converted to its parameter's type, or a unique pointer that is passed to a parameter
/// that does not accept one.
fn explain_argument(
    teller: &mut Teller,
    scope: &Scope<'_>,
    span: Span,
    parameter: &Ty,
    instance: &[Region],
) {
    if teller.want_type(parameter.substituted(teller.alloc, instance).ok()) {
        // The declaration of a built-in function does not name its parameters, so the message does not name the parameter.
        let lead = if teller.notes.name == NO_NAME {
            Message::OtherType
        } else {
            Message::ArgumentType
        };
        explain_conversion(teller, scope, span, lead);
    }
    if let Ty::Pointer { region, .. } = parameter {
        teller.notes.their_regions.0 = *region;
        teller.tell(Message::SharedNotUnique, span);
    }
}

/// Explains a constraint of a called function that is violated, given the regions that the call binds to the function's region variables.
fn explain_constraints(
    teller: &mut Teller,
    scope: &Scope<'_>,
    function: Ident,
    constraints: &[(Region, Region)],
    instance: &[Region],
) {
    for own in constraints {
        let here = (own.0.substituted(instance), own.1.substituted(instance));
        explain_constraint(teller, scope, function, *own, here);
    }
}

/// Explains a region in the effect of a called function that is not live, given the regions that the
/// call binds to the function's region variables.
fn explain_effects(
    teller: &mut Teller,
    scope: &Scope<'_>,
    function: Ident,
    effect: &[Region],
    instance: &[Region],
) {
    for own in effect {
        let here = own.substituted(instance);
        explain_effect(teller, scope, function, effect, *own, here);
    }
}

/// Explains a fault in a call of a function with this signature and these argument values, or in the call's argument with this index.
fn explain_called(
    teller: &mut Teller,
    scope: &Scope<'_>,
    function: Ident,
    argument: Option<(usize, Span)>,
    values: &[ValueType],
    signature: &Signature,
) {
    let instance = ManuallyDrop::new(instance_of(teller.alloc, signature, values));
    match argument {
        Some((number, span)) => {
            if let Some(parameter) = signature.parameters.get(number) {
                explain_argument(teller, scope, span, parameter, &instance);
            }
        }
        None => {
            teller.notes.name = function.name.number;
            explain_constraints(teller, scope, function, &signature.constraints, &instance);
            explain_effects(teller, scope, function, &signature.effect, &instance);
        }
    }
}

/// Adds to the explanation the head of a function as it is declared; a built-in function has no declaration.
fn say_declared(teller: &mut Teller, declarations: &[Declaration], function: Ident) {
    for declaration in declarations {
        if let Declaration::Function {
            name,
            parameters,
            ..
        } = declaration
        {
            if name.name == function.name {
                teller.say(Message::HeadOf);
                let members = members(parameters);
                teller
                    .words
                    .put_head(&teller.notes.lexicon, function, members);
                return;
            }
        }
    }
    teller.say(Message::PassSo);
}

/// Explains a call whose number of arguments differs from the number of the function's parameters.
fn explain_number(
    teller: &mut Teller,
    declarations: &[Declaration],
    function: Ident,
    wanted: usize,
    found: usize,
) {
    if wanted != found && teller.fault.code == Code::TypeMismatch {
        teller.say_count(Message::ArgumentCount, wanted, found);
        say_declared(teller, declarations, function);
    }
}

/// Explains a fault at the name of a called function, or at the call's argument with this index.
pub(crate) fn explain_call(
    teller: &mut Teller,
    scope: &mut Scope<'_>,
    declarations: &[Declaration],
    function: Ident,
    arguments: &[Expr],
    argument: Option<(usize, Span)>,
) {
    let values = ManuallyDrop::new(values_of(scope, arguments));
    let number = match argument {
        Some((number, _)) => number,
        None => 0,
    };
    note_theirs(teller, declarations, scope.names(), function, number);
    match scope.meaning(function) {
        Meaning::Unknown => explain_unknown(teller, scope, Sort::Function, function),
        Meaning::Routine { signature, .. } => {
            if argument.is_none() {
                let (wanted, found) = (signature.parameters.len(), arguments.len());
                explain_number(teller, declarations, function, wanted, found);
            }
            explain_called(teller, scope, function, argument, &values, signature);
        }
        _ => teller.tell_name(Message::VariableCalled, function),
    }
}
