//! Recognises plain function signatures, for which a call must satisfy the fewest requirements.
ghost use Rattle.std.specs.Prelude.{◌≡◌, [], ◌∷◌, suc, IsTrue, IfSome, map, option_map, List};
ghost use Rattle.cyc_types.specs.declared.region.Region.{Region};
ghost use Rattle.cyc_types.specs.Types.{substituted_ty};
ghost use Rattle.cyc_types.specs.TypeView.{view_ty};
ghost use Rattle.cyc_types.specs.inside.SignatureView.{view_signature};
ghost use Rattle.cyc_scope.specs.inside.Plain.{regions_in, all_regions, Ascend, AreVariables, IsPlain};

use cyc_types::{Region, Signature, Ty};

/// Returns the region's number plus one, if the region is a variable with a number of at least `next`; otherwise returns `None`.
fn following(next: usize, region: Region) -> Option<usize>
    ensures { IfSome result (λ n. Ascend next (region ∷ []) n) }
{
    match region {
        Region::Variable(number) if number >= next => number.checked_add(1),
        _ => None,
    }
}

/// If the regions are variables with increasing numbers of at least `next`, returns the last region's number plus
/// one, or `next` for an empty list; otherwise returns `None`.
fn following_all(next: usize, regions: &[Region]) -> Option<usize>
    ensures { IfSome result (λ n. Ascend next regions.now n) }
{
    let mut known = next;
    for region in regions {
        known = following(known, *region)?;
    }
    Some(known)
}

/// Checks that the regions of a type are variables with increasing numbers of at least `next`. The check of a type's regions is that of
/// `following_all` for a list of regions.
fn following_type(next: usize, of_type: &Ty) -> Option<usize>
    ensures { IfSome result (λ n. Ascend next (regions_in (view_ty of_type.now)) n) }
{
    match of_type {
        Ty::Int | Ty::Char => Some(next),
        Ty::Pointer { target, region, .. } => following(following_type(next, target)?, *region),
        Ty::Handle { region } | Ty::Key { region } => following(next, *region),
        Ty::Struct { regions, .. } => following_all(next, regions),
    }
}

/// Checks that the regions in a list of types, from the first type to the last, are variables with increasing numbers of at least `next`.
/// The function calls `following_type` for each type.
fn after_types(next: usize, types: &[Ty]) -> Option<usize>
    ensures { IfSome result (λ n. Ascend next (all_regions (map view_ty types.now)) n) }
{
    let mut known = next;
    for of_type in types {
        known = following_type(known, of_type)?;
    }
    Some(known)
}

/// Returns true if each region of a list is a variable with a number of at most `count`.
fn are_variables(count: usize, regions: &[Region]) -> bool
    ensures { IsTrue result → AreVariables count regions.now }
{
    for region in regions {
        match region {
            Region::Variable(number) if *number <= count => {}
            _ => return false,
        }
    }
    true
}

/// Returns true if the result type mentions no region.
fn is_same_everywhere(written: &Option<Ty>) -> bool
    ensures { IsTrue result → (m : List Region) → option_map (substituted_ty m) (option_map view_ty written.now) ≡ option_map view_ty written.now }
{
    matches!(written, None | Some(Ty::Int) | Some(Ty::Char))
}

/// Returns true if the regions of the parameters are variables, each of which occurs only once.
fn are_apart(signature: &Signature) -> bool
    ensures { IsTrue result → Ascend 1 (all_regions (view_signature signature.now).parameters) (suc signature.now.variables) }
{
    match after_types(1, &signature.parameters) {
        Some(next) => next.saturating_sub(1) <= signature.variables,
        None => false,
    }
}

/// Returns true if a function signature is plain: each region of its parameters occurs only once, and it has no outlives constraints.
pub(crate) fn is_plain(signature: &Signature) -> bool
    ensures { IsTrue result → IsPlain (view_signature signature.now) }
{
    if !signature.constraints.is_empty() {
        return false;
    }
    if !is_same_everywhere(&signature.result) {
        return false;
    }
    if !are_variables(signature.variables, &signature.effect) {
        return false;
    }
    are_apart(signature)
}
