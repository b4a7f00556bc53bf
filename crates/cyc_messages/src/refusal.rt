//! Explains a fault of names, types or regions in more detail than its code does.
ghost use Rattle.std.specs.Prelude.{◌≡◌, IfSome};
ghost use Rattle.cyc_front.specs.Front.{IsRefusedText};
ghost use Rattle.cyc_messages.specs.inside.Refusal.{is_explained};

use cyc_check::refusal;
use cyc_explain::{Explanation, explain};
use cyc_rendering::tree_of;
use cyc_words::{Code, Fault};
use std::alloc::Global;

/// Returns true if a fault with this code is the checker's: a fault of names, types or regions.
fn is_explained(code: Code) -> bool
    ensures { result ≡ is_explained code }
{
    match code {
        Code::UnknownName
        | Code::DeclaredTwice
        | Code::TypeMismatch
        | Code::NullForNonNull
        | Code::RegionNotLive
        | Code::NotOutlived
        | Code::EffectNotCovered
        | Code::UniqueShared
        | Code::NotAPlace
        | Code::RegionOrKeyMisused
        | Code::BadMain => true,
        _ => false,
    }
}

/// Returns lines that explain the rule that the fault violates, with the names, types or regions involved. The last line may be a
/// hint. Returns `None` if memory runs out.
pub fn words_for(alloc: Global, text: &[u8], fault: Fault) -> Option<Explanation>
    // `words_for` explains only a fault that the text actually has.
    ensures { IfSome result (λ words. IsRefusedText text.now fault) }
{
    if !is_explained(fault.code) {
        return None;
    }
    let Ok(tree) = tree_of(alloc, text) else {
        return None;
    };
    let Some(found) = refusal(alloc, &tree) else {
        return None;
    };
    if found != fault {
        return None;
    }
    explain(alloc, &tree, fault)
}
