//! This file defines lists of calls to a store. Each list is a run of the store relation; if the blocks have a layout in pages, then the
//! run can always continue.

ghost use Rattle.std.specs.Prelude.{◌≡◌, ℕ, ◌≤◌, List, None};
ghost use Rattle.cyc_words.specs.Word.{IsWord};
ghost use Rattle.cyc_store.specs.State.{StoreState, saved, IsNew};
ghost use Rattle.cyc_store.specs.Services.{Call, refusal};
ghost use Rattle.cyc_store.specs.Ordered.{IsOrdered, HasChoice, Answers};
ghost use Rattle.cyc_store.specs.Made.{Makes, MakesAll};
ghost use Rattle.cyc_store.specs.declared.runs.Asked.TheVariants.{Save};

use super::range::MOST_PAGES;
use super::store::Store;

/// A call to a store, with its arguments.
#[derive(Clone, Copy)]
pub enum Asked {
    OpenLexical,
    CloseTo { mark: u32 },
    OpenDynamic,
    CloseDynamic { handle: u32 },
    Alloc { handle: u32, words: u32 },
    Free { address: u32 },
    Load { address: u32 },
    Save { address: u32, word: u32 },
}

/// Writes a word of a store, and ignores the result.
fn write<S: Store>(store: &mut S, address: u32, word: u32)
    ensures { Makes S.GROWS (Save address word) (S.held store.old) (S.held store.new) }
{
    let _done = store.save(address, word);
}

/// Calls a store, and ignores the result.
fn make<S: Store>(store: &mut S, asked: Asked)
    ensures { Makes S.GROWS asked (S.held store.old) (S.held store.new) }
{
    match asked {
        Asked::OpenLexical => {
            let _answer = store.open_lexical();
        }
        Asked::CloseTo { mark } => {
            let _answer = store.close_to(mark);
        }
        Asked::OpenDynamic => {
            let _answer = store.open_dynamic();
        }
        Asked::CloseDynamic { handle } => {
            let _answer = store.close_dynamic(handle);
        }
        Asked::Alloc { handle, words } => {
            let _answer = store.alloc(handle, words);
        }
        Asked::Free { address } => {
            let _answer = store.free(address);
        }
        Asked::Load { address } => {
            let _word = store.load(address);
        }
        Asked::Save { address, word } => write(store, address, word),
    }
}

/// Calls a store several times in order, and ignores the results.
///
/// The content of the store afterwards is the end of a run of the store relation over these calls that begins with the content before.
/// A call that fails for lack of memory is not part of the run of the store relation, and changes nothing. In a store that does not
/// grow, no call fails for lack of memory.
pub fn make_all<S: Store>(store: &mut S, calls: &[Asked])
    ensures { MakesAll S.GROWS calls.now (S.held store.old) (S.held store.new) }
{
    for asked in calls {
        make(store, *asked);
    }
}

/// The blocks of a store may have a layout in pages. If the blocks have a layout, the store relation allows a choice of a handle, an
/// address and words for each call that is not refused. After a call that is not refused, the blocks have a layout as well. If the
/// store has enough pages for a call, then there is space for the call's result. Every list of calls has a run with a result for
/// each call. A new store has a layout, and writing a word preserves the layout.
pub fn choices_exist()
    ensures begins { (pages : ℕ) (s : StoreState) → IsNew pages s → 1 ≤ pages → pages ≤ MOST_PAGES → IsOrdered s }
    ensures chooses { (s : StoreState) (call : Call) → IsOrdered s → refusal s call ≡ None → HasChoice s call }
    ensures writes { (s : StoreState) (address word : ℕ) → IsOrdered s → IsWord word → IsOrdered (saved s address word) }
    ensures answers { (calls : List Call) (s : StoreState) → IsOrdered s → Answers calls s }
{}
