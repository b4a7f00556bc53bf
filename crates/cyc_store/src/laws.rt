//! Laws of the definitions in `specs/`. Each function of this file does nothing, and its contract states one law, which is proved with the
//! crate. The lemmas that other proofs cite are in `proofs/`.

ghost use Rattle.std.specs.Prelude.{◌≡◌, ◌≢◌, ℕ, ◌+◌, ◌*◌, ◌^◌, ◌<◌, ◌≤◌, max, List, [], ◌∷◌, true, Some, None, slice_index};
ghost use Rattle.cyc_words.specs.Word.{IsWord};
ghost use Rattle.cyc_words.specs.Demand.{page_words, greatest_class, class_of, pages_for, region_pages};
ghost use Rattle.cyc_store.specs.State.{lookup, Memory, AreWords, Block, handle_of, StoreState, homes, start, covers, Holder, holder, block_at};
ghost use Rattle.cyc_store.specs.State.{word_at, saved, demand, live_in, room};
ghost use Rattle.cyc_store.specs.Services.{Call, Allocate, CloseDynamic, Free, Refusal, Full, Answer, Refused, Done, Allocated, Choice, served};
ghost use Rattle.cyc_store.specs.Services.{any_choice, refusal, IsPlaced, IsAllowed, Serves};
ghost use Rattle.cyc_store.specs.Soundness.{IsSound};
ghost use Rattle.cyc_store.specs.Run.{Exchange, Run};

use super::range::{PAGE_WORDS, UNIQUE};

/// A new store is sound, and every call of a sound store leaves a sound store, for every choice of the store. In a sound store each
/// handle names one region, and blocks are aligned, in range and disjoint. A sound store needs at most as many pages as it has.
pub fn stores_stay_sound()
    ensures starts { (pages : ℕ) (memory : Memory) → AreWords memory → 1 ≤ pages → IsSound (start pages memory) }
    ensures served { (s : StoreState) (call : Call) (c : Choice) → IsSound s → refusal s call ≡ None → IsAllowed s call c → IsSound (served s call c) }
    ensures serves { (s t : StoreState) (call : Call) (a : Answer) → IsSound s → Serves s call a t → IsSound t }
    ensures saved { (s : StoreState) (address word : ℕ) → IsSound s → IsWord word → IsSound (saved s address word) }
    ensures runs { (exchanges : List Exchange) (s t : StoreState) → IsSound s → Run exchanges s t → IsSound t × (t.pages ≡ s.pages) }
{}

/// Live blocks are aligned and in the store's range. Two live blocks that share an address are equal, and each word of a live block can be
/// read.
pub fn blocks_stand_apart()
    ensures placed { (s : StoreState) → IsSound s → (handle first : ℕ) (b : Block) → block_at (homes s) handle first ≡ Some b → IsPlaced s.pages b }
    ensures one { (s : StoreState) → IsSound s → (g h first other address : ℕ) (b c : Block) → block_at (homes s) g first ≡ Some b
        → block_at (homes s) h other ≡ Some c → covers b address ≡ true → covers c address ≡ true → (g ≡ h) × (b ≡ c) }
    ensures words { (s : StoreState) → IsSound s → (handle first i : ℕ) (b : Block) → block_at (homes s) handle first ≡ Some b → i < b.size
        → word_at s (b.address + 4 * i) ≡ Some (s.memory (b.address + 4 * i)) }
{}

/// An allocated block is live, with the requested size or, if it is a unique block, the size of its class. A freed block is
/// not live, and the handle of a closed dynamic region names no region.
pub fn blocks_come_and_go()
    ensures made { (s t : StoreState) (handle words address : ℕ) → IsSound s → Serves s (Allocate handle words) (Allocated address) t
        → block_at (homes t) handle address ≡ Some (record { address = address; size = room handle words }) }
    ensures freed { (s t : StoreState) (address : ℕ) → Serves s (Free address) Done t → block_at (homes t) UNIQUE address ≡ None }
    ensures closed { (s t : StoreState) (handle : ℕ) → Serves s (CloseDynamic handle) Done t → lookup handle_of t.regions handle ≡ None }
{}

/// A refusal states the first reason that holds, and leaves the store unchanged.
pub fn refusals_change_nothing()
    ensures { (s t : StoreState) (call : Call) (why : Refusal) → Serves s call (Refused why) t → (refusal s call ≡ Some why) × (t ≡ s) }
{}

/// A call is refused for lack of pages exactly if it would need more pages than the store has, for every choice of the store.
pub fn full_goes_by_demand()
    ensures full { (s : StoreState) (call : Call) → refusal s call ≡ Some Full → s.pages < demand (served s call (any_choice s)) }
    ensures fits { (s : StoreState) (call : Call) → IsSound s → refusal s call ≡ None → demand (served s call (any_choice s)) ≤ s.pages }
    ensures choices { (s : StoreState) (call : Call) (c d : Choice) → demand (served s call c) ≡ demand (served s call d) }
{}

/// The pages of a class of unique blocks never decrease: they are the greatest number of pages that the class's live
/// blocks have needed so far.
pub fn classes_never_fall()
    ensures never { (s t : StoreState) (call : Call) (a : Answer) (class : ℕ) → IsSound s → Serves s call a t
        → slice_index s.classes class ≤ slice_index t.classes class }
    ensures greatest { (s t : StoreState) (call : Call) (a : Answer) (class : ℕ) → class ≤ greatest_class → IsSound s → Serves s call a t
        → slice_index t.classes class ≡ max (slice_index s.classes class) (pages_for class (live_in class t.unique)) }
{}

/// A word that is written is read back, and every other word stays. A call preserves every word that is live both before and after it.
pub fn words_hold()
    ensures same { (s : StoreState) (address word old : ℕ) → word_at s address ≡ Some old → word_at (saved s address word) address ≡ Some word }
    ensures other { (s : StoreState) (address word other : ℕ) → other ≢ address → word_at (saved s address word) other ≡ word_at s other }
    ensures serves { (s t : StoreState) (call : Call) (a : Answer) (address : ℕ) (h : Holder) → Serves s call a t
        → holder (homes s) address ≡ Some h → holder (homes t) address ≡ Some h → word_at t address ≡ word_at s address }
{}

/// A unique block has the size of its class, which is at least the requested size; any other block has exactly the requested size.
pub fn blocks_have_room()
    ensures unique { (words : ℕ) → room UNIQUE words ≡ 2 ^ class_of words }
    ensures enough { (words : ℕ) → words ≤ page_words → words ≤ 2 ^ class_of words }
    ensures asked { (handle words : ℕ) → handle ≢ UNIQUE → room handle words ≡ words }
{}

/// The pages of a region are filled in order; a block that does not fit in the rest of the last page begins the next page.
pub fn pages_are_filled()
    ensures page { PAGE_WORDS ≡ page_words }
    ensures empty { region_pages [] ≡ 1 }
    ensures first { region_pages (1000 ∷ 24 ∷ []) ≡ 1 }
    ensures next { region_pages (1000 ∷ 25 ∷ []) ≡ 2 }
    ensures filled { region_pages (1000 ∷ 24 ∷ 1 ∷ 1000 ∷ []) ≡ 2 }
    ensures past { region_pages (1000 ∷ 24 ∷ 1 ∷ 1000 ∷ 24 ∷ []) ≡ 3 }
    ensures halves { (pages_for 9 3 ≡ 2) × (pages_for 9 4 ≡ 2) × (pages_for 9 5 ≡ 3) }
{}
