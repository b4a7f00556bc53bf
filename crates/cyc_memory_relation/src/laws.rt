//! This file states laws of the definitions in `specs/`. Each function of this file does nothing, and its contract states one law, which
//! is proved with the crate. The lemmas that other proofs cite are in `proofs/`.

ghost use Rattle.std.specs.Prelude.{◌≡◌, ◌≢◌, ◌⊎◌, ℕ, suc, ◌+◌, ◌*◌, ◌%◌, ◌<◌, ◌≤◌, ◌==◌, not, nat_lt, if◌then◌else◌, Bool, true, false, List, ◌∷◌};
ghost use Rattle.std.specs.Prelude.{length, Option, Some, None, slice_get};
ghost use Rattle.cyc_types.specs.declared.typed.Kind.{Kind};
ghost use Rattle.cyc_types.specs.declared.typed.Kind.TheVariants as kinds;
ghost use Rattle.cyc_types.specs.TypedTrees.{Program};
ghost use Rattle.cyc_words.specs.Bytes.{with_byte, word_of};
ghost use Rattle.cyc_words.specs.Demand.{page_words};
ghost use Rattle.cyc_store.specs.State.{Memory, put, AreWords, StoreState, start, word_at};
ghost use Rattle.cyc_store.specs.Services.{OpenLexical, CloseTo, OpenDynamic, CloseDynamic, Allocate, Free, Choice, served, full_at, is_size};
ghost use Rattle.cyc_store.specs.Services.{refusal, IsAllowed};
ghost use Rattle.cyc_store.specs.Soundness.{IsSound};
ghost use Rattle.cyc_store.specs.declared.range.TheConstants.{MOST_PAGES, UNIQUE};
ghost use Rattle.cyc_meaning.specs.Values.{Value, Int, is_thin, words_of_kind, bytes_of_kind, Cell, kinds_of, block_size};
ghost use Rattle.cyc_meaning.specs.Operators.{Gives, truth};
ghost use Rattle.cyc_meaning.specs.Pointers.{moved, null_test};
ghost use Rattle.cyc_meaning.specs.Conversion.{conversion};
ghost use Rattle.cyc_meaning.specs.State.{Lexical, Dynamic, Stack, Region, InRegion, Unique, Object, World, Environment, Entry, CloseLexical, Found};
ghost use Rattle.cyc_meaning.specs.State.{Located, region_at, cell_at, opened_as, closed, variable, made, written, first_world};
ghost use Rattle.cyc_meaning.specs.inside.Nesting.{lexicals_of, is_scope, IsNested};
ghost use Rattle.cyc_meaning.specs.Objects.{compared, made_in, made_unique, freed};
ghost use Rattle.cyc_meaning.specs.Allocation.{blanks};
ghost use Rattle.cyc_meaning.specs.inside.Effects.{pages_of};
ghost use Rattle.cyc_memory_relation.specs.inside.Tables.{Row, Placed, Tables, with_row, with_handle, Grows, first_tables};
ghost use Rattle.cyc_memory_relation.specs.inside.Words.{byte_at, Points, IsPartOf, Is, Holds, IsContent, IsBeside, AreBlank};
ghost use Rattle.cyc_memory_relation.specs.inside.Related.{has_home, IsOfVariable, HasKinds, Alive, LiveVariable, AreApart, AreGlobals, Related};
ghost use Rattle.cyc_memory_relation.specs.inside.Related.{scopes, IsNewest, closed_to};

/// The relation between a value and the machine words that represent it still holds when further objects are created and further
/// regions are opened. The relation also holds for equal words that begin at another index.
pub fn words_stay_values()
    ensures grows { (t u : Tables) (kind : Kind) (v : Value) (words : ℕ → ℕ) (place : ℕ) → Grows t u → Is t kind v words place → Is u kind v words place }
    ensures same { (t : Tables) (kind : Kind) (v : Value) (words others : ℕ → ℕ) (place other : ℕ)
        → ((j : ℕ) → j < words_of_kind kind → others (other + j) ≡ words (place + j)) → Is t kind v words place → Is t kind v others other }
{}

/// A cell has exactly one address, which is not 0, even if its object is not live.
pub fn cells_have_addresses()
    ensures one { (t : Tables) (object offset word other : ℕ) → Points t object offset word → Points t object offset other → word ≡ other }
    ensures some { (t : Tables) (object offset word : ℕ) → Points t object offset word → word ≢ 0 }
{}

/// Pointers are converted as follows. A thin pointer keeps its word, and as a fat pointer gets a length and an index (null gets the length
/// 0). A fat pointer whose index is in bounds becomes the address of the cell at the index.
pub fn pointers_convert()
    ensures thin { (t : Tables) (from to : Kind) (v u : Value) (words others : ℕ → ℕ) (place other : ℕ) → is_thin from ≡ true → is_thin to ≡ true
        → Is t from v words place → conversion to v ≡ Gives u → others other ≡ words place → Is t to u others other }
    ensures fat { (t : Tables) (from : Kind) (v u : Value) (words others : ℕ → ℕ) (place other : ℕ) → is_thin from ≡ true
        → Is t from v words place → conversion kinds.Fat v ≡ Gives u
        → others other ≡ words place → others (other + 1) ≡ (if words place == 0 then 0 else 1) → others (other + 2) ≡ 0 → Is t kinds.Fat u others other }
    ensures thinned { (t : Tables) (object start count word index : ℕ) (part : IsPartOf t object start count word) → index < count
        → Points t object (start + index) (word + index * bytes_of_kind part.kind) }
{}

/// An int is converted to a char by its low byte; a char converted to a char stays as it is; the word of a char is its int value.
pub fn chars_convert()
    ensures low { (t : Tables) (v u : Value) (words others : ℕ → ℕ) (place other : ℕ) → Is t kinds.Int v words place → conversion kinds.Char v ≡ Gives u
        → others other ≡ words place % 256 → Is t kinds.Char u others other }
    ensures kept { (t : Tables) (v u : Value) (words others : ℕ → ℕ) (place other : ℕ) → Is t kinds.Char v words place → conversion kinds.Char v ≡ Gives u
        → others other ≡ words place → Is t kinds.Char u others other }
    ensures int { (t : Tables) (v u : Value) (words others : ℕ → ℕ) (place other : ℕ) → Is t kinds.Char v words place → conversion kinds.Int v ≡ Gives u
        → others other ≡ words place → Is t kinds.Int u others other }
{}

/// A char in a cell is a byte. A byte that is loaded from a cell is the word of its char. If the word of a char is stored as a byte, then
/// the char becomes the value stored in the cell. A char in a variable is the last byte of the word of the variable. The word of a
/// variable that holds a char is below 256, so its last byte is the whole word. After a byte is stored in the last byte of a word below
/// 256, the word is equal to that byte.
pub fn chars_are_bytes()
    ensures loaded { (t : Tables) (v : Value) (m : Memory) (address : ℕ) → Holds t kinds.Char v m address → Is t kinds.Char v (λ j. byte_at m address) 0 }
    ensures stored { (t : Tables) (v : Value) (words : ℕ → ℕ) (place : ℕ) (m : Memory) (address : ℕ) → Is t kinds.Char v words place
        → Holds t kinds.Char v (put m (word_of address) (with_byte (m (word_of address)) (address % 4) (words place))) address }
    ensures last_loaded { (m : Memory) (address : ℕ) → address % 4 ≡ 0 → m address < 256 → byte_at m (address + 3) ≡ m address }
    ensures last_stored { (old byte : ℕ) → old < 256 → with_byte old 3 byte ≡ byte }
{}

/// Arithmetic on a fat pointer changes only its third word. A pointer is null exactly if its first word is 0.
pub fn pointers_compute()
    ensures moved { (t : Tables) (change : ℕ → ℕ) (v u : Value) (words others : ℕ → ℕ) (place other : ℕ) → Is t kinds.Fat v words place
        → moved change v ≡ Gives u → others other ≡ words place → others (other + 1) ≡ words (place + 1)
        → others (other + 2) ≡ change (words (place + 2)) → Is t kinds.Fat u others other }
    ensures thin_null { (t : Tables) (negated : Bool) (kind : Kind) (v : Value) (words : ℕ → ℕ) (place : ℕ) → is_thin kind ≡ true → Is t kind v words place
        → null_test negated v ≡ Gives (Int (truth (if words place == 0 then not negated else negated))) }
    ensures fat_null { (t : Tables) (negated : Bool) (v : Value) (words : ℕ → ℕ) (place : ℕ) → Is t kinds.Fat v words place
        → null_test negated v ≡ Gives (Int (truth (if words place == 0 then not negated else negated))) }
{}

/// Thin pointers that the source compares are equal exactly if their words are equal, provided that no two variables share a word.
pub fn pointers_compare()
    ensures { (t : Tables) (w : World) (s : StoreState) (from to : Kind) (u v : Value) (words others : ℕ → ℕ) (place other : ℕ) (equal : Bool)
        → Related t w s → AreApart t w → is_thin from ≡ true → is_thin to ≡ true → Is t from u words place → Is t to v others other
        → compared w u v ≡ Found equal → equal ≡ (words place == others other) }
{}

/// At the start of a run the globals are variables, which are outside the heap store if their addresses are taken. The heap
/// store contains the heap region.
pub fn starts_related()
    ensures { (program : Program) (globals : List Row) (input : List ℕ) (pages : ℕ) (memory : Memory) → AreGlobals program globals → AreWords memory
        → 1 ≤ pages → pages ≤ MOST_PAGES → Related (first_tables globals) (first_world program input) (start pages memory) }
{}

/// A cell that a lookup in the source's heap state finds is a cell of an object of the heap store, or of a variable. If a pointer
/// points to a cell of the store, then each word with bytes of the cell can be read. The bytes of a cell of the store represent the
/// value stored in the cell. For a fat pointer, the cell is found by its offset in bytes. Writing a cell of the store preserves the
/// relation between source and store if all other bytes of memory are unchanged.
pub fn cells_are_read_and_written()
    ensures either { (t : Tables) (w : World) (s : StoreState) (object offset : ℕ) (at : Located) → Related t w s → cell_at w object offset ≡ Found at
        → ((handle : ℕ) × Alive t w object handle at.object) ⊎ LiveVariable t w object at.object }
    ensures live { (t : Tables) (w : World) (s : StoreState) (object offset word handle : ℕ) (at : Located) → Related t w s → cell_at w object offset ≡ Found at
        → Alive t w object handle at.object → Points t object offset word
        → (j : ℕ) → j < bytes_of_kind at.cell.kind → word_at s (word_of (word + j)) ≡ Some (s.memory (word_of (word + j))) }
    ensures read { (t : Tables) (w : World) (s : StoreState) (object offset word handle : ℕ) (at : Located) → Related t w s → cell_at w object offset ≡ Found at
        → Alive t w object handle at.object → Points t object offset word → IsContent t at.cell.kind at.cell.content s.memory word }
    ensures element { (t : Tables) (w : World) (s : StoreState) (object start count word index : ℕ) (at : Located) → Related t w s
        → IsPartOf t object start count word → index < count → cell_at w object (start + index) ≡ Found at
        → Points t object (start + index) (word + index * bytes_of_kind at.cell.kind) }
    ensures written { (t : Tables) (w : World) (s : StoreState) (object offset word handle : ℕ) (at : Located) (m : Memory) (v : Value) → Related t w s
        → cell_at w object offset ≡ Found at → Alive t w object handle at.object → Points t object offset word → AreWords m
        → ((x : ℕ) → IsBeside at.cell.kind word x → byte_at m x ≡ byte_at s.memory x)
        → Holds t at.cell.kind v m word → Related t (written w object offset at v) (record s { memory = m }) }
{}

/// A new object has cells without values and lies in the block that the heap store chose, for every allowed choice. The address of
/// the block is the pointer to the object.
pub fn objects_are_made()
    ensures home { (t : Tables) (w : World) (s : StoreState) (number handle : ℕ) (r : Region) → Related t w s → region_at w number ≡ Found r
        → slice_get t.handles number ≡ Some (Some handle) → (slice_get w.regions number ≡ Some r) × (has_home r ≡ true) }
    ensures region { (t : Tables) (w : World) (s : StoreState) (number handle : ℕ) (r : Region) (cells : List Cell) (c : Choice) → Related t w s
        → slice_get w.regions number ≡ Some r → has_home r ≡ true → slice_get t.handles number ≡ Some (Some handle) → AreBlank cells
        → refusal s (Allocate handle (block_size cells)) ≡ None → IsAllowed s (Allocate handle (block_size cells)) c
        → Related (with_row t (Placed c.address (kinds_of cells))) (made_in w number r cells) (served s (Allocate handle (block_size cells)) c) }
    ensures unique { (t : Tables) (w : World) (s : StoreState) (cells : List Cell) (c : Choice) → Related t w s → AreBlank cells → block_size cells ≤ page_words
        → refusal s (Allocate UNIQUE (block_size cells)) ≡ None → IsAllowed s (Allocate UNIQUE (block_size cells)) c
        → Related (with_row t (Placed c.address (kinds_of cells))) (made_unique w cells) (served s (Allocate UNIQUE (block_size cells)) c) }
    ensures points { (t : Tables) (w : World) (s : StoreState) (handle : ℕ) (first : Cell) (cells : List Cell) (c : Choice) → Related t w s
        → block_size (first ∷ cells) ≤ page_words → IsAllowed s (Allocate handle (block_size (first ∷ cells))) c
        → Points (with_row t (Placed c.address (kinds_of (first ∷ cells)))) (length w.objects) 0 c.address }
    ensures array { (t : Tables) (w : World) (s : StoreState) (handle count : ℕ) (kind : Kind) (c : Choice) → Related t w s
        → block_size (blanks count kind) ≤ page_words → IsAllowed s (Allocate handle (block_size (blanks count kind))) c
        → IsPartOf (with_row t (Placed c.address (kinds_of (blanks count kind)))) (length w.objects) 0 count c.address }
{}

/// The heap store is out of pages exactly if the number of pages that the source needs after the request
/// exceeds the store's pages; the store refuses a request for no other reason.
pub fn refusals_go_by_demand()
    ensures region { (t : Tables) (w : World) (s : StoreState) (number handle : ℕ) (r : Region) (cells : List Cell) → Related t w s
        → slice_get w.regions number ≡ Some r → has_home r ≡ true → slice_get t.handles number ≡ Some (Some handle) → is_size (block_size cells) ≡ true
        → refusal s (Allocate handle (block_size cells)) ≡ full_at (nat_lt s.pages (pages_of (made_in w number r cells))) }
    ensures unique { (t : Tables) (w : World) (s : StoreState) (cells : List Cell) → Related t w s → is_size (block_size cells) ≡ true
        → refusal s (Allocate UNIQUE (block_size cells)) ≡ full_at (nat_lt s.pages (pages_of (made_unique w cells))) }
    ensures lexical { (t : Tables) (w : World) (s : StoreState) → Related t w s
        → refusal s OpenLexical ≡ full_at (nat_lt s.pages (pages_of (opened_as Lexical w))) }
    ensures dynamic { (t : Tables) (w : World) (s : StoreState) → Related t w s
        → refusal s OpenDynamic ≡ full_at (nat_lt s.pages (pages_of (opened_as Dynamic w))) }
{}

/// Declaring and assigning variables, and opening and closing their regions, does not change the heap store.
pub fn variables_leave_the_store()
    ensures declared { (t : Tables) (w : World) (s : StoreState) (number : ℕ) (r : Region) (kind : Kind) (content : Option Value) (row : Row) → Related t w s
        → slice_get w.regions number ≡ Some r → slice_get t.handles number ≡ Some None
        → HasKinds (variable number kind content).cells row → IsOfVariable row → Related (with_row t row) (made w (variable number kind content)) s }
    ensures assigned { (t : Tables) (w : World) (s : StoreState) (object offset region : ℕ) (at : Located) (v : Value) → Related t w s
        → cell_at w object offset ≡ Found at → at.object.owner ≡ InRegion region → slice_get t.handles region ≡ Some None
        → Related t (written w object offset at v) s }
    ensures opened { (t : Tables) (w : World) (s : StoreState) → Related t w s → Related (with_handle t None) (opened_as Stack w) s }
    ensures closed { (t : Tables) (w : World) (s : StoreState) (number : ℕ) (r : Region) → Related t w s
        → slice_get w.regions number ≡ Some r → slice_get t.handles number ≡ Some None → Related t (closed w number r) s }
{}

/// Freeing a unique object frees its block, which is one of the heap store's blocks.
pub fn unique_objects_are_freed()
    ensures knows { (t : Tables) (w : World) (s : StoreState) (number address : ℕ) (x : Object) (ks : List Kind) → Related t w s
        → slice_get w.objects number ≡ Some x → x.owner ≡ Unique true → slice_get t.rows number ≡ Some (Placed address ks)
        → refusal s (Free address) ≡ None }
    ensures freed { (t : Tables) (w : World) (s : StoreState) (number address : ℕ) (x : Object) (ks : List Kind) (c : Choice) → Related t w s
        → slice_get w.objects number ≡ Some x → x.owner ≡ Unique true → slice_get t.rows number ≡ Some (Placed address ks)
        → IsAllowed s (Free address) c → Related t (freed w number x) (served s (Free address) c) }
{}

/// Regions of the heap store open and close with the corresponding regions of the source.
pub fn regions_open_and_close()
    ensures lexical { (t : Tables) (w : World) (s : StoreState) (c : Choice) → Related t w s → refusal s OpenLexical ≡ None → IsAllowed s OpenLexical c
        → Related (with_handle t (Some c.handle)) (opened_as Lexical w) (served s OpenLexical c) }
    ensures dynamic { (t : Tables) (w : World) (s : StoreState) (c : Choice) → Related t w s → refusal s OpenDynamic ≡ None → IsAllowed s OpenDynamic c
        → Related (with_handle t (Some c.handle)) (opened_as Dynamic w) (served s OpenDynamic c) }
    ensures knows { (t : Tables) (w : World) (s : StoreState) (number handle : ℕ) (r : Region) → Related t w s
        → slice_get w.regions number ≡ Some r → has_home r ≡ true → r.sort ≡ Dynamic → slice_get t.handles number ≡ Some (Some handle)
        → refusal s (CloseDynamic handle) ≡ None }
    ensures closed { (t : Tables) (w : World) (s : StoreState) (number handle : ℕ) (r : Region) (c : Choice) → Related t w s
        → slice_get w.regions number ≡ Some r → has_home r ≡ true → r.sort ≡ Dynamic → slice_get t.handles number ≡ Some (Some handle)
        → IsAllowed s (CloseDynamic handle) c → Related t (closed w number r) (served s (CloseDynamic handle) c) }
{}

/// When several lexical regions are left, the source closes one in each step, newest first. The heap store closes all of these regions
/// at the end by one call, which says how many regions stay open. In a run, the open lexical regions are exactly those that continuation
/// frames will close. The newest of these continuation frames closes the newest region.
pub fn regions_close_at_once()
    ensures begins { (t : Tables) (w : World) (s : StoreState) → Related t w s → Related t w (closed_to s (scopes w.regions)) }
    ensures following { (t : Tables) (w : World) (s : StoreState) (mark number : ℕ) (r : Region) → Related t w (closed_to s (suc mark))
        → scopes w.regions ≡ suc mark → slice_get w.regions number ≡ Some r → is_scope r.sort r.is_open ≡ true → IsNewest w.regions number
        → Related t (closed w number r) (closed_to s mark) }
    ensures at_once { (t : Tables) (w : World) (s : StoreState) (mark : ℕ) (c : Choice) → IsSound s → Related t w (closed_to s mark)
        → refusal s (CloseTo mark) ≡ None → IsAllowed s (CloseTo mark) c → Related t w (served s (CloseTo mark) c) }
    ensures counted { (stack : List Entry) (e : Environment) (w : World) → IsNested stack e w → scopes w.regions ≡ length (lexicals_of stack) }
    ensures newest { (number : ℕ) (stack : List Entry) (e : Environment) (w : World) → IsNested (CloseLexical number ∷ stack) e w
        → IsNewest w.regions number }
{}
