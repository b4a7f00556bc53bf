//! Laws of the definitions in `specs/`. Each function of this file is empty, and the function's contract states one law, which is
//! proved with the crate. The lemmas that other proofs cite are in `proofs/`.

ghost use Rattle.std.specs.Prelude.{◌≡◌, ℕ, ◌+◌, List, ◌++◌, length};
ghost use Rattle.std.specs.List.{range_with_len, flat_map};
ghost use Rattle.std.specs.List.Sorted.{IsPermutation};
ghost use Rattle.cyc_isa.specs.Encoding.{word_of};
ghost use Rattle.cyc_words.specs.inside.Following.{IsLawful};
ghost use Rattle.cyc_select.specs.inside.Labelled.{Labelled};
ghost use Rattle.cyc_select.specs.declared.code.Line.{Line};
ghost use Rattle.cyc_asm.specs.inside.Order.{arranged};
ghost use Rattle.cyc_asm.specs.inside.Text.{IsTextOf, nothing, own};
ghost use Rattle.cyc_asm.specs.inside.Machine.{Runs};
ghost use Rattle.cyc_machine_model.specs.WorldMachine.{world_machine};

/// The instruction in an empty delay slot is encoded by the word 0.
pub fn slots_are_empty()
    ensures { word_of nothing ≡ 0 }
{}

/// The order in which the assembler emits lines contains each line of the labelled code exactly once.
pub fn orders_have_each_line()
    ensures { (code : List Line) → IsPermutation code (arranged code) }
{}

/// If the lines of labelled code are partitioned in any way into groups, each word of the text comes from the lines of exactly one group.
pub fn words_are_shared_out()
    ensures { (code : Labelled) (addresses : ℕ → ℕ) (words : List ℕ) → IsTextOf code addresses words
        → (some others : List ℕ) → some ++ others ≡ range_with_len 0 (length code.lines)
        → length (flat_map (own addresses) some) + length (flat_map (own addresses) others) ≡ length words }
{}

/// In a run of the MIPS machine, the output only grows, and a run that has ended stays in its state.
pub fn worlds_are_lawful()
    ensures { IsLawful world_machine }
{}

/// Words that represent labelled code behave as the code does, whatever the addresses of its lines are.
pub fn texts_run()
    ensures { (code : Labelled) (addresses : ℕ → ℕ) (words : List ℕ) → IsTextOf code addresses words → Runs code addresses words }
{}
