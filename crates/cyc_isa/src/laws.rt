//! Laws of the definitions in `specs/`. Each function in this file has an empty body, and its contract states one law, which is proved
//! with the crate. The lemmas that other proofs cite are in `proofs/`.

ghost use Rattle.std.specs.Prelude.{◌≡◌, ◌≢◌, ℕ, true, false, ◌+◌, ◌*◌, ◌/◌, ◌%◌, ◌^◌, ◌<◌, pos, ◌+ℤ◌, ◌*ℤ◌, ◌++◌, ◌↔◌, Some, IsSome};
ghost use Rattle.cyc_words.specs.Word.{IsWord, IsHalf, unsigned, signed_half};
ghost use Rattle.cyc_isa.specs.Field.{HasFields};
ghost use Rattle.cyc_isa.specs.Encoding.{row_of, operands_of, word_of, IsEncodable, IsInstance, IsInstruction};
ghost use Rattle.cyc_isa.specs.Decoding.{decode_of};
ghost use Rattle.cyc_isa.specs.Effect.{immediate_result, load_upper_result, arithmetic_result, shift_result, high_result, low_result, memory_address};
ghost use Rattle.cyc_isa.specs.Effect.{slot_address, branch_target, jump_target};
ghost use Rattle.cyc_isa.specs.Uses.{writes};
ghost use Rattle.cyc_isa.specs.declared.instr.Instr.{Instr};
ghost use Rattle.cyc_isa.specs.declared.instr.Instr.TheVariants.{Exception};
ghost use Rattle.cyc_isa.specs.declared.operand.TrapCode.{TrapCode};
ghost use Rattle.cyc_isa.specs.declared.instr.ExceptionOp.{ExceptionOp};
ghost use Rattle.cyc_isa.specs.declared.instr.ImmediateOp.{ImmediateOp};
ghost use Rattle.cyc_isa.specs.declared.instr.ArithmeticOp.{ArithmeticOp};
ghost use Rattle.cyc_isa.specs.declared.instr.ShiftOp.{ShiftOp};
ghost use Rattle.cyc_isa.specs.declared.instr.MultiplyDivideOp.{MultiplyDivideOp};

/// If the operands of an instruction fit their fields, exactly one word encodes the instruction. The word is an
/// instance of the instruction's table row and encodes no other instruction.
pub fn words_of_instructions()
    ensures is_word { (i : Instr) → IsEncodable i → word_of i < 2 ^ 32 }
    ensures fields { (i : Instr) → IsEncodable i → HasFields ((row_of i).fixed ++ operands_of i) (word_of i) }
    ensures instance { (i : Instr) → IsEncodable i → IsInstance (row_of i) (word_of i) }
    ensures decodes { (i : Instr) → IsEncodable i → decode_of (word_of i) ≡ Some i }
    ensures distinct { (i j : Instr) → IsEncodable i → IsEncodable j → word_of i ≡ word_of j → i ≡ j }
{}

/// A word decodes to an instruction exactly if it is an instance of a row of the instruction table; the instruction encodes to the word.
pub fn instructions_of_words()
    ensures instruction { (w : ℕ) → IsSome (decode_of w) ↔ IsInstruction w }
    ensures encodes { (w : ℕ) (i : Instr) → decode_of w ≡ Some i → word_of i ≡ w }
    ensures fits { (w : ℕ) (i : Instr) → decode_of w ≡ Some i → IsEncodable i }
{}

/// The target of a branch is the address of its delay slot plus four times its signed offset, modulo 2^32. The target of a jump has the
/// upper four bits of its delay slot's address, and below them the index times four.
pub fn targets()
    ensures branch { (addr offset : ℕ) → IsWord addr →
        branch_target addr offset ≡ unsigned ((pos addr +ℤ pos 4) +ℤ (pos 4 *ℤ signed_half offset)) }
    ensures jump_upper { (addr index : ℕ) → index < 2 ^ 26 →
        jump_target addr index / 2 ^ 28 ≡ slot_address addr / 2 ^ 28 }
    ensures jump_lower { (addr index : ℕ) → index < 2 ^ 26 → jump_target addr index % 2 ^ 28 ≡ index * 4 }
{}

/// If the operands of an operation are words, its result is a word.
pub fn results_are_words()
    ensures immediate { (op : ImmediateOp) (s h : ℕ) → IsWord s → IsHalf h → IsWord (immediate_result op s h) }
    ensures load_upper { (h : ℕ) → IsHalf h → IsWord (load_upper_result h) }
    ensures arithmetic { (op : ArithmeticOp) (l r : ℕ) → IsWord l → IsWord r → IsWord (arithmetic_result op l r) }
    ensures shift { (op : ShiftOp) (s k : ℕ) → IsWord s → IsWord (shift_result op s k) }
    ensures high { (op : MultiplyDivideOp) (l r : ℕ) → IsWord l → IsWord r → IsWord (high_result op l r) }
    ensures low { (op : MultiplyDivideOp) (l r : ℕ) → IsWord (low_result op l r) }
    ensures address { (b h : ℕ) → IsWord (memory_address b h) }
    ensures branch { (addr h : ℕ) → IsWord (branch_target addr h) }
    ensures jump { (addr x : ℕ) → x < 2 ^ 26 → IsWord (jump_target addr x) }
{}

/// No instruction writes register 0, and only `syscall` writes two registers.
pub fn registers_are_set_alone()
    ensures zero { (i : Instr) → writes i 0 ≡ false }
    ensures alone { (i : Instr) (m n : ℕ) → ((op : ExceptionOp) (code : TrapCode) → i ≢ Exception op code)
        → writes i m ≡ true → writes i n ≡ true → m ≡ n }
{}
