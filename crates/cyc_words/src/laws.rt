//! Laws of the definitions in `specs/`. Each function of this file does nothing, and its contract states one law, which is proved with the
//! crate. The lemmas that other proofs cite are in `proofs/`.

ghost use Rattle.std.specs.Prelude.{◌≡◌, ◌≢◌, ℕ, ◌+◌, ◌-◌, ◌*◌, ◌/◌, ◌%◌, ◌^◌, ◌<◌, ◌≤◌, ◌⊎◌, ◌↔◌, ℤ, pos, ◌+ℤ◌, ◌-ℤ◌, ◌*ℤ◌, ◌<ℤ◌, List, [], ◌∷◌};
ghost use Rattle.std.specs.Prelude.{length, All, FitsSigned, int_div, int_rem, bit_or};
ghost use Rattle.std.specs.Int.{w16, w32, bit_at};
ghost use Rattle.cyc_words.specs.Word.{IsWord, IsHalf, signed, unsigned, signed_half, sign_extended, floor_div, add_of, sub_of, mul_of, shl_of};
ghost use Rattle.cyc_words.specs.Word.{sar_of, div_of, rem_of};
ghost use Rattle.cyc_words.specs.Bytes.{IsByte, bytes_of_word, word_of_bytes, byte_in, with_byte};
ghost use Rattle.cyc_words.specs.Seen.{IsPrefix};
ghost use Rattle.cyc_words.specs.Ending.{Ending, Alike};

/// The signed and the unsigned meaning of a word agree modulo 2^32, and each determines the other.
pub fn word_views()
    ensures agree { (w : ℕ) → IsWord w → (signed w ≡ pos w) ⊎ (signed w ≡ pos w -ℤ pos (2 ^ 32)) }
    ensures back { (w : ℕ) → IsWord w → unsigned (signed w) ≡ w }
    ensures forth { (z : ℤ) → FitsSigned w32 z → signed (unsigned z) ≡ z }
    ensures signed_fits { (w : ℕ) → IsWord w → FitsSigned w32 (signed w) }
    ensures unsigned_fits { (z : ℤ) → IsWord (unsigned z) }
{}

/// The sum, difference and product of words are the sum, difference and product of their signed meanings, wrapped to 32 bits.
pub fn word_sums()
    ensures sum { (a b : ℕ) → IsWord a → IsWord b → add_of a b ≡ unsigned (signed a +ℤ signed b) }
    ensures difference { (a b : ℕ) → IsWord a → IsWord b → sub_of a b ≡ unsigned (signed a -ℤ signed b) }
    ensures product { (a b : ℕ) → IsWord a → IsWord b → mul_of a b ≡ unsigned (signed a *ℤ signed b) }
{}

/// The quotient, remainder and arithmetic shift of words equal those of integers, except for the one quotient that wraps (-2 ^ 31 by -1).
pub fn word_quotients()
    ensures dividend { (a b : ℕ) → IsWord a → IsWord b → add_of (mul_of (div_of a b) b) (rem_of a b) ≡ a }
    ensures quotient { (a b : ℕ) → IsWord a → IsWord b → (a ≡ 2 ^ 31 → b ≢ 2 ^ 32 - 1) →
        signed (div_of a b) ≡ int_div (signed a) (signed b) }
    ensures remainder { (a b : ℕ) → IsWord a → signed (rem_of a b) ≡ int_rem (signed a) (signed b) }
    ensures wraps { (div_of (2 ^ 31) (2 ^ 32 - 1) ≡ 2 ^ 31) × (rem_of (2 ^ 31) (2 ^ 32 - 1) ≡ 0) }
    ensures shift { (a k : ℕ) → IsWord a → signed (sar_of a k) ≡ floor_div (signed a) (2 ^ (k % 32)) }
{}

/// A word is determined by its bits, and by its two halves. Sign extension of a half keeps its signed meaning.
pub fn word_parts()
    ensures bits { (a b : ℕ) → IsWord a → IsWord b →
        ((i : ℕ) → i < 32 → bit_at a i ≡ bit_at b i) → a ≡ b }
    ensures sign { (w : ℕ) → IsWord w → (bit_at w 31 ≡ 1) ↔ (signed w <ℤ pos 0) }
    ensures halves { (w : ℕ) → IsWord w → bit_or (shl_of (w / 2 ^ 16) 16) (w % 2 ^ 16) ≡ w }
    ensures extended { (h : ℕ) → IsHalf h → signed (sign_extended h) ≡ signed_half h }
    ensures low_half { (w : ℕ) → IsWord w → FitsSigned w16 (signed w) → sign_extended (w % 2 ^ 16) ≡ w }
{}

/// The conversions between a word and its four bytes are inverse to each other.
pub fn word_bytes()
    ensures word { (w : ℕ) → IsWord w → word_of_bytes (bytes_of_word w) ≡ w }
    ensures bytes { (bs : List ℕ) → length bs ≡ 4 → All IsByte bs → bytes_of_word (word_of_bytes bs) ≡ bs }
{}

/// Reading a byte of a word by its position agrees with the list of the word's bytes. A byte that is written is read back at its position,
/// and the other three bytes stay unchanged.
pub fn byte_places()
    ensures listed { (w : ℕ) → bytes_of_word w ≡ byte_in w 0 ∷ byte_in w 1 ∷ byte_in w 2 ∷ byte_in w 3 ∷ [] }
    ensures here { (w p b : ℕ) → IsByte b → byte_in (with_byte w p b) p ≡ b }
    ensures there { (w p q b : ℕ) → p < 4 → q < 4 → q ≢ p → IsByte b → byte_in (with_byte w p b) q ≡ byte_in w q }
    ensures word { (w p b : ℕ) → IsWord w → IsByte b → IsWord (with_byte w p b) }
{}

/// The prefix relation is a partial order.
pub fn prefixes()
    ensures reflexive { (xs : List ℕ) → IsPrefix xs xs }
    ensures transitive { (xs ys zs : List ℕ) → IsPrefix xs ys → IsPrefix ys zs → IsPrefix xs zs }
    ensures antisymmetric { (xs ys : List ℕ) → IsPrefix xs ys → IsPrefix ys xs → xs ≡ ys }
{}

/// The relation `Alike` holds between two endings of runs exactly if they are equal. The relation is therefore
/// reflexive, symmetric and transitive.
pub fn endings()
    ensures { (e f : Ending) → Alike e f ↔ (e ≡ f) }
{}
