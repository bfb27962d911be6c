// Laws of the operations, above their definitions. A law does nothing when it runs.
ghost use Rattle.std.specs.Prelude.{◌≡◌, ℕ, ◌+◌, ◌-◌, ◌*◌, ◌/◌, ◌%◌, ◌^◌, ◌<◌, ◌≤◌, ◌↔◌, Bool, true, false, cond, nat_lt, ℤ, ◌+ℤ◌, ◌-ℤ◌, ◌*ℤ◌, Some};
ghost use Rattle.std.specs.Int.{bit_at};
ghost use Rattle.word36.specs.Words.{IsWord, bit, signed};
ghost use Rattle.word36.specs.Arithmetic.{Outcome, added, divided, moved, multiplied, multiplied_short, subtracted};
ghost use Rattle.word36.specs.Boolean.{IsBoolean, boolean_of, function_of};
ghost use Rattle.word36.specs.Halves.{half_of};
ghost use Rattle.word36.specs.Shifts.{ash_left, ash_overflows, ash_right, double, first_one, logical, rotated, shifted, split};
ghost use Rattle.word36.specs.Tests.{IsTest, test_skips, tested};
ghost use Rattle.ka10_alu.specs.Halfwords.{IsMoved, OtherHalf, Side, move_opcode};
ghost use Rattle.ka10_alu.specs.Laws.{IsProduct, IsQuotient, Sums, left_by_places, right_by_places};
ghost use Rattle.ka10_alu.specs.MaskedBits.{AreMaskedClear, ChangesMasked, truth};

use word36::opcodes::{LSH, LSHC, TRN};

/// IDIV and DIV, where they are done: quotient times divisor plus remainder is the dividend, and
/// the remainder is smaller than the divisor and has the dividend's sign.
pub fn divisions_are_whole()
    ensures { (dividend : ℤ) (m : ℕ) (o : Outcome) → IsWord m → divided dividend m ≡ Some o → IsQuotient dividend (signed m) o }
{}

/// IMUL overflows exactly where its word is not the product, and MUL exactly where its word and the
/// 35 bits below it are not.
pub fn products_are_whole()
    ensures short { (a m : ℕ) → IsWord a → IsWord m → ((multiplied_short a m).flags.overflow ≡ false) ↔ (signed (multiplied_short a m).word ≡ signed a *ℤ signed m) }
    ensures long { (a m : ℕ) → IsWord a → IsWord m → ((multiplied a m).flags.overflow ≡ false) ↔ IsProduct (signed a *ℤ signed m) (multiplied a m) }
{}

/// ADD and SUB overflow exactly where the signed result is no signed word, and exactly there
/// carry 0 differs from carry 1.
pub fn sums_are_signed()
    ensures add { (a m : ℕ) → IsWord a → IsWord m → Sums (signed a +ℤ signed m) (added a m) }
    ensures subtract { (a m : ℕ) → IsWord a → IsWord m → Sums (signed a -ℤ signed m) (subtracted a m) }
{}

/// ASH and ASHC, of a number of any width under its sign, are as many shifts by one place.
pub fn arithmetic_shifts_go_by_places()
    ensures left { (under d n : ℕ) → 1 ≤ under → d < 2 ^ (under + 1) → ash_left under d n ≡ (left_by_places under d n).number }
    ensures lost { (under d n : ℕ) → 1 ≤ under → d < 2 ^ (under + 1) → ash_overflows under d n ≡ (left_by_places under d n).lost }
    ensures right { (under d n : ℕ) → 1 ≤ under → d < 2 ^ (under + 1) → ash_right under d n ≡ right_by_places under d n }
{}

/// ROT by 36 places and ROTC by 72, to either side, are nothing.
pub fn whole_turns_are_nothing()
    ensures { (width d : ℕ) (is_right : Bool) → 0 < width → d < 2 ^ width → rotated width is_right d width ≡ d }
{}

/// JFFO's count is the place of the leftmost one.
pub fn first_ones_are_leftmost()
    ensures { (a : ℕ) → 0 < a → IsWord a → (first_one a ≤ 35) × (2 ^ (35 - first_one a) ≤ a) × (a < 2 ^ (36 - first_one a)) }
{}

/// LSH to the left is multiplication by a power of 2 modulo 2^36, and to the right division by it
/// rounded down; LSHC is the same of the number of 72 bits that the two words make.
pub fn logical_shifts_multiply_and_divide()
    ensures left { (a a1 n : ℕ) → n < 256 → shifted LSH a a1 n ≡ moved (a * 2 ^ n % 2 ^ 36) }
    ensures right { (a a1 n : ℕ) → 0 < n → n < 256 → shifted LSH a a1 (2 ^ 18 - n) ≡ moved (a / 2 ^ n) }
    ensures both_left { (a a1 n : ℕ) → n < 256 → shifted LSHC a a1 n ≡ split (double a a1 * 2 ^ n % 2 ^ 72) }
    ensures both_right { (a a1 n : ℕ) → 0 < n → n < 256 → shifted LSHC a a1 (2 ^ 18 - n) ≡ split (double a a1 / 2 ^ n) }
{}

/// LSH and LSHC, of a number of any width, move each bit by as many places; zeros come in.
pub fn logical_shifts_move_bits()
    ensures left { (width d n i : ℕ) → i < width → bit_at (logical width false d n) i ≡ cond (nat_lt i n) 0 (bit_at d (i - n)) }
    ensures right { (width d n i : ℕ) → bit_at (logical width true d n) i ≡ bit_at d (i + n) }
{}

/// A halfword move puts the source's half into the destination's half, in each of its four modes;
/// the destination's other half stays, or becomes zeros, ones, or copies of the moved half's sign.
pub fn halfwords_are_moved()
    ensures { (from to : Side) (other : OtherHalf) (mode source dest : ℕ) → mode < 4 → IsWord source → IsWord dest → IsMoved from to other source dest (half_of (move_opcode from to other + mode) source dest) }
{}

/// A Boolean function gives each bit of its result from the bits in the same place of its operands,
/// by the truth table that is its number.
pub fn booleans_go_by_bits()
    ensures bits { (op a m i : ℕ) → IsBoolean op → i < 36 → bit (boolean_of op a m) i ≡ truth (function_of op) (bit a i) (bit m i) }
    ensures word { (op a m : ℕ) → IsBoolean op → IsWord (boolean_of op a m) }
{}

/// A test changes the masked bits, as its third letter says, and no others.
pub fn tests_change_masked_bits()
    ensures { (op a mask : ℕ) → IsTest op → ChangesMasked ((op - TRN) / 0o20) a mask (tested op a mask) }
{}

/// A test's skip looks at the masked bits of the old word: never (no letter), where they are all 0
/// (E), always (A), where they are not all 0 (N).
pub fn tests_skip_by_masked_bits()
    ensures never { (op a mask : ℕ) → op % 8 / 2 ≡ 0 → test_skips op a mask ≡ false }
    ensures equal { (op a mask : ℕ) → op % 8 / 2 ≡ 1 → (test_skips op a mask ≡ true) ↔ AreMaskedClear a mask }
    ensures always { (op a mask : ℕ) → op % 8 / 2 ≡ 2 → test_skips op a mask ≡ true }
    ensures not_equal { (op a mask : ℕ) → op % 8 / 2 ≡ 3 → (test_skips op a mask ≡ false) ↔ AreMaskedClear a mask }
{}
