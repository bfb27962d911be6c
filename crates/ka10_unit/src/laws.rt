// What follows from the definitions of instructions, in the words of their users. A law does nothing
// when it runs.
ghost use Rattle.std.specs.Prelude.{◌⊎◌, ℕ, ◌+◌, ◌<◌, ◌≤◌, ◌^◌, List};
ghost use Rattle.std.specs.Ordering.{nat_cmp};
ghost use Rattle.word36.specs.Words.{IsWord};
ghost use Rattle.machine_names.specs.declared.names.ForkName.{ForkName as AForkName};
ghost use Rattle.plain_units.specs.Steps.{Progress, Steps, plainly, run};
ghost use Rattle.ka10_unit.specs.Gathers.{Framed};
ghost use Rattle.ka10_unit.specs.Taking.{IsPlain, NeedsAway, run_over};
ghost use Rattle.plain_units.specs.Deeds.{Operands};
ghost use Rattle.ka10_unit.specs.Laws.{ChangePlaces, ComesBack, CopiesBlock, GoesOver, MovesOne, ReturnsByPop, ReturnsByWord};

/// EXCH: the accumulator and the word at E change places.
pub fn exchanged_words_change_places()
    ensures { (o : Operands) → ChangePlaces o }
{}

/// What PUSH put onto a list POP takes from there, and the list's pointer is as it was.
pub fn pushed_words_come_back()
    ensures { (pushed popped : Operands) → IsWord pushed.a → ComesBack pushed popped }
{}

/// POPJ goes on behind the PUSHJ by which it was reached, and the list's pointer is as it was.
pub fn pushed_calls_return()
    ensures { (calling returning : Operands) → IsWord calling.a → ReturnsByPop calling returning }
{}

/// A jump through the word that JSR stored goes on behind the JSR.
pub fn stored_calls_return()
    ensures { (calling : Operands) (ac : List ℕ) → ReturnsByWord calling ac }
{}

/// AOBJN goes over the words of a vector, one after another, and ends behind the last.
pub fn vectors_are_gone_over()
    ensures { (n first : ℕ) → 1 ≤ n → n ≤ 2 ^ 17 → first + n < 2 ^ 18 → GoesOver n first }
{}

/// BLT moves one word a unit.
pub fn blocks_move_by_words()
    ensures { (o : Operands) → MovesOne o }
{}

/// As many units of BLT copy as many words, where source and destination do not overlap.
pub fn blocks_are_copied()
    ensures { (n from to : ℕ) (words : ℕ → ℕ) → from + n < 2 ^ 18 → to + n < 2 ^ 18 → (from + n ≤ to) ⊎ (to + n ≤ from) → CopiesBlock n from to words }
{}

/// Steps of a fork over pages of which some are in no frame: where they need nothing first they are those of the plain
/// machine; and where they need a page, a map or a page that is in no frame stands at its home.
pub fn units_are_plain_or_wait()
    ensures plain { (f : AForkName) (p : Framed) (steps : Steps) (t : Progress nat_cmp) → IsPlain (run_over f p steps t) (run (plainly f) f steps t) }
    ensures away { (f : AForkName) (p : Framed) (steps : Steps) (t : Progress nat_cmp) → NeedsAway p.scene (run_over f p steps t) }
{}
