// A text has one verdict.
ghost use Rattle.std.specs.Prelude.{◌≡◌, ℕ, List};
ghost use Rattle.script_texts.specs.Script.{IsScript, IsTooLong, StopsAt};
ghost use Rattle.script_texts.specs.declared.event.Event.{Event as AnEvent};

/// A text is a script, or stops at a bad line, or is too long: never two of these, with one list of
/// events and one line number.
pub fn one_verdict()
    ensures script { (text : List ℕ) (es fs : List AnEvent) → IsScript text es → IsScript text fs → es ≡ fs }
    ensures stop { (text : List ℕ) (m n : ℕ) (es fs : List AnEvent) → StopsAt m text es → StopsAt n text fs → (m ≡ n) × (es ≡ fs) }
    ensures long { (text : List ℕ) (es fs : List AnEvent) → IsTooLong text es → IsTooLong text fs → es ≡ fs }
    ensures script_not_stop { (text : List ℕ) (n : ℕ) (es fs : List AnEvent) → IsScript text es → StopsAt n text fs → ⊥ }
    ensures script_not_long { (text : List ℕ) (es fs : List AnEvent) → IsScript text es → IsTooLong text fs → ⊥ }
    ensures stop_not_long { (text : List ℕ) (n : ℕ) (es fs : List AnEvent) → StopsAt n text es → IsTooLong text fs → ⊥ }
{}
