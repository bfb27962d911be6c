// What follows from the definitions, in the words of their users. A law does nothing when it runs.
ghost use Rattle.std.specs.Prelude.{◌≡◌, ℕ, ◌<◌, ◌≤◌, List, ◌++◌, length, map, take, slice_get};
ghost use Rattle.std.specs.List.{filter};
ghost use Rattle.plain_typing.specs.Characters.{read_as};
ghost use Rattle.plain_typing.specs.Lines.{InputLine};
ghost use Rattle.plain_typing.specs.Typing.{fate_of, is_input, left_by, typed_all};
ghost use Rattle.plain_typing.specs.declared.typed.TheConstants.{MOST_STORED};

/// What is typed changes nothing of what was stored before it: the oldest character stays the
/// oldest.
pub fn oldest_first()
    ensures { (line : InputLine) (code : ℕ) → 0 < length line.input → slice_get (left_by line code (fate_of line code)).input 0 ≡ slice_get line.input 0 }
{}

/// Of what is typed, one character after another, the line has those that go to the program, in the
/// order in which they were typed, up to the most that it stores; the others are lost. No code is
/// assigned or given up by it.
pub fn typed_in_order()
    ensures stored { (line : InputLine) (typed : List ℕ) → length line.input ≤ MOST_STORED → (typed_all line typed).input ≡ take MOST_STORED (line.input ++ filter (is_input line.codes) (map read_as typed)) }
    ensures codes { (line : InputLine) (typed : List ℕ) → (typed_all line typed).codes ≡ line.codes }
{}
