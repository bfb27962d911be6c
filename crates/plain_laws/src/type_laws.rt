// What the definitions of what users type say, in the words of those who use them. A law does nothing when it runs.
ghost use Rattle.std.specs.Prelude.{◌≡◌, ◌≢◌, ◌+◌, ◌≤◌, ℕ, List, [], ◌∷◌, ◌++◌, length, map, true, All, Some};
ghost use Rattle.std.specs.FinMap as map_of;
ghost use Rattle.machine_names.specs.declared.character.TheConstants.{CARRIAGE_RETURN, LINE_END, LINE_FEED};
ghost use Rattle.machine_names.specs.declared.names.ForkName.{ForkName as AForkName};
ghost use Rattle.machine_names.specs.declared.names.Tty.{Tty as ATty};
ghost use Rattle.plain_typing.specs.declared.typed.TheConstants.{CONTROL_C, MOST_STORED};
ghost use Rattle.plain_typing.specs.Characters.{read_as};
ghost use Rattle.plain_typing.specs.Typing.{is_input};
ghost use Rattle.plain_model.specs.declared.fork.Fork.{Fork as AFork};
ghost use Rattle.plain_model.specs.ByteCalls.{input_at};
ghost use Rattle.plain_model.specs.Forks.{IsRunnable, with_fork};
ghost use Rattle.plain_model.specs.State.{PlainJob, PlainState};
ghost use Rattle.plain_model.specs.Trees.{with_mark};
ghost use Rattle.plain_model.specs.TypeEvents.{echo};
ghost use Rattle.plain_model.specs.Unit.{printed};
ghost use Rattle.plain_laws.specs.JfnLaws.{Lives};
ghost use Rattle.plain_laws.specs.TypeLaws.{HasJob, StoresText, at_prompt, control_c_shown, echoes, typed};
ghost use Rattle.plain_laws.specs.Whole.{IsWhole};

use plain_model::TerminalMode;

/// Characters that are typed at a program are shown as they are read, and are stored in their order behind those that are
/// there, where none is control-C or assigned and there is room for all; whoever waits for one runs again, and all else
/// stays. So PBIN, which takes the oldest, reads a line in its order. A carriage return is read as the end of the line,
/// which is shown as carriage return and line feed; each other character is read, and shown, as itself.
pub fn typed_characters_are_stored_in_their_order()
    ensures shown { (s : PlainState) (t : ATty) (j : PlainJob) (text : List ℕ) → IsWhole s → HasJob s t j → j.mode ≡ TerminalMode.Program → All (λ c. is_input j.codes (read_as c) ≡ true) text → length j.input + length text ≤ MOST_STORED
        → (typed s t text).items ≡ echoes t text }
    ensures stored { (s : PlainState) (t : ATty) (j : PlainJob) (c : ℕ) (cs : List ℕ) → IsWhole s → HasJob s t j → j.mode ≡ TerminalMode.Program → All (λ c. is_input j.codes (read_as c) ≡ true) (c ∷ cs) → length j.input + length (c ∷ cs) ≤ MOST_STORED
        → StoresText s (typed s t (c ∷ cs)).state t j (c ∷ cs) }
    ensures input { (old new : PlainState) (t : ATty) (j : PlainJob) (text : List ℕ) → HasJob old t j → StoresText old new t j text → input_at new.jobs t ≡ input_at old.jobs t ++ map read_as text }
    ensures end { (t : ATty) → echo t (read_as CARRIAGE_RETURN) ≡ printed t (CARRIAGE_RETURN ∷ LINE_FEED ∷ []) }
    ensures itself { (t : ATty) (c : ℕ) → c ≢ CARRIAGE_RETURN → c ≢ LINE_END → (read_as c ≡ c) × (echo t (read_as c) ≡ printed t (c ∷ [])) }
{}

/// Control-C always comes through, whatever is stored and whatever the line is: the monitor waits for a command, with an
/// empty line, behind its prompt. Where the forks of the job had read the terminal, the top fork has the freeze mark then,
/// and no fork of the job runs. Nothing else changes.
pub fn control_c_always_comes_through()
    ensures command { (s : PlainState) (t : ATty) (j : PlainJob) → HasJob s t j → j.mode ≡ TerminalMode.Command → typed s t (CONTROL_C ∷ []) ≡ record { state = at_prompt s t j; items = control_c_shown t } }
    ensures program { (s : PlainState) (t : ATty) (j : PlainJob) (f : AFork) → HasJob s t j → j.mode ≡ TerminalMode.Program → map_of.get s.forks j.top ≡ Some f
        → typed s t (CONTROL_C ∷ []) ≡ record { state = at_prompt (with_fork s (with_mark true f)) t j; items = control_c_shown t } }
    ensures stands { (s : PlainState) (t : ATty) (j : PlainJob) (name : AForkName) → IsWhole s → HasJob s t j → j.mode ≡ TerminalMode.Program → name.tty.0 ≡ t.0 → IsRunnable (typed s t (CONTROL_C ∷ [])).state.forks name → ⊥ }
{}
