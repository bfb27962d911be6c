// What the definitions say of the entries that events may have.
ghost use Rattle.std.specs.Prelude.{◌≡◌, ℕ, ◌+◌, List, All, Bool, true};
ghost use Rattle.std.specs.FinMap as map;
ghost use Rattle.script_texts.specs.declared.event.Event.{Event as AEvent};
ghost use Rattle.script_texts.specs.declared.event.Step.{Step as AStep};
ghost use Rattle.plain_model.specs.State.{opening, PlainState};
ghost use Rattle.plain_pages.specs.Room.{live};
ghost use Rattle.plain_laws.specs.Whole.{IsWhole};
ghost use Rattle.plain_model.specs.Run.{IsLegal, apply, plain_run};
ghost use Rattle.script_texts.specs.Follows.{Follows};
ghost use Rattle.script_texts.specs.Limits.{FitsEvent, FitsStep};

/// Events within their limits have entries within theirs, in whatever legal order the forks' units come: each
/// is an event that is one entry, a unit of a fork whose name is a terminal and a serial, 1 to 262,143, or idle.
pub fn entries_fit()
    ensures { (flat : Bool) (limit : ℕ) (events : List AEvent) (entries : List AStep) → All FitsEvent events → (follows : Follows events entries) → IsLegal flat true (opening limit) events entries follows → All FitsStep entries }
{}

/// The opening state is whole, and so is what a step leaves of a whole state; so wherever a run comes, the
/// objects are exactly the pages that are named, a fork lives exactly where it has a map, and so on. There the
/// live pages and forks are as many as there are objects and maps.
pub fn runs_are_whole()
    ensures opening { (limit : ℕ) → IsWhole (opening limit) }
    ensures kept { (s : PlainState) (step : AStep) → IsWhole s → FitsStep step → IsWhole (apply s step).state }
    ensures whole { (flat : Bool) (limit : ℕ) (events : List AEvent) (entries : List AStep) → All FitsEvent events → (follows : Follows events entries) → IsLegal flat true (opening limit) events entries follows → IsWhole (plain_run limit entries).state }
    ensures counted { (s : PlainState) → IsWhole s → live s.pages ≡ map.len s.pages.objects + map.len s.pages.maps }
{}
