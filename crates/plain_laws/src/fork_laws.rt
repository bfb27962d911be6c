// What the definitions of the fork calls say, in the words of those who use them. A law does nothing when it runs.
ghost use Rattle.std.specs.Prelude.{◌≡◌, ◌⊎◌, ◌&&◌, true, false, not, Ok, Some};
ghost use Rattle.std.specs.List.{list_any};
ghost use Rattle.std.specs.FinMap as map;
ghost use Rattle.plain_model.specs.declared.call.TheConstants.{WFORK};
ghost use Rattle.machine_names.specs.declared.names.ForkName.{ForkName as AForkName};
ghost use Rattle.plain_model.specs.declared.fork.Fork.{Fork as AFork};
ghost use Rattle.plain_pages.specs.PlainPages.{NumberedPages};
ghost use Rattle.plain_model.specs.State.{PlainState};
ghost use Rattle.plain_model.specs.Calls.{fork_behind, no_files, returning, turn_on, Asked};
ghost use Rattle.plain_model.specs.Forks.{IsRunnable, runs_in};
ghost use Rattle.plain_model.specs.ForkCalls.{ForkParts, fork_call, fork_changed, has_ended, inferior_named};
ghost use Rattle.plain_laws.specs.ForkLaws.{AreLeft, UnitResumes, waiting};
ghost use Rattle.plain_model.specs.Unit.{unit};
ghost use Rattle.plain_pages.specs.WholePages.{AreWhole};
ghost use Rattle.plain_model.specs.Moves.{moves};
ghost use Rattle.plain_laws.specs.MoveLaws.{starts_it, stops_it};
ghost use Rattle.plain_laws.specs.Whole.{IsWhole};
ghost use Rattle.std.specs.Ordering.{nat_cmp};

use plain_model::call::ForkChange;

/// Who waits for a fork goes on behind the call where that fork has halted or was forced; till then it waits, on
/// the call, which it makes again when it goes on.
pub fn waiters_go_on_when_a_fork_has_ended()
    ensures ended { (p : NumberedPages) (a : Asked) (f : AFork) → inferior_named a ≡ Ok f → has_ended f.body.status ≡ true
        → (turn_on no_files p (fork_call WFORK a)).end ≡ returning ForkChange.Nothing a.regs }
    ensures waits { (p : NumberedPages) (a : Asked) (f : AFork) → inferior_named a ≡ Ok f → has_ended f.body.status ≡ false
        → (turn_on no_files p (fork_call WFORK a)).end ≡ waiting }
    ensures stays { (f : AFork) → (fork_behind f waiting).body.regs ≡ f.body.regs }
{}

/// A fork that is killed, with all below it, takes along the pages that no other map and no file names, and no
/// other; and as many fewer pages and forks live as are gone.
pub fn killed_forks_take_their_pages()
    ensures { (v : ForkParts nat_cmp) (f : AForkName) → AreWhole v.pages → AreLeft v.pages (fork_changed (ForkChange.Kill f) v).pages }
{}

/// A fork with the freeze mark does not run, and keeps the mark until a unit is a fork call that resumes it.
pub fn frozen_forks_run_when_resumed()
    ensures frozen { (s : PlainState) (name : AForkName) (f : AFork) → map.get s.forks name ≡ Some f → f.frozen ≡ true → IsRunnable s.forks name → ⊥ }
    ensures kept { (s : PlainState) (who name : AForkName) (f g : AFork) → IsWhole s → map.get s.forks name ≡ Some f → f.frozen ≡ true
        → map.get (unit s who).state.forks name ≡ Some g → (g.frozen ≡ true) ⊎ UnitResumes s who name }
{}

/// The moves of an act are all that it changes of who can run: a fork starts exactly where it can run afterwards and could
/// not before, and stops exactly where it could and can't any more, or is gone.
pub fn moves_are_who_can_run()
    ensures starts { (before after : PlainState) (f : AForkName) → IsWhole after → list_any (starts_it f) (moves before.forks after.forks) ≡ (runs_in after.forks f && not (runs_in before.forks f)) }
    ensures stops { (before after : PlainState) (f : AForkName) → IsWhole before → list_any (stops_it f) (moves before.forks after.forks) ≡ (runs_in before.forks f && not (runs_in after.forks f)) }
{}
