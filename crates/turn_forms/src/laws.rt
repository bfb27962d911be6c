// What follows from the definitions. A law does nothing when it runs.
ghost use Rattle.std.specs.Prelude.{◌≡◌, ◌≢◌, ◌≤◌, ℕ, List, ◌∷◌, ◌++◌, length, Bool, true, Some};
ghost use Rattle.std.specs.FinMap as map;
ghost use Rattle.fork_lists.specs.Following.{followed, followed_all, started_if, stopped_if};
ghost use Rattle.fork_lists.specs.Seeing.{all_jobs};
ghost use Rattle.fork_lists.specs.Ties.{AreTied, CanFollowMaker};
ghost use Rattle.fork_lists.specs.declared.lists.ForkLists.{ForkLists as ALists};
ghost use Rattle.fork_tree.specs.Making.{last_name};
ghost use Rattle.fork_tree.specs.Trees.{AreSlotted, IsTree};
ghost use Rattle.job_sched.specs.Lines.{ahead_of};
ghost use Rattle.job_sched.specs.Schedules.{Schedule, heads};
ghost use Rattle.job_sched.specs.Ties.{AreListed};
ghost use Rattle.machine_names.specs.declared.names.ForkName.{ForkName as AForkName};
ghost use Rattle.machine_names.specs.declared.names.Tty.{Tty as ATty};
ghost use Rattle.machine_names.specs.Bounds.{IsTerminal};
ghost use Rattle.plain_model.specs.Forks.{ForkMap, runs_in};
ghost use Rattle.plain_model.specs.Moves.{Move, moves, waits_in};
ghost use Rattle.plain_model.specs.Passing.{IsPassedOver};
ghost use Rattle.plain_model.specs.Run.{state_after};
ghost use Rattle.plain_model.specs.State.{PlainState};
ghost use Rattle.plain_model.specs.Trees.{PlainTree};
ghost use Rattle.script_texts.specs.Follows.{AreTurns};
ghost use Rattle.script_texts.specs.declared.event.Step.{Step as AStep};
ghost use Rattle.turn_forms.specs.Turns.{AreCalm, KeepSlots, Silent, TakesTurns, moved, moved_silently, runs_behind};

/// A unit is of the head, as the lists are behind what happens before it. Where the forks that stand are those that can run, they are so
/// behind moves, and behind waits and arrivals. And turns that are taken in two parts are taken as a whole.
pub fn turns_are_of_the_head()
    ensures head { (c c' : Schedule) (s : PlainState) (f : AForkName) (xs : List AStep) → TakesTurns c s (AStep.Unit f ∷ xs) c' → (quiet : List Silent) × (heads f (moved_silently quiet c).ready ≡ true) }
    ensures listed { (runs : AForkName → Bool) (ms : List Move) (c : Schedule) → AreListed runs c → AreListed (runs_behind ms runs) (moved ms c) }
    ensures waits { (runs : AForkName → Bool) (quiet : List Silent) (c : Schedule) → AreListed runs c → AreListed runs (moved_silently quiet c) }
    ensures joins { (c d e : Schedule) (s : PlainState) (xs ys : List AStep) → TakesTurns c s xs d → TakesTurns d (state_after s xs) ys e → TakesTurns c s (xs ++ ys) e }
{}

/// Turns of a run between which nothing waits and nothing arrives pass a fork over that can run at most as often as units of others may come
/// before it is the head: a quantum for each fork before it. So over as many RUN lines as there are.
pub fn calm_turns_pass_nobody_over()
    ensures { (f : AForkName) (c c' : Schedule) (s : PlainState) (xs : List AStep) (turns : TakesTurns c s xs c') → AreCalm c s xs c' turns → AreTurns xs → IsPassedOver f s xs → length xs ≤ ahead_of f c }
{}

/// Following is moving: the lists that follow what forks have come to are those behind the moves from the forks before to the forks after.
/// So where the forks of one job alone have changed, each in its slot; where one fork alone can run no more; where besides one may have been
/// made; and where forks of all jobs start that waited for no fork, and nobody stops.
pub fn following_is_moving()
    ensures job { (before after : ForkMap) (t : ATty) (l : ALists) → AreSlotted before → AreSlotted after → IsTerminal t → AreTied before l → KeepSlots before after
        → ((f : AForkName) → f.tty.0 ≢ t.0 → runs_in after f ≡ runs_in before f) → followed after l.seen.items t l.sched ≡ moved (moves before after) l.sched }
    ensures own { (before after : ForkMap) (who : AForkName) (l : ALists) → AreSlotted before → AreSlotted after → AreTied before l → runs_in before who ≡ true
        → ((f : AForkName) → f ≢ who → runs_in after f ≡ runs_in before f) → stopped_if after (Some who) l.sched ≡ moved (moves before after) l.sched }
    ensures made { (now : PlainTree) (who : AForkName) (slot : ℕ) (l : ALists) → IsTree now → (can : CanFollowMaker now who slot l)
        → started_if now.forks (λ f. true) (map.get now.forks (last_name now who.tty)) (stopped_if now.forks (Some who) l.sched) ≡ moved (moves can.old.forks now.forks) l.sched }
    ensures all { (before after : ForkMap) (l : ALists) → AreSlotted before → AreSlotted after → AreTied before l → KeepSlots before after
        → ((f : AForkName) → runs_in before f ≡ true → runs_in after f ≡ true) → ((f : AForkName) → waits_in before f ≡ true → runs_in after f ≡ true → runs_in before f ≡ true)
        → followed_all after l.seen.items l.sched all_jobs ≡ moved (moves before after) l.sched }
{}
