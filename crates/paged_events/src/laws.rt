// What follows from the definitions. A law does nothing when it runs.
ghost use Rattle.std.specs.Prelude.{◌≡◌, ◌≤◌, ◌++◌, ◌∷◌, List, length, true};
ghost use Rattle.job_sched.specs.Lines.{ahead_of};
ghost use Rattle.job_sched.specs.Schedules.{Schedule, heads};
ghost use Rattle.machine_names.specs.declared.names.ForkName.{ForkName as AForkName};
ghost use Rattle.page_waits.specs.Told.{MovesSilently};
ghost use Rattle.plain_model.specs.Passing.{IsPassedOver};
ghost use Rattle.plain_model.specs.Run.{state_after};
ghost use Rattle.plain_model.specs.State.{PlainState};
ghost use Rattle.script_texts.specs.Follows.{AreTurns};
ghost use Rattle.script_texts.specs.declared.event.Step.{Step as AStep};
ghost use Rattle.paged_events.specs.Turns.{AreCalmOver, TakesTurnsOver};

/// A unit is of the head, as the lists are behind what happens silently before it; and turns that are taken in two parts, by one event and the next, are taken as a whole.
pub fn turns_over_frames_are_of_the_head()
    ensures head { (c c' : Schedule) (s : PlainState) (f : AForkName) (xs : List AStep) → TakesTurnsOver c s (AStep.Unit f ∷ xs) c' → (begun : Schedule) × MovesSilently c begun × (heads f begun.ready ≡ true) }
    ensures joins { (c d e : Schedule) (s : PlainState) (xs ys : List AStep) → TakesTurnsOver c s xs d → TakesTurnsOver d (state_after s xs) ys e → TakesTurnsOver c s (xs ++ ys) e }
{}

/// Turns of a run by which no transfer can be seen pass a fork over that can run at most as often as units of others may come before it is the head: a quantum for each
/// fork before it. So over as many RUN lines as there are.
pub fn calm_turns_over_frames_pass_nobody_over()
    ensures { (f : AForkName) (c c' : Schedule) (s : PlainState) (xs : List AStep) (turns : TakesTurnsOver c s xs c') → AreCalmOver c s xs c' turns → AreTurns xs → IsPassedOver f s xs → length xs ≤ ahead_of f c }
{}
