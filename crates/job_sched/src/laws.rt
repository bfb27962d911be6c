// What follows from the definitions, in the words of their users. A law does nothing when it runs.
ghost use Rattle.std.specs.Prelude.{◌≡◌, ℕ, ◌+◌, ◌*◌, ◌%◌, ◌<◌, ◌≤◌, ◌↔◌, List, [], Bool, true, false, Some, length, map, slice_get};
ghost use Rattle.std.specs.Option.{option_map};
ghost use Rattle.machine_names.specs.declared.names.ForkName.{ForkName as AForkName};
ghost use Rattle.machine_names.specs.declared.names.TheConstants.{MOST_FORKS, TERMINALS, QUANTUM};
ghost use Rattle.machine_names.specs.Orders.{same_fork};
ghost use Rattle.page_contracts.specs.declared.answers.Need.{Need as ANeed};
ghost use Rattle.job_sched.specs.Schedules.{Schedule, arrived, count, heads, size, stands, started, stopped, waited};
ghost use Rattle.job_sched.specs.Ties.{AreApart, AreListed, IsFilled, IsSound, with_fork, with_outside, without_fork};
ghost use Rattle.job_sched.specs.Units.{IsAlone, IsRow, IsTimed, row_ran};
ghost use Rattle.job_sched.specs.Lines.{Nears, ahead_of, is_in_line, line};
ghost use Rattle.job_sched.specs.Turns.{Deed, StaysInLine, StaysReady, choices, is_chosen};

/// A fork that stays in the ready list is chosen within a quantum for itself and one for each fork before it, whatever
/// else is done. Where no fork is in page wait, the same holds of its place in the ready list and the outside list
/// behind that.
pub fn no_ready_fork_is_passed_over()
    ensures ready { (f : AForkName) (p : ℕ) (s : Schedule) (ds : List Deed) → IsTimed s → slice_get (map (λ m. m.fork) s.ready) p ≡ Some f
        → StaysReady f s ds → QUANTUM * (p + 1) ≤ choices s ds → is_chosen f s ds ≡ true }
    ensures outside { (f : AForkName) (p : ℕ) (s : Schedule) (ds : List Deed) → IsTimed s → slice_get (line s) p ≡ Some f
        → StaysInLine f s ds → QUANTUM * (p + 1) ≤ choices s ds → is_chosen f s ds ≡ true }
{}

/// While others run, a fork in line comes closer. So many units in a row of another fork bring it closer by as many; a page
/// wait of another, and a head that stops, by one at least; and who starts, who stops, and what arrives, where no fork is in
/// page wait, let it go no farther back. What joins these brings it closer by the sum. Nothing is left exactly where it is
/// the head; what is left is less than a quantum for each fork that there may be, and at most one for each fork before it.
/// So a fork in line is the head once a quantum for each fork before it has passed.
pub fn a_fork_in_line_comes_closer()
    ensures rows { (f : AForkName) (s : Schedule) (n : ℕ) → IsTimed s → is_in_line f s ≡ true → heads f s.ready ≡ false → IsRow n s → Nears f s (row_ran n s) n }
    ensures waits { (f : AForkName) (s : Schedule) (need : ANeed) → IsTimed s → is_in_line f s ≡ true → heads f s.ready ≡ false → 0 < length s.ready
        → Nears f s (waited s need) 1 }
    ensures starts { (f g : AForkName) (s : Schedule) → IsTimed s → is_in_line f s ≡ true → Nears f s (started s g) 0 }
    ensures stops { (f g : AForkName) (s : Schedule) → IsTimed s → is_in_line f s ≡ true → same_fork g f ≡ false → Nears f s (stopped s g) 0 }
    ensures gives { (f g : AForkName) (s : Schedule) → IsTimed s → is_in_line f s ≡ true → same_fork g f ≡ false → heads g s.ready ≡ true → Nears f s (stopped s g) 1 }
    ensures arrives { (f : AForkName) (s : Schedule) (there : ANeed) → IsTimed s → is_in_line f s ≡ true → s.waiting ≡ [] → Nears f s (arrived s there) 0 }
    ensures begins { (f : AForkName) (s : Schedule) → IsTimed s → is_in_line f s ≡ true → Nears f s s 0 }
    ensures joins { (f : AForkName) (s t u : Schedule) (n m : ℕ) → Nears f s t n → Nears f t u m → Nears f s u (n + m) }
    ensures due { (f : AForkName) (s : Schedule) → IsTimed s → 0 < length s.ready → (ahead_of f s ≡ 0) ↔ (heads f s.ready ≡ true) }
    ensures few { (f : AForkName) (s : Schedule) → IsSound s → is_in_line f s ≡ true → ahead_of f s < QUANTUM * (TERMINALS * MOST_FORKS) }
    ensures placed { (f : AForkName) (s : Schedule) (p : ℕ) → slice_get (line s) p ≡ Some f → ahead_of f s ≤ QUANTUM * p }
    ensures passed { (f : AForkName) (s t : Schedule) (p n : ℕ) → slice_get (line s) p ≡ Some f → Nears f s t n → n ≤ QUANTUM * p }
{}

/// The units of a row are all of the fork that is the head before it; one unit is a row, and so are fewer units than those
/// of a row; two rows are one of as many units; and a fork that is alone stays where it is, however many units it runs.
pub fn a_row_is_of_one_fork()
    ensures head { (n k : ℕ) (s : Schedule) → IsTimed s → IsRow n s → k < n → slice_get (row_ran k s).ready 0 ≡ slice_get s.ready 0 }
    ensures one { (s : Schedule) → IsTimed s → 0 < length s.ready → IsRow 1 s }
    ensures fewer { (n m : ℕ) (s : Schedule) → IsRow m s → n ≤ m → IsRow n s }
    ensures joins { (n m : ℕ) (s : Schedule) → row_ran m (row_ran n s) ≡ row_ran (n + m) s }
    ensures alone { (n : ℕ) (s : Schedule) → IsTimed s → IsAlone s → row_ran n s ≡ record s { used = (s.used + n) % QUANTUM } }
{}

/// The head stays the head, with what it has run of its quantum, where a fork starts, and where another one stops.
pub fn the_head_stays()
    ensures starts { (s : Schedule) (f : AForkName) → 0 < length s.ready → (slice_get (started s f).ready 0 ≡ slice_get s.ready 0) × ((started s f).used ≡ s.used) }
    ensures stops { (s : Schedule) (f : AForkName) → 0 < length s.ready → heads f s.ready ≡ false
        → (slice_get (stopped s f).ready 0 ≡ slice_get s.ready 0) × ((stopped s f).used ≡ s.used) }
{}

/// The lists follow the forks that can run: where these are the forks that stand in a list or in page wait, so they are
/// still once a fork more can run and is started, once one can't and is stopped, and behind units, page waits and their
/// ends. So whom `choose` answers can run; and where it answers none, no fork is in page wait and the set is filled, none
/// can.
pub fn lists_follow_the_forks()
    ensures enters { (runs : AForkName → Bool) (s : Schedule) (f : AForkName) → AreListed runs s → AreListed (with_fork runs f) (started s f) }
    ensures leaves { (runs : AForkName → Bool) (s : Schedule) (f : AForkName) → AreListed runs s → AreListed (without_fork runs f) (stopped s f) }
    ensures filled { (s : Schedule) (f : AForkName) → IsFilled (started s f) × IsFilled (stopped s f) }
    ensures rows { (runs : AForkName → Bool) (s : Schedule) (n : ℕ) → AreListed runs s → AreListed runs (row_ran n s) }
    ensures waits { (runs : AForkName → Bool) (s : Schedule) (need : ANeed) → AreListed runs s → AreListed runs (waited s need) }
    ensures arrives { (runs : AForkName → Bool) (s : Schedule) (there : ANeed) → AreListed runs s → AreListed runs (arrived s there) }
    ensures stays_filled { (s : Schedule) (n : ℕ) (need : ANeed) → IsFilled s → IsFilled (row_ran n s) × IsFilled (waited s need) × IsFilled (arrived s need) }
    ensures chosen { (runs : AForkName → Bool) (s : Schedule) (f : AForkName) → AreListed runs s
        → option_map (λ m. m.fork) (slice_get s.ready 0) ≡ Some f → runs f ≡ true }
    ensures idle { (runs : AForkName → Bool) (s : Schedule) (f : AForkName) → AreListed runs s → IsFilled s → 1 ≤ size s → s.ready ≡ [] → s.waiting ≡ []
        → runs f ≡ false }
{}

/// Where each fork that stands has a number below a bound and no two have the same, there is room for one more that has. So
/// there is where the forks that stand are those that can run, and these have such numbers.
pub fn a_fork_more_has_room()
    ensures stands { (number : AForkName → ℕ) (n : ℕ) (s : Schedule) (f : AForkName) → AreApart s
        → ((g : AForkName) → stands g (with_outside s f) ≡ true → number g < n)
        → ((g h : AForkName) → stands g (with_outside s f) ≡ true → stands h (with_outside s f) ≡ true → number g ≡ number h → g ≡ h)
        → stands f s ≡ false → count s < n }
    ensures listed { (runs : AForkName → Bool) (number : AForkName → ℕ) (n : ℕ) (s : Schedule) (f : AForkName) → AreListed runs s → AreApart s
        → ((g : AForkName) → with_fork runs f g ≡ true → number g < n)
        → ((g h : AForkName) → with_fork runs f g ≡ true → with_fork runs f h ≡ true → number g ≡ number h → g ≡ h)
        → runs f ≡ false → count s < n }
{}
