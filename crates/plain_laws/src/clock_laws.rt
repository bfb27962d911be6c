// What the definitions of the clock say, in the words of those who use it. A law does nothing when it runs.
ghost use Rattle.std.specs.Prelude.{◌≡◌, ◌≢◌, ◌+◌, ◌%◌, ◌^◌, ◌<◌, ◌≤◌, ℕ, Err, None, Ok, Some, true};
ghost use Rattle.std.specs.FinMap as map;
ghost use Rattle.machine_names.specs.declared.names.ForkName.{ForkName as AForkName};
ghost use Rattle.machine_names.specs.declared.names.TheConstants.{MOST_FORKS};
ghost use Rattle.plain_pages.specs.PlainPages.{NamedPages};
ghost use Rattle.plain_units.specs.Deeds.{in_ac};
ghost use Rattle.script_texts.specs.declared.status.WaitOn.TheVariants as on;
ghost use Rattle.plain_model.specs.declared.call.End.TheVariants.{Refused};
ghost use Rattle.plain_model.specs.declared.call.SleepChange.TheVariants.{Nothing};
ghost use Rattle.plain_model.specs.declared.call.TheConstants.{DISMS, UNITS_A_TICK};
ghost use Rattle.plain_model.specs.declared.fork.Fork.{Fork as AFork};
ghost use Rattle.plain_model.specs.declared.interrupt.Delivery.{Delivery as ADelivery};
ghost use Rattle.plain_model.specs.Calls.{behind_call, no_files, returning, turn_on, with_ac, with_wait};
ghost use Rattle.plain_model.specs.ClockCalls.{ClockAsked, runtm, time, without_moment};
ghost use Rattle.plain_model.specs.ForkCalls.{own_named};
ghost use Rattle.plain_model.specs.Forks.{IsRunnable, is_frozen, with_regs, with_status};
ghost use Rattle.plain_model.specs.Inspections.{delivered};
ghost use Rattle.plain_model.specs.InterruptCalls.{without_level};
ghost use Rattle.plain_model.specs.State.{PlainState};
ghost use Rattle.plain_model.specs.Unit.{unit};
ghost use Rattle.plain_laws.specs.ClockLaws.{CallsNext, SleepsTo, leaving, ticked};
ghost use Rattle.plain_laws.specs.JfnLaws.{Lives};
ghost use Rattle.plain_laws.specs.Whole.{IsWhole};

use script_texts::ForkStatus;

/// A tick awakes exactly those sleepers, of all jobs, whose moment the clock has reached then: each of them runs again, and each
/// other fork is as it was. The clock goes on by one, and nothing else changes.
pub fn ticks_awake_who_is_due()
    ensures due { (s : PlainState) (f : AFork) (moment : ℕ) → IsWhole s → Lives s f → SleepsTo f moment → moment ≤ (ticked s).clock → map.get (ticked s).forks f.name ≡ Some (with_status f ForkStatus.Run) }
    ensures early { (s : PlainState) (f : AFork) (moment : ℕ) → IsWhole s → Lives s f → SleepsTo f moment → (ticked s).clock < moment → map.get (ticked s).forks f.name ≡ Some f }
    ensures others { (s : PlainState) (f : AFork) → IsWhole s → Lives s f → ((moment : ℕ) → SleepsTo f moment → ⊥) → map.get (ticked s).forks f.name ≡ Some f }
    ensures no_more { (s : PlainState) (name : AForkName) → IsWhole s → map.get s.forks name ≡ None → map.get (ticked s).forks name ≡ None }
    ensures rest { (s : PlainState) → ticked s ≡ record s { clock = s.clock + 1; forks = (ticked s).forks } }
{}

/// A sleep is over at its moment, and not before. DISMS begins one to the clock's moment and as many ticks more as it names, and
/// its fork stays on the call; whoever is awoken makes the call again, which sleeps on to the same moment while the clock is
/// before that, and else goes on behind the call, with no sleep. DISMS of 0 goes on at once. Nothing else changes.
pub fn sleeps_are_over_at_their_moment()
    ensures begins { (s : PlainState) (f : AFork) → CallsNext s f DISMS → in_ac f.body.regs 1 ≢ 0 → f.body.sleep ≡ None → unit s f.name ≡ leaving s (with_wait f (on.Sleep (s.clock + in_ac f.body.regs 1))) }
    ensures sleeps_on { (s : PlainState) (f : AFork) (moment : ℕ) → CallsNext s f DISMS → in_ac f.body.regs 1 ≢ 0 → f.body.sleep ≡ Some moment → s.clock < moment → unit s f.name ≡ leaving s (with_wait f (on.Sleep moment)) }
    ensures over { (s : PlainState) (f : AFork) (moment : ℕ) → CallsNext s f DISMS → in_ac f.body.regs 1 ≢ 0 → f.body.sleep ≡ Some moment → moment ≤ s.clock → unit s f.name ≡ leaving s (with_regs (without_moment f) (behind_call f.body.regs)) }
    ensures none { (s : PlainState) (f : AFork) → CallsNext s f DISMS → in_ac f.body.regs 1 ≡ 0 → unit s f.name ≡ leaving s (with_regs f (behind_call f.body.regs)) }
{}

/// A sleep that is interrupted begins anew. A delivery ends the sleep of its fork, and DEBRK, which ends its level, gives none
/// back; so the call to which that returns sleeps for all of its ticks from then on.
pub fn interrupted_sleeps_begin_anew()
    ensures ended { (f : AFork) (d : ADelivery) → (delivered f d).body.sleep ≡ None }
    ensures stays { (f : AFork) (level : ℕ) → (without_level f.body level).sleep ≡ f.body.sleep }
    ensures anew { (s : PlainState) (f g : AFork) (d : ADelivery) → CallsNext s g DISMS → g.body.sleep ≡ (delivered f d).body.sleep → in_ac g.body.regs 1 ≢ 0 → unit s g.name ≡ leaving s (with_wait g (on.Sleep (s.clock + in_ac g.body.regs 1))) }
{}

/// TIME tells the clock in accumulator 1, modulo 2^36, and in accumulator 2 how many of its units a tick has. RUNTM tells in
/// accumulator 1, modulo 2^36, how many units a fork has run, the caller or an inferior; it is refused where it names none.
pub fn the_clock_and_the_units_are_told()
    ensures time { (p : NamedPages) (a : ClockAsked) → (turn_on no_files p (time a)).end ≡ returning Nothing (with_ac (with_ac a.call.regs 1 (a.clock % 2 ^ 36)) 2 UNITS_A_TICK) }
    ensures units { (p : NamedPages) (a : ClockAsked) (f : AFork) → own_named a.call ≡ Ok f → (turn_on no_files p (runtm a)).end ≡ returning Nothing (with_ac a.call.regs 1 (f.body.units % 2 ^ 36)) }
    ensures refused { (p : NamedPages) (a : ClockAsked) (code : ℕ) → own_named a.call ≡ Err code → (turn_on no_files p (runtm a)).end ≡ Refused code }
{}

/// A sleeper that is frozen, by its own mark or one above it, is awoken as any other, and does not run.
pub fn frozen_sleepers_do_not_run()
    ensures { (s : PlainState) (f : AFork) (moment : ℕ) → IsWhole s → Lives s f → SleepsTo f moment → moment ≤ (ticked s).clock → is_frozen MOST_FORKS s.forks (Some f) ≡ true
        → (map.get (ticked s).forks f.name ≡ Some (with_status f ForkStatus.Run)) × (IsRunnable (ticked s).forks f.name → ⊥) }
{}
