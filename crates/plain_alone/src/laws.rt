// What the definitions say of a terminal among others, in the words of those who use them. A law does nothing when it runs.
ghost use Rattle.std.specs.Prelude.{◌≡◌, ◌≢◌, ◌≤◌, ℕ, Bool, true, [], List, All, None};
ghost use Rattle.std.specs.FinMap as map;
ghost use Rattle.machine_names.specs.Orders.{name_cmp};
ghost use Rattle.machine_names.specs.declared.names.ForkName.{ForkName as AForkName};
ghost use Rattle.machine_names.specs.declared.names.Kind.{Kind as AKind};
ghost use Rattle.machine_names.specs.declared.names.TheConstants.{MOST_FILES};
ghost use Rattle.machine_names.specs.declared.names.Tty.{Tty as ATty};
ghost use Rattle.script_texts.specs.declared.event.Event.{Event as AnEvent};
ghost use Rattle.script_texts.specs.declared.event.Step.{Step as AStep};
ghost use Rattle.plain_pages.specs.PlainPages.{NamedPages};
ghost use Rattle.plain_pages.specs.References.{Spot, full, reference};
ghost use Rattle.plain_units.specs.declared.registers.Regs.{Regs as ARegs};
ghost use Rattle.plain_model.specs.declared.call.TheConstants.{DISMS, GTJFN, TIME};
ghost use Rattle.plain_model.specs.declared.fork.Fork.{Fork as AFork};
ghost use Rattle.plain_model.specs.Families.{Parts};
ghost use Rattle.plain_model.specs.Unit.{parts_of, unit};
ghost use Rattle.plain_laws.specs.JfnLaws.{AsksFor};
ghost use Rattle.plain_laws.specs.Whole.{IsWhole};
ghost use Rattle.plain_alone.specs.Looks.{is_used};
ghost use Rattle.plain_alone.specs.Notes.{call_notes, event_notes, unmade_at};
ghost use Rattle.script_texts.specs.Limits.{FitsStep};
ghost use Rattle.plain_model.specs.Run.{AreLegal, items_of};
ghost use Rattle.plain_model.specs.State.{PlainState, opening};
ghost use Rattle.plain_alone.specs.Alone.{AllSeeTheirOwn};
ghost use Rattle.plain_alone.specs.Apart.{CanRun, IsApart};
ghost use Rattle.plain_alone.specs.Busy.{IsBusy};
ghost use Rattle.plain_alone.specs.Parts.{IsOwnOrIdle, shown};

/// A terminal that is apart in a run sees its own work alone: its part of the entries can be run by itself, and shows
/// the terminal what the whole run shows it. The last states are alike for it, but that the pages which WORDS made
/// have other serials.
pub fn terminals_see_their_own_work_alone()
    ensures { (limit : ℕ) (entries : List AStep) → All FitsStep entries → CanRun (opening limit) entries → AllSeeTheirOwn limit entries }
{}

/// Entries that are legal where they stand can be run, under either AUTO mark.
pub fn legal_entries_can_be_run()
    ensures { (auto : Bool) (s : PlainState) (entries : List AStep) → AreLegal auto s entries → CanRun s entries }
{}

/// Where all entries of a run are of one terminal, or idle, all that the run shows is shown there, and nothing at another
/// terminal.
pub fn one_terminal_is_shown_all()
    ensures there { (t : ATty) (limit : ℕ) (entries : List AStep) → All FitsStep entries → All (IsOwnOrIdle t) entries → shown t (items_of (opening limit) entries) ≡ items_of (opening limit) entries }
    ensures elsewhere { (t u : ATty) (limit : ℕ) (entries : List AStep) → u.0 ≢ t.0 → All FitsStep entries → All (IsOwnOrIdle t) entries → shown u (items_of (opening limit) entries) ≡ [] }
{}

/// No unit changes a fork of another job, or its map: neither what it does itself, nor a call, nor what is told of a
/// fork that ends.
pub fn units_leave_other_jobs()
    ensures forks { (s : PlainState) (who name : AForkName) → IsWhole s → (name.tty.0 ≡ who.tty.0 → ⊥)
        → map.get (unit s who).state.forks name ≡ map.get s.forks name }
    ensures maps { (s : PlainState) (who name : AForkName) → IsWhole s → (name.tty.0 ≡ who.tty.0 → ⊥)
        → map.get (unit s who).state.pages.maps name ≡ map.get s.pages.maps name }
{}

/// Jobs whose forks loop in their accumulators are apart from there on, however many there are, however many units each
/// does, and in whatever order.
pub fn busy_jobs_are_apart()
    ensures { (t : ATty) (used : List ℕ → Bool) (s : PlainState) (entries : List AStep) → All (IsBusy s) entries → IsApart t used s entries }
{}

/// What breaks a premise is noted where it comes: there is a page for which there was no room exactly where a reference
/// is answered by Full; TIME and DISMS ask for the clock; and the limit of files stops a FILE of a new name.
pub fn what_breaks_a_premise_is_noted()
    ensures full { (p : NamedPages) (at : Spot (List ℕ)) (kind : AKind) (owner : ATty) → reference p at kind owner ≡ full → unmade_at p at kind owner ≢ [] }
    ensures room { (p : NamedPages) (at : Spot (List ℕ)) (kind : AKind) (owner : ATty) → (reference p at kind owner ≡ full → ⊥) → unmade_at p at kind owner ≡ [] }
    ensures time { (v : Parts name_cmp) (who : AForkName) (regs : ARegs) → (let n = call_notes v who regs TIME in n.timed ≡ true) }
    ensures sleep { (v : Parts name_cmp) (who : AForkName) (regs : ARegs) → (let n = call_notes v who regs DISMS in n.timed ≡ true) }
    ensures files { (s : PlainState) (name : List ℕ) → map.get s.files name ≡ None → MOST_FILES ≤ map.len s.files → (let n = event_notes s (AnEvent.File name) in n.crowded ≡ true) }
{}

/// GTJFN uses the name that its text reads as, whether or not a JFN is free.
pub fn names_that_are_read_are_used()
    ensures { (s : PlainState) (f : AFork) (name : List ℕ) (q : NamedPages) → AsksFor s f name q → (let n = call_notes (parts_of s) f.name f.body.regs GTJFN in is_used n.looks name ≡ true) }
{}
