// The pages, the jobs with their forks, the files and the clock.
ghost use Rattle.std.specs.Prelude.{◌≡◌, ◌↔◌, ◌<◌, ◌-◌, ◌≤◌, ◌^◌, ℕ, [], count_by, false, length, true, Err, IfErr, IfOk, OnErr, OnOk, is_some};
ghost use Rattle.std.specs.FinMap as map;
ghost use Rattle.event_deeds.specs.Deeds.{FitsDeed, IsNext, IsTold, Task, deed_of, unit_of};
ghost use Rattle.event_deeds.specs.declared.deed.Deed.{Deed as ADeed};
ghost use Rattle.fork_lists.specs.Ties.{AreTied};
ghost use Rattle.fork_tree.specs.Trees.{IsTree};
ghost use Rattle.job_sched.specs.Schedules.{heads, size};
ghost use Rattle.job_sched.specs.Ties.{WaitsLess};
ghost use Rattle.job_sched.specs.Units.{IsRow, row_ran};
ghost use Rattle.machine_names.specs.Bounds.{IsTerminal};
ghost use Rattle.outside.specs.Faults.{Rose};
ghost use Rattle.page_contracts.specs.DrumWords.{DrumWords};
ghost use Rattle.page_contracts.specs.Stores.{CanFetch, CanKeep, Completes, Evicts, IsFetched, Keeps, LetsGo, Tells, awaited, is_taken, meeting, most_held};
ghost use Rattle.page_contracts.specs.declared.answers.Need.{Need as ANeed};
ghost use Rattle.page_contracts.specs.declared.store.TheConstants.{MOST_HELD_FOR_CONSOLE, MOST_HOLDERS};
ghost use Rattle.page_homes.specs.declared.homes.Home.{Home as AHome};
ghost use Rattle.plain_model.specs.Forks.{IsRunnable};
ghost use Rattle.plain_model.specs.Moves.{moves};
ghost use Rattle.plain_model.specs.Trees.{tree_of};
ghost use Rattle.plain_pages.specs.Room.{live};
ghost use Rattle.script_texts.specs.Taker.{GoesOn, IsCut, StaysOnward};
ghost use Rattle.turn_forms.specs.Turns.{moved};
ghost use Rattle.page_waits.specs.Placed.{AreOnDrum};
ghost use Rattle.page_waits.specs.Seats.{has};
ghost use Rattle.page_waits.specs.Systems.{DidDeed, DidUnits, FitsShowing, IsHoused, Needs, StaysOver, StaysState, StaysTold, SystemMeaning, most_wanted};

use event_deeds::{Answer, Deed, Showing};
use fork_lists::ForkLists;
use fork_tree::Tree;
use machine_names::{ForkName, Tty};
use outside::{Drum, Failed};
use page_contracts::{Completed, Need};
use page_homes::{FrameId, Home};
use script_texts::Taker;
use step_shown::Progress;

/// A system of which a part is in core: a unit or a deed is done whole, and the lists follow its forks; or it needs something first.
pub trait System {
    /// What the clauses below say of these systems.
    ghost means: { SystemMeaning Self };

    /// The forks of all jobs.
    fn forks(&self) -> &Tree
        ensures forks { result.now ≡ means.tree self.now }
        ensures trees { IsTree (means.tree self.now) };

    /// Units of the head of the lists, which can run, in a row, at least one and so many at most: all of these units but the last are counted, and then
    /// the lists follow the forks. Err: the first needs this first, and nothing has changed.
    fn units(&mut self, lists: &mut ForkLists, who: ForkName, most: u32) -> Result<Progress, Need>
        requires can { IsRunnable (means.tree self.old).forks who }
        requires head { heads who lists.old.sched.ready ≡ true }
        requires row { IsRow most lists.old.sched }
        requires some { 1 ≤ most }
        requires tied { AreTied (means.tree self.old).forks lists.old }
        requires within { means.within self.old (2 ^ 52) }
        ensures did { IfOk result (DidUnits means who self.old self.new) }
        ensures some { IfOk result (λ done. 1 ≤ done.count) }
        ensures few { IfOk result (λ done. done.count ≤ most) }
        ensures moved { IfOk result (λ done. lists.new.sched ≡ moved (moves (means.tree self.old).forks (means.tree self.new).forks) (row_ran (done.count - 1) lists.old.sched)) }
        ensures tied { IfOk result (λ done. AreTied (means.tree self.new).forks lists.new) }
        ensures waits { IfOk result (λ done. WaitsLess lists.old.sched.waiting lists.new.sched.waiting) }
        ensures set { size lists.new.sched ≡ size lists.old.sched }
        ensures needs { IfErr result (Needs means (unit_of who) self.old self.new) }
        ensures stays { IfErr result (λ need. lists.new ≡ lists.old) };

    /// A deed: the lists follow the forks. Err: it needs this first, and nothing has changed; a part of a character needs no frame.
    fn deed(&mut self, lists: &mut ForkLists, deed: &Deed) -> Result<Answer, Need>
        requires fits { FitsDeed deed.now }
        requires tied { AreTied (means.tree self.old).forks lists.old }
        requires within { means.within self.old (2 ^ 52) }
        ensures did { IfOk result (DidDeed means deed.now self.old self.new) }
        ensures moved { IfOk result (λ answer. lists.new.sched ≡ moved (moves (means.tree self.old).forks (means.tree self.new).forks) lists.old.sched) }
        ensures tied { IfOk result (λ answer. AreTied (means.tree self.new).forks lists.new) }
        ensures waits { IfOk result (λ answer. WaitsLess lists.old.sched.waiting lists.new.sched.waiting) }
        ensures set { size lists.new.sched ≡ size lists.old.sched }
        ensures needs { IfErr result (Needs means (deed_of deed.now) self.old self.new) }
        ensures told { (home : AHome) → IsTold deed.now → result ≡ Err (ANeed.Page home) → has home.0 (means.told self.old deed.now) ≡ true }
        ensures unframed { IsNext deed.now → result ≡ Err ANeed.Frame → ⊥ }
        ensures stays { IfErr result (λ need. lists.new ≡ lists.old) };

    /// Asks for a page that is in no frame, or for a frame, and answers what to wait for.
    fn fetch(&mut self, need: Need) -> Need
        requires { CanFetch means.store self.old need }
        ensures answer { result ≡ awaited (meeting (means.store.queue self.old) (means.store.spare self.old) need) }
        ensures fetched { IsFetched means.store need self.old self.new }
        ensures state { StaysState means self.old self.new };

    /// Ends the oldest transfer.
    fn complete<D: Drum>(&mut self, drum: &mut D) -> Completed
        requires { means.limit self.old ≤ D.size drum.old }
        ensures ends { Completes means.store D.fault_count D.read_count D.write_count D.size result self.old self.new drum.old drum.new }
        ensures told { StaysTold means self.old self.new }
        ensures over { (result ≡ Completed.DrumFault → ⊥) → StaysOver means D.held self.old self.new drum.old drum.new };

    /// Whether a transfer is queued.
    fn is_moving(&self) -> bool
        ensures { (result ≡ false) ↔ (means.store.queue self.now ≡ []) };

    /// What a transfer would have told that was taken from the queue.
    fn cancelled(&mut self) -> Option<Need>
        ensures tells { Tells means.store result self.old self.new }
        ensures state { StaysState means self.old self.new };

    /// The page of a frame begins to leave it, where there is such a frame and the page may.
    fn evict(&mut self, frame: FrameId)
        ensures evicts { Evicts means.store frame.0 self.old self.new }
        ensures state { StaysState means self.old self.new };

    /// Holds the frame of a home's page for a seat of the balance set, or for the console.
    fn keep(&mut self, holder: u16, home: Home)
        requires can { CanKeep means.store self.old holder home.0 }
        requires holder { holder < MOST_HOLDERS }
        requires few { length (means.store.holds self.old holder) < most_held holder }
        ensures keeps { Keeps means.store holder home.0 self.old self.new }
        ensures state { StaysState means self.old self.new };

    /// How many frames are held for a seat, or for the console.
    fn held(&self, holder: u16) -> u32
        ensures { result ≡ length (means.store.holds self.now holder) };

    /// Holds nothing for a seat any more, or for the console.
    fn let_go(&mut self, holder: u16)
        ensures lets_go { LetsGo means.store holder self.old self.new }
        ensures state { StaysState means self.old self.new };

    /// Whether a terminal has a job.
    fn has_job(&self, t: Tty) -> bool
        requires { IsTerminal t }
        ensures { (d : DrumWords) → means.fits self.now d → result ≡ is_some (map.get (means.plain self.now d).jobs t.0) };

    /// Gives what was shown to a taker, item by item, over each drum over which it can be given. Fails only where its count of faults rises.
    fn give<T: Taker>(&self, what: &Showing, out: &mut T) -> Result<(), Failed>
        requires fits { FitsShowing what.now }
        ensures later { T.fault_count out.old ≤ T.fault_count out.new }
        ensures cause { OnErr result (Rose (T.fault_count out.old) (T.fault_count out.new)) }
        ensures onward { StaysOnward T.onward out.old out.new }
        ensures ok { OnOk result ((d : DrumWords) → means.fits self.now d → means.gives self.now d what.now → GoesOn T.stands out.old out.new (means.items (means.plain self.now d) what.now) []) }
        ensures err { OnErr result ((d : DrumWords) → means.fits self.now d → means.gives self.now d what.now → IsCut T.stands T.cut out.old out.new (means.items (means.plain self.now d) what.now) []) };

    /// What holds of each system: its store.
    ghost housed: { (s : Self) → IsHoused means.store s };

    /// Over each drum that fits, the forks and the serials are those that are told without it.
    ghost forked: { (s : Self) (d : DrumWords) → means.fits s d → tree_of (means.plain s d) ≡ means.tree s };

    /// Of few pages and maps the tables tell that a deed refers to them.
    ghost told_few: { (s : Self) (deed : ADeed) → length (means.told s deed) < MOST_HELD_FOR_CONSOLE };

    /// Over each drum that fits, no more homes are taken than pages and forks live.
    ghost lives: { (s : Self) (d : DrumWords) → means.fits s d → count_by is_taken (means.store.homes s) ≤ live (means.plain s d).pages };

    /// Over each drum that fits, all pages that live but as many as there are frames stand on the drum.
    ghost placed: { (s : Self) (d : DrumWords) → means.store.flat ≡ false → means.fits s d → AreOnDrum (means.store.frames s) (means.plain s d) d };

    /// A task refers to fewer than so many pages and maps.
    ghost wants_few: { (s : Self) (d : DrumWords) (x : Task) → means.fits s d → length (means.wants s d x) < most_wanted x };
}
