// A transfer ends.
ghost use Rattle.std.specs.Prelude.{◌≡◌, ◌+◌, ◌≤◌, ◌∷◌, ℕ, [], None, drop, map, if◌then◌else◌};
ghost use Rattle.outside.specs.Faults.{Rose};
ghost use Rattle.event_deeds.specs.declared.deed.Deed.{Deed as ADeed};
ghost use Rattle.page_contracts.specs.declared.answers.Need.{Need as ANeed};
ghost use Rattle.std.specs.Prelude.{Option as AnOption};
ghost use Rattle.page_waits.specs.Acts.{Quiet, told_work};
ghost use Rattle.page_waits.specs.Transfers.{Moved, MovesAtMost};
ghost use Rattle.plain_model.specs.Forks.{ForkMap as AForkMap};
ghost use Rattle.fork_lists.specs.Ties.{AreTied};
ghost use Rattle.job_sched.specs.Schedules.{arrived};
ghost use Rattle.page_contracts.specs.Stores.{most_held, need_of};
ghost use Rattle.page_contracts.specs.declared.store.TheConstants.{CONSOLE_HOLDER};
ghost use Rattle.page_waits.specs.Holding.{comes_for, held_with};
ghost use Rattle.page_waits.specs.Waits.{AreAwaited, AreStanding, the_lists, waits_with, woken};

use crate::System;
use crate::head::wake;
use crate::waking::hold_needed;
use fork_lists::ForkLists;
use outside::Drum;
use page_contracts::{Completed, Need};

/// Ends the oldest transfer: a page that came is held for each seat that waits for it, and for a deed of the console that does; and who waits is ready.
pub fn complete<S: System, D: Drum>(
    system: &mut S,
    lists: &mut ForkLists,
    console: Option<Need>,
    drum: &mut D,
) -> Completed
    requires drum { S.means.limit system.old ≤ D.size drum.old }
    requires standing { AreStanding S.means the_lists system.old lists.old }
    requires awaited { AreAwaited S.means (waits_with console (the_lists.waiting lists.old)) system.old }
    ensures standing { AreStanding S.means the_lists system.new lists.new }
    ensures awaited { (n : ANeed) → result ≡ Completed.Done n → AreAwaited S.means (waits_with (woken n console) (the_lists.waiting lists.new)) system.new }
    ensures later { D.fault_count drum.old ≤ D.fault_count drum.new }
    ensures cause { result ≡ Completed.DrumFault → Rose (D.fault_count drum.old) (D.fault_count drum.new) }
    ensures size { D.size drum.new ≡ D.size drum.old }
    ensures done { (n : ANeed) (x : AnOption ADeed) → result ≡ Completed.Done n → Quiet S.means the_lists D.held x console (woken n console) 1 system.old system.new lists.old lists.new drum.old drum.new }
    ensures fewer { (n : ANeed) (x : ADeed) → result ≡ Completed.Done n → told_work S.means the_lists x (woken n console) system.new lists.new + 1 ≤ told_work S.means the_lists x console system.old lists.old }
    ensures told { (n : ANeed) → result ≡ Completed.Done n → lists.new.sched ≡ arrived lists.old.sched n }
    ensures oldest { (n : ANeed) → result ≡ Completed.Done n → S.means.store.queue system.new ≡ drop 1 (S.means.store.queue system.old) }
    ensures seated { the_lists.member lists.new ≡ the_lists.member lists.old }
    ensures moved { (n : ANeed) → result ≡ Completed.Done n → Moved (record { reads = D.read_count; writes = D.write_count }) 1 drum.old drum.new }
    ensures reads { D.read_count drum.old ≤ D.read_count drum.new }
    ensures writes { D.write_count drum.old ≤ D.write_count drum.new }
    ensures bounded { MovesAtMost (record { reads = D.read_count; writes = D.write_count }) 1 drum.old drum.new }
    ensures stays { result ≡ Completed.Nothing → drum.new ≡ drum.old }
    ensures system { result ≡ Completed.Nothing → system.new ≡ system.old }
    ensures tied { (forks : AForkMap) → AreTied forks lists.old → AreTied forks lists.new }
    ensures tree { S.means.tree system.new ≡ S.means.tree system.old }
    ensures within { (n : ℕ) → S.means.within system.old n → S.means.within system.new n }
    ensures bare { console ≡ None → S.means.store.holds system.old CONSOLE_HOLDER ≡ [] → S.means.store.holds system.new CONSOLE_HOLDER ≡ [] }
    ensures nothing { result ≡ Completed.Nothing → S.means.store.queue system.old ≡ [] }
    ensures empty { S.means.store.queue system.old ≡ [] → result ≡ Completed.Nothing }
    ensures lists { result ≡ Completed.Nothing → lists.new ≡ lists.old }
    ensures limit { S.means.limit system.new ≡ S.means.limit system.old }
    ensures frames { S.means.store.frames system.new ≡ S.means.store.frames system.old }
    ensures tells { (n : ANeed) → result ≡ Completed.Done n → map need_of (S.means.store.queue system.old) ≡ n ∷ map need_of (S.means.store.queue system.new) }
    ensures holds { (n : ANeed) (k : ℕ) → result ≡ Completed.Done n → S.means.store.holds system.new k ≡ (if comes_for n (waits_with console (the_lists.waiting lists.old) k) then held_with (most_held k) n (S.means.store.holds system.old k) else S.means.store.holds system.old k) }
{
    lists.sound();
    match system.complete(drum) {
        Completed::Done(need) => {
            hold_needed(system, lists, console, need);
            wake(lists, need);
            Completed::Done(need)
        }
        Completed::Nothing => Completed::Nothing,
        Completed::DrumFault => Completed::DrumFault,
    }
}
