// A machine with nothing in it, over pages of which a part is in core.
ghost use Rattle.std.specs.Prelude.{◌≡◌, ◌≤◌, ℕ, [], IfOk, false, true};
ghost use Rattle.std.specs.Ordering.{nat_cmp};
ghost use Rattle.job_sched.specs.Schedules.{empty};
ghost use Rattle.machine_names.specs.declared.names.TheConstants.{MOST_FORKS};
ghost use Rattle.machine_names.specs.declared.names.Tty.{Tty as ATty};
ghost use Rattle.monitor_core.specs.Systems.{IsWithin};
ghost use Rattle.page_contracts.specs.DrumWords.{DrumWords};
ghost use Rattle.page_contracts.specs.Stores.{away, place};
ghost use Rattle.plain_model.specs.State.{opening};
ghost use Rattle.plain_pages.specs.PlainPages.{opening_pages};
ghost use Rattle.page_waits.specs.InCore.{IsInCore};
ghost use Rattle.page_waits.specs.Machines.{Fits, IsBare, auto, limit, plain};
ghost use Rattle.page_waits.specs.Seats.{UNHELD_FRAMES};
ghost use Rattle.paged_system.specs.Paging.{paged};

use crate::paged::Paged;
use fork_lists::ForkLists;
use monitor_core::System;
use outside::Memory;
use page_contracts::Pages;
use page_waits::Machine;
use std::alloc::Global;

/// A machine over pages that hold no fork and no file, all of them in core, in the opening state, with so many members of the balance set at most. Where there
/// are frames, there are 32 at least. Memory, where none was found.
pub fn boot<P: Pages + Drop>(alloc: Global, set: u32, pages: P) -> Result<Machine<Paged<P>>, Memory>
    requires roomy { MOST_FORKS ≤ P.means.most_forks }
    requires forks { (t : ATty) → P.means.forks_of pages t ≡ 0 }
    requires serials { (t : ATty) → P.means.serial pages t ≤ 1 }
    requires opening { (d : DrumWords) → P.means.fits pages d → P.means.plain pages d ≡ opening_pages nat_cmp (P.means.most pages) }
    requires many { P.means.store.flat ≡ false → UNHELD_FRAMES ≤ P.means.store.frames pages }
    requires here { (home : ℕ) → place (P.means.store.homes pages) home ≡ away → ⊥ }
    requires still { P.means.store.queue pages ≡ [] }
    requires told { P.means.store.untold pages ≡ [] }
    requires bare { (holder : ℕ) → P.means.store.holds pages holder ≡ [] }
    requires low { 1 ≤ set }
    requires high { set ≤ 63 }
    requires members { set ≤ P.means.store.members pages }
    ensures state { IfOk result (λ m. (d : DrumWords) → P.means.fits pages d → Fits m d × (plain m d ≡ opening (P.means.most pages))) }
    ensures limit { IfOk result (λ m. limit m ≡ P.means.most pages) }
    ensures auto { IfOk result (λ m. auto m ≡ true) }
    ensures bare { IfOk result IsBare }
    ensures within { IfOk result (λ m. (entries : ℕ) → IsWithin m.system.system entries) }
    ensures pages { IfOk result (λ m. m.system.system.pages ≡ pages) }
    ensures lists { IfOk result (λ m. m.lists.sched ≡ empty set) }
    ensures core { IfOk result (λ m. IsInCore paged (P.means.store.frames pages) m.system m.lists) }
{
    let system = System::boot(alloc, pages)?;
    let lists = ForkLists::boot(alloc, set)?;
    let paged = Paged::new(system);
    Ok(Machine::new(paged, lists))
}
