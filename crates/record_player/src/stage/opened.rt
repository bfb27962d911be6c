// A stage on which nothing was played.
ghost use Rattle.std.specs.Prelude.{◌≡◌, ◌≤◌, IfOk, true};
ghost use Rattle.std.specs.Ordering.{nat_cmp};
ghost use Rattle.machine_names.specs.declared.names.TheConstants.{MOST_FORKS};
ghost use Rattle.machine_names.specs.declared.names.Tty.{Tty as ATty};
ghost use Rattle.page_homes.specs.declared.homes.TheConstants.{MOST_HOMES};
ghost use Rattle.plain_pages.specs.PlainPages.{opening_pages};
ghost use Rattle.page_contracts.specs.DrumWords.{DrumWords};
ghost use Rattle.plain_model.specs.State.{opening};
ghost use Rattle.monitor_core.specs.Systems.{FitsPages, state_of};
ghost use Rattle.record_player.specs.Plays.{StandsFor};

use crate::stage::Stage;
use flat_pages::{FlatSlots, FlatStore};
use monitor_core::System;
use outside::Memory;
use page_contracts::Pages;
use std::alloc::Global;

impl<P: Pages + Drop> Stage<P> {
    // A system in the opening state, over pages that hold no fork and no file.
    fn over(alloc: Global, pages: P) -> Result<Stage<P>, Memory>
        requires flat { P.means.flat ≡ true }
        requires roomy { MOST_FORKS ≤ P.means.most_forks }
        requires forks { (t : ATty) → P.means.forks_of pages t ≡ 0 }
        requires serials { (t : ATty) → P.means.serial pages t ≤ 1 }
        requires opening { (d : DrumWords) → P.means.fits pages d → P.means.plain pages d ≡ opening_pages nat_cmp (P.means.most pages) }
        ensures state { IfOk result (λ m. (d : DrumWords) → P.means.fits pages d → FitsPages m.system d × (state_of m.system d ≡ opening (P.means.most pages))) }
        ensures done { IfOk result (λ m. m.done ≡ 0) }
    {
        let system = System::boot(alloc, pages)?;
        Ok(Stage { system, done: 0 })
    }
}

/// A system in the opening state, over so many pages in memory. Memory, where there was none.
pub fn boot(alloc: Global, pages: u32) -> Result<Stage<FlatSlots<FlatStore>>, Memory>
    requires { pages ≤ MOST_HOMES }
    ensures done { IfOk result (λ m. m.done ≡ 0) }
    ensures opened { IfOk result (λ m. StandsFor m.system pages (opening pages)) }
{
    let store = FlatStore::boot(alloc, pages)?;
    let slots = FlatSlots::boot(alloc, store, pages)?;
    Stage::over(alloc, slots)
}
