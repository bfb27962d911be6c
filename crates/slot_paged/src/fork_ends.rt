// Forks that end.
ghost use Rattle.std.specs.Prelude.{◌≡◌};

use crate::slot_paged::SlotPaged;
use machine_names::{ForkName, SPACE_PAGES, Slot};
use page_contracts::Store;
use pager_walk::{Looked, PagedEntry, end, entry};
use share_table::Pointer;

impl<S: Store> SlotPaged<S> {
    ghost use Rattle.std.specs.Prelude.{◌≡◌, ◌<◌, None, Some, true};
    ghost use Rattle.machine_names.specs.declared.names.TheConstants.{SPACE_PAGES};
    ghost use Rattle.page_contracts.specs.Stores.{IsFreed};
    ghost use Rattle.pager_walk.specs.MapPages.{index_of, root_at};
    ghost use Rattle.pager_walk.specs.PagedMaps.{look_at, map_away};
    ghost use Rattle.paged_tables.specs.EndedForks.{EmptiesFork, fork_gone};
    ghost use Rattle.paged_tables.specs.FreedEntries.{EndsFork, FreesEntries};
    ghost use Rattle.paged_tables.specs.PagedMeaning.{lives_in};
    ghost use Rattle.paged_tables.specs.PagedTables.{beside_of};

    // Each entry of a fork's map is emptied. Pages that lose their last name are given up.
    fn empty_map(&mut self, fork: ForkName)
        requires lives { lives_in (beside_of self.old.tables) fork ≡ true }
        requires near { map_away (beside_of self.old.tables).tables (S.means.homes self.old.store) fork ≡ None }
        ensures empties { EmptiesFork S.means self.old.store self.new.store (beside_of self.old.tables) (beside_of self.new.tables) fork SPACE_PAGES }
        ensures frees { FreesEntries S.means self.old.store self.new.store (beside_of self.old.tables) (beside_of self.new.tables) fork SPACE_PAGES }
    {
        for page in 0..SPACE_PAGES as u16 {
            let at = Slot { fork, page };
            if self.is_empty(at) {
                continue;
            }
            self.set_unnamed(at, Pointer::Empty);
        }
    }

    // Whether the entry of a slot is empty. Most are where a fork ends, and these are left as they are.
    #[inline(always)]
    fn is_empty(&self, at: Slot) -> bool
        requires page { at.page < SPACE_PAGES }
        ensures { result ≡ true → look_at (beside_of self.now.tables).tables (S.means.homes self.now.store) at ≡ Looked.Is PagedEntry.Empty }
    {
        matches!(
            entry(&self.store, &self.tables.tables, at),
            Looked::Is(PagedEntry::Empty)
        )
    }

    // A fork's map goes, and its home is free.
    fn end_map(&mut self, fork: ForkName, number: u32)
        requires number { index_of (beside_of self.old.tables).tables.maps fork ≡ Some number }
        ensures freed { IsFreed S.means (root_at (beside_of self.old.tables).tables.maps number).0 self.old.store self.new.store }
        ensures beside { beside_of self.new.tables ≡ fork_gone (beside_of self.old.tables) number }
    {
        end(&mut self.store, &mut self.tables.tables, number, fork);
        self.tables.living -= 1;
    }

    /// Drops a fork with its map, which is in a frame. Pages that lose their last name are dropped.
    pub fn drop_fork(&mut self, fork: ForkName)
        requires lives { lives_in (beside_of self.old.tables) fork ≡ true }
        requires seen { map_away (beside_of self.old.tables).tables (S.means.homes self.old.store) fork ≡ None }
        ensures { EndsFork S.means self.old.store self.new.store (beside_of self.old.tables) (beside_of self.new.tables) fork }
    {
        let Some(number) = self.tables.tables.maps.map_of(fork) else {
            unreachable!()
        };
        self.empty_map(fork);
        self.end_map(fork, number);
    }
}
