// What is known of walks.
ghost use Rattle.std.specs.Prelude.{◌≡◌, ◌*◌, ◌+◌, IfOk, length, replicate};
ghost use Rattle.machine_names.specs.declared.names.TheConstants.{SPACE_PAGES};
ghost use Rattle.fork_maps.specs.declared.map_numbers.TheConstants.{MOST_MAPS};
ghost use Rattle.known_slots.specs.WalkTimes.{AreDated, unknown_row};

use machine_names::SPACE_PAGES;
use page_contracts::SpaceHandle;
use page_homes::Home;
use paged_tables::KnownPage;
use pager_walk::MOST_MAPS;
use std::alloc::{AllocError, Global};

/// What a walk came to, and when.
#[derive(Clone, Copy)]
pub struct KnownRow {
    pub page: KnownPage,
    pub since: u64,
}

// Of a page to which no walk led yet.
const UNKNOWN_ROW: KnownRow = KnownRow {
    page: KnownPage {
        home: Home(0),
        reads: false,
        writes: false,
        executes: false,
    },
    since: 0,
};

/// What walks came to, for each page of each space. It is known as long as the time is that at which the walk
/// was made, so that all is forgotten in one step.
#[derive(Drop)]
pub struct KnownWalks {
    rows: Vec<KnownRow>,
    time: u64,
    ghost dated: { AreDated rows.items time },
    ghost sized: { length rows.items ≡ MOST_MAPS * SPACE_PAGES },
}

// Nothing is known of so many pages.
fn unknown_rows(alloc: Global, pages: usize) -> Result<Vec<KnownRow>, AllocError>
    ensures { IfOk result (λ v. v.items ≡ replicate pages unknown_row) }
{
    let mut rows = Vec::with_capacity(alloc, pages)?;
    for _page in 0..pages {
        rows.push(UNKNOWN_ROW)?;
    }
    Ok(rows)
}

// Where the row of a page of a space stands.
#[inline(always)]
fn row_number(space: SpaceHandle, page: u16) -> usize
    ensures { result ≡ space.0 * SPACE_PAGES + page }
{
    space.0 as usize * SPACE_PAGES + page as usize
}

impl KnownWalks {
    ghost use Rattle.std.specs.Prelude.{◌≡◌, ◌⊎◌, ◌<◌, ◌+◌, ◌*◌, ◌-◌, ◌^◌, ℕ, None, Some, IfOk, length};
    ghost use Rattle.paged_tables.specs.declared.known_page.KnownPage.{KnownPage as AKnownPage};
    ghost use Rattle.known_slots.specs.WalkTimes.{known_rows};

    /// Nothing is known.
    pub fn boot(alloc: Global) -> Result<KnownWalks, AllocError>
        ensures { IfOk result (λ k. (space page : ℕ) → known_rows k.rows.items k.time space page ≡ None) }
    {
        let rows = unknown_rows(alloc, MOST_MAPS as usize * SPACE_PAGES)?;
        Ok(KnownWalks { rows, time: 1 })
    }

    /// What is known of a page of a space.
    #[inline(always)]
    pub fn page(&self, space: SpaceHandle, page: u16) -> Option<KnownPage>
        ensures { result ≡ known_rows self.now.rows.items self.now.time space.0 page }
    {
        let number = row_number(space, page);
        if number >= self.rows.len() {
            return None;
        }
        let row = &self.rows[number];
        if row.since != self.time {
            return None;
        }
        Some(row.page)
    }

    /// Nothing is known any more.
    pub fn forget(&mut self)
        ensures { (space page : ℕ) → known_rows self.new.rows.items self.new.time space page ≡ None }
    {
        if self.time < u64::MAX {
            self.time += 1;
        }
    }

    /// A walk has come to this, which is known from now on, and what is known of other pages stays. At the last
    /// time nothing is remembered any more.
    pub fn remember(&mut self, space: SpaceHandle, page: u16, known: KnownPage)
        requires { page < SPACE_PAGES }
        ensures from { (s p : ℕ) (k : AKnownPage) → p < SPACE_PAGES → known_rows self.new.rows.items self.new.time s p ≡ Some k → (known_rows self.old.rows.items self.old.time s p ≡ Some k) ⊎ ((s ≡ space.0) × (p ≡ page) × (k ≡ known)) }
        ensures others { (s p : ℕ) → p < SPACE_PAGES → ((s ≡ space.0) × (p ≡ page) → ⊥) → known_rows self.new.rows.items self.new.time s p ≡ known_rows self.old.rows.items self.old.time s p }
        ensures known { space.0 < MOST_MAPS → self.old.time < 2 ^ 64 - 1 → known_rows self.new.rows.items self.new.time space.0 page ≡ Some known }
    {
        let number = row_number(space, page);
        if number < self.rows.len() && self.time < u64::MAX {
            self.rows[number] = KnownRow {
                page: known,
                since: self.time,
            };
        }
    }
}
