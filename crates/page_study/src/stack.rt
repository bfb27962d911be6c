// The references so far, as far as they tell what memories of each size miss (Mattson and others, 1970).
ghost use Rattle.std.specs.Prelude.{◌≡◌, ℕ, ◌+◌, ◌*◌, ◌<◌, ◌≤◌, ◌^◌, List, [], ◌∷◌, ◌++◌, Some, length, slice_index, IfOk};
ghost use Rattle.machine_names.specs.declared.names.PageName.{PageName as APageName};
ghost use Rattle.page_study.specs.Memories.{lru, window};
ghost use Rattle.page_study.specs.Stacks.{room_of, first_counts, tally, IsStackOf};

use crate::latest_pages::LatestPages;
use crate::seats::LastUse;
use machine_names::PageName;
use outside::Memory;
use std::alloc::Global;

/// How many pages the largest memory that is studied may have, and how many references the longest window.
pub const MOST_PAGES: u32 = 8192;

/// How many references may be studied.
pub const MOST_REFERENCES: u64 = 17_592_186_044_416;

/// The pages that were referred to last, each once, and how often a page was found how far away.
#[derive(Drop)]
pub struct Stack {
    latest: LatestPages,
    // How often a page was found behind so many others of these.
    near: Vec<u64>,
    // How often a page was found so many references behind its last one.
    soon: Vec<u64>,
    references: u64,
}

impl Stack {
    /// A stack of no references, for memories and windows of up to so many pages. Memory where there is none for so many.
    pub fn boot(alloc: Global, most: u32) -> Result<Stack, Memory>
        requires { (1 ≤ most) × (most ≤ MOST_PAGES) }
        ensures room { IfOk result (λ s. room_of s ≡ most) }
        ensures empty { IfOk result (λ s. IsStackOf [] s) }
    {
        let room = most as usize;
        Ok(Stack {
            latest: LatestPages::boot(alloc, room)?,
            near: vec![in alloc; 0; room]?,
            soon: vec![in alloc; 0; room]?,
            references: 0,
        })
    }

    /// Takes a reference more.
    pub fn touch(&mut self, page: PageName)
        ghost trace: { List APageName }
        requires of { IsStackOf trace self.old }
        requires few { length trace < MOST_REFERENCES }
        ensures room { room_of self.new ≡ room_of self.old }
        ensures more { IsStackOf (trace ++ page ∷ []) self.new }
    {
        let number = self.references;
        self.references += 1;
        if let Some(found) = self.latest.refer(LastUse { page, number }) {
            count_one(&mut self.near, found.distance);
            count_one(&mut self.soon, number - 1 - found.number);
        }
    }

    /// How many references there were.
    pub fn references(&self) -> u64
        ghost trace: { List APageName }
        requires of { IsStackOf trace self.now }
        ensures { result ≡ length trace }
    {
        self.references
    }

    /// How often a memory of so many pages would have missed, which puts away the page that was referred to least lately.
    pub fn faults(&self, m: u32) -> u64
        ghost trace: { List APageName }
        requires of { IsStackOf trace self.now }
        requires size { (1 ≤ m) × (m ≤ room_of self.now) }
        requires few { length trace < 2 * MOST_REFERENCES }
        ensures { result ≡ lru trace m }
    {
        self.references - first_counts(&self.near, m as usize)
    }

    /// How often a page was none of so many references before it.
    pub fn outside(&self, m: u32) -> u64
        ghost trace: { List APageName }
        requires of { IsStackOf trace self.now }
        requires size { (1 ≤ m) × (m ≤ room_of self.now) }
        requires few { length trace < 2 * MOST_REFERENCES }
        ensures { result ≡ window trace m }
    {
        self.references - first_counts(&self.soon, m as usize)
    }
}

// So many counts together, from the first on.
fn first_counts(counts: &[u64], m: usize) -> u64
    requires room { m ≤ length counts.now }
    requires few { first_counts (slice_index counts.now) m < 2 ^ 64 }
    ensures { result ≡ first_counts (slice_index counts.now) m }
{
    let mut sum = 0;
    for k in 0..m {
        sum += counts[k];
    }
    sum
}

// One more at a place, if there is one.
fn count_one(counts: &mut Vec<u64>, at: u64)
    requires few { (k : ℕ) → slice_index counts.old.items k + 1 < 2 ^ 64 }
    ensures room { length counts.new.items ≡ length counts.old.items }
    ensures more { (k : ℕ) → k < length counts.old.items → slice_index counts.new.items k ≡ slice_index counts.old.items k + tally (Some at) k }
{
    if at < counts.len() as u64 {
        counts[at as usize] += 1;
    }
}
