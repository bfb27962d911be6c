//! What the definitions of misses come to.
ghost use Rattle.std.specs.Prelude.{◌≡◌, ◌≤◌, ◌+◌, ℕ, List};
ghost use Rattle.machine_names.specs.declared.names.PageName.{PageName as APageName};
ghost use Rattle.page_study.specs.Memories.{lru, window};
ghost use Rattle.page_study.specs.Rows.{one_to_another, three_fetches};

/// A memory of one page more misses no more, and none misses more than a window of as many references.
pub fn larger_memories_miss_no_more()
    ensures larger { (trace : List APageName) (k : ℕ) → lru trace (k + 2) ≤ lru trace (k + 1) }
    ensures below { (trace : List APageName) (k : ℕ) → lru trace (k + 1) ≤ window trace (k + 1) }
{}

/// Three references to one page are one miss for each size, and of ten to two pages, the last but one to the other, a memory of one page and
/// a window of one reference miss three, and larger ones two.
pub fn worked_traces()
    ensures fetches { (lru three_fetches 1 ≡ 1) × (window three_fetches 1 ≡ 1) × (lru three_fetches 8192 ≡ 1) × (window three_fetches 8192 ≡ 1) }
    ensures smallest { (lru one_to_another 1 ≡ 3) × (window one_to_another 1 ≡ 3) }
    ensures larger { (lru one_to_another 2 ≡ 2) × (window one_to_another 2 ≡ 2) × (lru one_to_another 8192 ≡ 2) × (window one_to_another 8192 ≡ 2) }
{}
