// What follows for pages under maps that are pages, in the words of their users. A law does nothing when it runs.
ghost use Rattle.std.specs.Prelude.{◌≡◌, ℕ, List, None, Some};
ghost use Rattle.machine_names.specs.declared.names.Kind.{Kind as AKind};
ghost use Rattle.machine_names.specs.declared.names.PageName.{PageName as APageName};
ghost use Rattle.machine_names.specs.declared.names.Place.TheVariants.{Fork};
ghost use Rattle.machine_names.specs.declared.names.Slot.{Slot as ASlot};
ghost use Rattle.page_contracts.specs.declared.answers.Touch.TheVariants.{Denied};
ghost use Rattle.page_contracts.specs.DrumWords.{DrumWords};
ghost use Rattle.page_contracts.specs.Stores.{HomePlace};
ghost use Rattle.plain_pages.specs.Room.{uses};
ghost use Rattle.share_table.specs.declared.shares.SharedPage.{SharedPage as ASharedPage};
ghost use Rattle.share_table.specs.Shares.{page_at};
ghost use Rattle.pager_walk.specs.declared.chain_walk.Walked.TheVariants.{NoChain};
ghost use Rattle.pager_walk.specs.PagedMaps.{name_at};
ghost use Rattle.pager_walk.specs.Walks.{walk_at};
ghost use Rattle.paged_tables.specs.declared.page_home.PageHome.TheVariants.{NoPage};
ghost use Rattle.paged_tables.specs.ExactCounts.{AreTold, CountsExactly};
ghost use Rattle.paged_tables.specs.NameCounts.{share_at};
ghost use Rattle.paged_tables.specs.PageHomes.{homed_over};
ghost use Rattle.paged_tables.specs.PagedTables.{Beside, plain_over};
ghost use Rattle.paged_tables.specs.PagedTouches.{names_at, touched_over};

/// Over each drum that fits, the number of names that the tables keep of a page is the number of map entries and pages
/// of files that name it: what its share counts, and one where it has no share. A page that has no home is named nowhere.
pub fn counts_are_exact()
    ensures names { (b : Beside) (places : List HomePlace) (d : DrumWords) (home : ℕ) (n : APageName) → AreTold b places d → name_at b.tables.names home ≡ Some n → names_at b home ≡ uses (plain_over b places d) n }
    ensures shares { (b : Beside) (places : List HomePlace) (d : DrumWords) (s : ℕ) (p : ASharedPage) → AreTold b places d → page_at b.tables.shares s ≡ Some p → CountsExactly b places d p }
    ensures alone { (b : Beside) (places : List HomePlace) (d : DrumWords) (home : ℕ) (n : APageName) → AreTold b places d → name_at b.tables.names home ≡ Some n → share_at b.shared home ≡ None → uses (plain_over b places d) n ≡ 1 }
    ensures gone { (b : Beside) (places : List HomePlace) (d : DrumWords) (n : APageName) → AreTold b places d → ((home : ℕ) → name_at b.tables.names home ≡ Some n → ⊥) → uses (plain_over b places d) n ≡ 0 }
{}

/// A reference along no chain is denied, whatever its kind and whatever is in frames; and no page is found there.
pub fn references_without_a_chain_are_denied()
    ensures denied { (b : Beside) (places : List HomePlace) (frames : ℕ) (s : ASlot) (kind : AKind) → walk_at b.tables places s ≡ NoChain → touched_over b places frames (Fork s) kind ≡ Denied kind }
    ensures nowhere { (b : Beside) (places : List HomePlace) (s : ASlot) → walk_at b.tables places s ≡ NoChain → homed_over b places (Fork s) ≡ NoPage }
{}
