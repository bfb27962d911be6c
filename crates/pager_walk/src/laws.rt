// What follows from the definitions, in the words of their users. A law does nothing when it runs.
ghost use Rattle.std.specs.Prelude.{◌≡◌, ℕ, ◌<◌, List, Bool, None, Some, map, slice_index};
ghost use Rattle.machine_names.specs.declared.names.Access.{Access as AnAccess};
ghost use Rattle.machine_names.specs.declared.names.ForkName.{ForkName as AForkName};
ghost use Rattle.machine_names.specs.declared.names.Kind.{Kind as AKind};
ghost use Rattle.machine_names.specs.declared.names.Slot.{Slot as ASlot};
ghost use Rattle.plain_pages.specs.Maps.{entry_at, maps_on_way, may, reached};
ghost use Rattle.share_table.specs.declared.pointer.Pointer.TheVariants.{Private, Shared};
ghost use Rattle.share_table.specs.declared.shares.Share.{Share as AShare};
ghost use Rattle.share_table.specs.declared.shares.SharedPage.{SharedPage as ASharedPage};
ghost use Rattle.share_table.specs.Shares.{page_at};
ghost use Rattle.page_contracts.specs.DrumWords.{DrumWords};
ghost use Rattle.page_contracts.specs.Stores.{FitsHomes, HomePlace, content, here, is_taken, place};
ghost use Rattle.pager_walk.specs.declared.chain_walk.Walked.{Walked as AWalked};
ghost use Rattle.pager_walk.specs.declared.chain_walk.Walked.TheVariants.{Absent, NoChain};
ghost use Rattle.pager_walk.specs.MapPages.{fork_at, index_of, root_at};
ghost use Rattle.pager_walk.specs.PagedMaps.{AreRooted, FitsMaps, Tables, entry_for, entry_in, look_at, map_away, maps_over};
ghost use Rattle.pager_walk.specs.Walks.{TellsWalk, allows, entries_found, first_absent, walk_at};

/// A walk tells one thing alone of the plain maps: where a map on the way is in no frame, the first such map;
/// and else what the chain permits, so that a reference is denied exactly where the plain maps forbid it.
pub fn walks_go_by_the_chain()
    ensures absent { (t : Tables) (places : List HomePlace) (d : DrumWords) (s : ASlot) (w : AWalked) (home : ℕ) → TellsWalk t places d s w
        → first_absent (map_away t places) (maps_on_way (entry_at (maps_over t places d)) s) ≡ Some home → w ≡ Absent (record { 0 = home }) }
    ensures permits { (t : Tables) (places : List HomePlace) (d : DrumWords) (s : ASlot) (w : AWalked) (kind : AKind) → TellsWalk t places d s w
        → first_absent (map_away t places) (maps_on_way (entry_at (maps_over t places d)) s) ≡ None → allows kind w ≡ may (entry_at (maps_over t places d)) s kind }
{}

/// Over whatever drum a word that stands for no entry leads nowhere, be it the first to the fourth on the way: a slot
/// has no chain from which such a word is reached by following at most three entries, each of which a look finds, or
/// none, where the word is its own. And no word is read as a name of the page of a fork's map, by its home or by a
/// share.
pub fn refused_words_lead_nowhere()
    ensures word { (t : Tables) (places : List HomePlace) (n : ℕ) (s r : ASlot) (k : ℕ) (words : List ℕ) → n < 4 → reached n (entries_found t places) s ≡ Some r → index_of t.maps r.fork ≡ Some k
        → place places (root_at t.maps k).0 ≡ here words → entry_in t (slice_index words r.page) ≡ None → walk_at t places s ≡ NoChain }
    ensures home { (t : Tables) (taken : List Bool) (k : ℕ) (f : AForkName) (a : AnAccess) → AreRooted t taken → fork_at t.maps k ≡ Some f → entry_for t (Private (root_at t.maps k) a) ≡ None }
    ensures share { (t : Tables) (taken : List Bool) (k : ℕ) (f : AForkName) (a : AnAccess) (s : AShare) (p : ASharedPage) → AreRooted t taken → fork_at t.maps k ≡ Some f
        → page_at t.shares s.0 ≡ Some p → p.home ≡ root_at t.maps k → entry_for t (Shared s a) ≡ None }
{}

/// A map is what the words of its page are, wherever that page is, in a frame or on the drum, and whatever became of
/// every other page: where the words are as before, so is each entry of the fork. And where the page is in a frame
/// as before, or in none as before, a look finds the same over whatever drum. So a map that went to the drum and
/// came back is the same map.
pub fn a_map_is_its_page()
    ensures entries { (t : Tables) (old new : List HomePlace) (d e : DrumWords) (k : ℕ) (s : ASlot) → index_of t.maps s.fork ≡ Some k → content new e (root_at t.maps k).0 ≡ content old d (root_at t.maps k).0
        → entry_at (maps_over t new e) s ≡ entry_at (maps_over t old d) s }
    ensures looks { (t : Tables) (old new : List HomePlace) (k : ℕ) (s : ASlot) → index_of t.maps s.fork ≡ Some k → place new (root_at t.maps k).0 ≡ place old (root_at t.maps k).0 → look_at t new s ≡ look_at t old s }
{}

/// Where pages leave frames and come back with the words that they had, the maps are as they were.
pub fn transfers_change_no_map()
    ensures rooted { (t : Tables) (old new : List HomePlace) → AreRooted t (map is_taken old) → map is_taken new ≡ map is_taken old → AreRooted t (map is_taken new) }
    ensures fits { (t : Tables) (old new : List HomePlace) (d e : DrumWords) → FitsMaps t old d → FitsHomes new e → content new e ≡ content old d → FitsMaps t new e }
    ensures told { (t : Tables) (old new : List HomePlace) (d e : DrumWords) → content new e ≡ content old d → maps_over t new e ≡ maps_over t old d }
{}
