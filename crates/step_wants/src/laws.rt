// What follows from the definitions. A law does nothing when it runs.
ghost use Rattle.std.specs.Prelude.{◌==◌, ◌<◌, ◌≡◌, ◌+◌, ◌*◌, ◌≤◌, ℕ, Option, Some, List, length, true};
ghost use Rattle.std.specs.List.{list_any};
ghost use Rattle.std.specs.Ordering.{nat_cmp};
ghost use Rattle.std.specs.FinMap.{FinMap, contains_key, get};
ghost use Rattle.machine_names.specs.Orders.{FilePage, file_page_cmp, name_cmp};
ghost use Rattle.machine_names.specs.declared.names.ForkName.{ForkName as AForkName};
ghost use Rattle.machine_names.specs.declared.names.PageName.{PageName as APageName};
ghost use Rattle.page_contracts.specs.Pages.{Scene, map_away, page_away};
ghost use Rattle.page_contracts.specs.declared.answers.Need.TheVariants.{Page};
ghost use Rattle.page_contracts.specs.declared.store.TheConstants.{MOST_HELD, MOST_HELD_FOR_CONSOLE};
ghost use Rattle.page_homes.specs.declared.homes.Home.{Home as AHome};
ghost use Rattle.plain_model.proofs.RefiledCalls.{AreFiled, AreHeld, refiled_all};
ghost use Rattle.plain_model.specs.ByteCalls.{ByteTurn};
ghost use Rattle.plain_model.specs.Calls.{Turn, no_files};
ghost use Rattle.plain_model.specs.Families.{Parts};
ghost use Rattle.plain_model.specs.FileCalls.{JfnAsked, Jobs, gtjfn};
ghost use Rattle.plain_model.specs.Forks.{ForkMap};
ghost use Rattle.plain_model.specs.declared.call.ForkChange.{ForkChange as AForkChange};
ghost use Rattle.plain_model.specs.declared.call.InterruptChange.{InterruptChange as AnInterruptChange};
ghost use Rattle.plain_model.specs.declared.call.MapChange.{MapChange as AMapChange};
ghost use Rattle.plain_pages.specs.PlainPages.{NumberedPages, PlainPages};
ghost use Rattle.plain_pages.specs.References.{Spot, in_file, page_at};
ghost use Rattle.plain_units.specs.Instructions.{instruction};
ghost use Rattle.plain_units.specs.Steps.{Progress, Steps, begun, need, stopped};
ghost use Rattle.plain_units.specs.declared.registers.Regs.{Regs as ARegs};
ghost use Rattle.plain_units.specs.declared.unit.TheConstants.{MOST_REFERENCES};
ghost use Rattle.event_deeds.specs.Deeds.{IsTold, Task, deed_of, unit_of};
ghost use Rattle.event_deeds.specs.declared.deed.Deed.{Deed as ADeed};
ghost use Rattle.file_bytes.specs.Turning.{ByteNeeds};
ghost use Rattle.file_calls.specs.Asking.{names_of as names_told};
ghost use Rattle.file_calls.specs.Turning.{TextNeeds};
ghost use Rattle.file_tables.specs.Keys.{key_of, seen_in};
ghost use Rattle.file_tables.specs.Tables.{files_of};
ghost use Rattle.monitor_calls.specs.Reasons.{CallNeeds, UnitNeeds, UnitStops, framed_in};
ghost use Rattle.monitor_calls.specs.declared.row.Last.TheVariants.{Calls};
ghost use Rattle.plain_model.specs.declared.fork.Fork.{Fork as AFork};
ghost use Rattle.file_tables.specs.declared.tables.FileTables.{FileTables as ATables};
ghost use Rattle.fork_tree.specs.Trees.{IsTree};
ghost use Rattle.fork_calls.specs.Needing.{TurnNeeds as ForkNeeds};
ghost use Rattle.ka10_unit.specs.Gathers.{Framed};
ghost use Rattle.ka10_unit.specs.Taking.{run_over};
ghost use Rattle.pmap_calls.specs.Making.{MapNeeds};
ghost use Rattle.psi_calls.specs.Turning.{PsiNeeds};
ghost use Rattle.string_io.specs.Turning.{StringNeeds};
ghost use Rattle.step_wants.specs.Homes.{DeedNeeds, told, wants};
ghost use Rattle.step_wants.specs.Names.{is_named, names_of_steps, names_of_turn, names_on_way, none_at_end};
ghost use Rattle.step_wants.specs.Naming.{AreHomed, AskAgainLast};
ghost use Rattle.step_wants.specs.Wants.{all_referring, first_names, names_of_fork, names_of, names_of_deed, names_of_end, names_of_fork_change, names_of_map_change};

use page_contracts::Pages;

/// The way to a page has at most four maps and one page.
pub fn a_way_has_five_names()
    ensures { (p : NumberedPages) (at : Spot ℕ) → length (names_on_way p at) ≤ 5 }
{}

/// The steps of a unit refer to five for each of their sixteen references at most, and to five more for the one that is asked for again, right before they end.
pub fn steps_refer_to_few()
    ensures steps { (f : AForkName) (steps : Steps) (t : Progress name_cmp) → AskAgainLast steps → length t.refs ≤ MOST_REFERENCES → length (names_of_steps f steps t) + 5 * length t.refs ≤ 5 * MOST_REFERENCES + 5 }
    ensures instructions { (f : AForkName) (regs : ARegs) (p : PlainPages name_cmp) → length (names_of_steps f (instruction regs) (begun p regs.ac)) ≤ 5 * MOST_REFERENCES + 5 }
{}

/// A deed refers to five at most.
pub fn a_deed_refers_to_few()
    ensures { (key_of : List ℕ → ℕ) (v : Parts nat_cmp) (d : ADeed) → length (names_of_deed key_of v d) ≤ 5 }
{}

/// What is in no frame of the maps on a way, and of its page, is the home of one of its names.
pub fn what_is_away_is_named()
    ensures map { (p : NumberedPages) (at : Spot ℕ) (scene : Scene) (map_home : AForkName → Option ℕ) (page_home : APageName → Option ℕ) (home : ℕ)
        → AreHomed map_home page_home scene → map_away p scene at ≡ Some home → is_named map_home page_home (names_on_way p at) home ≡ true }
    ensures page { (p : NumberedPages) (at : Spot ℕ) (scene : Scene) (map_home : AForkName → Option ℕ) (page_home : APageName → Option ℕ) (home : ℕ)
        → AreHomed map_home page_home scene → page_away p scene at ≡ Some home → is_named map_home page_home (names_on_way p at) home ≡ true }
{}

/// Where the steps of a unit need a page or a map first, that is the home of one of their names.
pub fn what_steps_need_is_named()
    ensures { (f : AForkName) (p : Framed) (steps : Steps) (t : Progress nat_cmp) (map_home : AForkName → Option ℕ) (page_home : APageName → Option ℕ) (home : AHome)
        → AreHomed map_home page_home p.scene → run_over f p steps t ≡ stopped (need (Page home)) → is_named map_home page_home (names_of_steps f steps t) home.0 ≡ true }
{}

/// Where the turn of a call needs a page or a map first, that is the home of one of its names: of the calls on bytes, on strings, on pseudo-interrupts and on maps,
/// and of GTJFN, which alone of the calls on JFNs needs anything.
pub fn what_turns_need_is_named()
    ensures bytes { (tables : ATables) (scene : Scene) (p : NumberedPages) (t : ByteTurn) (map_home : AForkName → Option ℕ) (page_home : APageName → Option ℕ) (home : AHome)
        → AreHomed map_home page_home scene → ByteNeeds tables scene p t (Page home) → is_named map_home page_home (names_of_turn (seen_in tables) none_at_end p t) home.0 ≡ true }
    ensures strings { (tables : ATables) (scene : Scene) (p : NumberedPages) (t : ByteTurn) (map_home : AForkName → Option ℕ) (page_home : APageName → Option ℕ) (home : AHome)
        → AreHomed map_home page_home scene → StringNeeds tables scene p t (Page home) → is_named map_home page_home (names_of_turn (seen_in tables) none_at_end p t) home.0 ≡ true }
    ensures interrupts { (scene : Scene) (p : NumberedPages) (t : Turn ⊥ AnInterruptChange) (map_home : AForkName → Option ℕ) (page_home : APageName → Option ℕ) (home : AHome)
        → AreHomed map_home page_home scene → PsiNeeds scene p t (Page home) → is_named map_home page_home (names_of_turn no_files none_at_end p t) home.0 ≡ true }
    ensures maps { (tables : ATables) (scene : Scene) (p : NumberedPages) (t : Turn (List ℕ) AMapChange) (map_home : AForkName → Option ℕ) (page_home : APageName → Option ℕ) (home : AHome)
        → AreHomed map_home page_home scene → MapNeeds tables scene p t (Page home)
        → is_named map_home page_home (names_of_turn (seen_in tables) (names_of_end names_of_map_change) p t) home.0 ≡ true }
    ensures texts { (tables : ATables) (p : Framed) (a : JfnAsked) (map_home : AForkName → Option ℕ) (page_home : APageName → Option ℕ) (home : AHome)
        → AreHomed map_home page_home p.scene → TextNeeds p a (Page home) → is_named map_home page_home (names_of_turn (names_told tables) none_at_end p.pages (gtjfn a)) home.0 ≡ true }
{}

/// Where the turn of a fork call needs a page or a map first, that is the home of one of its names, as long as each fork whose map is in no frame is there.
pub fn what_fork_turns_need_is_named()
    ensures { (p : Framed) (forks : ForkMap) (t : Turn ⊥ AForkChange) (map_home : AForkName → Option ℕ) (page_home : APageName → Option ℕ) (home : AHome)
        → AreHomed map_home page_home p.scene → ((f : AForkName) (h : ℕ) → p.scene.map_away f ≡ Some h → contains_key forks f ≡ true) → ForkNeeds p forks t (Page home)
        → is_named map_home page_home (names_of_turn no_files (names_of_end (names_of_fork_change forks)) p.pages t) home.0 ≡ true }
{}

/// What a task wants are the homes of its names.
pub fn wants_are_named()
    ensures { (key_of : List ℕ → ℕ) (v : Parts nat_cmp) (x : Task) (map_home : AForkName → Option ℕ) (page_home : APageName → Option ℕ) (home : ℕ)
        → list_any (λ h. h == home) (wants map_home page_home key_of v x) ≡ is_named map_home page_home (names_of key_of v x) home }
{}

/// A unit wants fewer homes than may be held for a fork, and a deed fewer than may be held for the console, where the forks are a tree and no map but that of a fork which
/// lives has a home; and the tables alone tell fewer of a deed.
pub fn a_task_wants_few()
    ensures units { (key_of : List ℕ → ℕ) (v : Parts nat_cmp) (f : AForkName) (map_home : AForkName → Option ℕ) (page_home : APageName → Option ℕ)
        → IsTree v.tree → ((g : AForkName) (h : ℕ) → map_home g ≡ Some h → contains_key v.tree.forks g ≡ true) → length (wants map_home page_home key_of v (unit_of f)) < MOST_HELD }
    ensures deeds { (key_of : List ℕ → ℕ) (v : Parts nat_cmp) (d : ADeed) (map_home : AForkName → Option ℕ) (page_home : APageName → Option ℕ)
        → length (wants map_home page_home key_of v (deed_of d)) < MOST_HELD_FOR_CONSOLE }
    ensures told { (key_of : List ℕ → ℕ) (filed : FilePage ℕ → Option APageName) (forks : ForkMap) (jobs : Jobs) (d : ADeed) (map_home : AForkName → Option ℕ) (page_home : APageName → Option ℕ)
        → length (told map_home page_home key_of filed forks jobs d) < MOST_HELD_FOR_CONSOLE }
{}

/// Of a deed but POKE and EXAMINE the tables alone tell all to which it refers.
pub fn the_tables_tell()
    ensures { (key_of : List ℕ → ℕ) (v : Parts nat_cmp) (d : ADeed) (map_home : AForkName → Option ℕ) (page_home : APageName → Option ℕ) → IsTold d
        → wants map_home page_home key_of v (deed_of d) ≡ told map_home page_home key_of (λ at. page_at v.pages (in_file at)) v.tree.forks v.jobs d }
{}

/// Where a deed needs a page or a map first, that is the home of one of its names.
pub fn what_deeds_need_is_named()
    ensures { (key_of : List ℕ → ℕ) (scene : Scene) (v : Parts nat_cmp) (d : ADeed) (map_home : AForkName → Option ℕ) (page_home : APageName → Option ℕ) (home : ℕ)
        → AreHomed map_home page_home scene → DeedNeeds key_of scene v d home → is_named map_home page_home (names_of_deed key_of v d) home ≡ true }
{}

/// Where a unit of a fork that lives needs a page or a map first, that is the home of one of its names; and so where the turn of a call does, by its number. No map but that of a
/// fork which lives has a home, and the files are those of the tables.
pub fn what_units_need_is_named()
    ensures units { (tables : ATables) (scene : Scene) (v : Parts nat_cmp) (f : AFork) (map_home : AForkName → Option ℕ) (page_home : APageName → Option ℕ) (home : AHome)
        → AreHomed map_home page_home scene → ((g : AForkName) (h : ℕ) → map_home g ≡ Some h → contains_key v.tree.forks g ≡ true) → v.files ≡ files_of tables
        → UnitNeeds tables scene v f (Page home) → is_named map_home page_home (names_of_fork (key_of tables) v f) home.0 ≡ true }
    ensures calls { (tables : ATables) (scene : Scene) (v : Parts nat_cmp) (who : AForkName) (regs : ARegs) (number : ℕ) (map_home : AForkName → Option ℕ) (page_home : APageName → Option ℕ) (home : AHome)
        → AreHomed map_home page_home scene → ((g : AForkName) (h : ℕ) → map_home g ≡ Some h → contains_key v.tree.forks g ≡ true) → v.files ≡ files_of tables
        → CallNeeds tables scene v who regs number (Page home) → is_named map_home page_home (first_names (all_referring (key_of tables)) v who regs number) home.0 ≡ true }
{}

/// What is needed first is wanted: by a unit of a fork that lives, by one that is a monitor call whose turn needs it, and by a deed; and what a deed needs first of which the tables
/// tell is among what they tell.
pub fn what_is_needed_is_wanted()
    ensures units { (tables : ATables) (scene : Scene) (v : Parts nat_cmp) (f : AFork) (map_home : AForkName → Option ℕ) (page_home : APageName → Option ℕ) (home : AHome)
        → AreHomed map_home page_home scene → ((g : AForkName) (h : ℕ) → map_home g ≡ Some h → contains_key v.tree.forks g ≡ true) → v.files ≡ files_of tables
        → get v.tree.forks f.name ≡ Some f → UnitNeeds tables scene v f (Page home) → list_any (λ h. h == home.0) (wants map_home page_home (key_of tables) v (unit_of f.name)) ≡ true }
    ensures calls { (tables : ATables) (scene : Scene) (v : Parts nat_cmp) (f : AFork) (number : ℕ) (map_home : AForkName → Option ℕ) (page_home : APageName → Option ℕ) (home : AHome)
        → AreHomed map_home page_home scene → ((g : AForkName) (h : ℕ) → map_home g ≡ Some h → contains_key v.tree.forks g ≡ true) → v.files ≡ files_of tables
        → get v.tree.forks f.name ≡ Some f → UnitStops (framed_in scene v) f (Calls number) → CallNeeds tables scene v f.name f.body.regs number (Page home)
        → list_any (λ h. h == home.0) (wants map_home page_home (key_of tables) v (unit_of f.name)) ≡ true }
    ensures deeds { (key_of : List ℕ → ℕ) (scene : Scene) (v : Parts nat_cmp) (d : ADeed) (map_home : AForkName → Option ℕ) (page_home : APageName → Option ℕ) (home : ℕ)
        → AreHomed map_home page_home scene → DeedNeeds key_of scene v d home → list_any (λ h. h == home) (wants map_home page_home key_of v (deed_of d)) ≡ true }
    ensures told { (key_of : List ℕ → ℕ) (scene : Scene) (v : Parts nat_cmp) (d : ADeed) (map_home : AForkName → Option ℕ) (page_home : APageName → Option ℕ) (home : ℕ)
        → AreHomed map_home page_home scene → IsTold d → DeedNeeds key_of scene v d home
        → list_any (λ h. h == home) (told map_home page_home key_of (λ at. page_at v.pages (in_file at)) v.tree.forks v.jobs d) ≡ true }
{}

/// Of pages of which some are in no frame: what is in no frame stands at its home, and only the map of a fork that lives has a home.
pub fn homes_are_of_pages<P: Pages>()
    ensures homed { (p : P) → AreHomed (P.means.map_home p) (P.means.page_home p) (P.means.scene p) }
    ensures living { (p : P) (f : AForkName) (home : ℕ) → P.means.map_home p f ≡ Some home → P.means.lives p f ≡ true }
{}

/// A unit refers to the same pages and maps, whether files are known by their numbers or by their names: where the files that are there have the same pages under both, and each JFN
/// stands for a file that is there.
pub fn names_are_the_same()
    ensures { (key_of : List ℕ → ℕ) (v : Parts nat_cmp) (filed : FinMap (file_page_cmp name_cmp) APageName) (f : AForkName) → AreFiled nat_cmp name_cmp key_of (λ name. name) v filed → AreHeld v
        → names_of (λ name. name) (refiled_all name_cmp filed v) (unit_of f) ≡ names_of key_of v (unit_of f) }
{}
