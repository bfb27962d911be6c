// Maps that are pages of a store.
ghost use Rattle.std.specs.Prelude.{◌≡◌};
ghost use Rattle.paged_tables.specs.PagedTables.{AreKept, beside_of};
ghost use Rattle.fork_maps.specs.ChainWalks.{copy_for};

use machine_names::{ForkName, Kind, PageName, Place, Slot, Tty};
use outside::{Drum, Memory};
use page_contracts::{Completed, MOST_HOLDERS, Need, Peeked, Room, Seen, Store, Touch};
use page_homes::{FrameId, Home, MOST_HOMES};
use paged_tables::{PageHome, PagedTables};
use pager_walk::{
    FULL_ACCESS, Looked, PagedEntry, Walked, Way, begin, begin_following, entry, make_page, seen,
    set, walk,
};
use plain_pages::NewMap;
use std::alloc::Global;
use word36::Word;

/// The pages of forks and of files over a store, of which the maps of forks are pages too (CACM paper, "The
/// memory management"). A page that has more names than one has a share, which counts them.
#[derive(Drop)]
pub struct SlotPaged<S: Store> {
    pub(crate) store: S,
    pub(crate) tables: PagedTables,
    ghost kept: { AreKept (beside_of tables) (S.means.homes store) },
}

impl<S: Store + Drop> SlotPaged<S> {
    ghost use Rattle.std.specs.Prelude.{◌≡◌, ◌≤◌, false, IfOk, replicate};
    ghost use Rattle.std.specs.Ordering.{nat_cmp};
    ghost use Rattle.machine_names.specs.declared.names.ForkName.{ForkName as AForkName};
    ghost use Rattle.machine_names.specs.declared.names.Tty.{Tty as ATty};
    ghost use Rattle.page_contracts.specs.DrumWords.{DrumWords};
    ghost use Rattle.page_contracts.specs.Stores.{FitsHomes, free};
    ghost use Rattle.flat_tables.specs.Serials.{serial_of};
    ghost use Rattle.plain_pages.specs.PlainPages.{opening_pages};
    ghost use Rattle.paged_tables.specs.PagedTables.{FitsPages, beside_of, plain_over};
    ghost use Rattle.paged_tables.specs.PagedMeaning.{forks_in, lives_in};

    /// No fork and no page, over a store with so many homes, at most 16,384, all of them free: so many pages
    /// and forks may live. Err: no memory.
    pub fn boot(alloc: Global, store: S, pages: u32) -> Result<SlotPaged<S>, Memory>
        requires homes { S.means.homes store ≡ replicate pages free }
        requires pages { pages ≤ MOST_HOMES }
        ensures plain { IfOk result (λ s. (d : DrumWords) → plain_over (beside_of s.tables) (S.means.homes s.store) d ≡ opening_pages nat_cmp pages) }
        ensures fits { IfOk result (λ s. (d : DrumWords) → FitsHomes (replicate pages free) d → FitsPages (beside_of s.tables) (S.means.homes s.store) d) }
        ensures lives { IfOk result (λ s. (f : AForkName) → lives_in (beside_of s.tables) f ≡ false) }
        ensures forks { IfOk result (λ s. (t : ATty) → forks_in (beside_of s.tables) t ≡ 0) }
        ensures serials { IfOk result (λ s. (t : ATty) → serial_of s.tables.serials t ≤ 1) }
        ensures store { IfOk result (λ s. s.store ≡ store) }
    {
        let tables = PagedTables::boot(alloc, pages)?;
        Ok(SlotPaged { store, tables })
    }
}

impl<S: Store> SlotPaged<S> {
    ghost use Rattle.std.specs.Prelude.{◌≡◌, ◌⊎◌, ◌<◌, ◌≤◌, true, Some, None, if◌then◌else◌};
    ghost use Rattle.std.specs.Option.{option_map};
    ghost use Rattle.machine_names.specs.declared.names.Tty.{Tty as ATty};
    ghost use Rattle.machine_names.specs.declared.names.TheConstants.{SPACE_PAGES};
    ghost use Rattle.machine_names.specs.Bounds.{IsOwner};
    ghost use Rattle.page_homes.specs.declared.homes.Home.{Home as AHome};
    ghost use Rattle.page_contracts.specs.DrumWords.{DrumWords};
    ghost use Rattle.page_contracts.specs.Pages.{FollowsPage, IsPlace, PeekNeeds, SeenNeeds, TouchNeeds, absent_or, counted, framed, map_away, peek_of, seen_of, spot_of, touch_of};
    ghost use Rattle.page_contracts.specs.Stores.{away, away_at, is_taken, place, word_in};
    ghost use Rattle.plain_pages.specs.References.{word_at, page_at as named_at};
    ghost use Rattle.pager_walk.specs.PagedMaps.{look_at, seen_for};
    ghost use Rattle.outside.specs.declared.TheConstants.{PAGE_WORDS};
    ghost use Rattle.pager_walk.specs.declared.chain_walk.Walked.TheVariants.{Along};
    ghost use Rattle.pager_walk.specs.Walks.{WayStands};
    ghost use Rattle.paged_tables.specs.PagedTables.{FitsPages, beside_of, plain_over};
    ghost use Rattle.paged_tables.specs.PagedTouches.{alone_at, copy_touched, file_touched, made_touched, roomy, scene_over, touched_over, walk_touched};
    ghost use Rattle.paged_tables.specs.PageHomes.{counted_over, homed_over, peeked_at, peeked_over};
    ghost use Rattle.paged_tables.specs.PagedMeaning.{lives_in};

    // What wants a frame answers so, where none is free.
    fn framed(&self, touch: Touch) -> Touch
        requires { roomy (beside_of self.now.tables) 1 ≡ true }
        ensures { result ≡ framed (scene_over (beside_of self.now.tables) (S.means.homes self.now.store) (S.means.spare self.now.store)) touch }
    {
        match self.store.room(1) {
            Room::Enough => touch,
            _ => Touch::NeedFrame,
        }
    }

    // What is in a frame answers so.
    fn present(&self, home: Home, touch: Touch) -> Touch
        requires { is_taken (place (S.means.homes self.now.store) home.0) ≡ true }
        ensures { result ≡ absent_or (away_at (S.means.homes self.now.store) home.0) touch }
    {
        match self.store.find(home) {
            Some(_) => touch,
            None => Touch::Absent(home),
        }
    }

    // Whether an entry is the only name of its page.
    pub(crate) fn is_alone(&self, at: Slot) -> bool
        requires { at.page < SPACE_PAGES }
        ensures { result ≡ alone_at (beside_of self.now.tables) (S.means.homes self.now.store) at }
    {
        match entry(&self.store, &self.tables.tables, at) {
            Looked::Is(PagedEntry::Page(home, _)) => self.tables.has_one_name(home),
            Looked::Is(PagedEntry::Empty) => false,
            Looked::Is(PagedEntry::Follows(_, _, _)) => false,
            Looked::Absent(_) => false,
            Looked::Missing => false,
            Looked::Refused => false,
        }
    }

    // What a touch answers where a zero page has to be made, and so many pages in all.
    fn blank(&self, pages: u32) -> Touch
        requires { (1 ≤ pages) × (pages ≤ 2) }
        ensures { result ≡ (if roomy (beside_of self.now.tables) pages then framed (scene_over (beside_of self.now.tables) (S.means.homes self.now.store) (S.means.spare self.now.store)) Touch.Zero else Touch.Full) }
    {
        if !self.tables.has_room(pages) {
            return Touch::Full;
        }
        self.framed(Touch::Zero)
    }

    // What a touch answers where a page has to be copied, whose entry names it alone or not.
    fn copied(&self, home: Home, alone: bool) -> Touch
        requires { is_taken (place (S.means.homes self.now.store) home.0) ≡ true }
        ensures { result ≡ copy_touched (beside_of self.now.tables) (scene_over (beside_of self.now.tables) (S.means.homes self.now.store) (S.means.spare self.now.store)) (away_at (S.means.homes self.now.store) home.0) alone }
    {
        if alone {
            return self.present(home, Touch::Copy { sole: true });
        }
        if !self.tables.has_room(1) {
            return Touch::Full;
        }
        let touch = self.framed(Touch::Copy { sole: false });
        self.present(home, touch)
    }

    // What a touch answers that is permitted.
    fn made(&self, home: Option<Home>, alone: Option<bool>) -> Touch
        requires { (h : AHome) → home ≡ Some h → is_taken (place (S.means.homes self.now.store) h.0) ≡ true }
        ensures { result ≡ made_touched (away_at (S.means.homes self.now.store)) (beside_of self.now.tables) (scene_over (beside_of self.now.tables) (S.means.homes self.now.store) (S.means.spare self.now.store)) home alone }
    {
        let Some(home) = home else {
            return if alone.is_none() {
                self.blank(1)
            } else {
                self.blank(2)
            };
        };
        match alone {
            None => self.present(home, Touch::Ready),
            Some(alone) => self.copied(home, alone),
        }
    }

    // Whether the entry is the only name of its page at which a reference makes a copy, if it makes one.
    fn alone_copy(&self, way: Way, kind: Kind) -> Option<bool>
        requires { WayStands (beside_of self.now.tables).tables (S.means.homes self.now.store) way }
        ensures { result ≡ option_map (alone_at (beside_of self.now.tables) (S.means.homes self.now.store)) (copy_for kind way) }
    {
        match way.copy_for(kind) {
            None => None,
            Some(slot) => Some(self.is_alone(slot)),
        }
    }

    // What a touch answers along a chain.
    fn touch_along(&self, way: Way, kind: Kind) -> Touch
        requires { WayStands (beside_of self.now.tables).tables (S.means.homes self.now.store) way }
        ensures { result ≡ walk_touched (beside_of self.now.tables) (S.means.homes self.now.store) (S.means.spare self.now.store) kind (Along way) }
    {
        if !Walked::Along(way).permits(kind) {
            return Touch::Denied(kind);
        }
        self.made(way.home, self.alone_copy(way, kind))
    }

    // What a touch answers of a page of a file, or of none.
    fn touch_filed(&self, home: Option<Home>, kind: Kind) -> Touch
        requires { (h : AHome) → home ≡ Some h → is_taken (place (S.means.homes self.now.store) h.0) ≡ true }
        ensures { result ≡ file_touched (away_at (S.means.homes self.now.store)) (beside_of self.now.tables) (scene_over (beside_of self.now.tables) (S.means.homes self.now.store) (S.means.spare self.now.store)) kind home }
    {
        match home {
            Some(home) => self.present(home, Touch::Ready),
            None => match kind {
                Kind::Read => Touch::Denied(kind),
                Kind::Write => self.blank(1),
                Kind::Execute => Touch::Denied(kind),
            },
        }
    }

    // What a touch answers.
    fn touched(&self, at: Place, kind: Kind) -> Touch
        requires { IsPlace (lives_in (beside_of self.now.tables)) at }
        ensures { result ≡ touched_over (beside_of self.now.tables) (S.means.homes self.now.store) (S.means.spare self.now.store) at kind }
    {
        let slot = match at {
            Place::Fork(slot) => slot,
            Place::File(file, page) => {
                return self.touch_filed(self.tables.filed(file, page), kind);
            }
        };
        match walk(&self.store, &self.tables.tables, slot) {
            Walked::Along(way) => self.touch_along(way, kind),
            Walked::Absent(home) => Touch::Absent(home),
            Walked::NoChain => Touch::Denied(kind),
        }
    }

    /// What a reference of this kind finds, in this order: a map on the way that is in no frame; Denied,
    /// where the map forbids it, or where a file has no such page to read; Full, where a page has to be made
    /// and there is no room; the page, in no frame; a page to be made with no frame for it; a page to be
    /// made; and else Ready. It is the same whoever is to own the page. A word of a map that stands for no
    /// entry is Denied, as is what leads to one.
    pub fn touch(&self, at: Place, kind: Kind) -> Touch
        requires { IsPlace (lives_in (beside_of self.now.tables)) at }
        ensures answer { result ≡ touched_over (beside_of self.now.tables) (S.means.homes self.now.store) (S.means.spare self.now.store) at kind }
        ensures told { (d : DrumWords) (owner : ATty) → FitsPages (beside_of self.now.tables) (S.means.homes self.now.store) d → IsOwner owner
            → result ≡ touch_of (plain_over (beside_of self.now.tables) (S.means.homes self.now.store) d) (scene_over (beside_of self.now.tables) (S.means.homes self.now.store) (S.means.spare self.now.store)) (spot_of at) kind owner }
        ensures needs { TouchNeeds S.means self.now.store result }
    {
        self.touched(at, kind)
    }

    /// Whether a fork lives.
    pub fn lives(&self, fork: ForkName) -> bool
        ensures { result ≡ lives_in (beside_of self.now.tables) fork }
    {
        self.tables.tables.maps.map_of(fork).is_some()
    }

    /// The entry of a slot, in this order: Missing, where no such fork lives; Absent, where its map is in no
    /// frame; and else the entry. A word that stands for no entry is Missing.
    pub fn entry(&self, slot: Slot) -> Seen
        requires { slot.page < SPACE_PAGES }
        ensures answer { result ≡ seen_for (beside_of self.now.tables).tables (look_at (beside_of self.now.tables).tables (S.means.homes self.now.store) slot) }
        ensures told { (d : DrumWords) → FitsPages (beside_of self.now.tables) (S.means.homes self.now.store) d
            → result ≡ seen_of (plain_over (beside_of self.now.tables) (S.means.homes self.now.store) d) (scene_over (beside_of self.now.tables) (S.means.homes self.now.store) (S.means.spare self.now.store)) slot }
        ensures follows { FollowsPage result }
        ensures needs { SeenNeeds S.means self.now.store result }
    {
        seen(&self.store, &self.tables.tables, slot)
    }

    // What is found at the end of the way to the page of a place.
    fn found(&self, at: Place) -> PageHome
        requires { IsPlace (lives_in (beside_of self.now.tables)) at }
        ensures { result ≡ homed_over (beside_of self.now.tables) (S.means.homes self.now.store) at }
    {
        match at {
            Place::Fork(slot) => match walk(&self.store, &self.tables.tables, slot) {
                Walked::Along(way) => PageHome::of(way.home),
                Walked::Absent(home) => PageHome::MapAway(home),
                Walked::NoChain => PageHome::NoPage,
            },
            Place::File(file, page) => PageHome::of(self.tables.filed(file, page)),
        }
    }

    // The home of the page of a place: at the end of its chain, or in its file.
    pub(crate) fn home_of(&self, at: Place) -> PageHome
        requires { IsPlace (lives_in (beside_of self.now.tables)) at }
        ensures answer { result ≡ homed_over (beside_of self.now.tables) (S.means.homes self.now.store) at }
        ensures taken { (h : AHome) → result ≡ PageHome.At h → is_taken (place (S.means.homes self.now.store) h.0) ≡ true }
        ensures away { (h : AHome) → result ≡ PageHome.MapAway h → place (S.means.homes self.now.store) h.0 ≡ away }
    {
        self.found(at)
    }

    // What a look finds at the home of a page.
    fn peek_home(&self, home: Home, offset: u16) -> Peeked
        requires taken { is_taken (place (S.means.homes self.now.store) home.0) ≡ true }
        requires offset { offset < PAGE_WORDS }
        ensures { result ≡ peeked_at (place (S.means.homes self.now.store) home.0) home offset }
    {
        match self.store.word(home, offset) {
            Some(word) => Peeked::Is(word),
            None => Peeked::Absent(home),
        }
    }

    /// The word at an offset of the page of a place, which a touch to read or to execute finds Ready.
    pub fn word(&self, at: Place, offset: u16) -> Word
        requires place { IsPlace (lives_in (beside_of self.now.tables)) at }
        requires offset { offset < PAGE_WORDS }
        requires ready { (touched_over (beside_of self.now.tables) (S.means.homes self.now.store) (S.means.spare self.now.store) at Kind.Read ≡ Touch.Ready)
            ⊎ (touched_over (beside_of self.now.tables) (S.means.homes self.now.store) (S.means.spare self.now.store) at Kind.Execute ≡ Touch.Ready) }
        ensures told { (d : DrumWords) → FitsPages (beside_of self.now.tables) (S.means.homes self.now.store) d
            → result ≡ word_at (plain_over (beside_of self.now.tables) (S.means.homes self.now.store) d) (spot_of at) offset }
        ensures answer { (h : AHome) → homed_over (beside_of self.now.tables) (S.means.homes self.now.store) at ≡ PageHome.At h → word_in (place (S.means.homes self.now.store) h.0) offset ≡ Some result }
    {
        match self.home_of(at) {
            PageHome::At(home) => self.store.word(home, offset).unwrap_or(Word::ZERO),
            PageHome::MapAway(_) => unreachable!(),
            PageHome::NoPage => unreachable!(),
        }
    }

    /// The word at an offset of the page of a place, whatever the access, in this order: a map on the way
    /// that is in no frame; NoPage, where no page is named; the page, in no frame; and else the word.
    pub fn peek(&self, at: Place, offset: u16) -> Peeked
        requires place { IsPlace (lives_in (beside_of self.now.tables)) at }
        requires offset { offset < PAGE_WORDS }
        ensures answer { result ≡ peeked_over (beside_of self.now.tables) (S.means.homes self.now.store) at offset }
        ensures told { (d : DrumWords) → FitsPages (beside_of self.now.tables) (S.means.homes self.now.store) d
            → result ≡ peek_of (plain_over (beside_of self.now.tables) (S.means.homes self.now.store) d) (scene_over (beside_of self.now.tables) (S.means.homes self.now.store) (S.means.spare self.now.store)) (spot_of at) offset }
        ensures needs { PeekNeeds S.means self.now.store result }
    {
        match self.home_of(at) {
            PageHome::At(home) => self.peek_home(home, offset),
            PageHome::MapAway(home) => Peeked::Absent(home),
            PageHome::NoPage => Peeked::NoPage,
        }
    }

    /// The page of a place, whatever the access, with the number of its names in map entries and files, where
    /// the maps on the way are in frames; the page itself may be in none. None exactly where no page is named
    /// there.
    pub fn page_at(&self, at: Place) -> Option<(PageName, u32)>
        requires { IsPlace (lives_in (beside_of self.now.tables)) at }
        ensures answer { result ≡ counted_over (beside_of self.now.tables) (S.means.homes self.now.store) at }
        ensures told { (d : DrumWords) → FitsPages (beside_of self.now.tables) (S.means.homes self.now.store) d
            → map_away (plain_over (beside_of self.now.tables) (S.means.homes self.now.store) d) (scene_over (beside_of self.now.tables) (S.means.homes self.now.store) (S.means.spare self.now.store)) (spot_of at) ≡ None
            → result ≡ counted (plain_over (beside_of self.now.tables) (S.means.homes self.now.store) d) (named_at (plain_over (beside_of self.now.tables) (S.means.homes self.now.store) d) (spot_of at)) }
    {
        match self.home_of(at) {
            PageHome::At(home) => {
                Some((self.tables.tables.name(home), self.tables.names_of(home)))
            }
            PageHome::MapAway(_) => None,
            PageHome::NoPage => None,
        }
    }
}

impl<S: Store> SlotPaged<S> {
    ghost use Rattle.std.specs.Prelude.{◌≡◌, ◌↔◌, ◌+◌, ◌<◌, ◌≤◌, [], false, length, slice_set};
    ghost use Rattle.outside.specs.declared.TheConstants.{PAGE_WORDS};
    ghost use Rattle.page_homes.specs.declared.homes.Home.{Home as AHome};
    ghost use Rattle.page_contracts.specs.DrumWords.{DrumWords, Stands};
    ghost use Rattle.page_contracts.specs.Pages.{IsPlace, room_for, spot_of};
    ghost use Rattle.page_contracts.specs.Stores.{CanFetch, CanKeep, Completes, Evicts, IsFetched, IsUsed, Keeps, LetsGo, Tells, awaited, meeting, most_held, place, with_word_in};
    ghost use Rattle.plain_pages.specs.References.{stored};
    ghost use Rattle.paged_tables.specs.PagedTables.{FitsPages, plain_over};
    ghost use Rattle.paged_tables.specs.PagedTouches.{touched_over};
    ghost use Rattle.paged_tables.specs.PageHomes.{homed_over};
    ghost use Rattle.paged_tables.specs.PagedMeaning.{lives_in};

    /// Puts a word at an offset of the page of a place, which a touch to write finds Ready, and which is used.
    pub fn put(&mut self, at: Place, offset: u16, word: Word)
        requires place { IsPlace (lives_in (beside_of self.old.tables)) at }
        requires offset { offset < PAGE_WORDS }
        requires ready { touched_over (beside_of self.old.tables) (S.means.homes self.old.store) (S.means.spare self.old.store) at Kind.Write ≡ Touch.Ready }
        ensures told { (d : DrumWords) → FitsPages (beside_of self.old.tables) (S.means.homes self.old.store) d
            → FitsPages (beside_of self.new.tables) (S.means.homes self.new.store) d
            × (plain_over (beside_of self.new.tables) (S.means.homes self.new.store) d ≡ stored (plain_over (beside_of self.old.tables) (S.means.homes self.old.store) d) (spot_of at) offset word) }
        ensures used { (h : AHome) → homed_over (beside_of self.old.tables) (S.means.homes self.old.store) at ≡ PageHome.At h → IsUsed S.means h.0 self.old.store self.new.store }
        ensures homes { (h : AHome) → homed_over (beside_of self.old.tables) (S.means.homes self.old.store) at ≡ PageHome.At h
            → S.means.homes self.new.store ≡ slice_set (S.means.homes self.old.store) h.0 (with_word_in (place (S.means.homes self.old.store) h.0) offset word) }
        ensures tables { self.new.tables ≡ self.old.tables }
    {
        match self.home_of(at) {
            PageHome::At(home) => {
                self.store.put(home, offset, word);
            }
            PageHome::MapAway(_) => unreachable!(),
            PageHome::NoPage => unreachable!(),
        }
    }

    /// How many pages and forks there are: the pages that some map entry or file names, and the forks.
    pub fn live(&self) -> u32
        ensures { result ≡ self.now.tables.taken + self.now.tables.living }
    {
        self.tables.taken + self.tables.living
    }

    /// How many pages and forks there may be.
    pub fn limit(&self) -> u32
        ensures { result ≡ self.now.tables.limit }
    {
        self.tables.limit
    }

    /// Full exactly where so many pages or forks more may not live, else NeedFrame exactly where fewer frames
    /// are free.
    pub fn room(&self, pages: u32) -> Room
        ensures answer { result ≡ room_for (self.now.tables.taken + self.now.tables.living) self.now.tables.limit (S.means.spare self.now.store) pages }
        ensures enough { result ≡ Room.Enough → (self.now.tables.taken + self.now.tables.living + pages ≤ self.now.tables.limit) × (pages ≤ S.means.spare self.now.store) }
    {
        if !self.tables.has_room(pages) {
            return Room::Full;
        }
        match self.store.room(pages) {
            Room::Enough => Room::Enough,
            _ => Room::NeedFrame,
        }
    }

    /// Asks for a page or a map that is in no frame, or for a frame, and answers what to wait for, as a store
    /// does.
    pub fn fetch(&mut self, need: Need) -> Need
        requires { CanFetch S.means self.old.store need }
        ensures answer { result ≡ awaited (meeting (S.means.queue self.old.store) (S.means.spare self.old.store) need) }
        ensures fetched { IsFetched S.means need self.old.store self.new.store }
        ensures tables { self.new.tables ≡ self.old.tables }
    {
        self.store.fetch(need)
    }

    /// Ends the oldest transfer, as a store does. Over what the drum holds, no word of a page and no entry of
    /// a map changes; where the drum fails, nothing changes here.
    pub fn complete<D: Drum>(&mut self, drum: &mut D) -> Completed
        requires { self.old.tables.limit ≤ D.size drum.old }
        ensures ends { Completes S.means D.fault_count D.read_count D.write_count D.size result self.old.store self.new.store drum.old drum.new }
        ensures tables { self.new.tables ≡ self.old.tables }
        ensures told { (d : DrumWords) → Stands S.means.flat (D.held drum.old) d → FitsPages (beside_of self.old.tables) (S.means.homes self.old.store) d → (result ≡ Completed.DrumFault → ⊥)
            → (e : DrumWords) × Stands S.means.flat (D.held drum.new) e × FitsPages (beside_of self.new.tables) (S.means.homes self.new.store) e
            × (plain_over (beside_of self.new.tables) (S.means.homes self.new.store) e ≡ plain_over (beside_of self.old.tables) (S.means.homes self.old.store) d) }
    {
        self.store.complete(drum)
    }

    /// Whether a transfer is queued.
    pub fn is_moving(&self) -> bool
        ensures { (result ≡ false) ↔ (S.means.queue self.now.store ≡ []) }
    {
        self.store.is_moving()
    }

    /// What a transfer would have told that was taken from the queue, as a store does.
    pub fn cancelled(&mut self) -> Option<Need>
        ensures tells { Tells S.means result self.old.store self.new.store }
        ensures tables { self.new.tables ≡ self.old.tables }
    {
        self.store.cancelled()
    }

    /// The page of a frame begins to leave it, where there is such a frame and the page may.
    pub fn evict(&mut self, frame: FrameId)
        ensures evicts { Evicts S.means frame.0 self.old.store self.new.store }
        ensures tables { self.new.tables ≡ self.old.tables }
    {
        self.store.evict(frame);
    }

    /// Holds the frame of a home's page for a fork, or for the console, as a store does.
    pub fn keep(&mut self, holder: u16, home: Home)
        requires can { CanKeep S.means self.old.store holder home.0 }
        requires holder { holder < MOST_HOLDERS }
        requires few { length (S.means.holds self.old.store holder) < most_held holder }
        ensures keeps { Keeps S.means holder home.0 self.old.store self.new.store }
        ensures tables { self.new.tables ≡ self.old.tables }
    {
        self.store.keep(holder, home);
    }

    /// How many frames are held for a holder.
    pub fn held(&self, holder: u16) -> u32
        ensures { result ≡ length (S.means.holds self.now.store holder) }
    {
        self.store.held(holder)
    }

    /// Holds nothing for a holder any more.
    pub fn let_go(&mut self, holder: u16)
        ensures lets_go { LetsGo S.means holder self.old.store self.new.store }
        ensures tables { self.new.tables ≡ self.old.tables }
    {
        self.store.let_go(holder);
    }

    /// How many forks may have their pages in core together; 2^32 - 1 where there are no frames.
    pub fn members(&self) -> u32
        ensures { result ≡ S.means.members self.now.store }
    {
        self.store.members()
    }
}

impl<S: Store> SlotPaged<S> {
    ghost use Rattle.std.specs.Prelude.{◌≡◌, ◌+◌, ◌<◌, ◌≤◌, false, None};
    ghost use Rattle.machine_names.specs.declared.names.ForkName.{ForkName as AForkName};
    ghost use Rattle.machine_names.specs.declared.names.TheConstants.{LAST_SERIAL, MOST_FORKS, SPACE_PAGES, TERMINALS};
    ghost use Rattle.machine_names.specs.PageWords.{zero_words};
    ghost use Rattle.page_contracts.specs.DrumWords.{DrumWords};
    ghost use Rattle.page_contracts.specs.Pages.{IsNewMap};
    ghost use Rattle.page_contracts.specs.Stores.{IsMade, here};
    ghost use Rattle.plain_pages.specs.NewMaps.{with_map};
    ghost use Rattle.pager_walk.specs.MapPages.{first_map, fork_at, index_of};
    ghost use Rattle.pager_walk.specs.NewPages.{following_words};
    ghost use Rattle.paged_tables.specs.AddedForks.{AddsFork};
    ghost use Rattle.paged_tables.specs.PagedTables.{FitsPages, beside_of, plain_over};
    ghost use Rattle.paged_tables.specs.PagedMeaning.{forks_in, lives_in, with_fork};

    // A number that no fork's map has, among those of a terminal.
    fn number_for(&self, tty: Tty) -> u32
        requires few { forks_in (beside_of self.now.tables) tty < MOST_FORKS }
        requires terminal { tty.0 < TERMINALS }
        ensures fork { fork_at (beside_of self.now.tables).tables.maps result ≡ None }
        ensures from { first_map tty ≤ result }
        ensures below { result < first_map tty + MOST_FORKS }
    {
        match self.tables.tables.maps.free_number(tty) {
            Some(number) => number,
            None => unreachable!(),
        }
    }

    // A fork begins to live, with an empty map under a number, whose home is answered.
    fn begin_empty(&mut self, number: u32, fork: ForkName) -> Home
        requires room { self.old.tables.taken + self.old.tables.living < self.old.tables.limit }
        requires frame { 0 < S.means.spare self.old.store }
        requires absent { index_of (beside_of self.old.tables).tables.maps fork ≡ None }
        requires number { fork_at (beside_of self.old.tables).tables.maps number ≡ None }
        requires from { first_map fork.tty ≤ number }
        requires below { number < first_map fork.tty + MOST_FORKS }
        requires terminal { fork.tty.0 < TERMINALS }
        ensures made { IsMade S.means result.0 (here zero_words) self.old.store self.new.store }
        ensures tables { beside_of self.new.tables ≡ with_fork (beside_of self.old.tables) number fork result }
        ensures told { (d : DrumWords) → FitsPages (beside_of self.old.tables) (S.means.homes self.old.store) d
            → FitsPages (beside_of self.new.tables) (S.means.homes self.new.store) d
            × (plain_over (beside_of self.new.tables) (S.means.homes self.new.store) d ≡ with_map (plain_over (beside_of self.old.tables) (S.means.homes self.old.store) d) fork NewMap.Empty) }
    {
        let home = begin(&mut self.store, &mut self.tables.tables, number, fork);
        self.tables.living += 1;
        home
    }

    // The same, where each entry of the map follows the same entry of another fork.
    fn begin_following(&mut self, number: u32, fork: ForkName, leader: ForkName) -> Home
        requires room { self.old.tables.taken + self.old.tables.living < self.old.tables.limit }
        requires frame { 0 < S.means.spare self.old.store }
        requires absent { index_of (beside_of self.old.tables).tables.maps fork ≡ None }
        requires number { fork_at (beside_of self.old.tables).tables.maps number ≡ None }
        requires from { first_map fork.tty ≤ number }
        requires below { number < first_map fork.tty + MOST_FORKS }
        requires terminal { fork.tty.0 < TERMINALS }
        requires serial { 1 ≤ leader.serial }
        requires last { leader.serial ≤ LAST_SERIAL }
        ensures made { IsMade S.means result.0 (here (following_words leader.serial SPACE_PAGES)) self.old.store self.new.store }
        ensures tables { beside_of self.new.tables ≡ with_fork (beside_of self.old.tables) number fork result }
        ensures told { (d : DrumWords) → FitsPages (beside_of self.old.tables) (S.means.homes self.old.store) d
            → FitsPages (beside_of self.new.tables) (S.means.homes self.new.store) d
            × (plain_over (beside_of self.new.tables) (S.means.homes self.new.store) d ≡ with_map (plain_over (beside_of self.old.tables) (S.means.homes self.old.store) d) fork (NewMap.FollowAll leader)) }
    {
        let home = begin_following(
            &mut self.store,
            &mut self.tables.tables,
            number,
            fork,
            leader,
        );
        self.tables.living += 1;
        home
    }

    /// Adds a fork with its map, a page in a home and a frame of its own. The map is empty, or each entry of
    /// it follows the same entry of a fork of the same terminal, whose serial is 1 to 262,143.
    pub fn add_fork(&mut self, fork: ForkName, map: NewMap)
        requires room { self.old.tables.taken + self.old.tables.living < self.old.tables.limit }
        requires frame { 0 < S.means.spare self.old.store }
        requires absent { lives_in (beside_of self.old.tables) fork ≡ false }
        requires few { forks_in (beside_of self.old.tables) fork.tty < MOST_FORKS }
        requires terminal { fork.tty.0 < TERMINALS }
        requires map { IsNewMap (lives_in (beside_of self.old.tables)) fork map }
        requires leader { (g : AForkName) → map ≡ NewMap.FollowAll g → (1 ≤ g.serial) × (g.serial ≤ LAST_SERIAL) }
        ensures { AddsFork S.means self.old.store self.new.store (beside_of self.old.tables) (beside_of self.new.tables) fork map }
    {
        let number = self.number_for(fork.tty);
        match map {
            NewMap::Empty => {
                self.begin_empty(number, fork);
            }
            NewMap::FollowAll(leader) => {
                self.begin_following(number, fork, leader);
            }
        }
    }
}
