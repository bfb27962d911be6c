// The pages of all forks.
ghost use Rattle.std.specs.Prelude.{◌≡◌, ◌⊎◌, ◌≢◌, ◌↔◌, ◌<◌, ◌≤◌, ◌+◌, ◌/◌, ◌%◌, ◌^◌, ℕ, Bool, true, false, not, ◌||◌, ◌&&◌, None, Some, IsSome, IfSome, length, []};
ghost use Rattle.machine_names.specs.declared.names.ForkName.{ForkName as AForkName};
ghost use Rattle.machine_names.specs.declared.names.Tty.{Tty as ATty};
ghost use Rattle.machine_names.specs.declared.names.TheConstants.{MOST_FILES, SPACE_PAGES, TERMINALS};
ghost use Rattle.plain_pages.specs.declared.map.MapEntry.{MapEntry as AMapEntry};
ghost use Rattle.outside.specs.declared.TheConstants.{PAGE_WORDS};
ghost use Rattle.machine_names.specs.Bounds.{IsAddress, IsFilePage, IsOwner};
ghost use Rattle.page_contracts.specs.DrumWords.{DrumWords, Stands};
ghost use Rattle.plain_pages.specs.References.{in_map, slot_at, word_at, stored, page_at as named_at};
ghost use Rattle.page_contracts.specs.Stores.{IsFetched, IsUsed, CanFetch, Completes, Tells, Evicts, CanKeep, Keeps, LetsGo, awaited, meeting, most_held};
ghost use Rattle.plain_pages.specs.WholePages.{AreWhole};
ghost use Rattle.page_contracts.specs.Pages.{PagesMeaning, Agrees, AreHoused, AreThere, HasSpace, MayLose, OnlyUses, PeekNeeds, SeenNeeds, StandsAt, TouchNeeds, StaysPut, StaysMapped, StaysPlain, StaysSame, IsPlace, IsTouched, IsReady, CanChange, IsNewMap, MapFollowsFork, FollowsFork, FollowsPage, spot_of, touch_of, peek_of, seen_of, map_away, counted, room_for, can_settle, is_in_core, is_seen, is_entry, is_seen_entry, IsOfFilePage, StaysAlike};
ghost use Rattle.plain_pages.specs.NewEntries.{IsNewEntry};
ghost use Rattle.machine_names.specs.Orders.{file_page};
ghost use Rattle.page_contracts.specs.Changes.{EntrySet, FileDropped, FilePageSet, ForkAdded, ForkDropped, PageSettled};
ghost use Rattle.page_homes.specs.declared.homes.Home.{Home as AHome};

use crate::{Completed, Found, MOST_HOLDERS, Need, Peeked, Room, Seen, SpaceHandle, Touch};
use machine_names::{FileNo, ForkName, Kind, PageName, Place, Slot, Tty};
use outside::Drum;
use page_homes::{FrameId, Home};
use plain_pages::{NewEntry, NewMap};
use word36::Word;

/// Pages under the maps of forks and in files (CACM paper, "The memory management"). What they hold is told over
/// the words of a drum, since a page that is in no frame has its words there alone.
pub trait Pages {
    /// What the clauses below say of these pages.
    ghost means: { PagesMeaning Self };

    /// What a reference of this kind finds, in this order: a map on the way that is in no frame;
    /// Denied, where the map forbids it, or where a file has no such page to read; Full, where a page has to be made and there is no room; the
    /// page, in no frame; a page to be made with no frame for it; a page to be made; and else Ready.
    /// It is the same whoever is to own the page. Only a write has a page copied.
    fn touch(&self, at: Place, kind: Kind) -> Touch
        requires { IsPlace (means.lives self.now) at }
        ensures answer { result ≡ means.touched self.now at kind }
        ensures told { (d : DrumWords) (owner : ATty) → means.fits self.now d → IsOwner owner → result ≡ touch_of (means.plain self.now d) (means.scene self.now) (spot_of at) kind owner }
        ensures copies { (sole : Bool) → result ≡ Touch.Copy sole → kind ≡ Kind.Write }
        ensures needs { TouchNeeds means.store self.now result }
        ensures away { (home : AHome) → result ≡ Touch.Absent home → IsOfFilePage means self.now at home.0 }
        ensures core { means.flat ≡ true → is_in_core result ≡ true };

    /// The word at an offset of the page of a place, which a touch to read or to execute finds Ready.
    fn word(&self, at: Place, offset: u16) -> Word
        requires place { IsPlace (means.lives self.now) at }
        requires offset { offset < PAGE_WORDS }
        requires ready { (means.touched self.now at Kind.Read ≡ Touch.Ready) ⊎ (means.touched self.now at Kind.Execute ≡ Touch.Ready) }
        ensures told { (d : DrumWords) → means.fits self.now d → result ≡ word_at (means.plain self.now d) (spot_of at) offset };

    /// The word at an offset of the page of a place, whatever the access, in this order: a map on the way
    /// that is in no frame; NoPage, where no page is named; the page, in no frame; and else the word.
    fn peek(&self, at: Place, offset: u16) -> Peeked
        requires place { IsPlace (means.lives self.now) at }
        requires offset { offset < PAGE_WORDS }
        ensures told { (d : DrumWords) → means.fits self.now d → result ≡ peek_of (means.plain self.now d) (means.scene self.now) (spot_of at) offset }
        ensures needs { PeekNeeds means.store self.now result }
        ensures away { (home : AHome) → result ≡ Peeked.Absent home → IsOfFilePage means self.now at home.0 }
        ensures core { means.flat ≡ true → is_seen result ≡ true };

    /// The page of a place, whatever the access, with the number of its names in map entries and files, where
    /// the maps on the way are in frames; the page itself may be in none. None exactly where no page is named there.
    fn page_at(&self, at: Place) -> Option<(PageName, u32)>
        requires place { IsPlace (means.lives self.now) at }
        ensures told { (d : DrumWords) → means.fits self.now d → map_away (means.plain self.now d) (means.scene self.now) (spot_of at) ≡ None
            → result ≡ counted (means.plain self.now d) (named_at (means.plain self.now d) (spot_of at)) };

    /// The entry of a slot, in this order: Missing, where no such fork lives; Absent, where its map is in no
    /// frame; and else the entry.
    fn entry(&self, slot: Slot) -> Seen
        requires { slot.page < SPACE_PAGES }
        ensures answer { result ≡ means.seen self.now slot }
        ensures told { (d : DrumWords) → means.fits self.now d → result ≡ seen_of (means.plain self.now d) (means.scene self.now) slot }
        ensures lives { (e : AMapEntry) → result ≡ Seen.Is e → means.lives self.now slot.fork ≡ true }
        ensures near { is_seen_entry result ≡ true → means.lives self.now slot.fork ≡ true → (means.scene self.now).map_away slot.fork ≡ None }
        ensures follows { FollowsPage result }
        ensures needs { SeenNeeds means.store self.now result }
        ensures away { (home : AHome) → result ≡ Seen.Absent home → means.map_home self.now slot.fork ≡ Some home.0 }
        ensures core { means.flat ≡ true → is_seen_entry result ≡ true };

    /// Sets an entry that a look at it finds, which is a use of its map. It may be set to a page that a file has, which may be in no frame. A fork that is
    /// followed has a serial, 1 to 262,143. A page that loses its last name is dropped.
    fn set_entry(&mut self, slot: Slot, new: NewEntry)
        requires page { slot.page < SPACE_PAGES }
        requires seen { is_entry (means.seen self.old slot) ≡ true }
        requires new { IsNewEntry (means.filed self.old) new }
        requires follows { FollowsFork new }
        ensures { EntrySet means slot new self.old self.new };

    /// Makes the zero page or the copy that a touch announces, for an owner. One page is made, in a frame; then, where maps have homes, the map is
    /// used in which an entry is set to it, over each drum that fits. A page that the touch finds ready is used, and then no map.
    fn settle(&mut self, at: Place, kind: Kind, owner: Tty)
        requires place { IsPlace (means.lives self.old) at }
        requires ready { can_settle (means.touched self.old at kind) ≡ true }
        requires owner { IsOwner owner }
        requires serial { means.serial self.old owner < 2 ^ 63 }
        ensures { PageSettled means at kind owner self.old self.new };

    /// Puts a word at an offset of the page of a place, which a touch to write finds Ready, and which is used. Every touch
    /// answers as before.
    fn put(&mut self, at: Place, offset: u16, word: Word)
        requires place { IsPlace (means.lives self.old) at }
        requires offset { offset < PAGE_WORDS }
        requires ready { means.touched self.old at Kind.Write ≡ Touch.Ready }
        ensures told { (d : DrumWords) → means.fits self.old d → means.fits self.new d × (means.plain self.new d ≡ stored (means.plain self.old d) (spot_of at) offset word) }
        ensures loses { MayLose means self.old self.new }
        ensures uses { (home : ℕ) → StandsAt means self.old at home → IsUsed means.store home self.old self.new }
        ensures stays { StaysPut means self.old self.new };

    /// The handle of a fork's space.
    fn space(&self, fork: ForkName) -> SpaceHandle
        requires { means.lives self.now fork ≡ true }
        ensures { means.space self.now fork ≡ Some result };

    /// Where a page of a space is, whose touch of this kind is Ready. None exactly where it isn't.
    fn find(&self, space: SpaceHandle, page: u16, kind: Kind) -> Option<Found>
        requires space { HasSpace means self.now space }
        requires page { page < SPACE_PAGES }
        ensures place { IfSome result (λ found. means.place self.now space page ≡ Some found) }
        ensures ready { (f : AForkName) → means.space self.now f ≡ Some space → IsSome result ↔ IsTouched means self.now f page kind }
        ensures told { (d : DrumWords) (f : AForkName) → means.fits self.now d → means.space self.now f ≡ Some space → IsSome result → IsReady means self.now d f page kind };

    /// The same of a page whose touches to read and to write are both Ready.
    fn find_to_change(&self, space: SpaceHandle, page: u16) -> Option<Found>
        requires space { HasSpace means self.now space }
        requires page { page < SPACE_PAGES }
        ensures place { IfSome result (λ found. means.place self.now space page ≡ Some found) }
        ensures ready { (f : AForkName) → means.space self.now f ≡ Some space → IsSome result ↔ CanChange (IsTouched means self.now f page) }
        ensures told { (d : DrumWords) (f : AForkName) → means.fits self.now d → means.space self.now f ≡ Some space → IsSome result → CanChange (IsReady means self.now d f page) };

    /// The word at an address of a space, in a page that was found. This is a look, and no use of the page.
    fn look(&self, space: SpaceHandle, found: Found, address: u32) -> Word
        requires space { HasSpace means self.now space }
        requires address { IsAddress address }
        requires place { means.place self.now space (address / PAGE_WORDS) ≡ Some found }
        ensures told { (d : DrumWords) (f : AForkName) → means.fits self.now d → means.space self.now f ≡ Some space
            → result ≡ word_at (means.plain self.now d) (in_map (slot_at f address)) (address % PAGE_WORDS) };

    /// A use of the page of an address of a space, which was found, as `load` is one.
    fn used(&mut self, space: SpaceHandle, found: Found, address: u32)
        requires space { HasSpace means self.old space }
        requires address { IsAddress address }
        requires place { means.place self.old space (address / PAGE_WORDS) ≡ Some found }
        ensures only { OnlyUses means self.old self.new }
        ensures uses { (home : ℕ) → means.store.found self.old home ≡ Some found → IsUsed means.store home self.old self.new };

    /// Tells that a page of a space was found newly, so that it can be found faster. Nothing changes that any clause speaks of.
    fn learn(&mut self, space: SpaceHandle, page: u16)
        requires space { HasSpace means self.old space }
        requires page { page < SPACE_PAGES }
        ensures { StaysAlike means self.old self.new };

    /// The word at an address of a space, in a page that was found, which is a use of it: the page is the last to have to
    /// leave its frame, and where its departure is queued it is taken from the queue.
    fn load(&mut self, space: SpaceHandle, found: Found, address: u32) -> Word
        requires space { HasSpace means self.old space }
        requires address { IsAddress address }
        requires place { means.place self.old space (address / PAGE_WORDS) ≡ Some found }
        ensures told { (d : DrumWords) (f : AForkName) → means.fits self.old d → means.space self.old f ≡ Some space
            → result ≡ word_at (means.plain self.old d) (in_map (slot_at f address)) (address % PAGE_WORDS) }
        ensures only { OnlyUses means self.old self.new }
        ensures uses { (home : ℕ) → means.store.found self.old home ≡ Some found → IsUsed means.store home self.old self.new };

    /// Puts a word at an address of a space, in a page that was found, which is a use of it.
    fn store(&mut self, space: SpaceHandle, found: Found, address: u32, word: Word)
        requires space { HasSpace means self.old space }
        requires address { IsAddress address }
        requires place { means.place self.old space (address / PAGE_WORDS) ≡ Some found }
        ensures told { (d : DrumWords) (f : AForkName) → means.fits self.old d → means.space self.old f ≡ Some space
            → means.fits self.new d × (means.plain self.new d ≡ stored (means.plain self.old d) (in_map (slot_at f address)) (address % PAGE_WORDS) word) }
        ensures fits { (d : DrumWords) → means.fits self.old d → means.fits self.new d }
        ensures loses { MayLose means self.old self.new }
        ensures uses { (home : ℕ) → means.store.found self.old home ≡ Some found → IsUsed means.store home self.old self.new }
        ensures stays { StaysPut means self.old self.new };

    /// Adds a fork with its map, which takes a frame at most, and one is free. The map is empty, or each entry of it
    /// follows the same entry of a fork of the same terminal, whose serial is 1 to 262,143.
    fn add_fork(&mut self, fork: ForkName, map: NewMap)
        requires room { means.count self.old < means.most self.old }
        requires frame { 0 < (means.scene self.old).free_frames }
        requires absent { means.lives self.old fork ≡ false }
        requires few { means.forks_of self.old fork.tty < means.most_forks }
        requires terminal { fork.tty.0 < TERMINALS }
        requires map { IsNewMap (means.lives self.old) fork map }
        requires follows { MapFollowsFork map }
        ensures { ForkAdded means fork map self.old self.new };

    /// Drops a fork with its map, which is in a frame. Pages that lose their last name are dropped.
    fn drop_fork(&mut self, fork: ForkName)
        requires lives { means.lives self.old fork ≡ true }
        requires seen { (means.scene self.old).map_away fork ≡ None }
        ensures { ForkDropped means fork self.old self.new };

    /// The page that a file names at one of its pages; it may be in no frame. None exactly where the file has no such page.
    fn page_of(&self, file: FileNo, page: u16) -> Option<PageName>
        requires { IsFilePage file page }
        ensures { result ≡ means.filed self.now (file_page file.0 page) };

    /// Sets a page of a file: to the page at the end of a slot's chain, which a touch to read finds Ready, or to none. A page
    /// that loses its last name is dropped.
    fn set_file(&mut self, file: FileNo, page: u16, from: Option<Slot>)
        requires page { IsFilePage file page }
        requires place { IfSome from (λ s. IsPlace (means.lives self.old) (Place.Fork s)) }
        requires ready { IfSome from (λ s. means.touched self.old (Place.Fork s) Kind.Read ≡ Touch.Ready) }
        ensures { FilePageSet means file page from self.old self.new };

    /// Drops all pages of a file. Those that lose their last name are dropped.
    fn drop_file(&mut self, file: FileNo)
        requires { file.0 < MOST_FILES }
        ensures { FileDropped means file self.old self.new };

    /// How many pages and forks there are: the pages that some map entry or file names, and the forks.
    fn live(&self) -> u32
        ensures { result ≡ means.count self.now };

    /// How many pages and forks there may be.
    fn limit(&self) -> u32
        ensures { result ≡ means.most self.now };

    /// Full exactly where so many pages more may not live, else NeedFrame exactly where fewer frames are free.
    fn room(&self, pages: u32) -> Room
        ensures answer { result ≡ room_for (means.count self.now) (means.most self.now) (means.scene self.now).free_frames pages }
        ensures frames { result ≡ Room.NeedFrame → means.store.spare self.now < pages }
        ensures core { means.flat ≡ true → result ≢ Room.NeedFrame };

    /// Asks for a page that is in no frame, or for a frame, and answers what to wait for, as a store does.
    fn fetch(&mut self, need: Need) -> Need
        requires { CanFetch means.store self.old need }
        ensures answer { result ≡ awaited (meeting (means.store.queue self.old) (means.store.spare self.old) need) }
        ensures fetched { IsFetched means.store need self.old self.new }
        ensures plain { StaysPlain means self.old self.new }
        ensures mapped { StaysMapped means self.old self.new };

    /// Ends the oldest transfer, as a store does. No word of a page changes; where the drum fails, nothing changes here.
    fn complete<D: Drum>(&mut self, drum: &mut D) -> Completed
        requires { means.most self.old ≤ D.size drum.old }
        ensures ends { Completes means.store D.fault_count D.read_count D.write_count D.size result self.old self.new drum.old drum.new }
        ensures mapped { StaysMapped means self.old self.new }
        ensures failed { result ≡ Completed.DrumFault → StaysSame means self.old self.new }
        ensures told { (d : DrumWords) → Stands means.flat (D.held drum.old) d → means.fits self.old d → (result ≡ Completed.DrumFault → ⊥)
            → (e : DrumWords) × Stands means.flat (D.held drum.new) e × means.fits self.new e × (means.plain self.new e ≡ means.plain self.old d) };

    /// Whether a transfer is queued.
    fn is_moving(&self) -> bool
        ensures { (result ≡ false) ↔ (means.store.queue self.now ≡ []) };

    /// What a transfer would have told that was taken from the queue, as a store does.
    fn cancelled(&mut self) -> Option<Need>
        ensures tells { Tells means.store result self.old self.new }
        ensures same { StaysSame means self.old self.new };

    /// The page of a frame begins to leave it, where there is such a frame and the page may.
    fn evict(&mut self, frame: FrameId)
        ensures evicts { Evicts means.store frame.0 self.old self.new }
        ensures same { StaysSame means self.old self.new };

    /// Holds the frame of a home's page for a fork, or for the console, as a store does.
    fn keep(&mut self, holder: u16, home: Home)
        requires can { CanKeep means.store self.old holder home.0 }
        requires holder { holder < MOST_HOLDERS }
        requires few { length (means.store.holds self.old holder) < most_held holder }
        ensures keeps { Keeps means.store holder home.0 self.old self.new }
        ensures same { StaysSame means self.old self.new };

    /// How many frames are held for a holder.
    fn held(&self, holder: u16) -> u32
        ensures { result ≡ length (means.store.holds self.now holder) };

    /// Holds nothing for a holder any more.
    fn let_go(&mut self, holder: u16)
        ensures lets_go { LetsGo means.store holder self.old self.new }
        ensures same { StaysSame means self.old self.new };

    /// How many forks may have their pages in core together; 2^32 - 1 where there are no frames.
    fn members(&self) -> u32
        ensures { result ≡ means.store.members self.now };

    /// Pages stand in homes and frames.
    ghost housed: { (p : Self) → AreHoused means p };

    /// Over each drum that fits, the plain pages have these numbers.
    ghost agrees: { (p : Self) (d : DrumWords) → means.fits p d → Agrees means p (means.plain p d) };

    /// Over each drum that fits, the plain pages are whole.
    ghost whole: { (p : Self) (d : DrumWords) → means.fits p d → AreWhole (means.plain p d) };

    /// Over each drum that fits, a page has the words that are at its home.
    ghost there: { (p : Self) (d : DrumWords) → means.fits p d → AreThere means p d };

    /// A terminal of which no fork lives has none of that name.
    ghost none_lives: { (p : Self) (f : AForkName) → means.forks_of p f.tty ≡ 0 → means.lives p f ≡ false };
}
