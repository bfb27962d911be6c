// What the definitions say of pages of files that are in maps, in the words of those who use them. A law does nothing when it runs.
ghost use Rattle.std.specs.Prelude.{◌≡◌, ◌<◌, ◌≤◌, ℕ, List, true, false, None, Some, IsSome, find, slice_set};
ghost use Rattle.std.specs.FinMap as map;
ghost use Rattle.outside.specs.declared.TheConstants.{PAGE_WORDS};
ghost use Rattle.machine_names.specs.declared.names.Tty.{Tty as ATty};
ghost use Rattle.machine_names.specs.declared.names.Slot.{Slot as ASlot};
ghost use Rattle.machine_names.specs.declared.names.Access.{Access as AnAccess};
ghost use Rattle.machine_names.specs.declared.names.PageName.{PageName as APageName};
ghost use Rattle.machine_names.specs.Bounds.{IsOwner};
ghost use Rattle.machine_names.specs.Orders.{FilePage};
ghost use Rattle.plain_pages.specs.PlainPages.{NamedPages};
ghost use Rattle.plain_pages.specs.Maps.{Chain, Link, chain, entry_at, may};
ghost use Rattle.plain_pages.specs.References.{granted, in_file, in_map, page_at, reference, stored, words_at};
ghost use Rattle.plain_pages.specs.Room.{live};
ghost use Rattle.plain_pages.specs.WholePages.{AreWhole};
ghost use Rattle.plain_files.specs.OpenFiles.{OpenFile};
ghost use Rattle.plain_units.specs.Deeds.{in_ac};
ghost use Rattle.plain_model.specs.declared.fork.Fork.{Fork as AFork};
ghost use Rattle.plain_model.specs.AccessWords.{access_in};
ghost use Rattle.plain_model.specs.MapCalls.{allows, is_written, of_file, of_fork};
ghost use Rattle.plain_model.specs.State.{PlainState};
ghost use Rattle.plain_laws.specs.JfnLaws.{Lives};
ghost use Rattle.plain_laws.specs.MappedLaws.{GoesOver, HasEntry, IsOne, KeepsPage, LeavesPages, NamesNone, NamesPlaces, Shares, TakesWord, Writes, WritesAll, mapped, page_of, put_into, unmapped};

use machine_names::Kind;
use plain_pages::MapEntry;

/// What a program writes into a page of a file that is in its map, the file has: a page that is mapped without the copy
/// mark is the file's own, a write with the right to it goes through at once and makes nothing, and the word is then in
/// the file. No other word of a file changes, nor which pages files name; and the slot shares the page still.
pub fn written_words_are_the_files()
    ensures shared { (p : NamedPages) (s : ASlot) (f : FilePage (List ℕ)) (a : AnAccess) → AreWhole p → HasEntry p s → IsSome (map.get p.files f) → a.c ≡ false → Shares (mapped p s f a) s f }
    ensures granted { (p : NamedPages) (owner : ATty) (s : ASlot) (n : APageName) (a : AnAccess) (offset word : ℕ) → entry_at p.maps s ≡ Some (MapEntry.Names n a) → a.w ≡ true → a.c ≡ false
        → Writes p (stored p (in_map s) offset word) owner s offset word }
    ensures written { (p q : NamedPages) (owner : ATty) (s : ASlot) (f : FilePage (List ℕ)) (offset word : ℕ) → AreWhole p → Shares p s f → offset < PAGE_WORDS → Writes p q owner s offset word
        → TakesWord p q f offset word }
    ensures still { (p q : NamedPages) (owner : ATty) (s : ASlot) (f : FilePage (List ℕ)) (offset word : ℕ) → Shares p s f → Writes p q owner s offset word → Shares q s f }
{}

/// Writes along a chain with the copy mark leave each page of each file as it was, with its words, however many there
/// are; the slot reads what it read, with the word in it.
pub fn copies_leave_the_file()
    ensures files { (p q : NamedPages) (owner : ATty) (s : ASlot) (c : Chain) (l : Link) (f : FilePage (List ℕ)) (words : List (ℕ × ℕ)) → AreWhole p → IsOwner owner → chain (entry_at p.maps) s ≡ Some c
        → find (λ k. k.access.c) c.links ≡ Some l → WritesAll p q owner s words → KeepsPage p q f }
    ensures own { (p q : NamedPages) (owner : ATty) (s : ASlot) (c : Chain) (l : Link) (offset word : ℕ) → AreWhole p → IsOwner owner → chain (entry_at p.maps) s ≡ Some c
        → find (λ k. k.access.c) c.links ≡ Some l → Writes p q owner s offset word → words_at q (in_map s) ≡ slice_set (words_at p (in_map s)) offset word }
{}

/// A page that is put into a file and mapped back is one page with its words: the slot that it came from, the file and
/// the slot that it is mapped into name the same one. No page is copied, and none is more.
pub fn pages_put_and_mapped_are_the_same()
    ensures one { (p : NamedPages) (s t : ASlot) (f : FilePage (List ℕ)) (a : AnAccess) (n : APageName) → AreWhole p → page_at p (in_map s) ≡ Some n → HasEntry p t
        → IsOne p (mapped (put_into p f s) t f a) n s t f }
    ensures room { (p : NamedPages) (s t : ASlot) (f : FilePage (List ℕ)) (a : AnAccess) → AreWhole p → live (mapped (put_into p f s) t f a) ≤ live p }
{}

/// A page of a file that is mapped into an empty entry takes no room and changes no page; and once it is unmapped again
/// all is as it was before. A page of a file keeps its words, whatever is unmapped.
pub fn mapping_and_unmapping_take_no_room()
    ensures mapped { (p : NamedPages) (s : ASlot) (f : FilePage (List ℕ)) (a : AnAccess) → AreWhole p → entry_at p.maps s ≡ Some MapEntry.Empty
        → (live (mapped p s f a) ≡ live p) × ((mapped p s f a).objects ≡ p.objects) }
    ensures back { (p : NamedPages) (s : ASlot) (f : FilePage (List ℕ)) (a : AnAccess) → AreWhole p → entry_at p.maps s ≡ Some MapEntry.Empty → unmapped (mapped p s f a) s ≡ p }
    ensures kept { (p : NamedPages) (s : ASlot) (f : FilePage (List ℕ)) → AreWhole p → KeepsPage p (unmapped p s) f }
{}

/// PMAP with a page of a fork as its destination makes the page's entry name the page of a file, by a JFN that is open for
/// the access; a page that the file does not have is made first where the file may be written. With a page of a file as its
/// destination it makes the file name the page of a fork that may be read; and with a source of all ones it empties the
/// entry of a page of a fork. All else stays but the registers of the fork that called.
pub fn pages_of_files_are_mapped_and_put()
    ensures mapped { (s : PlainState) (f : AFork) (j : OpenFile) (page : ℕ) (to : ASlot) → Lives s f → GoesOver f → NamesPlaces s f (of_file j page) (of_fork to) → allows j (access_in (in_ac f.body.regs 3)) ≡ true
        → IsSome (map.get s.pages.files (page_of j page)) → LeavesPages s f (mapped s.pages to (page_of j page) (access_in (in_ac f.body.regs 3))) }
    ensures made { (s : PlainState) (f : AFork) (j : OpenFile) (page : ℕ) (to : ASlot) (q : NamedPages) → Lives s f → GoesOver f → NamesPlaces s f (of_file j page) (of_fork to) → allows j (access_in (in_ac f.body.regs 3)) ≡ true
        → map.get s.pages.files (page_of j page) ≡ None → is_written j ≡ true → reference s.pages (in_file (page_of j page)) Kind.Write f.name.tty ≡ granted q
        → LeavesPages s f (mapped q to (page_of j page) (access_in (in_ac f.body.regs 3))) }
    ensures put { (s : PlainState) (f : AFork) (j : OpenFile) (page : ℕ) (from : ASlot) → Lives s f → GoesOver f → NamesPlaces s f (of_fork from) (of_file j page) → is_written j ≡ true
        → IsSome (page_at s.pages (in_map from)) → may (entry_at s.pages.maps) from Kind.Read ≡ true → LeavesPages s f (put_into s.pages (page_of j page) from) }
    ensures unmapped { (s : PlainState) (f : AFork) (to : ASlot) → Lives s f → GoesOver f → NamesNone s f to → LeavesPages s f (unmapped s.pages to) }
{}
