// What the calls on maps come to, in the words of those who use them. A law does nothing when it runs.
ghost use Rattle.std.specs.Prelude.{◌≡◌, ◌≢◌, ◌+◌, ◌<◌, ℕ, List, true, None, Some, IsSome, if◌then◌else◌, ◌==◌};
ghost use Rattle.std.specs.FinMap as map;
ghost use Rattle.machine_names.specs.declared.names.Slot.{Slot as ASlot};
ghost use Rattle.machine_names.specs.declared.names.Access.{Access as AnAccess};
ghost use Rattle.plain_units.specs.declared.registers.Regs.{Regs as ARegs};
ghost use Rattle.plain_model.specs.declared.fork.Fork.{Fork as AFork};
ghost use Rattle.plain_pages.specs.PlainPages.{NumberedPages};
ghost use Rattle.plain_pages.specs.Maps.{Chain, chain, entry_at};
ghost use Rattle.plain_pages.specs.References.{in_file, in_map, page_at, words_at};
ghost use Rattle.plain_pages.specs.WholePages.{AreWhole};
ghost use Rattle.plain_units.specs.Deeds.{next_pc};
ghost use Rattle.plain_model.specs.AccessWords.{access_in, access_word};
ghost use Rattle.plain_model.specs.Calls.{fork_behind, parts_behind};
ghost use Rattle.plain_model.specs.MapCalls.{behind_page, is_counted, keyed, map_changed, pages_left};
ghost use Rattle.call_turns.specs.Turns.{IsRegs};
ghost use Rattle.pmap_calls.specs.Laws.{HasEntry, LeavesErrorAlone, refusal};

use plain_model::call::MapChange;
use plain_pages::MapEntry;

/// An access that is told is the access that was meant.
pub fn access_comes_back()
    ensures { (a : AnAccess) → access_in (access_word a) ≡ a }
{}

/// A page that is mapped reads what its source reads, where there is a page to read; the entry of no other page
/// changes. One that is taken out of its map has an empty entry.
pub fn mapped_pages_read_their_source()
    ensures read { (key : List ℕ → ℕ) (p : NumberedPages) (s t : ASlot) (a : AnAccess) (c : Chain) → AreWhole p → HasEntry p s → s.fork.tty ≡ t.fork.tty
        → chain (entry_at (map_changed key (MapChange.Follow s t a) p).maps) s ≡ Some c
        → words_at (map_changed key (MapChange.Follow s t a) p) (in_map s) ≡ words_at (map_changed key (MapChange.Follow s t a) p) (in_map t) }
    ensures others { (key : List ℕ → ℕ) (p : NumberedPages) (s t u : ASlot) (a : AnAccess) → AreWhole p → HasEntry p s → u ≢ s
        → entry_at (map_changed key (MapChange.Follow s t a) p).maps u ≡ entry_at p.maps u }
    ensures unmapped { (key : List ℕ → ℕ) (p : NumberedPages) (s : ASlot) → AreWhole p → HasEntry p s → entry_at (map_changed key (MapChange.Unmap s) p).maps s ≡ Some MapEntry.Empty }
{}

/// A page of a file that is mapped reads what the file has there, as it does from then on. What is put into a file is the page at the end of
/// the slot's chain; a page that is taken out of a file is there no more.
pub fn file_pages_are_shared()
    ensures mapped { (key : List ℕ → ℕ) (p : NumberedPages) (s : ASlot) (name : List ℕ) (page : ℕ) (a : AnAccess) → AreWhole p → HasEntry p s → IsSome (map.get p.files (keyed key name page))
        → words_at (map_changed key (MapChange.Map s name page a) p) (in_map s) ≡ words_at (map_changed key (MapChange.Map s name page a) p) (in_file (keyed key name page)) }
    ensures put { (key : List ℕ → ℕ) (p : NumberedPages) (s : ASlot) (name : List ℕ) (page : ℕ)
        → map.get (map_changed key (MapChange.Put name page s) p).files (keyed key name page) ≡ page_at p (in_map s) }
    ensures dropped { (key : List ℕ → ℕ) (p : NumberedPages) (name : List ℕ) (page : ℕ)
        → map.get (map_changed key (MapChange.Drop name page) p).files (keyed key name page) ≡ None }
{}

/// A call that is refused leaves the pages as they were, and of its fork its registers: the code of the error is
/// its last error.
pub fn refusals_leave_an_error_alone()
    ensures pages { (key : List ℕ → ℕ) (p q : NumberedPages) (code : ℕ) → parts_behind (map_changed key) p q (refusal code) ≡ p }
    ensures fork { (f : AFork) (code : ℕ) → LeavesErrorAlone f code (fork_behind f (refusal code)) }
{}

/// PMAP that goes over pages does one a unit: one less is left behind each, and behind the last the call is done.
pub fn pages_are_counted_down()
    ensures left { (regs : ARegs) → IsRegs regs → is_counted regs ≡ true → 0 < pages_left regs → pages_left (behind_page regs) + 1 ≡ pages_left regs }
    ensures done { (regs : ARegs) → IsRegs regs → is_counted regs ≡ true → 0 < pages_left regs
        → (behind_page regs).pc ≡ (if pages_left regs == 1 then next_pc regs else regs.pc) }
{}
