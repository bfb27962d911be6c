// One turn of a call on maps.
ghost use Rattle.std.specs.Prelude.{◌≡◌, ◌<◌, ◌^◌, true, None, IfErr, IsOk};
ghost use Rattle.machine_names.specs.Bounds.{IsFilePage, IsOwner, IsTerminal};
ghost use Rattle.machine_names.specs.declared.names.Tty.{Tty as ATty};
ghost use Rattle.machine_names.specs.declared.names.TheConstants.{MOST_FILES, SPACE_PAGES};
ghost use Rattle.page_contracts.specs.DrumWords.{DrumWords};
ghost use Rattle.page_contracts.specs.Pages.{FollowsFork, MayLose};
ghost use Rattle.page_contracts.specs.Stores.{IsNeeded};
ghost use Rattle.plain_model.specs.MapCalls.{map_call, map_changed};
ghost use Rattle.plain_pages.specs.declared.map.NewEntry.{NewEntry as ANewEntry};
ghost use Rattle.plain_pages.specs.NewEntries.{IsNewEntry, changed};
ghost use Rattle.call_turns.specs.Answers.{AnswerNeeds, FitsAnswer, IsDone};
ghost use Rattle.call_turns.specs.Granting.{IsGranted, pages_granted};
ghost use Rattle.call_turns.specs.Telling.{entry_need};
ghost use Rattle.call_turns.specs.Turns.{FitsOutcome, IsRegs};
ghost use Rattle.pmap_calls.specs.Asking.{asked};
ghost use Rattle.file_tables.specs.Keys.{key_of};
ghost use Rattle.pmap_calls.specs.Making.{Ends, Makes, Turns, change_need};
ghost use Rattle.call_turns.specs.Making.{MakesAtMost, MakesIn, MakesOne};
ghost use Rattle.pmap_calls.specs.Stages.{IsMapChange};

use crate::table::first;
use call_turns::{Answer, Grant, Outcome, answer_of, driven, entry_of};
use file_tables::FileTables;
use fork_tree::Tree;
use machine_names::{Access, FileName, FileNo, ForkName, Kind, Place, Slot, Tty};
use page_contracts::{Need, Pages, Seen};
use plain_model::call::{End, MapChange};
use plain_pages::NewEntry;
use plain_units::Regs;

/// A call on maps asks twice at most: for an entry, and for the page behind it.
const MOST_ASKS: u32 = 2;

// Sets an entry, whose map is in core.
fn put_entry<P: Pages>(pages: &mut P, slot: Slot, new: NewEntry)
    requires page { slot.page < SPACE_PAGES }
    requires new { IsNewEntry (P.means.filed pages.old) new }
    requires follows { FollowsFork new }
    ensures told { (d : DrumWords) → P.means.fits pages.old d → entry_need (P.means.scene pages.old) (P.means.plain pages.old d) slot ≡ None
        → P.means.fits pages.new d × (P.means.plain pages.new d ≡ changed (P.means.plain pages.old d) slot new) }
    ensures loses { MayLose P.means pages.old pages.new }
    ensures made { (owner : ATty) → MakesAtMost P.means owner 0 pages.old pages.new }
{
    match pages.entry(slot) {
        Seen::Is(_) => pages.set_entry(slot, new),
        Seen::Missing => {}
        Seen::Absent(_) => {}
    }
}

// Sets an entry, whose map has to be in core.
fn set<P: Pages>(pages: &mut P, slot: Slot, new: NewEntry) -> Result<(), Need>
    requires page { slot.page < SPACE_PAGES }
    requires new { IsNewEntry (P.means.filed pages.old) new }
    requires follows { FollowsFork new }
    ensures told { Makes P.means pages.old pages.new result (λ scene p. entry_need scene p slot) (λ p. changed p slot new) }
    ensures needs { IfErr result (IsNeeded P.means.store 1 pages.new) }
    ensures core { P.means.flat ≡ true → IsOk result }
    ensures loses { MayLose P.means pages.old pages.new }
    ensures made { (owner : ATty) → MakesOne P.means owner pages.old pages.new result }
{
    match entry_of(pages, slot) {
        Ok(_) => {
            put_entry(pages, slot, new);
            Ok(())
        }
        Err(need) => Err(need),
    }
}

// Makes the page that was granted, if it isn't there.
fn make<P: Pages>(pages: &mut P, owner: Tty, grant: Grant)
    requires granted { IsGranted P.means pages.old grant }
    requires owner { IsOwner owner }
    requires serial { P.means.serial pages.old owner < 2 ^ 62 }
    ensures told { (d : DrumWords) → P.means.fits pages.old d
        → P.means.fits pages.new d × (P.means.plain pages.new d ≡ pages_granted (P.means.plain pages.old d) owner grant) }
    ensures maps { (P.means.scene pages.new).map_away ≡ (P.means.scene pages.old).map_away }
    ensures loses { MayLose P.means pages.old pages.new }
    ensures made { MakesAtMost P.means owner 1 pages.old pages.new }
{
    match grant {
        Grant::Fill(file, page) => pages.settle(Place::File(file, page), Kind::Write, owner),
        Grant::Nothing => {}
        Grant::Read(_) => {}
    }
}

// Sets an entry to a page of a file, where that has the page.
fn put_file_page<P: Pages>(pages: &mut P, slot: Slot, file: FileNo, page: u16, access: Access)
    requires slot { slot.page < SPACE_PAGES }
    requires page { IsFilePage file page }
    ensures told { (d : DrumWords) → P.means.fits pages.old d → entry_need (P.means.scene pages.old) (P.means.plain pages.old d) slot ≡ None
        → P.means.fits pages.new d × (P.means.plain pages.new d ≡ changed (P.means.plain pages.old d) slot (ANewEntry.FilePage file page access)) }
    ensures loses { MayLose P.means pages.old pages.new }
    ensures made { (owner : ATty) → MakesAtMost P.means owner 0 pages.old pages.new }
{
    match pages.page_of(file, page) {
        Some(_) => put_entry(pages, slot, NewEntry::FilePage(file, page, access)),
        None => {}
    }
}

// Maps a page of a file, which is made first where that was granted; the map of the slot has to be in core.
fn map_page<P: Pages>(
    pages: &mut P,
    owner: Tty,
    grant: Grant,
    slot: Slot,
    file: FileNo,
    page: u16,
    access: Access,
) -> Result<(), Need>
    requires slot { slot.page < SPACE_PAGES }
    requires page { IsFilePage file page }
    requires granted { IsGranted P.means pages.old grant }
    requires owner { IsOwner owner }
    requires serial { P.means.serial pages.old owner < 2 ^ 62 }
    ensures told { Makes P.means pages.old pages.new result (λ scene p. entry_need scene p slot)
        (λ p. changed (pages_granted p owner grant) slot (ANewEntry.FilePage file page access)) }
    ensures needs { IfErr result (IsNeeded P.means.store 1 pages.new) }
    ensures core { P.means.flat ≡ true → IsOk result }
    ensures loses { MayLose P.means pages.old pages.new }
    ensures made { MakesOne P.means owner pages.old pages.new result }
{
    match entry_of(pages, slot) {
        Ok(_) => {
            make(pages, owner, grant);
            put_file_page(pages, slot, file, page, access);
            Ok(())
        }
        Err(need) => Err(need),
    }
}

// The number of the file of a name; 0 where there is none.
fn number(tables: &FileTables, name: &FileName) -> FileNo
    ensures number { result.0 ≡ key_of tables.now name.now }
    ensures below { result.0 < MOST_FILES }
{
    match tables.find(name) {
        Some(file) => file,
        None => FileNo(0),
    }
}

// Makes a change of an owner of pages, behind what was granted.
fn change<P: Pages>(
    pages: &mut P,
    tables: &FileTables,
    owner: Tty,
    grant: Grant,
    what: MapChange,
) -> Result<(), Need>
    requires what { IsMapChange grant what }
    requires granted { IsGranted P.means pages.old grant }
    requires owner { IsOwner owner }
    requires serial { P.means.serial pages.old owner < 2 ^ 62 }
    ensures told { Makes P.means pages.old pages.new result (λ scene p. change_need scene p what) (λ p. map_changed (key_of tables.now) what (pages_granted p owner grant)) }
    ensures needs { IfErr result (IsNeeded P.means.store 1 pages.new) }
    ensures core { P.means.flat ≡ true → IsOk result }
    ensures loses { MayLose P.means pages.old pages.new }
    ensures made { MakesOne P.means owner pages.old pages.new result }
{
    match what {
        MapChange::Nothing => Ok(()),
        MapChange::Unmap(slot) => set(pages, slot, NewEntry::Empty),
        MapChange::Follow(slot, other, access) => set(
            pages,
            slot,
            NewEntry::Follows(other.fork.serial, other.page, access),
        ),
        MapChange::Narrow(slot, access) => set(pages, slot, NewEntry::Narrow(access)),
        MapChange::Map(slot, name, page, access) => {
            let file = number(tables, &name);
            map_page(pages, owner, grant, slot, file, page, access)
        }
        MapChange::Put(name, page, from) => {
            pages.set_file(number(tables, &name), page, Some(from));
            Ok(())
        }
        MapChange::Drop(name, page) => {
            pages.set_file(number(tables, &name), page, None);
            Ok(())
        }
    }
}

// Ends a turn of an owner of pages: its change is made, if it has one.
fn end<P: Pages>(
    outcome: Outcome<MapChange>,
    owner: Tty,
    tables: &FileTables,
    pages: &mut P,
) -> Answer
    requires fits { FitsOutcome IsMapChange outcome }
    requires granted { IsGranted P.means pages.old outcome.grant }
    requires owner { IsOwner owner }
    requires serial { P.means.serial pages.old owner < 2 ^ 62 }
    ensures told { Ends P.means tables.now owner outcome.grant pages.old pages.new result outcome.end }
    ensures needs { AnswerNeeds P.means.store 1 pages.new result }
    ensures core { P.means.flat ≡ true → IsDone result }
    ensures fits { FitsAnswer result }
    ensures loses { MayLose P.means pages.old pages.new }
    ensures made { MakesIn P.means owner pages.old pages.new result }
{
    match &outcome.end {
        End::Done { change: what, .. } => match change(pages, tables, owner, outcome.grant, *what) {
            Ok(()) => answer_of(outcome.end),
            Err(need) => Answer::Need(need),
        },
        _ => answer_of(outcome.end),
    }
}

/// One turn of a call on maps, by its number (JSYS Manual, PMAP): its answer is that of the plain call, and so are the
/// pages that it leaves. It asks first and changes then: what it needs first is a map or a page that is in no frame, or a frame for the
/// page of a file that it makes, and then it leaves all as it was. A number that is no call on maps traps as an illegal instruction.
pub fn call<P: Pages>(
    number: u32,
    regs: &Regs,
    who: ForkName,
    tree: &Tree,
    tables: &FileTables,
    pages: &mut P,
) -> Answer
    requires regs { IsRegs regs.now }
    requires terminal { IsTerminal who.tty }
    requires serial { P.means.serial pages.old who.tty < 2 ^ 62 }
    ensures told { Turns P.means tables.now pages.old pages.new result (map_call number (asked who regs.now tree.now tables.now)) }
    ensures needs { AnswerNeeds P.means.store 1 pages.new result }
    ensures core { P.means.flat ≡ true → IsDone result }
    ensures fits { FitsAnswer result }
    ensures loses { MayLose P.means pages.old pages.new }
    ensures made { MakesIn P.means who.tty pages.old pages.new result }
{
    match driven(
        first(number, regs, who, tree, tables),
        MOST_ASKS,
        tree,
        pages,
    ) {
        Ok(outcome) => end(outcome, who.tty, tables, pages),
        Err(need) => Answer::Need(need),
    }
}
