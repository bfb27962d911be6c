// What is left of a call on maps once it is told what it asked for.
ghost use Rattle.std.specs.Prelude.{◌≡◌, ◌<◌};
ghost use Rattle.machine_names.specs.Bounds.{IsFilePage};
ghost use Rattle.plain_model.specs.declared.call.MapChange.{MapChange as AMapChange};
ghost use Rattle.plain_model.specs.Calls.{returning as returning_of, with_ac as with_ac_of};
ghost use Rattle.plain_model.specs.MapCalls.{file_access as file_access_of, narrows as narrows_of, source_of as source_of_entry, tells_access as tells_access_of};
ghost use Rattle.machine_names.specs.declared.names.TheConstants.{SPACE_PAGES};
ghost use Rattle.call_turns.specs.declared.turn.Grant.{Grant as AGrant};
ghost use Rattle.call_turns.specs.Turns.{IsRegs, FitsEnd, FitsTurn};
ghost use Rattle.pmap_calls.specs.Stages.{IsMapChange, IsStage, filled as filled_by, if_there as if_page_there};

use call_turns::{Ask, Rest, Told, Turn, WhenFull, returning, with_ac};
use fork_tree::Tree;
use machine_names::{Access, FileNo, ForkName, PageName, Slot};
use map_words::{access_told, file_access};
use plain_model::call::{End, FORK_SELF, MapChange, NO_PAGE};
use plain_pages::MapEntry;
use plain_units::Regs;
use word36::Word;

/// The rest of a call on maps.
#[derive(Clone, Copy)]
pub enum Stage {
    /// RPACS, told the entry of a slot.
    Access(Slot, Regs),
    /// RMAP, told the entry of a slot.
    Source(Slot, Regs),
    /// Either, told the page behind an entry.
    Page(MapEntry, Regs),
    /// SPACS, told the entry of a slot.
    Narrow(Slot, Access, Regs),
    /// RPACS, told the page of a file.
    FileAccess(Regs),
    /// PMAP, told the page of a file, which is made where it isn't there.
    Fill(FileNo, u16, End<MapChange>),
    /// PMAP, told the page of a file, which has to be there.
    There(End<MapChange>),
}

/// The handle and the page that the entry of a slot follows; all ones where it follows none, or a killed fork.
fn source_of(tree: &Tree, slot: Slot, entry: MapEntry) -> Word
    ensures { result ≡ source_of_entry tree.now.forks slot entry }
{
    match entry {
        MapEntry::Follows(serial, page, _) => {
            let source = ForkName {
                tty: slot.fork.tty,
                serial,
            };
            match tree.fork(source) {
                Some(fork) => Word::join(FORK_SELF + u32::from(fork.slot), u32::from(page)),
                None => Word::wrapped(Word::MASK),
            }
        }
        MapEntry::Empty => Word::wrapped(Word::MASK),
        MapEntry::Names(_, _) => Word::wrapped(Word::MASK),
    }
}

// The access is told, and the call is done.
fn tells_access(regs: Regs, entry: MapEntry, page: Option<PageName>) -> End<MapChange>
    requires { IsRegs regs }
    ensures end { result ≡ tells_access_of regs entry page }
    ensures sound { FitsEnd (IsMapChange AGrant.Nothing) result }
{
    returning(
        MapChange::Nothing,
        with_ac(regs, 2, access_told(entry, page)),
    )
}

// An entry is narrowed, but for an empty one.
fn narrows(slot: Slot, access: Access, regs: Regs, entry: MapEntry) -> End<MapChange>
    requires page { slot.page < SPACE_PAGES }
    requires regs { IsRegs regs }
    ensures end { result ≡ narrows_of slot access regs entry }
    ensures sound { FitsEnd (IsMapChange AGrant.Nothing) result }
{
    match entry {
        MapEntry::Empty => End::Refused(NO_PAGE),
        MapEntry::Names(_, _) => returning(MapChange::Narrow(slot, access), regs),
        MapEntry::Follows(_, _, _) => returning(MapChange::Narrow(slot, access), regs),
    }
}

// The access of a page of a file is told, and the call is done.
fn tells_file_access(regs: Regs, page: Option<PageName>) -> End<MapChange>
    requires { IsRegs regs }
    ensures end { result ≡ returning_of AMapChange.Nothing (with_ac_of regs 2 (file_access_of page)) }
    ensures sound { FitsEnd (IsMapChange AGrant.Nothing) result }
{
    returning(MapChange::Nothing, with_ac(regs, 2, file_access(page)))
}

// A page of a file that isn't there is made.
fn filled(
    file: FileNo,
    page: u16,
    end: End<MapChange>,
    told: Option<PageName>,
) -> Turn<MapChange, Stage>
    requires page { IsFilePage file page }
    requires there { FitsEnd (IsMapChange AGrant.Nothing) end }
    requires made { FitsEnd (IsMapChange (AGrant.Fill file page)) end }
    ensures turn { result ≡ filled_by file page end told }
    ensures fits { FitsTurn IsStage IsMapChange result }
{
    match told {
        Some(_) => Turn::Ends(end),
        None => Turn::Fills(file, page, end, WhenFull::Refused),
    }
}

// A page of a file has to be there.
fn if_there(end: End<MapChange>, told: Option<PageName>) -> Turn<MapChange, Stage>
    requires { FitsEnd (IsMapChange AGrant.Nothing) end }
    ensures turn { result ≡ if_page_there end told }
    ensures fits { FitsTurn IsStage IsMapChange result }
{
    match told {
        Some(_) => Turn::Ends(end),
        None => Turn::Ends(End::Refused(NO_PAGE)),
    }
}

impl Rest<MapChange, Tree> for Stage {
    ghost use Rattle.pmap_calls.specs.Stages.{later as later_of, IsMapChange, IsStage};

    ghost later = { later_of };

    ghost holds = { IsStage };

    ghost sound = { IsMapChange };

    fn later(self, tree: &Tree, reply: Told) -> Turn<MapChange, Stage> {
        match self {
            Stage::Access(slot, regs) => Turn::Asks(
                Ask::Finds(slot),
                Stage::Page(reply.entry(), regs),
            ),
            Stage::Source(slot, regs) => {
                let entry = reply.entry();
                let regs = with_ac(regs, 1, source_of(tree, slot, entry));
                Turn::Asks(Ask::Finds(slot), Stage::Page(entry, regs))
            }
            Stage::Page(entry, regs) => Turn::Ends(tells_access(regs, entry, reply.page())),
            Stage::Narrow(slot, access, regs) => Turn::Ends(narrows(
                slot,
                access,
                regs,
                reply.entry(),
            )),
            Stage::FileAccess(regs) => Turn::Ends(tells_file_access(regs, reply.page())),
            Stage::Fill(file, page, end) => filled(file, page, end, reply.page()),
            Stage::There(end) => if_there(end, reply.page()),
        }
    }
}
