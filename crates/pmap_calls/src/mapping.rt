// One place mapped into another, or without its page.
ghost use Rattle.std.specs.Prelude.{◌≡◌, ◌<◌, None};
ghost use Rattle.machine_names.specs.declared.names.ForkName.{ForkName as AForkName};
ghost use Rattle.machine_names.specs.declared.names.TheConstants.{FILE_PAGES, SPACE_PAGES};
ghost use Rattle.plain_files.specs.Directory.{Files};
ghost use Rattle.plain_files.specs.NamedFiles.{open_file};
ghost use Rattle.plain_model.specs.declared.call.End.{End as AnEnd};
ghost use Rattle.plain_model.specs.MapCalls.{allows as allows_of, behind_page as behind_page_of, from_file as from_file_of, into_file as into_file_of, is_read as is_read_of, is_written as is_written_of, mapping_into as mapping_into_of, unmapping as unmapping_of};
ghost use Rattle.plain_model.specs.Trees.{PlainTree};
ghost use Rattle.call_turns.specs.declared.turn.Grant.{Grant as AGrant};
ghost use Rattle.call_turns.specs.Numbers.{numbered_turn};
ghost use Rattle.call_turns.specs.Turns.{FitsEnd, FitsTurn};
ghost use Rattle.file_tables.specs.Keys.{IsKnown, key_of};
ghost use Rattle.pmap_calls.specs.Asking.{IsPlaceIn, asked, place_by};
ghost use Rattle.pmap_calls.specs.Paging.{CanGoOn, drop_end as drop_end_of, map_end as map_end_of, put_end as put_end_of};
ghost use Rattle.pmap_calls.specs.Stages.{IsMapChange, IsStage, whole};

use crate::naming::PagePlace;
use crate::stage::Stage;
use call_turns::{Ask, Turn, accumulator};
use file_tables::FileTables;
use machine_names::{Access, Slot};
use map_words::{access_in, behind_page, needs_no_more};
use plain_files::Jfn;
use plain_model::call::{End, FILE_TO_FILE, MapChange, NOT_OPEN};
use plain_units::Regs;

// A change is made of one page, and the call goes on to the next or is done.
fn maps(regs: &Regs, change: MapChange) -> End<MapChange>
    requires { CanGoOn regs.now }
    ensures end { result ≡ AnEnd.Done change (behind_page_of regs.now) None None }
    ensures fits { (g : AGrant) → IsMapChange g change → FitsEnd (IsMapChange g) result }
{
    End::Done {
        change,
        regs: behind_page(*regs),
        out: None,
        post: None,
    }
}

// Whether the file of a JFN is open to be read.
fn is_read(jfn: Jfn) -> bool
    ensures { (files : Files) → result ≡ is_read_of (open_file files jfn) }
{
    match jfn.mode {
        Some(mode) => mode.r,
        None => false,
    }
}

// Whether it is open to be written.
fn is_written(jfn: Jfn) -> bool
    ensures { (files : Files) → result ≡ is_written_of (open_file files jfn) }
{
    match jfn.mode {
        Some(mode) => mode.w,
        None => false,
    }
}

// Whether the file of a JFN is open for an access to its pages.
fn allows(jfn: Jfn, access: Access) -> bool
    ensures { (files : Files) → result ≡ allows_of (open_file files jfn) access }
{
    needs_no_more(access, is_read(jfn), is_written(jfn))
}

// The entry of a slot is to name a page of a file, and the call goes on.
fn map_end(jfn: Jfn, page: u16, to: Slot, regs: &Regs, tables: &FileTables) -> End<MapChange>
    requires regs { CanGoOn regs.now }
    requires known { IsKnown tables.now jfn.file }
    requires page { page < FILE_PAGES }
    requires to { to.page < SPACE_PAGES }
    ensures end { (who : AForkName) (tree : PlainTree) → result ≡ map_end_of (asked who regs.now tree tables.now) (open_file tables.now.dir jfn) page to }
    ensures there { FitsEnd (IsMapChange AGrant.Nothing) result }
    ensures made { FitsEnd (IsMapChange (AGrant.Fill jfn.file page)) result }
{
    let name = tables.name_of(jfn.file);
    maps(regs, MapChange::Map(to, name, page, access_in(regs.ac[3])))
}

// The page of a slot is to be put into a file, and the call goes on.
fn put_end(from: Slot, jfn: Jfn, page: u16, regs: &Regs, tables: &FileTables) -> End<MapChange>
    requires regs { CanGoOn regs.now }
    requires known { IsKnown tables.now jfn.file }
    requires page { page < FILE_PAGES }
    ensures end { (who : AForkName) (tree : PlainTree) → result ≡ put_end_of (asked who regs.now tree tables.now) from (open_file tables.now.dir jfn) page }
    ensures fits { FitsEnd (IsMapChange (AGrant.Read from)) result }
{
    let name = tables.name_of(jfn.file);
    maps(regs, MapChange::Put(name, page, from))
}

// A file is to lose a page, and the call goes on.
fn drop_end(jfn: Jfn, page: u16, regs: &Regs, tables: &FileTables) -> End<MapChange>
    requires regs { CanGoOn regs.now }
    requires known { IsKnown tables.now jfn.file }
    requires page { page < FILE_PAGES }
    ensures end { (who : AForkName) (tree : PlainTree) → result ≡ drop_end_of (asked who regs.now tree tables.now) (open_file tables.now.dir jfn) page }
    ensures fits { FitsEnd (IsMapChange AGrant.Nothing) result }
{
    let name = tables.name_of(jfn.file);
    maps(regs, MapChange::Drop(name, page))
}

// A page of a file into a map, which is made where it isn't there and the file is open to be written.
fn from_file(
    jfn: Jfn,
    page: u16,
    to: Slot,
    regs: &Regs,
    tables: &FileTables,
) -> Turn<MapChange, Stage>
    requires regs { CanGoOn regs.now }
    requires known { IsKnown tables.now jfn.file }
    requires page { page < FILE_PAGES }
    requires to { to.page < SPACE_PAGES }
    ensures turn { (who : AForkName) (tree : PlainTree) → whole who.tty tree result
        ≡ numbered_turn (key_of tables.now) (from_file_of (asked who regs.now tree tables.now) (open_file tables.now.dir jfn) page to) }
    ensures fits { FitsTurn IsStage IsMapChange result }
{
    if !allows(jfn, access_in(accumulator(regs, 3))) {
        return Turn::Ends(End::Refused(NOT_OPEN));
    }
    let end = map_end(jfn, page, to, regs, tables);
    if is_written(jfn) {
        Turn::Asks(
            Ask::FindsFile(jfn.file, page),
            Stage::Fill(jfn.file, page, end),
        )
    } else {
        Turn::Asks(Ask::FindsFile(jfn.file, page), Stage::There(end))
    }
}

// The page of a fork into a file, which may be read and is there.
fn into_file(
    from: Slot,
    jfn: Jfn,
    page: u16,
    regs: &Regs,
    tables: &FileTables,
) -> Turn<MapChange, Stage>
    requires regs { CanGoOn regs.now }
    requires known { IsKnown tables.now jfn.file }
    requires page { page < FILE_PAGES }
    requires from { from.page < SPACE_PAGES }
    ensures turn { (who : AForkName) (tree : PlainTree) → whole who.tty tree result
        ≡ numbered_turn (key_of tables.now) (into_file_of (asked who regs.now tree tables.now) from (open_file tables.now.dir jfn) page) }
    ensures fits { FitsTurn IsStage IsMapChange result }
{
    if is_written(jfn) {
        Turn::Reads(from, put_end(from, jfn, page, regs, tables))
    } else {
        Turn::Ends(End::Refused(NOT_OPEN))
    }
}

/// The page of a place into another: two pages of files are refused.
pub fn mapping_into(
    from: PagePlace,
    to: PagePlace,
    regs: &Regs,
    tables: &FileTables,
) -> Turn<MapChange, Stage>
    requires regs { CanGoOn regs.now }
    requires from { IsPlaceIn tables.now from }
    requires to { IsPlaceIn tables.now to }
    ensures turn { (who : AForkName) (tree : PlainTree) → whole who.tty tree result
        ≡ numbered_turn (key_of tables.now) (mapping_into_of (asked who regs.now tree tables.now) (place_by tables.now from) (place_by tables.now to)) }
    ensures fits { FitsTurn IsStage IsMapChange result }
{
    match from {
        PagePlace::Fork(slot) => match to {
            PagePlace::Fork(into) => {
                let change = MapChange::Follow(into, slot, access_in(regs.ac[3]));
                Turn::Ends(maps(regs, change))
            }
            PagePlace::File(jfn, page) => into_file(slot, jfn, page, regs, tables),
        },
        PagePlace::File(jfn, page) => match to {
            PagePlace::Fork(into) => from_file(jfn, page, into, regs, tables),
            PagePlace::File(_, _) => Turn::Ends(End::Refused(FILE_TO_FILE)),
        },
    }
}

/// A place without its page.
pub fn unmapping(place: PagePlace, regs: &Regs, tables: &FileTables) -> Turn<MapChange, Stage>
    requires regs { CanGoOn regs.now }
    requires place { IsPlaceIn tables.now place }
    ensures turn { (who : AForkName) (tree : PlainTree) → whole who.tty tree result
        ≡ numbered_turn (key_of tables.now) (unmapping_of (asked who regs.now tree tables.now) (place_by tables.now place)) }
    ensures fits { FitsTurn IsStage IsMapChange result }
{
    match place {
        PagePlace::Fork(slot) => Turn::Ends(maps(regs, MapChange::Unmap(slot))),
        PagePlace::File(jfn, page) => {
            if is_written(jfn) {
                Turn::Ends(drop_end(jfn, page, regs, tables))
            } else {
                Turn::Ends(End::Refused(NOT_OPEN))
            }
        }
    }
}
