// The first step of each call on maps, by its definition.
ghost use Rattle.std.specs.Prelude.{◌≡◌};
ghost use Rattle.machine_names.specs.Bounds.{IsTerminal};
ghost use Rattle.machine_names.specs.declared.names.Tty.{Tty as ATty};
ghost use Rattle.file_tables.specs.declared.tables.FileTables.{FileTables as AFileTables};
ghost use Rattle.plain_model.specs.MapCalls.{access_at as access_at_of, pmap as pmap_of, rmap as rmap_of, rpacs as rpacs_of, spacs as spacs_of};
ghost use Rattle.plain_model.specs.Trees.{PlainTree};
ghost use Rattle.call_turns.specs.Numbers.{numbered_turn};
ghost use Rattle.call_turns.specs.Turns.{IsRegs, FitsTurn};
ghost use Rattle.pmap_calls.specs.Asking.{IsPlaceIn, asked, place_by};
ghost use Rattle.file_tables.specs.Keys.{key_of};
ghost use Rattle.pmap_calls.specs.Stages.{IsMapChange, IsStage, whole};

use crate::naming::{PagePlace, place_named, slot_named};
use crate::pmap::one_page;
use crate::stage::Stage;
use call_turns::{Ask, Turn, accumulator, returning};
use file_tables::FileTables;
use fork_tree::Tree;
use machine_names::ForkName;
use map_words::{access_in, is_counted, pages_left};
use plain_model::call::{End, MapChange};
use plain_units::Regs;

// The access is told of a place.
fn access_at(place: PagePlace, regs: &Regs) -> Turn<MapChange, Stage>
    requires { IsRegs regs.now }
    ensures turn { (owner : ATty) (tree : PlainTree) (tables : AFileTables) → IsPlaceIn tables place
        → whole owner tree result ≡ numbered_turn (key_of tables) (access_at_of regs.now (place_by tables place)) }
    ensures fits { (tables : AFileTables) → IsPlaceIn tables place → FitsTurn IsStage IsMapChange result }
{
    match place {
        PagePlace::Fork(slot) => Turn::Asks(Ask::Sees(slot), Stage::Access(slot, *regs)),
        PagePlace::File(jfn, page) => {
            Turn::Asks(Ask::FindsFile(jfn.file, page), Stage::FileAccess(*regs))
        }
    }
}

/// RPACS: tells the access of a page of a fork or a file in accumulator 2. BAD_PAGE, NO_HANDLE, NO_JFN.
pub fn rpacs(regs: &Regs, who: ForkName, tree: &Tree, tables: &FileTables) -> Turn<MapChange, Stage>
    requires regs { IsRegs regs.now }
    requires terminal { IsTerminal who.tty }
    ensures turn { whole who.tty tree.now result ≡ numbered_turn (key_of tables.now) (rpacs_of (asked who regs.now tree.now tables.now)) }
    ensures fits { FitsTurn IsStage IsMapChange result }
{
    match place_named(tree, tables, who, accumulator(regs, 1)) {
        Ok(place) => access_at(place, regs),
        Err(code) => Turn::Ends(End::Refused(code)),
    }
}

/// SPACS: narrows the access of a page. BAD_PAGE, NO_HANDLE, NO_PAGE.
pub fn spacs(regs: &Regs, who: ForkName, tree: &Tree, tables: &FileTables) -> Turn<MapChange, Stage>
    requires { IsRegs regs.now }
    ensures turn { whole who.tty tree.now result ≡ numbered_turn (key_of tables.now) (spacs_of (asked who regs.now tree.now tables.now)) }
    ensures fits { FitsTurn IsStage IsMapChange result }
{
    match slot_named(tree, who, regs.ac[1]) {
        Ok(slot) => Turn::Asks(
            Ask::Sees(slot),
            Stage::Narrow(slot, access_in(regs.ac[2]), *regs),
        ),
        Err(code) => Turn::Ends(End::Refused(code)),
    }
}

/// RMAP: tells what a page follows in accumulator 1, and its access in accumulator 2. BAD_PAGE, NO_HANDLE.
pub fn rmap(regs: &Regs, who: ForkName, tree: &Tree, tables: &FileTables) -> Turn<MapChange, Stage>
    requires { IsRegs regs.now }
    ensures turn { whole who.tty tree.now result ≡ numbered_turn (key_of tables.now) (rmap_of (asked who regs.now tree.now tables.now)) }
    ensures fits { FitsTurn IsStage IsMapChange result }
{
    match slot_named(tree, who, regs.ac[1]) {
        Ok(slot) => Turn::Asks(Ask::Sees(slot), Stage::Source(slot, *regs)),
        Err(code) => Turn::Ends(End::Refused(code)),
    }
}

/// PMAP: maps a page of one place into another, or takes one away. BAD_PAGE; NO_HANDLE and NO_JFN; FILE_TO_FILE; NOT_OPEN, where a
/// file isn't open for the access; NO_PAGE, where there is no page to be mapped or it may not be read; NO_ROOM.
pub fn pmap(regs: &Regs, who: ForkName, tree: &Tree, tables: &FileTables) -> Turn<MapChange, Stage>
    requires regs { IsRegs regs.now }
    requires terminal { IsTerminal who.tty }
    ensures turn { whole who.tty tree.now result ≡ numbered_turn (key_of tables.now) (pmap_of (asked who regs.now tree.now tables.now)) }
    ensures fits { FitsTurn IsStage IsMapChange result }
{
    if is_counted(regs) && pages_left(regs) == 0 {
        return Turn::Ends(returning(MapChange::Nothing, *regs));
    }
    one_page(regs, who, tree, tables)
}
