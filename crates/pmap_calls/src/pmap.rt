// What PMAP does with one page.
ghost use Rattle.std.specs.Prelude.{◌≡◌, IfOk};
ghost use Rattle.machine_names.specs.Bounds.{IsTerminal};
ghost use Rattle.plain_model.specs.MapCalls.{one_page as one_page_of, places_named as places_named_of};
ghost use Rattle.call_turns.specs.Numbers.{numbered_turn, named_by};
ghost use Rattle.call_turns.specs.Turns.{FitsTurn, IsRegs};
ghost use Rattle.pmap_calls.specs.Asking.{ArePlacesIn, asked, places_by};
ghost use Rattle.file_tables.specs.Keys.{key_of};
ghost use Rattle.pmap_calls.specs.Paging.{CanGoOn, mapping_named, unmapping_named};
ghost use Rattle.pmap_calls.specs.Stages.{IsMapChange, IsStage, whole};

use crate::mapping::{mapping_into, unmapping};
use crate::naming::{PagePlace, names_page, place_named, place_of};
use crate::stage::Stage;
use call_turns::Turn;
use file_tables::FileTables;
use fork_tree::Tree;
use machine_names::ForkName;
use map_words::NO_SOURCE;
use plain_model::call::{BAD_PAGE, End, MapChange};
use plain_units::Regs;

// The places that accumulators 1 and 2 name; both numbers are to be those of pages.
fn places_named(
    regs: &Regs,
    who: ForkName,
    tree: &Tree,
    tables: &FileTables,
) -> Result<(PagePlace, PagePlace), u32>
    requires regs { IsRegs regs.now }
    requires terminal { IsTerminal who.tty }
    ensures places { named_by (places_by tables.now) result ≡ places_named_of (asked who regs.now tree.now tables.now) }
    ensures sound { IfOk result (ArePlacesIn tables.now) }
{
    if !names_page(regs.ac[1]) {
        return Err(BAD_PAGE);
    }
    if !names_page(regs.ac[2]) {
        return Err(BAD_PAGE);
    }
    match place_of(tree, tables, who, regs.ac[1]) {
        Ok(from) => match place_of(tree, tables, who, regs.ac[2]) {
            Ok(to) => Ok((from, to)),
            Err(code) => Err(code),
        },
        Err(code) => Err(code),
    }
}

// The page of the place that accumulator 1 names is mapped into the one that accumulator 2 names.
fn map(regs: &Regs, who: ForkName, tree: &Tree, tables: &FileTables) -> Turn<MapChange, Stage>
    requires regs { CanGoOn regs.now }
    requires terminal { IsTerminal who.tty }
    ensures turn { whole who.tty tree.now result ≡ numbered_turn (key_of tables.now) (mapping_named (asked who regs.now tree.now tables.now)) }
    ensures fits { FitsTurn IsStage IsMapChange result }
{
    match places_named(regs, who, tree, tables) {
        Ok((from, to)) => mapping_into(from, to, regs, tables),
        Err(code) => Turn::Ends(End::Refused(code)),
    }
}

// The place that accumulator 2 names loses its page.
fn unmap(regs: &Regs, who: ForkName, tree: &Tree, tables: &FileTables) -> Turn<MapChange, Stage>
    requires regs { CanGoOn regs.now }
    requires terminal { IsTerminal who.tty }
    ensures turn { whole who.tty tree.now result ≡ numbered_turn (key_of tables.now) (unmapping_named (asked who regs.now tree.now tables.now)) }
    ensures fits { FitsTurn IsStage IsMapChange result }
{
    match place_named(tree, tables, who, regs.ac[2]) {
        Ok(place) => unmapping(place, regs, tables),
        Err(code) => Turn::Ends(End::Refused(code)),
    }
}

/// What PMAP does with one page: a source of all ones takes the destination's page away.
#[tactic(auto, unfolding(plain_model::specs::MapCalls::one_page))]
pub fn one_page(
    regs: &Regs,
    who: ForkName,
    tree: &Tree,
    tables: &FileTables,
) -> Turn<MapChange, Stage>
    requires regs { CanGoOn regs.now }
    requires terminal { IsTerminal who.tty }
    ensures turn { whole who.tty tree.now result ≡ numbered_turn (key_of tables.now) (one_page_of (asked who regs.now tree.now tables.now)) }
    ensures fits { FitsTurn IsStage IsMapChange result }
{
    if regs.ac[1].value() == NO_SOURCE {
        unmap(regs, who, tree, tables)
    } else {
        map(regs, who, tree, tables)
    }
}
