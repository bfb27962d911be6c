// The calls on maps by their numbers.
ghost use Rattle.std.specs.Prelude.{◌≡◌};
ghost use Rattle.plain_model.specs.MapCalls.{map_call};
ghost use Rattle.machine_names.specs.Bounds.{IsTerminal};
ghost use Rattle.call_turns.specs.Numbers.{numbered_turn};
ghost use Rattle.call_turns.specs.Turns.{IsRegs, FitsTurn};
ghost use Rattle.pmap_calls.specs.Asking.{asked};
ghost use Rattle.file_tables.specs.Keys.{key_of};
ghost use Rattle.pmap_calls.specs.Stages.{IsMapChange, IsStage, whole};

use crate::calls::{pmap, rmap, rpacs, spacs};
use crate::stage::Stage;
use call_turns::Turn;
use file_tables::FileTables;
use fork_tree::Tree;
use machine_names::ForkName;
use plain_model::call::{End, MapChange, PMAP, RMAP, RPACS, SPACS};
use plain_units::Regs;
use plain_units::channel::ILLEGAL_INSTRUCTION;

/// The first step of a call by its number. A number that is none of them traps as an illegal instruction.
pub fn first(
    number: u32,
    regs: &Regs,
    who: ForkName,
    tree: &Tree,
    tables: &FileTables,
) -> Turn<MapChange, Stage>
    requires regs { IsRegs regs.now }
    requires terminal { IsTerminal who.tty }
    ensures turn { whole who.tty tree.now result ≡ numbered_turn (key_of tables.now) (map_call number (asked who regs.now tree.now tables.now)) }
    ensures fits { FitsTurn IsStage IsMapChange result }
{
    match number {
        PMAP => pmap(regs, who, tree, tables),
        RPACS => rpacs(regs, who, tree, tables),
        SPACS => spacs(regs, who, tree, tables),
        RMAP => rmap(regs, who, tree, tables),
        _ => Turn::Ends(End::Trap(ILLEGAL_INSTRUCTION)),
    }
}
