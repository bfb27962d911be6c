// RUN: the top fork begins a program.
ghost use Rattle.std.specs.Prelude.{◌≡◌, ◌<◌, IfErr, IsOk, IsSome, None, OnErr, OnOk, true};
ghost use Rattle.std.specs.FinMap as map;
ghost use Rattle.machine_names.specs.Bounds.{IsAddress};
ghost use Rattle.machine_names.specs.declared.names.TheConstants.{MOST_FILES};
ghost use Rattle.page_contracts.specs.DrumWords.{DrumWords};
ghost use Rattle.plain_model.specs.Commands.{begun_at};
ghost use Rattle.plain_model.specs.Trees.{with_changed_of};
ghost use Rattle.fork_tree.specs.Trees.{IsTree};
ghost use Rattle.job_forks.specs.Holding.{Holds, parts};
ghost use Rattle.job_commands.specs.Leaving.{RunLeaves};
ghost use Rattle.job_commands.specs.Needing.{NeedsMap};
ghost use Rattle.job_commands.specs.Programs.{with_program_begun};
ghost use Rattle.script_texts.specs.declared.status.ForkStatus.TheVariants.{Run as Running};
ghost use Rattle.plain_model.specs.Forks.{first_regs, psi_at_rest};

use crate::leaving::ask_map;
use crate::program::map_program;
use fork_tree::Tree;
use machine_names::{ACCUMULATORS, FileNo, ForkName};
use page_contracts::{Need, Pages};
use plain_model::{Body, Psi};
use plain_units::Regs;
use script_texts::ForkStatus;
use word36::{Flags, Word};

// Nothing is in a fork's accumulators, it has no flags, its interrupts are at rest, it doesn't sleep, and it runs at an address.
#[tactic(auto, unfolding(plain_model::specs::Forks::first_regs, plain_model::specs::Forks::psi_at_rest))]
fn begin(body: &mut Body, address: u32)
    ensures { body.new ≡ (record body.old { status = Running; regs = record first_regs { pc = address }; psi = psi_at_rest; sleep = None }) }
{
    body.status = ForkStatus::Run;
    body.regs = Regs {
        ac: [Word::ZERO; ACCUMULATORS as usize],
        pc: address,
        flags: Flags::CLEAR,
    };
    body.psi = Psi::at_rest();
    body.sleep = None;
}

// A fork begins a program at an address, with no freeze mark.
fn begin_at(tree: &mut Tree, top: ForkName, address: u32)
    requires tree { IsTree tree.old }
    requires lives { IsSome (map.get tree.old.forks top) }
    ensures { tree.new ≡ with_changed_of tree.old top (begun_at address) }
{
    tree.freeze(top, false);
    if let Some(body) = tree.body_mut(top) {
        begin(body, address);
    }
}

/// RUN, at last: a fork's map becomes that of the program in a file, and the fork begins at an address. Err: its map is in no frame; nothing changes then.
pub fn begin_program<P: Pages>(
    top: ForkName,
    file: FileNo,
    address: u32,
    tree: &mut Tree,
    pages: &mut P,
) -> Result<(), Need>
    requires lives { IsSome (map.get tree.old.forks top) }
    requires file { file.0 < MOST_FILES }
    requires address { IsAddress address }
    requires holds { Holds P.means pages.old tree.old.forks }
    ensures told { (d : DrumWords) → P.means.fits pages.old d
        → OnOk result (P.means.fits pages.new d × (parts tree.new (P.means.plain pages.new d) ≡ with_program_begun (parts tree.old (P.means.plain pages.old d)) top file.0 address)) }
    ensures leaves { OnOk result (RunLeaves P.means pages.old pages.new tree.old tree.new top) }
    ensures needs { IfErr result (NeedsMap P.means pages.old top) }
    ensures stays { OnErr result ((tree.new ≡ tree.old) × (pages.new ≡ pages.old)) }
    ensures core { P.means.flat ≡ true → IsOk result }
{
    ask_map(top, pages)?;
    map_program(pages, top, file);
    tree.are_trees();
    begin_at(tree, top, address);
    tree.are_trees();
    Ok(())
}
