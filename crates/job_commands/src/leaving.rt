// LOGOUT, and RUN before its program begins: a job's forks are killed, one after another.
ghost use Rattle.std.specs.Prelude.{◌≡◌, IfErr, IfOk, IsOk, None, OnErr, OnOk, is_some, true};
ghost use Rattle.event_deeds.specs.Leaves.{last_below as last_below_of};
ghost use Rattle.page_contracts.specs.DrumWords.{DrumWords};
ghost use Rattle.fork_tree.specs.Inferiors.{HasNoInferior, without};
ghost use Rattle.job_forks.specs.Holding.{Holds, parts};
ghost use Rattle.job_commands.specs.Leaving.{IsTop, LogoutLeaves, RunLeaves, without_last};
ghost use Rattle.job_commands.specs.Needing.{NeedsLast, NeedsMap};

use fork_tree::Tree;
use job_forks::kill_bare;
use machine_names::{ForkName, Slot};
use page_contracts::{Need, Pages, Seen};

// Asks for the map of a fork that lives. Err: it is in no frame.
pub(crate) fn ask_map<P: Pages>(name: ForkName, pages: &P) -> Result<(), Need>
    requires lives { P.means.lives pages.now name ≡ true }
    ensures there { OnOk result ((P.means.scene pages.now).map_away name ≡ None) }
    ensures needs { IfErr result (NeedsMap P.means pages.now name) }
    ensures core { P.means.flat ≡ true → IsOk result }
{
    match pages.entry(Slot {
        fork: name,
        page: 0,
    }) {
        Seen::Is(_) => Ok(()),
        Seen::Missing => Ok(()),
        Seen::Absent(home) => Err(Need::Page(home)),
    }
}

/// Of a fork's inferiors that have none themselves, the one in the highest slot is killed, with its map; nobody is told. Whether there is one. Err: its map
/// is in no frame; nothing changes then.
pub fn kill_next<P: Pages>(who: ForkName, tree: &mut Tree, pages: &mut P) -> Result<bool, Need>
    requires holds { Holds P.means pages.old tree.old.forks }
    ensures some { IfOk result (λ some. some ≡ is_some (last_below_of tree.old.forks who)) }
    ensures told { (d : DrumWords) → P.means.fits pages.old d
        → OnOk result (P.means.fits pages.new d × (parts tree.new (P.means.plain pages.new d) ≡ without_last (parts tree.old (P.means.plain pages.old d)) who)) }
    ensures leaves { OnOk result (RunLeaves P.means pages.old pages.new tree.old tree.new who) }
    ensures needs { IfErr result (λ need. NeedsLast P.means pages.old (last_below_of tree.old.forks who) need) }
    ensures stays { OnErr result ((tree.new ≡ tree.old) × (pages.new ≡ pages.old)) }
    ensures core { P.means.flat ≡ true → IsOk result }
{
    tree.are_trees();
    let Some(name) = tree.last_below(who) else {
        return Ok(false);
    };
    match ask_map(name, pages) {
        Ok(()) => {
            kill_bare(name, tree, pages);
            Ok(true)
        }
        Err(need) => Err(need),
    }
}

/// LOGOUT, at last: the top fork of a job, which has no inferior, is killed, and so the job has no fork. Err: its map is in no frame; nothing changes then.
pub fn kill_top<P: Pages>(top: ForkName, tree: &mut Tree, pages: &mut P) -> Result<(), Need>
    requires top { IsTop tree.old.forks top }
    requires bare { HasNoInferior tree.old.forks top }
    requires holds { Holds P.means pages.old tree.old.forks }
    ensures told { (d : DrumWords) → P.means.fits pages.old d
        → OnOk result (P.means.fits pages.new d × (parts tree.new (P.means.plain pages.new d) ≡ without (parts tree.old (P.means.plain pages.old d)) top)) }
    ensures leaves { OnOk result (LogoutLeaves P.means pages.old pages.new tree.old tree.new top) }
    ensures needs { IfErr result (NeedsMap P.means pages.old top) }
    ensures stays { OnErr result ((tree.new ≡ tree.old) × (pages.new ≡ pages.old)) }
    ensures core { P.means.flat ≡ true → IsOk result }
{
    tree.are_trees();
    ask_map(top, pages)?;
    kill_bare(top, tree, pages);
    tree.are_trees();
    Ok(())
}
