// Forks are killed, with all below them.
ghost use Rattle.std.specs.Prelude.{◌≡◌, ◌≤◌, IfErr, IsOk, IsSome, None, true};
ghost use Rattle.std.specs.FinMap as map;
ghost use Rattle.plain_model.specs.ForkCalls.{without_inferiors};
ghost use Rattle.plain_model.specs.Forks.{OthersStay};
ghost use Rattle.machine_names.specs.declared.names.ForkName.{ForkName as AForkName};
ghost use Rattle.machine_names.specs.declared.names.Tty.{Tty as ATty};
ghost use Rattle.page_contracts.specs.DrumWords.{DrumWords};
ghost use Rattle.page_contracts.specs.Pages.{MayLose};
ghost use Rattle.page_contracts.specs.Stores.{IsNeeded};
ghost use Rattle.plain_pages.specs.References.{without_fork};
ghost use Rattle.fork_tree.specs.Inferiors.{HasNoInferior};
ghost use Rattle.job_forks.specs.Holding.{ComeFrom, Holds, MakesPages, TopsStay, parts};
ghost use Rattle.job_forks.specs.Killing.{AreMapsHere, IsKilledAway, IsMapAway};

use fork_tree::Tree;
use machine_names::{ForkName, MOST_FORKS, Slot};
use page_contracts::{Need, Pages, Seen};

// Asks for the map of a fork that lives.
fn ask_map<P: Pages>(name: ForkName, pages: &P) -> Result<(), Need>
    requires lives { P.means.lives pages.now name ≡ true }
    ensures there { IsOk result → (P.means.scene pages.now).map_away name ≡ None }
    ensures told { (d : DrumWords) → P.means.fits pages.now d → IfErr result (IsMapAway (P.means.scene pages.now) name) }
    ensures needs { IfErr result (IsNeeded P.means.store 1 pages.now) }
    ensures core { P.means.flat ≡ true → IsOk result }
{
    match pages.entry(Slot {
        fork: name,
        page: 0,
    }) {
        Seen::Is(_) => Ok(()),
        Seen::Missing => Ok(()),
        Seen::Absent(home) => Err(Need::Page(home)),
    }
}

/// Asks for the maps of a fork and of all below it. Err: one of them is in no frame.
pub fn ask_maps<P: Pages>(name: ForkName, tree: &Tree, pages: &P) -> Result<(), Need>
    requires lives { IsSome (map.get tree.now.forks name) }
    requires holds { Holds P.means pages.now tree.now.forks }
    ensures there { IsOk result → AreMapsHere (P.means.scene pages.now) tree.now.forks name }
    ensures told { (d : DrumWords) → P.means.fits pages.now d → IfErr result (IsKilledAway (P.means.scene pages.now) tree.now.forks name) }
    ensures needs { IfErr result (IsNeeded P.means.store 1 pages.now) }
    ensures core { P.means.flat ≡ true → IsOk result }
{
    tree.are_trees();
    ask_map(name, pages)?;
    for slot in 1..=MOST_FORKS {
        if let Some(fork) = tree.fork_at(name.tty, slot) {
            if tree.below(name, fork.name) {
                ask_map(fork.name, pages)?;
            }
        }
    }
    Ok(())
}

/// Kills all below a fork, whose maps and its own are in frames: each time the one that has none below itself and the highest
/// slot, with its map. Nobody is told.
pub fn kill_below<P: Pages>(who: ForkName, tree: &mut Tree, pages: &mut P)
    requires holds { Holds P.means pages.old tree.old.forks }
    requires maps { AreMapsHere (P.means.scene pages.old) tree.old.forks who }
    ensures told { (d : DrumWords) → P.means.fits pages.old d
        → P.means.fits pages.new d × (without_inferiors (parts tree.old (P.means.plain pages.old d)) who ≡ parts tree.new (P.means.plain pages.new d)) }
    ensures holds { Holds P.means pages.new tree.new.forks }
    ensures maps { (P.means.scene pages.new).map_away who ≡ None }
    ensures kept { ComeFrom tree.old.forks tree.new.forks }
    ensures tops { TopsStay tree.old.forks tree.new.forks }
    ensures made { (t : ATty) → MakesPages P.means t 0 pages.old pages.new }
    ensures loses { MayLose P.means pages.old pages.new }
    ensures others { OthersStay who.tty tree.old.forks tree.new.forks }
    ensures older { (q : AForkName) → q.serial ≤ who.serial → map.get tree.new.forks q ≡ map.get tree.old.forks q }
    ensures bare { HasNoInferior tree.new.forks who }
{
    for _round in 0..MOST_FORKS {
        tree.are_trees();
        match tree.last_below(who) {
            Some(name) => kill_bare(name, tree, pages),
            None => return,
        }
    }
    tree.are_trees();
}

/// Kills a fork that has none below itself, with its map, which is in a frame. Nobody is told.
pub fn kill_bare<P: Pages>(name: ForkName, tree: &mut Tree, pages: &mut P)
    requires lives { IsSome (map.get tree.old.forks name) }
    requires bare { HasNoInferior tree.old.forks name }
    requires holds { Holds P.means pages.old tree.old.forks }
    requires map { (P.means.scene pages.old).map_away name ≡ None }
    ensures tree { tree.new ≡ record tree.old { forks = map.remove tree.old.forks name } }
    ensures told { (d : DrumWords) → P.means.fits pages.old d
        → P.means.fits pages.new d × (P.means.plain pages.new d ≡ without_fork (P.means.plain pages.old d) name) }
    ensures holds { Holds P.means pages.new tree.new.forks }
    ensures kept { ComeFrom tree.old.forks tree.new.forks }
    ensures made { (t : ATty) → MakesPages P.means t 0 pages.old pages.new }
    ensures loses { MayLose P.means pages.old pages.new }
    ensures maps { (f : AForkName) → (P.means.scene pages.old).map_away f ≡ None → (P.means.scene pages.new).map_away f ≡ None }
{
    tree.are_trees();
    tree.kill(name);
    tree.are_trees();
    pages.drop_fork(name);
}
