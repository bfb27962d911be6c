// What follows from the definitions, in the words of their users. A law does nothing when it runs.
ghost use Rattle.std.specs.Prelude.{◌≡◌, ◌≢◌, ◌↔◌, ◌≤◌, ◌<◌, ◌||◌, ℕ, Option, Some, None, Ok, Err, Contains, MatchBool, MatchOption, length, true, false};
ghost use Rattle.std.specs.FinMap as map;
ghost use Rattle.plain_model.specs.declared.fork.Fork.{Fork as AFork};
ghost use Rattle.machine_names.specs.declared.names.ForkName.{ForkName as AForkName};
ghost use Rattle.machine_names.specs.declared.names.Tty.{Tty as ATty};
ghost use Rattle.machine_names.specs.declared.names.TheConstants.{MOST_FORKS};
ghost use Rattle.plain_model.specs.declared.interrupt.TheConstants.{CHANNELS};
ghost use Rattle.plain_model.specs.Forks.{ForkMap, IsRunnable, fork_in, forks_by_slot, is_frozen, with_status};
ghost use Rattle.plain_model.specs.Interrupts.{has_channel, is_panic, listens, posted};
ghost use Rattle.machine_names.specs.Orders.{same_fork};
ghost use Rattle.plain_model.specs.State.{opening};
ghost use Rattle.std.specs.Option.{option_map};
ghost use Rattle.std.specs.Ordering.{nat_cmp};
ghost use Rattle.plain_model.specs.Inferiors.{is_in_branch, is_inferior};
ghost use Rattle.fork_tree.specs.Inferiors.{HasNoInferior, IsInferior, IsLeafBelow, without, without_branch};
ghost use Rattle.plain_model.specs.Trees.{new_fork, PlainTree, tree_of, unwaited, waiters_woken};
ghost use Rattle.plain_model.specs.ForkCalls.{ForkParts, killed, without_inferiors};
ghost use Rattle.fork_tree.specs.Making.{Makes, room_for};
ghost use Rattle.fork_tree.specs.Trees.{IsAncestor, IsTree, Lives, above};

use crate::NoFork;
use script_texts::ForkStatus;

/// The forks of the opening state are trees.
pub fn trees_from_the_opening()
    ensures { (limit : ℕ) → IsTree (tree_of (opening limit)) }
{}

/// A fork that was made is found under its name, which no fork had, and in a slot that was free, with the
/// superior that was given. Every other fork stays.
pub fn a_made_fork_is_found()
    ensures found { (old new : PlainTree) (t : ATty) (superior : Option ℕ) (name : AForkName) → IsTree old → IsTree new → Makes old new t superior (Ok name)
        → (slot : ℕ) × (map.get new.forks name ≡ Some (new_fork name slot superior)) × (fork_in new.forks t slot ≡ Some (new_fork name slot superior))
        × (map.get old.forks name ≡ None) × (fork_in old.forks t slot ≡ None) }
    ensures others { (old new : PlainTree) (t : ATty) (superior : Option ℕ) (name : AForkName) → Makes old new t superior (Ok name)
        → (q : AForkName) → q ≢ name → map.get new.forks q ≡ map.get old.forks q }
{}

/// A job has at most thirty forks, each once in the list by slots, and is full exactly where it has thirty.
pub fn a_full_job_has_thirty_forks()
    ensures most { (forks : ForkMap) (t : ATty) → length (forks_by_slot forks t) ≤ MOST_FORKS }
    ensures listed { (tree : PlainTree) (f : AFork) → IsTree tree → Lives tree.forks f → Contains (forks_by_slot tree.forks f.name.tty) f }
    ensures full { (tree : PlainTree) (t : ATty) → (room_for tree t ≡ Err NoFork.ForksFull) ↔ (length (forks_by_slot tree.forks t) ≡ MOST_FORKS) }
{}

/// An ancestor lives, in the same job, and is older; so nobody is its own ancestor, and nobody has thirty.
pub fn ancestors_are_older()
    ensures older { (tree : PlainTree) (f g : AFork) → IsTree tree → Lives tree.forks f → IsAncestor tree.forks g f
        → Lives tree.forks g × (g.name.tty.0 ≡ f.name.tty.0) × (g.name.serial < f.name.serial) }
    ensures apart { (tree : PlainTree) (f : AFork) → IsTree tree → Lives tree.forks f → IsAncestor tree.forks f f → ⊥ }
    ensures few { (tree : PlainTree) (f : AFork) → IsTree tree → Lives tree.forks f → above MOST_FORKS tree.forks f ≡ None }
{}

/// A fork is an inferior of another exactly where the other is its ancestor.
pub fn inferiors_have_it_above()
    ensures { (tree : PlainTree) (who name : AForkName) → IsTree tree → (is_inferior tree.forks who name ≡ true) ↔ IsInferior tree.forks who name }
{}

/// A fork is frozen exactly where it or an ancestor is marked; and a fork can run exactly where it lives, its status
/// is Run, and it is not frozen.
pub fn forks_are_frozen_from_above()
    ensures frozen { (tree : PlainTree) (f : AFork) → IsTree tree → Lives tree.forks f
        → (is_frozen MOST_FORKS tree.forks (Some f) ≡ false) ↔ ((f.frozen ≡ false) × ((g : AFork) → IsAncestor tree.forks g f → g.frozen ≡ false)) }
    ensures runs { (forks : ForkMap) (name : AForkName) → IsRunnable forks name ↔ ((f : AFork) × (map.get forks name ≡ Some f) × (f.body.status ≡ ForkStatus.Run) × (is_frozen MOST_FORKS forks (Some f) ≡ false)) }
{}

/// Who kills a fork's inferiors that have none themselves, one after another, and then the fork, kills the fork
/// and all its inferiors and nobody else.
pub fn a_branch_is_killed_from_below()
    ensures gone { (forks : ForkMap) (who name : AForkName)
        → MatchBool (is_in_branch forks who name) (map.get (without_branch forks who) name ≡ None) (map.get (without_branch forks who) name ≡ map.get forks name) }
    ensures leaf { (tree : PlainTree) (who : AForkName) (f : AFork) → IsTree tree → IsLeafBelow tree.forks who f → without_branch (map.remove tree.forks f.name) who ≡ without_branch tree.forks who }
    ensures last { (forks : ForkMap) (who : AForkName) → HasNoInferior forks who → without_branch forks who ≡ map.remove forks who }
{}

/// A fork that is killed goes with all its inferiors and with nobody else. The forks and pages that are left are the same where they go one
/// after another: first an inferior that has none itself, each time, and the fork itself last.
pub fn a_killed_fork_takes_its_branch()
    ensures branch { (v : ForkParts nat_cmp) (who : AForkName) → (killed v who).tree.forks ≡ without_branch v.tree.forks who }
    ensures leaf { (v : ForkParts nat_cmp) (who : AForkName) (f : AFork) → IsTree v.tree → IsLeafBelow v.tree.forks who f → without_inferiors (without v f.name) who ≡ without_inferiors v who }
    ensures none { (v : ForkParts nat_cmp) (who : AForkName) → HasNoInferior v.tree.forks who → without_inferiors v who ≡ v }
    ensures last { (v : ForkParts nat_cmp) (who : AForkName) → killed v who ≡ without (without_inferiors v who) who }
{}

/// Where a fork of a job ends, each fork of that job that waits for one runs again, and every other fork stays as it was.
pub fn waiters_of_a_job_run_again()
    ensures job { (tree : PlainTree) (t : ATty) (f : AFork) → IsTree tree → Lives tree.forks f → f.name.tty.0 ≡ t.0
        → map.get (waiters_woken tree.forks t) f.name ≡ Some (unwaited f) }
    ensures others { (tree : PlainTree) (t : ATty) (f : AFork) → IsTree tree → Lives tree.forks f → (f.name.tty.0 ≡ t.0 → ⊥)
        → map.get (waiters_woken tree.forks t) f.name ≡ Some f }
{}

/// A channel that a fork takes is pending once it is posted, and no other becomes so. One that it does not take forces the fork, where it is a
/// panic channel, and otherwise nothing changes.
pub fn a_posted_channel_is_pending()
    ensures taken { (f : AFork) (c : ℕ) → c < CHANNELS → listens f.body.psi c ≡ true → has_channel (posted f c).body.psi.pending c ≡ true }
    ensures others { (f : AFork) (c d : ℕ) → c < CHANNELS → d < CHANNELS → d ≢ c → has_channel (posted f c).body.psi.pending d ≡ has_channel f.body.psi.pending d }
    ensures forced { (f : AFork) (c : ℕ) → listens f.body.psi c ≡ false → is_panic c ≡ true → posted f c ≡ with_status f (ForkStatus.Forced c) }
    ensures dropped { (f : AFork) (c : ℕ) → listens f.body.psi c ≡ false → is_panic c ≡ false → posted f c ≡ f }
{}
