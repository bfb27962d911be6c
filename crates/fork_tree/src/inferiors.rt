// Who stands below whom.
ghost use Rattle.std.specs.Prelude.{◌≡◌, ◌↔◌, IsTrue, MatchOption, Some, None, true, false};
ghost use Rattle.std.specs.Option.{option_copied};
ghost use Rattle.plain_model.specs.declared.fork.Fork.{Fork as AFork};
ghost use Rattle.plain_model.specs.Forks.{superior_of};
ghost use Rattle.plain_model.specs.Inferiors.{is_inferior, is_within};
ghost use Rattle.fork_tree.specs.Inferiors.{HasNoInferior, IsLastBelow, IsLeafBelow, IsLeafIn};
ghost use Rattle.fork_tree.specs.Trees.{IsIn, Lives};

use crate::tree::Tree;
use machine_names::{ForkName, MOST_FORKS};
use plain_model::Fork;

impl Tree {
    // Whether a fork has a superior of this name, or that one has, and so on.
    fn has_superior(&self, fork: &Fork, who: ForkName) -> bool
        ensures { result ≡ is_within MOST_FORKS self.now.forks who (superior_of self.now.forks fork.now) }
    {
        let mut next = self.superior(fork);
        for _superior in 0..MOST_FORKS {
            let Some(over) = next else {
                return false;
            };
            if over.name == who {
                return true;
            }
            next = self.superior(over);
        }
        false
    }

    /// Whether another fork is an inferior of a fork: it lives, and the fork is its superior, that one's superior, and so on. As many steps as
    /// it has superiors.
    #[tactic(auto, unfolding(plain_model::specs::Inferiors::is_inferior))]
    pub fn below(&self, who: ForkName, other: ForkName) -> bool
        ensures { result ≡ is_inferior self.now.forks who other }
    {
        match self.fork(other) {
            Some(fork) => self.has_superior(fork, who),
            None => false,
        }
    }

    // Whether the fork in a slot of its job has this one as its superior.
    fn is_superior_in(&self, fork: &Fork, slot: u8) -> bool
        ensures { IsTrue result ↔ ((g : AFork) × IsIn self.now.forks fork.now.name.tty slot g × (g.superior ≡ Some fork.now.slot)) }
    {
        match self.fork_at(fork.name.tty, slot) {
            Some(other) => other.superior == Some(fork.slot),
            None => false,
        }
    }

    // Whether no fork has this one as its superior.
    fn is_leaf(&self, fork: &Fork) -> bool
        requires { Lives self.now.forks fork.now }
        ensures { IsTrue result ↔ HasNoInferior self.now.forks fork.now.name }
    {
        for slot in 1..=self.forks.last(fork.name.tty) {
            if self.is_superior_in(fork, slot) {
                return false;
            }
        }
        true
    }

    // Whether a fork is an inferior of another, and has none itself.
    fn is_leaf_below(&self, who: ForkName, fork: &Fork) -> bool
        requires { Lives self.now.forks fork.now }
        ensures { IsTrue result ↔ IsLeafBelow self.now.forks who fork.now }
    {
        self.has_superior(fork, who) && self.is_leaf(fork)
    }

    // The fork in a slot of a job, where it is an inferior of a fork and has none itself.
    fn leaf_in(&self, who: ForkName, slot: u8) -> Option<&Fork>
        ensures { IsLeafIn self.now.forks who slot (option_copied result) }
    {
        match self.fork_at(who.tty, slot) {
            Some(fork) if self.is_leaf_below(who, fork) => Some(fork),
            _ => None,
        }
    }

    /// Of a fork's inferiors that have none themselves, the one in the highest slot: the first to be killed where the fork is killed with all
    /// below it (JSYS Manual, KFORK). None exactly where it has no inferior. The slots of one job are looked at, from the highest in use.
    pub fn last_below(&self, who: ForkName) -> Option<ForkName>
        ensures { MatchOption result (HasNoInferior self.now.forks who) (IsLastBelow self.now.forks who) }
    {
        if self.fork(who).is_none() {
            return None;
        }
        for below in (0..self.forks.last(who.tty)).rev() {
            if let Some(fork) = self.leaf_in(who, below + 1) {
                return Some(fork.name);
            }
        }
        None
    }
}
