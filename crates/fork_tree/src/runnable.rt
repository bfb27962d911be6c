// Which forks can run.
ghost use Rattle.std.specs.Prelude.{◌≡◌, ◌↔◌, IsTrue, Some};
ghost use Rattle.machine_names.specs.declared.names.ForkName.{ForkName as AForkName};
ghost use Rattle.plain_model.specs.Forks.{IsRunnable, can_run, is_frozen};

use crate::tree::Tree;
use machine_names::{ForkName, MOST_FORKS};
use plain_model::Fork;
use script_texts::ForkStatus;

impl Tree {
    // Whether a fork or one of its ancestors is marked frozen.
    fn is_frozen(&self, fork: &Fork) -> bool
        ensures { result ≡ is_frozen MOST_FORKS self.now.forks (Some fork.now) }
    {
        let mut next = Some(fork);
        for _ancestor in 0..MOST_FORKS {
            let Some(fork) = next else {
                return false;
            };
            if fork.frozen {
                return true;
            }
            next = self.superior(fork);
        }
        false
    }

    // Whether a fork can run.
    fn can_run(&self, fork: &Fork) -> bool
        ensures { result ≡ can_run self.now.forks fork.now }
    {
        match fork.body.status {
            ForkStatus::Run => !self.is_frozen(fork),
            ForkStatus::Wait(_) | ForkStatus::Halted | ForkStatus::Forced(_) => false,
        }
    }

    /// Whether the fork of a name can run: it lives, its status is Run, and neither it nor an ancestor is marked frozen. As many steps as it has
    /// superiors.
    pub fn runnable(&self, name: ForkName) -> bool
        ensures { IsTrue result ↔ IsRunnable self.now.forks name }
    {
        match self.fork(name) {
            Some(fork) => self.can_run(fork),
            None => false,
        }
    }
}
