// Forks come and go.
ghost use Rattle.std.specs.Prelude.{◌≡◌, None, Some, IsSome, MatchOption};
ghost use Rattle.std.specs.Option.{option_copied};
ghost use Rattle.std.specs.FinMap as map;
ghost use Rattle.plain_model.specs.Forks.{fork_in};
ghost use Rattle.machine_names.specs.Bounds.{IsTerminal};
ghost use Rattle.fork_tree.specs.Inferiors.{HasNoInferior};
ghost use Rattle.plain_model.specs.Trees.{new_fork, next_name};
ghost use Rattle.fork_tree.specs.Making.{Makes, last_name, room_for, slot_for};

use crate::tree::{NoFork, Tree};
use machine_names::{ACCUMULATORS, ForkName, LAST_SERIAL, Tty};
use plain_model::{Body, Fork, Psi};
use plain_units::Regs;
use script_texts::ForkStatus;
use word36::{Flags, Word};

// A new fork, in a slot and under a superior or as a top fork.
fn new_fork(name: ForkName, slot: u8, superior: Option<u8>) -> Fork
    ensures { result ≡ new_fork name slot superior }
{
    let regs = Regs {
        ac: [Word::ZERO; ACCUMULATORS as usize],
        pc: 0,
        flags: Flags::CLEAR,
    };
    let body = Body {
        status: ForkStatus::Halted,
        regs,
        psi: Psi::at_rest(),
        sleep: None,
        units: 0,
        error: 0,
    };
    Fork {
        name,
        slot,
        superior,
        frozen: false,
        body,
    }
}

impl Tree {
    /// Whether a job may have a fork more. ForksFull exactly where each of its thirty slots has a fork, and else SerialsOut exactly where the
    /// last serial of the terminal was used. One step.
    pub fn can_make(&self, tty: Tty) -> Result<(), NoFork>
        requires { IsTerminal tty }
        ensures { result ≡ room_for self.now tty }
    {
        if self.forks.free_slot(tty).is_none() {
            return Err(NoFork::ForksFull);
        }
        if self.serials[usize::from(tty.0)] > LAST_SERIAL {
            return Err(NoFork::SerialsOut);
        }
        Ok(())
    }

    /// The name that the next fork of a terminal has.
    pub fn next_name(&self, tty: Tty) -> ForkName
        requires { IsTerminal tty }
        ensures { result ≡ next_name self.now tty }
    {
        ForkName {
            tty,
            serial: self.serials[usize::from(tty.0)],
        }
    }

    /// The fork that was made last at a terminal. None exactly where it lives no more, or none was made. One step.
    pub fn newest(&self, tty: Tty) -> Option<&Fork>
        requires { IsTerminal tty }
        ensures { option_copied result ≡ map.get self.now.forks (last_name self.now tty) }
    {
        self.are_trees();
        self.fork(ForkName {
            tty,
            serial: self.serials[usize::from(tty.0)] - 1,
        })
    }

    /// The slot that the next fork of a job would have, refused as `can_make` says. One step.
    pub fn slot_for(&self, tty: Tty) -> Result<u8, NoFork>
        requires { IsTerminal tty }
        ensures { result ≡ slot_for self.now tty }
    {
        let Some(slot) = self.forks.free_slot(tty) else {
            return Err(NoFork::ForksFull);
        };
        if self.serials[usize::from(tty.0)] > LAST_SERIAL {
            return Err(NoFork::SerialsOut);
        }
        Ok(slot)
    }

    /// Makes a fork in the least free slot of a job, with the terminal's next serial: halted, at address 0, with nothing in its accumulators
    /// (JSYS Manual, CFORK). Its superior is in a slot that is in use; a top fork is the first of its job. It is refused as `can_make` says,
    /// and then nothing changes. One step.
    pub fn make(&mut self, tty: Tty, superior: Option<u8>) -> Result<ForkName, NoFork>
        requires terminal { IsTerminal tty }
        requires superior { MatchOption superior (fork_in self.old.forks tty 1 ≡ None) (λ slot. IsSome (fork_in self.old.forks tty slot)) }
        ensures { Makes self.old self.new tty superior result }
    {
        let Some(slot) = self.forks.free_slot(tty) else {
            return Err(NoFork::ForksFull);
        };
        let serial = self.serials[usize::from(tty.0)];
        if serial > LAST_SERIAL {
            return Err(NoFork::SerialsOut);
        }
        let name = ForkName { tty, serial };
        self.forks.insert(new_fork(name, slot, superior));
        self.serials[usize::from(tty.0)] = serial + 1;
        Ok(name)
    }

    /// Kills a fork that lives and has no inferior. All others stay (JSYS Manual, KFORK). Thirty looks at most.
    pub fn kill(&mut self, name: ForkName)
        requires lives { IsSome (map.get self.old.forks name) }
        requires leaf { HasNoInferior self.old.forks name }
        ensures { self.new ≡ record self.old { forks = map.remove self.old.forks name } }
    {
        self.forks.remove(name);
    }
}
