// The tree of forks.
ghost use Rattle.std.specs.Prelude.{◌≡◌, None, Some, IsSome, IfOk};
ghost use Rattle.std.specs.Option.{option_copied, option_copied_mut, option_map};
ghost use Rattle.std.specs.Borrow.{sem};
ghost use Rattle.std.specs.FinMap as map;
ghost use Rattle.plain_model.specs.Forks.{fork_in, superior_of};
ghost use Rattle.fork_tree.specs.Changes.{body_in, with_body_of, with_mark_of};
ghost use Rattle.fork_tree.specs.Lending.{LendsAt, LendsOf};
ghost use Rattle.fork_tree.specs.Trees.{IsTree, no_forks};

use crate::fork_table::ForkTable;
use crate::notes::Notes;
use machine_names::{ForkName, TERMINALS, Tty};
use outside::Memory;
use plain_model::{Body, Fork};
use script_texts::ForkStatus;
use std::alloc::Global;
use std::marker::Model;

/// Why no fork is made.
#[derive(Clone, Copy, PartialEq, Eq)]
pub enum NoFork {
    /// The job has thirty forks.
    ForksFull,
    /// The serials of the terminal are used up.
    SerialsOut,
}

/// The forks of all jobs (CACM paper, "Forks"). A job's forks are a tree with its top fork in slot 1; each other fork has a superior. Only
/// `boot` takes memory.
#[derive(Drop)]
pub struct Tree {
    pub(crate) forks: ForkTable,
    /// The next serial of each terminal's forks.
    pub(crate) serials: Vec<u32>,
    /// Of each terminal, what is known of who waits for a character or to a moment.
    pub(crate) notes: Vec<Notes>,
}

impl Model for Tree {
    ghost use Rattle.plain_model.specs.Trees.{PlainTree};
    ghost use Rattle.fork_tree.specs.Trees.{tree_code};
    ghost use Rattle.fork_tree.specs.Waking.{IsKept};

    ghost Value = { PlainTree };

    ghost coded = { tree_code };

    ghost view = { λ t. record { forks = t.forks; serials = t.serials.items } };

    ghost invariant = { λ t. IsKept (record { forks = t.forks; serials = t.serials.items }) t.notes.items };
}

/// The name of a fork, where there is one.
pub(crate) fn name_of(fork: Option<&Fork>) -> Option<ForkName>
    ensures { result ≡ option_map (λ f. f.name) (option_copied fork.entry) }
{
    match fork {
        Some(fork) => Some(fork.name),
        None => None,
    }
}

impl Tree {
    /// No fork lives, and each terminal's first serial is 1.
    pub fn boot(alloc: Global) -> Result<Self, Memory>
        ensures { IfOk result (λ tree. tree ≡ no_forks) }
    {
        Ok(Tree {
            forks: ForkTable::boot(alloc)?,
            serials: vec![in alloc; 1; usize::from(TERMINALS)]?,
            notes: vec![in alloc; Notes::QUIET; usize::from(TERMINALS)]?,
        })
    }

    /// The forks of each job are a tree, whatever was done. It does nothing when it runs.
    #[inline(always)]
    pub fn are_trees(&self)
        ensures { IsTree self.now }
    {
        let _ = &self.forks;
    }

    /// The fork of a name. None exactly where none of that name lives. One step.
    pub fn fork(&self, name: ForkName) -> Option<&Fork>
        ensures found { option_copied result ≡ map.get self.now.forks name }
        ensures tree { IsTree self.now }
    {
        self.forks.fork(name)
    }

    /// The fork in a slot of a job, 1 to 30. None exactly where none is. One step.
    pub fn fork_at(&self, tty: Tty, slot: u8) -> Option<&Fork>
        ensures found { option_copied result ≡ fork_in self.now.forks tty slot }
        ensures tree { IsTree self.now }
    {
        self.forks.at(tty, slot)
    }

    /// The name of the fork in a slot of a job. None exactly where none is. One step.
    pub fn at(&self, tty: Tty, slot: u8) -> Option<ForkName>
        ensures { result ≡ option_map (λ f. f.name) (fork_in self.now.forks tty slot) }
    {
        name_of(self.fork_at(tty, slot))
    }

    /// The superior of a fork. None exactly where it is a top fork. One step.
    pub fn superior(&self, fork: &Fork) -> Option<&Fork>
        ensures { option_copied result ≡ superior_of self.now.forks fork.now }
    {
        match fork.superior {
            Some(slot) => self.fork_at(fork.name.tty, slot),
            None => None,
        }
    }

    /// How the fork of a name stands. None exactly where none of that name lives. One step.
    pub fn status(&self, name: ForkName) -> Option<ForkStatus>
        ensures { result ≡ option_map (λ f. f.body.status) (map.get self.now.forks name) }
    {
        let fork = self.fork(name)?;
        Some(fork.body.status)
    }

    /// The body of the fork in a slot of a job, to be changed in place. All else stays. One step.
    pub fn body_at(&mut self, tty: Tty, slot: u8) -> &mut Body
        requires { IsSome (fork_in self.old.forks tty slot) }
        ensures* writes_back { sem 𝓛 (LendsAt self.entry tty slot result) }
        ensures body { result.now ≡ body_in (fork_in self.old.forks tty slot) }
    {
        self.notes[usize::from(tty.0)] = Notes::LENT;
        self.forks.body_at(tty, slot)
    }

    /// The body of the fork of a name, to be changed in place. All else stays. None exactly where none of that name lives. One step.
    pub fn body_mut(&mut self, name: ForkName) -> Option<&mut Body>
        ensures* writes_back { sem 𝓛 (LendsOf self.entry name result) }
        ensures body { option_copied_mut result ≡ option_map (λ f. f.body) (map.get self.old.forks name) }
    {
        match self.fork(name) {
            Some(fork) => {
                let slot = fork.slot;
                Some(self.body_at(name.tty, slot))
            }
            None => None,
        }
    }

    /// The fork of a name has another body. Nothing changes where none of that name lives. One step.
    pub fn set_body(&mut self, name: ForkName, body: Body)
        ensures { self.new ≡ with_body_of self.old name body }
    {
        if let Some(old) = self.body_mut(name) {
            *old = body;
        }
    }

    /// A fork that lives has the freeze mark, or not (JSYS Manual, FFORK and RFORK). One step.
    pub fn freeze(&mut self, name: ForkName, on: bool)
        requires { IsSome (map.get self.old.forks name) }
        ensures { self.new ≡ with_mark_of self.old name on }
    {
        self.forks.set_mark(name, on);
    }
}
