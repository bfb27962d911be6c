// The parts of the system that the layers above look at.
ghost use Rattle.std.specs.Prelude.{◌≡◌, is_some};
ghost use Rattle.machine_names.specs.Bounds.{IsTerminal};
ghost use Rattle.plain_model.specs.Forks.{IsRunnable};
ghost use Rattle.fork_tree.specs.Trees.{IsTree};
ghost use Rattle.job_forks.specs.Limits.{AreWithin};
ghost use Rattle.monitor_calls.specs.Jobs.{job_at};
ghost use Rattle.step_shown.specs.Runners.{IsRunner};

use crate::system::System;
use file_tables::FileTables;
use fork_tree::Tree;
use machine_names::{ForkName, Tty};
use page_contracts::Pages;
use step_shown::Runner;

impl<P: Pages> System<P> {
    /// The forks of all jobs.
    #[inline]
    pub fn forks(&self) -> &Tree
        ensures forks { result.now ≡ self.now.tree }
        ensures trees { IsTree self.now.tree }
        ensures bodies { AreWithin result.now.forks }
    {
        self.tree.are_trees();
        &self.tree
    }

    /// The files, and the JFNs of all jobs.
    #[inline]
    pub fn files(&self) -> &FileTables
        ensures { result.now ≡ self.now.files }
    {
        &self.files
    }

    /// The pages of forks and files.
    #[inline]
    pub fn pages(&self) -> &P
        ensures { result.now ≡ self.now.pages }
    {
        &self.pages
    }

    /// Whether a terminal has a job.
    pub fn has_job(&self, t: Tty) -> bool
        requires { IsTerminal t }
        ensures { result ≡ is_some (job_at self.now.jobs.items t.0) }
    {
        self.jobs[t.0 as usize].is_some()
    }

    /// The forks of each job are a tree. It does nothing when it runs.
    #[inline(always)]
    pub fn trees(&self)
        ensures { IsTree self.now.tree }
    {
        self.tree.are_trees();
    }

    /// A fork that can run, with its slot. One step.
    #[inline]
    pub fn runner(&self, name: ForkName) -> Runner
        requires { IsRunnable self.now.tree.forks name }
        ensures runner { IsRunner self.now.tree result }
        ensures name { result.fork ≡ name }
    {
        self.tree.are_trees();
        match self.tree.fork(name) {
            Some(fork) => Runner {
                fork: name,
                slot: fork.slot,
            },
            None => unreachable!(),
        }
    }
}
