// What a machine shows, and what is told of it without a drum.
ghost use Rattle.std.specs.Prelude.{◌≡◌, ◌≤◌, [], OnErr, OnOk, is_some};
ghost use Rattle.std.specs.FinMap as map;
ghost use Rattle.fork_lists.specs.Ties.{AreTied};
ghost use Rattle.fork_tree.specs.Trees.{IsTree};
ghost use Rattle.job_sched.specs.Ties.{IsSound};
ghost use Rattle.machine_names.specs.Bounds.{IsTerminal};
ghost use Rattle.outside.specs.Faults.{Rose};
ghost use Rattle.page_contracts.specs.DrumWords.{DrumWords};
ghost use Rattle.page_waits.specs.Systems.{FitsShowing};
ghost use Rattle.script_texts.specs.Taker.{GoesOn, IsCut, StaysOnward};

use crate::System;
use crate::machine::Machine;
use event_deeds::Showing;
use machine_names::Tty;
use outside::Failed;
use script_texts::Taker;

impl<S: System> Machine<S> {
    /// Gives what was shown to a taker, item by item, over each drum over which it can be given. Fails only where its count of faults rises.
    pub fn give<T: Taker>(&self, what: &Showing, out: &mut T) -> Result<(), Failed>
        requires fits { FitsShowing what.now }
        ensures later { T.fault_count out.old ≤ T.fault_count out.new }
        ensures cause { OnErr result (Rose (T.fault_count out.old) (T.fault_count out.new)) }
        ensures onward { StaysOnward T.onward out.old out.new }
        ensures ok { OnOk result ((d : DrumWords) → S.means.fits self.now.system d → S.means.gives self.now.system d what.now → GoesOn T.stands out.old out.new (S.means.items (S.means.plain self.now.system d) what.now) []) }
        ensures err { OnErr result ((d : DrumWords) → S.means.fits self.now.system d → S.means.gives self.now.system d what.now → IsCut T.stands T.cut out.old out.new (S.means.items (S.means.plain self.now.system d) what.now) []) }
    {
        self.system.give(what, out)
    }

    /// Whether a terminal has a job.
    pub fn has_job(&self, t: Tty) -> bool
        requires terminal { IsTerminal t }
        ensures { (d : DrumWords) → S.means.fits self.now.system d → result ≡ is_some (map.get (S.means.plain self.now.system d).jobs t.0) }
    {
        self.system.has_job(t)
    }

    /// The lists are sound, and the forks in them are those that can run. Does nothing when it runs.
    pub fn lists_are_sound(&self)
        ensures sound { IsSound self.now.lists.sched }
        ensures tied { AreTied (S.means.tree self.now.system).forks self.now.lists }
    {
        self.lists.sound();
    }

    /// The forks of each job are a tree. Does nothing when it runs.
    pub fn trees(&self)
        ensures { IsTree (S.means.tree self.now.system) }
    {
        self.system.forks();
    }
}
