// The system over pages, as page waits ask it.
use crate::paged::Paged;
use event_deeds::{Answer, Deed, Showing};
use fork_lists::ForkLists;
use fork_tree::Tree;
use machine_names::{ForkName, Tty};
use outside::{Drum, Failed};
use page_contracts::{Completed, Need, Pages};
use page_homes::{FrameId, Home};
use page_waits::System;
use script_texts::Taker;
use step_shown::Progress;

impl<P: Pages> System for Paged<P> {
    ghost use Rattle.std.proofs.Common.{refl};
    ghost use Rattle.paged_system.specs.Laws.{few_taken, few_told, few_wanted, is_housed};
    ghost use Rattle.paged_system.specs.OnDrum.{on_drum};
    ghost use Rattle.paged_system.specs.Paging.{paged};

    ghost means = { paged };

    fn forks(&self) -> &Tree {
        self.system.forks()
    }

    fn units(&mut self, lists: &mut ForkLists, who: ForkName, most: u32) -> Result<Progress, Need> {
        self.run(lists, who, most)
    }

    fn deed(&mut self, lists: &mut ForkLists, deed: &Deed) -> Result<Answer, Need> {
        self.do_deed(lists, deed)
    }

    fn fetch(&mut self, need: Need) -> Need {
        self.system.fetch(need)
    }

    fn complete<D: Drum>(&mut self, drum: &mut D) -> Completed {
        self.system.complete(drum)
    }

    fn is_moving(&self) -> bool {
        self.system.is_moving()
    }

    fn cancelled(&mut self) -> Option<Need> {
        self.system.cancelled()
    }

    fn evict(&mut self, frame: FrameId) {
        self.system.evict(frame);
    }

    fn keep(&mut self, holder: u16, home: Home) {
        self.system.keep(holder, home);
    }

    fn held(&self, holder: u16) -> u32 {
        self.system.held(holder)
    }

    fn let_go(&mut self, holder: u16) {
        self.system.let_go(holder);
    }

    fn has_job(&self, t: Tty) -> bool {
        self.system.has_job(t)
    }

    fn give<T: Taker>(&self, what: &Showing, out: &mut T) -> Result<(), Failed> {
        self.give_shown(what, out)
    }

    ghost housed = { λ s. is_housed s (P.housed s.system.pages) };

    ghost forked = { λ s d fits. refl };

    ghost told_few = { λ s deed. few_told s deed };

    ghost lives = { λ s d fits. few_taken s d fits (P.agrees s.system.pages d fits.pages) (P.whole s.system.pages d fits.pages) };

    ghost placed = { λ s d framed fits. on_drum s d (P.housed s.system.pages) (P.agrees s.system.pages d fits.pages) (P.there s.system.pages d fits.pages) };

    ghost wants_few = { λ s d x fits. few_wanted s (P.housed s.system.pages) d x };
}
