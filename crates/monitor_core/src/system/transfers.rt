// Transfers of pages, and frames that are held, as the pages do them: no step is one.
ghost use Rattle.std.specs.Prelude.{◌≡◌, ◌↔◌, ◌<◌, ◌≤◌, [], false, length};
ghost use Rattle.page_contracts.specs.DrumWords.{DrumWords, Stands};
ghost use Rattle.page_contracts.specs.Pages.{StaysPlain};
ghost use Rattle.page_contracts.specs.Stores.{CanFetch, CanKeep, Completes, Evicts, IsFetched, Keeps, LetsGo, Tells, awaited, meeting, most_held};
ghost use Rattle.page_contracts.specs.declared.store.TheConstants.{MOST_HOLDERS};
ghost use Rattle.monitor_core.specs.Transfers.{StaysPlaced};

use crate::system::System;
use outside::Drum;
use page_contracts::{Completed, Need, Pages};
use page_homes::{FrameId, Home};

impl<P: Pages> System<P> {
    /// Asks for a page that is in no frame, or for a frame, and answers what to wait for.
    pub fn fetch(&mut self, need: Need) -> Need
        requires { CanFetch P.means.store self.old.pages need }
        ensures answer { result ≡ awaited (meeting (P.means.store.queue self.old.pages) (P.means.store.spare self.old.pages) need) }
        ensures fetched { IsFetched P.means.store need self.old.pages self.new.pages }
        ensures plain { StaysPlain P.means self.old.pages self.new.pages }
        ensures placed { StaysPlaced self.old self.new }
    {
        self.pages.fetch(need)
    }

    /// Ends the oldest transfer: Done, with what it tells; Nothing, where none is queued; DrumFault, where the drum fails, which ends none. Over what
    /// the drum tells the plain pages stay.
    pub fn complete<D: Drum>(&mut self, drum: &mut D) -> Completed
        requires { P.means.most self.old.pages ≤ D.size drum.old }
        ensures ends { Completes P.means.store D.fault_count D.read_count D.write_count D.size result self.old.pages self.new.pages drum.old drum.new }
        ensures told { (d : DrumWords) → Stands P.means.flat (D.held drum.old) d → P.means.fits self.old.pages d → (result ≡ Completed.DrumFault → ⊥)
            → (e : DrumWords) × Stands P.means.flat (D.held drum.new) e × P.means.fits self.new.pages e × (P.means.plain self.new.pages e ≡ P.means.plain self.old.pages d) }
        ensures whole { self.new.pages ≡ self.old.pages → self.new ≡ self.old }
        ensures placed { StaysPlaced self.old self.new }
    {
        self.pages.complete(drum)
    }

    /// Whether a transfer is queued.
    pub fn is_moving(&self) -> bool
        ensures { (result ≡ false) ↔ (P.means.store.queue self.now.pages ≡ []) }
    {
        self.pages.is_moving()
    }

    /// What a transfer would have told that was taken from the queue, the oldest first. None, where nothing is left to tell.
    pub fn cancelled(&mut self) -> Option<Need>
        ensures tells { Tells P.means.store result self.old.pages self.new.pages }
        ensures plain { StaysPlain P.means self.old.pages self.new.pages }
        ensures placed { StaysPlaced self.old self.new }
    {
        self.pages.cancelled()
    }

    /// The page of a frame begins to leave it, where there is such a frame and the page may.
    pub fn evict(&mut self, frame: FrameId)
        ensures evicts { Evicts P.means.store frame.0 self.old.pages self.new.pages }
        ensures plain { StaysPlain P.means self.old.pages self.new.pages }
        ensures placed { StaysPlaced self.old self.new }
    {
        self.pages.evict(frame);
    }

    /// Holds the frame of a home's page for a seat of the balance set, or for the console.
    pub fn keep(&mut self, holder: u16, home: Home)
        requires can { CanKeep P.means.store self.old.pages holder home.0 }
        requires holder { holder < MOST_HOLDERS }
        requires few { length (P.means.store.holds self.old.pages holder) < most_held holder }
        ensures keeps { Keeps P.means.store holder home.0 self.old.pages self.new.pages }
        ensures plain { StaysPlain P.means self.old.pages self.new.pages }
        ensures placed { StaysPlaced self.old self.new }
    {
        self.pages.keep(holder, home);
    }

    /// How many frames are held for a seat, or for the console.
    pub fn held(&self, holder: u16) -> u32
        ensures { result ≡ length (P.means.store.holds self.now.pages holder) }
    {
        self.pages.held(holder)
    }

    /// Holds nothing for a seat any more, or for the console.
    pub fn let_go(&mut self, holder: u16)
        ensures lets_go { LetsGo P.means.store holder self.old.pages self.new.pages }
        ensures plain { StaysPlain P.means self.old.pages self.new.pages }
        ensures placed { StaysPlaced self.old self.new }
    {
        self.pages.let_go(holder);
    }
}
