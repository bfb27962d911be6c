// What was shown, given to a taker.
ghost use Rattle.std.specs.Prelude.{[]};
ghost use Rattle.event_deeds.specs.Showings.{showing_items};
ghost use Rattle.event_items.specs.Giving.{TookOver};
ghost use Rattle.monitor_core.specs.Systems.{FitsPages, state_of};
ghost use Rattle.page_waits.specs.Systems.{FitsShowing};
ghost use Rattle.paged_system.specs.Paging.{gives_in};

use crate::paged::Paged;
use event_deeds::Showing;
use event_items::{give_echo, give_reply, give_told};
use outside::Failed;
use page_contracts::Pages;
use script_texts::Taker;

impl<P: Pages> Paged<P> {
    /// Gives what was shown to a taker, item by item, over each drum over which it can be given: a page that is shown is in a frame there.
    pub(crate) fn give_shown<T: Taker>(&self, what: &Showing, out: &mut T) -> Result<(), Failed>
        requires fits { FitsShowing what.now }
        ensures { TookOver (λ d. FitsPages self.now.system d × gives_in self.now.system d what.now) T.fault_count T.onward T.stands T.cut out.old out.new result
            (λ d. showing_items (state_of self.now.system d) what.now) [] }
    {
        match what {
            Showing::Reply(reply) => give_reply(&self.system, *reply, out),
            Showing::Echo(t, shown) => give_echo(&self.system, *t, *shown, out),
            Showing::Told(t, shown) => give_told(&self.system, *t, *shown, out),
        }
    }
}
