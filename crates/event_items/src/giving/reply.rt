// The items of a reply, and the steps behind them, given to a taker.
ghost use Rattle.std.specs.Prelude.{◌<◌, ◌≤◌, [], replicate};
ghost use Rattle.script_texts.specs.Limits.{FitsStep};
ghost use Rattle.script_texts.specs.Follows.{IsTurn};
ghost use Rattle.event_items.specs.Giving.{TookAll, TookOver};
ghost use Rattle.step_shown.specs.Replies.{FitsReply, reply_items};
ghost use Rattle.monitor_core.specs.Needing.{CanShow, ShownAt};
ghost use Rattle.monitor_core.specs.Systems.{FitsPages, state_of};

use crate::giving::forks::give_forks;
use crate::giving::page::give_page;
use crate::giving::unit::give_ran;
use monitor_core::System;
use outside::Failed;
use page_contracts::Pages;
use script_texts::{Step, Taker};
use step_shown::Reply;

// Gives so many equal steps that show nothing: more than one are turns of a run.
#[inline(always)]
fn give_steps<T: Taker>(step: &Step, count: u32, out: &mut T) -> Result<(), Failed>
    requires fits { FitsStep step.now }
    requires turn { 1 < count → IsTurn step.now }
    ensures { TookAll T.fault_count T.onward T.stands T.cut out.old out.new result (λ d. []) (replicate count step.now) }
{
    match count {
        0 => Ok(()),
        1 => out.step(*step),
        _ => out.turns(*step, u64::from(count)),
    }
}

/// Gives the items of a reply, one by one, over each drum over which a page among them is in a frame.
#[inline(always)]
pub fn give_reply<P: Pages, T: Taker>(
    system: &System<P>,
    reply: Reply,
    out: &mut T,
) -> Result<(), Failed>
    requires reply { FitsReply reply }
    ensures { TookOver (λ d. FitsPages system.now d × ShownAt system.now d reply) T.fault_count T.onward T.stands T.cut out.old out.new result (λ d. reply_items (state_of system.now d) reply) [] }
{
    match reply {
        Reply::Nothing => Ok(()),
        Reply::One(item) => out.item(item),
        Reply::Ran(fork, line, shown) => give_ran(out, fork, line, shown),
        Reply::Forks(t) => give_forks(system.forks(), t, out),
        Reply::Page(name, page) => give_page(system, &name, page, out),
    }
}

/// Gives so many equal steps, the last of them behind the items that it shows; a page among them is in a frame.
pub fn give_all<P: Pages, T: Taker>(
    system: &System<P>,
    step: &Step,
    count: u32,
    reply: Reply,
    out: &mut T,
) -> Result<(), Failed>
    requires fits { FitsStep step.now }
    requires some { 1 ≤ count }
    requires turn { 1 < count → IsTurn step.now }
    requires reply { FitsReply reply }
    requires shown { CanShow system.now reply }
    ensures { TookOver (FitsPages system.now) T.fault_count T.onward T.stands T.cut out.old out.new result (λ d. reply_items (state_of system.now d) reply) (replicate count step.now) }
{
    if reply.is_silent() {
        // Most units show nothing: their steps go straight to the taker.
        return give_steps(step, count, out);
    }
    give_steps(step, count - 1, out)?;
    give_reply(system, reply, out)?;
    out.step(*step)
}
