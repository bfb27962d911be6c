// Units of one fork, as far as they concern its body and its pages.
ghost use Rattle.std.specs.Prelude.{◌≡◌, ◌<◌, ◌+◌, ◌^◌, if◌then◌else◌, Some};
ghost use Rattle.plain_model.specs.declared.fork.Fork.{Fork as AFork};
ghost use Rattle.plain_model.specs.declared.fork.Psi.{Psi as APsi};
ghost use Rattle.plain_model.specs.Forks.{counted, with_status};
ghost use Rattle.plain_model.specs.Interrupts.{forces, posted};
ghost use Rattle.script_texts.specs.declared.status.ForkStatus.{ForkStatus as AForkStatus};
ghost use Rattle.plain_model.specs.Calls.{posted_if};
ghost use Rattle.ka10_deeds.specs.Done.{channel_of as posted_by};
ghost use Rattle.ka10_unit.specs.Gathers.{Serves};
ghost use Rattle.plain_model.specs.Trees.{with_body};
ghost use Rattle.monitor_calls.specs.Limits.{CanUnit};
ghost use Rattle.step_shown.specs.Shown.{FitsShown, FitsStop, stands};
ghost use Rattle.monitor_calls.specs.Reasons.{InspectionStops, InstructionStops};
ghost use Rattle.monitor_calls.specs.ForkUnit.{HasRoom, Place as APlace, Ran, RanOne, behind_instruction, behind_interrupted, fork_of, post_shown, units_over};

use fork_tree::post;
use ka10_deeds::Post;
use ka10_in_place::{BurstEnd, burst};
use ka10_unit::{Outcome, Stop as Stopped, Taken, slow_unit};
use machine_names::ForkName;
use page_contracts::{Need, Pages};
use plain_model::Body;
use plain_model::interrupt::{CHANNELS, Inspected};
use plain_units::channel::{OVERFLOW, PUSHDOWN_OVERFLOW};
use psi_system::{deliver, inspect, is_interrupted};
use script_texts::ForkStatus;
use step_shown::{Shown, Stop};
use text_pointers::Scratch;

/// The last of units in a row.
#[derive(Clone, Copy)]
pub enum Last {
    /// It is over, and shows this.
    Shows(Shown),
    /// It is a monitor call, of this number, which is still to be made.
    Calls(u32),
    /// It needs this first, and nothing of it is done.
    Needs(Need),
}

/// Units of a fork in a row: how many are over, and what the last is. Those before it show nothing.
#[derive(Clone, Copy)]
pub struct Row {
    pub count: u32,
    pub last: Last,
}

/// The channel that a number stands for: the last, for each number behind it, as the bits of a word have it. No unit posts such a
/// number, but no contract says so.
pub fn channel_of(number: u8) -> u8
    ensures low { result < CHANNELS }
    ensures is { number < CHANNELS → result ≡ number }
    ensures posts { (f : AFork) → posted f result ≡ posted f number }
    ensures forces { (psi : APsi) → forces psi result ≡ forces psi number }
{
    if number < CHANNELS {
        number
    } else {
        CHANNELS - 1
    }
}

/// A channel is posted to a fork. How it stands then, where it ran: one that the channel forces has stopped.
pub fn post_channel(body: &mut Body, channel: u8) -> Stop
    ensures fork { (f : AFork) → with_body body.new f ≡ posted (with_body body.old f) channel }
    ensures stop { result ≡ (if forces body.old.psi channel then Stop.Forced channel else Stop.GoesOn) }
    ensures fits { FitsStop result }
    ensures units { body.new.units ≡ body.old.units }
{
    if post(body, channel_of(channel)) {
        Stop::Forced(channel)
    } else {
        Stop::GoesOn
    }
}

// A unit is over that posts a channel to its fork.
fn posted(body: &mut Body, channel: u8) -> Shown
    requires few { body.old.units < 2 ^ 63 }
    ensures fork { (f : AFork) → with_body body.new f ≡ counted (posted (with_body body.old f) channel) }
    ensures shown { result ≡ post_shown body.old.psi (Some channel) }
    ensures fits { FitsShown result }
{
    let stop = post_channel(body, channel);
    body.units += 1;
    Shown { out: None, stop }
}

// A unit is done that posts a channel, if it does.
fn ended(body: &mut Body, post: Post) -> Shown
    requires few { body.old.units < 2 ^ 63 }
    ensures fork { (f : AFork) → with_body body.new f ≡ counted (posted_if (with_body body.old f) (posted_by post)) }
    ensures shown { result ≡ post_shown body.old.psi (posted_by post) }
    ensures fits { FitsShown result }
{
    match post {
        Post::Nothing => {
            body.units += 1;
            Shown::NOTHING
        }
        Post::Overflow => posted(body, OVERFLOW),
        Post::Pushdown => posted(body, PUSHDOWN_OVERFLOW),
    }
}

// One unit of a fork, its interrupts aside, whatever it wants.
fn one_unit<P: Pages>(body: &mut Body, fork: ForkName, pages: &mut P, taken: &mut Taken) -> Last
    requires can { CanUnit body.old }
    requires few { body.old.units < 2 ^ 63 }
    requires serves { Serves P.means pages.old fork }
    requires serial { P.means.serial pages.old fork.tty < 2 ^ 61 }
    ensures { (at : APlace) → RanOne behind_instruction InstructionStops P.means pages.old pages.new (fork_of fork at body.old) (fork_of fork at body.new) result }
{
    match slow_unit(taken, &mut body.regs, pages, fork) {
        Outcome::Done(post) => Last::Shows(ended(body, post)),
        Outcome::Need(need) => Last::Needs(need),
        Outcome::Trap(channel) => Last::Shows(posted(body, channel)),
        Outcome::Call(number) => Last::Calls(number),
    }
}

// A fork is forced by a channel, which is its whole unit.
fn forced(body: &mut Body, channel: u8) -> Last
    requires few { body.old.units < 2 ^ 63 }
    requires channel { channel < CHANNELS }
    ensures fork { (f : AFork) → with_body body.new f ≡ counted (with_status (with_body body.old f) (AForkStatus.Forced channel)) }
    ensures last { result ≡ Last.Shows (stands (Stop.Forced channel)) }
{
    body.status = ForkStatus::Forced(channel);
    body.units += 1;
    Last::Shows(Shown {
        out: None,
        stop: Stop::Forced(channel),
    })
}

// One unit of a fork whose channels are looked at: one is delivered, or the fork is forced; or none can be taken now, and it goes on
// where it stands.
fn interrupted<P: Pages>(
    body: &mut Body,
    fork: ForkName,
    pages: &mut P,
    scratch: &mut Scratch,
) -> Last
    requires can { CanUnit body.old }
    requires few { body.old.units < 2 ^ 63 }
    requires serves { Serves P.means pages.old fork }
    requires serial { P.means.serial pages.old fork.tty < 2 ^ 61 }
    ensures { (at : APlace) → RanOne behind_interrupted InspectionStops P.means pages.old pages.new (fork_of fork at body.old) (fork_of fork at body.new) result }
{
    match inspect(&mut scratch.reader, body, fork, pages) {
        Err(why) => match why {
            Stopped::Need(need) => Last::Needs(need),
            Stopped::Trap(channel) => forced(body, channel),
        },
        Ok(what) => match what {
            Inspected::Nothing => one_unit(body, fork, pages, &mut scratch.taken),
            Inspected::Forces(channel) => forced(body, channel),
            Inspected::Delivers(delivery) => {
                deliver(body, fork, &delivery, &scratch.reader, pages);
                body.units += 1;
                Last::Shows(Shown::NOTHING)
            }
        },
    }
}

// So many units, and a last one behind them.
fn row_of(before: u32, last: Last) -> Row
    requires { before + 1 < 2 ^ 32 }
    ensures last { result.last ≡ last }
    ensures count { result.count ≡ before + units_over last }
{
    let over = match last {
        Last::Shows(_) => 1,
        Last::Calls(_) | Last::Needs(_) => 0,
    };
    Row {
        count: before + over,
        last,
    }
}

/// Units of a fork in a row, as many as this at most: as many as go in place and post nothing, and the one behind
/// them, where there is room for it; but one alone where the fork looks at its channels first. A monitor call is left to be made, and so is
/// a unit that needs something first.
#[inline]
pub fn units_to_call<P: Pages>(
    body: &mut Body,
    fork: ForkName,
    pages: &mut P,
    scratch: &mut Scratch,
    most: u32,
) -> Row
    requires can { CanUnit body.old }
    requires few { body.old.units < 2 ^ 62 }
    requires serves { Serves P.means pages.old fork }
    requires serial { P.means.serial pages.old fork.tty < 2 ^ 61 }
    requires some { 0 < most }
    ensures ran { (at : APlace) → Ran P.means pages.old pages.new (fork_of fork at body.old) (fork_of fork at body.new) result }
    ensures room { HasRoom most result.count result.last }
{
    if is_interrupted(&body.psi) {
        let last = interrupted(body, fork, pages, scratch);
        return row_of(0, last);
    }
    let space = pages.space(fork);
    let burst = burst(&mut body.regs, pages, space, most);
    body.units += u64::from(burst.units);
    match burst.end {
        BurstEnd::Most => Row {
            count: burst.units,
            last: Last::Shows(Shown::NOTHING),
        },
        BurstEnd::Overflow => Row {
            count: burst.units + 1,
            last: Last::Shows(ended(body, Post::Overflow)),
        },
        BurstEnd::Pushdown => Row {
            count: burst.units + 1,
            last: Last::Shows(ended(body, Post::Pushdown)),
        },
        BurstEnd::Slow => {
            let last = one_unit(body, fork, pages, &mut scratch.taken);
            row_of(burst.units, last)
        }
    }
}
