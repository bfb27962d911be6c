// What a unit shows, given to a taker.
ghost use Rattle.machine_names.specs.Bounds.{IsForkName, IsTerminal};
ghost use Rattle.event_items.specs.Giving.{TookItems};
ghost use Rattle.step_shown.specs.Replies.{FitsLine, ran_items};
ghost use Rattle.step_shown.specs.Shown.{FitsShown, FitsStop, shown_items, stop_items};

use crate::giving::text::{give_code, give_text};
use itoa::Buffer;
use machine_names::{ForkName, Tty};
use outside::Failed;
use script_texts::{Item, Taker};
use step_shown::{Shown, Stop};

// Gives what a top fork prints that is forced by a channel.
fn give_forced<T: Taker>(out: &mut T, t: Tty, channel: u8) -> Result<(), Failed>
    requires terminal { IsTerminal t }
    ensures { TookItems T.fault_count T.onward T.stands T.cut out.old out.new result (λ d. stop_items t (Stop.Forced channel)) }
{
    let mut digits = Buffer::new();
    give_text(out, t, b"\r\n?FORCED ")?;
    give_text(out, t, digits.format(channel).as_bytes())?;
    give_text(out, t, b"\r\n@")
}

/// Gives what a top fork prints that stands so.
pub fn give_stop<T: Taker>(out: &mut T, t: Tty, stop: Stop) -> Result<(), Failed>
    requires terminal { IsTerminal t }
    requires fits { FitsStop stop }
    ensures { TookItems T.fault_count T.onward T.stands T.cut out.old out.new result (λ d. stop_items t stop) }
{
    match stop {
        Stop::GoesOn => Ok(()),
        Stop::Halted => give_text(out, t, b"\r\n@"),
        Stop::Forced(channel) => give_forced(out, t, channel),
    }
}

// Gives the items of what a terminal shows of a unit.
fn give_shown<T: Taker>(out: &mut T, t: Tty, shown: Shown) -> Result<(), Failed>
    requires terminal { IsTerminal t }
    requires fits { FitsShown shown }
    ensures { TookItems T.fault_count T.onward T.stands T.cut out.old out.new result (λ d. shown_items t shown) }
{
    match shown.out {
        Some(code) => {
            give_code(out, t, code)?;
            give_stop(out, t, shown.stop)
        }
        None => give_stop(out, t, shown.stop),
    }
}

/// Gives the items of a unit: its line, where each unit is shown, and what its terminal shows. A call of its own, as most units show
/// nothing.
#[inline(never)]
pub fn give_ran<T: Taker>(
    out: &mut T,
    fork: ForkName,
    line: Option<u32>,
    shown: Shown,
) -> Result<(), Failed>
    requires fork { IsForkName fork }
    requires address { FitsLine line }
    requires fits { FitsShown shown }
    ensures { TookItems T.fault_count T.onward T.stands T.cut out.old out.new result (λ d. ran_items fork line shown) }
{
    match line {
        Some(pc) => {
            out.item(Item::UnitLine(fork, pc))?;
            give_shown(out, fork.tty, shown)
        }
        None => give_shown(out, fork.tty, shown),
    }
}
