// One unit by its plan.
ghost use Rattle.std.specs.Prelude.{◌≡◌, ◌<◌, ◌^◌, length};
ghost use Rattle.machine_names.specs.declared.names.TheConstants.{ACCUMULATORS};
ghost use Rattle.ka10_unit.specs.Carrying.{Slowly};
ghost use Rattle.ka10_unit.specs.Gathers.{Serves};

use crate::at_hand::call_at_hand;
use crate::carry::carry;
use crate::plans::{Planned, plan};
use crate::taken::Taken;
use ka10_deeds::Post;
use machine_names::ForkName;
use page_contracts::{Need, Pages};
use plain_units::Regs;

/// How a unit came out.
#[derive(Clone, Copy)]
pub enum Outcome {
    /// It went through, and posts this.
    Done(Post),
    /// It needs this first, and has changed nothing.
    Need(Need),
    /// It traps, with a channel, and has changed nothing.
    Trap(u8),
    /// It is a monitor call, of this number, and has changed nothing.
    Call(u32),
}

/// Registers have their accumulators. It does nothing when it runs.
#[inline(always)]
fn have_accumulators(regs: Regs)
    ensures { length regs.ac ≡ ACCUMULATORS }
{}

// Does the unit of the instruction at the program counter by its plan. A call of its own, as a function pays for its locals and a call at hand needs none.
#[inline(never)]
fn planned_unit<P: Pages>(
    taken: &mut Taken,
    regs: &mut Regs,
    pages: &mut P,
    fork: ForkName,
) -> Outcome
    requires serves { Serves P.means pages.old fork }
    requires pc { regs.old.pc < 2 ^ 18 }
    requires serial { P.means.serial pages.old fork.tty < 2 ^ 62 }
    ensures { Slowly P.means fork pages.old pages.new regs.old regs.new result }
{
    have_accumulators(*regs);
    match plan(taken, regs, pages, fork) {
        Planned::Need(need) => Outcome::Need(need),
        Planned::Trap(channel) => Outcome::Trap(channel),
        Planned::Call(number) => Outcome::Call(number),
        Planned::Do(ending) => {
            carry(taken, ending.put, pages);
            *regs = ending.regs;
            Outcome::Done(ending.post)
        }
    }
}

/// Does the unit of the instruction at the program counter: any word whatever. What is taken before
/// is forgotten, but for a monitor call whose word is at hand, which takes nothing.
pub fn slow_unit<P: Pages>(
    taken: &mut Taken,
    regs: &mut Regs,
    pages: &mut P,
    fork: ForkName,
) -> Outcome
    requires serves { Serves P.means pages.old fork }
    requires pc { regs.old.pc < 2 ^ 18 }
    requires serial { P.means.serial pages.old fork.tty < 2 ^ 62 }
    ensures { Slowly P.means fork pages.old pages.new regs.old regs.new result }
{
    match call_at_hand(regs, pages, fork) {
        Some(number) => Outcome::Call(number),
        None => planned_unit(taken, regs, pages, fork),
    }
}
