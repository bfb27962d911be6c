// What follows from the definitions, in the words of who uses interrupts. A law does nothing when it runs.
ghost use Rattle.std.specs.Prelude.{◌≡◌, ℕ, length, false, Some};
ghost use Rattle.plain_pages.specs.PlainPages.{NamedPages};
ghost use Rattle.plain_model.specs.declared.fork.Fork.{Fork};
ghost use Rattle.plain_model.specs.declared.interrupt.Delivery.{Delivery};
ghost use Rattle.plain_model.specs.Inspections.{delivered};
ghost use Rattle.plain_model.specs.State.{PlainState};
ghost use Rattle.plain_model.specs.Unit.{instruction_unit, unit_of};
ghost use Rattle.psi_system.specs.Judgements.{FitsDelivery};
ghost use Rattle.psi_system.specs.Laws.{AreReady, IsDelivered, IsFirst, IsTakenUp, IsWithin, word_of_channel};

use plain_model::interrupt::LEVELS;

/// A channel that is delivered is no more pending, and its level is in progress; each other channel and level is as it was.
pub fn delivered_channels_are_taken_up()
    ensures { (f : Fork) (d : Delivery) → FitsDelivery d → length f.body.psi.levels ≡ LEVELS → IsTakenUp f.body.psi (delivered f d).body.psi d.found }
{}

/// A level that is delivered is less than each that was in progress; it ends before them, and leaves them as they were.
pub fn levels_nest()
    ensures { (f : Fork) (p : NamedPages) (d : Delivery) → length f.body.psi.levels ≡ LEVELS → IsDelivered f p d → IsWithin f.body.psi (delivered f d).body.psi d.found.level }
{}

/// Where the words of its channels can be read, a fork takes that of its active and pending channels which has the least level of
/// those that can be taken, and of equal levels the least number.
pub fn the_least_level_is_delivered()
    ensures { (f : Fork) (p : NamedPages) (table : ℕ) (d : Delivery) → f.body.psi.table ≡ Some table → AreReady f.name p table → IsDelivered f p d → IsFirst f.body.psi (word_of_channel f.name f.body.regs p table) d.found }
{}

/// Where interrupts are off, no channel is looked at: a unit is that of the instruction.
pub fn nothing_is_looked_at_with_interrupts_off()
    ensures { (s : PlainState) (f : Fork) → f.body.psi.on ≡ false → unit_of s f ≡ instruction_unit s f }
{}
