// What takes the items and the steps of a run.
ghost use Rattle.std.specs.Prelude.{◌≡◌, ◌≤◌, List, ℕ, [], ◌∷◌, OnOk, OnErr, replicate};
ghost use Rattle.script_texts.specs.Follows.{IsTurn};
ghost use Rattle.outside.specs.Faults.{Rose};
ghost use Rattle.script_texts.specs.Limits.{FitsItem, FitsStep};
ghost use Rattle.script_texts.specs.Taker.{GoesOn, IsCut, StaysOnward};
ghost use Rattle.script_texts.specs.declared.event.Item.{Item as AnItem};
ghost use Rattle.script_texts.specs.declared.event.Step.{Step as AStep};

use crate::{Item, Step};
use outside::Failed;

/// Takes what a machine shows and what it did, in order: the items of a step, and then the step. It may keep
/// what it takes until it is flushed.
pub trait Taker {
    /// How often a call has failed.
    ghost fault_count: { Self → ℕ };

    /// It is the taker that the first was, whatever happened since.
    ghost onward: { Self → Self → Type 0 };

    /// Since the first, it has come to stand for these items and these steps.
    ghost stands: { Self → Self → List AnItem → List AStep → Type 0 };

    /// Since the first, it has failed, and is cut within these items and these steps.
    ghost cut: { Self → Self → List AnItem → List AStep → Type 0 };

    /// It keeps nothing back: all that it has taken is handed on.
    ghost handed_on: { Self → Type 0 };

    /// How often a call has failed. At 2^64 - 1 it stays there.
    fn faults(&self) -> u64
        ensures { result ≡ fault_count self.now };

    /// Takes an item. Fails only where the count of faults rises.
    fn item(&mut self, i: Item) -> Result<(), Failed>
        requires { FitsItem i }
        ensures later { fault_count self.old ≤ fault_count self.new }
        ensures cause { OnErr result (Rose (fault_count self.old) (fault_count self.new)) }
        ensures onward { StaysOnward onward self.old self.new }
        ensures ok { OnOk result (GoesOn stands self.old self.new (i ∷ []) []) }
        ensures err { OnErr result (IsCut stands cut self.old self.new (i ∷ []) []) };

    /// Takes a step. Fails only where the count of faults rises.
    fn step(&mut self, s: Step) -> Result<(), Failed>
        requires { FitsStep s }
        ensures later { fault_count self.old ≤ fault_count self.new }
        ensures cause { OnErr result (Rose (fault_count self.old) (fault_count self.new)) }
        ensures onward { StaysOnward onward self.old self.new }
        ensures ok { OnOk result (GoesOn stands self.old self.new [] (s ∷ [])) }
        ensures err { OnErr result (IsCut stands cut self.old self.new [] (s ∷ [])) };

    /// Takes so many equal turns of a run at once. Fails only where the count of faults rises.
    fn turns(&mut self, s: Step, n: u64) -> Result<(), Failed>
        requires fits { FitsStep s }
        requires turn { IsTurn s }
        requires some { 1 ≤ n }
        ensures later { fault_count self.old ≤ fault_count self.new }
        ensures cause { OnErr result (Rose (fault_count self.old) (fault_count self.new)) }
        ensures onward { StaysOnward onward self.old self.new }
        ensures ok { OnOk result (GoesOn stands self.old self.new [] (replicate n s)) }
        ensures err { OnErr result (IsCut stands cut self.old self.new [] (replicate n s)) };

    /// Hands on what it has taken and keeps, where it keeps any. Fails only where the count of faults rises.
    fn flush(&mut self) -> Result<(), Failed>
        ensures later { fault_count self.old ≤ fault_count self.new }
        ensures cause { OnErr result (Rose (fault_count self.old) (fault_count self.new)) }
        ensures onward { StaysOnward onward self.old self.new }
        ensures handed { OnOk result (handed_on self.new) }
        ensures ok { OnOk result (GoesOn stands self.old self.new [] []) }
        ensures err { OnErr result (IsCut stands cut self.old self.new [] []) };
}
