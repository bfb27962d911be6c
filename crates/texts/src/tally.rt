// What a run did, counted.
ghost use Rattle.std.specs.Prelude.{◌≡◌};
ghost use Rattle.script_texts.specs.declared.event.Step.TheVariants.{Outer};
ghost use Rattle.texts.specs.Tally.{with_item, with_steps};
ghost use Rattle.texts.specs.Turns.{step_of};
ghost use Rattle.script_texts.specs.declared.event.Event.{Event as AnEvent};

use crate::turns::RunEntry;
use script_texts::Item;

/// How many entries of each kind a run has so far, and how many characters it has shown. Each count stays at
/// 2^64 - 1.
#[derive(Clone, Copy, PartialEq, Eq)]
pub struct Tally {
    /// Events that are entries.
    pub events: u64,
    /// Units of any fork.
    pub units: u64,
    /// Idle entries.
    pub idles: u64,
    /// Characters of any terminal.
    pub characters: u64,
}

impl Tally {
    /// Nothing is counted yet.
    pub const NONE: Tally = Tally {
        events: 0,
        units: 0,
        idles: 0,
        characters: 0,
    };

    /// Counts an event.
    pub fn count_event(&mut self)
        ensures { (e : AnEvent) → self.new ≡ with_steps self.old (Outer e) 1 }
    {
        self.events = self.events.saturating_add(1);
    }

    /// Counts so many equal turns.
    #[inline(always)]
    pub fn count_turns(&mut self, turn: RunEntry, n: u64)
        ensures { self.new ≡ with_steps self.old (step_of turn) n }
    {
        match turn {
            RunEntry::Unit(_) => self.units = self.units.saturating_add(n),
            RunEntry::Idle => self.idles = self.idles.saturating_add(n),
        }
    }

    /// Counts an item, where it is a character.
    pub fn count_item(&mut self, i: &Item)
        ensures { self.new ≡ with_item self.old i.now }
    {
        if let Item::Char(_, _) = i {
            self.characters = self.characters.saturating_add(1);
        }
    }
}
