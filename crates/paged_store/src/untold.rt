// What is still to be told of transfers that were taken from the queue.
ghost use Rattle.std.specs.Prelude.{◌≡◌, ◌*◌, ◌∷◌, ◌<◌, [], None, IfOk};
ghost use Rattle.std.specs.Option.{option_map_or};
ghost use Rattle.page_contracts.specs.Stores.{noted};
ghost use Rattle.paged_store.specs.UntoldNeeds.{IsBelow, need_at, number_of};

use frame_order::FrameOrder;
use outside::Memory;
use page_contracts::Need;
use page_homes::{Home, MOST_HOMES};
use std::alloc::Global;
use std::marker::Model;

/// Needs, each once, in the order in which they are to be told. The page of a home has the home's number, and a
/// frame the number of homes.
#[derive(Drop)]
pub struct Untold {
    order: FrameOrder,
    noted: Vec<bool>,
    homes: u32,
}

impl Model for Untold {
    ghost use Rattle.paged_store.specs.UntoldNeeds.{Needs, AreNoted, needs_view};

    ghost Value = { Needs };

    ghost view = { λ s. needs_view s.homes s.order };

    ghost invariant = { λ s. AreNoted s.order s.noted.items s.homes };
}

// The number of a need.
fn number_of(homes: u32, need: Need) -> u32
    ensures { result ≡ number_of homes need }
{
    match need {
        Need::Page(home) => home.0,
        Need::Frame => homes,
    }
}

// The need with a number.
fn need_of(homes: u32, number: u32) -> Need
    ensures { result ≡ need_at homes number }
{
    if number == homes {
        Need::Frame
    } else {
        Need::Page(Home(number))
    }
}

impl Untold {
    /// Nothing is to be told of so many homes, 16,384 at most. Memory where there is none for them.
    pub fn boot(alloc: Global, homes: u32) -> Result<Self, Memory>
        requires { homes < 2 * MOST_HOMES }
        ensures { IfOk result (λ u. u ≡ record { homes = homes; needs = [] }) }
    {
        Ok(Untold {
            order: FrameOrder::boot(alloc, homes + 1)?,
            noted: vec![in alloc; false; homes as usize + 1]?,
            homes,
        })
    }

    /// A need is to be told, once.
    pub fn note(&mut self, need: Need)
        requires { IsBelow self.old.homes need }
        ensures { self.new ≡ record self.old { needs = noted need self.old.needs } }
    {
        let number = number_of(self.homes, need);
        if self.noted[number as usize] {
            return;
        }
        self.noted[number as usize] = true;
        self.order.push(number);
    }

    /// The need that is to be told first, which is then told. None exactly where nothing is to be told.
    pub fn tell(&mut self) -> Option<Need>
        ensures told { self.old.needs ≡ option_map_or (λ need. need ∷ self.new.needs) result [] }
        ensures last { result ≡ None → self.new.needs ≡ [] }
        ensures homes { self.new.homes ≡ self.old.homes }
    {
        let Some(number) = self.order.first() else {
            return None;
        };
        self.order.remove(number);
        self.noted[number as usize] = false;
        Some(need_of(self.homes, number))
    }
}
