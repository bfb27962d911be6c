// What is forgotten where a page is settled.
ghost use Rattle.std.specs.Prelude.{◌≡◌};

use crate::known_slots::KnownSlots;
use machine_names::{Kind, Place};
use page_contracts::{Store, Touch};

impl<S: Store> KnownSlots<S> {
    ghost use Rattle.std.specs.Prelude.{◌≡◌, ◌⊎◌, ℕ, None};
    ghost use Rattle.page_contracts.specs.Pages.{IsPlace};
    ghost use Rattle.known_slots.specs.Slots.{slots};
    ghost use Rattle.known_slots.specs.WalkTimes.{known_rows};

    /// What is known of walks is forgotten, unless a page is only used.
    pub(crate) fn forget_unless_ready(&mut self, at: Place, kind: Kind)
        requires place { IsPlace ((slots S.means).lives self.old) at }
        ensures pages { self.new.pages ≡ self.old.pages }
        ensures known { ((slots S.means).touched self.old at kind ≡ Touch.Ready) ⊎ ((space page : ℕ) → known_rows self.new.walks.rows.items self.new.walks.time space page ≡ None) }
    {
        match self.pages.touch(at, kind) {
            Touch::Ready => (),
            _ => self.walks.forget(),
        }
    }
}
