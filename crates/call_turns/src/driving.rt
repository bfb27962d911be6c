// A turn, driven to its end: all that it asks is asked, and nothing is changed.
ghost use Rattle.std.specs.Prelude.{◌≡◌, true, IfErr, IsOk, IfOk, List, ℕ};
ghost use Rattle.machine_names.specs.Bounds.{IsOwner};
ghost use Rattle.machine_names.specs.declared.names.Tty.{Tty as ATty};
ghost use Rattle.page_contracts.specs.DrumWords.{DrumWords};
ghost use Rattle.page_contracts.specs.Stores.{IsNeeded};
ghost use Rattle.plain_model.specs.Calls.{Sight};
ghost use Rattle.call_turns.specs.Granting.{IsGranted};
ghost use Rattle.call_turns.specs.Needing.{DrivenTo};
ghost use Rattle.call_turns.specs.Numbers.{by_number};
ghost use Rattle.call_turns.specs.Turns.{FitsOutcome, FitsTurn, turn_of};
ghost use Rattle.call_turns.specs.declared.turn.Grant.{Grant as AGrant};
ghost use Rattle.call_turns.specs.declared.turn.Told.{Told as ATold};
ghost use Rattle.call_turns.specs.declared.turn.Turn.{Turn as ATurn};

use crate::asking::ask;
use crate::touching::{fill, read};
use crate::{Grant, Outcome, Told, Turn};
use page_contracts::{Need, Pages};
use plain_model::call::End;
use plain_units::channel::ILLEGAL_INSTRUCTION;

/// What is left of a call's turn, over the parts of the machine that its crate sees.
pub trait Rest<C, V> {
    /// What it does with what it is told.
    ghost later: { V → Self → ATold → ATurn C Self };

    /// What holds of it.
    ghost holds: { Self → Type 0 };

    /// What holds of a change that it makes behind what was granted.
    ghost sound: { AGrant → C → Type 0 };

    /// Goes on with what it is told.
    fn later(self, parts: &V, reply: Told) -> Turn<C, Self>
        requires { holds self }
        ensures later { result ≡ later parts.now self reply }
        ensures fits { FitsTurn holds sound result };
}

/// Drives a turn of an owner of pages to its end, and changes nothing. A turn asks so many things at most: one that would ask more traps. A need comes
/// exactly where one of its looks needs a map or the page of a word that is in no frame, or its reference a page or a frame, and is that of the first.
pub fn driven<C: Copy, V, S: Rest<C, V> + Copy, P: Pages>(
    turn: Turn<C, S>,
    most: u32,
    parts: &V,
    pages: &P,
) -> Result<Outcome<C>, Need>
    requires turn { FitsTurn S.holds S.sound turn }
    ensures sound { IfOk result (FitsOutcome S.sound) }
    ensures granted { IfOk result (λ o. IsGranted P.means pages.now o.grant) }
    ensures told { (d : DrumWords) (owner : ATty) (seen : Sight (List ℕ) ℕ) → P.means.fits pages.now d → IsOwner owner
        → DrivenTo (by_number seen) (P.means.scene pages.now) (P.means.plain pages.now d) owner (turn_of owner (S.later parts.now) turn most) result }
    ensures needs { IfErr result (IsNeeded P.means.store 1 pages.now) }
    ensures core { P.means.flat ≡ true → IsOk result }
{
    match turn {
        Turn::Ends(end) => Ok(Outcome {
            grant: Grant::Nothing,
            end,
        }),
        Turn::Reads(slot, end) => read(pages, slot, end),
        Turn::Fills(file, page, end, full) => fill(pages, file, page, end, full),
        Turn::Asks(what, rest) => {
            if most == 0 {
                return Ok(Outcome {
                    grant: Grant::Nothing,
                    end: End::Trap(ILLEGAL_INSTRUCTION),
                });
            }
            match ask(what, pages) {
                Ok(reply) => driven(rest.later(parts, reply), most - 1, parts, pages),
                Err(need) => Err(need),
            }
        }
    }
}
