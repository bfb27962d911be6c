// Effective addresses of a unit that is planned.
ghost use Rattle.std.specs.Prelude.{◌≡◌, ◌≤◌, IfErr, IfOk};
ghost use Rattle.machine_names.specs.Bounds.{IsAddress};
ghost use Rattle.ka10_unit.specs.Gathers.{Serves};
ghost use Rattle.ka10_unit.specs.Planning.{reached};
ghost use Rattle.ka10_unit.specs.Taking.{Does, Spares, StopNeeds, StopsFor, most_pages};

use crate::references::refer;
use crate::taken::{Stop, Taken};
use ka10_deeds::{Address, MOST_WORDS, is_indirect, step_of};
use machine_names::Kind;
use page_contracts::Pages;
use plain_units::Regs;
use word36::Word;

/// The effective address of a word. Its indirect words are references of the unit.
pub fn address_of<P: Pages>(
    taken: &mut Taken,
    regs: &Regs,
    pages: &P,
    first: Word,
) -> Result<Address, Stop>
    requires serves { Serves P.means pages.now taken.old.fork }
    ensures fork { taken.new.fork ≡ taken.old.fork }
    ensures kept { taken.new.kept ≡ taken.old.kept }
    ensures spare { IfOk result (λ a. Spares 0 taken.old taken.new) }
    ensures below { IfOk result (λ a. IsAddress a.e) }
    ensures needs { IfErr result (StopsFor P.means pages.now) }
    ensures frames { IfErr result (StopNeeds P.means.store (most_pages Kind.Read taken.old) pages.now) }
    ensures left { IfOk result (λ a. most_pages Kind.Read taken.new ≤ most_pages Kind.Read taken.old) }
    ensures told { Does P.means pages.now regs.now.ac taken.old taken.new (reached regs.now.ac first) result }
{
    let mut word = first;
    for left in 0..MOST_WORDS {
        let step = step_of(regs, word);
        if !is_indirect(word) {
            return Ok(step);
        }
        word = refer(taken, regs, pages, step.e, Kind::Read)?;
    }
    Err(Stop::ILLEGAL)
}
