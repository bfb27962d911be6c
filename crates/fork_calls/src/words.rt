// Sixteen words of the caller, and the address that names them.
ghost use Rattle.std.specs.Prelude.{◌≡◌, ◌<◌, ◌^◌, Ok, IfErr, OnErr, List, ℕ, true};
ghost use Rattle.machine_names.specs.declared.names.Kind.{Kind as AKind};
ghost use Rattle.machine_names.specs.declared.names.TheConstants.{ACCUMULATORS};
ghost use Rattle.machine_names.specs.Bounds.{IsAddress};
ghost use Rattle.page_contracts.specs.DrumWords.{DrumWords};
ghost use Rattle.ka10_unit.specs.Blocks.{AreOpenAt};
ghost use Rattle.ka10_unit.specs.Carrying.{Grows};
ghost use Rattle.ka10_unit.specs.Gathers.{Serves, framed};
ghost use Rattle.ka10_unit.specs.Taking.{IsTrap, StopNeeds, frames_for};
ghost use Rattle.plain_model.specs.ForkCalls.{address_named as address_named_of};
ghost use Rattle.call_turns.specs.Turns.{IsRegs};
ghost use Rattle.fork_calls.specs.Blocks.{TookBlock};

use ka10_unit::{Stop, Taken, make_block, refer_block};
use machine_names::{ForkName, Kind};
use page_contracts::Pages;
use plain_units::Regs;
use word36::Word;

/// The address in accumulator 2.
pub fn address_named(regs: &Regs) -> u32
    requires { IsRegs regs.now }
    ensures address { result ≡ address_named_of regs.now }
    ensures low { IsAddress result }
{
    regs.ac[2].right()
}

/// Refers to sixteen words of a fork from an address on, makes their pages, and takes the words. Err: a page of one, or a
/// map on its way, is in no frame; one is denied; or for one a page has to be made while the drum is full, or no frame is
/// free. Then nothing changes.
pub fn block<P: Pages>(
    regs: &Regs,
    who: ForkName,
    at: u32,
    kind: Kind,
    pages: &mut P,
) -> Result<[Word; 16], Stop>
    requires address { IsAddress at }
    requires serves { Serves P.means pages.old who }
    requires serial { P.means.serial pages.old who.tty < 2 ^ 62 }
    ensures told { (d : DrumWords) → P.means.fits pages.old d
        → P.means.fits pages.new d × TookBlock who regs.now at kind (framed P.means pages.old d) (P.means.plain pages.new d) result }
    ensures opens { (d : DrumWords) (words : List ℕ) → P.means.fits pages.old d → result ≡ Ok words → kind ≡ AKind.Write
        → AreOpenAt who (framed P.means pages.new d) at ACCUMULATORS }
    ensures core { P.means.flat ≡ true → IfErr result IsTrap }
    ensures needs { IfErr result (StopNeeds P.means.store (frames_for kind) pages.new) }
    ensures stopped { OnErr result (pages.new ≡ pages.old) }
    ensures grows { Grows P.means who.tty 128 pages.old pages.new }
{
    let mut taken = Taken::new();
    match refer_block(&mut taken, regs, pages, who, at, kind) {
        Err(stop) => Err(stop),
        Ok(words) => {
            make_block(&taken, pages);
            Ok(words)
        }
    }
}
