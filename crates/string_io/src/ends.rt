// How turns of calls on strings end, and the words that they are asked with.
ghost use Rattle.std.specs.Prelude.{◌≡◌, ◌<◌, [], None};
ghost use Rattle.machine_names.specs.Bounds.{IsTerminal};
ghost use Rattle.machine_names.specs.declared.names.TheConstants.{ACCUMULATORS};
ghost use Rattle.page_contracts.specs.Pages.{Scene};
ghost use Rattle.page_gather.specs.Gathering.{AreSound, Gathers};
ghost use Rattle.plain_pages.specs.PlainPages.{NumberedPages};
ghost use Rattle.plain_units.specs.Deeds.{in_ac};
ghost use Rattle.plain_model.specs.StringCalls.{next_pointer as next_pointer_of};
ghost use Rattle.call_turns.specs.Turns.{IsRegs};

use crate::plan::Plan;
use call_turns::accumulator;
use machine_names::ForkName;
use page_gather::Gather;
use plain_model::call::{ByteChange, End};
use plain_units::Regs;
use text_pointers::{Reader, next_pointer};
use word36::Word;

/// The plan of a turn that ends so, and refers to nothing.
pub fn at_once(who: ForkName, ending: End<ByteChange>) -> Plan
    requires { IsTerminal who.tty }
    ensures fork { result.fork ≡ who }
    ensures ending { result.ending ≡ ending }
    ensures put { result.put ≡ None }
    ensures none { result.gather.references ≡ [] }
    ensures told { (p : NumberedPages) (scene : Scene) → AreSound p scene → Gathers p scene result.gather }
{
    Plan {
        fork: who,
        gather: Gather::new(who.tty),
        put: None,
        ending,
    }
}

/// The plan of a turn that ends so, behind what a reading refers to.
pub fn reading_plan(reader: Reader, ending: End<ByteChange>) -> Plan
    ensures fork { result.fork ≡ reader.fork }
    ensures gather { result.gather ≡ reader.gather }
    ensures put { result.put ≡ None }
    ensures ending { result.ending ≡ ending }
{
    Plan {
        fork: reader.fork,
        gather: reader.gather,
        put: None,
        ending,
    }
}

/// The pointer to the next byte of the string whose pointer is in an accumulator, 0 to 15.
pub fn pointer_in(regs: &Regs, ac: usize) -> Word
    requires regs { IsRegs regs.now }
    requires ac { ac < ACCUMULATORS }
    ensures { result ≡ next_pointer_of (in_ac regs.now ac) }
{
    next_pointer(accumulator(regs, ac))
}
