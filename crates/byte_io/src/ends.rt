// What calls on bytes are handed, and how they end.
ghost use Rattle.std.specs.Prelude.{◌≡◌, ◌<◌};
ghost use Rattle.machine_names.specs.declared.names.TheConstants.{ACCUMULATORS};
ghost use Rattle.plain_units.specs.Deeds.{in_ac, skip_pc};
ghost use Rattle.plain_model.specs.FileCalls.{skipping as skipping_of};
ghost use Rattle.call_turns.specs.Turns.{IsRegs};

use call_turns::behind;
use plain_model::call::{ByteChange, End};
use plain_units::Regs;
use word36::Word;

/// A call that is done, and returns by its second return with these registers.
pub fn skipping(change: ByteChange, regs: Regs) -> End<ByteChange>
    requires { IsRegs regs }
    ensures end { result ≡ skipping_of change regs }
    ensures fits { IsRegs (record regs { pc = skip_pc regs }) }
{
    End::Done {
        change,
        regs: behind(behind(regs)),
        out: None,
        post: None,
    }
}
