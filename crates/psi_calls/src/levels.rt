// Levels in progress.
ghost use Rattle.std.specs.Prelude.{◌≡◌, ◌≤◌, ◌<◌, ◌^◌, IfSome};
ghost use Rattle.plain_units.specs.Deeds.{half_flags};
ghost use Rattle.plain_model.specs.declared.interrupt.TheConstants.{LEVELS};
ghost use Rattle.plain_model.specs.Inspections.{least_level as least_level_of};
ghost use Rattle.plain_model.specs.InterruptCalls.{restored as restored_of, without_level as without_level_of};
ghost use Rattle.call_turns.specs.Turns.{IsRegs};
ghost use Rattle.job_forks.specs.Limits.{IsBody};

use ka10_deeds::flags_of;
use plain_model::{Body, Psi};
use plain_units::Regs;
use word36::Word;

/// The least level in progress, 1 to 3. None exactly where none is.
pub fn least_level(psi: &Psi) -> Option<u8>
    ensures least { result ≡ least_level_of psi.now }
    ensures level { IfSome result (λ level. (1 ≤ level) × (level ≤ LEVELS)) }
{
    let [first, second, third] = psi.levels;
    if first {
        Some(1)
    } else if second {
        Some(2)
    } else if third {
        Some(3)
    } else {
        None
    }
}

/// A fork of which a level, 1 to 3, is in progress no more.
pub fn without_level(mut body: Body, level: u8) -> Body
    requires first { 1 ≤ level }
    requires last { level ≤ LEVELS }
    ensures psi { result ≡ without_level_of body level }
    ensures within { IsBody body → IsBody result }
{
    body.psi.levels[level as usize - 1] = false;
    body
}

/// The registers with the program counter and the flags of a PC word.
pub fn restored(mut regs: Regs, word: Word) -> Regs
    ensures restored { result ≡ restored_of regs word }
    ensures fits { IsRegs regs → IsRegs result }
{
    regs.pc = word.right();
    regs.flags = flags_of(word.left());
    regs
}
