// How a turn ends, and the registers with which it does.
ghost use Rattle.std.specs.Prelude.{◌≡◌, ◌<◌, ◌^◌, length};
ghost use Rattle.machine_names.specs.declared.names.TheConstants.{ACCUMULATORS};
ghost use Rattle.plain_units.specs.Deeds.{in_ac};
ghost use Rattle.plain_model.specs.Calls.{behind_call, returning as returning_of, with_ac as with_ac_of};
ghost use Rattle.ka10_unit.specs.Taking.{IsTrap};
ghost use Rattle.call_turns.specs.Answers.{HasRegs, IsDone, answer_of as answer_to, stopped_by};
ghost use Rattle.call_turns.specs.Turns.{IsRegs};

use crate::Answer;
use ka10_unit::Stop;
use plain_model::call::End;
use plain_units::Regs;
use word36::Word;

/// The word in an accumulator, 0 to 15.
pub fn accumulator(regs: &Regs, ac: usize) -> Word
    requires regs { IsRegs regs.now }
    requires ac { ac < ACCUMULATORS }
    ensures { result ≡ in_ac regs.now ac }
{
    regs.ac[ac]
}

/// The registers with a word in an accumulator, 0 to 15.
pub fn with_ac(mut regs: Regs, ac: usize, word: Word) -> Regs
    requires { ac < length regs.ac }
    ensures with { result ≡ with_ac_of regs ac word }
    ensures fits { IsRegs regs → IsRegs result }
{
    regs.ac[ac] = word;
    regs
}

/// The registers behind the call: the program counter goes on by one, modulo 2^18.
pub fn behind(mut regs: Regs) -> Regs
    requires { regs.pc < 2 ^ 18 }
    ensures behind { result ≡ behind_call regs }
    ensures fits { length regs.ac ≡ ACCUMULATORS → IsRegs result }
{
    regs.pc = regs.pc + 1 & Word::HALF_MASK;
    regs
}

/// The call is done, and returns with these registers.
pub fn returning<C>(change: C, regs: Regs) -> End<C>
    requires { regs.pc < 2 ^ 18 }
    ensures end { result ≡ returning_of change regs }
    ensures fits { IsRegs regs → IsRegs (behind_call regs) }
{
    End::Done {
        change,
        regs: behind(regs),
        out: None,
        post: None,
    }
}

/// The answer of a turn that ends so.
pub fn answer_of<C: Copy>(end: End<C>) -> Answer
    ensures { result ≡ answer_to end }
{
    match end {
        End::Done {
            regs,
            out,
            post,
            ..
        } => Answer::After { regs, out, post },
        End::Waits(on) => Answer::Wait(on),
        End::Halts => Answer::Halt,
        End::Refused(code) => Answer::Refused(code),
        End::Failed(code) => Answer::Failed(code),
        End::Trap(channel) => Answer::Trap(channel),
    }
}

/// The answer of a call that stops before its end.
pub fn stopped(stop: Stop) -> Answer
    ensures answer { result ≡ stopped_by stop }
    ensures core { IsTrap stop → IsDone result }
    ensures regs { HasRegs result }
{
    match stop {
        Stop::Trap(channel) => Answer::Trap(channel),
        Stop::Need(need) => Answer::Need(need),
    }
}
