// How a fork stands, in words (JSYS Manual, RFSTS).
ghost use Rattle.std.specs.Prelude.{◌≡◌, ◌<◌, ◌≤◌, ◌^◌};
ghost use Rattle.plain_model.specs.AccessWords.{bit_word};
ghost use Rattle.plain_model.specs.ForkCalls.{place_word as place_word_of, status_channel as status_channel_of, status_code as status_code_of, status_word as status_word_of};
ghost use Rattle.call_turns.specs.Turns.{IsRegs};
ghost use Rattle.job_forks.specs.Asking.{asked};

use fork_tree::Tree;
use job_forks::same_fork;
use ka10_deeds::{half_of_flags, pc_word};
use machine_names::ForkName;
use plain_model::Fork;
use plain_units::Regs;
use script_texts::{ForkStatus, WaitOn};
use word36::Word;

/// Bit 0: the fork has a freeze mark of its own.
const FROZEN: u64 = 1 << 35;

// The code of a status.
fn status_code(status: ForkStatus) -> u32
    ensures code { result ≡ status_code_of status }
    ensures low { result ≤ 5 }
{
    match status {
        ForkStatus::Run => 0,
        ForkStatus::Wait(on) => match on {
            WaitOn::Input => 1,
            WaitOn::Fork => 4,
            WaitOn::Sleep(_) => 5,
        },
        ForkStatus::Halted => 2,
        ForkStatus::Forced(_) => 3,
    }
}

// The channel of a status.
fn status_channel(status: ForkStatus) -> u32
    ensures channel { result ≡ status_channel_of status }
    ensures low { result < 256 }
{
    match status {
        ForkStatus::Forced(channel) => u32::from(channel),
        ForkStatus::Wait(_) => 0,
        ForkStatus::Run => 0,
        ForkStatus::Halted => 0,
    }
}

// The freeze mark as a bit.
fn frozen_bit(frozen: bool) -> u64
    ensures bit { result ≡ bit_word frozen 0 }
    ensures low { result ≤ 2 ^ 35 }
{
    if frozen { FROZEN } else { 0 }
}

/// How a fork stands: its freeze mark, the code of its status, and the channel.
#[tactic(auto, unfolding(plain_model::specs::ForkCalls::status_word))]
pub fn status_word(fork: &Fork) -> Word
    ensures { result ≡ status_word_of fork.now }
{
    let status = fork.body.status;
    let halves = Word::join(status_code(status), status_channel(status));
    Word::wrapped(frozen_bit(fork.frozen) + halves.value())
}

/// The PC word of a fork: where it is the caller, its next instruction is behind the call.
#[tactic(auto, unfolding(plain_model::specs::ForkCalls::place_word))]
pub fn place_word(regs: &Regs, who: ForkName, tree: &Tree, fork: &Fork) -> Word
    requires regs { IsRegs regs.now }
    requires fork { fork.now.body.regs.pc < 2 ^ 18 }
    ensures { result ≡ place_word_of (asked who regs.now tree.now) fork.now }
{
    if same_fork(fork.name, who) {
        pc_word(regs)
    } else {
        Word::join(half_of_flags(fork.body.regs.flags), fork.body.regs.pc)
    }
}
