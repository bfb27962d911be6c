// How each call on pseudo-interrupts ends that reads no word, by its definition; or the code of the error with which the call is refused.
ghost use Rattle.std.specs.Prelude.{◌≡◌, IfOk, IfSome, false};
ghost use Rattle.std.specs.Option.{option_map_or};
ghost use Rattle.plain_units.specs.declared.channel.TheConstants.{ILLEGAL_INSTRUCTION as AN_ILLEGAL_INSTRUCTION};
ghost use Rattle.plain_units.specs.declared.registers.Regs.{Regs as ARegs};
ghost use Rattle.plain_model.specs.declared.call.End.{End as AnEnd};
ghost use Rattle.plain_model.specs.Interrupts.{channels_of, posted_all};
ghost use Rattle.plain_model.specs.Calls.{Asked as AnAsked, ends, given, numbered};
ghost use Rattle.plain_model.specs.Forks.{ForkMap};
ghost use Rattle.plain_model.specs.Trees.{PlainTree};
ghost use Rattle.plain_typing.specs.Lines.{IsAssignable};
ghost use Rattle.plain_model.specs.InterruptCalls.{ati as ati_of, debrk as debrk_of, dic as dic_of, dismissed_if, dti as dti_of, is_bad_code as is_bad_code_of, interrupt_calls};
ghost use Rattle.call_turns.specs.Turns.{FitsEnd, IsRegs};
ghost use Rattle.fork_tree.specs.Trees.{Lives};
ghost use Rattle.job_forks.specs.Asking.{asked};
ghost use Rattle.job_forks.specs.Limits.{IsBodyOf};
ghost use Rattle.psi_calls.specs.Steps.{FitsStep, IsChange, IsLevelOf, dismissed_at, posts_to, whole};
ghost use Rattle.plain_model.specs.declared.call.TheConstants.{SIR, EIR, DIR, AIC, IIC};

use crate::bodies::{switched_off, switched_on, with_channels, with_table, without_channels};
use crate::levels::least_level;
use crate::step::{FirstStep, LevelToEnd};
use call_turns::returning;
use fork_tree::{Tree, post_all};
use job_forks::own_named;
use machine_names::ForkName;
use plain_model::call::{BAD_CODE, End, InterruptChange};
use plain_model::interrupt::CHANNELS;
use plain_model::{Body, Fork};
use plain_typing::{ASSIGNABLE_CODES, CONTROL_C};
use plain_units::Regs;
use plain_units::channel::ILLEGAL_INSTRUCTION;
use word36::Word;

/// SIR: sets the level table and the channel table of the caller or an inferior, LEVTAB,,CHNTAB, by accumulator 2. NO_HANDLE, NO_INFERIOR.
pub fn sir(regs: &Regs, who: ForkName, tree: &Tree) -> Result<End<InterruptChange>, u32>
    requires { IsRegs regs.now }
    ensures turn { given result ends ≡ numbered interrupt_calls SIR (asked who regs.now tree.now) }
    ensures fits { IfOk result (FitsEnd (IsChange tree.now.forks who)) }
{
    let fork = own_named(regs, who, tree)?;
    let body = with_table(fork.body, regs.ac[2]);
    Ok(returning(InterruptChange::Become(fork.name, body), *regs))
}

/// EIR: the interrupts of the caller or an inferior are on; a fork that waits goes on where an active channel is pending. NO_HANDLE,
/// NO_INFERIOR.
pub fn eir(regs: &Regs, who: ForkName, tree: &Tree) -> Result<End<InterruptChange>, u32>
    requires { IsRegs regs.now }
    ensures turn { given result ends ≡ numbered interrupt_calls EIR (asked who regs.now tree.now) }
    ensures fits { IfOk result (FitsEnd (IsChange tree.now.forks who)) }
{
    let fork = own_named(regs, who, tree)?;
    let body = switched_on(fork.body);
    Ok(returning(InterruptChange::Become(fork.name, body), *regs))
}

/// DIR: the interrupts of the caller or an inferior are off. NO_HANDLE, NO_INFERIOR.
pub fn dir(regs: &Regs, who: ForkName, tree: &Tree) -> Result<End<InterruptChange>, u32>
    requires { IsRegs regs.now }
    ensures turn { given result ends ≡ numbered interrupt_calls DIR (asked who regs.now tree.now) }
    ensures fits { IfOk result (FitsEnd (IsChange tree.now.forks who)) }
{
    let fork = own_named(regs, who, tree)?;
    let body = switched_off(fork.body);
    Ok(returning(InterruptChange::Become(fork.name, body), *regs))
}

/// AIC: the channels of accumulator 2 are active in the caller or an inferior; a fork that waits goes on where an active channel is
/// pending. NO_HANDLE, NO_INFERIOR.
pub fn aic(regs: &Regs, who: ForkName, tree: &Tree) -> Result<End<InterruptChange>, u32>
    requires { IsRegs regs.now }
    ensures turn { given result ends ≡ numbered interrupt_calls AIC (asked who regs.now tree.now) }
    ensures fits { IfOk result (FitsEnd (IsChange tree.now.forks who)) }
{
    let fork = own_named(regs, who, tree)?;
    let body = with_channels(fork.body, regs.ac[2]);
    Ok(returning(InterruptChange::Become(fork.name, body), *regs))
}

/// DIC: the channels of accumulator 2 are neither active nor pending in the caller or an inferior. NO_HANDLE, NO_INFERIOR.
pub fn dic(regs: &Regs, who: ForkName, tree: &Tree) -> Result<End<InterruptChange>, u32>
    requires { IsRegs regs.now }
    ensures turn { given result ends ≡ dic_of (asked who regs.now tree.now) }
    ensures fits { IfOk result (FitsEnd (IsChange tree.now.forks who)) }
{
    let fork = own_named(regs, who, tree)?;
    let body = without_channels(fork.body, regs.ac[2]);
    Ok(returning(InterruptChange::Become(fork.name, body), *regs))
}

// A fork that lives takes the channels of a word.
fn posted(fork: Fork, channels: Word) -> Body
    ensures posted { result ≡ (posted_all fork (channels_of channels)).body }
    ensures fits { (forks : ForkMap) → Lives forks fork → IsBodyOf forks fork.name result }
{
    let mut body = fork.body;
    post_all(&mut body, channels);
    body
}

// The channels of a word are to be posted to a fork of the caller's job that lives. The end of the caller is told by its own unit, and so its body is changed
// alone.
fn posting(fork: Fork, channels: Word, who: ForkName) -> InterruptChange
    requires job { fork.name.tty.0 ≡ who.tty.0 }
    ensures posts { result ≡ posts_to who channels fork }
    ensures fits { (forks : ForkMap) → Lives forks fork → IsChange forks who result }
{
    if fork.name == who {
        InterruptChange::Become(fork.name, posted(fork, channels))
    } else {
        InterruptChange::Post(fork.name, channels)
    }
}

/// IIC: the channels of accumulator 2 are posted to the caller or an inferior, in rising order. NO_HANDLE, NO_INFERIOR.
pub fn iic(regs: &Regs, who: ForkName, tree: &Tree) -> Result<End<InterruptChange>, u32>
    requires { IsRegs regs.now }
    ensures turn { given result ends ≡ numbered interrupt_calls IIC (asked who regs.now tree.now) }
    ensures fits { IfOk result (FitsEnd (IsChange tree.now.forks who)) }
{
    let fork = own_named(regs, who, tree)?;
    Ok(returning(posting(fork, regs.ac[2], who), *regs))
}

// Whether a code can't be assigned.
fn is_bad_code(code: u64) -> bool
    ensures bad { result ≡ is_bad_code_of code }
    ensures assignable { result ≡ false → IsAssignable code }
{
    code >= ASSIGNABLE_CODES as u64 || code == u64::from(CONTROL_C)
}

/// ATI: the code in the left half of accumulator 1 is assigned to the caller's channel in the right half. BAD_CODE.
pub fn ati(regs: &Regs, who: ForkName) -> Result<End<InterruptChange>, u32>
    requires { IsRegs regs.now }
    ensures turn { (tree : PlainTree) → given result ends ≡ ati_of (asked who regs.now tree) }
    ensures fits { (forks : ForkMap) → IfOk result (FitsEnd (IsChange forks who)) }
{
    let code = regs.ac[1].left();
    let channel = regs.ac[1].right();
    if is_bad_code(u64::from(code)) || channel >= u32::from(CHANNELS) {
        return Err(BAD_CODE);
    }
    let change = InterruptChange::Assign(code as u8, who, channel as u8);
    Ok(returning(change, *regs))
}

/// DTI: the code in accumulator 1 is assigned to nothing. BAD_CODE.
pub fn dti(regs: &Regs, who: ForkName) -> Result<End<InterruptChange>, u32>
    requires { IsRegs regs.now }
    ensures turn { (tree : PlainTree) → given result ends ≡ dti_of (asked who regs.now tree) }
    ensures fits { (forks : ForkMap) → IfOk result (FitsEnd (IsChange forks who)) }
{
    let code = regs.ac[1].value();
    if is_bad_code(code) {
        return Err(BAD_CODE);
    }
    let change = InterruptChange::Unassign(who.tty, code as u8);
    Ok(returning(change, *regs))
}

// The least level of a fork that is in progress; or none, as where the fork has no table.
fn level_to_end(fork: &Fork) -> Option<LevelToEnd>
    ensures level { (a : AnAsked) → option_map_or (dismissed_at a) result (ends (AnEnd.Trap AN_ILLEGAL_INSTRUCTION)) ≡ dismissed_if a fork.now }
    ensures fits { IfSome result (IsLevelOf fork.now) }
{
    let table = fork.body.psi.table?;
    let level = least_level(&fork.body.psi)?;
    Some(LevelToEnd {
        fork: *fork,
        table,
        level,
    })
}

/// DEBRK: the caller's least level in progress is to be over. It traps as an illegal instruction where there is none.
pub fn debrk(who: ForkName, tree: &Tree) -> FirstStep
    ensures turn { (regs : ARegs) → whole (asked who regs tree.now) result ≡ debrk_of (asked who regs tree.now) }
    ensures fits { FitsStep tree.now.forks who result }
{
    let Some(fork) = tree.fork(who) else {
        return FirstStep::Ends(End::Trap(ILLEGAL_INSTRUCTION));
    };
    match level_to_end(fork) {
        Some(level) => FirstStep::Dismisses(level),
        None => FirstStep::Ends(End::Trap(ILLEGAL_INSTRUCTION)),
    }
}
