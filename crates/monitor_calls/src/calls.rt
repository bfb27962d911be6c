// Monitor calls by their numbers.
ghost use Rattle.std.specs.Prelude.{◌≡◌, ◌<◌, ◌%◌, ◌^◌, IfErr, IfOk, IsOk, IsSome, None, Some, length, slice_index, true};
ghost use Rattle.std.specs.FinMap as map;
ghost use Rattle.machine_names.specs.declared.names.TheConstants.{ACCUMULATORS, TERMINALS};
ghost use Rattle.file_tables.specs.Tables.{open_of};
ghost use Rattle.plain_model.specs.declared.fork.Body.{Body as ABody};
ghost use Rattle.plain_model.specs.declared.fork.Fork.{Fork as AFork};
ghost use Rattle.script_texts.specs.declared.status.ForkStatus.{ForkStatus as AForkStatus};
ghost use Rattle.plain_pages.specs.PlainPages.{NumberedPages};
ghost use Rattle.plain_model.specs.Forks.{counted, fork_in, with_regs, with_status};
ghost use Rattle.plain_model.specs.Calls.{behind_call, no_files, numbered, posted_if, turn_on, with_error, with_wait, with_ac};
ghost use Rattle.plain_model.specs.Families.{print_calls};
ghost use Rattle.plain_model.specs.Trees.{with_body};
ghost use Rattle.page_contracts.specs.declared.answers.Need.{Need as ANeed};
ghost use Rattle.call_turns.specs.Answers.{AnswerNeeds, IsDone, answer_of, HasRegs};
ghost use Rattle.call_turns.specs.Turns.{IsRegs};
ghost use Rattle.job_forks.specs.Holding.{CallLeaves, Holds, PlansOnly};
ghost use Rattle.job_forks.specs.Limits.{AreWithin};
ghost use Rattle.plain_model.specs.ForkCalls.{fork_call};
ghost use Rattle.job_forks.specs.Asking.{asked};
ghost use Rattle.fork_calls.specs.Needing.{call_frames};
ghost use Rattle.fork_calls.specs.Turning.{Turned as ForksTurned};
ghost use Rattle.fork_tree.specs.Making.{AddsLast};
ghost use Rattle.fork_tree.specs.Trees.{IsTree};
ghost use Rattle.plain_model.specs.declared.call.TheConstants.{CFORK};
ghost use Rattle.monitor_calls.specs.Limits.{unit_frames};
ghost use Rattle.step_shown.specs.Reaching.{Reaches};
ghost use Rattle.monitor_calls.specs.Reaching.{reach_of};
ghost use Rattle.step_shown.specs.Shown.{shown_of};
ghost use Rattle.monitor_calls.specs.Jobs.{AreUnheld};
ghost use Rattle.monitor_calls.specs.Makings.{most_makings};
ghost use Rattle.monitor_calls.specs.ForkUnit.{CallReason, CallWaits, Called, HasJob, Place as APlace, Turns, answered as answered_of, fork_of, line_behind, out_in, tables_in};

use crate::job::Job;
use crate::row::post_channel;
use crate::typing::Typing;
use call_turns::{Answer, CallFamily, behind, family_of};
use file_tables::FileTables;
use fork_tree::Tree;
use machine_names::ForkName;
use page_contracts::{Need, Pages};
use plain_model::Body;
use plain_model::call::{CFORK, KFORK, PBOUT};
use plain_units::Regs;
use plain_units::channel::ILLEGAL_INSTRUCTION;
use psi_calls::forget_lost;
use script_texts::{ForkStatus, WaitOn};
use step_shown::{Reach, Runner, Shown, stop_of};
use text_pointers::Scratch;
use tty_lines::Line;
use word36::Word;

// PBOUT prints the low 7 bits of accumulator 1.
fn pbout(regs: &Regs) -> Answer
    requires { IsRegs regs.now }
    ensures told { result ≡ Answer.After (behind_call regs.now) (Some (slice_index regs.now.ac 1 % 128)) None }
    ensures regs { HasRegs result }
{
    let code = (regs.ac[1].value() % 128) as u8;
    Answer::After {
        regs: behind(*regs),
        out: Some(code),
        post: None,
    }
}

// A turn of a call that prints, by its number.
fn print_call(number: u32, regs: &Regs) -> Answer
    requires { IsRegs regs.now }
    ensures told { (p : NumberedPages) → result ≡ answer_of (turn_on no_files p (numbered print_calls number regs.now)).end }
    ensures done { IsDone result }
    ensures regs { HasRegs result }
{
    if number == PBOUT {
        return pbout(regs);
    }
    Answer::Trap(ILLEGAL_INSTRUCTION)
}

// A turn of a fork call. Where it has killed forks, the codes that they have assigned are assigned to nothing.
fn fork_turn<P: Pages>(
    number: u32,
    regs: &Regs,
    who: ForkName,
    tree: &mut Tree,
    line: &mut Line,
    pages: &mut P,
) -> Answer
    requires regs { IsRegs regs.now }
    requires lives { IsSome (map.get tree.old.forks who) }
    requires holds { Holds P.means pages.old tree.old.forks }
    requires within { AreWithin tree.old.forks }
    requires serial { P.means.serial pages.old who.tty < 2 ^ 62 }
    ensures told { ForksTurned P.means pages.old pages.new tree.old tree.new result (fork_call number (asked who regs.now tree.old)) }
    ensures line { line.new ≡ line_behind number result tree.new.forks line.old }
    ensures input { line.new.input ≡ line.old.input }
    ensures trees { IsTree tree.old }
    ensures needs { AnswerNeeds P.means.store call_frames pages.new result }
    ensures core { P.means.flat ≡ true → IsDone result }
    ensures unmade { (n : ANeed) → result ≡ Answer.Need n → PlansOnly P.means who.tty pages.old pages.new }
    ensures left { (n : ANeed) → result ≡ Answer.Need n → tree.new ≡ tree.old }
    ensures leaves { CallLeaves P.means pages.old pages.new tree.old tree.new who 128 }
    ensures adds { number ≡ CFORK → AddsLast who.tty tree.old tree.new }
    ensures regs { HasRegs result }
{
    tree.are_trees();
    let answer = fork_calls::call(number, regs, who, tree, pages);
    if let Answer::After { .. } = &answer {
        if number == KFORK {
            forget_lost(line, tree);
        }
    }
    answer
}

// A turn of a monitor call, by its number: of the family of calls that has the number. A number that is no call traps. One that
// needs something first leaves all as it was.
fn turn<P: Pages>(
    number: u32,
    regs: &Regs,
    who: ForkName,
    tree: &mut Tree,
    files: &mut FileTables,
    jobs: &Vec<Option<Job>>,
    typed: &mut Vec<Typing>,
    clock: u64,
    scratch: &mut Scratch,
    pages: &mut P,
) -> Answer
    requires regs { IsRegs regs.now }
    requires lives { IsSome (map.get tree.old.forks who) }
    requires holds { Holds P.means pages.old tree.old.forks }
    requires within { AreWithin tree.old.forks }
    requires job { HasJob files.old jobs.now.items typed.old.items who.tty }
    requires serial { P.means.serial pages.old who.tty < 2 ^ 62 }
    requires clock { clock < 2 ^ 63 }
    ensures told { Turns P.means pages.old pages.new (tables_in tree.old files.old jobs.now.items typed.old.items clock) (tables_in tree.new files.new jobs.now.items typed.new.items clock) who regs.now number result }
    ensures unheld { AreUnheld (open_of files.new) jobs.now.items }
    ensures stays { (n : ANeed) → result ≡ Answer.Need n → files.new ≡ files.old }
    ensures untyped { (n : ANeed) → result ≡ Answer.Need n → typed.new.items ≡ typed.old.items }
    ensures typing_room { length typed.new.items ≡ TERMINALS }
    ensures needs { AnswerNeeds P.means.store unit_frames pages.new result }
    ensures core { P.means.flat ≡ true → IsDone result }
    ensures unmade { (n : ANeed) → result ≡ Answer.Need n → PlansOnly P.means who.tty pages.old pages.new }
    ensures left { (n : ANeed) → result ≡ Answer.Need n → tree.new ≡ tree.old }
    ensures reason { (n : ANeed) → result ≡ Answer.Need n → CallReason P.means pages.old (tables_in tree.old files.old jobs.now.items typed.old.items clock) who regs.now number n }
    ensures leaves { CallLeaves P.means pages.old pages.new tree.old tree.new who most_makings }
    ensures own { reach_of number ≡ Reach.Own → tree.new ≡ tree.old }
    ensures made { reach_of number ≡ Reach.Made → AddsLast who.tty tree.old tree.new }
    ensures regs { HasRegs result }
{
    let Some(family) = family_of(number) else {
        return Answer::Trap(ILLEGAL_INSTRUCTION);
    };
    match family {
        CallFamily::Printing => print_call(number, regs),
        CallFamily::Forks => {
            let assigned = &mut typed[who.tty.0 as usize].input;
            fork_turn(number, regs, who, tree, assigned, pages)
        }
        CallFamily::Interrupts => {
            let codes = &mut typed[who.tty.0 as usize].input;
            psi_calls::call(number, regs, who, tree, codes, &mut scratch.reader, pages)
        }
        CallFamily::Clock => {
            tree.are_trees();
            clock_calls::call(number, regs, who, tree, clock)
        }
        CallFamily::Maps => pmap_calls::call(number, regs, who, tree, files, pages),
        CallFamily::Errors => file_calls::call(number, regs, who, tree),
        CallFamily::Jfns => {
            let Some(job) = &jobs[who.tty.0 as usize] else {
                unreachable!();
            };
            file_calls::jfn_call(number, regs, who, &job.user, files, scratch, pages)
        }
        CallFamily::Bytes => {
            let line = &mut typed[who.tty.0 as usize].input;
            byte_io::call(number, regs, who, line, files, pages)
        }
        CallFamily::Strings => {
            let input = &mut typed[who.tty.0 as usize].input;
            string_io::call(number, regs, who, input, files, pages)
        }
    }
}

/// How far a monitor call of a number may reach.
pub fn reach_of(number: u32) -> Reach
    ensures { result ≡ reach_of number }
{
    if number == CFORK {
        return Reach::Made;
    }
    match family_of(number) {
        Some(CallFamily::Forks) | Some(CallFamily::Interrupts) | Some(CallFamily::Clock) =>
            Reach::Job,
        _ => Reach::Own,
    }
}

// The fork waits; one that sleeps knows to which moment.
fn wait(body: &mut Body, what: WaitOn)
    ensures fork { (f : AFork) → with_body body.new f ≡ with_wait (with_body body.old f) what }
    ensures units { body.new.units ≡ body.old.units }
{
    if let WaitOn::Sleep(moment) = what {
        body.sleep = Some(moment);
    }
    body.status = ForkStatus::Wait(what);
}

// The fork is halted, behind the call.
fn halt(body: &mut Body)
    requires { body.old.regs.pc < 2 ^ 18 }
    ensures fork { (f : AFork) → with_body body.new f
        ≡ with_status (with_regs (with_body body.old f) (behind_call body.old.regs)) AForkStatus.Halted }
    ensures units { body.new.units ≡ body.old.units }
{
    body.regs = behind(body.regs);
    body.status = ForkStatus::Halted;
}

// A call with two returns is refused: it returns by the first, with the code in accumulator 1.
fn fail(body: &mut Body, code: u32)
    requires pc { body.old.regs.pc < 2 ^ 18 }
    requires accumulators { length body.old.regs.ac ≡ ACCUMULATORS }
    ensures fork { (f : AFork) → with_body body.new f
        ≡ with_error (with_regs (with_body body.old f) (behind_call (with_ac body.old.regs 1 code))) code }
    ensures units { body.new.units ≡ body.old.units }
{
    body.regs.ac[1] = Word::wrapped(u64::from(code));
    body.regs = behind(body.regs);
    body.error = code;
}

// A channel is posted, if one is.
fn post_if(body: &mut Body, channel: Option<u8>)
    ensures fork { (f : AFork) → with_body body.new f ≡ posted_if (with_body body.old f) channel }
    ensures units { body.new.units ≡ body.old.units }
{
    if let Some(channel) = channel {
        post_channel(body, channel);
    }
}

// A fork is as a turn of its call leaves it that has answered so, but for its count of units: one that is refused leaves its error, and
// traps where it has one return; who waits stays on the call. What it prints.
fn left(body: &mut Body, answer: Answer) -> Option<u8>
    requires pc { body.old.regs.pc < 2 ^ 18 }
    requires accumulators { length body.old.regs.ac ≡ ACCUMULATORS }
    requires done { IsDone answer }
    ensures fork { (f : AFork) → with_body body.new f ≡ answered_of (with_body body.old f) answer }
    ensures units { body.new.units ≡ body.old.units }
    ensures out { result ≡ out_in answer }
{
    match answer {
        Answer::After { regs, out, post } => {
            body.regs = regs;
            post_if(body, post);
            out
        }
        Answer::Wait(what) => {
            wait(body, what);
            None
        }
        Answer::Halt => {
            halt(body);
            None
        }
        Answer::Refused(code) => {
            body.error = code;
            post_channel(body, ILLEGAL_INSTRUCTION);
            None
        }
        Answer::Failed(code) => {
            fail(body, code);
            None
        }
        Answer::Trap(channel) => {
            post_channel(body, channel);
            None
        }
        Answer::Need(_) => unreachable!(),
    }
}

// A turn of a call is over that has answered so.
fn answered(body: &mut Body, answer: Answer) -> Shown
    requires few { body.old.units < 2 ^ 63 }
    requires pc { body.old.regs.pc < 2 ^ 18 }
    requires accumulators { length body.old.regs.ac ≡ ACCUMULATORS }
    requires done { IsDone answer }
    ensures fork { (f : AFork) → with_body body.new f ≡ counted (answered_of (with_body body.old f) answer) }
    ensures shown { result ≡ shown_of (out_in answer) body.new.status }
{
    let out = left(body, answer);
    body.units += 1;
    Shown {
        out,
        stop: stop_of(body.status),
    }
}

/// A turn of a monitor call of a fork of a tree, by its number: the fork that called is then as the change leaves it. Err: it needs
/// this first, and nothing was changed.
pub fn called<P: Pages>(
    tree: &mut Tree,
    pages: &mut P,
    files: &mut FileTables,
    jobs: &Vec<Option<Job>>,
    typed: &mut Vec<Typing>,
    clock: u64,
    scratch: &mut Scratch,
    who: Runner,
    number: u32,
) -> Result<Shown, Need>
    requires there { IsSome (fork_in tree.old.forks who.fork.tty who.slot) }
    requires named { (f : AFork) → fork_in tree.old.forks who.fork.tty who.slot ≡ Some f → f.name ≡ who.fork }
    requires can { AreWithin tree.old.forks }
    requires few { (f : AFork) → fork_in tree.old.forks who.fork.tty who.slot ≡ Some f → f.body.units < 2 ^ 63 }
    requires holds { Holds P.means pages.old tree.old.forks }
    requires job { HasJob files.old jobs.now.items typed.old.items who.fork.tty }
    requires serial { P.means.serial pages.old who.fork.tty < 2 ^ 62 }
    requires clock { clock < 2 ^ 63 }
    ensures called { (at : APlace) (b : ABody) → fork_in tree.old.forks who.fork.tty who.slot ≡ Some (fork_of who.fork at b)
        → IfOk result (Called P.means pages.old pages.new (tables_in tree.old files.old jobs.now.items typed.old.items clock) (tables_in tree.new files.new jobs.now.items typed.new.items clock) (fork_of who.fork at b) number) }
    ensures needs { IfErr result (CallWaits P.means pages.old pages.new (tables_in tree.old files.old jobs.now.items typed.old.items clock) (tables_in tree.new files.new jobs.now.items typed.new.items clock) who.fork number) }
    ensures core { P.means.flat ≡ true → IsOk result }
    ensures reach { Reaches (reach_of number) who.fork tree.old tree.new }
{
    let Some(fork) = tree.fork_at(who.fork.tty, who.slot) else {
        unreachable!();
    };
    let regs = fork.body.regs;
    let answer = turn(
        number, &regs, who.fork, tree, files, jobs, typed, clock, scratch, pages,
    );
    if let Answer::Need(need) = answer {
        return Err(need);
    }
    tree.are_trees();
    match tree.body_mut(who.fork) {
        Some(body) => Ok(answered(body, answer)),
        None => Ok(Shown::NOTHING),
    }
}
