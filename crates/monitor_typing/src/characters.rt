// A character that is typed at a terminal.
ghost use Rattle.std.specs.Prelude.{◌≡◌, ◌<◌, [], IsSome, if◌then◌else◌, false, true};
ghost use Rattle.std.specs.FinMap as map;
ghost use Rattle.machine_names.specs.Bounds.{IsTerminal};
ghost use Rattle.machine_names.specs.declared.names.Tty.{Tty as ATty};
ghost use Rattle.plain_typing.specs.Characters.{read_as as is_read_as};
ghost use Rattle.plain_typing.specs.Commands.{command_of};
ghost use Rattle.plain_typing.specs.Typing.{fate_of};
ghost use Rattle.plain_model.specs.declared.fork.TerminalMode.{TerminalMode as AMode};
ghost use Rattle.plain_model.specs.Commands.{with_job_at};
ghost use Rattle.plain_model.specs.Trees.{readers_woken};
ghost use Rattle.fork_tree.specs.Trees.{IsTree};
ghost use Rattle.plain_model.specs.TypeEvents.{interrupted, line_of, line_typed, posted_at, typed_so};
ghost use Rattle.event_deeds.specs.Deeds.{deed as deed_of, line_begun, typed_by};
ghost use Rattle.event_deeds.specs.declared.deed.Deed.TheVariants.{Typed as ATyped};
ghost use Rattle.monitor_typing.specs.Deeds.{Does, FitsAnswer, IsEchoed, line_end, once};
ghost use Rattle.step_shown.specs.Echoes.{echo_items, FitsEcho};
ghost use Rattle.monitor_typing.specs.Effects.{Has, HasJobAt, job_in, stopped_tree};
ghost use Rattle.monitor_typing.specs.Reaching.{EchoReaches, PartReaches};
ghost use Rattle.step_shown.specs.declared.echo.Echo.{Echo as AnEcho};

use crate::commands::{begins, do_command};
use event_deeds::{Answer, Deed, Showing};
use exec_cmd::read;
use fork_tree::{Tree, channel_word};
use machine_names::character::LINE_END;
use machine_names::{ForkName, Tty};
use monitor_calls::{Job, channel_of, seen_stop};
use monitor_core::System;
use page_contracts::Pages;
use plain_model::TerminalMode;
use plain_typing::{CONTROL_C, Command, Typed};
use step_shown::{Echo, Stop, Told};
use tty_lines::read_as;

// The top fork has the freeze mark, where the forks of its job read the terminal.
fn stop(mode: TerminalMode, top: ForkName, tree: &mut Tree)
    requires { IsSome (map.get tree.old.forks top) }
    ensures { tree.new ≡ stopped_tree mode tree.old top }
{
    match mode {
        TerminalMode::Program => tree.freeze(top, true),
        TerminalMode::Command => {}
    }
}

// A character is stored for a job: who waits for one runs again. Whether any may.
fn wake(tree: &mut Tree, t: Tty) -> bool
    ensures tree { tree.new ≡ record tree.old { forks = readers_woken tree.old.forks t } }
    ensures none { result ≡ false → tree.new ≡ tree.old }
    ensures was { IsTree tree.old }
    ensures is { IsTree tree.new }
{
    tree.are_trees();
    let may = tree.wake_readers(t);
    tree.are_trees();
    may
}

// How a fork stands to which a channel was posted, that has forced it or not.
fn stop_by(forced: bool, channel: u8) -> Stop
    ensures { result ≡ (if forced then Stop.Forced channel else Stop.GoesOn) }
{
    if forced {
        Stop::Forced(channel)
    } else {
        Stop::GoesOn
    }
}

// What is shown of a character that is stored, and may have woken who waits for one.
fn stored(may: bool, code: u8) -> Echo
    ensures { result ≡ (if may then AnEcho.Wakes code else AnEcho.Shows code) }
{
    if may {
        Echo::Wakes(code)
    } else {
        Echo::Shows(code)
    }
}

// A character that is over with what a terminal shows of it.
fn echoed(t: Tty, shown: Echo) -> Answer
    ensures { result ≡ once t shown }
{
    Answer {
        showing: Showing::Echo(t, shown),
        next: None,
    }
}

// The end of a line, what its command prints so far, and what comes next of it.
fn ended(t: Tty, told: Told, next: Option<Deed>) -> Answer
    ensures { result ≡ line_end t told next }
{
    Answer {
        showing: Showing::Echo(t, Echo::Ends(told)),
        next,
    }
}

// Control-C: the program stands still, and the monitor waits for a command.
fn interrupt<P: Pages>(system: &mut System<P>, t: Tty, job: Job) -> Echo
    requires terminal { IsTerminal t }
    requires job { HasJobAt system.old t job }
    ensures has { Has system.old system.new (λ s. interrupted s t (job_in system.old t job)) (echo_items t result) }
    ensures fits { FitsEcho result }
    ensures others { EchoReaches t result system.old.tree.forks system.new.tree.forks }
{
    system.tree.are_trees();
    stop(job.mode, job.top, &mut system.tree);
    system.tree.are_trees();
    system.jobs[t.0 as usize] = Some(job.in_command());
    system.typed[t.0 as usize].line.clear();
    Echo::Stops
}

// A character that a fork has assigned is typed: its channel is posted to that fork. One that it forces has stopped.
fn post_typed<P: Pages>(system: &mut System<P>, name: ForkName, channel: u8) -> Echo
    ensures has { (t : ATty) → Has system.old system.new (λ s. posted_at s name channel) (echo_items t result) }
    ensures fits { FitsEcho result }
    ensures others { (t : ATty) → EchoReaches t result system.old.tree.forks system.new.tree.forks }
{
    system.tree.are_trees();
    let Some(fork) = system.tree.fork(name) else {
        return Echo::Nothing;
    };
    let slot = fork.slot;
    let forced = system
        .tree
        .post_channels(name, channel_word(channel_of(channel)));
    system.tree.are_trees();
    let stop = stop_by(forced, channel);
    Echo::Posts(name.tty, seen_stop(&mut system.jobs, name.tty, slot, stop))
}

// A character is typed for the forks of a job.
fn type_program<P: Pages>(system: &mut System<P>, t: Tty, job: Job, c: u8) -> Echo
    requires terminal { IsTerminal t }
    requires job { HasJobAt system.old t job }
    requires code { c < 128 }
    ensures has { Has system.old system.new
        (λ s. let j = job_in system.old t job in typed_so (fate_of (line_of j) (is_read_as c)) s t j (is_read_as c)) (echo_items t result) }
    ensures fits { FitsEcho result }
    ensures others { EchoReaches t result system.old.tree.forks system.new.tree.forks }
{
    match system.typed[t.0 as usize].input.typed(c) {
        Typed::Stored => {
            let may = wake(&mut system.tree, t);
            stored(may, read_as(c))
        }
        Typed::Dropped => Echo::Bell,
        Typed::Posts(fork, channel) => post_typed(system, fork, channel),
        Typed::ControlC => interrupt(system, t, job),
    }
}

// A character of a line, where that has room.
fn lengthen<P: Pages>(system: &mut System<P>, t: Tty, job: Job, code: u8) -> Echo
    requires terminal { IsTerminal t }
    requires job { HasJobAt system.old t job }
    requires code { code < 128 }
    ensures has { Has system.old system.new (λ s. line_typed s t (job_in system.old t job) code) (echo_items t result) }
    ensures fits { FitsEcho result }
    ensures others { EchoReaches t result system.old.tree.forks system.new.tree.forks }
{
    match system.typed[t.0 as usize].line.try_push(code) {
        Ok(()) => Echo::Shows(code),
        Err(_) => Echo::Bell,
    }
}

// A line is over: it is the job's no longer.
fn take_line<P: Pages>(system: &mut System<P>, t: Tty, job: &Job) -> Command
    requires terminal { IsTerminal t }
    requires job { HasJobAt system.old t job.now }
    ensures has { Has system.old system.new
        (λ s. record { state = with_job_at s t (record (job_in system.old t job.now) { line = [] }); items = [] }) (λ s. []) }
    ensures command { result ≡ command_of job.now.user (job_in system.old t job.now).line }
    ensures jobs { system.new.jobs.items ≡ system.old.jobs.items }
    ensures tree { system.new.tree ≡ system.old.tree }
    ensures left { job_in system.new t job.now ≡ record (job_in system.old t job.now) { line = [] } }
{
    let line = &mut system.typed[t.0 as usize].line;
    let command = read(line.as_slice(), &job.user);
    line.clear();
    command
}

// The line is over, and its command is done, or begun.
fn end_line<P: Pages>(system: &mut System<P>, t: Tty, job: &Job) -> Answer
    requires terminal { IsTerminal t }
    requires job { HasJobAt system.old t job.now }
    ensures does { Does system.old system.new (λ s. line_begun s t (job_in system.old t job.now)) result }
    ensures fits { FitsAnswer result }
    ensures others { PartReaches result.showing system.old.tree.forks system.new.tree.forks }
    ensures echoed { IsEchoed t result }
{
    let command = take_line(system, t, job);
    match begins(system, t, &command) {
        Some(next) => ended(t, Told::Nothing, Some(next)),
        None => {
            let told = do_command(system, t, *job, &command);
            ended(t, told, None)
        }
    }
}

// A character, as it is read, is typed for the monitor.
fn type_line<P: Pages>(system: &mut System<P>, t: Tty, job: Job, code: u8) -> Answer
    requires terminal { IsTerminal t }
    requires job { HasJobAt system.old t job }
    requires code { code < 128 }
    ensures does { Does system.old system.new (λ s. typed_by AMode.Command s t (job_in system.old t job) code) result }
    ensures fits { FitsAnswer result }
    ensures others { PartReaches result.showing system.old.tree.forks system.new.tree.forks }
    ensures echoed { IsEchoed t result }
{
    if code == CONTROL_C {
        let shown = interrupt(system, t, job);
        return echoed(t, shown);
    }
    if code == LINE_END {
        return end_line(system, t, &job);
    }
    let shown = lengthen(system, t, job, code);
    echoed(t, shown)
}

/// A character is typed at a terminal. Where it ends a line that runs a program that is there, or logs out, the line is taken, and no
/// more is done: that comes next. Once its job is gone, nothing is done.
pub(crate) fn type_first<P: Pages>(system: &mut System<P>, t: Tty, c: u8) -> Answer
    requires terminal { IsTerminal t }
    requires code { c < 128 }
    ensures does { Does system.old system.new (λ s. deed_of s (ATyped t c)) result }
    ensures fits { FitsAnswer result }
    ensures others { PartReaches result.showing system.old.tree.forks system.new.tree.forks }
    ensures echoed { IsEchoed t result }
{
    match system.jobs[t.0 as usize] {
        Some(job) => match job.mode {
            TerminalMode::Program => {
                let shown = type_program(system, t, job, c);
                echoed(t, shown)
            }
            TerminalMode::Command => type_line(system, t, job, read_as(c)),
        },
        None => echoed(t, Echo::Nothing),
    }
}
