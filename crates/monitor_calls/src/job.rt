// A job.
ghost use Rattle.std.specs.Prelude.{◌≡◌, IfOk, None, length};
ghost use Rattle.machine_names.specs.Bounds.{IsTerminal};
ghost use Rattle.monitor_calls.specs.Jobs.{jobs_left, no_jobs};
ghost use Rattle.step_shown.specs.Shown.{is_stop, is_stopped, seen_of, seen_stop};

use machine_names::{DirName, ForkName, TERMINALS, Tty};
use plain_model::TerminalMode;
use std::alloc::{AllocError, Global};
use step_shown::{Shown, Stop};
use word36::Word;

/// A job of a terminal: its user, who reads the terminal, its top fork, and the word whose right half is where the program starts that it ran last.
#[derive(Clone, Copy)]
pub struct Job {
    pub user: DirName,
    pub mode: TerminalMode,
    pub top: ForkName,
    pub start: Option<Word>,
}

impl Job {
    /// A new job: the monitor reads its terminal, and no program was run.
    pub fn new(user: DirName, top: ForkName) -> Job
        ensures user { result.user ≡ user }
        ensures mode { result.mode ≡ TerminalMode.Command }
        ensures top { result.top ≡ top }
        ensures start { result.start ≡ None }
    {
        Job {
            user,
            mode: TerminalMode::Command,
            top,
            start: None,
        }
    }

    /// The job, whose forks read its terminal.
    pub fn in_program(self) -> Job
        ensures { result ≡ record self { mode = TerminalMode.Program } }
    {
        Job {
            user: self.user,
            mode: TerminalMode::Program,
            top: self.top,
            start: self.start,
        }
    }

    /// The job, whose terminal the monitor reads.
    pub fn in_command(self) -> Job
        ensures { result ≡ record self { mode = TerminalMode.Command } }
    {
        Job {
            user: self.user,
            mode: TerminalMode::Command,
            top: self.top,
            start: self.start,
        }
    }
}

/// How a terminal shows that the fork in a slot of its job stands. Where the top fork stops, the monitor reads the terminal;
/// any other fork stops without a word.
#[inline]
pub fn seen_stop(jobs: &mut Vec<Option<Job>>, t: Tty, slot: u8, stop: Stop) -> Stop
    requires terminal { IsTerminal t }
    requires room { length jobs.old.items ≡ TERMINALS }
    ensures stop { result ≡ seen_stop slot stop }
    ensures jobs { jobs.new.items ≡ jobs_left jobs.old.items t.0 (is_stopped result) }
{
    if !stop.is_stop() {
        return stop;
    }
    if slot != 1 {
        return Stop::GoesOn;
    }
    if let Some(job) = &mut jobs[t.0 as usize] {
        job.mode = TerminalMode::Command;
    }
    stop
}

/// What a terminal shows of a unit of the fork in a slot of its job.
#[inline]
pub fn seen(jobs: &mut Vec<Option<Job>>, t: Tty, slot: u8, shown: Shown) -> Shown
    requires terminal { IsTerminal t }
    requires room { length jobs.old.items ≡ TERMINALS }
    ensures shown { result ≡ seen_of slot shown }
    ensures jobs { jobs.new.items ≡ jobs_left jobs.old.items t.0 (is_stop result) }
{
    Shown {
        out: shown.out,
        stop: seen_stop(jobs, t, slot, shown.stop),
    }
}

/// No job at any terminal.
#[tactic(auto, unfolding(crate::specs::Jobs::no_jobs))]
pub fn empty_jobs(alloc: Global) -> Result<Vec<Option<Job>>, AllocError>
    ensures { IfOk result (λ jobs. jobs.items ≡ no_jobs TERMINALS) }
{
    let none: [Option<Job>; TERMINALS as usize] = [None; TERMINALS as usize];
    Ok(Vec::from_array(alloc, none)?)
}
