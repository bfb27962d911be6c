// Runs of equal turns: of units of one fork, or of idle entries.
ghost use Rattle.std.specs.Prelude.{◌≡◌, ◌≤◌, length};
ghost use Rattle.script_texts.specs.Texts.{same_turn, run_line};
ghost use Rattle.texts.specs.OpenRun.{run_end};
ghost use Rattle.texts.specs.Turns.{step_of, open_run};

use crate::line::{Line, RUN_ROOM};
use machine_names::ForkName;

/// An entry of a RUN line: one unit of a fork, or an idle entry.
#[derive(Clone, Copy, PartialEq, Eq)]
pub enum RunEntry {
    Unit(ForkName),
    Idle,
}

/// A run of equal turns, and how many they are.
#[derive(Clone, Copy, PartialEq, Eq)]
pub struct Turns {
    pub turn: RunEntry,
    pub count: u64,
}

/// Whether two turns belong to one run.
#[inline]
pub fn is_same_turn(x: RunEntry, y: RunEntry) -> bool
    ensures { result ≡ same_turn (step_of x) (step_of y) }
{
    match (x, y) {
        (RunEntry::Unit(f), RunEntry::Unit(g)) => f.tty.0 == g.tty.0 && f.serial == g.serial,
        (RunEntry::Idle, RunEntry::Idle) => true,
        (RunEntry::Unit(_), RunEntry::Idle) => false,
        (RunEntry::Idle, RunEntry::Unit(_)) => false,
    }
}

/// The line of the run that is open, or no bytes where none is.
pub fn run_line(run: Option<Turns>) -> Line
    ensures bytes { result ≡ run_end (open_run run) }
    ensures short { length result ≤ RUN_ROOM }
{
    match run {
        None => Line::new(),
        Some(turns) => turns_line(turns.turn, turns.count),
    }
}

// The line of so many equal turns.
fn turns_line(turn: RunEntry, count: u64) -> Line
    ensures bytes { result ≡ run_line (step_of turn) count }
    ensures short { length result ≤ RUN_ROOM }
{
    let mut line = Line::new();
    match turn {
        RunEntry::Unit(f) => {
            line.push(b"U ");
            line.push_name(f);
            line.push(b" ");
        }
        RunEntry::Idle => line.push(b"I "),
    }
    line.push_decimal(count);
    line.push(b"\n");
    line
}
