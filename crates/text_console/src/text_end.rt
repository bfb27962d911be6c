// How a command that reads a text ends, and the status of that.
ghost use Rattle.std.specs.Prelude.{◌≡◌};
ghost use Rattle.text_console.specs.Made.{status_of, status_of_asm, status_of_replay};

use asm_console::{AsmEnd, Stopped};
use asm_core::AsmFault;
use record_player::ReplayEnd;
use texts::Status;

/// How what a command makes of a text ended.
#[derive(Clone, Copy)]
pub enum TextEnd {
    /// A record was played.
    Played(ReplayEnd),
    /// A program was assembled.
    Assembled(AsmEnd),
}

impl TextEnd {
    /// The status of a command that ended so.
    pub fn status(self) -> Status
        ensures { result ≡ status_of self }
    {
        match self {
            TextEnd::Played(how) => status_of_replay(how),
            TextEnd::Assembled(how) => status_of_asm(how),
        }
    }
}

// The status where a record was played.
fn status_of_replay(how: ReplayEnd) -> Status
    ensures { result ≡ status_of_replay how }
{
    match how {
        ReplayEnd::Done => Status::Done,
        ReplayEnd::Bad(_) => Status::Script,
        ReplayEnd::Illegal(_) => Status::Illegal,
        ReplayEnd::Long => Status::LongScript,
        ReplayEnd::ReadFault => Status::ReadFault,
        ReplayEnd::WriteFault => Status::WriteFault,
        ReplayEnd::Memory => Status::Memory,
    }
}

// The status where a program was assembled.
fn status_of_asm(how: AsmEnd) -> Status
    ensures { result ≡ status_of_asm how }
{
    match how {
        AsmEnd::Done => Status::Done,
        AsmEnd::Stopped(Stopped::ReadFault) => Status::ReadFault,
        AsmEnd::Stopped(Stopped::LongText) => Status::LongScript,
        AsmEnd::Stopped(Stopped::Fault(AsmFault::Memory)) => Status::Memory,
        AsmEnd::Stopped(Stopped::Fault(_)) => Status::Assembly,
        AsmEnd::WriteFault => Status::WriteFault,
    }
}
