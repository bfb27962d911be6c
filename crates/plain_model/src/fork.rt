// Forks, and who reads their terminal.
ghost use Rattle.std.specs.Prelude.{◌≡◌};
ghost use Rattle.plain_model.specs.Forks.{psi_at_rest};

use crate::interrupt::LEVELS;
use machine_names::ForkName;
use plain_units::Regs;
use script_texts::ForkStatus;
use word36::Word;

/// The pseudo-interrupts of a fork (JSYS Manual, "Pseudo-interrupt system"): whether they are on; where the
/// level table and the channel table are, LEVTAB,,CHNTAB; which of the channels 0 to 35 are active and which
/// are pending, bit c of a word being channel c; and which of the levels 1 to 3 are in progress.
#[derive(Clone, Copy)]
pub struct Psi {
    pub on: bool,
    pub table: Option<Word>,
    pub active: Word,
    pub pending: Word,
    pub levels: [bool; LEVELS as usize],
}

impl Psi {
    /// Off, with no table, no channel and no level.
    #[tactic(auto, unfolding(crate::specs::Forks::psi_at_rest))]
    pub fn at_rest() -> Psi
        ensures { result ≡ psi_at_rest }
    {
        Psi {
            on: false,
            table: None,
            active: Word::ZERO,
            pending: Word::ZERO,
            levels: [false; LEVELS as usize],
        }
    }
}

/// What a fork is but its place in the tree: its status and registers, its interrupts, the moment
/// to which it sleeps, how many units it has run, and the code of its last error.
#[derive(Clone, Copy)]
pub struct Body {
    pub status: ForkStatus,
    pub regs: Regs,
    pub psi: Psi,
    pub sleep: Option<u64>,
    pub units: u64,
    pub error: u32,
}

/// A fork (CACM paper, "Forks"): its name, its slot in the job from 1 to 30, the slot of its
/// superior, which the top fork has not, its freeze mark, and its body.
#[derive(Clone, Copy)]
pub struct Fork {
    pub name: ForkName,
    pub slot: u8,
    pub superior: Option<u8>,
    pub frozen: bool,
    pub body: Body,
}

/// Who reads what is typed at a terminal.
#[derive(Clone, Copy, PartialEq, Eq)]
pub enum TerminalMode {
    /// The monitor's command line.
    Command,
    /// The job's forks.
    Program,
}
