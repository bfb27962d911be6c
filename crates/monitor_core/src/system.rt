// The system: all that the plain state tells of.
ghost use Rattle.std.specs.Prelude.{◌≡◌, length};
ghost use Rattle.machine_names.specs.declared.names.TheConstants.{TERMINALS};
ghost use Rattle.file_tables.specs.Tables.{open_of};
ghost use Rattle.monitor_calls.specs.Jobs.{AreUnheld};
ghost use Rattle.monitor_calls.specs.Sound.{AreSound};

use crate::panel::Panel;
use file_tables::FileTables;
use fork_tree::Tree;
use monitor_calls::{Job, Typing};
use page_contracts::Pages;
use text_pointers::Scratch;

/// The pages, the forks of all jobs, the files and JFNs, the jobs, what was typed, the clock, and whether each unit is shown. Its steps are
/// those of the plain machine: units and events stand here, and what users type stands in `monitor_typing`, for which fields are public.
/// Whoever changes one has to leave the tables sound. Which fork runs next, and what is given to whom, is not the system's concern.
#[derive(Drop)]
pub struct System<P: Pages> {
    pub pages: P,
    pub tree: Tree,
    pub files: FileTables,
    /// The job of each terminal.
    pub jobs: Vec<Option<Job>>,
    /// What was typed at each terminal.
    pub typed: Vec<Typing>,
    /// What a unit takes that is not done in place, and what is referred to in reading words; kept for the next.
    scratch: Scratch,
    /// The clock, and whether each unit is shown.
    panel: Panel,
    pub ghost sound: { AreSound P.means pages tree jobs.items },
    pub ghost unheld: { AreUnheld (open_of files) jobs.items },
    pub ghost typing_room: { length typed.items ≡ TERMINALS },
}

mod at_file;
mod at_job;
mod boot;
mod events;
mod login;
mod parts;
mod running;
mod transfers;
