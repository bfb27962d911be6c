// A system with nothing in it.
ghost use Rattle.std.specs.Prelude.{◌≡◌, ◌≤◌, IfOk, false};
ghost use Rattle.machine_names.specs.declared.names.TheConstants.{MOST_FORKS};
ghost use Rattle.machine_names.specs.declared.names.Tty.{Tty as ATty};
ghost use Rattle.std.specs.FinMap as map;
ghost use Rattle.file_tables.specs.Tables.{files_of, no_jobs as no_jfns, open_of};
ghost use Rattle.fork_tree.specs.Trees.{no_forks};
ghost use Rattle.monitor_calls.specs.Jobs.{no_jobs};

use crate::panel::Panel;
use crate::system::System;
use file_tables::FileTables;
use fork_tree::Tree;
use machine_names::TERMINALS;
use monitor_calls::{empty_jobs, empty_typings};
use outside::Memory;
use page_contracts::Pages;
use std::alloc::Global;
use text_pointers::Scratch;

impl<P: Pages + Drop> System<P> {
    /// No job, over pages without a fork. Memory, where none was found.
    pub fn boot(alloc: Global, pages: P) -> Result<System<P>, Memory>
        requires roomy { MOST_FORKS ≤ P.means.most_forks }
        requires none { (t : ATty) → P.means.forks_of pages t ≡ 0 }
        ensures pages { IfOk result (λ m. m.pages ≡ pages) }
        ensures jobs { IfOk result (λ m. m.jobs.items ≡ no_jobs TERMINALS) }
        ensures jfns { IfOk result (λ m. open_of m.files ≡ no_jfns) }
        ensures tree { IfOk result (λ m. m.tree ≡ no_forks) }
        ensures files { IfOk result (λ m. files_of m.files ≡ map.empty) }
        ensures panel { IfOk result (λ m. m.panel ≡ record { clock = 0; trace = false }) }
    {
        let jobs = empty_jobs(alloc)?;
        let typed = empty_typings(alloc)?;
        let tree = Tree::boot(alloc)?;
        let files = FileTables::boot(alloc)?;
        Ok(System {
            pages,
            tree,
            files,
            jobs,
            typed,
            scratch: Scratch::new(),
            panel: Panel::FIRST,
        })
    }
}
