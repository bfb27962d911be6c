// The JFNs of all jobs.
ghost use Rattle.std.specs.Prelude.{◌≡◌, ◌<◌, IfOk};
ghost use Rattle.std.specs.Borrow.{sem};
ghost use Rattle.plain_files.specs.Jobs.{jfns_of, names_in_all, no_jfns};
ghost use Rattle.jfn_table.specs.Lending.{LendsJfns};

use crate::Jfns;
use machine_names::{FileNo, MOST_FILES, TERMINALS, Tty};
use outside::Memory;
use std::alloc::Global;
use std::marker::Model;

/// The JFNs of the job at each terminal.
#[derive(Drop)]
pub struct JobJfns {
    jobs: Vec<Jfns>,
}

impl Model for JobJfns {
    ghost use Rattle.std.specs.Prelude.{◌≡◌, List, vec_len};
    ghost use Rattle.std.specs.Coded.{coded_list};
    ghost use Rattle.machine_names.specs.declared.names.TheConstants.{TERMINALS};
    ghost use Rattle.jfn_table.specs.contracts.jfns.Jfns.{the_row as jfns_row};
    ghost use Rattle.plain_files.specs.JobFiles.{Held};

    ghost Value = { List Held };

    ghost coded = { coded_list jfns_row.coded };

    ghost view = { λ t. t.jobs.items };

    ghost invariant = { λ t. vec_len t.jobs ≡ TERMINALS };
}

impl JobJfns {
    /// No job holds a JFN.
    pub fn boot(alloc: Global) -> Result<Self, Memory>
        ensures { IfOk result (λ jobs. jobs ≡ no_jfns) }
    {
        let mut jobs = Vec::new(alloc);
        for _terminal in 0..TERMINALS {
            if jobs.push(Jfns::boot(alloc)?).is_err() {
                return Err(Memory);
            }
        }
        Ok(JobJfns { jobs })
    }

    /// The JFNs of the job at a terminal.
    pub fn of(&self, t: Tty) -> &Jfns
        requires { t.0 < TERMINALS }
        ensures { result.now ≡ jfns_of self.now t.0 }
    {
        &self.jobs[t.0 as usize]
    }

    /// The JFNs of the job at a terminal, to be changed. Those of all other jobs stay.
    pub fn of_mut(&mut self, t: Tty) -> &mut Jfns
        requires { t.0 < TERMINALS }
        ensures* writes_back { sem 𝓛 (LendsJfns self.entry t.0 result) }
        ensures jfns { result.now ≡ jfns_of self.old t.0 }
    {
        &mut self.jobs[t.0 as usize]
    }

    /// How many JFNs of all jobs name a file. Each job keeps its number, and no JFN is looked at.
    pub fn names(&self, f: FileNo) -> u32
        requires { f.0 < MOST_FILES }
        ensures { result ≡ names_in_all self.now f.0 }
    {
        let mut names = 0;
        for jfns in &self.jobs {
            names += jfns.names(f);
        }
        names
    }
}
