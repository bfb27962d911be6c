// How the tables begin.
ghost use Rattle.std.specs.Prelude.{◌≡◌, IfOk};
ghost use Rattle.std.specs.FinMap as map;
ghost use Rattle.file_tables.specs.Tables.{files_of, no_jobs, open_of};

use crate::FileTables;
use file_dir::Dir;
use jfn_table::JobJfns;
use outside::Memory;
use page_files::Lengths;
use std::alloc::Global;

impl FileTables {
    /// There is no file, and no job holds a JFN.
    pub fn boot(alloc: Global) -> Result<Self, Memory>
        ensures files { IfOk result (λ tables. files_of tables ≡ map.empty) }
        ensures jfns { IfOk result (λ tables. open_of tables ≡ no_jobs) }
    {
        Ok(FileTables {
            dir: Dir::boot(alloc)?,
            lengths: Lengths::boot(alloc)?,
            jobs: JobJfns::boot(alloc)?,
        })
    }
}
