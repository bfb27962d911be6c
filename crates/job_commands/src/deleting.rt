// DELETE: a file is removed.
ghost use Rattle.std.specs.Prelude.{◌≡◌};
ghost use Rattle.machine_names.specs.declared.names.Tty.{Tty as ATty};
ghost use Rattle.page_contracts.specs.DrumWords.{DrumWords};
ghost use Rattle.ka10_unit.specs.Carrying.{Grows};
ghost use Rattle.file_tables.specs.Tables.{IsThere, OpenStay};
ghost use Rattle.job_commands.specs.Deleting.{Deletes, pages_left};

use file_tables::FileTables;
use machine_names::FileNo;
use page_contracts::Pages;

/// A JFN of some job stands for a file.
#[derive(Clone, Copy, PartialEq, Eq)]
pub struct Busy;

/// DELETE: a file, which is there, is removed with its pages. Busy exactly where a JFN of some job names it; nothing changes
/// then.
pub fn delete<P: Pages>(file: FileNo, tables: &mut FileTables, pages: &mut P) -> Result<(), Busy>
    requires there { IsThere tables.old file.0 }
    ensures files { Deletes tables.old tables.new file.0 result }
    ensures jfns { OpenStay tables.old tables.new }
    ensures told { (d : DrumWords) → P.means.fits pages.old d → P.means.fits pages.new d × (P.means.plain pages.new d ≡ pages_left file.0 result (P.means.plain pages.old d)) }
    ensures grows { (t : ATty) → Grows P.means t 0 pages.old pages.new }
{
    if tables.names(file) > 0 {
        return Err(Busy);
    }
    tables.delete(file);
    pages.drop_file(file);
    Ok(())
}
