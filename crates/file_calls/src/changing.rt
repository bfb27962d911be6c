// The changes that calls on JFNs make, once they are done.
ghost use Rattle.std.specs.Prelude.{◌≡◌, ◌&&◌, IsSome, Some, not, ℕ};
ghost use Rattle.std.specs.FinMap as map;
ghost use Rattle.machine_names.specs.Bounds.{IsTerminal};
ghost use Rattle.machine_names.specs.declared.names.Tty.{Tty as ATty};
ghost use Rattle.plain_files.specs.Bytes.{IsByteSize};
ghost use Rattle.plain_files.specs.Directory.{Creates};
ghost use Rattle.plain_files.specs.OpenFiles.{free_jfn};
ghost use Rattle.plain_model.specs.declared.call.FileChange.{FileChange as AFileChange};
ghost use Rattle.ka10_unit.specs.Carrying.{Grows};
ghost use Rattle.file_tables.specs.Tables.{files_of, jfns_at};
ghost use Rattle.file_calls.specs.Changing.{CanChange, CanMake, ChangesAll, ChangesFiles, DirFollows, IsAt, IsHeldAt, IsSole};
ghost use Rattle.file_calls.specs.Jobs.{OthersHold};

use file_tables::FileTables;
use machine_names::{FileName, Tty};
use page_contracts::Pages;
use plain_files::Mode;
use plain_model::call::FileChange;

// The least JFN that is free stands for the file of a name.
fn take(t: Tty, name: &FileName, tables: &mut FileTables)
    requires can { IsSome (free_jfn (jfns_at tables.old t.0)) }
    requires terminal { IsTerminal t }
    requires there { IsSome (map.get (files_of tables.old) name.now) }
    ensures told { (n : ℕ) → free_jfn (jfns_at tables.old t.0) ≡ Some n → ChangesFiles tables.old tables.new (AFileChange.Take t n name.now) }
    ensures others { OthersHold t tables.old tables.new }
    ensures dir { tables.new.dir ≡ tables.old.dir }
{
    if let Some(file) = tables.find(name) {
        tables.take(t, file);
    }
}

// A file of a name is made, and the least JFN that is free stands for it.
fn make(t: Tty, name: &FileName, tables: &mut FileTables)
    requires can { IsSome (free_jfn (jfns_at tables.old t.0)) }
    requires terminal { IsTerminal t }
    requires make { CanMake tables.old name.now }
    ensures told { (n : ℕ) → free_jfn (jfns_at tables.old t.0) ≡ Some n → ChangesFiles tables.old tables.new (AFileChange.Make t n name.now) }
    ensures others { OthersHold t tables.old tables.new }
    ensures dir { (n : ℕ) → DirFollows tables.old tables.new (AFileChange.Make t n name.now) }
{
    let file = tables.create(name);
    tables.take(t, file);
}

// Whether a file is opened to be written and not read.
fn is_written_alone(mode: Mode) -> bool
    ensures { result ≡ (mode.w && not mode.r) }
{
    mode.w && !mode.r
}

// The file of a JFN is opened. One that is opened to be written alone has no byte left.
fn open(t: Tty, n: u32, mode: Mode, size: u8, tables: &mut FileTables)
    requires held { IsHeldAt tables.old t n }
    requires size { IsByteSize size }
    ensures told { ChangesFiles tables.old tables.new (AFileChange.Open t n mode size) }
    ensures others { OthersHold t tables.old tables.new }
    ensures dir { tables.new.dir ≡ tables.old.dir }
{
    let Some(jfn) = tables.jfn(t, n) else {
        return;
    };
    tables.open(t, n, mode, size);
    if is_written_alone(mode) {
        let bytes = tables.size(jfn.file);
        tables.set_length(jfn.file, 0, bytes);
    }
}

// A JFN stands for no file any more.
fn release(t: Tty, n: u32, tables: &mut FileTables)
    requires held { IsHeldAt tables.old t n }
    ensures told { ChangesFiles tables.old tables.new (AFileChange.Release t n) }
    ensures others { OthersHold t tables.old tables.new }
    ensures dir { tables.new.dir ≡ tables.old.dir }
{
    tables.release(t, n);
}

// The file of a JFN is removed, with its pages, and the JFN stands for none.
fn delete<P: Pages>(t: Tty, n: u32, tables: &mut FileTables, pages: &mut P)
    requires held { IsHeldAt tables.old t n }
    requires sole { IsSole tables.old t n }
    ensures told { ChangesAll P.means pages.old pages.new tables.old tables.new (AFileChange.Delete t n) }
    ensures others { OthersHold t tables.old tables.new }
    ensures dir { DirFollows tables.old tables.new (AFileChange.Delete t n) }
    ensures grows { (u : ATty) → Grows P.means u 0 pages.old pages.new }
{
    let Some(jfn) = tables.jfn(t, n) else {
        return;
    };
    tables.release(t, n);
    tables.delete(jfn.file);
    pages.drop_file(jfn.file);
}

/// Makes a change of files and JFNs; the pages of a file that is removed go with it.
pub fn change<P: Pages>(what: &FileChange, tables: &mut FileTables, pages: &mut P)
    requires { CanChange tables.old what.now }
    ensures told { ChangesAll P.means pages.old pages.new tables.old tables.new what.now }
    ensures others { (t : ATty) → IsAt t what.now → OthersHold t tables.old tables.new }
    ensures dir { DirFollows tables.old tables.new what.now }
    ensures grows { (t : ATty) → Grows P.means t 0 pages.old pages.new }
{
    match what {
        FileChange::Take(t, _, name) => take(*t, name, tables),
        FileChange::Make(t, _, name) => make(*t, name, tables),
        FileChange::Open(t, n, mode, size) => open(*t, *n, *mode, *size, tables),
        FileChange::Release(t, n) => release(*t, *n, tables),
        FileChange::Delete(t, n) => delete(*t, *n, tables, pages),
    }
}
