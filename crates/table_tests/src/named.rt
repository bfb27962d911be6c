// Files and JFNs by the names of files.
ghost use Rattle.std.specs.Prelude.{◌<◌};
ghost use Rattle.file_tables.specs.Tables.{IsThere};

use crate::directory::letters;
use crate::made::made;
use crate::same::same_at;
use file_dir::read_name;
use file_tables::FileTables;
use machine_names::{DirName, FileName, FileNo, TERMINALS, Tty};
use plain_files::{LARGEST_BYTE, Mode};
use std::process::Abort;

const READ: Mode = Mode { r: true, w: false };

// What is asked of a file that is there, or done to it.
#[derive(Clone, Copy)]
enum OfFile {
    Number,
    Times,
    Length,
    Size,
    Lengthen,
    Delete,
    Take(u8),
}

// What is asked of a JFN that the job at a terminal holds, or done to it.
#[derive(Clone, Copy)]
enum OfJfn {
    File,
    Size,
    At,
    Open,
    Seek,
    Release,
}

#[derive(Clone, Copy)]
enum Deed {
    Make(&'static [u8]),
    At(&'static [u8], OfFile),
    Free(u8),
    Leave(u8),
    Jfn(u8, u32, OfJfn),
}

// Makes the file that a text names, where there is room and it isn't there yet.
fn make(tables: &mut FileTables, text: &[u8]) -> Option<u32> {
    let name = read_name(text, &DirName::new(b"SMITH"))?;
    match tables.find(&name) {
        None if tables.has_room() => Some(u32::from(tables.create(&name).0)),
        _ => None,
    }
}

// Whether the file that is found by a name has that name.
fn is_named(tables: &FileTables, name: FileName) -> bool {
    match tables.find(&name) {
        Some(f) => tables.name_of(f) == name,
        None => false,
    }
}

// Takes a file away, where no JFN names it.
fn delete(tables: &mut FileTables, f: FileNo) -> Option<u32>
    requires { IsThere tables.old f.0 }
{
    if tables.names(f) > 0 {
        return None;
    }
    tables.delete(f);
    Some(u32::from(f.0))
}

// Takes a JFN for a file, where the job at a terminal has one that is free.
fn take(tables: &mut FileTables, t: Tty, f: FileNo) -> Option<u32>
    requires terminal { t.0 < TERMINALS }
    requires there { IsThere tables.old f.0 }
{
    match tables.free_jfn(t) {
        Some(_) => Some(tables.take(t, f)),
        None => None,
    }
}

fn of_file(tables: &mut FileTables, text: &[u8], deed: OfFile) -> Option<u32> {
    let name = read_name(text, &DirName::new(b"SMITH"))?;
    let f = tables.find(&name)?;
    match deed {
        OfFile::Number => Some(u32::from(f.0)),
        OfFile::Times => Some(tables.names(f)),
        OfFile::Length => Some(tables.length(f) as u32),
        OfFile::Size => Some(u32::from(tables.size(f))),
        OfFile::Lengthen => {
            tables.set_length(f, 1000, LARGEST_BYTE);
            Some(1000)
        }
        OfFile::Delete => delete(tables, f),
        OfFile::Take(t) => take(tables, Tty(t % TERMINALS), f),
    }
}

// Moves a JFN that is open, with bytes of seven bits, behind the last of them that its file has room
// for.
fn seek(tables: &mut FileTables, t: Tty, n: u32) -> Option<u32>
    requires { t.0 < TERMINALS }
{
    let jfn = tables.jfn(t, n)?;
    if jfn.mode.is_none() || jfn.size != 7 {
        return None;
    }
    tables.seek(t, n, 1310720);
    Some(n)
}

fn of_jfn(tables: &mut FileTables, t: Tty, n: u32, deed: OfJfn) -> Option<u32>
    requires { t.0 < TERMINALS }
{
    let jfn = tables.jfn(t, n)?;
    match deed {
        OfJfn::File => return Some(u32::from(jfn.file.0)),
        OfJfn::Size => return Some(u32::from(jfn.size)),
        OfJfn::At => return Some(jfn.at as u32),
        OfJfn::Seek => return seek(tables, t, n),
        OfJfn::Open => tables.open(t, n, READ, 7),
        OfJfn::Release => tables.release(t, n),
    }
    Some(n)
}

// What a deed answers. None where it is refused.
fn done(tables: &mut FileTables, deed: Deed) -> Option<u32> {
    match deed {
        Deed::Make(text) => make(tables, text),
        Deed::At(text, deed) => of_file(tables, text, deed),
        Deed::Free(t) => tables.free_jfn(Tty(t % TERMINALS)),
        Deed::Leave(t) => {
            tables.release_all(Tty(t % TERMINALS));
            Some(0)
        }
        Deed::Jfn(t, n, deed) => of_jfn(tables, Tty(t % TERMINALS), n, deed),
    }
}

// The files are let go. What they are made of is taken apart here alone, for all tests.
fn let_go(_tables: FileTables) {}

// A deed, and what it answers.
type Row = (Deed, Option<u32>);

// The deeds answer so, one behind the other.
fn answer_so(rt: &impl Abort, tables: &mut FileTables, rows: &[Row]) {
    for (row, (deed, answer)) in rows.iter().enumerate() {
        same_at(rt, row as u64, done(tables, *deed), *answer);
    }
}

const COME_AND_GO: [Row; 51] = [
    (Deed::At(b"A", OfFile::Number), None),
    (Deed::Make(b"A"), Some(0)),
    (Deed::Make(b"<SMITH>A."), None),
    (Deed::Make(b"B"), Some(1)),
    (Deed::Make(b"C"), Some(2)),
    (Deed::At(b"C", OfFile::Lengthen), Some(1000)),
    (Deed::At(b"C", OfFile::Length), Some(1000)),
    (Deed::At(b"B", OfFile::Length), Some(0)),
    (Deed::At(b"B", OfFile::Size), Some(36)),
    (Deed::Free(0), Some(1)),
    (Deed::Jfn(0, 1, OfJfn::File), None),
    (Deed::At(b"B", OfFile::Take(0)), Some(1)),
    (Deed::At(b"B", OfFile::Take(15)), Some(1)),
    (Deed::At(b"C", OfFile::Take(0)), Some(2)),
    (Deed::Free(0), Some(3)),
    (Deed::Free(15), Some(2)),
    (Deed::Free(7), Some(1)),
    (Deed::At(b"B", OfFile::Times), Some(2)),
    (Deed::At(b"A", OfFile::Times), Some(0)),
    (Deed::At(b"B", OfFile::Delete), None),
    (Deed::At(b"A", OfFile::Delete), Some(0)),
    (Deed::At(b"A", OfFile::Number), None),
    (Deed::At(b"C", OfFile::Number), Some(2)),
    (Deed::Jfn(0, 2, OfJfn::File), Some(2)),
    (Deed::Jfn(0, 2, OfJfn::Size), Some(36)),
    (Deed::Jfn(0, 2, OfJfn::Seek), None),
    (Deed::Jfn(0, 2, OfJfn::Open), Some(2)),
    (Deed::Jfn(0, 2, OfJfn::Size), Some(7)),
    (Deed::Jfn(0, 2, OfJfn::At), Some(0)),
    (Deed::Jfn(0, 2, OfJfn::Seek), Some(2)),
    (Deed::Jfn(0, 2, OfJfn::At), Some(1310720)),
    (Deed::Jfn(0, 1, OfJfn::Size), Some(36)),
    (Deed::Jfn(15, 1, OfJfn::Release), Some(1)),
    (Deed::Jfn(15, 1, OfJfn::Release), None),
    (Deed::At(b"B", OfFile::Times), Some(1)),
    (Deed::Jfn(0, 1, OfJfn::Release), Some(1)),
    (Deed::At(b"B", OfFile::Delete), Some(1)),
    (Deed::Free(0), Some(1)),
    (Deed::Make(b"D"), Some(0)),
    (Deed::At(b"D", OfFile::Length), Some(0)),
    (Deed::At(b"C", OfFile::Length), Some(1000)),
    (Deed::Make(b"A.B.C"), None),
    (Deed::At(b"B", OfFile::Take(0)), None),
    (Deed::At(b"C", OfFile::Take(0)), Some(1)),
    (Deed::At(b"C", OfFile::Take(4)), Some(1)),
    (Deed::At(b"C", OfFile::Times), Some(3)),
    (Deed::Leave(0), Some(0)),
    (Deed::At(b"C", OfFile::Times), Some(1)),
    (Deed::Jfn(0, 2, OfJfn::File), None),
    (Deed::Jfn(4, 1, OfJfn::File), Some(2)),
    (Deed::Free(0), Some(1)),
];

#[test]
fn files_and_jfns_come_and_go(rt: HostRuntime) {
    let mut tables = made(&rt, FileTables::boot(rt.alloc()));
    answer_so(&rt, &mut tables, &COME_AND_GO);
    let_go(tables);
}

// Makes the file that a text names, which is found by its name then.
fn is_found(tables: &mut FileTables, text: &[u8]) -> bool {
    make(tables, text);
    match read_name(text, &DirName::new(b"SMITH")) {
        Some(name) => is_named(tables, name),
        None => false,
    }
}

#[test]
fn a_number_is_that_of_its_name(rt: HostRuntime) {
    let mut tables = made(&rt, FileTables::boot(rt.alloc()));
    same_at(&rt, 0, is_found(&mut tables, b"A"), true);
    same_at(&rt, 1, is_found(&mut tables, b"B"), true);
    let_go(tables);
}

// There are 512 files, and there is not one more.
fn are_full(rt: &impl Abort, tables: &mut FileTables) {
    for n in 0..512 {
        same_at(
            rt,
            u64::from(n),
            make(tables, &letters(n)),
            Some(u32::from(n)),
        );
    }
    same_at(rt, 512, make(tables, b"ONE-MORE"), None);
}

// A job takes twenty JFNs for the last of them.
fn are_taken(rt: &impl Abort, tables: &mut FileTables) {
    for n in 1..21 {
        let taken = done(tables, Deed::At(b"HHH", OfFile::Take(3)));
        same_at(rt, u64::from(n), taken, Some(n));
    }
}

// The job takes no more, and another file comes in the place of one that goes.
const ONE_MORE: [Row; 4] = [
    (Deed::At(b"HHH", OfFile::Take(3)), None),
    (Deed::At(b"HHH", OfFile::Times), Some(20)),
    (Deed::At(b"BAA", OfFile::Delete), Some(1)),
    (Deed::Make(b"ONE-MORE"), Some(1)),
];

#[test]
fn a_job_holds_twenty_and_there_are_512_files(rt: HostRuntime) {
    let mut tables = made(&rt, FileTables::boot(rt.alloc()));
    are_full(&rt, &mut tables);
    are_taken(&rt, &mut tables);
    answer_so(&rt, &mut tables, &ONE_MORE);
    let_go(tables);
}
