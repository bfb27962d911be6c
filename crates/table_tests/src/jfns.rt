// The JFNs of one job and of all jobs.
ghost use Rattle.std.specs.Prelude.{◌≡◌, ◌<◌, IfOk, slice_set};
ghost use Rattle.std.specs.FinMap as map;
ghost use Rattle.plain_files.specs.JobFiles.{taken as new_jfn};
ghost use Rattle.plain_files.specs.Jobs.{jfns_of};

use crate::made::made;
use crate::same::same;
use jfn_table::{Jfns, JfnsFull, JobJfns};
use machine_names::{FileNo, MOST_FILES, TERMINALS, Tty};
use plain_files::Mode;
use std::process::Abort;

const READ: Mode = Mode { r: true, w: false };

// A file, whether it is open to be read and to be written, the position in it, and its bytes' size.
type Seen = (FileNo, Option<(bool, bool)>, u64, u8);

// What a JFN that is held stands for.
fn seen(jfns: &Jfns, n: u32) -> Option<Seen> {
    let jfn = jfns.get(n)?;
    let mode = jfn.mode.map(|mode| (mode.r, mode.w));
    Some((jfn.file, mode, jfn.at, jfn.size))
}

// A file that isn't open.
fn closed(file: u16) -> Option<Seen> {
    Some((FileNo(file), None, 0, 36))
}

// Releases a JFN that is held, and says whether it was.
fn released(jfns: &mut Jfns, n: u32) -> bool {
    let held = jfns.get(n).is_some();
    if held {
        jfns.release(n);
    }
    held
}

// Opens a JFN that is held, and says whether it was.
fn opened(jfns: &mut Jfns, n: u32) -> bool {
    let held = jfns.get(n).is_some();
    if held {
        jfns.open_file(n, READ, 7);
    }
    held
}

// Moves a JFN behind the last byte of seven bits that a file has room for, and says whether it is
// open so.
fn moved(jfns: &mut Jfns, n: u32) -> bool {
    let Some(jfn) = jfns.get(n) else {
        return false;
    };
    let open = jfn.mode.is_some() && jfn.size == 7;
    if open {
        jfns.seek(n, 1310720);
    }
    open
}

// Three JFNs are taken, for two files.
fn are_taken(rt: &impl Abort, jfns: &mut Jfns) {
    same(rt, seen(jfns, 0), None);
    same(rt, seen(jfns, 1), None);
    same(rt, jfns.take(FileNo(511)), Ok(1));
    same(rt, jfns.take(FileNo(0)), Ok(2));
    same(rt, jfns.take(FileNo(511)), Ok(3));
    same(rt, jfns.names(FileNo(511)), 2);
    same(rt, jfns.names(FileNo(0)), 1);
    same(rt, jfns.names(FileNo(1)), 0);
}

// The number of one that is released is taken again.
fn are_released(rt: &impl Abort, jfns: &mut Jfns) {
    same(rt, released(jfns, 1), true);
    same(rt, jfns.names(FileNo(511)), 1);
    same(rt, seen(jfns, 1), None);
    same(rt, seen(jfns, 3), closed(511));
    same(rt, jfns.take(FileNo(7)), Ok(1));
    same(rt, jfns.take(FileNo(8)), Ok(4));
    same(rt, seen(jfns, 4294967295), None);
}

#[test]
fn the_least_free_number_is_taken(rt: HostRuntime) {
    let mut jfns = made(&rt, Jfns::boot(rt.alloc()));
    are_taken(&rt, &mut jfns);
    are_released(&rt, &mut jfns);
}

#[test]
fn twenty_may_be_held(rt: HostRuntime) {
    let mut jfns = made(&rt, Jfns::boot(rt.alloc()));
    for n in 1..21 {
        same(&rt, jfns.take(FileNo(9)), Ok(n));
    }
    same(&rt, jfns.take(FileNo(9)), Err(JfnsFull));
    same(&rt, jfns.names(FileNo(9)), 20);
    same(&rt, released(&mut jfns, 20), true);
    same(&rt, released(&mut jfns, 20), false);
    same(&rt, jfns.take(FileNo(10)), Ok(20));
    same(&rt, seen(&jfns, 21), None);
}

#[test]
fn a_file_is_opened_and_read_on(rt: HostRuntime) {
    let mut jfns = made(&rt, Jfns::boot(rt.alloc()));
    same(&rt, jfns.take(FileNo(4)), Ok(1));
    same(&rt, jfns.take(FileNo(5)), Ok(2));
    same(&rt, moved(&mut jfns, 1), false);
    same(&rt, opened(&mut jfns, 1), true);
    same(&rt, moved(&mut jfns, 1), true);
    let read = Some((FileNo(4), Some((true, false)), 1310720, 7));
    same(&rt, seen(&jfns, 1), read);
    same(&rt, seen(&jfns, 2), closed(5));
}

// Takes a JFN for the job at a terminal. The other jobs hold what they held.
fn taken(jobs: &mut JobJfns, t: Tty, f: FileNo) -> Result<u32, JfnsFull>
    requires terminal { t.0 < TERMINALS }
    requires file { f.0 < MOST_FILES }
    ensures { IfOk result (λ n. jobs.new
        ≡ slice_set jobs.old t.0 (map.insert (jfns_of jobs.old t.0) n (new_jfn f.0))) }
{
    jobs.of_mut(t).take(f)
}

#[test]
fn jobs_have_their_own(rt: HostRuntime) {
    let mut jobs = made(&rt, JobJfns::boot(rt.alloc()));
    same(&rt, taken(&mut jobs, Tty(0), FileNo(3)), Ok(1));
    same(&rt, taken(&mut jobs, Tty(15), FileNo(3)), Ok(1));
    same(&rt, taken(&mut jobs, Tty(15), FileNo(3)), Ok(2));
    same(&rt, jobs.names(FileNo(3)), 3);
    same(&rt, released(jobs.of_mut(Tty(15)), 1), true);
    same(&rt, jobs.names(FileNo(3)), 2);
    same(&rt, seen(jobs.of(Tty(15)), 1), None);
    same(&rt, seen(jobs.of(Tty(15)), 2), closed(3));
    same(&rt, seen(jobs.of(Tty(0)), 1), closed(3));
    same(&rt, seen(jobs.of(Tty(1)), 1), None);
}
