// Drums: in memory, in a file, and one that never fails.
ghost use Rattle.std.specs.Prelude.{◌<◌, ◌^◌};
ghost use Rattle.outside.specs.Drums.{AreWords};

use crate::made::made;
use crate::same::same;
use crate::sinks::only;
use outside::{Drum, Failed, FileDrum, MemDrum, PAGE_WORDS, SureDrum};
use std::fs::{self, File};
use std::io::{self, ErrorKind, Read, Seek, SeekFrom, Write};
use std::process::Abort;

// A page with one word in each place.
fn filled(word: u64) -> [u64; PAGE_WORDS]
    requires { word < 2 ^ 36 }
    ensures { AreWords result }
{
    [word; PAGE_WORDS]
}

// A page is written with one word in each place, and this comes of it.
fn writes<D: Drum>(rt: &impl Abort, drum: &mut D, page: u32, word: u64, comes: Result<(), Failed>)
    requires { word < 2 ^ 36 }
{
    assert!(rt; page < drum.pages());
    same(rt, drum.write(page, &filled(word)), comes);
}

// A page is read, and has this word in each place.
fn reads<D: Drum>(rt: &impl Abort, drum: &mut D, page: u32, word: u64) {
    assert!(rt; page < drum.pages());
    let mut words = [1; PAGE_WORDS];
    same(rt, drum.read(page, &mut words), Ok(()));
    same(rt, words, [word; PAGE_WORDS]);
}

// A page can't be read.
fn fails<D: Drum>(rt: &impl Abort, drum: &mut D, page: u32) {
    assert!(rt; page < drum.pages());
    let mut words = [0; PAGE_WORDS];
    same(rt, drum.read(page, &mut words), Err(Failed));
}

// The drum was read and written so often, has failed so often, and has so many pages.
fn counts<D: Drum>(rt: &impl Abort, drum: &D, want: (u64, u64, u64, u32)) {
    same(
        rt,
        (drum.reads(), drum.writes(), drum.faults(), drum.pages()),
        want,
    );
}

#[test]
fn pages_come_back(rt: HostRuntime) {
    let alloc = rt.alloc();
    let drum = MemDrum::new(alloc, 2, only(&rt, alloc, 2), only(&rt, alloc, 1));
    let mut drum = made(&rt, drum);
    writes(&rt, &mut drum, 1, 0o777777777777, Err(Failed));
    writes(&rt, &mut drum, 1, 0o777777777777, Ok(()));
    reads(&rt, &mut drum, 0, 0);
    fails(&rt, &mut drum, 1);
    reads(&rt, &mut drum, 1, 0o777777777777);
    counts(&rt, &drum, (2, 1, 2, 2));
}

#[test]
fn a_sure_drum_goes_on(rt: HostRuntime) {
    let mut drum = made(&rt, SureDrum::new(rt.alloc(), 1));
    writes(&rt, &mut drum, 0, 2, Ok(()));
    reads(&rt, &mut drum, 0, 2);
    counts(&rt, &drum, (1, 1, 0, 1));
}

// A file that is made anew.
fn new_file(rt: &HostRuntime, name: &str) -> io::Result<File> {
    let mut options = File::options();
    options.read(true).write(true).create(true).truncate(true);
    options.open(rt, name)
}

// How many bytes a file has.
fn length_of(rt: &HostRuntime, name: &str) -> io::Result<u64> {
    Ok(File::open(rt, name)?.metadata()?.len())
}

// Eight bytes of a file.
fn bytes_at(rt: &HostRuntime, name: &str, place: u64) -> io::Result<[u8; 8]> {
    let mut bytes = [1; 8];
    let mut file = File::open(rt, name)?;
    file.seek(SeekFrom::Start(place))?;
    file.read_exact(&mut bytes)?;
    Ok(bytes)
}

// They are these.
fn stand(rt: &impl Abort, read: io::Result<[u8; 8]>, bytes: [u8; 8]) {
    same(rt, read.expect(rt, "bytes of a file"), bytes);
}

// A page that is written comes back, and those around it have zeros.
fn come_back<D: Drum>(rt: &impl Abort, drum: &mut D) {
    writes(rt, drum, 1, 0o404000000000, Ok(()));
    reads(rt, drum, 1, 0o404000000000);
    reads(rt, drum, 0, 0);
    reads(rt, drum, 2, 0);
    reads(rt, drum, 16383, 0);
    counts(rt, drum, (4, 1, 0, 16384));
}

#[test]
fn words_stand_in_a_file(rt: HostRuntime) {
    let name = "words_stand_in_a_file.drum";
    let file = new_file(&rt, name).expect(&rt, "a new file");
    let mut drum = FileDrum::new(file);
    let length = length_of(&rt, name).expect(&rt, "its length");
    same(&rt, length, 67_108_864);
    come_back(&rt, &mut drum);
    let word = [0, 0, 0, 8, 0x20, 0, 0, 0];
    stand(&rt, bytes_at(&rt, name, 4088), [0; 8]);
    stand(&rt, bytes_at(&rt, name, 4096), word);
    stand(&rt, bytes_at(&rt, name, 8184), word);
    stand(&rt, bytes_at(&rt, name, 8192), [0; 8]);
    fs::remove_file(&rt, name).expect(&rt, "its end");
}

// Page 1 of a file gets a last word that is none, and the file ends within page 2.
fn spoil(rt: &HostRuntime, name: &str) -> io::Result<()> {
    let mut file = File::options().write(true).open(rt, name)?;
    file.seek(SeekFrom::Start(4096 + 8 * 511))?;
    file.write_all(&[0, 0, 0, 0x10, 0, 0, 0, 0])?;
    file.set_len(3 * 4096 - 1)
}

// A page can't be read for this reason, at the last of so many faults.
fn fails_by(rt: &impl Abort, drum: &mut FileDrum, page: u32, kind: ErrorKind, faults: u64) {
    fails(rt, drum, page);
    let kept = drum.error().map(|error| error.kind());
    same(rt, (kept, drum.faults()), (Some(kind), faults));
}

// A drum in a file that may not be written has failed from the start.
fn fails_to_write(rt: &impl Abort, file: File) {
    let mut drum = FileDrum::new(file);
    same(rt, drum.faults(), 1);
    writes(rt, &mut drum, 2, 1, Err(Failed));
    same(rt, (drum.writes(), drum.faults()), (0, 2));
}

#[test]
fn a_file_that_fails(rt: HostRuntime) {
    let name = "a_file_that_fails.drum";
    let file = new_file(&rt, name).expect(&rt, "a new file");
    let mut drum = FileDrum::new(file);
    spoil(&rt, name).expect(&rt, "what spoils it");
    fails_by(&rt, &mut drum, 1, ErrorKind::InvalidData, 1);
    fails_by(&rt, &mut drum, 2, ErrorKind::UnexpectedEof, 2);
    fails_by(&rt, &mut drum, 3, ErrorKind::UnexpectedEof, 3);
    writes(&rt, &mut drum, 2, 1, Ok(()));
    reads(&rt, &mut drum, 2, 1);
    same(&rt, (drum.reads(), drum.writes(), drum.faults()), (1, 1, 3));
    let only_read = File::open(&rt, name).expect(&rt, "the file");
    fails_to_write(&rt, only_read);
    fs::remove_file(&rt, name).expect(&rt, "its end");
}
