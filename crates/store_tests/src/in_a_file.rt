// Pages whose drum is a file.
use crate::calls::{Told, ask, complete, end_store, evict, is_here, make, put, word_at};
use crate::faults::churn;
use crate::made::made;
use crate::same::same;
use outside::{Drum, FileDrum};
use page_homes::Home;
use paged_store::PagedStore;
use std::alloc::Global;
use std::fs::{self, File};
use std::io::{self, Read, Seek, SeekFrom};
use std::process::Abort;

// A new file for a drum.
fn new_file(rt: &HostRuntime, name: &str) -> io::Result<File> {
    let mut options = File::options();
    options.read(true).write(true).create(true).truncate(true);
    options.open(rt, name)
}

// Cuts a file short, or fills it up with zeros.
fn set_length(rt: &HostRuntime, name: &str, length: u64) -> io::Result<()> {
    File::options().write(true).open(rt, name)?.set_len(length)
}

// The first word of a page in a file.
fn word_in(rt: &HostRuntime, name: &str, home: u32) -> io::Result<[u8; 8]> {
    let mut bytes = [1; 8];
    let mut file = File::open(rt, name)?;
    file.seek(SeekFrom::Start(u64::from(home) * 4096))?;
    file.read_exact(&mut bytes)?;
    Ok(bytes)
}

// Six pages are filled, and leave their three frames.
fn sends_all_off<D: Drum>(rt: &impl Abort, alloc: Global, drum: &mut D) {
    let mut store = made(rt, PagedStore::boot(alloc, 3, 6));
    same(rt, churn(&mut store, drum), Some(0));
    for frame in 0..3 {
        evict(&mut store, frame);
    }
    for _frame in 0..4 {
        complete(&mut store, drum);
    }
    end_store(store);
}

// A word of a file that was read is this.
fn stands(rt: &impl Abort, read: io::Result<[u8; 8]>, word: u8) {
    let bytes = read.expect(rt, "a word of a file");
    same(rt, bytes, [0, 0, 0, 0, 0, 0, 0, word]);
}

#[test]
fn pages_stand_in_a_file(rt: HostRuntime) {
    let name = "pages_stand_in_a_file.drum";
    let file = new_file(&rt, name).expect(&rt, "a new file");
    let mut drum = FileDrum::new(file);
    sends_all_off(&rt, rt.alloc(), &mut drum);
    // the last words of a page that left stand in the file at its home
    stands(&rt, word_in(&rt, name, 0), 0o30);
    stands(&rt, word_in(&rt, name, 1), 0o31);
    stands(&rt, word_in(&rt, name, 5), 0o35);
    fs::remove_file(&rt, name).expect(&rt, "its end");
}

// One page leaves the one frame.
fn sends_one_off<D: Drum>(rt: &impl Abort, store: &mut PagedStore, drum: &mut D) {
    same(rt, make(store), Some(Home(0)));
    same(rt, put(store, Home(0), 0, 3), true);
    evict(store, 0);
    same(rt, complete(store, drum), Told::Frame);
}

// It does not come back, and is still asked for.
fn does_not_come<D: Drum>(rt: &impl Abort, store: &mut PagedStore, drum: &mut D) {
    same(rt, ask(store, Home(0)), Told::Page(Home(0)));
    same(rt, complete(store, drum), Told::Fault);
    same(rt, drum.faults(), 1);
    same(rt, (is_here(store, Home(0)), drum.reads()), (false, 0));
}

// It comes once the file is long enough again.
fn comes<D: Drum>(rt: &impl Abort, store: &mut PagedStore, drum: &mut D) {
    same(rt, complete(store, drum), Told::Page(Home(0)));
    same(rt, word_at(store, Home(0), 0), Some(3));
}

#[test]
fn a_file_that_is_cut_short(rt: HostRuntime) {
    let name = "a_file_that_is_cut_short.drum";
    let file = new_file(&rt, name).expect(&rt, "a new file");
    let mut drum = FileDrum::new(file);
    let mut store = made(&rt, PagedStore::boot(rt.alloc(), 1, 2));
    sends_one_off(&rt, &mut store, &mut drum);
    set_length(&rt, name, 8).expect(&rt, "a short file");
    does_not_come(&rt, &mut store, &mut drum);
    set_length(&rt, name, 4096).expect(&rt, "a longer file");
    comes(&rt, &mut store, &mut drum);
    end_store(store);
    fs::remove_file(&rt, name).expect(&rt, "its end");
}
