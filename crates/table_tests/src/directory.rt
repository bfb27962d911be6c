// Files by their names, and names as they are typed.
use crate::made::made;
use crate::same::same;
use file_dir::{Dir, read_name};
use machine_names::{DirName, FileName, FileNo};
use std::process::Abort;

const SMITH: &[u8] = b"SMITH";

// What a text names for a user.
fn read(text: &[u8]) -> Option<FileName> {
    read_name(text, &DirName::new(SMITH))
}

// Makes the file that a text names, where it names one that isn't there yet.
fn created(dir: &mut Dir, text: &[u8]) -> Option<FileNo> {
    let name = read_name(text, &DirName::new(SMITH))?;
    match dir.find(&name) {
        Some(_) => None,
        None => dir.create(&name).ok(),
    }
}

// The file that a text names.
fn found(dir: &Dir, text: &[u8]) -> Option<FileNo> {
    dir.find(&read(text)?)
}

// Deletes the file that a text names, and says whether there was one.
fn deleted(dir: &mut Dir, text: &[u8]) -> bool {
    let Some(name) = read(text) else {
        return false;
    };
    match dir.find(&name) {
        Some(f) => {
            dir.delete(f);
            true
        }
        None => false,
    }
}

// The file of a directory that comes after the one that a text names. None where there is not that
// one.
fn after(dir: &Dir, of: &DirName, text: &[u8]) -> Option<Option<FileNo>> {
    let name = read(text)?;
    let f = dir.find(&name)?;
    Some(dir.list(of, Some(f)))
}

// Texts, and the full names of the files that they name.
const FULL: [(&[u8], &[u8]); 12] = [
    (b"HELLO.SAV", b"<SMITH>HELLO.SAV"),
    (b"hello.sav", b"<SMITH>HELLO.SAV"),
    (b"HELLO", b"<SMITH>HELLO."),
    (b"HELLO.", b"<SMITH>HELLO."),
    (b"<a-1>b.c", b"<A-1>B.C"),
    (b"<A>B", b"<A>B."),
    (b"A-.B", b"<SMITH>A-.B"),
    (b"-.-", b"<SMITH>-.-"),
    (b"0.9", b"<SMITH>0.9"),
    (b"<ABCDEFGHIJKL>Z.", b"<ABCDEFGHIJKL>Z."),
    (
        b"0123456789012345678901234567890",
        b"<SMITH>0123456789012345678901234567890.",
    ),
    (
        b"<ABCDEFGHIJKL>0123456789-0123456789.EXT",
        b"<ABCDEFGHIJKL>0123456789-0123456789.EXT",
    ),
];

// A text names the file with this full name.
fn names(rt: &impl Abort, text: &[u8], full: &[u8]) {
    match read(text) {
        Some(name) => same(rt, name.as_slice(), full),
        None => panic!(rt; "no name"),
    }
}

#[test]
fn names_are_read(rt: HostRuntime) {
    for &(text, full) in &FULL {
        names(&rt, text, full);
    }
}

const NONE: [&[u8]; 16] = [
    b"",
    b".",
    b".SAV",
    b"<A>",
    b"<A>.B",
    b"<>A.B",
    b"<A",
    b"A>B",
    b"<A>B>C",
    b"<A><B>C",
    b"A.B.C",
    b"A B",
    b"A_B",
    b"<ABCDEFGHIJKLM>A.",
    b"01234567890123456789012345678901",
    b"<ABCDEFGHIJKL>0123456789-0123456789.EXTX",
];

#[test]
fn other_texts_name_nothing(rt: HostRuntime) {
    for &text in &NONE {
        same(&rt, read(text).is_none(), true);
    }
}

#[test]
fn files_are_made_and_deleted(rt: HostRuntime) {
    let mut dir = made(&rt, Dir::boot(rt.alloc()));
    same(&rt, found(&dir, b"A.B"), None);
    same(&rt, created(&mut dir, b"A.B"), Some(FileNo(0)));
    same(&rt, created(&mut dir, b"a.b"), None);
    same(&rt, created(&mut dir, b"<A>B"), Some(FileNo(1)));
    same(&rt, created(&mut dir, b"C"), Some(FileNo(2)));
    same(&rt, found(&dir, b"<SMITH>A.B"), Some(FileNo(0)));
    same(&rt, found(&dir, b"<A>B."), Some(FileNo(1)));
    same(&rt, found(&dir, b"B."), None);
    same(&rt, deleted(&mut dir, b"<A>B"), true);
    same(&rt, deleted(&mut dir, b"<A>B"), false);
    same(&rt, found(&dir, b"<A>B"), None);
    same(&rt, found(&dir, b"C."), Some(FileNo(2)));
    same(&rt, created(&mut dir, b"D"), Some(FileNo(1)));
}

// Files of a directory and of two others.
fn are_made(rt: &impl Abort, dir: &mut Dir) {
    same(rt, created(dir, b"A.B"), Some(FileNo(0)));
    same(rt, created(dir, b"<SMITHS>A"), Some(FileNo(1)));
    same(rt, created(dir, b"<SMIT>Z"), Some(FileNo(2)));
    same(rt, created(dir, b"AB"), Some(FileNo(3)));
    same(rt, created(dir, b"A-.B"), Some(FileNo(4)));
}

// Those of the directory come one after another.
fn are_listed(rt: &impl Abort, dir: &Dir, smith: &DirName) {
    same(rt, dir.list(smith, None), Some(FileNo(4)));
    same(rt, after(dir, smith, b"A-.B"), Some(Some(FileNo(0))));
    same(rt, after(dir, smith, b"A.B"), Some(Some(FileNo(3))));
    same(rt, after(dir, smith, b"AB"), Some(None));
    same(rt, after(dir, smith, b"<SMIT>Z"), Some(Some(FileNo(4))));
    same(rt, after(dir, smith, b"<SMITHS>A"), Some(None));
}

#[test]
fn a_directory_is_listed_in_order(rt: HostRuntime) {
    let mut dir = made(&rt, Dir::boot(rt.alloc()));
    let smith = DirName::new(SMITH);
    same(&rt, dir.list(&smith, None), None);
    are_made(&rt, &mut dir);
    are_listed(&rt, &dir, &smith);
    let smit = DirName::new(b"SMIT");
    same(&rt, after(&dir, &smit, b"<SMIT>Z"), Some(None));
    same(&rt, dir.list(&DirName::new(b"SMI"), None), None);
}

/// Three letters, others for each number below 512.
pub fn letters(n: u16) -> [u8; 3] {
    [
        b'A' + (n % 8) as u8,
        b'A' + (n / 8 % 8) as u8,
        b'A' + (n / 64 % 8) as u8,
    ]
}

// There are 512 files, and there is not one more.
fn are_full(rt: &impl Abort, dir: &mut Dir) {
    for n in 0..512 {
        same(rt, created(dir, &letters(n)), Some(FileNo(n)));
    }
    same(rt, created(dir, b"ONE-MORE"), None);
}

#[test]
fn there_are_512_files_at_most(rt: HostRuntime) {
    let mut dir = made(&rt, Dir::boot(rt.alloc()));
    are_full(&rt, &mut dir);
    same(&rt, found(&dir, b"HHH"), Some(FileNo(511)));
    same(&rt, deleted(&mut dir, b"BAA"), true);
    same(&rt, created(&mut dir, b"ONE-MORE"), Some(FileNo(1)));
}
