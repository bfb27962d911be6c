// The pages and the lengths of files, and where their bytes stand.
use crate::made::made;
use crate::same::same;
use machine_names::FileNo;
use page_files::{Files, Lengths, most_bytes, place};
use word36::Word;

#[test]
fn pages_of_files(rt: HostRuntime) {
    let mut files = made(&rt, Files::<u32>::boot(rt.alloc()));
    let last = FileNo(511);
    same(&rt, files.page(FileNo(0), 0), None);
    same(&rt, files.put_page(FileNo(1), 0, 10), None);
    same(&rt, files.put_page(FileNo(0), 511, 20), None);
    same(&rt, files.put_page(last, 511, 30), None);
    same(&rt, files.put_page(last, 511, 31), Some(30));
    same(&rt, files.page(FileNo(1), 0), Some(10));
    same(&rt, files.page(FileNo(0), 511), Some(20));
    same(&rt, files.page(last, 511), Some(31));
    same(&rt, files.drop_page(FileNo(0), 511), Some(20));
    same(&rt, files.drop_page(FileNo(0), 511), None);
    same(&rt, files.page(FileNo(1), 0), Some(10));
}

#[test]
fn lengths_of_files(rt: HostRuntime) {
    let mut files = made(&rt, Lengths::boot(rt.alloc()));
    same(&rt, files.length(FileNo(3)), 0);
    same(&rt, files.size(FileNo(3)), 36);
    files.set_length(FileNo(3), 1310720, 7);
    same(&rt, files.length(FileNo(3)), 1310720);
    same(&rt, files.size(FileNo(3)), 7);
    same(&rt, files.length(FileNo(4)), 0);
    same(&rt, files.size(FileNo(4)), 36);
}

#[test]
fn places_of_bytes(rt: HostRuntime) {
    same(&rt, place(36, 0), (0, 0, Word::wrapped(0o004400000000)));
    same(&rt, place(36, 511), (0, 511, Word::wrapped(0o004400000000)));
    same(&rt, place(36, 512), (1, 0, Word::wrapped(0o004400000000)));
    same(
        &rt,
        place(36, 262143),
        (511, 511, Word::wrapped(0o004400000000)),
    );
    same(&rt, place(7, 0), (0, 0, Word::wrapped(0o350700000000)));
    same(&rt, place(7, 4), (0, 0, Word::wrapped(0o010700000000)));
    same(&rt, place(7, 5), (0, 1, Word::wrapped(0o350700000000)));
    same(&rt, place(7, 2559), (0, 511, Word::wrapped(0o010700000000)));
    same(&rt, place(7, 2560), (1, 0, Word::wrapped(0o350700000000)));
    same(&rt, place(8, 3), (0, 0, Word::wrapped(0o041000000000)));
    same(&rt, place(8, 4), (0, 1, Word::wrapped(0o341000000000)));
    same(&rt, place(18, 1), (0, 0, Word::wrapped(0o002200000000)));
    same(&rt, place(1, 35), (0, 0, Word::wrapped(0o000100000000)));
    same(&rt, place(19, 1), (0, 1, Word::wrapped(0o212300000000)));
}

#[test]
fn room_of_files(rt: HostRuntime) {
    same(&rt, most_bytes(36), 262144);
    same(&rt, most_bytes(7), 1310720);
    same(&rt, most_bytes(1), 9437184);
}
