// Texts of fixed room.
use crate::same::same;
use machine_names::DirName;

#[test]
fn texts_are_their_bytes(rt: HostRuntime) {
    let name = DirName::new(b"SMITH");
    same(&rt, name.as_slice(), b"SMITH".as_slice());
    same(&rt, name, name);
    same(&rt, name == DirName::new(b"SMITHS"), false);
    same(&rt, name == DirName::new(b"SMYTH"), false);
    same(&rt, DirName::new(b"").as_slice(), b"".as_slice());
    same(
        &rt,
        DirName::new(b"ABCDEFGHIJKL").as_slice(),
        b"ABCDEFGHIJKL".as_slice(),
    );
}
