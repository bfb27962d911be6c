// Values under numbers.
use crate::made::made;
use crate::same::same;
use number_map::NumberMap;
use std::process::Abort;

// Values are put, the last one in the place of another.
fn come(rt: &impl Abort, m: &mut NumberMap<u16, 4>) {
    same(rt, m.get(0), None);
    same(rt, m.get(4), None);
    same(rt, m.first_free(1), Some(1));
    same(rt, m.insert(1, 11), None);
    same(rt, m.insert(3, 33), None);
    same(rt, m.insert(1, 12), Some(11));
    same(rt, m.first_free(1), Some(2));
    same(rt, m.insert(2, 22), None);
    same(rt, m.first_free(1), None);
}

// One goes, and the others stay.
fn go(rt: &impl Abort, m: &mut NumberMap<u16, 4>) {
    same(rt, m.first_free(0), Some(0));
    same(rt, m.first_free(9), None);
    same(rt, m.remove(2), Some(22));
    same(rt, m.remove(2), None);
    same(rt, m.remove(7), None);
    same(rt, m.get(1), Some(12));
    same(rt, m.get(3), Some(33));
}

#[test]
fn values_come_and_go(rt: HostRuntime) {
    let mut m = made(&rt, NumberMap::<u16, 4>::boot(rt.alloc()));
    come(&rt, &mut m);
    go(&rt, &mut m);
}
