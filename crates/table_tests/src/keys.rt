// Keys under numbers, and the number of the least key.
use crate::made::made;
use crate::same::same;
use tournament::Tournament;

#[test]
fn the_least_key_wins(rt: HostRuntime) {
    let mut keys = made(&rt, Tournament::boot(rt.alloc(), 5));
    same(&rt, keys.winner(), None);
    keys.set(3, Some(40));
    same(&rt, keys.winner(), Some(3));
    keys.set(4, Some(30));
    same(&rt, keys.winner(), Some(4));
    keys.set(1, Some(30));
    same(&rt, keys.winner(), Some(1));
    same(
        &rt,
        (keys.key(1), keys.key(2), keys.key(5)),
        (Some(30), None, None),
    );
    keys.set(0, Some(u64::MAX));
    keys.set(1, None);
    same(&rt, keys.winner(), Some(4));
    keys.set(4, Some(41));
    same(&rt, keys.winner(), Some(3));
    keys.set(3, None);
    keys.set(4, None);
    same(&rt, keys.winner(), Some(0));
    keys.set(0, None);
    same(&rt, keys.winner(), None);
}

#[test]
fn one_key_and_none(rt: HostRuntime) {
    let mut keys = made(&rt, Tournament::boot(rt.alloc(), 1));
    same(&rt, keys.winner(), None);
    keys.set(0, Some(7));
    same(&rt, keys.winner(), Some(0));
    let none = made(&rt, Tournament::boot(rt.alloc(), 0));
    same(&rt, none.winner(), None);
}
