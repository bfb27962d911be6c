// Pages that more than one name.
use crate::made::made;
use crate::same::same;
use page_homes::Home;
use share_table::{MOST_SHARES, Share, ShareTable};
use std::process::Abort;

// A new share, while there is room for one.
fn share(table: &mut ShareTable, home: Home) -> Option<Share> {
    if table.len() < table.room() {
        Some(table.share(home))
    } else {
        None
    }
}

// One name more, where the share is there.
fn join(table: &mut ShareTable, s: Share) {
    if table.has(s) {
        table.join(s);
    }
}

// One name fewer, where the share is there.
fn leave(table: &mut ShareTable, s: Share) -> Option<Home> {
    if table.has(s) { table.leave(s) } else { None }
}

// The home and the count of a share that is there.
fn shared(table: &ShareTable, s: Share) -> Option<(Home, u32)> {
    if table.has(s) {
        Some((table.home_of(s), table.count_of(s)))
    } else {
        None
    }
}

const FIRST: Share = Share(0);

const SECOND: Share = Share(1);

// Two homes get shares, and no third. A share has as many names as joined it.
fn are_shared(rt: &impl Abort, table: &mut ShareTable) {
    same(
        rt,
        (table.len(), table.room(), table.has(FIRST)),
        (0, 2, false),
    );
    same(rt, share(table, Home(7)), Some(FIRST));
    same(rt, share(table, Home(9)), Some(SECOND));
    same(rt, share(table, Home(5)), None);
    same(
        rt,
        (table.len(), shared(table, FIRST)),
        (2, Some((Home(7), 1))),
    );
    join(table, FIRST);
    join(table, FIRST);
    same(rt, shared(table, FIRST), Some((Home(7), 3)));
    same(rt, shared(table, SECOND), Some((Home(9), 1)));
}

// The last name gives the home back, and another home gets the share.
fn are_left(rt: &impl Abort, table: &mut ShareTable) {
    same(rt, leave(table, FIRST), None);
    same(rt, leave(table, FIRST), None);
    same(rt, leave(table, FIRST), Some(Home(7)));
    same(
        rt,
        (table.has(FIRST), table.has(SECOND), table.len()),
        (false, true, 1),
    );
    same(rt, share(table, Home(8)), Some(FIRST));
    same(rt, shared(table, FIRST), Some((Home(8), 1)));
    same(rt, shared(table, SECOND), Some((Home(9), 1)));
}

#[test]
fn shares_come_and_go(rt: HostRuntime) {
    let mut table = made(&rt, ShareTable::boot(rt.alloc(), 2));
    are_shared(&rt, &mut table);
    are_left(&rt, &mut table);
}

#[test]
fn room_for_all_shares(rt: HostRuntime) {
    let mut table = made(&rt, ShareTable::boot(rt.alloc(), MOST_SHARES));
    for n in 0..MOST_SHARES {
        if table.len() < table.room() {
            let share = table.share(Home(n));
            assert!(rt; share.0 < MOST_SHARES);
        }
    }
    same(&rt, table.len(), MOST_SHARES);
}
