// Each call of a drum failing in turn.
use crate::calls::{Told, ask, bring, complete, end_store, evict, is_here, make, put, word_at};
use crate::made::made;
use crate::same::{same, same_at};
use outside::{Drum, MemDrum, Memory};
use page_homes::{Home, MOST_HOMES};
use paged_store::PagedStore;
use std::alloc::Global;
use std::process::Abort;

// Six pages in three frames are filled, and looked at three times. How often the drum failed; none where a word isn't the one that was put.
pub fn churn<D: Drum>(store: &mut PagedStore, drum: &mut D) -> Option<u64> {
    let mut faults: u64 = 0;
    for home in 0..6 {
        make_room(store, drum, &mut faults);
        make(store)?;
        put(store, Home(home), 0, u64::from(home));
    }
    for round in 1..4 {
        for home in 0..6 {
            faults = faults.saturating_add(bring(store, drum, Home(home)));
            if word_at(store, Home(home), 0)? != u64::from(home) + 8 * (round - 1) {
                return None;
            }
            put(store, Home(home), 0, u64::from(home) + 8 * round);
        }
    }
    Some(faults)
}

// Makes a frame free, where none is.
fn make_room<D: Drum>(store: &mut PagedStore, drum: &mut D, faults: &mut u64) {
    for frame in 0..3 {
        evict(store, frame);
    }
    for _transfer in 0..8 {
        match complete(store, drum) {
            Told::Fault => *faults = faults.saturating_add(1),
            Told::Nothing => break,
            _ => {}
        }
    }
}

// A drum in memory whose read and write of these numbers fail. No call has number 0.
fn failing_drum(alloc: Global, read: u64, write: u64) -> Result<MemDrum, Memory> {
    let reads = vec![in alloc; read; 1]?;
    let writes = vec![in alloc; write; 1]?;
    MemDrum::new(alloc, MOST_HOMES, reads, writes)
}

// One call fails, if there are so many, and is made once more.
fn one_call_fails(rt: &impl Abort, alloc: Global, read: u64, write: u64) {
    let mut drum = made(rt, failing_drum(alloc, read, write));
    let mut store = made(rt, PagedStore::boot(alloc, 3, 6));
    let faults = churn(&mut store, &mut drum);
    end_store(store);
    let failed = 1 <= read && read <= drum.reads() || 1 <= write && write <= drum.writes();
    same_at(rt, read.max(write), faults, Some(u64::from(failed)));
    same_at(rt, read.max(write), drum.faults(), u64::from(failed));
}

#[test]
fn each_call_fails_in_turn(rt: HostRuntime) {
    for call in 1..40 {
        one_call_fails(&rt, rt.alloc(), call, 0);
        one_call_fails(&rt, rt.alloc(), 0, call);
    }
}

// A page leaves at the second try, and has its words until then.
fn leaves_late<D: Drum>(rt: &impl Abort, store: &mut PagedStore, drum: &mut D) {
    evict(store, 0);
    same(rt, complete(store, drum), Told::Fault);
    same(
        rt,
        (word_at(store, Home(0), 5), drum.writes()),
        (Some(5), 0),
    );
    same(rt, complete(store, drum), Told::Frame);
}

// It comes back at the second try.
fn comes_late<D: Drum>(rt: &impl Abort, store: &mut PagedStore, drum: &mut D) {
    same(rt, ask(store, Home(0)), Told::Page(Home(0)));
    same(rt, complete(store, drum), Told::Fault);
    same(rt, (is_here(store, Home(0)), drum.reads()), (false, 0));
    same(rt, complete(store, drum), Told::Page(Home(0)));
    same(rt, word_at(store, Home(0), 5), Some(5));
}

#[test]
fn a_transfer_that_failed_is_still_queued(rt: HostRuntime) {
    let mut drum = made(&rt, failing_drum(rt.alloc(), 1, 1));
    let mut store = made(&rt, PagedStore::boot(rt.alloc(), 1, 2));
    same(&rt, make(&mut store), Some(Home(0)));
    same(&rt, put(&mut store, Home(0), 5, 5), true);
    leaves_late(&rt, &mut store, &mut drum);
    comes_late(&rt, &mut store, &mut drum);
    end_store(store);
}
