// Maps that are pages, over pages in memory.
ghost use Rattle.std.specs.Prelude.{◌≡◌, ◌<◌, map};
ghost use Rattle.machine_names.specs.declared.names.TheConstants.{SPACE_PAGES};
ghost use Rattle.page_contracts.specs.Stores.{is_taken};
ghost use Rattle.pager_walk.specs.PagedMaps.{AreRooted, tables_of, is_near};

use crate::made::made;
use crate::same::same;
use flat_pages::FlatStore;
use machine_names::{ForkName, Kind, LAST_SERIAL, PageName, Slot, TERMINALS, Tty};
use page_contracts::{Room, Seen, Store};
use page_homes::Home;
use pager_walk::{
    Looked, MOST_MAPS, MapTables, Walked, Way, begin, begin_following, end, entry, make_page, seen,
    set, walk,
};
use plain_pages::MapEntry;
use share_table::decode;
use std::process::Abort;
use word36::Word;

// A fork of terminal 1.
fn fork(serial: u32) -> ForkName {
    ForkName {
        tty: Tty(1),
        serial,
    }
}

// Page 5 of a fork of terminal 1.
fn fifth(serial: u32) -> Slot
    ensures { result.page < SPACE_PAGES }
{
    Slot {
        fork: fork(serial),
        page: 5,
    }
}

// A fork gets an empty map, or one that follows another's.
fn add<S: Store>(
    rt: &impl Abort,
    store: &mut S,
    tables: &mut MapTables,
    new: ForkName,
    leader: Option<ForkName>,
)
    requires { AreRooted (tables_of tables.old) (map is_taken (S.means.homes store.old)) }
    ensures { AreRooted (tables_of tables.new) (map is_taken (S.means.homes store.new)) }
{
    if new.tty.0 >= TERMINALS {
        panic!(rt; "no such terminal");
    }
    let Some(number) = tables.maps.free_number(new.tty) else {
        panic!(rt; "thirty forks");
    };
    if number >= MOST_MAPS {
        panic!(rt; "no such map");
    }
    if let Some(_) = tables.maps.map_of(new) {
        panic!(rt; "it has a map");
    }
    let Room::Enough = store.room(1) else {
        panic!(rt; "no room");
    };
    match leader {
        None => {
            begin(store, tables, number, new);
        }
        Some(leader) => {
            if leader.serial < 1 || leader.serial > LAST_SERIAL {
                panic!(rt; "no such fork");
            }
            begin_following(store, tables, number, new, leader);
        }
    }
}

// A page with a name, at a home.
fn page<S: Store>(rt: &impl Abort, store: &mut S, tables: &mut MapTables, name: PageName) -> Home
    requires { AreRooted (tables_of tables.old) (map is_taken (S.means.homes store.old)) }
    ensures { AreRooted (tables_of tables.new) (map is_taken (S.means.homes store.new)) }
{
    let Room::Enough = store.room(1) else {
        panic!(rt; "no room");
    };
    make_page(store, tables, name)
}

// Whether a look finds a word.
fn is_near(looked: Looked) -> bool
    ensures { result ≡ is_near looked }
{
    match looked {
        Looked::Is(_) => true,
        Looked::Absent(_) => false,
        Looked::Missing => false,
        Looked::Refused => true,
    }
}

// The word of an entry is put into its map.
fn put<S: Store>(rt: &impl Abort, store: &mut S, tables: &MapTables, at: Slot, word: u64)
    requires rooted { AreRooted (tables_of tables.now) (map is_taken (S.means.homes store.old)) }
    requires page { at.page < SPACE_PAGES }
    ensures { AreRooted (tables_of tables.now) (map is_taken (S.means.homes store.new)) }
{
    let near = is_near(entry(store, tables, at));
    if !near {
        panic!(rt; "no map");
    }
    let Some(pointer) = decode(Word::wrapped(word)) else {
        panic!(rt; "no entry");
    };
    let Some(_) = tables.entry_for(pointer) else {
        panic!(rt; "no page");
    };
    set(store, tables, at, pointer);
}

// A fork's map goes.
fn drop_map<S: Store>(rt: &impl Abort, store: &mut S, tables: &mut MapTables, old: ForkName)
    requires { AreRooted (tables_of tables.old) (map is_taken (S.means.homes store.old)) }
    ensures { AreRooted (tables_of tables.new) (map is_taken (S.means.homes store.new)) }
{
    let Some(number) = tables.maps.map_of(old) else {
        panic!(rt; "no map");
    };
    end(store, tables, number, old);
}

// The walk, which is along a chain.
fn way<S: Store>(rt: &impl Abort, store: &S, tables: &MapTables, at: Slot) -> Way
    requires rooted { AreRooted (tables_of tables.now) (map is_taken (S.means.homes store.now)) }
    requires page { at.page < SPACE_PAGES }
{
    match walk(store, tables, at) {
        Walked::Along(way) => way,
        _ => panic!(rt; "no chain"),
    }
}

// The name of the page that an entry names.
fn name_seen(rt: &impl Abort, seen: Seen) -> PageName {
    match seen {
        Seen::Is(MapEntry::Names(name, _)) => name,
        _ => panic!(rt; "no page"),
    }
}

// An entry of an empty map leads to no page, with every right.
fn is_empty<S: Store>(rt: &impl Abort, store: &S, tables: &MapTables)
    requires { AreRooted (tables_of tables.now) (map is_taken (S.means.homes store.now)) }
{
    let empty = way(rt, store, tables, fifth(1));
    same(rt, empty.home, None);
    same(
        rt,
        (empty.reads, empty.writes, empty.executes),
        (true, true, true),
    );
}

const NAME: PageName = PageName {
    tty: Tty(1),
    serial: 9,
};

// A page is named, by an entry with R and W.
fn is_named<S: Store>(rt: &impl Abort, store: &mut S, tables: &mut MapTables) -> Home
    requires { AreRooted (tables_of tables.old) (map is_taken (S.means.homes store.old)) }
    ensures { AreRooted (tables_of tables.new) (map is_taken (S.means.homes store.new)) }
{
    let home = page(rt, store, tables, NAME);
    let word = 0o340000000000 + u64::from(home.0);
    put(rt, store, tables, fifth(1), word);
    let named = way(rt, store, tables, fifth(1));
    same(
        rt,
        (named.end, named.home, named.copy),
        (fifth(1), Some(home), None),
    );
    same(
        rt,
        (named.reads, named.writes, named.executes),
        (true, true, false),
    );
    let got = name_seen(rt, seen(store, tables, fifth(1)));
    same(rt, (got.tty.0, got.serial), (1, 9));
    home
}

// It stands at the end of four entries, and of no five.
fn is_followed<S: Store>(rt: &impl Abort, store: &mut S, tables: &mut MapTables, home: Home)
    requires { AreRooted (tables_of tables.old) (map is_taken (S.means.homes store.old)) }
    ensures { AreRooted (tables_of tables.new) (map is_taken (S.means.homes store.new)) }
{
    add(rt, store, tables, fork(2), Some(fork(1)));
    add(rt, store, tables, fork(3), Some(fork(2)));
    add(rt, store, tables, fork(4), Some(fork(3)));
    add(rt, store, tables, fork(5), Some(fork(4)));
    let fourth = way(rt, store, tables, fifth(4));
    same(
        rt,
        (fourth.end, fourth.home, fourth.copy),
        (fifth(1), Some(home), None),
    );
    same(rt, walk(store, tables, fifth(5)), Walked::NoChain);
}

// An entry on the way has R and the copy mark, of page 5 of fork 1.
fn is_marked<S: Store>(rt: &impl Abort, store: &mut S, tables: &MapTables)
    requires { AreRooted (tables_of tables.now) (map is_taken (S.means.homes store.old)) }
    ensures { AreRooted (tables_of tables.now) (map is_taken (S.means.homes store.new)) }
{
    put(rt, store, tables, fifth(2), 0o710005000001);
    let copied = walk(store, tables, fifth(3));
    same(rt, copied.permits(Kind::Read), true);
    same(rt, copied.permits(Kind::Write), true);
    same(rt, copied.permits(Kind::Execute), false);
    let marked = way(rt, store, tables, fifth(3));
    same(rt, marked.copy, Some(fifth(2)));
}

// A fork's map goes, to which the others follow.
fn is_gone<S: Store>(rt: &impl Abort, store: &mut S, tables: &mut MapTables)
    requires { AreRooted (tables_of tables.old) (map is_taken (S.means.homes store.old)) }
{
    drop_map(rt, store, tables, fork(1));
    same(rt, walk(store, tables, fifth(2)), Walked::NoChain);
    same(rt, entry(store, tables, fifth(1)), Looked::Missing);
}

// Five maps, of which four follow the first, one behind the other.
fn come_and_go<S: Store>(rt: &impl Abort, store: &mut S, tables: &mut MapTables)
    requires { AreRooted (tables_of tables.old) (map is_taken (S.means.homes store.old)) }
{
    same(rt, walk(store, tables, fifth(1)), Walked::NoChain);
    add(rt, store, tables, fork(1), None);
    is_empty(rt, store, tables);
    let home = is_named(rt, store, tables);
    is_followed(rt, store, tables, home);
    is_marked(rt, store, tables);
    is_gone(rt, store, tables);
}

#[test]
fn chains_over_maps_in_pages(rt: HostRuntime) {
    let mut store = made(&rt, FlatStore::boot(rt.alloc(), 8));
    let mut tables = made(&rt, MapTables::boot(rt.alloc(), 8));
    come_and_go(&rt, &mut store, &mut tables);
}
