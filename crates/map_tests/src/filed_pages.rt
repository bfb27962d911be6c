// Pages of files, and look-ups, where maps of forks are pages.
use crate::paged_calls::{ForkPages, PagedCalls, begun, first, let_go, make_zeros};
use crate::same::same;
use machine_names::Slot;
use std::process::Abort;

// A page of the one fork.
fn slot(page: u16) -> Slot {
    Slot {
        fork: first(1),
        page,
    }
}

// How many map entries and pages of files name the fork's page; 0 where it has none.
fn names<P: ForkPages>(pages: &PagedCalls<P>) -> u32 {
    match pages.page_at(slot(5)) {
        Some((_, names)) => names,
        None => 0,
    }
}

// The file names the page at three of its pages.
fn is_filed<P: ForkPages>(rt: &impl Abort, pages: &mut PagedCalls<P>) {
    same(rt, names(pages), 1);
    same(rt, pages.file(0, slot(5)), true);
    same(rt, pages.file(1, slot(5)), true);
    same(rt, pages.file(2, slot(5)), true);
    same(rt, names(pages), 4);
}

// It names the page at one of them no more.
fn is_unfiled<P: ForkPages>(rt: &impl Abort, pages: &mut PagedCalls<P>) {
    pages.unfile(1);
    same(rt, names(pages), 3);
    same(rt, pages.filed(1).is_some(), false);
    same(rt, pages.filed(2).is_some(), true);
    same(rt, pages.live(), 2);
}

// The file is dropped, and the page has the name in the map alone.
fn is_dropped<P: ForkPages>(rt: &impl Abort, pages: &mut PagedCalls<P>) {
    pages.unfile_all();
    same(rt, names(pages), 1);
    same(rt, pages.filed(2).is_some(), false);
    same(rt, pages.live(), 2);
}

// The page of a fork is named by a file until that is dropped.
fn comes_and_goes<P: ForkPages>(rt: &impl Abort, pages: &mut PagedCalls<P>) {
    same(rt, pages.add_empty(1), true);
    make_zeros(rt, pages, slot(5));
    is_filed(rt, pages);
    is_unfiled(rt, pages);
    is_dropped(rt, pages);
}

#[test]
fn a_file_names_the_page_of_a_fork_until_it_is_dropped(rt: HostRuntime) {
    let mut pages = begun(&rt, 6, 16);
    comes_and_goes(&rt, &mut pages);
    let_go(pages);
}

// A word that is put into a page of the fork's space is read there, and none in a page that it hasn't.
fn is_read<P: ForkPages>(rt: &impl Abort, pages: &mut PagedCalls<P>) {
    same(rt, pages.add_empty(1), true);
    make_zeros(rt, pages, slot(5));
    same(rt, pages.load(slot(6), 7), None);
    same(rt, pages.store(slot(5), 7, 0o1234), true);
    same(rt, pages.load(slot(5), 7), Some(0o1234));
}

#[test]
fn what_is_put_into_a_space_is_read_there(rt: HostRuntime) {
    let mut pages = begun(&rt, 6, 16);
    is_read(&rt, &mut pages);
    let_go(pages);
}
