// Frames of core: who takes them, who holds them, and which goes next.
use crate::made::made;
use crate::same::same;
use frame_table::{Frames, MOST_HOLDS, MOST_PINS};
use page_homes::{FrameId, Home, MOST_HOMES};
use std::process::Abort;

// A frame for the page of a home that is in none.
fn assign(frames: &mut Frames, home: Home) -> Option<FrameId> {
    if home.0 >= MOST_HOMES || frames.frame_of(home).is_some() {
        return None;
    }
    frames.assign(home)
}

// Makes a frame free, where it isn't held.
fn free(frames: &mut Frames, f: FrameId) {
    if f.0 < frames.len() && !frames.is_held(f) {
        frames.free(f);
    }
}

// The home whose page a frame holds.
fn home_of(frames: &Frames, f: FrameId) -> Option<Home> {
    if f.0 < frames.len() {
        frames.home_of(f)
    } else {
        None
    }
}

// Pins a frame that is taken, where one pin more is allowed.
fn pin(frames: &mut Frames, f: FrameId) {
    if f.0 < frames.len() && frames.home_of(f).is_some() && frames.pins(f) < MOST_PINS {
        frames.pin(f);
    }
}

// Takes one pin away, where there is one.
fn unpin(frames: &mut Frames, f: FrameId) {
    if f.0 < frames.len() && frames.pins(f) > 0 {
        frames.unpin(f);
    }
}

// A transfer of a frame begins or ends.
fn set_transfer(frames: &mut Frames, f: FrameId, on: bool) {
    if f.0 < frames.len() {
        frames.set_transfer(f, on);
    }
}

// A use of a frame.
fn touch_age(frames: &mut Frames, f: FrameId) {
    if f.0 < frames.len() {
        frames.touch_age(f);
    }
}

// Who would go next, and how many holds there are, while a frame that is taken is held.
fn seen_while_held(frames: &mut Frames, f: FrameId) -> Option<(Option<FrameId>, u32)> {
    let taken = f.0 < frames.len() && frames.home_of(f).is_some();
    if !taken || frames.holds(f) == MOST_HOLDS {
        return None;
    }
    let hold = frames.hold(f);
    let seen = (frames.victim(), frames.holds(f));
    frames.release(hold);
    Some(seen)
}

// The frames are let go. What they are made of is taken apart here alone, for all tests.
fn let_go(_frames: Frames) {}

// The frames are taken one after another, until none is free.
fn are_taken(rt: &impl Abort, frames: &mut Frames) {
    same(
        rt,
        (frames.len(), frames.free_frames(), frames.victim()),
        (3, 3, None),
    );
    same(rt, assign(frames, Home(70)), Some(FrameId(0)));
    same(rt, assign(frames, Home(50)), Some(FrameId(1)));
    same(rt, assign(frames, Home(60)), Some(FrameId(2)));
    same(
        rt,
        (assign(frames, Home(40)), frames.free_frames()),
        (None, 0),
    );
    same(
        rt,
        (frames.frame_of(Home(50)), frames.frame_of(Home(40))),
        (Some(FrameId(1)), None),
    );
    same(rt, home_of(frames, FrameId(2)), Some(Home(60)));
}

// Those that are made free are taken again.
fn are_freed(rt: &impl Abort, frames: &mut Frames) {
    free(frames, FrameId(1));
    free(frames, FrameId(0));
    same(
        rt,
        (frames.free_frames(), frames.frame_of(Home(50))),
        (2, None),
    );
    same(rt, home_of(frames, FrameId(1)), None);
    free(frames, FrameId(1));
    same(rt, frames.free_frames(), 2);
    same(rt, assign(frames, Home(40)), Some(FrameId(0)));
    same(rt, assign(frames, Home(50)), Some(FrameId(1)));
    same(rt, frames.victim(), Some(FrameId(2)));
}

#[test]
fn frames_are_taken_and_free(rt: HostRuntime) {
    let mut frames = made(&rt, Frames::boot(rt.alloc(), 3));
    are_taken(&rt, &mut frames);
    are_freed(&rt, &mut frames);
    let_go(frames);
}

// Pages of three homes take frames.
fn assign_three(frames: &mut Frames, first: Home, second: Home, third: Home) {
    let _ = assign(frames, first);
    let _ = assign(frames, second);
    let _ = assign(frames, third);
}

// What was used, is transferred or is pinned does not go first.
fn are_kept(rt: &impl Abort, frames: &mut Frames) {
    same(rt, frames.victim(), Some(FrameId(0)));
    touch_age(frames, FrameId(0));
    same(rt, frames.victim(), Some(FrameId(1)));
    set_transfer(frames, FrameId(1), true);
    same(rt, frames.victim(), Some(FrameId(2)));
    pin(frames, FrameId(2));
    pin(frames, FrameId(2));
    same(rt, frames.victim(), Some(FrameId(0)));
}

// A frame that is pinned isn't made free, and one that is held doesn't go. A free frame isn't held.
fn are_held(rt: &impl Abort, frames: &mut Frames) {
    free(frames, FrameId(2));
    same(rt, home_of(frames, FrameId(2)), Some(Home(7)));
    same(rt, seen_while_held(frames, FrameId(0)), Some((None, 1)));
    same(rt, seen_while_held(frames, FrameId(3)), None);
    same(rt, frames.victim(), Some(FrameId(0)));
}

// With its last pin, and at the end of its transfer, a frame may go again.
fn are_released(rt: &impl Abort, frames: &mut Frames) {
    unpin(frames, FrameId(2));
    same(rt, frames.victim(), Some(FrameId(0)));
    unpin(frames, FrameId(2));
    same(rt, frames.victim(), Some(FrameId(2)));
    set_transfer(frames, FrameId(1), false);
    touch_age(frames, FrameId(3));
    same(rt, frames.victim(), Some(FrameId(1)));
}

#[test]
fn the_oldest_use_goes_first(rt: HostRuntime) {
    let mut frames = made(&rt, Frames::boot(rt.alloc(), 4));
    assign_three(&mut frames, Home(9), Home(8), Home(7));
    are_kept(&rt, &mut frames);
    are_held(&rt, &mut frames);
    are_released(&rt, &mut frames);
    let_go(frames);
}

// Frames are used, which changes who goes next.
fn are_used(rt: &impl Abort, frames: &mut Frames) {
    touch_age(frames, FrameId(1));
    same(rt, frames.victim(), Some(FrameId(0)));
    touch_age(frames, FrameId(2));
    touch_age(frames, FrameId(0));
    same(rt, frames.victim(), Some(FrameId(1)));
}

// A look changes nothing, however often.
fn are_looked_at(rt: &impl Abort, frames: &mut Frames) {
    for _look in 0..4 {
        frames.look_for_victim();
        same(rt, frames.victim(), Some(FrameId(1)));
    }
}

// Nor does it while a frame can't go, or is free.
fn are_passed_by(rt: &impl Abort, frames: &mut Frames) {
    set_transfer(frames, FrameId(1), true);
    same(rt, frames.victim(), Some(FrameId(2)));
    frames.look_for_victim();
    same(rt, frames.victim(), Some(FrameId(2)));
    set_transfer(frames, FrameId(1), false);
    same(rt, frames.victim(), Some(FrameId(1)));
    free(frames, FrameId(1));
    frames.look_for_victim();
    same(rt, frames.victim(), Some(FrameId(2)));
}

#[test]
fn a_look_for_the_victim_finds_who_was_used(rt: HostRuntime) {
    let mut frames = made(&rt, Frames::boot(rt.alloc(), 3));
    frames.look_for_victim();
    same(&rt, frames.victim(), None);
    assign_three(&mut frames, Home(1), Home(2), Home(3));
    are_used(&rt, &mut frames);
    are_looked_at(&rt, &mut frames);
    are_passed_by(&rt, &mut frames);
    let_go(frames);
}

#[test]
fn words_are_read_and_changed(rt: HostRuntime) {
    let mut frames = made(&rt, Frames::boot(rt.alloc(), 2));
    frames.assign(Home(3));
    let hold = frames.hold(FrameId(0));
    frames.words_mut(&hold)[511] = 0o777777;
    same(
        &rt,
        (frames.word(FrameId(0), 511), frames.word(FrameId(0), 0)),
        (0o777777, 0),
    );
    same(&rt, frames.words(&hold)[511], 0o777777);
    frames.release(hold);
    let_go(frames);
}
