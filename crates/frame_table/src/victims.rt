// Which of the frames goes next.
ghost use Rattle.std.specs.Prelude.{◌≡◌, ◌≢◌, ◌<◌, ◌^◌, ℕ, length};
ghost use Rattle.frame_table.specs.Reached.{AreReached, HasReached};
ghost use Rattle.frame_table.specs.Seats.{leaving};
ghost use Rattle.frame_table.specs.Victims.{GoesFirst, older};

use crate::tenant::Tenant;
use page_homes::FrameId;
use tournament::Tournament;

// A note of a frame's age takes about as long as a look at so many frames.
const NOTE: usize = 64;

// The age of a frame that may give up its page.
fn leaving_age(seat: Option<Tenant>) -> Option<u64>
    ensures { result ≡ leaving seat }
{
    match seat {
        Some(tenant) => tenant.leaving_age(),
        None => None,
    }
}

// The older of a frame with its age, and of another; of equals the first.
fn older(oldest: Option<(u32, u64)>, f: u32, age: Option<u64>) -> Option<(u32, u64)>
    ensures { result ≡ older oldest f age }
{
    let Some(age) = age else {
        return oldest;
    };
    match oldest {
        Some((first, least)) if least <= age => Some((first, least)),
        _ => Some((f, age)),
    }
}

// Of the frames that may give up their page the one of least age, then least number. None exactly where none may.
fn oldest_leaver(seats: &[Option<Tenant>]) -> Option<FrameId>
    requires { length seats.now < 2 ^ 32 }
    ensures { GoesFirst seats.now result }
{
    let mut oldest = None;
    for f in 0..seats.len() as u32 {
        oldest = older(oldest, f, leaving_age(seats[f as usize]));
    }
    match oldest {
        Some((f, _)) => Some(FrameId(f)),
        None => None,
    }
}

/// Notes the age that a frame has reached, if it may give up its page.
pub(crate) fn note_age(reached: &mut Tournament, seats: &[Option<Tenant>], f: FrameId)
    requires size { length reached.old ≡ length seats.now }
    requires below { f.0 < length seats.now }
    requires others { (g : ℕ) → g ≢ f.0 → HasReached reached.old seats.now g }
    ensures { AreReached reached.new seats.now }
{
    let age = leaving_age(seats[f.0 as usize]);
    if age.is_some() {
        reached.set(f.0 as usize, age);
    }
}

/// Notes the ages of the frames of which the least are known, until that of the one that goes first is. There is a note
/// for each of them that was used since the last. Once they take as long as a look at all frames, the others are left.
pub(crate) fn note_oldest(reached: &mut Tournament, seats: &[Option<Tenant>])
    requires { AreReached reached.old seats.now }
    ensures { AreReached reached.new seats.now }
{
    for _noted in 0..seats.len() / NOTE + 1 {
        let Some(f) = reached.winner() else {
            return;
        };
        let age = leaving_age(seats[f]);
        if reached.key(f) == age {
            return;
        }
        reached.set(f, age);
    }
}

/// Of the frames that may give up their page the one of least age, then least number. None exactly where none may. It is
/// at hand unless the frame of which the least age is known was used since; then it is looked for among all.
pub(crate) fn first_to_go(reached: &Tournament, seats: &[Option<Tenant>]) -> Option<FrameId>
    requires small { length seats.now < 2 ^ 32 }
    requires reached { AreReached reached.now seats.now }
    ensures { GoesFirst seats.now result }
{
    let Some(f) = reached.winner() else {
        return None;
    };
    if reached.key(f) == leaving_age(seats[f]) {
        return Some(FrameId(f as u32));
    }
    oldest_leaver(seats)
}
