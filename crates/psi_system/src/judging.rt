// The channels that can be taken, by the words that tell their levels.
ghost use Rattle.std.specs.Prelude.{◌≡◌, ◌≤◌, ◌<◌, ◌^◌, Option};
ghost use Rattle.plain_model.specs.Inspections.{better as better_of, goes_before as goes_before_of, judged as judged_of};
ghost use Rattle.plain_model.specs.Readings.{Reading};
ghost use Rattle.plain_model.specs.declared.interrupt.Found.{Found as AFound};
ghost use Rattle.plain_model.specs.declared.interrupt.Inspected.{Inspected};
ghost use Rattle.psi_system.specs.Judgements.{FitsBest, FitsJudged, behind};

use fork_tree::is_panic;
use plain_model::Psi;
use plain_model::interrupt::{CHANNELS, Found, LEVELS};
use word36::Word;

/// What a look at channels has come to so far.
#[derive(Clone, Copy)]
pub enum Judged {
    /// The best of the channels that can be taken, if one can.
    Best(Option<Found>),
    /// The fork is forced by a channel.
    Forces(u8),
}

// Whether a level, 1 to 3, is less than each in progress.
fn goes_before(level: u8, psi: &Psi) -> bool
    requires { level ≤ LEVELS }
    ensures { result ≡ goes_before_of level psi.now }
{
    !psi.levels[..level as usize].iter().any(|on| *on)
}

// The better of two channels that can be taken: that of less level, and of equal levels the one that was found first.
fn better(new: Found, old: Option<Found>) -> Found
    ensures { result ≡ better_of new old }
{
    match old {
        Some(best) => { if new.level < best.level { new } else { best } }
        None => new,
    }
}

/// What the word of a channel, 0 to 35, tells: its level on the left, and the address to which the fork goes on the right. A level
/// that is none of 1 to 3 forces the fork, and so does a panic channel whose level doesn't go before those in progress; else the
/// channel is the best so far, or another is, or still none.
pub fn judge(psi: &Psi, channel: u8, word: Word, best: Option<Found>) -> Judged
    requires channel { channel < CHANNELS }
    requires best { FitsBest best }
    ensures is { (next : Option AFound → Reading Inspected) → judged_of psi.now channel word best next ≡ behind next result }
    ensures fits { FitsJudged result }
{
    let level = word.left();
    if level < 1 || level > u32::from(LEVELS) {
        return Judged::Forces(channel);
    }
    let level = level as u8;
    if goes_before(level, psi) {
        let found = Found {
            channel,
            level,
            to: word.right(),
        };
        return Judged::Best(Some(better(found, best)));
    }
    if is_panic(channel) {
        Judged::Forces(channel)
    } else {
        Judged::Best(best)
    }
}
