// The fork whose programs are run.
ghost use Rattle.std.specs.Prelude.{◌≡◌, ◌<◌, true, false};

use machine_names::{ForkName, Tty};
use page_contracts::{Pages, Room};
use plain_pages::NewMap;

pub const TOP: ForkName = ForkName {
    tty: Tty(3),
    serial: 7,
};

/// Adds the fork with an empty map, on pages that are never away.
pub fn add_top<P: Pages>(pages: &mut P)
    requires flat { P.means.flat ≡ true }
    requires room { P.means.count pages.old < P.means.most pages.old }
    requires absent { P.means.lives pages.old TOP ≡ false }
    requires few { P.means.forks_of pages.old TOP.tty < P.means.most_forks }
    ensures lives { P.means.lives pages.new TOP ≡ true }
    ensures serials { P.means.serial pages.new ≡ P.means.serial pages.old }
{
    match pages.room(1) {
        Room::Enough => pages.add_fork(TOP, NewMap::Empty),
        _ => unreachable!(),
    }
}
