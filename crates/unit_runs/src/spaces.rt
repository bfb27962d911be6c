// The space of a fork whose programs are run: its pages, each by itself or at the end of a chain of four entries.
ghost use Rattle.std.specs.Prelude.{◌≡◌, ◌<◌, ◌+◌, true};
ghost use Rattle.page_contracts.specs.Pages.{HasSpace};

use crate::top::TOP;
use machine_names::{Access, Kind, Place, Slot, Tty};
use page_contracts::{Pages, Seen, SpaceHandle, Touch};
use plain_pages::NewEntry;

// How many pages lie between an entry and the one that it follows.
const APART: u16 = 64;

// An entry of the fork follows another of it, with every right.
fn follow<P: Pages>(pages: &mut P, page: u16)
    requires page { page < 400 }
    requires lives { P.means.lives pages.old TOP ≡ true }
    ensures lives { P.means.lives pages.new TOP ≡ true }
    ensures serials { P.means.serial pages.new ≡ P.means.serial pages.old }
{
    let slot = Slot { fork: TOP, page };
    let full = Access {
        r: true,
        w: true,
        x: true,
        c: false,
    };
    if let Seen::Is(_) = pages.entry(slot) {
        pages.set_entry(slot, NewEntry::Follows(TOP.serial, page + APART, full));
    }
}

// A page's entry follows a second, that a third, and that a fourth.
fn chain<P: Pages>(pages: &mut P, page: u16)
    requires page { page < 4 }
    requires lives { P.means.lives pages.old TOP ≡ true }
    ensures lives { P.means.lives pages.new TOP ≡ true }
    ensures serials { P.means.serial pages.new ≡ P.means.serial pages.old }
{
    follow(pages, page);
    follow(pages, page + APART);
    follow(pages, page + 2 * APART);
}

// The page is made.
fn make_page<P: Pages>(pages: &mut P, page: u16)
    requires page { page < 4 }
    requires lives { P.means.lives pages.old TOP ≡ true }
    requires serial { P.means.serial pages.old Tty.CONSOLE < 1000 }
    ensures { P.means.lives pages.new TOP ≡ true }
{
    let at = Place::Fork(Slot { fork: TOP, page });
    if let Touch::Zero = pages.touch(at, Kind::Write) {
        pages.settle(at, Kind::Write, Tty::CONSOLE);
    }
}

/// The first page of the fork's space is made, at the end of a chain of four entries or by itself.
pub fn first_page<P: Pages>(pages: &mut P, is_chained: bool)
    requires lives { P.means.lives pages.old TOP ≡ true }
    requires serial { P.means.serial pages.old Tty.CONSOLE < 900 }
    ensures { P.means.lives pages.new TOP ≡ true }
{
    if is_chained {
        chained_page(pages);
        return;
    }
    make_page(pages, 0);
}

// The first page is made at the end of its chain.
fn chained_page<P: Pages>(pages: &mut P)
    requires lives { P.means.lives pages.old TOP ≡ true }
    requires serial { P.means.serial pages.old Tty.CONSOLE < 900 }
    ensures { P.means.lives pages.new TOP ≡ true }
{
    chain(pages, 0);
    make_page(pages, 0);
}

/// The handle of the fork's space.
pub fn space_of<P: Pages>(pages: &P) -> SpaceHandle
    requires { P.means.lives pages.now TOP ≡ true }
    ensures { HasSpace P.means pages.now result }
{
    pages.space(TOP)
}
