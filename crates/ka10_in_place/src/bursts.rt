// Units of one fork in a row, in place.
ghost use Rattle.std.specs.Prelude.{◌<◌, ◌^◌};
ghost use Rattle.page_contracts.specs.Pages.{HasSpace};
ghost use Rattle.ka10_in_place.specs.Bursts.{InRow};

use crate::ending::{Burst, BurstEnd, Quick};
use crate::fetch_page::FetchPage;
use crate::in_place::quick;
use page_contracts::{Pages, SpaceHandle};
use plain_units::Regs;

/// Does units in place, one behind another, up to so many, on the registers and pages of a fork
/// whose space this is. It ends with a unit that posts, which isn't counted, and before one that
/// isn't done in place.
#[inline(never)]
pub fn burst<P: Pages>(regs: &mut Regs, pages: &mut P, space: SpaceHandle, most: u32) -> Burst
    requires space { HasSpace P.means pages.old space }
    requires pc { regs.old.pc < 2 ^ 18 }
    ensures { InRow P.means space most pages.old pages.new regs.old regs.new result }
{
    let mut kept = FetchPage::NONE;
    // The units are counted down, and there is one way out: so a unit takes fewer machine instructions.
    let mut left = most;
    let mut end = BurstEnd::Most;
    while left != 0 {
        match quick(regs, pages, space, &mut kept) {
            Quick::Done => {}
            Quick::Overflow => {
                end = BurstEnd::Overflow;
                break;
            }
            Quick::Pushdown => {
                end = BurstEnd::Pushdown;
                break;
            }
            Quick::Slow => {
                end = BurstEnd::Slow;
                break;
            }
        }
        left -= 1;
    }
    Burst {
        units: most - left,
        end,
    }
}
