// Where an address of a fork's space stands.
ghost use Rattle.std.specs.Prelude.{◌≡◌, ◌<◌, ◌%◌};
ghost use Rattle.outside.specs.declared.TheConstants.{PAGE_WORDS};
ghost use Rattle.machine_names.specs.Bounds.{IsAddress};
ghost use Rattle.plain_pages.specs.References.{slot_at as slot_of};

use machine_names::{ForkName, PAGE_ADDRESSES, SPACE_PAGES, Slot};

/// The slot of an address.
#[inline]
pub fn slot_at(fork: ForkName, address: u32) -> Slot
    requires { IsAddress address }
    ensures slot { result ≡ slot_of fork address }
    ensures page { result.page < SPACE_PAGES }
{
    Slot {
        fork,
        page: (address / PAGE_ADDRESSES) as u16,
    }
}

/// The offset of an address in its page.
#[inline]
pub fn offset_in_page(address: u32) -> u16
    ensures offset { result ≡ address % PAGE_WORDS }
    ensures within { result < PAGE_WORDS }
{
    (address % PAGE_ADDRESSES) as u16
}
