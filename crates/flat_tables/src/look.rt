// What is kept beside an entry, so that few steps tell whether its page may be used.
ghost use Rattle.std.specs.Prelude.{◌≡◌, ◌<◌};
ghost use Rattle.flat_tables.specs.Looks.{uses_of, look_of, use_number};

use crate::chain_walk::Use;
use crate::held_entry::HeldEntry;
use machine_names::{Access, MOST_FORKS};

/// In how many ways a page is used.
pub const USES: usize = 4;

/// What a look at an entry goes by, use by use. Where it is ready, the number is that of the home of the
/// page that the entry names, and the entry lets the page be used so. Where it passes, the entry follows
/// that of a page in a map of the same terminal, if the fork there has the number for its serial.
#[derive(Clone, Copy)]
pub struct Look {
    pub ready: [bool; USES],
    pub passes: [bool; USES],
    pub number: u32,
    pub page: u16,
    pub map: u16,
}

const NO_USES: [bool; USES] = [false; USES];

/// Of an entry that names no page and is followed no further.
pub const NO_LOOK: Look = Look {
    ready: NO_USES,
    passes: NO_USES,
    number: 0,
    page: 0,
    map: 0,
};

impl Use {
    /// Which of the uses it is.
    #[inline(always)]
    pub fn number(self) -> usize
        ensures value { result ≡ use_number self }
        ensures below { result < USES }
    {
        match self {
            Use::Read => 0,
            Use::Write => 1,
            Use::Execute => 2,
            Use::Change => 3,
        }
    }
}

// Which uses an access lets.
fn uses_of(access: Access) -> [bool; USES]
    ensures { result ≡ uses_of access }
{
    [
        Use::Read.is_let(access),
        Use::Write.is_let(access),
        Use::Execute.is_let(access),
        Use::Change.is_let(access),
    ]
}

/// What is kept beside an entry of the map with a number.
pub fn look_of(map: u32, entry: HeldEntry) -> Look
    ensures { result ≡ look_of map entry }
{
    match entry {
        HeldEntry::Empty => NO_LOOK,
        HeldEntry::Page(home, access) => Look {
            ready: uses_of(access),
            number: home.0,
            ..NO_LOOK
        },
        HeldEntry::Follows(link, access) => {
            let is_near = u32::from(link.map) / MOST_FORKS as u32 == map / MOST_FORKS as u32;
            Look {
                ready: NO_USES,
                passes: if is_near { uses_of(access) } else { NO_USES },
                number: link.serial,
                page: link.page,
                map: link.map,
            }
        }
    }
}
