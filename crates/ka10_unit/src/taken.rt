// What a unit has taken so far.
ghost use Rattle.std.specs.Prelude.{◌*◌, ◌^◌, ◌≤◌, length};
ghost use Rattle.ka10_unit.specs.Gathers.{IsOf, IsPutBelow, put_below_prop, weight};

use arrayvec::ArrayVec;
use machine_names::{ForkName, Tty};
use page_contracts::Need;
use page_gather::Gather;
use plain_units::{Put, Reference, channel};

/// Why a unit stops before its end.
#[derive(Clone, Copy)]
pub enum Stop {
    /// It traps, with this channel.
    Trap(u8),
    /// A map or a page that it refers to is in no frame, or the pages that it makes find none.
    Need(Need),
}

impl Stop {
    /// An illegal instruction, or more references than a unit may have.
    pub const ILLEGAL: Stop = Stop::Trap(channel::ILLEGAL_INSTRUCTION);
}

/// What a unit of a fork has taken so far: its references, what they come to, and the word that it
/// has stored for its later references to see.
#[derive(Drop)]
pub struct Taken {
    pub fork: ForkName,
    pub gather: Gather,
    pub refs: ArrayVec<Reference, 16>,
    pub kept: Option<Put>,
    pub ghost own: { IsOf fork gather },
    pub ghost below: { IsPutBelow (2 ^ 18) kept } by { put_below_prop (2 ^ 18) kept },
    pub ghost references: { length refs.items ≤ 16 },
    pub ghost few: { weight gather ≤ 2 * length refs.items },
}

impl Taken {
    ghost use Rattle.std.specs.Prelude.{◌≡◌, ◌<◌, [], None};
    ghost use Rattle.machine_names.specs.declared.names.TheConstants.{TERMINALS};
    ghost use Rattle.plain_pages.specs.PlainPages.{NumberedPages};
    ghost use Rattle.page_contracts.specs.Pages.{Scene};
    ghost use Rattle.page_gather.specs.Gathering.{AreSound, Gathers};

    /// Nothing is taken, for no fork.
    pub fn new() -> Taken
        ensures gather { result.gather.references ≡ [] }
        ensures unmade { result.gather.homes ≡ 0 }
        ensures refs { result.refs.items ≡ [] }
        ensures kept { result.kept ≡ None }
    {
        Taken {
            fork: ForkName {
                tty: Tty::CONSOLE,
                serial: 0,
            },
            gather: Gather::new(Tty::CONSOLE),
            refs: ArrayVec::new(),
            kept: None,
        }
    }

    /// Nothing is taken again, for a unit of this fork.
    pub fn restart(&mut self, fork: ForkName)
        requires { fork.tty.0 < TERMINALS }
        ensures fork { self.new.fork ≡ fork }
        ensures gather { self.new.gather.references ≡ [] }
        ensures unmade { self.new.gather.homes ≡ 0 }
        ensures refs { self.new.refs.items ≡ [] }
        ensures kept { self.new.kept ≡ None }
        ensures told { (p : NumberedPages) (scene : Scene) → AreSound p scene → Gathers p scene self.new.gather }
    {
        self.fork = fork;
        self.gather.restart(fork.tty);
        self.refs.clear();
        self.kept = None;
    }
}
