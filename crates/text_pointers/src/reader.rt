// What a reading has referred to.
ghost use Rattle.ka10_unit.specs.Gathers.{IsOf};

use ka10_unit::Taken;
use machine_names::{ForkName, Tty};
use page_gather::Gather;

/// What a reading in the space of a fork refers to: the words of its pointer's address, and the
/// pages of its bytes, each page once in a row.
#[derive(Drop)]
pub struct Reader {
    pub fork: ForkName,
    pub gather: Gather,
    /// The page of the last word that was read in one, unless a word was to be written since.
    pub page: Option<u16>,
    ghost own: { IsOf fork gather },
}

impl Reader {
    ghost use Rattle.std.specs.Prelude.{◌≡◌, ◌<◌, [], None};
    ghost use Rattle.machine_names.specs.declared.names.TheConstants.{TERMINALS};
    ghost use Rattle.page_contracts.specs.Pages.{Scene};
    ghost use Rattle.page_gather.specs.Gathering.{AreSound, Gathers};
    ghost use Rattle.plain_pages.specs.PlainPages.{NumberedPages};

    /// Refers to nothing yet, for no fork.
    pub fn new() -> Reader
        ensures none { result.gather.references ≡ [] }
        ensures unmade { result.gather.homes ≡ 0 }
        ensures page { result.page ≡ None }
    {
        Reader {
            fork: ForkName {
                tty: Tty::CONSOLE,
                serial: 0,
            },
            gather: Gather::new(Tty::CONSOLE),
            page: None,
        }
    }

    /// Refers to nothing again, in the space of this fork.
    pub fn restart(&mut self, fork: ForkName)
        requires { fork.tty.0 < TERMINALS }
        ensures fork { self.new.fork ≡ fork }
        ensures none { self.new.gather.references ≡ [] }
        ensures unmade { self.new.gather.homes ≡ 0 }
        ensures page { self.new.page ≡ None }
        ensures told { (p : NumberedPages) (scene : Scene) → AreSound p scene → Gathers p scene self.new.gather }
    {
        self.fork = fork;
        self.gather.restart(fork.tty);
        self.page = None;
    }

    /// Goes on behind the references of an address, which stay with who took it.
    pub fn go_behind(&mut self, taken: &Taken)
        ensures fork { self.new.fork ≡ taken.now.fork }
        ensures gather { self.new.gather ≡ taken.now.gather }
        ensures page { self.new.page ≡ None }
    {
        self.fork = taken.fork;
        self.gather.copy_from(&taken.gather);
        self.page = None;
    }

    /// Goes on behind the references of an address.
    pub fn behind(taken: Taken) -> Reader
        ensures fork { result.fork ≡ taken.fork }
        ensures gather { result.gather ≡ taken.gather }
        ensures page { result.page ≡ None }
    {
        Reader {
            fork: taken.fork,
            gather: taken.gather,
            page: None,
        }
    }
}
