// The next page serial of each owner.
ghost use Rattle.std.specs.Prelude.{◌≡◌, ◌<◌, ◌^◌};
ghost use Rattle.machine_names.specs.Bounds.{IsOwner};
ghost use Rattle.plain_pages.specs.PlainPages.{first_serials};
ghost use Rattle.flat_tables.specs.Serials.{serial_of, with_next};

use machine_names::{TERMINALS, Tty};

/// The next page serial of each terminal, and of the console.
#[derive(Drop)]
pub struct PageSerials {
    pub terminals: [u64; TERMINALS as usize],
    pub console: u64,
}

impl PageSerials {
    /// Each owner's first serial is 1.
    pub fn first() -> Self
        ensures terminals { result.terminals ≡ first_serials }
        ensures console { result.console ≡ 1 }
    {
        PageSerials {
            terminals: [1; TERMINALS as usize],
            console: 1,
        }
    }

    /// Gives an owner's next serial, and goes on to the one after it.
    pub fn take(&mut self, owner: Tty) -> u64
        requires owner { IsOwner owner }
        requires serial { serial_of self.old owner < 2 ^ 63 }
        ensures serial { result ≡ serial_of self.old owner }
        ensures taken { self.new ≡ with_next self.old owner }
    {
        if owner.0 == Tty::CONSOLE.0 {
            let serial = self.console;
            self.console = serial + 1;
            return serial;
        }
        let serial = self.terminals[owner.0 as usize];
        self.terminals[owner.0 as usize] = serial + 1;
        serial
    }
}
