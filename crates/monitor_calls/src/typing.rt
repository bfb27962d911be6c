// What is typed at the terminals.
ghost use Rattle.std.specs.Prelude.{◌≡◌, IfOk};
ghost use Rattle.machine_names.specs.declared.names.TheConstants.{TERMINALS as ALL};
ghost use Rattle.monitor_calls.specs.Typings.{new_typing, nothing_typed};

use arrayvec::ArrayVec;
use machine_names::TERMINALS;
use outside::Memory;
use plain_typing::MOST_STORED;
use std::alloc::Global;
use tty_lines::Line;

/// What was typed at a terminal and is still to be read.
#[derive(Drop)]
pub struct Typing {
    /// The command line that is not ended yet.
    pub line: ArrayVec<u8, MOST_STORED>,
    /// The characters that are stored for the job's forks, and the codes that they have assigned.
    pub input: Line,
}

impl Typing {
    /// Nothing was typed, and no code is assigned.
    pub fn boot(alloc: Global) -> Result<Typing, Memory>
        ensures { IfOk result (λ typing. typing ≡ new_typing) }
    {
        Ok(Typing {
            line: ArrayVec::new(),
            input: Line::boot(alloc)?,
        })
    }

    /// All is as at the boot.
    pub fn clear(&mut self)
        ensures { self.new ≡ new_typing }
    {
        self.line.clear();
        self.input.clear();
    }
}

/// Nothing was typed at any terminal.
pub fn empty_typings(alloc: Global) -> Result<Vec<Typing>, Memory>
    ensures { IfOk result (λ typed. typed.items ≡ nothing_typed ALL) }
{
    let mut typed = Vec::new(alloc);
    for _terminal in 0..TERMINALS {
        if typed.push(Typing::boot(alloc)?).is_err() {
            return Err(Memory);
        }
    }
    Ok(typed)
}
