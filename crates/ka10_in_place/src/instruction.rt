// An instruction whose address is known.
ghost use Rattle.std.specs.Prelude.{◌<◌};
ghost use Rattle.machine_names.specs.Bounds.{IsAddress};

use ka10_spots::Lead;
use word36::Word;

/// The accumulator of an instruction, its effective address, the last word taken for that, and how it was come by.
#[derive(Clone, Copy)]
pub struct Instruction {
    /// Below 16.
    pub ac: u8,
    /// Below 2^18.
    pub e: u32,
    pub last: Word,
    pub lead: Lead,
    ghost accumulator: { ac < 16 },
    ghost address: { IsAddress e },
}
