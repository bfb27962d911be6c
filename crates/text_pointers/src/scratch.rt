// What units and readings refer to, in one place.
ghost use Rattle.std.specs.Prelude.{◌≡◌, []};

use crate::reader::Reader;
use ka10_unit::Taken;

/// What units take and readings refer to. It is large, so a machine keeps one for all of them: each begins it again, and nothing is left
/// in it for the next.
#[derive(Drop)]
pub struct Scratch {
    pub taken: Taken,
    pub reader: Reader,
}

impl Scratch {
    /// Nothing is taken or referred to.
    pub fn new() -> Scratch
        ensures taken { result.taken.gather.references ≡ [] }
        ensures reader { result.reader.gather.references ≡ [] }
    {
        Scratch {
            taken: Taken::new(),
            reader: Reader::new(),
        }
    }
}
