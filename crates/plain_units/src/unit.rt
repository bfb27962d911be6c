// What one unit of a fork refers to and stores.
use machine_names::Kind;
use word36::Word;

/// How many references a unit has at most (its fetch, XCTs, indirect words, operands and byte pointers).
pub const MOST_REFERENCES: u8 = 16;

/// An address at which a unit takes or stores a word. An operand that is read and written is one
/// reference, of the kind Write.
#[derive(Clone, Copy, PartialEq, Eq)]
pub struct Reference {
    pub address: u32,
    pub kind: Kind,
}

impl Default for Reference {
    /// Accumulator 0, read.
    fn default() -> Reference {
        Reference {
            address: 0,
            kind: Kind::Read,
        }
    }
}

/// A word that a unit stores at an address.
#[derive(Clone, Copy, PartialEq, Eq)]
pub struct Put {
    pub at: u32,
    pub word: Word,
}
