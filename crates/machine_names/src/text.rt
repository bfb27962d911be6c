// Texts of fixed room.
ghost use Rattle.std.specs.Prelude.{◌≡◌, ◌≤◌, length};

use std::marker::Model;

/// A text of at most N bytes, which clauses see as the list of its bytes.
#[derive(Clone, Copy, PartialEq, Eq)]
pub struct Text<const N: usize> {
    bytes: [u8; N],
    count: usize,
}

impl<const N: usize> Model for Text<N> {
    ghost use Rattle.std.specs.Prelude.{List, ℕ, ◌≡◌, ◌≤◌, ◌-◌, length, take, drop, ◌++◌, replicate};
    ghost use Rattle.machine_names.specs.FixedText.{padded_take};

    ghost Value = { List ℕ };

    ghost view = { λ t. take t.count t.bytes };

    ghost invariant = { λ t. (length t.bytes ≡ N) × (t.count ≤ N) × (drop t.count t.bytes ≡ replicate (N - t.count) 0) };

    ghost inverse = { λ xs. record { bytes = xs ++ replicate (N - length xs) 0; count = length xs } };

    ghost inverse_ok = { λ t h. padded_take N t h };
}

impl<const N: usize> Text<N> {
    /// The text of these bytes.
    pub fn new(text: &[u8]) -> Self
        requires { length text.now ≤ N }
        ensures { result ≡ text.now }
    {
        let mut bytes = [0; N];
        bytes[..text.len()].copy_from_slice(text);
        Text {
            bytes,
            count: text.len(),
        }
    }

    /// The bytes of the text.
    pub fn as_slice(&self) -> &[u8]
        ensures { result.now ≡ self.now }
    {
        &self.bytes[..self.count]
    }
}

/// The name of a user and of the user's directory: 1 to 12 of the characters A-Z, 0-9 and -.
pub type DirName = Text<12>;

/// The full name of a file, `<DIR>NAME.EXT`, of at most 39 characters.
pub type FileName = Text<39>;

/// What a line of the script types: 1 to 100 characters, each below 128.
pub type TypedText = Text<100>;
