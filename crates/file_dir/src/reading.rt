// Names of files as they are typed, and fronts of full names.
ghost use Rattle.std.specs.Prelude.{◌≡◌, ◌<◌, [], length, IfSome, MatchOption};
ghost use Rattle.machine_names.specs.Bounds.{IsFileName};
ghost use Rattle.std.specs.List.{flat_map};
ghost use Rattle.machine_names.specs.FileNames.{file_named};

use arrayvec::ArrayVec;
use machine_names::{DirName, FileName};
use script_lang::MOST_FILE;

// A text no longer than the full name of a file.
type NameText = ArrayVec<u8, MOST_FILE>;

/// The full name of the file that a text names. Small letters are raised; a name without a directory
/// is in the user's, and one without a point has no extension. None exactly where the full form that
/// this gives is no name, as where it has more than 39 characters.
pub fn read_name(text: &[u8], user: &DirName) -> Option<FileName>
    ensures named { result ≡ file_named user.now [] text.now }
    ensures name { IfSome result (λ name. IsFileName name) }
{
    script_lang::read_name(text, b"", user)
}

/// These pieces, one behind the other. None exactly where they are longer together than the full
/// name of a file.
pub(crate) fn joined(pieces: &[&[u8]]) -> Option<NameText>
    ensures { MatchOption result (MOST_FILE < length (flat_map (λ p. p.now) pieces.now))
        (λ text. text.items ≡ flat_map (λ p. p.now) pieces.now) }
{
    let mut text = NameText::new();
    for piece in pieces {
        text.try_extend_from_slice(piece).ok()?;
    }
    Some(text)
}
