// The files that texts name.
ghost use Rattle.std.specs.Prelude.{◌≡◌, ◌+◌, ◌<◌, ◌++◌, ◌↔◌, ℕ, List, length, MatchOption, Some, true};
ghost use Rattle.machine_names.specs.Bounds.{IsFileName};
ghost use Rattle.machine_names.specs.FileNames.{directory_before, extension_behind, file_named, full_name as full_name_of, has_directory as opens, has_point as is_pointed, is_file_name, raised};

use crate::names::{MOST_FILE, file_name};
use arrayvec::ArrayVec;
use machine_names::{DirName, FileName};

// A full name, as far as it is put together.
type NameRoom = ArrayVec<u8, MOST_FILE>;

/// The file that a text names for a user: small letters count as capitals, a name without a directory
/// is one in the user's directory, and a name without a point has the given extension. None exactly
/// where the full name that this gives is none.
pub fn read_name(text: &[u8], extension: &[u8], user: &DirName) -> Option<FileName>
    ensures { result ≡ file_named user.now extension.now text.now }
{
    let full = full_name(text, extension, user)?;
    file_name(full.as_slice())
}

/// A text is the full name of a file exactly where the test says so, and what a text names is such a
/// name.
pub fn full_names()
    ensures test { (text : List ℕ) → (is_file_name text ≡ true) ↔ IsFileName text }
    ensures named { (user : List ℕ) (extension : List ℕ) (text : List ℕ) (name : List ℕ) → file_named user extension text ≡ Some name → IsFileName name }
{}

// The full name that a text stands for. None exactly where it has too many characters.
fn full_name(text: &[u8], extension: &[u8], user: &DirName) -> Option<NameRoom>
    ensures { MatchOption result (MOST_FILE < length (full_name_of user.now extension.now text.now)) (λ full. full.items ≡ full_name_of user.now extension.now text.now) }
{
    let mut full = NameRoom::new();
    add_directory(&mut full, text, user)?;
    add_raised(&mut full, text)?;
    add_extension(&mut full, text, extension)?;
    Some(full)
}

// Puts the user's directory behind what is there, where the text has none.
fn add_directory(full: &mut NameRoom, text: &[u8], user: &DirName) -> Option<()>
    ensures { MatchOption result (MOST_FILE < length full.old.items + length (directory_before user.now text.now)) (λ _. full.new.items ≡ full.old.items ++ directory_before user.now text.now) }
{
    if has_directory(text) {
        return Some(());
    }
    full.try_push(b'<').ok()?;
    full.try_extend_from_slice(user.as_slice()).ok()?;
    full.try_push(b'>').ok()
}

// Puts a text behind what is there, its small letters raised.
fn add_raised(full: &mut NameRoom, text: &[u8]) -> Option<()>
    ensures { MatchOption result (MOST_FILE < length full.old.items + length text.now) (λ _. full.new.items ≡ full.old.items ++ raised text.now) }
{
    for c in text {
        full.try_push(c.to_ascii_uppercase()).ok()?;
    }
    Some(())
}

// Puts a point and an extension behind what is there, where the text has no point.
fn add_extension(full: &mut NameRoom, text: &[u8], extension: &[u8]) -> Option<()>
    ensures { MatchOption result (MOST_FILE < length full.old.items + length (extension_behind extension.now text.now)) (λ _. full.new.items ≡ full.old.items ++ extension_behind extension.now text.now) }
{
    if has_point(text) {
        return Some(());
    }
    full.try_push(b'.').ok()?;
    full.try_extend_from_slice(extension).ok()
}

// Whether a name has a directory.
fn has_directory(text: &[u8]) -> bool
    ensures { result ≡ opens text.now }
{
    matches!(text, [b'<', ..])
}

// Whether a name has an extension, if only an empty one.
fn has_point(text: &[u8]) -> bool
    ensures { result ≡ is_pointed text.now }
{
    text.contains(&b'.')
}
