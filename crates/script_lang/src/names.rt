// The names of users and of files.
ghost use Rattle.std.specs.Prelude.{◌≡◌, ◌↔◌, IsTrue, All, MatchOption};
ghost use Rattle.machine_names.specs.Bounds.{IsDirName, IsFileName, IsNameCode, is_name_code as of_names};
ghost use Rattle.script_lang.specs.Fields.{AreParts};

use crate::fields::cut;
use machine_names::{DirName, FileName};

/// How many characters the name of a user has at most.
pub(crate) const MOST_USER: usize = 12;

/// How many characters the full name of a file has at most.
pub const MOST_FILE: usize = 39;

/// The name of a user: 1 to MOST_USER of the characters A-Z, 0-9 and -. None exactly where the text is
/// none.
pub(crate) fn dir_name(text: &[u8]) -> Option<DirName>
    ensures { MatchOption result (IsDirName text.now → ⊥) (λ name. (name ≡ text.now) × IsDirName text.now) }
{
    if !is_dir_name(text) {
        return None;
    }
    Some(DirName::new(text))
}

/// The full name of a file, `<DIR>NAME.EXT`, of at most MOST_FILE characters. None exactly where the text
/// is none.
pub(crate) fn file_name(text: &[u8]) -> Option<FileName>
    ensures { MatchOption result (IsFileName text.now → ⊥) (λ name. (name ≡ text.now) × IsFileName text.now) }
{
    if text.len() > MOST_FILE {
        return None;
    }
    let (dir, file) = cut(text.strip_prefix(b"<")?, b'>')?;
    let (stem, extension) = cut(file, b'.')?;
    if !are_parts(dir, stem, extension) {
        return None;
    }
    Some(FileName::new(text))
}

// Whether these are the parts of a file's name.
fn are_parts(dir: &[u8], stem: &[u8], extension: &[u8]) -> bool
    ensures { IsTrue result ↔ AreParts dir.now stem.now extension.now }
{
    is_dir_name(dir) && !stem.is_empty() && are_name_codes(stem) && are_name_codes(extension)
}

// Whether a text is the name of a user or a directory.
fn is_dir_name(text: &[u8]) -> bool
    ensures { IsTrue result ↔ IsDirName text.now }
{
    !text.is_empty() && text.len() <= MOST_USER && are_name_codes(text)
}

// Whether each byte is a character of a name.
fn are_name_codes(text: &[u8]) -> bool
    ensures { IsTrue result ↔ All IsNameCode text.now }
{
    text.iter().all(|c| is_name_code(*c))
}

// Whether a byte is a character of a name.
fn is_name_code(c: u8) -> bool
    ensures { result ≡ of_names c }
{
    matches!(c, b'A'..=b'Z' | b'0'..=b'9' | b'-')
}
