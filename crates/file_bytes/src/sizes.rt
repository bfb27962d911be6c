// How many bytes files have, and how many pages.
ghost use Rattle.std.specs.Prelude.{◌≡◌, ◌<◌, ◌≤◌, ◌^◌, length};
ghost use Rattle.machine_names.specs.declared.names.TheConstants.{FILE_PAGES as PAGES, MOST_FILES};
ghost use Rattle.page_contracts.specs.DrumWords.{DrumWords};
ghost use Rattle.plain_pages.specs.FilePages.{names_of_file};
ghost use Rattle.plain_files.specs.Bytes.{IsByteSize, most_bytes};
ghost use Rattle.plain_files.specs.Sizes.{FitsFile, length_in as length_in_of};
ghost use Rattle.file_bytes.specs.Asking.{IsUsable, file_kept};

use file_tables::FileTables;
use machine_names::{FILE_PAGES, FileNo};
use page_contracts::Pages;
use plain_files::{Jfn, LARGEST_BYTE};

// How many bytes of a size a file has that has so many of its own size: those in the words that its own touch.
fn length_in(size: u8, length: u64, own: u8) -> u64
    requires size { IsByteSize size }
    requires fits { FitsFile (record { length = length; size = own }) }
    ensures length { result ≡ length_in_of size (record { length = length; size = own }) }
    ensures room { result ≤ most_bytes size }
{
    if size == own {
        return length;
    }
    let per_word = u64::from(LARGEST_BYTE / own);
    (length + per_word - 1) / per_word * u64::from(LARGEST_BYTE / size)
}

/// How many bytes the file of a JFN has, in its own size.
pub fn length_of(jfn: Jfn, tables: &FileTables) -> u64
    requires { IsUsable tables.now jfn }
    ensures length { result ≡ (file_kept tables.now jfn).length }
    ensures word { result < 2 ^ 36 }
{
    tables.length(jfn.file)
}

/// How many bytes it has of the size that the JFN reads and writes.
pub fn end_of(jfn: Jfn, tables: &FileTables) -> u64
    requires { IsUsable tables.now jfn }
    ensures end { result ≡ length_in_of jfn.size (file_kept tables.now jfn) }
    ensures room { result ≤ most_bytes jfn.size }
{
    length_in(jfn.size, tables.length(jfn.file), tables.size(jfn.file))
}

/// How many pages a file has.
pub fn count_of<P: Pages>(file: FileNo, pages: &P) -> u32
    requires { file.0 < MOST_FILES }
    ensures count { (d : DrumWords) → P.means.fits pages.now d → result ≡ length (names_of_file (P.means.plain pages.now d) file.0) }
    ensures small { result ≤ PAGES }
{
    let mut count = 0;
    for page in 0..FILE_PAGES {
        if pages.page_of(file, page as u16).is_some() {
            count += 1;
        }
    }
    count
}
