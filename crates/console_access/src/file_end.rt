// How far files reach.
ghost use Rattle.std.specs.Prelude.{◌≡◌, ◌≤◌, ◌*◌};
ghost use Rattle.std.specs.Option.{IsSomeAnd};
ghost use Rattle.std.specs.FinMap as map;
ghost use Rattle.outside.specs.declared.TheConstants.{PAGE_WORDS};
ghost use Rattle.machine_names.specs.declared.names.TheConstants.{FILE_PAGES};
ghost use Rattle.plain_files.specs.declared.bounds.TheConstants.{LARGEST_BYTE as WORD_SIZE};
ghost use Rattle.plain_files.specs.Bytes.{most_bytes};
ghost use Rattle.plain_files.specs.NamedFiles.{name_of};
ghost use Rattle.plain_files.specs.Sizes.{FitsFile, PlainFile, length_in, reaching};
ghost use Rattle.file_tables.specs.Tables.{IsThere, OpenStay, file_of, files_of};

use file_tables::FileTables;
use machine_names::FileNo;
use plain_files::LARGEST_BYTE;

// How many words a file has that is this many bytes long, of so many bits.
fn words_of(length: u64, size: u8) -> u64
    requires fits { FitsFile (record { length = length; size = size }) }
    ensures words { result ≡ length_in WORD_SIZE (record { length = length; size = size }) }
    ensures room { result ≤ FILE_PAGES * PAGE_WORDS }
{
    if size == LARGEST_BYTE {
        return length;
    }
    let per_word = u64::from(LARGEST_BYTE / size);
    (length + per_word - 1) / per_word
}

/// A file, which is there, reaches to this word of it at least; its bytes are words from now on.
pub fn reach(files: &mut FileTables, file: FileNo, end: u64)
    requires there { IsThere files.old file.0 }
    requires room { end ≤ FILE_PAGES * PAGE_WORDS }
    ensures files { IsSomeAnd (file_of files.old file.0) (λ f. files_of files.new
        ≡ map.insert (files_of files.old) (name_of files.old.dir file.0) (reaching WORD_SIZE end f)) }
    ensures numbers { files.new.dir ≡ files.old.dir }
    ensures jfns { OpenStay files.old files.new }
{
    let words = words_of(files.length(file), files.size(file));
    files.set_length(file, if words <= end { end } else { words }, LARGEST_BYTE);
}
