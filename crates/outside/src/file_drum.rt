// A drum in a file. It tells no content.
ghost use Rattle.std.specs.Prelude.{◌≡◌, ◌*◌, ◌<◌, ◌≤◌, ◌↔◌, ℕ, List, None, flat_map, IsOk, IsSome, OnOk, OnErr};
ghost use Rattle.std.specs.Option.{option_copied};
ghost use Rattle.byteorder.specs.Endian.{IsRead, big_bytes, big_number};
ghost use Rattle.outside.specs.Drums.{AreWords, IsPage};
ghost use Rattle.outside.specs.Faults.{CountsUp, FailsCounted};
ghost use Rattle.outside.specs.ToldPages.{none_told};

use crate::{Drum, Failed, MOST_DRUM_PAGES, PAGE_WORDS};
use byteorder::{BigEndian, ByteOrder};
use std::fs::File;
use std::io::{Error, ErrorKind, Read, Seek, SeekFrom, Write};
use word36::Word;

/// How many bytes of a file hold a word of a drum.
pub const WORD_BYTES: usize = 8;

// How many bytes of a file hold a page.
const PAGE_BYTES: usize = PAGE_WORDS * WORD_BYTES;

/// A file as a drum of MOST_DRUM_PAGES pages, one behind the other. A page is its words in order, a word is
/// eight bytes, the highest first.
#[derive(Drop)]
pub struct FileDrum {
    file: File,
    reads: u64,
    writes: u64,
    faults: u64,
    error: Option<Error>,
}

impl FileDrum {
    /// The drum that stands in a file, which was made anew and is open for reading and writing. The file
    /// gets its whole size here, so that a page reads as zeros until it is written; where it doesn't get
    /// that size, this is the drum's first fault.
    pub fn new(file: File) -> Self
        ensures faults { result.faults ≤ 1 }
        ensures error { IsSome result.error ↔ (result.faults ≡ 1) }
        ensures reads { result.reads ≡ 0 }
        ensures writes { result.writes ≡ 0 }
        ensures file { result.file ≡ file }
    {
        let error = file.set_len(place_of(MOST_DRUM_PAGES)).err();
        FileDrum {
            file,
            reads: 0,
            writes: 0,
            faults: u64::from(error.is_some()),
            error,
        }
    }

    /// The file's error at the last fault. None exactly where there was no fault.
    pub fn error(&self) -> Option<&Error>
        ensures { option_copied result ≡ self.now.error }
    {
        self.error.as_ref()
    }

    // A fault is counted, and its error kept.
    fn fail(&mut self, error: Error) -> Failed
        ensures later { self.old.faults ≤ self.new.faults }
        ensures faults { CountsUp self.old.faults self.new.faults }
        ensures error { IsSome self.new.error }
        ensures reads { self.new.reads ≡ self.old.reads }
        ensures writes { self.new.writes ≡ self.old.writes }
    {
        self.faults = self.faults.saturating_add(1);
        self.error = Some(error);
        Failed
    }
}

// Where a page begins in a file, in bytes.
fn place_of(page: u32) -> u64
    ensures { result ≡ page * PAGE_BYTES }
{
    u64::from(page) * PAGE_BYTES as u64
}

// The words that stand in these bytes. An error exactly where a number there is no word.
fn read_words(bytes: &[u8; PAGE_BYTES], words: &mut [u64; PAGE_WORDS]) -> Result<(), Error>
    ensures words { IsRead big_number WORD_BYTES bytes.now words.new }
    ensures fit { IsOk result ↔ AreWords words.new }
{
    BigEndian::read_u64_into(bytes, words);
    if words.iter().all(|word| *word <= Word::MASK) {
        Ok(())
    } else {
        Err(ErrorKind::InvalidData.into())
    }
}

// The bytes in which these words stand.
fn bytes_of(words: &[u64; PAGE_WORDS]) -> [u8; PAGE_BYTES]
    ensures { result ≡ flat_map (big_bytes WORD_BYTES) words.now }
{
    let mut bytes = [0; PAGE_BYTES];
    BigEndian::write_u64_into(words, &mut bytes);
    bytes
}

/// The words that are read from a file are those that were written there. A law does nothing when it runs.
pub fn words_come_back()
    ensures { (words : List ℕ) → AreWords words → IsRead big_number WORD_BYTES (flat_map (big_bytes WORD_BYTES) words) words }
{}

// Reads a page of a file. A file that ends within the page is an error too.
fn read_page(file: &mut File, page: u32, words: &mut [u64; PAGE_WORDS]) -> Result<(), Error>
    ensures { OnOk result (IsPage words.new) }
{
    let mut bytes = [0; PAGE_BYTES];
    file.seek(SeekFrom::Start(place_of(page)))?;
    file.read_exact(&mut bytes)?;
    read_words(&bytes, words)
}

// Writes a page of a file.
fn write_page(file: &mut File, page: u32, words: &[u64; PAGE_WORDS]) -> Result<(), Error> {
    file.seek(SeekFrom::Start(place_of(page)))?;
    file.write_all(&bytes_of(words))
}

impl Drum for FileDrum {
    ghost use Rattle.outside.specs.declared.TheConstants.{MOST_DRUM_PAGES};

    ghost fault_count = { λ s. s.faults };

    ghost read_count = { λ s. s.reads };

    ghost write_count = { λ s. s.writes };

    ghost size = { λ _. MOST_DRUM_PAGES };

    ghost held = { λ _. None };

    fn faults(&self) -> u64 {
        self.faults
    }

    fn reads(&self) -> u64 {
        self.reads
    }

    fn writes(&self) -> u64 {
        self.writes
    }

    fn pages(&self) -> u32 {
        MOST_DRUM_PAGES
    }

    // It fails exactly where the file does, or has not all words of the page.
    fn read(&mut self, page: u32, words: &mut [u64; PAGE_WORDS]) -> Result<(), Failed>
        requires { page < MOST_DRUM_PAGES }
        ensures fault { FailsCounted result self.old.faults self.new.faults self.old.error self.new.error }
        ensures page { OnOk result (IsPage words.new) }
        ensures counted { OnOk result (CountsUp self.old.reads self.new.reads) }
        ensures uncounted { OnErr result (self.new.reads ≡ self.old.reads) }
        ensures reads_later { self.old.reads ≤ self.new.reads }
        ensures writes { self.new.writes ≡ self.old.writes }
    {
        if let Err(error) = read_page(&mut self.file, page, words) {
            return Err(self.fail(error));
        }
        self.reads = self.reads.saturating_add(1);
        Ok(())
    }

    // It fails exactly where the file does.
    fn write(&mut self, page: u32, words: &[u64; PAGE_WORDS]) -> Result<(), Failed>
        requires page { page < MOST_DRUM_PAGES }
        requires words { AreWords words.now }
        ensures fault { FailsCounted result self.old.faults self.new.faults self.old.error self.new.error }
        ensures counted { OnOk result (CountsUp self.old.writes self.new.writes) }
        ensures uncounted { OnErr result (self.new.writes ≡ self.old.writes) }
        ensures writes_later { self.old.writes ≤ self.new.writes }
        ensures reads { self.new.reads ≡ self.old.reads }
    {
        if let Err(error) = write_page(&mut self.file, page, words) {
            return Err(self.fail(error));
        }
        self.writes = self.writes.saturating_add(1);
        Ok(())
    }

    ghost tells_pages = { λ s d told. none_told told };
}
