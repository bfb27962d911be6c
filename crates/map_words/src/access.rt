// Access in a word (JSYS Manual, RPACS).
ghost use Rattle.std.specs.Prelude.{◌≡◌, ◌≤◌, ◌+◌, ◌/◌, ◌%◌, ◌==◌, ◌&&◌, ◌||◌, not, if◌then◌else◌};
ghost use Rattle.plain_model.specs.AccessWords.{access_in as access_in_of, access_told as access_told_of, access_word, entry_word};
ghost use Rattle.plain_model.specs.MapCalls.{file_access as file_access_of};

use machine_names::{Access, PageName};
use plain_pages::MapEntry;
use word36::Word;

/// Bit 2: the page may be read.
const READ: u64 = 1 << 33;

/// Bit 3: it may be written.
const WRITE: u64 = 1 << 32;

/// Bit 4: it may be executed.
const EXECUTE: u64 = 1 << 31;

/// Bit 5: there is a page.
const PRESENT: u64 = 1 << 30;

/// Bit 6: the entry follows another.
const FOLLOWS: u64 = 1 << 29;

/// Bit 9: the page is copied before it is written.
const COPY: u64 = 1 << 26;

// A bit, where it is set.
fn bit(on: bool, value: u64) -> u64
    ensures bit { result ≡ (if on then value else 0) }
    ensures low { result ≤ value }
{
    if on { value } else { 0 }
}

// Whether a word has a bit.
fn has_bit(word: Word, value: u64) -> bool
    requires { 1 ≤ value }
    ensures { result ≡ (word / value % 2 == 1) }
{
    word.value() / value % 2 == 1
}

/// The access in a word.
#[tactic(auto, unfolding(plain_model::specs::AccessWords::access_in))]
pub fn access_in(word: Word) -> Access
    ensures { result ≡ access_in_of word }
{
    Access {
        r: has_bit(word, READ),
        w: has_bit(word, WRITE),
        x: has_bit(word, EXECUTE),
        c: has_bit(word, COPY),
    }
}

/// Whether an access needs no more than to read and to write where those are allowed: a page that is to be copied first isn't written itself.
pub fn needs_no_more(access: Access, reads: bool, writes: bool) -> bool
    ensures { result ≡ ((not (access.r || access.x || access.c) || reads) && (not (access.w && not access.c) || writes)) }
{
    if (access.r || access.x || access.c) && !reads {
        return false;
    }
    !access.w || access.c || writes
}

// The bits of an access.
#[tactic(auto, unfolding(plain_model::specs::AccessWords::access_word))]
fn access_bits(access: Access) -> u64
    ensures bits { result ≡ access_word access }
    ensures low { result ≤ READ + WRITE + EXECUTE + COPY }
{
    bit(access.r, READ) + bit(access.w, WRITE) + bit(access.x, EXECUTE) + bit(access.c, COPY)
}

// What an entry permits, and whether it follows another.
fn entry_bits(entry: MapEntry) -> u64
    ensures bits { result ≡ entry_word entry }
    ensures low { result ≤ READ + WRITE + EXECUTE + COPY + FOLLOWS }
{
    match entry {
        MapEntry::Empty => 0,
        MapEntry::Names(_, access) => access_bits(access),
        MapEntry::Follows(_, _, access) => access_bits(access) + FOLLOWS,
    }
}

/// What RPACS tells of an entry whose chain ends in a page, if it does.
#[tactic(auto, unfolding(plain_model::specs::AccessWords::access_told))]
pub fn access_told(entry: MapEntry, page: Option<PageName>) -> Word
    ensures { result ≡ access_told_of entry page }
{
    Word::wrapped(entry_bits(entry) + bit(page.is_some(), PRESENT))
}

/// What RPACS tells of a page of a file: one that is there may be read and written.
#[tactic(auto, unfolding(plain_model::specs::AccessWords::access_word))]
pub fn file_access(page: Option<PageName>) -> Word
    ensures { result ≡ file_access_of page }
{
    match page {
        Some(_) => Word::wrapped(READ + WRITE + PRESENT),
        None => Word::ZERO,
    }
}
