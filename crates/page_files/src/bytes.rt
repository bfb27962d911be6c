// Where the bytes of a file stand.
ghost use Rattle.std.specs.Prelude.{◌≡◌, ◌<◌, ◌≤◌, ◌/◌};
ghost use Rattle.plain_files.specs.Bytes.{IsByteSize, most_bytes as room_for, page_of_byte, offset_of_byte, pointer_to_byte};

use machine_names::FILE_PAGES;
use plain_files::LARGEST_BYTE;
use word36::Word;

// How many words a page has.
const PAGE_WORDS: u64 = outside::PAGE_WORDS as u64;

// How many words a file may have.
const FILE_WORDS: u64 = FILE_PAGES as u64 * PAGE_WORDS;

// How many whole bytes of so many bits a word holds.
fn bytes_per_word(size: u8) -> u64
    requires { IsByteSize size }
    ensures value { result ≡ LARGEST_BYTE / size }
    ensures some { (0 < result) × (result ≤ 36) }
{
    u64::from(LARGEST_BYTE / size)
}

/// How many bytes of so many bits, 1 to 36, a file has room for.
pub fn most_bytes(size: u8) -> u64
    requires { IsByteSize size }
    ensures { result ≡ room_for size }
{
    FILE_WORDS * bytes_per_word(size)
}

/// Where byte `at` of a file stands, counted from 0, in bytes of so many bits, 1 to 36: the page of
/// the file, the word of that page, and a pointer with the byte's position and size. A word holds
/// as many whole bytes as it has bits for, from the left.
pub fn place(size: u8, at: u64) -> (u16, u16, Word)
    requires size { IsByteSize size }
    requires within { at < room_for size }
    ensures page { result.0 ≡ page_of_byte size at }
    ensures offset { result.1 ≡ offset_of_byte size at }
    ensures pointer { result.2 ≡ pointer_to_byte size at }
    ensures there { (result.0 < FILE_PAGES) × (result.1 < PAGE_WORDS) }
{
    let per_word = bytes_per_word(size);
    let word = at / per_word;
    let left_over = u64::from(LARGEST_BYTE) - u64::from(size) * (1 + at % per_word);
    let pointer = left_over << 30 | u64::from(size) << 24;
    (
        (word / PAGE_WORDS) as u16,
        (word % PAGE_WORDS) as u16,
        Word::wrapped(pointer),
    )
}
