// A page of a file, as an image has it.
ghost use Rattle.std.specs.Prelude.{◌≡◌, ◌≤◌, ◌<◌, true, OnOk, OnErr};
ghost use Rattle.outside.specs.declared.TheConstants.{PAGE_WORDS as WORDS};
ghost use Rattle.outside.specs.Faults.{Rose};
ghost use Rattle.outside.specs.Told.{Grows};
ghost use Rattle.machine_names.specs.Bounds.{IsFilePage};
ghost use Rattle.machine_names.specs.Orders.{file_page};
ghost use Rattle.plain_pages.specs.References.{in_file, word_at, words_at};
ghost use Rattle.page_contracts.specs.DrumWords.{DrumWords};
ghost use Rattle.texts.specs.Wrote.{GrowsPartly};
ghost use Rattle.file_image.specs.Parts.{page as a_page, part_bytes};
ghost use Rattle.file_image.specs.Reading.{page_text};

use crate::put::put;
use byteorder::{BigEndian, ByteOrder};
use machine_names::{FileNo, Place};
use outside::{Failed, PAGE_WORDS, Sink, WORD_BYTES};
use page_contracts::{Pages, Peeked};

// How many bytes a number of two bytes has.
const NUMBER_BYTES: usize = 2;

// How many bytes a page has, its number in front.
const PAGE_BYTES: usize = NUMBER_BYTES + PAGE_WORDS * WORD_BYTES;

/// Writes a page of a file, where the file has it. Where it fails, a front of it is written.
pub fn write_page<P: Pages, T: Sink>(
    pages: &P,
    file: FileNo,
    page: u16,
    out: &mut T,
) -> Result<(), Failed>
    requires flat { P.means.flat ≡ true }
    requires place { IsFilePage file page }
    ensures later { T.fault_count out.old ≤ T.fault_count out.new }
    ensures cause { OnErr result (Rose (T.fault_count out.old) (T.fault_count out.new)) }
    ensures unfaulted { OnOk result (T.fault_count out.new ≡ T.fault_count out.old) }
    ensures ok { (d : DrumWords) → P.means.fits pages.now d → OnOk result (Grows (T.taken out.old) (T.taken out.new) (page_text (P.means.plain pages.now d) file.0 page)) }
    ensures err { (d : DrumWords) → P.means.fits pages.now d → OnErr result (GrowsPartly (T.taken out.old) (T.taken out.new) (page_text (P.means.plain pages.now d) file.0 page)) }
{
    if pages.page_of(file, page).is_none() {
        return Ok(());
    }
    put(out, &page_bytes(page, &page_words(pages, file, page)))
}

// The bytes of a page of this number, with these words.
fn page_bytes(number: u16, words: &[u64; PAGE_WORDS]) -> [u8; PAGE_BYTES]
    ensures { result ≡ part_bytes (a_page (record { number = number; words = words.now })) }
{
    let mut bytes = [0; PAGE_BYTES];
    BigEndian::write_u16(&mut bytes, number);
    BigEndian::write_u64_into(words, &mut bytes[NUMBER_BYTES..]);
    bytes
}

// The words of a page of a file; zeros where the file doesn't have it.
fn page_words<P: Pages>(pages: &P, file: FileNo, page: u16) -> [u64; PAGE_WORDS]
    requires flat { P.means.flat ≡ true }
    requires place { IsFilePage file page }
    ensures { (d : DrumWords) → P.means.fits pages.now d → result ≡ words_at (P.means.plain pages.now d) (in_file (file_page file.0 page)) }
{
    let mut words = [0; PAGE_WORDS];
    for offset in 0..PAGE_WORDS {
        words[offset] = page_word(pages, file, page, offset as u16);
    }
    words
}

// The word at an offset of a page of a file; 0 where the file doesn't have the page.
fn page_word<P: Pages>(pages: &P, file: FileNo, page: u16, offset: u16) -> u64
    requires flat { P.means.flat ≡ true }
    requires place { IsFilePage file page }
    requires offset { offset < WORDS }
    ensures { (d : DrumWords) → P.means.fits pages.now d → result ≡ word_at (P.means.plain pages.now d) (in_file (file_page file.0 page)) offset }
{
    match pages.peek(Place::File(file, page), offset) {
        Peeked::Is(word) => word.value(),
        _ => 0,
    }
}
