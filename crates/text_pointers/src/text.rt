// The bytes of a text, from a pointer on.
ghost use Rattle.std.specs.Prelude.{◌≡◌, ◌<◌, ◌≤◌, ◌^◌, IfErr, IfOk, [], List, ℕ, None};
ghost use Rattle.page_contracts.specs.DrumWords.{DrumWords};
ghost use Rattle.page_gather.specs.Gathering.{left_of};
ghost use Rattle.plain_model.specs.PointedTexts.{full_pointer as full_pointer_of, pointing_to as pointing_to_of};
ghost use Rattle.machine_names.specs.Bounds.{IsAddress};
ghost use Rattle.ka10_unit.specs.Carrying.{Grows};
ghost use Rattle.ka10_unit.specs.Gathers.{Serves, framed, weight};
ghost use Rattle.ka10_unit.specs.Taking.{read_frames};
ghost use Rattle.text_pointers.specs.Reading.{ReadsBytes, ReadsText, Stands, StopsFor, bytes_of};

use crate::byte::next_pointer;
use crate::reader::Reader;
use crate::scratch::Scratch;
use arrayvec::ArrayVec;
use ka10_bytes::{increment, load};
use ka10_unit::{Stop, address_of};
use machine_names::ForkName;
use page_contracts::Pages;
use plain_model::text::{MOST_BYTES, SEVEN_BIT_POINTER, SHORT_POINTER};
use plain_units::Regs;
use word36::Word;

/// The bytes of a text, each as the low bits of a word.
pub type Text = ArrayVec<Word, MOST_BYTES>;

/// A pointer in short, written out.
pub fn full_pointer(pointer: Word) -> Word
    ensures { result ≡ full_pointer_of pointer }
{
    if pointer.left() == SHORT_POINTER {
        Word::join(SEVEN_BIT_POINTER, pointer.right())
    } else {
        pointer
    }
}

// A pointer with an address in Y, and with I and X 0.
fn pointing_to(pointer: Word, address: u32) -> Word
    requires { IsAddress address }
    ensures { result ≡ pointing_to_of pointer address }
{
    Word::join(pointer.left() >> 6 << 6, address)
}

// The bytes from the one on that a pointer names.
fn read_bytes<P: Pages>(
    reader: &mut Reader,
    regs: &Regs,
    pages: &P,
    first: Word,
) -> Result<Option<Text>, Stop>
    requires serves { Serves P.means pages.now reader.old.fork }
    requires new { reader.old.page ≡ None }
    requires few { weight reader.old.gather ≤ read_frames }
    ensures fork { reader.new.fork ≡ reader.old.fork }
    ensures needs { IfErr result (StopsFor P.means pages.now) }
    ensures told { (d : DrumWords) → P.means.fits pages.now d → Stands reader.old.fork (framed P.means pages.now d) reader.old
        → ReadsBytes reader.old.fork (framed P.means pages.now d) regs.now reader.old reader.new first result }
{
    let mut pointer = first;
    let mut text = Text::new();
    for count in 0..MOST_BYTES {
        match reader.word(regs, pages, pointer.right()) {
            Err(stop) => return Err(stop),
            Ok(word) => {
                let byte = load(pointer, word);
                if byte == Word::ZERO {
                    return Ok(Some(text));
                }
                text.push(byte);
            }
        }
        pointer = increment(pointer);
    }
    Ok(None)
}

/// Reads the text at a byte pointer in the space of a fork (JSYS Manual, "String pointers"): up to the first byte that is
/// 0, or None where that isn't among the first 40. The pointer is incremented before each byte, and its address is taken
/// once, behind the first increment. Err: a reference of the address or of a byte whose page, or a map on the way, is in no
/// frame; that is denied; or for which a page has to be made while the drum is full, or no frame is free; or an address
/// behind more than 16 indirect words. What was referred to is the reader's; the pages that this makes are to be made before the text is used
/// up, and none is made before `Reader::make`.
pub fn text_at<P: Pages>(
    scratch: &mut Scratch,
    regs: &Regs,
    pages: &P,
    fork: ForkName,
    pointer: Word,
) -> Result<Option<Text>, Stop>
    requires serves { Serves P.means pages.now fork }
    ensures fork { IfOk result (λ text. scratch.new.reader.fork ≡ fork) }
    ensures needs { IfErr result (StopsFor P.means pages.now) }
    ensures told { (d : DrumWords) → P.means.fits pages.now d → ReadsText fork (framed P.means pages.now d) regs.now pointer scratch.new.reader result }
{
    let first = next_pointer(pointer);
    scratch.taken.restart(fork);
    match address_of(&mut scratch.taken, regs, pages, first) {
        Err(stop) => Err(stop),
        Ok(address) => {
            scratch.reader.go_behind(&scratch.taken);
            let from = pointing_to(first, address.e);
            read_bytes(&mut scratch.reader, regs, pages, from)
        }
    }
}
