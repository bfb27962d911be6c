// The byte at a pointer.
ghost use Rattle.std.specs.Prelude.{◌≡◌, ◌+◌, ◌≤◌, IfErr, IfOk};
ghost use Rattle.page_contracts.specs.DrumWords.{DrumWords};
ghost use Rattle.word36.specs.Bytes.{incremented};
ghost use Rattle.plain_model.specs.PointedTexts.{full_pointer as full_pointer_of};
ghost use Rattle.ka10_unit.specs.Gathers.{Serves, framed, weight};
ghost use Rattle.ka10_unit.specs.Taking.{read_frames};
ghost use Rattle.text_pointers.specs.Reading.{ReadsByte, StopsFor};

use crate::reader::Reader;
use crate::text::full_pointer;
use ka10_bytes::{increment, load};
use ka10_unit::{Stop, Taken, address_of};
use machine_names::ForkName;
use page_contracts::Pages;
use plain_units::Regs;
use word36::Word;

/// What was read at a pointer.
#[derive(Drop)]
pub struct PointedByte {
    /// The byte, as the low bits of a word.
    pub byte: Word,
    /// What was referred to; the pages that this makes are to be made before it is used up.
    pub reader: Reader,
}

/// The pointer to the next byte of a string, written out.
pub fn next_pointer(pointer: Word) -> Word
    ensures { result ≡ incremented (full_pointer_of pointer) }
{
    increment(full_pointer(pointer))
}

/// Reads the byte at a pointer in the space of a fork (JSYS Manual, "String pointers"). Err: a reference of the pointer's address or
/// of the byte whose page, or a map on the way, is in no frame; that is denied; or for which a page has to be made while the
/// drum is full, or no frame is free; or an address behind more than 16 indirect words. No page is made before
/// `Reader::make`.
pub fn byte_at<P: Pages>(
    regs: &Regs,
    pages: &P,
    fork: ForkName,
    pointer: Word,
) -> Result<PointedByte, Stop>
    requires serves { Serves P.means pages.now fork }
    ensures fork { IfOk result (λ b. b.reader.fork ≡ fork) }
    ensures few { IfOk result (λ b. weight b.reader.gather ≤ read_frames + 1) }
    ensures needs { IfErr result (StopsFor P.means pages.now) }
    ensures told { (d : DrumWords) → P.means.fits pages.now d → ReadsByte fork (framed P.means pages.now d) regs.now pointer result }
{
    let mut taken = Taken::new();
    taken.restart(fork);
    match address_of(&mut taken, regs, pages, pointer) {
        Err(stop) => Err(stop),
        Ok(address) => {
            let mut reader = Reader::behind(taken);
            match reader.word(regs, pages, address.e) {
                Err(stop) => Err(stop),
                Ok(word) => Ok(PointedByte {
                    byte: load(pointer, word),
                    reader,
                }),
            }
        }
    }
}
