// The changes that calls on bytes make, once they are done.
ghost use Rattle.std.specs.Prelude.{◌≡◌, ◌<◌, ◌^◌, true};
ghost use Rattle.machine_names.specs.Bounds.{IsFilePage, IsTerminal};
ghost use Rattle.machine_names.specs.Orders.{file_page};
ghost use Rattle.outside.specs.declared.TheConstants.{PAGE_WORDS};
ghost use Rattle.page_contracts.specs.DrumWords.{DrumWords};
ghost use Rattle.page_contracts.specs.Pages.{MayLose, can_settle};
ghost use Rattle.plain_files.specs.Bytes.{most_bytes};
ghost use Rattle.plain_typing.specs.Lines.{InputLine};
ghost use Rattle.call_turns.specs.Making.{MakesAtMost};
ghost use Rattle.file_bytes.specs.Asking.{IsUsable};
ghost use Rattle.file_bytes.specs.Changing.{Changes, Reaches, deposited_in};
ghost use Rattle.file_bytes.specs.Planning.{CanChange, CanPut};
ghost use Rattle.file_bytes.specs.Turning.{OthersStay};

use crate::sizes::end_of;
use call_turns::word_of;
use file_tables::FileTables;
use ka10_bytes::deposit;
use machine_names::{FileNo, Kind, Place, Tty};
use page_contracts::{Pages, Touch};
use page_files::place;
use plain_files::Jfn;
use plain_model::call::ByteChange;
use tty_lines::Line;
use word36::Word;

// Puts a byte where a pointer names it in a word of a page of a file, which is made for an owner where it isn't there. That page may
// be written at once.
fn put_byte<P: Pages>(file: FileNo, at: (u16, u16, Word), byte: Word, owner: Tty, pages: &mut P)
    requires page { IsFilePage file at.0 }
    requires offset { at.1 < PAGE_WORDS }
    requires settles { can_settle (P.means.touched pages.old (Place.File file at.0) Kind.Write) ≡ true }
    requires owner { IsTerminal owner }
    requires serial { P.means.serial pages.old owner < 2 ^ 63 }
    ensures told { (d : DrumWords) → P.means.fits pages.old d → P.means.fits pages.new d × (P.means.plain pages.new d ≡ deposited_in (P.means.plain pages.old d) owner (file_page file.0 at.0) at.1 at.2 byte) }
    ensures loses { MayLose P.means pages.old pages.new }
    ensures made { MakesAtMost P.means owner 1 pages.old pages.new }
{
    let (page, offset, pointer) = at;
    let there = Place::File(file, page);
    pages.settle(there, Kind::Write, owner);
    // A page of a file that was made, or was there, is ready and in a frame.
    if let Touch::Ready = pages.touch(there, Kind::Write) {
        if let Ok(word) = word_of(pages, file, page, offset) {
            pages.put(there, offset, deposit(pointer, word, byte));
        }
    }
}

// The file of a JFN has bytes of the JFN's size, and reaches at least to the byte behind the one at which the JFN stands.
fn reach(jfn: Jfn, tables: &mut FileTables)
    requires usable { IsUsable tables.old jfn }
    requires room { jfn.at < most_bytes jfn.size }
    ensures { Reaches tables.old tables.new jfn }
{
    let behind = jfn.at + 1;
    let end = end_of(jfn, tables);
    let length = if end <= behind { behind } else { end };
    tables.set_length(jfn.file, length, jfn.size);
}

// The next byte of a JFN of the job at a terminal is written, and the JFN goes behind it.
fn put<P: Pages>(t: Tty, n: u32, byte: Word, tables: &mut FileTables, pages: &mut P)
    requires terminal { IsTerminal t }
    requires can { CanPut P.means pages.old tables.old t n }
    requires serial { P.means.serial pages.old t < 2 ^ 63 }
    ensures told { (line : InputLine) → Changes P.means pages.old pages.new tables.old tables.new line line t (ByteChange.Put t n byte) }
    ensures others { (line : InputLine) → OthersStay t tables.old tables.new line line }
    ensures loses { MayLose P.means pages.old pages.new }
    ensures made { MakesAtMost P.means t 1 pages.old pages.new }
{
    let Some(jfn) = tables.jfn(t, n) else {
        return;
    };
    put_byte(jfn.file, place(jfn.size, jfn.at), byte, t, pages);
    reach(jfn, tables);
    tables.seek(t, n, jfn.at + 1);
}

/// Makes a change of the job at a terminal: of the characters that are stored for it, of a JFN, or of a file.
pub fn change<P: Pages>(
    what: &ByteChange,
    t: Tty,
    input: &mut Line,
    tables: &mut FileTables,
    pages: &mut P,
)
    requires terminal { IsTerminal t }
    requires can { CanChange P.means pages.old tables.old t what.now }
    requires serial { P.means.serial pages.old t < 2 ^ 63 }
    ensures told { Changes P.means pages.old pages.new tables.old tables.new input.old input.new t what.now }
    ensures others { OthersStay t tables.old tables.new input.old input.new }
    ensures loses { MayLose P.means pages.old pages.new }
    ensures made { MakesAtMost P.means t 1 pages.old pages.new }
{
    match what {
        ByteChange::Nothing => {}
        ByteChange::Take(_) => {
            input.take();
        }
        ByteChange::Move(_, n, at) => tables.seek(t, *n, *at),
        ByteChange::Put(_, n, byte) => put(t, *n, *byte, tables, pages),
    }
}
