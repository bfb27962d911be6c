// A program that is in a file: where it starts, and a fork's map that has its pages.
ghost use Rattle.std.specs.Prelude.{◌≡◌, ◌<◌, IfErr, IfOk, IsOk, None, true};
ghost use Rattle.std.specs.FinMap as map;
ghost use Rattle.machine_names.specs.Orders.{file_page};
ghost use Rattle.machine_names.specs.Bounds.{IsFilePage};
ghost use Rattle.machine_names.specs.declared.names.TheConstants.{MOST_FILES, SPACE_PAGES};
ghost use Rattle.page_contracts.specs.DrumWords.{DrumWords};
ghost use Rattle.page_contracts.specs.Pages.{FollowsFork};
ghost use Rattle.plain_pages.specs.NewEntries.{IsNewEntry, entry_to};
ghost use Rattle.plain_pages.specs.PlainPages.{NumberedPages};
ghost use Rattle.plain_pages.specs.declared.map.MapEntry.{MapEntry as AMapEntry};
ghost use Rattle.plain_model.specs.Commands.{program_entry as program_entry_of, with_program, with_program_page};
ghost use Rattle.ka10_unit.specs.Carrying.{Grows};
ghost use Rattle.job_commands.specs.Needing.{NeedsFilePage};
ghost use Rattle.job_commands.specs.Programs.{StartsAt};

use machine_names::{Access, FileNo, ForkName, Place, SPACE_PAGES, Slot};
use page_contracts::{Need, Pages, Peeked, Seen};
use plain_model::command::START_WORD;
use plain_pages::NewEntry;
use word36::Word;

/// What a program may do with its pages.
const PROGRAM_ACCESS: Access = Access {
    r: true,
    w: false,
    x: true,
    c: true,
};

/// The word whose right half is the address at which the program in a file starts. None exactly where the file doesn't have its first page. Err: that page is in
/// no frame.
pub fn start_of<P: Pages>(pages: &P, file: FileNo) -> Result<Option<Word>, Need>
    requires file { file.0 < MOST_FILES }
    ensures told { (d : DrumWords) → P.means.fits pages.now d → IfOk result (StartsAt (P.means.plain pages.now d) file.0) }
    ensures needs { IfErr result (NeedsFilePage P.means pages.now (file_page file.0 0)) }
    ensures core { P.means.flat ≡ true → IsOk result }
{
    match pages.peek(Place::File(file, 0), START_WORD) {
        Peeked::Is(word) => Ok(Some(word)),
        Peeked::NoPage => Ok(None),
        Peeked::Absent(home) => Err(Need::Page(home)),
    }
}

// What an entry of a program's map is set to: the page of its file, where that has it.
fn program_entry<P: Pages>(pages: &P, file: FileNo, page: u16) -> NewEntry
    requires page { IsFilePage file page }
    ensures fits { IsNewEntry (P.means.filed pages.now) result }
    ensures follows { FollowsFork result }
    ensures told { (p : NumberedPages) (e : AMapEntry) → P.means.filed pages.now ≡ map.get p.files
        → entry_to p result e ≡ program_entry_of (map.get p.files (file_page file.0 page)) }
{
    match pages.page_of(file, page) {
        Some(_) => NewEntry::FilePage(file, page, PROGRAM_ACCESS),
        None => NewEntry::Empty,
    }
}

// Sets one entry of a fork's map, which is in a frame, to that of a program.
fn map_page<P: Pages>(pages: &mut P, top: ForkName, file: FileNo, page: u16)
    requires page { page < SPACE_PAGES }
    requires file { file.0 < MOST_FILES }
    requires here { (P.means.scene pages.old).map_away top ≡ None }
    ensures told { (d : DrumWords) → P.means.fits pages.old d
        → P.means.fits pages.new d × (P.means.plain pages.new d ≡ with_program_page (P.means.plain pages.old d) top file.0 page) }
    ensures grows { Grows P.means top.tty 0 pages.old pages.new }
    ensures here { (P.means.scene pages.new).map_away top ≡ None }
{
    let slot = Slot { fork: top, page };
    let new = program_entry(pages, file, page);
    match pages.entry(slot) {
        Seen::Is(_) => pages.set_entry(slot, new),
        Seen::Missing => {}
        // Its map is in a frame.
        Seen::Absent(_) => unreachable!(),
    }
}

/// The map of a fork, which is in a frame, becomes that of the program in a file: each page of the file at its number, to be read, executed and copied
/// before a write, and nothing elsewhere.
pub fn map_program<P: Pages>(pages: &mut P, top: ForkName, file: FileNo)
    requires file { file.0 < MOST_FILES }
    requires here { (P.means.scene pages.old).map_away top ≡ None }
    ensures told { (d : DrumWords) → P.means.fits pages.old d
        → P.means.fits pages.new d × (P.means.plain pages.new d ≡ with_program SPACE_PAGES (P.means.plain pages.old d) top file.0) }
    ensures grows { Grows P.means top.tty 0 pages.old pages.new }
{
    for page in 0..SPACE_PAGES as u16 {
        map_page(pages, top, file, page);
    }
}
