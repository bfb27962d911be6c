// What a turn asks, asked of pages of which some may be in no frame.
ghost use Rattle.std.specs.Prelude.{◌≡◌, ◌<◌, ℕ, true, IfErr, IsOk};
ghost use Rattle.machine_names.specs.declared.names.Access.{Access as AnAccess};
ghost use Rattle.machine_names.specs.Bounds.{IsFilePage};
ghost use Rattle.machine_names.specs.Orders.{file_page};
ghost use Rattle.machine_names.specs.declared.names.TheConstants.{SPACE_PAGES};
ghost use Rattle.outside.specs.declared.TheConstants.{PAGE_WORDS};
ghost use Rattle.page_contracts.specs.DrumWords.{DrumWords};
ghost use Rattle.page_contracts.specs.Stores.{IsNeeded};
ghost use Rattle.plain_model.specs.Calls.{entry_of};
ghost use Rattle.plain_pages.specs.References.{in_file, in_map, page_at as named_at, word_at};
ghost use Rattle.call_turns.specs.Telling.{ask_need, entry_need, page_need, page_told, told, told_of, way_need};
ghost use Rattle.call_turns.specs.Turns.{IsAsk};

use crate::{Ask, Told};
use machine_names::{FileNo, ForkName, PageName, Place, Slot};
use page_contracts::{Need, Pages, Peeked, Seen};
use plain_pages::MapEntry;
use word36::Word;

/// How many links a chain has at most.
const MOST_LINKS: u32 = 4;

/// The entry of a slot, Empty where its fork isn't there; or its map has to come into core first.
pub fn entry_of<P: Pages>(pages: &P, slot: Slot) -> Result<MapEntry, Need>
    requires { slot.page < SPACE_PAGES }
    ensures told { (d : DrumWords) → P.means.fits pages.now d → result ≡ told (entry_need (P.means.scene pages.now) (P.means.plain pages.now d) slot) (entry_of (P.means.plain pages.now d) slot) }
    ensures page { (serial page : ℕ) (a : AnAccess) → result ≡ Ok (MapEntry.Follows serial page a) → page < SPACE_PAGES }
    ensures needs { IfErr result (IsNeeded P.means.store 1 pages.now) }
    ensures core { P.means.flat ≡ true → IsOk result }
{
    match pages.entry(slot) {
        Seen::Is(entry) => Ok(entry),
        Seen::Missing => Ok(MapEntry::Empty),
        Seen::Absent(home) => Err(Need::Page(home)),
    }
}

// The page at the end of a slot's chain, where so many links are enough.
fn page_within<P: Pages>(pages: &P, slot: Slot, links: u32) -> Result<Option<PageName>, Need>
    requires { slot.page < SPACE_PAGES }
    ensures told { (d : DrumWords) → P.means.fits pages.now d → result ≡ page_told links (P.means.scene pages.now) (P.means.plain pages.now d) slot }
    ensures needs { IfErr result (IsNeeded P.means.store 1 pages.now) }
    ensures core { P.means.flat ≡ true → IsOk result }
{
    if links == 0 {
        return Ok(None);
    }
    match entry_of(pages, slot) {
        Ok(entry) => match entry {
            MapEntry::Empty => Ok(None),
            MapEntry::Names(name, _) => Ok(Some(name)),
            MapEntry::Follows(serial, page, _) => {
                let fork = ForkName {
                    tty: slot.fork.tty,
                    serial,
                };
                page_within(pages, Slot { fork, page }, links - 1)
            }
        },
        Err(need) => Err(need),
    }
}

/// The page at the end of a slot's chain, if one is named there; or a map on the way has to come into core first.
pub fn page_at<P: Pages>(pages: &P, slot: Slot) -> Result<Option<PageName>, Need>
    requires { slot.page < SPACE_PAGES }
    ensures told { (d : DrumWords) → P.means.fits pages.now d → result ≡ told (way_need 4 (P.means.scene pages.now) (P.means.plain pages.now d) slot) (named_at (P.means.plain pages.now d) (in_map slot)) }
    ensures needs { IfErr result (IsNeeded P.means.store 1 pages.now) }
    ensures core { P.means.flat ≡ true → IsOk result }
{
    page_within(pages, slot, MOST_LINKS)
}

/// The word at an offset of a page of a file, 0 where the file doesn't have the page; or the page has to come into core first.
pub fn word_of<P: Pages>(pages: &P, file: FileNo, page: u16, offset: u16) -> Result<Word, Need>
    requires page { IsFilePage file page }
    requires offset { offset < PAGE_WORDS }
    ensures told { (d : DrumWords) → P.means.fits pages.now d
        → result ≡ told (page_need (P.means.scene pages.now) (P.means.plain pages.now d) (in_file (file_page file.0 page))) (word_at (P.means.plain pages.now d) (in_file (file_page file.0 page)) offset) }
    ensures needs { IfErr result (IsNeeded P.means.store 1 pages.now) }
    ensures core { P.means.flat ≡ true → IsOk result }
{
    match pages.peek(Place::File(file, page), offset) {
        Peeked::Is(word) => Ok(word),
        Peeked::NoPage => Ok(Word::ZERO),
        Peeked::Absent(home) => Err(Need::Page(home)),
    }
}

/// Asks the pages, which tell what is so, or which map has to come into core first.
pub fn ask<P: Pages>(what: Ask, pages: &P) -> Result<Told, Need>
    requires { IsAsk what }
    ensures told { (d : DrumWords) → P.means.fits pages.now d → result ≡ told (ask_need (P.means.scene pages.now) (P.means.plain pages.now d) what) (told_of (P.means.plain pages.now d) what) }
    ensures needs { IfErr result (IsNeeded P.means.store 1 pages.now) }
    ensures core { P.means.flat ≡ true → IsOk result }
{
    match what {
        Ask::Sees(slot) => match entry_of(pages, slot) {
            Ok(entry) => Ok(Told::Entry(entry)),
            Err(need) => Err(need),
        },
        Ask::Finds(slot) => match page_at(pages, slot) {
            Ok(page) => Ok(Told::Page(page)),
            Err(need) => Err(need),
        },
        Ask::FindsFile(file, page) => Ok(Told::Page(pages.page_of(file, page))),
        Ask::ReadsFile(file, page, offset) => match word_of(pages, file, page, offset) {
            Ok(word) => Ok(Told::Word(word)),
            Err(need) => Err(need),
        },
    }
}
