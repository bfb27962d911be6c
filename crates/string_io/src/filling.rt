// The page of a file that is written behind what a reading refers to.
ghost use Rattle.std.specs.Prelude.{◌≡◌, ◌≤◌, ◌+◌, IfErr, IsSome, None};
ghost use Rattle.machine_names.specs.Bounds.{IsFilePage, IsOwner};
ghost use Rattle.machine_names.specs.Orders.{file_page};
ghost use Rattle.machine_names.specs.declared.names.Tty.{Tty as ATty};
ghost use Rattle.page_contracts.specs.DrumWords.{DrumWords};
ghost use Rattle.page_gather.specs.Gathering.{Gathers, left_of};
ghost use Rattle.ka10_unit.specs.Gathers.{framed};
ghost use Rattle.ka10_unit.specs.Taking.{read_frames};
ghost use Rattle.string_io.specs.Filling.{FillsAs};
ghost use Rattle.string_io.specs.Turning.{StringStops};

use ka10_unit::Stop;
use machine_names::{FileNo, Kind, Place};
use page_contracts::{Need, Pages, Room, Touch};
use page_gather::Gather;
use plain_units::channel::DRUM_FULL;

// A page that the file has.
fn there<P: Pages>(gather: &Gather, pages: &P, file: FileNo, page: u16) -> Result<(), Stop>
    requires page { IsFilePage file page }
    requires there { IsSome (P.means.filed pages.now (file_page file.0 page)) }
    ensures told { (d : DrumWords) (owner : ATty) → P.means.fits pages.now d → IsOwner owner → Gathers (P.means.plain pages.now d) (P.means.scene pages.now) gather.now
        → FillsAs (framed P.means pages.now d) (left_of (P.means.plain pages.now d) gather.now) owner (file_page file.0 page) result }
    ensures needs { IfErr result (StringStops P.means pages.now) }
{
    match pages.touch(Place::File(file, page), Kind::Write) {
        Touch::Absent(home) => Err(Stop::Need(Need::Page(home))),
        _ => Ok(()),
    }
}

// One that is to be made, behind those that the references make.
fn made<P: Pages>(gather: &Gather, pages: &P, file: FileNo, page: u16) -> Result<(), Stop>
    requires page { IsFilePage file page }
    requires none { P.means.filed pages.now (file_page file.0 page) ≡ None }
    requires few { gather.now.homes ≤ read_frames + 1 }
    ensures told { (d : DrumWords) (owner : ATty) → P.means.fits pages.now d → IsOwner owner → Gathers (P.means.plain pages.now d) (P.means.scene pages.now) gather.now
        → FillsAs (framed P.means pages.now d) (left_of (P.means.plain pages.now d) gather.now) owner (file_page file.0 page) result }
    ensures needs { IfErr result (StringStops P.means pages.now) }
{
    match pages.room(gather.homes() + 1) {
        Room::Enough => Ok(()),
        Room::NeedFrame => Err(Stop::Need(Need::Frame)),
        Room::Full => Err(Stop::Trap(DRUM_FULL)),
    }
}

/// Whether a page of a file can be written behind these references: it is there, or there is room for it too. The unit traps where
/// the drum is full then; or the page has to come into core first, or wants a frame.
pub fn fills<P: Pages>(gather: &Gather, pages: &P, file: FileNo, page: u16) -> Result<(), Stop>
    requires page { IsFilePage file page }
    requires few { gather.now.homes ≤ read_frames + 1 }
    ensures told { (d : DrumWords) (owner : ATty) → P.means.fits pages.now d → IsOwner owner → Gathers (P.means.plain pages.now d) (P.means.scene pages.now) gather.now
        → FillsAs (framed P.means pages.now d) (left_of (P.means.plain pages.now d) gather.now) owner (file_page file.0 page) result }
    ensures needs { IfErr result (StringStops P.means pages.now) }
{
    if pages.page_of(file, page).is_some() {
        there(gather, pages, file, page)
    } else {
        made(gather, pages, file, page)
    }
}
