// The image of a record's files.
ghost use Rattle.std.specs.Prelude.{◌≡◌, ◌≢◌, ◌⊎◌, ◌≤◌, true, OnErr, OnOk};
ghost use Rattle.outside.specs.Faults.{Rose};
ghost use Rattle.outside.specs.Told.{Grows};
ghost use Rattle.outside.specs.declared.TheConstants.{MOST_DRUM_PAGES};
ghost use Rattle.page_contracts.specs.DrumWords.{DrumWords};
ghost use Rattle.monitor_core.specs.Systems.{FitsPages, state_of};
ghost use Rattle.texts.specs.Wrote.{GrowsPartly, WrotePartly};
ghost use Rattle.file_image.specs.Files.{files_of};
ghost use Rattle.file_image.specs.Images.{image as image_of};
ghost use Rattle.record_player.specs.Replays.{end_text};
ghost use Rattle.record_image.specs.Imaged.{Imaged};

use crate::unheard::Unheard;
use file_image::write_image;
use monitor_core::System;
use outside::{Failed, Sink, Source};
use page_contracts::Pages;
use record_player::{ReplayEnd, play};
use std::alloc::Global;
use texts::{Status, write_closing};

/// Plays a record and writes the image of all files at its end. The drum has as many pages as the record's first line tells,
/// and else as many as are asked for, 256 to 16,384. It ends as `play` does; but for Done and WriteFault nothing is written
/// except the line that tells why there is no image. Where the image or the line can't be written it ends by WriteFault, with
/// a front of it written.
pub fn image<S: Source, T: Sink>(alloc: Global, pages: u32, input: &mut S, out: &mut T) -> ReplayEnd
    requires least { 256 ≤ pages }
    requires most { pages ≤ MOST_DRUM_PAGES }
    ensures imaged { Imaged pages (S.left input.old) result (T.taken out.old) (T.taken out.new) }

    // A fault comes only where a count rose.
    ensures read_later { S.fault_count input.old ≤ S.fault_count input.new }
    ensures read_cause { result ≡ ReplayEnd.ReadFault → Rose (S.fault_count input.old) (S.fault_count input.new) }
    ensures unfaulted { result ≢ ReplayEnd.ReadFault → result ≢ ReplayEnd.WriteFault → result ≢ ReplayEnd.Memory → S.fault_count input.new ≡ S.fault_count input.old }
    ensures later { T.fault_count out.old ≤ T.fault_count out.new }
    ensures write_cause { result ≡ ReplayEnd.WriteFault → Rose (T.fault_count out.old) (T.fault_count out.new) }

    // The sink keeps nothing back, unless it failed.
    ensures handed { T.handed_on out.new ⊎ Rose (T.fault_count out.old) (T.fault_count out.new) }
{
    match play(alloc, pages, input, &mut Unheard) {
        Ok(system) => end_behind(write_files(&system, out), ReplayEnd::Done),
        Err(end) => end_behind(write_why(end, out), end),
    }
}

// How it ends where it was to end so, and something was written.
fn end_behind(written: Result<(), Failed>, end: ReplayEnd) -> ReplayEnd
    ensures ok { OnOk written (result ≡ end) }
    ensures err { OnErr written (result ≡ ReplayEnd.WriteFault) }
{
    match written {
        Ok(()) => end,
        Err(Failed) => ReplayEnd::WriteFault,
    }
}

// Writes the image of a system's files, whose pages are in memory, and hands it on.
fn write_files<P: Pages, T: Sink>(system: &System<P>, out: &mut T) -> Result<(), Failed>
    requires { P.means.flat ≡ true }
    ensures later { T.fault_count out.old ≤ T.fault_count out.new }
    ensures cause { OnErr result (Rose (T.fault_count out.old) (T.fault_count out.new)) }
    ensures handed { OnOk result (T.handed_on out.new) }
    ensures whole { (d : DrumWords) → FitsPages system.now d → OnOk result (Grows (T.taken out.old) (T.taken out.new) (image_of (files_of (state_of system.now d)))) }
    ensures front { (d : DrumWords) → FitsPages system.now d → OnErr result (GrowsPartly (T.taken out.old) (T.taken out.new) (image_of (files_of (state_of system.now d)))) }
{
    write_image(system.files(), system.pages(), out)?;
    out.flush()
}

// Writes the line that tells why there is no image, where there is one, and hands it on.
fn write_why<T: Sink>(end: ReplayEnd, out: &mut T) -> Result<(), Failed>
    ensures later { T.fault_count out.old ≤ T.fault_count out.new }
    ensures cause { OnErr result (Rose (T.fault_count out.old) (T.fault_count out.new)) }
    ensures handed { OnOk result (T.handed_on out.new) }
    ensures whole { OnOk result (Grows (T.taken out.old) (T.taken out.new) (end_text end)) }
    ensures front { OnErr result (WrotePartly (T.taken out.old) (T.taken out.new) (end_text end)) }
{
    match end {
        ReplayEnd::Bad(line) => write_closing(Status::Script, line, out),
        ReplayEnd::Illegal(entry) => write_closing(Status::Illegal, entry, out),
        ReplayEnd::Long => write_closing(Status::LongScript, 0, out),
        ReplayEnd::ReadFault => write_closing(Status::ReadFault, 0, out),
        ReplayEnd::Memory => write_closing(Status::Memory, 0, out),
        ReplayEnd::Done | ReplayEnd::WriteFault => write_closing(Status::Done, 0, out),
    }
}
