// The image of all files, written to a sink.
ghost use Rattle.std.specs.Prelude.{◌≡◌, ◌≤◌, true, OnOk, OnErr};
ghost use Rattle.outside.specs.Faults.{Rose};
ghost use Rattle.outside.specs.Told.{Grows};
ghost use Rattle.page_contracts.specs.DrumWords.{DrumWords};
ghost use Rattle.texts.specs.Wrote.{GrowsPartly};
ghost use Rattle.file_image.specs.Images.{image};
ghost use Rattle.file_image.specs.Reading.{AreTold, files_told};

use crate::file::write_file;
use crate::put::put_all;
use file_tables::FileTables;
use outside::{Failed, Sink};
use page_contracts::Pages;

// What an image begins with.
const MARK: &[u8; 8] = b"TENEXIM1";

/// Writes the image of all files, whose pages are in memory: over each drum that fits, the image of the files that they stand
/// for. It fails only where the count of faults of the sink rose, and then a front of the image is written. A page is given to
/// the sink as one piece of 4,098 bytes; no memory is taken.
pub fn write_image<P: Pages, T: Sink>(
    files: &FileTables,
    pages: &P,
    out: &mut T,
) -> Result<(), Failed>
    requires { P.means.flat ≡ true }
    ensures later { T.fault_count out.old ≤ T.fault_count out.new }
    ensures cause { OnErr result (Rose (T.fault_count out.old) (T.fault_count out.new)) }
    ensures unfaulted { OnOk result (T.fault_count out.new ≡ T.fault_count out.old) }
    ensures whole { (d : DrumWords) → AreTold P.means files.now pages.now d → OnOk result (Grows (T.taken out.old) (T.taken out.new) (image (files_told P.means files.now pages.now d))) }
    ensures front { (d : DrumWords) → AreTold P.means files.now pages.now d → OnErr result (GrowsPartly (T.taken out.old) (T.taken out.new) (image (files_told P.means files.now pages.now d))) }
{
    let count = files.count() as u32;
    put_all(out, &[MARK, &count.to_be_bytes()])?;
    let mut last = None;
    while let Some(file) = files.all(last) {
        write_file(files, pages, file, out)?;
        last = Some(file);
    }
    Ok(())
}
