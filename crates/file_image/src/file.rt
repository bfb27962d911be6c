// A file with its pages, as an image has it.
ghost use Rattle.std.specs.Prelude.{◌≡◌, ◌≤◌, ◌<◌, true, length, Some, OnOk, OnErr};
ghost use Rattle.std.specs.Option.{IsSomeAnd};
ghost use Rattle.outside.specs.Faults.{Rose};
ghost use Rattle.outside.specs.Told.{Grows};
ghost use Rattle.machine_names.specs.declared.names.TheConstants.{FILE_PAGES as MOST_PAGES, MOST_FILES};
ghost use Rattle.machine_names.specs.Bounds.{IsFileName};
ghost use Rattle.plain_files.specs.NamedFiles.{name_of};
ghost use Rattle.plain_files.specs.Sizes.{FitsFile, PlainFile as APlainFile};
ghost use Rattle.page_contracts.specs.DrumWords.{DrumWords};
ghost use Rattle.texts.specs.Wrote.{GrowsPartly};
ghost use Rattle.file_tables.specs.Tables.{IsThere, file_of};
ghost use Rattle.file_image.specs.Files.{pages_in};
ghost use Rattle.file_image.specs.Parts.{head, part_bytes};
ghost use Rattle.file_image.specs.Reading.{AreTold, file_text, named, pages_text};

use crate::page::write_page;
use crate::put::put_all;
use file_tables::FileTables;
use machine_names::{FILE_PAGES, FileName, FileNo};
use outside::{Failed, Sink};
use page_contracts::Pages;

/// Writes a file, which is there, with its pages. Where it fails, a front of these is written.
pub fn write_file<P: Pages, T: Sink>(
    files: &FileTables,
    pages: &P,
    file: FileNo,
    out: &mut T,
) -> Result<(), Failed>
    requires flat { P.means.flat ≡ true }
    requires there { IsThere files.now file.0 }
    ensures later { T.fault_count out.old ≤ T.fault_count out.new }
    ensures cause { OnErr result (Rose (T.fault_count out.old) (T.fault_count out.new)) }
    ensures unfaulted { OnOk result (T.fault_count out.new ≡ T.fault_count out.old) }
    ensures ok { (d : DrumWords) (kept : APlainFile) → AreTold P.means files.now pages.now d → file_of files.now file.0 ≡ Some kept
        → OnOk result (Grows (T.taken out.old) (T.taken out.new) (file_text (named files.now (P.means.plain pages.now d)) (name_of files.now.dir file.0, kept))) }
    ensures err { (d : DrumWords) (kept : APlainFile) → AreTold P.means files.now pages.now d → file_of files.now file.0 ≡ Some kept
        → OnErr result (GrowsPartly (T.taken out.old) (T.taken out.new) (file_text (named files.now (P.means.plain pages.now d)) (name_of files.now.dir file.0, kept))) }
{
    write_head(&head_of(files, pages, file), out)?;
    write_pages(pages, file, out)
}

// A file but for its pages, and how many these are.
#[derive(Clone, Copy)]
struct FileHead {
    name: FileName,
    size: u8,
    length: u64,
    pages: u16,
}

// The head of a file, which is there.
fn head_of<P: Pages>(files: &FileTables, pages: &P, file: FileNo) -> FileHead
    requires { IsThere files.now file.0 }
    ensures name { result.name ≡ name_of files.now.dir file.0 }
    ensures named { IsFileName result.name }
    ensures size { IsSomeAnd (file_of files.now file.0) (λ kept. (result.size ≡ kept.size) × FitsFile kept) }
    ensures length { IsSomeAnd (file_of files.now file.0) (λ kept. (result.length ≡ kept.length) × FitsFile kept) }
    ensures pages { (d : DrumWords) → P.means.fits pages.now d → result.pages ≡ length (pages_in (P.means.plain pages.now d) file.0) }
{
    FileHead {
        name: files.name_of(file),
        size: files.size(file),
        length: files.length(file),
        pages: count_pages(pages, file),
    }
}

// Writes the head of a file.
fn write_head<T: Sink>(file: &FileHead, out: &mut T) -> Result<(), Failed>
    requires { IsFileName file.now.name }
    ensures later { T.fault_count out.old ≤ T.fault_count out.new }
    ensures cause { OnErr result (Rose (T.fault_count out.old) (T.fault_count out.new)) }
    ensures unfaulted { OnOk result (T.fault_count out.new ≡ T.fault_count out.old) }
    ensures ok { OnOk result (Grows (T.taken out.old) (T.taken out.new) (part_bytes (head (record { name = file.now.name; size = file.now.size; length = file.now.length; pages = file.now.pages })))) }
    ensures err { OnErr result (GrowsPartly (T.taken out.old) (T.taken out.new) (part_bytes (head (record { name = file.now.name; size = file.now.size; length = file.now.length; pages = file.now.pages })))) }
{
    let name = file.name.as_slice();
    put_all(
        out,
        &[
            &[name.len() as u8],
            name,
            &[file.size],
            &file.length.to_be_bytes(),
            &file.pages.to_be_bytes(),
        ],
    )
}

// How many pages a file has.
fn count_pages<P: Pages>(pages: &P, file: FileNo) -> u16
    requires { file.0 < MOST_FILES }
    ensures number { (d : DrumWords) → P.means.fits pages.now d → result ≡ length (pages_in (P.means.plain pages.now d) file.0) }
{
    let mut count = 0;
    for number in 0..FILE_PAGES as u16 {
        count += u16::from(pages.page_of(file, number).is_some());
    }
    count
}

// Writes the pages of a file, in the order of their numbers.
fn write_pages<P: Pages, T: Sink>(pages: &P, file: FileNo, out: &mut T) -> Result<(), Failed>
    requires flat { P.means.flat ≡ true }
    requires file { file.0 < MOST_FILES }
    ensures later { T.fault_count out.old ≤ T.fault_count out.new }
    ensures cause { OnErr result (Rose (T.fault_count out.old) (T.fault_count out.new)) }
    ensures unfaulted { OnOk result (T.fault_count out.new ≡ T.fault_count out.old) }
    ensures ok { (d : DrumWords) → P.means.fits pages.now d → OnOk result (Grows (T.taken out.old) (T.taken out.new) (pages_text (P.means.plain pages.now d) file.0 MOST_PAGES)) }
    ensures err { (d : DrumWords) → P.means.fits pages.now d → OnErr result (GrowsPartly (T.taken out.old) (T.taken out.new) (pages_text (P.means.plain pages.now d) file.0 MOST_PAGES)) }
{
    for page in 0..FILE_PAGES as u16 {
        write_page(pages, file, page, out)?;
    }
    Ok(())
}
