// The files and JFNs as they are kept.
ghost use Rattle.plain_files.specs.NamedFiles.{AreTables};

use file_dir::Dir;
use jfn_table::JobJfns;
use page_files::Lengths;

/// The files that there are, with their lengths, and the JFNs of the job at each terminal (JSYS
/// Manual, "File handling"). A file has a number, which stays the same as long as it is there.
#[derive(Drop)]
pub struct FileTables {
    dir: Dir,
    lengths: Lengths,
    jobs: JobJfns,
    pub ghost sound: { AreTables dir lengths jobs },
}

mod boot;
mod files;
mod jfns;
