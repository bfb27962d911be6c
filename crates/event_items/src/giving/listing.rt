// The files of a directory, given to a taker as a terminal prints them.
ghost use Rattle.std.specs.List.{flat_map};
ghost use Rattle.std.specs.FinMap as map;
ghost use Rattle.machine_names.specs.Bounds.{IsFileName, IsTerminal};
ghost use Rattle.file_tables.specs.Tables.{files_of};
ghost use Rattle.plain_model.specs.Commands.{file_line};
ghost use Rattle.plain_model.specs.Unit.{printed};
ghost use Rattle.job_commands.specs.Listing.{line_of};
ghost use Rattle.event_items.specs.Giving.{TookItems};

use crate::giving::text::give_text;
use file_tables::FileTables;
use job_commands::{file_part, next_listed};
use machine_names::{DirName, FileName, Tty};
use outside::Failed;
use script_texts::Taker;

// Gives the line of a file in a user's directory.
fn give_line<T: Taker>(name: &FileName, user: &DirName, t: Tty, out: &mut T) -> Result<(), Failed>
    requires terminal { IsTerminal t }
    requires name { IsFileName name.now }
    ensures { TookItems T.fault_count T.onward T.stands T.cut out.old out.new result (λ d. printed t (line_of user.now name.now)) }
{
    give_text(out, t, b" ")?;
    give_text(out, t, file_part(name, user))?;
    give_text(out, t, b"\r\n")
}

/// Gives the lines of the files in a user's directory, in the order of their names.
pub fn give_files<T: Taker>(
    files: &FileTables,
    user: &DirName,
    t: Tty,
    out: &mut T,
) -> Result<(), Failed>
    requires terminal { IsTerminal t }
    ensures { TookItems T.fault_count T.onward T.stands T.cut out.old out.new result (λ d. printed t (flat_map (file_line user.now) (map.keys (files_of files.now)))) }
{
    let mut last = None;
    while let Some(file) = next_listed(files, user, last) {
        give_line(&files.name_of(file), user, t, out)?;
        last = Some(file);
    }
    Ok(())
}
