// DIRECTORY: the files of a user, one after another.
ghost use Rattle.std.specs.Prelude.{◌≡◌, ◌++◌, [], IfSome, MatchOption, Some, drop, length};
ghost use Rattle.machine_names.specs.Orders.{name_cmp};
ghost use Rattle.plain_files.specs.NamedFiles.{name_of};
ghost use Rattle.plain_model.specs.Commands.{directory_prefix, file_line};
ghost use Rattle.file_tables.specs.Tables.{IsThere, files_of};
ghost use Rattle.job_commands.specs.Listing.{line_of, lines_behind, name_before};

use file_tables::FileTables;
use machine_names::{DirName, FileName, FileNo};

/// The next file of a user's directory behind another file, which is there, or the first of all where none is given: its line
/// is what a listing goes on with. None exactly where no line is left. Its place is found by halves.
pub fn next_listed(tables: &FileTables, user: &DirName, after: Option<FileNo>) -> Option<FileNo>
    requires { IfSome after (λ f. IsThere tables.now f.0) }
    ensures lines { MatchOption result (lines_behind user.now (files_of tables.now) (name_before tables.now.dir after) ≡ [])
        (λ f. lines_behind user.now (files_of tables.now) (name_before tables.now.dir after)
        ≡ file_line user.now (name_of tables.now.dir f.0) ++ lines_behind user.now (files_of tables.now) (Some (name_of tables.now.dir f.0))) }
    ensures line { IfSome result (λ f. file_line user.now (name_of tables.now.dir f.0) ≡ line_of user.now (name_of tables.now.dir f.0)) }
    ensures there { IfSome result (λ f. IsThere tables.now f.0) }
{
    tables.list(user, after)
}

/// The name of a file without the directory of a user.
pub fn file_part<'a>(name: &'a FileName, user: &DirName) -> &'a [u8]
    ensures { result.now ≡ drop (length (directory_prefix user.now)) name.now }
{
    let name = name.as_slice();
    let front = user.as_slice().len() + 2;
    if front > name.len() {
        return &[];
    }
    &name[front..]
}
