// A line as a command.
ghost use Rattle.std.specs.Prelude.{◌≡◌};
ghost use Rattle.plain_typing.specs.Commands.{alone as command_alone, command_of, for_file, with_name as command_with_name};

use crate::words::{first_word, says};
use machine_names::{DirName, FileName};
use plain_typing::Command;
use script_lang::read_name;

/// The command that a user's line is: `Blank` exactly where it has no word, and `Unknown` exactly where
/// it is no command and not blank.
pub fn read(line: &[u8], user: &DirName) -> Command
    ensures { result ≡ command_of user.now line.now }
{
    let Some((word, rest)) = first_word(line) else {
        return Command::Blank;
    };
    let Some((name, rest)) = first_word(rest) else {
        return alone(word);
    };
    match first_word(rest) {
        Some(_) => Command::Unknown,
        None => with_name(word, name, user),
    }
}

// The command of a word that stands alone.
fn alone(word: &[u8]) -> Command
    ensures { result ≡ command_alone word.now }
{
    if says(word, b"START") {
        return Command::Start;
    }
    if says(word, b"CONTINUE") {
        return Command::Continue;
    }
    if says(word, b"DIRECTORY") {
        return Command::Directory;
    }
    if says(word, b"LOGOUT") {
        return Command::Logout;
    }
    Command::Unknown
}

// The command of a word with a name behind it.
fn with_name(word: &[u8], name: &[u8], user: &DirName) -> Command
    ensures { result ≡ command_with_name user.now word.now name.now }
{
    if says(word, b"RUN") {
        return run(read_name(name, b"SAV", user));
    }
    if says(word, b"DELETE") {
        return delete(read_name(name, b"", user));
    }
    Command::Unknown
}

// The command that runs a file.
fn run(file: Option<FileName>) -> Command
    ensures { result ≡ for_file Command.Run file }
{
    file.map_or(Command::Unknown, Command::Run)
}

// The command that deletes a file.
fn delete(file: Option<FileName>) -> Command
    ensures { result ≡ for_file Command.Delete file }
{
    file.map_or(Command::Unknown, Command::Delete)
}
