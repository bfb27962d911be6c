// Files that are named, and commands to the monitor.
use machine_names::FileName;
use plain_typing::Command;
use std::io::{self, Write};

/// Prints the full name of a file.
pub(crate) fn show_name<W: Write>(name: Option<FileName>, out: &mut W) -> io::Result<()> {
    match name {
        Some(name) => out.write_all(name.as_slice()),
        None => out.write_all(b"nothing"),
    }
}

/// Prints a command, with the full name of its file.
pub(crate) fn show_command<W: Write>(command: &Command, out: &mut W) -> io::Result<()> {
    match command {
        Command::Blank => out.write_all(b"blank"),
        Command::Run(name) => show_file(b"run ", name, out),
        Command::Start => out.write_all(b"start"),
        Command::Continue => out.write_all(b"continue"),
        Command::Directory => out.write_all(b"directory"),
        Command::Delete(name) => show_file(b"delete ", name, out),
        Command::Logout => out.write_all(b"logout"),
        Command::Unknown => out.write_all(b"unknown"),
    }
}

/// Prints a word and the full name of a file behind it.
fn show_file<W: Write>(word: &[u8], name: &FileName, out: &mut W) -> io::Result<()> {
    out.write_all(word)?;
    out.write_all(name.as_slice())
}
