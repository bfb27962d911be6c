// What each row comes to.
ghost use Rattle.std.specs.Prelude.{◌<◌};

use crate::asked::Row;
use ka10_table::{Family, row};
use outside::{MemSink, MemSource};
use std::alloc::{AllocError, Global};
use std::io::{self, Write};
use text_console::text_command;
use word36::fill_octal;

/// How many bytes a command may write where nothing fails.
const ROOM: usize = 4096;

/// The words of the command where a row has none.
const COMMAND: &str = "asm 0";

/// Prints what a row comes to.
pub(crate) fn print_answer<W: Write>(row: &Row, out: &mut W, alloc: Global) -> io::Result<()> {
    match row {
        Row::Command(words, text) => {
            let source = MemSource::new(bytes_of(text, alloc)?, Vec::new(alloc));
            print_run(words, source, ROOM, out, alloc)
        }
        Row::Failing(read, room, text) => {
            let failing = vec![in alloc; *read]?;
            let source = MemSource::new(bytes_of(text, alloc)?, failing);
            print_run(COMMAND, source, *room, out, alloc)
        }
        Row::Feeds(count) => {
            let mut feeds = Vec::new(alloc);
            feeds.resize(*count, b'\n')?;
            let source = MemSource::new(feeds, Vec::new(alloc));
            print_run(COMMAND, source, ROOM, out, alloc)
        }
        Row::Named(first) => print_named(*first, out),
    }
}

/// The byte that stands in a text for this byte of a row.
fn meant(byte: u8) -> u8 {
    match byte {
        b'/' => b'\n',
        b'_' => b'\t',
        b'!' => b'\r',
        b'#' => 0x7f,
        _ => byte,
    }
}

/// The bytes of a text as a row has it: `/` for a line feed, `_` for a tab, `!` for a carriage return, `#` for a delete.
fn bytes_of(text: &str, alloc: Global) -> Result<Vec<u8>, AllocError> {
    let mut bytes = text.as_bytes().to_vec(alloc)?;
    for byte in &mut bytes {
        *byte = meant(*byte);
    }
    Ok(bytes)
}

/// The words of a command, told apart by a space.
fn words_of(line: &str, alloc: Global) -> Result<Vec<String>, AllocError> {
    line.split(' ')
        .map(|word| String::from_str(alloc, word))
        .try_collect(alloc)
}

/// Prints the number with which a command ends, and what it writes, with `/` for each line feed.
fn print_run<W: Write>(
    words: &str,
    mut source: MemSource,
    room: usize,
    out: &mut W,
    alloc: Global,
) -> io::Result<()> {
    let words = words_of(words, alloc)?;
    let Ok(mut written) = MemSink::new(alloc, room, Vec::new(alloc)) else {
        return out.write_all(b" no memory");
    };
    let status = text_command(alloc, &words, &mut source, &mut written);
    write!(out, " {}", status.number())?;
    print_lines(written.bytes(), out)
}

/// Prints lines in one, if there is any, with `/` for each line feed.
fn print_lines<W: Write>(lines: &[u8], out: &mut W) -> io::Result<()> {
    if !lines.is_empty() {
        out.write_all(b" ")?;
    }
    for byte in lines {
        let shown = if *byte == b'\n' { b'/' } else { *byte };
        out.write_all(&[shown])?;
    }
    Ok(())
}

/// Prints which of eight opcodes are instructions that a program can name.
fn print_named<W: Write>(first: u16, out: &mut W) -> io::Result<()> {
    for op in first..first.saturating_add(8) {
        if op < 512 && is_named(op) {
            let mut digits = *b" 000";
            fill_octal(&mut digits[1..], op as u64);
            out.write_all(&digits)?;
        }
    }
    Ok(())
}

/// Whether an opcode is an instruction that a program can name.
fn is_named(op: u16) -> bool
    requires { op < 512 }
{
    let family = row(op).family;
    family != Family::Illegal && family != Family::Local
}
