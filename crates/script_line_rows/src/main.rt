//! Rows of lines: reads lines, and prints beside each what it is as a line of a script.
//! No layer stands above; to a reader a row is a line with its canonical line, or with the mark that it is none.
//! Stands on script_lang.
#![tactic(auto)]

use script_lang::{LineRoom, Read, read_line, write_line};
use std::alloc::Global;
use std::io::{self, BufRead, BufReader, Write};

/// Its canonical line, which the room takes; `;` where it is of a script and no event, `?` where it is of none.
fn shown<'a>(line: &[u8], room: &'a mut LineRoom) -> &'a [u8] {
    match read_line(line) {
        Read::One(event) => {
            let length = write_line(&event, room);
            &room[..length]
        }
        Read::Nothing => b";",
        Read::Bad => b"?",
    }
}

/// Reads each line of the input, and prints it with what it is.
fn print_rows<R: BufRead, W: Write>(lines: &mut R, out: &mut W, alloc: Global) -> io::Result<()> {
    let mut line = Vec::new(alloc);
    for _row in 0..u64::MAX {
        line.clear();
        if lines.read_until(b'\n', &mut line)? == 0 {
            return Ok(());
        }
        let text = line.strip_suffix(b"\n").unwrap_or(&line);
        let mut room = [0; 256];
        out.write_all(text)?;
        out.write_all(b" | ")?;
        out.write_all(shown(text, &mut room))?;
        out.write_all(b"\n")?;
    }
    Ok(())
}

fn main(rt: HostRuntime) -> io::Result<()> {
    let alloc = rt.alloc();
    let mut lines = BufReader::new(alloc, rt.stdin())?;
    let mut out = rt.stdout();
    print_rows(&mut lines, &mut out, alloc)
}
