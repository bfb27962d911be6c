// How texts are printed on one line.
use std::alloc::Global;
use std::io::{self, Write};

/// Prints a text with `/` for each line feed.
pub(crate) fn print_lines<W: Write>(text: &[u8], out: &mut W, alloc: Global) -> io::Result<()> {
    let mut shown = text.to_vec(alloc)?;
    for byte in &mut shown {
        if *byte == b'\n' {
            *byte = b'/';
        }
    }
    out.write_all(&shown)
}

/// How many whole lines two texts begin with in common, and how many bytes these have.
fn common_lines(text: &[u8], whole: &[u8]) -> (usize, usize) {
    let mut lines: usize = 0;
    let mut bytes = 0;
    for at in 0..text.len() {
        if whole.get(at) != Some(&text[at]) {
            break;
        }
        if text[at] == b'\n' {
            lines = lines.saturating_add(1);
            bytes = at + 1;
        }
    }
    (lines, bytes)
}

/// Prints with how many lines of the whole text a text begins, and what it has behind these.
pub(crate) fn print_common<W: Write>(
    text: &[u8],
    whole: &[u8],
    out: &mut W,
    alloc: Global,
) -> io::Result<()> {
    let (lines, bytes) = common_lines(text, whole);
    write!(out, "{lines}")?;
    let rest = text.get(bytes..).unwrap_or(text);
    if rest.is_empty() {
        return Ok(());
    }
    out.write_all(b" ")?;
    print_lines(rest, out, alloc)
}
