// What a row asks.
use std::alloc::{AllocError, Global};

/// What a row asks of a script, or of the generated script of a seed.
#[derive(Drop)]
pub(crate) enum Row<'a> {
    /// `ENDS script`: how it ends, in pieces of each size and from memory.
    Ends(&'a str),
    /// `FAILING most read script`: how it ends in pieces of so many bytes at most, where the read of this number fails.
    Failing(usize, u64, &'a str),
    /// `READS script`: whether it is read only where that was told.
    Reads(&'a str),
    /// `ENDLESS line`: how a line ends that comes for ever.
    Endless(&'a str),
    /// `SEED seed`: all its events.
    Seed(u32),
    /// `BEHIND seed events`: its event behind so many.
    Behind(u32, usize),
}

/// The row that a line is.
pub(crate) fn read_row(line: &str) -> Option<Row<'_>> {
    let (name, rest) = line.split_once(' ')?;
    match name.as_bytes() {
        b"ENDS" => Some(Row::Ends(rest)),
        b"FAILING" => {
            let (most, rest) = rest.split_once(' ')?;
            let (read, script) = rest.split_once(' ')?;
            Some(Row::Failing(most.parse().ok()?, read.parse().ok()?, script))
        }
        b"READS" => Some(Row::Reads(rest)),
        b"ENDLESS" => Some(Row::Endless(rest)),
        b"SEED" => Some(Row::Seed(rest.parse().ok()?)),
        b"BEHIND" => {
            let (seed, events) = rest.split_once(' ')?;
            Some(Row::Behind(seed.parse().ok()?, events.parse().ok()?))
        }
        _ => None,
    }
}

/// The bytes of a script, of which a row has `/` for each line feed, and `*` for a thousand letters.
pub(crate) fn script_of(text: &str, alloc: Global) -> Result<Vec<u8>, AllocError> {
    let mut script = Vec::new(alloc);
    for byte in text.as_bytes() {
        match *byte {
            b'/' => script.push(b'\n')?,
            b'*' => script.extend_from_slice(&[b'A'; 1000])?,
            other => script.push(other)?,
        }
    }
    Ok(script)
}
