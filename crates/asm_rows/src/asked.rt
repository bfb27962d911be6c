// What a row asks.

/// What a row asks.
#[derive(Drop)]
pub(crate) enum Row<'a> {
    /// `COMMAND words|text`: the command with these words, on this text.
    Command(&'a str, &'a str),
    /// `FAILING read room|text`: the command on this text, where the source's read of this number fails, and there is room
    /// for so many bytes.
    Failing(u64, usize, &'a str),
    /// `FEEDS count`: the command on a text of so many line feeds.
    Feeds(usize),
    /// `NAMED opcode`: which of the eight opcodes from this one on are instructions that a program can name.
    Named(u16),
}

/// The row that a line is.
pub(crate) fn read_row(line: &str) -> Option<Row<'_>> {
    let (name, rest) = line.split_once(' ')?;
    match name.as_bytes() {
        b"COMMAND" => {
            let (words, text) = rest.split_once('|')?;
            Some(Row::Command(words, text))
        }
        b"FAILING" => {
            let (numbers, text) = rest.split_once('|')?;
            let (read, room) = numbers.split_once(' ')?;
            Some(Row::Failing(read.parse().ok()?, room.parse().ok()?, text))
        }
        b"FEEDS" => Some(Row::Feeds(rest.parse().ok()?)),
        b"NAMED" => Some(Row::Named(u16::from_str_radix(rest, 8).ok()?)),
        _ => None,
    }
}
