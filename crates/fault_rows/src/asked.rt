// What a line of rows asks.
use crate::fault::Call;

/// What a line of rows asks.
#[derive(Drop)]
pub(crate) enum Row<'a> {
    /// `; text`.
    Comment,
    /// `COMMAND words`, or `COMMAND` alone: a command, whose script is still empty.
    Command(Option<&'a str>),
    /// `LINE text`: one more line of its script.
    Line(&'a str),
    /// `DRUM pages`: its drum has so many pages.
    Drum(u32),
    /// `WHOLE`: runs it where nothing fails.
    Whole,
    /// `CALL first last`: runs it once for each of these numbers of a call, which fails.
    Failing(&'a str, Call, u64, u64),
}

/// The calls by their names.
fn call_named(name: &str) -> Option<Call> {
    match name.as_bytes() {
        b"CUT" => Some(Call::Cut),
        b"READ" => Some(Call::Read),
        b"READ-BYTE" => Some(Call::ReadByte),
        b"OUT" => Some(Call::OutWrite),
        b"OUT-FLUSH" => Some(Call::OutFlush),
        b"RECORD" => Some(Call::RecordWrite),
        b"RECORD-FLUSH" => Some(Call::RecordFlush),
        b"DRUM-READ" => Some(Call::DrumRead),
        b"DRUM-WRITE" => Some(Call::DrumWrite),
        b"PAGES" => Some(Call::Pages),
        b"CHANGING" => Some(Call::Changing),
        _ => None,
    }
}

/// The row of a call and its numbers.
fn failing<'a>(name: &'a str, numbers: &str) -> Option<Row<'a>> {
    let call = call_named(name)?;
    let (first, last) = numbers.split_once(' ')?;
    Some(Row::Failing(name, call, first.parse().ok()?, last.parse().ok()?))
}

/// What a word asks with nothing behind it.
fn word_alone<'a>(word: &str) -> Option<Row<'a>> {
    match word.as_bytes() {
        b"COMMAND" => Some(Row::Command(None)),
        b"WHOLE" => Some(Row::Whole),
        _ => None,
    }
}

/// What a line asks.
pub(crate) fn read_row(line: &str) -> Option<Row<'_>> {
    if line.starts_with(';') {
        return Some(Row::Comment);
    }
    let Some((name, rest)) = line.split_once(' ') else {
        return word_alone(line);
    };
    match name.as_bytes() {
        b"COMMAND" => Some(Row::Command(Some(rest))),
        b"LINE" => Some(Row::Line(rest)),
        b"DRUM" => Some(Row::Drum(rest.parse().ok()?)),
        _ => failing(name, rest),
    }
}
