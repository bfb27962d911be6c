// What the words of a command ask for.
use command_words::{
    EventSource, RecordCommand, RecordRequest, Request, TextRequest, asked_run, asked_text,
};
use std::alloc::{AllocError, Global};
use std::io::{self, Write};

/// The words of a text, each behind a space.
fn words_of(text: &str, alloc: Global) -> Result<Vec<String>, AllocError> {
    text.split(' ')
        .skip(1)
        .map(|word| String::from_str(alloc, word))
        .try_collect(alloc)
}

/// Prints what is asked of a run.
fn show_run<W: Write>(asked: Option<Request>, out: &mut W) -> io::Result<()> {
    let Some(request) = asked else {
        return out.write_all(b"nothing");
    };
    match request.events {
        EventSource::Script => out.write_all(b"script")?,
        EventSource::Generated(seed) => write!(out, "seed {seed}")?,
    }
    let sizes = request.sizes;
    write!(out, ", frames {}, drum {}", sizes.frames, sizes.drum)
}

/// Prints what is asked of a record.
fn show_record<W: Write>(request: RecordRequest, out: &mut W) -> io::Result<()> {
    match request.command {
        RecordCommand::Replay => out.write_all(b"replay")?,
        RecordCommand::Image => out.write_all(b"image")?,
    }
    write!(out, ", drum {}", request.drum)
}

/// Prints what is asked of a text.
fn show_text<W: Write>(asked: Option<TextRequest>, out: &mut W) -> io::Result<()> {
    match asked {
        None => out.write_all(b"nothing"),
        Some(TextRequest::Record(request)) => show_record(request, out),
        Some(TextRequest::Assemble(terminal)) => write!(out, "asm {}", terminal.0),
    }
}

/// Prints what words, each behind a space, ask of a run and of a text. False where they are no text, or there is no memory.
pub(crate) fn show_asked<W: Write>(text: &[u8], out: &mut W, alloc: Global) -> io::Result<bool> {
    let Ok(text) = str::from_utf8(text) else {
        return Ok(false);
    };
    let words = words_of(text, alloc)?;
    let (Ok(run), Ok(text)) = (asked_run(alloc, &words), asked_text(alloc, &words)) else {
        return Ok(false);
    };
    show_run(run, out)?;
    out.write_all(b" | ")?;
    show_text(text, out)?;
    Ok(true)
}
