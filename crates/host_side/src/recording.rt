//! The file of the record: it is made anew, and no other run in the same folder writes it meanwhile.
use std::fs::{self, File, OpenOptions, TryLockError};
use std::io;
use std::os::unix::fs::FileTypeExt;
use std::rt::Files;

/// The file in the current folder that takes the record.
pub const RECORD: &str = "tenex.record";

/// The record of a run that begins.
#[derive(Drop)]
pub struct Record {
    /// The file, empty.
    pub file: File,

    // What keeps other runs from it, for as long as it lives.
    _held: Option<File>,
}

/// Whether a pipe stands in the place of the record: the run would wait for someone to read it.
fn is_pipe<R: Files>(rt: &R) -> bool {
    match fs::metadata(rt, RECORD) {
        Ok(found) => found.file_type().is_fifo(),
        Err(_) => false,
    }
}

/// Keeps other runs from the record, before anything of it is lost. None: a device stands in its place, which runs may
/// share. A file system without locks keeps nobody out.
fn keep_others_out<R: Files<File = File>>(rt: &R) -> io::Result<Option<File>> {
    let held = OpenOptions::new()
        .write(true)
        .create(true)
        .open(rt, RECORD)?;
    if !held.metadata()?.is_file() {
        return Ok(None);
    }
    match held.try_lock() {
        Err(TryLockError::WouldBlock) => Err(io::Error::other("another run writes the record")),
        Ok(()) | Err(TryLockError::Error(_)) => Ok(Some(held)),
    }
}

/// Makes the file of the record anew. Err: it can't be made, or another run writes it, which is left as it is.
pub fn make_record<R: Files<File = File>>(rt: &R) -> io::Result<Record> {
    if is_pipe(rt) {
        return Err(io::Error::other("a pipe can't take the record"));
    }
    let held = keep_others_out(rt)?;
    Ok(Record {
        file: fs::create(rt, RECORD)?,
        _held: held,
    })
}
