//! The file of the drum: it is made anew, and no other run in the same folder uses it meanwhile.
use std::fs::{File, OpenOptions, TryLockError};
use std::io;
use std::rt::Files;

/// The file in the current folder in which the pages stand that are not in core.
pub const DRUM: &str = "tenex.drum";

/// Makes the file of the drum anew, open to be read and written, and keeps other runs from it for as long as it is open; a
/// file system without locks keeps nobody out. Err: it can't be made, or another run uses it, which is left as it is.
pub fn make_drum<R: Files<File = File>>(rt: &R) -> io::Result<File> {
    let file = OpenOptions::new()
        .read(true)
        .write(true)
        .create(true)
        .open(rt, DRUM)?;
    if !file.metadata()?.is_file() {
        return Err(io::Error::other("the drum has to be a file"));
    }
    if let Err(TryLockError::WouldBlock) = file.try_lock() {
        return Err(io::Error::other("another run uses the drum"));
    }
    file.set_len(0)?;
    Ok(file)
}
