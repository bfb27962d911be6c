// The lengths of files.
ghost use Rattle.std.specs.Prelude.{◌≡◌, ◌<◌, ◌≤◌, IfOk, replicate, slice_set};
ghost use Rattle.plain_files.specs.Bytes.{IsByteSize, most_bytes as room_for};
ghost use Rattle.plain_files.specs.Sizes.{FitsFile, file_at, new_file};

use machine_names::{FileNo, MOST_FILES};
use outside::Memory;
use plain_files::LARGEST_BYTE;
use std::alloc::Global;
use std::marker::Model;

// How many bytes a file has, and of how many bits.
#[derive(Clone, Copy, PartialEq, Eq)]
struct FileLength {
    length: u64,
    size: u8,
}

/// The length of each file in bytes, and how many bits its bytes have.
#[derive(Drop)]
pub struct Lengths {
    files: Vec<FileLength>,
}

impl Model for Lengths {
    ghost use Rattle.std.specs.Prelude.{◌≡◌, List, All, vec_len};
    ghost use Rattle.plain_files.specs.Sizes.{PlainFile};
    ghost use Rattle.machine_names.specs.declared.names.TheConstants.{MOST_FILES};
    ghost use Rattle.page_files.specs.Sizes.{plain_files};
    ghost use Rattle.plain_files.specs.Sizes.{FitsFile};

    ghost Value = { List PlainFile };

    ghost view = { λ t. plain_files t.files.items };

    ghost invariant = { λ t. (vec_len t.files ≡ MOST_FILES) × All FitsFile (plain_files t.files.items) };
}

impl Lengths {
    /// Each file has no byte, and bytes of 36 bits.
    pub fn boot(alloc: Global) -> Result<Self, Memory>
        ensures { IfOk result (λ files. files ≡ replicate MOST_FILES new_file) }
    {
        let none = FileLength {
            length: 0,
            size: LARGEST_BYTE,
        };
        Ok(Lengths {
            files: vec![in alloc; none; MOST_FILES]?,
        })
    }

    /// How many bytes a file has, at most as many as it has room for.
    pub fn length(&self, f: FileNo) -> u64
        requires { f.0 < MOST_FILES }
        ensures value { result ≡ (file_at self.now f.0).length }
        ensures fits { FitsFile (file_at self.now f.0) }
    {
        self.files[f.0 as usize].length
    }

    /// How many bits the bytes of a file have, 1 to 36.
    pub fn size(&self, f: FileNo) -> u8
        requires { f.0 < MOST_FILES }
        ensures value { result ≡ (file_at self.now f.0).size }
        ensures fits { FitsFile (file_at self.now f.0) }
    {
        self.files[f.0 as usize].size
    }

    /// Gives a file another length, in bytes of so many bits.
    pub fn set_length(&mut self, f: FileNo, length: u64, size: u8)
        requires file { f.0 < MOST_FILES }
        requires size { IsByteSize size }
        requires room { length ≤ room_for size }
        ensures { self.new ≡ slice_set self.old f.0 (record { length = length; size = size }) }
    {
        self.files[f.0 as usize] = FileLength { length, size };
    }
}
