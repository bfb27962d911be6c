// The files that there are.
ghost use Rattle.std.specs.Prelude.{◌≡◌, ◌<◌, ◌≤◌, ◌↔◌, ℕ, IfOk, IfSome, IsSome, IsTrue, MatchOption, MatchResult, Some};
ghost use Rattle.std.specs.FinMap as map;
ghost use Rattle.machine_names.specs.Bounds.{IsFileName};
ghost use Rattle.plain_files.specs.Directory.{AreFiles, ComesAfter, Creates, IsAbsent, IsNext};
ghost use Rattle.file_dir.specs.Listing.{ComesLater, IsFollowing};

use crate::order::{Names, count_before, place_behind, place_of};
use crate::reading::joined;
use machine_names::{DirName, FileName, FileNo, MOST_FILES};
use number_map::NumberMap;
use outside::Memory;
use std::alloc::Global;
use std::marker::Model;

/// There are as many files as there may be.
#[derive(Clone, Copy, PartialEq, Eq)]
pub struct FilesFull;

/// The files that there are, each under its number, below 512, with its full name `<DIR>NAME.EXT`.
#[derive(Drop)]
pub struct Dir {
    names: Names,
    // The files in the order of their names.
    order: Vec<FileNo>,
}

impl Model for Dir {
    ghost use Rattle.std.specs.Prelude.{◌≤◌};
    ghost use Rattle.std.specs.Coded.{coded_list, coded_ℕ};
    ghost use Rattle.std.specs.FinMap as map;
    ghost use Rattle.std.specs.Vec.{vec_capacity};
    ghost use Rattle.machine_names.specs.declared.names.TheConstants.{MOST_FILES};
    ghost use Rattle.plain_files.specs.Directory.{AreFiles, Files};
    ghost use Rattle.file_dir.specs.Order.{IsOrder};

    ghost Value = { Files };

    ghost coded = { map.code coded_ℕ (coded_list coded_ℕ) };

    ghost view = { λ t. t.names };

    ghost invariant = { λ t. AreFiles t.names × IsOrder t.names t.order.items
        × (MOST_FILES ≤ vec_capacity t.order) };
}

impl Dir {
    /// There is no file.
    pub fn boot(alloc: Global) -> Result<Self, Memory>
        ensures { IfOk result (λ files. files ≡ map.empty) }
    {
        Ok(Dir {
            names: NumberMap::boot(alloc)?,
            order: Vec::with_capacity(alloc, MOST_FILES)?,
        })
    }

    /// The full name of a file, which is there.
    pub fn name_of(&self, f: FileNo) -> FileName
        requires { IsSome (map.get self.now f.0) }
        ensures name { map.get self.now f.0 ≡ Some result }
        ensures named { IsFileName result }
    {
        self.names.get(f.0 as usize).unwrap()
    }

    /// The file with a full name. None exactly where there is none. Its place in the order of the
    /// names is found by halves.
    pub fn find(&self, name: &FileName) -> Option<FileNo>
        ensures found { MatchOption result (IsAbsent self.now name.now)
            (λ f. map.get self.now f.0 ≡ Some name.now) }
        ensures files { AreFiles self.now }
    {
        let place = count_before(&self.order, &self.names, name.as_slice());
        let f = *self.order.get(place)?;
        (self.name_of(f).as_slice() == name.as_slice()).then_some(f)
    }

    /// Whether there may be one more file.
    pub fn has_room(&self) -> bool
        ensures { IsTrue result ↔ (map.len self.now < MOST_FILES) }
    {
        self.order.len() < MOST_FILES
    }

    /// Makes a file of this name, which isn't there, under the least number that is free. FilesFull
    /// exactly where there are as many files as there may be, and then nothing changes. What it
    /// costs grows with the number of files.
    pub fn create(&mut self, name: &FileName) -> Result<FileNo, FilesFull>
        requires name { IsFileName name.now }
        requires absent { IsAbsent self.old name.now }
        ensures { MatchResult result (λ f. Creates self.old self.new f.0 name.now)
            (λ _. (map.len self.old ≡ MOST_FILES) × (self.new ≡ self.old)) }
    {
        let Some(n) = self.names.first_free(0) else {
            return Err(FilesFull);
        };
        let f = FileNo(n as u16);
        let place = count_before(&self.order, &self.names, name.as_slice());
        let Ok(()) = self.order.insert(place, f) else {
            // There is room for every file from the start.
            unreachable!();
        };
        self.names.insert(n, *name);
        Ok(f)
    }

    /// Takes a file away, which is there. Its number and its name are then free.
    pub fn delete(&mut self, f: FileNo)
        requires { IsSome (map.get self.old f.0) }
        ensures { self.new ≡ map.remove self.old f.0 }
    {
        let place = place_of(&self.order, &self.names, f);
        self.order.remove(place);
        self.names.remove(f.0 as usize);
    }

    /// The first file of a directory whose full name comes after that of another file, which is
    /// there, or the first of all where none is given; byte by byte, so that `A-.B` comes before
    /// `A.B`. None exactly where there is none. Its place is found by halves.
    pub fn list(&self, dir: &DirName, after: Option<FileNo>) -> Option<FileNo>
        requires { IfSome after (λ f. IsSome (map.get self.now f.0)) }
        ensures { MatchOption result ((f : ℕ) → ComesAfter self.now dir.now after f → ⊥)
            (λ f. IsNext self.now dir.now after f.0) }
    {
        let behind = place_behind(&self.order, &self.names, after);
        let front = joined(&[b"<", dir.as_slice(), b">"])?;
        let first = count_before(&self.order, &self.names, front.as_slice());
        let place = first.max(behind);
        let f = *self.order.get(place)?;
        let belongs = self.name_of(f).as_slice().starts_with(front.as_slice());
        belongs.then_some(f)
    }

    /// The first of all files whose full name comes after that of another file, which is there, or
    /// the first of all where none is given; byte by byte. None exactly where there is none. Its
    /// place is found by halves.
    pub fn all(&self, after: Option<FileNo>) -> Option<FileNo>
        requires { IfSome after (λ f. IsSome (map.get self.now f.0)) }
        ensures { MatchOption result ((f : ℕ) → ComesLater self.now after f → ⊥)
            (λ f. IsFollowing self.now after f.0) }
    {
        let place = place_behind(&self.order, &self.names, after);
        let f = *self.order.get(place)?;
        Some(f)
    }

    /// How many files there are.
    pub fn count(&self) -> usize
        ensures number { result ≡ map.len self.now }
        ensures most { result ≤ MOST_FILES }
    {
        self.order.len()
    }
}
