// The files by name and by number.
ghost use Rattle.std.specs.Prelude.{◌≡◌, ◌≤◌, ◌<◌, ◌↔◌, ℕ, IfSome, IsSome, IsTrue, MatchOption, None, Some, [], ◌∷◌};
ghost use Rattle.std.specs.Option.{IsSomeAnd, option_map};
ghost use Rattle.std.specs.FinMap as map;
ghost use Rattle.machine_names.specs.Bounds.{IsFileName};
ghost use Rattle.plain_files.specs.Bytes.{IsByteSize, most_bytes};
ghost use Rattle.machine_names.specs.declared.names.TheConstants.{MOST_FILES as MOST};
ghost use Rattle.plain_files.specs.Directory.{ComesAfter, Creates, IsNext};
ghost use Rattle.plain_files.specs.NamedFiles.{name_of, number_of};
ghost use Rattle.plain_files.specs.Sizes.{FitsFile, new_file};
ghost use Rattle.file_tables.specs.InOrder.{files_after, name_given};
ghost use Rattle.file_tables.specs.Tables.{IsThere, OpenStay, file_of, files_of, times_of};

use crate::FileTables;
use machine_names::{DirName, FileName, FileNo};
use plain_files::LARGEST_BYTE;

impl FileTables {
    /// The number of the file with a full name. None exactly where there is none. It is found by
    /// halves.
    pub fn find(&self, name: &FileName) -> Option<FileNo>
        ensures number { option_map (λ f. f.0) result ≡ number_of self.now.dir name.now }
        ensures found { MatchOption result (map.get (files_of self.now) name.now ≡ None)
            (λ f. IsThere self.now f.0 × (name_of self.now.dir f.0 ≡ name.now)) }
    {
        self.dir.find(name)
    }

    /// The full name of a file, which is there.
    pub fn name_of(&self, f: FileNo) -> FileName
        requires { IsThere self.now f.0 }
        ensures name { result ≡ name_of self.now.dir f.0 }
        ensures named { IsFileName result }
        ensures number { number_of self.now.dir result ≡ Some f.0 }
    {
        self.dir.name_of(f)
    }

    /// The first file of a directory whose full name comes after that of another file, which is
    /// there, or the first of all where none is given; byte by byte. None exactly where there is
    /// none. Its place is found by halves.
    pub fn list(&self, user: &DirName, after: Option<FileNo>) -> Option<FileNo>
        requires { IfSome after (λ f. IsThere self.now f.0) }
        ensures next { MatchOption result ((f : ℕ) → ComesAfter self.now.dir user.now after f → ⊥)
            (λ f. IsNext self.now.dir user.now after f.0) }
        ensures there { IfSome result (λ f. IsThere self.now f.0) }
    {
        self.dir.list(user, after)
    }

    /// The next of all files in the order of their names: the first whose full name comes after that
    /// of another file, which is there, or the first of all where none is given. None exactly where
    /// there is none. Its place is found by halves.
    pub fn all(&self, after: Option<FileNo>) -> Option<FileNo>
        requires { IfSome after (λ f. IsThere self.now f.0) }
        ensures next { MatchOption result (files_after self.now (name_given self.now after) ≡ [])
            (λ f. IsSomeAnd (file_of self.now f.0) (λ file. files_after self.now (name_given self.now after)
            ≡ (name_of self.now.dir f.0, file) ∷ files_after self.now (Some (name_of self.now.dir f.0)))) }
        ensures there { IfSome result (λ f. IsThere self.now f.0) }
    {
        self.dir.all(after)
    }

    /// How many files there are, at most 512.
    pub fn count(&self) -> usize
        ensures number { result ≡ map.len (files_of self.now) }
        ensures most { result ≤ MOST }
    {
        self.dir.count()
    }

    /// Whether there may be one more file: below 512.
    pub fn has_room(&self) -> bool
        ensures { IsTrue result ↔ (map.len (files_of self.now) < MOST) }
    {
        self.dir.has_room()
    }

    /// Makes a file of this name, without a byte, its bytes as large as words. Its number was that
    /// of no file; all others stay. What it costs grows with the number of files.
    pub fn create(&mut self, name: &FileName) -> FileNo
        requires name { IsFileName name.now }
        requires absent { map.get (files_of self.old) name.now ≡ None }
        requires room { map.len (files_of self.old) < MOST }
        ensures files { files_of self.new ≡ map.insert (files_of self.old) name.now new_file }
        ensures number { Creates self.old.dir self.new.dir result.0 name.now }
        ensures jfns { OpenStay self.old self.new }
    {
        let Ok(f) = self.dir.create(name) else {
            // There is room for one more.
            unreachable!();
        };
        self.lengths.set_length(f, 0, LARGEST_BYTE);
        f
    }

    /// Takes a file away, which is there, and which no JFN names. Its number and its name are then
    /// free; all other files keep theirs.
    pub fn delete(&mut self, f: FileNo)
        requires there { IsThere self.old f.0 }
        requires unnamed { times_of self.old f.0 ≡ 0 }
        ensures files { files_of self.new ≡ map.remove (files_of self.old) (name_of self.old.dir f.0) }
        ensures number { self.new.dir ≡ map.remove self.old.dir f.0 }
        ensures jfns { OpenStay self.old self.new }
    {
        self.dir.delete(f);
    }

    /// How many bytes a file has, which is there.
    pub fn length(&self, f: FileNo) -> u64
        requires { IsThere self.now f.0 }
        ensures { IsSomeAnd (file_of self.now f.0) (λ file. (result ≡ file.length) × FitsFile file) }
    {
        self.lengths.length(f)
    }

    /// How many bits the bytes of a file have, which is there: 1 to 36.
    pub fn size(&self, f: FileNo) -> u8
        requires { IsThere self.now f.0 }
        ensures { IsSomeAnd (file_of self.now f.0) (λ file. (result ≡ file.size) × FitsFile file) }
    {
        self.lengths.size(f)
    }

    /// Gives a file, which is there, another length, in bytes of so many bits, 1 to 36.
    pub fn set_length(&mut self, f: FileNo, length: u64, size: u8)
        requires there { IsThere self.old f.0 }
        requires size { IsByteSize size }
        requires room { length ≤ most_bytes size }
        ensures files { files_of self.new
            ≡ map.insert (files_of self.old) (name_of self.old.dir f.0) (record { length = length; size = size }) }
        ensures numbers { self.new.dir ≡ self.old.dir }
        ensures jfns { OpenStay self.old self.new }
    {
        self.lengths.set_length(f, length, size);
    }
}
