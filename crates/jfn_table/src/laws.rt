// What follows from the definitions, in the words of their users. A law does nothing when it runs.
ghost use Rattle.std.specs.Prelude.{◌≡◌, ◌≢◌, ◌↔◌, ◌+◌, ℕ, Some, None};
ghost use Rattle.std.specs.FinMap as map;
ghost use Rattle.plain_files.specs.declared.jfn.Jfn.{Jfn as AJfn};
ghost use Rattle.plain_files.specs.JobFiles.{AreJfns, Held, NamesNowhere, names_in, taken};

/// A JFN that is taken for a file names it once more, and no other file; one that is released names
/// it no longer.
pub fn names_follow_the_jfns()
    ensures taken { (m : Held) (n : ℕ) (f : ℕ) → map.get m n ≡ None
        → names_in (map.insert m n (taken f)) f ≡ names_in m f + 1 }
    ensures others { (m : Held) (n : ℕ) (f : ℕ) (g : ℕ) → map.get m n ≡ None → g ≢ f
        → names_in (map.insert m n (taken f)) g ≡ names_in m g }
    ensures released { (m : Held) (n : ℕ) (jfn : AJfn) → map.get m n ≡ Some jfn
        → names_in m jfn.file.0 ≡ names_in (map.remove m n) jfn.file.0 + 1 }
{}

/// A file has no names exactly where no JFN stands for it.
pub fn a_file_without_names_has_no_jfn()
    ensures { (m : Held) (f : ℕ) → AreJfns m → (names_in m f ≡ 0) ↔ NamesNowhere m f }
{}
