// What follows from the definitions, in the words of their users. A law does nothing when it runs.
ghost use Rattle.std.specs.Prelude.{◌≡◌, ◌≢◌, ◌↔◌, ℕ, List, None, Some};
ghost use Rattle.std.specs.FinMap as map;
ghost use Rattle.machine_names.specs.declared.names.FileNo.{FileNo as AFileNo};
ghost use Rattle.plain_files.specs.Directory.{AreFiles, Creates, Files, IsAbsent};
ghost use Rattle.file_dir.specs.Listing.{IsWhole, Lists};

/// What was created is found under its name, alone, and every other file stays. What was deleted
/// is not found.
pub fn a_created_file_is_found()
    ensures found { (old : Files) (new : Files) (f : ℕ) (name : List ℕ) → Creates old new f name
        → IsAbsent old name → (g : ℕ) → (map.get new g ≡ Some name) ↔ (g ≡ f) }
    ensures others { (old : Files) (new : Files) (f : ℕ) (name : List ℕ) → Creates old new f name
        → (g : ℕ) → g ≢ f → map.get new g ≡ map.get old g }
    ensures deleted { (m : Files) (f : ℕ) (name : List ℕ) → AreFiles m → map.get m f ≡ Some name
        → IsAbsent (map.remove m f) name }
{}

/// Who asks for the next file of a directory until there is none goes through each of its files,
/// once, in the order of their names.
pub fn a_listing_is_whole()
    ensures { (m : Files) (dir : List ℕ) (fs : List AFileNo) → AreFiles m → Lists m dir None fs
        → IsWhole m dir fs }
{}
