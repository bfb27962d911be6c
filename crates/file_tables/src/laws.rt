// What follows from the definitions, in the words of their users. A law does nothing when it runs.
ghost use Rattle.std.specs.Prelude.{◌≡◌, ◌≢◌, ◌↔◌, ◌<◌, ℕ, true, List, None, Some};
ghost use Rattle.std.specs.Ordering.{nat_cmp};
ghost use Rattle.std.specs.FinMap as map;
ghost use Rattle.machine_names.specs.Orders.{FilePage, file_page_cmp};
ghost use Rattle.plain_files.specs.Directory.{Creates, Files};
ghost use Rattle.plain_files.specs.NamedFiles.{AreFiled, AreNumbers, number_of, page_named, pages_named};
ghost use Rattle.plain_files.specs.OpenFiles.{IsNamed, IsNamedBesides, OpenFiles, Names, open_at, times_open_in_all};

/// A name stands for one number, and a number for one name. Where a file is made or taken away, all
/// others keep their numbers; what is made has a number that no file had.
pub fn numbers_follow_the_names()
    ensures each { (m : Files) (name : List ℕ) (f : ℕ) → AreNumbers m
        → (number_of m name ≡ Some f) ↔ (map.get m f ≡ Some name) }
    ensures made { (old : Files) (new : Files) (f : ℕ) (name : List ℕ) → AreNumbers old → Creates old new f name
        → number_of old name ≡ None → (map.get old f ≡ None) × (number_of new name ≡ Some f) }
    ensures others_made { (old : Files) (new : Files) (f : ℕ) (name : List ℕ) (other : List ℕ) → AreNumbers old
        → Creates old new f name → number_of old name ≡ None → other ≢ name → number_of new other ≡ number_of old other }
    ensures gone { (m : Files) (f : ℕ) (name : List ℕ) (other : List ℕ) → AreNumbers m → map.get m f ≡ Some name
        → other ≢ name → number_of (map.remove m f) other ≡ number_of m other }
{}

/// The pages of a file are found under its name, and only they are; a page that is put into a file
/// or taken out by number is put there or taken out by name.
pub fn pages_follow_the_names()
    ensures found { (m : Files) (pages : map.FinMap (file_page_cmp nat_cmp) ℕ) (f : ℕ) (name : List ℕ) (n : ℕ)
        → AreNumbers m → AreFiled m pages → map.get m f ≡ Some name
        → map.get (pages_named m pages) (record { file = name; page = n })
        ≡ map.get pages (record { file = f; page = n }) }
    ensures none { (m : Files) (pages : map.FinMap (file_page_cmp nat_cmp) ℕ) (name : List ℕ) (n : ℕ)
        → AreNumbers m → AreFiled m pages → number_of m name ≡ None
        → map.get (pages_named m pages) (record { file = name; page = n }) ≡ None }
    ensures put { (m : Files) (pages : map.FinMap (file_page_cmp nat_cmp) ℕ) (at : FilePage ℕ) (k : ℕ)
        → AreNumbers m → AreFiled m pages → map.contains_key m at.file ≡ true
        → pages_named m (map.insert pages at k) ≡ map.insert (pages_named m pages) (page_named m at) k }
    ensures gone { (m : Files) (pages : map.FinMap (file_page_cmp nat_cmp) ℕ) (at : FilePage ℕ)
        → AreNumbers m → AreFiled m pages → map.contains_key m at.file ≡ true
        → pages_named m (map.remove pages at) ≡ map.remove (pages_named m pages) (page_named m at) }
{}

/// A file is named exactly where some JFN names it. Where a JFN names it and it is named more than
/// once, another JFN names it too.
pub fn times_follow_the_jfns()
    ensures named { (jobs : List OpenFiles) (name : List ℕ)
        → (0 < times_open_in_all jobs name) ↔ IsNamed jobs name }
    ensures besides { (jobs : List OpenFiles) (t : ℕ) (n : ℕ) (name : List ℕ) → Names (open_at jobs t) n name
        → (1 < times_open_in_all jobs name) ↔ IsNamedBesides jobs t n name }
{}
