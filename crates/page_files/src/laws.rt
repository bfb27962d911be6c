// What follows from the definitions, in the words of their users. A law does nothing when it runs.
ghost use Rattle.std.specs.Prelude.{ℕ};
ghost use Rattle.std.specs.FinMap as map;
ghost use Rattle.machine_names.specs.Orders.{FilePage};
ghost use Rattle.plain_files.specs.Bytes.{IsByteSize, IsNextPlace};
ghost use Rattle.page_files.specs.Pages.{OthersStay, PagesOf};

/// Each byte of a file stands next to the one before it: to its right in the same word, or leftmost
/// in the next word.
pub fn bytes_follow_each_other()
    ensures { (size : ℕ) (at : ℕ) → IsByteSize size → IsNextPlace size at }
{}

/// A page that is put into a file or taken out of it leaves every other page of every file.
pub fn others_keep_their_pages()
    ensures put { (pages : PagesOf ℕ) (at : FilePage ℕ) (k : ℕ) → OthersStay pages (map.insert pages at k) at }
    ensures gone { (pages : PagesOf ℕ) (at : FilePage ℕ) → OthersStay pages (map.remove pages at) at }
{}
