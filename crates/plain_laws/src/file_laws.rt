// What the definitions of the events of files say, in the words of those who use them. A law does nothing when it runs.
ghost use Rattle.std.specs.Prelude.{◌≡◌, ◌≢◌, ◌⊎◌, ◌↔◌, ◌+◌, ◌<◌, ◌≤◌, ℕ, List, [], true, false, None, IsSome, slice_index, take};
ghost use Rattle.std.specs.List.{Contains};
ghost use Rattle.std.specs.FinMap as map;
ghost use Rattle.script_texts.specs.declared.event.WordRow.{WordRow as AWordRow};
ghost use Rattle.machine_names.specs.declared.names.TheConstants.{MOST_FILES};
ghost use Rattle.plain_model.specs.State.{PlainState};
ghost use Rattle.plain_model.specs.Unit.{refused};
ghost use Rattle.plain_model.specs.FileEvents.{page_named};
ghost use Rattle.plain_pages.specs.Room.{live};
ghost use Rattle.plain_pages.specs.References.{page_at};
ghost use Rattle.script_texts.specs.Limits.{FitsRow};
ghost use Rattle.plain_laws.specs.Whole.{IsWhole};
ghost use Rattle.plain_laws.specs.FileLaws.{HasPage, IsNewFile, ChangesFile, WritesRow, file_word, made_file, words_put, page_shown};

use script_texts::{Item, Refusal};

/// FILE is refused exactly where a file has the name and where there are as many files as there may be, and then
/// changes nothing; else it makes a file without a byte and without a page, and changes nothing else.
pub fn files_are_made_once()
    ensures exists { (s : PlainState) (name : List ℕ) → map.contains_key s.files name ≡ true → made_file s name ≡ refused s (Refusal.Exists name) }
    ensures full { (s : PlainState) (name : List ℕ) → map.contains_key s.files name ≡ false → MOST_FILES ≤ map.len s.files → made_file s name ≡ refused s (Refusal.FilesFull name) }
    ensures made { (s : PlainState) (name : List ℕ) → IsWhole s → map.contains_key s.files name ≡ false → map.len s.files < MOST_FILES
        → ((made_file s name).items ≡ []) × IsNewFile (made_file s name).state name × ChangesFile s (made_file s name).state name }
{}

/// WORDS is refused exactly where no file has the name and where a page that is not there finds no room, and then
/// changes nothing; else the words stand in the page, no other word changes, and one page more lives exactly
/// where the page was not there.
pub fn words_are_put()
    ensures no_file { (s : PlainState) (name : List ℕ) (page offset : ℕ) (row : AWordRow) → map.contains_key s.files name ≡ false
        → words_put s name page offset row ≡ refused s (Refusal.NoFile name) }
    ensures full { (s : PlainState) (name : List ℕ) (page offset : ℕ) (row : AWordRow) → IsWhole s → map.contains_key s.files name ≡ true
        → page_at s.pages (page_named name page) ≡ None → s.pages.limit ≤ live s.pages → words_put s name page offset row ≡ refused s (Refusal.FileFull name) }
    ensures put { (s : PlainState) (name : List ℕ) (page offset : ℕ) (row : AWordRow) → IsWhole s → FitsRow offset row → map.contains_key s.files name ≡ true
        → HasPage s name page ⊎ (live s.pages < s.pages.limit)
        → ((words_put s name page offset row).items ≡ []) × WritesRow s (words_put s name page offset row).state name page offset (take row.count row.words) }
{}

/// PAGE changes nothing. It is refused exactly where no file has the name and where the file has no such page; else
/// it shows each word of the page that isn't 0, with its offset, and no other.
pub fn pages_are_shown()
    ensures stays { (s : PlainState) (name : List ℕ) (page : ℕ) → (page_shown s name page).state ≡ s }
    ensures no_file { (s : PlainState) (name : List ℕ) (page : ℕ) → map.contains_key s.files name ≡ false → page_shown s name page ≡ refused s (Refusal.NoFile name) }
    ensures no_page { (s : PlainState) (name : List ℕ) (page : ℕ) → map.contains_key s.files name ≡ true → page_at s.pages (page_named name page) ≡ None
        → page_shown s name page ≡ refused s (Refusal.NoFilePage name) }
    ensures shown { (s : PlainState) (name : List ℕ) (page offset word : ℕ) → IsWhole s → HasPage s name page
        → Contains (page_shown s name page).items (Item.PageWord offset word) ↔ ((file_word s name page offset ≡ word) × (word ≢ 0)) }
    ensures written { (s : PlainState) (name : List ℕ) (page offset : ℕ) (row : AWordRow) (i : ℕ) → IsWhole s → FitsRow offset row → map.contains_key s.files name ≡ true
        → HasPage s name page ⊎ (live s.pages < s.pages.limit) → i < row.count → slice_index row.words i ≢ 0
        → Contains (page_shown (words_put s name page offset row).state name page).items (Item.PageWord (offset + i) (slice_index row.words i)) }
{}
