// The pages that words name.
ghost use Rattle.std.specs.Prelude.{◌≡◌, ◌<◌, nat_lt, IfOk, IfSome};
ghost use Rattle.std.specs.Option.{option_map};
ghost use Rattle.std.specs.FinMap as map;
ghost use Rattle.word36.specs.Words.{right};
ghost use Rattle.machine_names.specs.Bounds.{IsTerminal};
ghost use Rattle.machine_names.specs.declared.names.TheConstants.{SPACE_PAGES};
ghost use Rattle.plain_files.specs.NamedFiles.{open_file};
ghost use Rattle.file_tables.specs.Tables.{jfns_at};
ghost use Rattle.plain_units.specs.declared.registers.Regs.{Regs as ARegs};
ghost use Rattle.plain_model.specs.MapCalls.{on_page, place_of as place_of_word, slot_of as slot_of_word};
ghost use Rattle.file_tables.specs.Keys.{IsKnown};
ghost use Rattle.pmap_calls.specs.Asking.{IsPlaceIn, IsSlot, asked, place_by};
ghost use Rattle.call_turns.specs.Numbers.{named_by};

use file_tables::FileTables;
use fork_tree::Tree;
use machine_names::{ForkName, SPACE_PAGES, Slot};
use plain_files::Jfn;
use plain_model::call::{BAD_PAGE, FORK_SELF, NO_HANDLE, NO_JFN};
use word36::Word;

/// A page of a fork's space, or of the file of a JFN.
#[derive(Clone, Copy)]
pub enum PagePlace {
    Fork(Slot),
    File(Jfn, u16),
}

/// Whether a word's right half is the number of a page, 0 to 777 octal.
pub fn names_page(word: Word) -> bool
    ensures { result ≡ nat_lt (right word) SPACE_PAGES }
{
    (word.right() as usize) < SPACE_PAGES
}

// The page that a word names for a caller, by a handle in its left half; or NO_HANDLE.
#[tactic(auto, unfolding(plain_model::specs::MapCalls::slot_of))]
fn slot_of(tree: &Tree, who: ForkName, word: Word) -> Result<Slot, u32>
    requires { right word < SPACE_PAGES }
    ensures slot { result ≡ slot_of_word tree.now.forks who word }
    ensures sound { IfOk result IsSlot }
{
    tree.are_trees();
    match tree.fork_named(who, word.left()) {
        Some(fork) => Ok(Slot {
            fork: fork.name,
            page: word.right() as u16,
        }),
        None => Err(NO_HANDLE),
    }
}

// What a JFN of the caller's job stands for, whose file is there.
fn held(tables: &FileTables, who: ForkName, n: u32) -> Option<Jfn>
    requires { IsTerminal who.tty }
    ensures held { option_map (open_file tables.now.dir) result ≡ map.get (jfns_at tables.now who.tty.0) n }
    ensures known { IfSome result (λ jfn. IsKnown tables.now jfn.file) }
{
    tables.jfn(who.tty, n)
}

/// The page that a word names for a caller, by a handle or a JFN in its left half; or NO_HANDLE, or NO_JFN.
#[tactic(auto, unfolding(plain_model::specs::MapCalls::place_of))]
pub fn place_of(
    tree: &Tree,
    tables: &FileTables,
    who: ForkName,
    word: Word,
) -> Result<PagePlace, u32>
    requires terminal { IsTerminal who.tty }
    requires page { right word < SPACE_PAGES }
    ensures place { (regs : ARegs) → named_by (place_by tables.now) result ≡ place_of_word (asked who regs tree.now tables.now) word }
    ensures sound { IfOk result (IsPlaceIn tables.now) }
{
    let page = word.right() as u16;
    if word.left() < FORK_SELF {
        return match held(tables, who, word.left()) {
            Some(jfn) => Ok(PagePlace::File(jfn, page)),
            None => Err(NO_JFN),
        };
    }
    match slot_of(tree, who, word) {
        Ok(slot) => Ok(PagePlace::Fork(slot)),
        Err(code) => Err(code),
    }
}

/// The page of a fork that a word names; BAD_PAGE comes first.
pub fn slot_named(tree: &Tree, who: ForkName, word: Word) -> Result<Slot, u32>
    ensures slot { result ≡ on_page word (slot_of_word tree.now.forks who word) }
    ensures sound { IfOk result IsSlot }
{
    if names_page(word) {
        slot_of(tree, who, word)
    } else {
        Err(BAD_PAGE)
    }
}

/// The page of a fork or a file that a word names; BAD_PAGE comes first.
pub fn place_named(
    tree: &Tree,
    tables: &FileTables,
    who: ForkName,
    word: Word,
) -> Result<PagePlace, u32>
    requires { IsTerminal who.tty }
    ensures place { (regs : ARegs) → named_by (place_by tables.now) result ≡ on_page word (place_of_word (asked who regs tree.now tables.now) word) }
    ensures sound { IfOk result (IsPlaceIn tables.now) }
{
    if names_page(word) {
        place_of(tree, tables, who, word)
    } else {
        Err(BAD_PAGE)
    }
}
