// GTJFN: the file that a text names, and how the call ends with that.
ghost use Rattle.std.specs.Prelude.{◌≡◌, ◌<◌, ◌≤◌, ◌^◌, ◌/◌, ◌%◌, ◌==◌, [], IfSome, List, MatchOption, ℕ, length, slice_index};
ghost use Rattle.std.specs.Option.{option_and_then};
ghost use Rattle.std.specs.List.{All};
ghost use Rattle.machine_names.specs.Bounds.{IsFileName, IsTerminal};
ghost use Rattle.machine_names.specs.FileNames.{file_named as file_named_of};
ghost use Rattle.plain_pages.specs.PlainPages.{NumberedPages};
ghost use Rattle.plain_model.specs.Calls.{turn_on};
ghost use Rattle.plain_model.specs.FileCalls.{JfnAsked, taking as taking_of, telling as telling_of};
ghost use Rattle.call_turns.specs.Turns.{FitsEnd, IsRegs};
ghost use Rattle.text_pointers.specs.Reading.{bytes_of};
ghost use Rattle.file_calls.specs.Asking.{asked_of, named_turn, names_of};
ghost use Rattle.file_calls.specs.Changing.{IsSound};

use crate::jfns::skipping;
use arrayvec::ArrayVec;
use call_turns::with_ac;
use file_dir::read_name;
use file_tables::FileTables;
use machine_names::{DirName, FileName, ForkName};
use plain_model::call::{BAD_NAME, End, FILES_FULL, FileChange, JFNS_FULL, NO_FILE};
use plain_model::text::MOST_BYTES;
use plain_units::Regs;
use text_pointers::Text;
use word36::Word;

// The bytes of a text as characters. None exactly where one of them is none.
fn characters(text: &[Word]) -> Option<ArrayVec<u8, MOST_BYTES>>
    requires { length text.now ≤ MOST_BYTES }
    ensures { MatchOption result (All (λ c. c < 256) text.now → ⊥) (λ bytes. bytes.items ≡ text.now) }
{
    let mut bytes = ArrayVec::new();
    for byte in text {
        let Ok(code) = u8::try_from(byte.value()) else {
            return None;
        };
        bytes.push(code);
    }
    Some(bytes)
}

// The file that a text names for a user, if there is a text and it is a name.
fn file_named(text: &Option<Text>, user: &DirName) -> Option<FileName>
    ensures named { result ≡ option_and_then (file_named_of user.now []) (bytes_of text.now) }
    ensures name { IfSome result (λ name. IsFileName name) }
{
    match text {
        Some(text) => match characters(text.as_slice()) {
            Some(bytes) => read_name(bytes.as_slice(), user),
            None => None,
        },
        None => None,
    }
}

// Whether a file is made where none has the name: bit 0 of accumulator 1.
fn makes_files(regs: &Regs) -> bool
    requires { IsRegs regs.now }
    ensures { result ≡ (slice_index regs.now.ac 1 / 2 ^ 35 % 2 == 1) }
{
    regs.ac[1].value() / (1 << 35) % 2 == 1
}

// A JFN is taken, and accumulator 1 becomes its number.
fn telling(regs: &Regs, n: u32, change: FileChange) -> End<FileChange>
    requires { IsRegs regs.now }
    ensures end { (a : JfnAsked) → a.regs ≡ regs.now → result ≡ telling_of a n change }
    ensures fits { FitsEnd (λ what. what ≡ change) result }
{
    skipping(change, with_ac(*regs, 1, Word::wrapped(u64::from(n))))
}

// The file of a name is looked up, and the least JFN that is free is to stand for it.
fn taking(regs: &Regs, who: ForkName, name: FileName, tables: &FileTables) -> End<FileChange>
    requires regs { IsRegs regs.now }
    requires terminal { IsTerminal who.tty }
    requires name { IsFileName name }
    ensures turn { (user : List ℕ) (p : NumberedPages) → turn_on (names_of tables.now) p (taking_of (asked_of who regs.now user tables.now) name)
        ≡ record { end = result; pages = p } }
    ensures fits { FitsEnd (IsSound tables.now who.tty) result }
{
    let there = tables.find(&name).is_some();
    let Some(n) = tables.free_jfn(who.tty) else {
        return End::Failed(JFNS_FULL);
    };
    if there {
        return telling(regs, n, FileChange::Take(who.tty, n, name));
    }
    if !makes_files(regs) {
        return End::Failed(NO_FILE);
    }
    if tables.has_room() {
        telling(regs, n, FileChange::Make(who.tty, n, name))
    } else {
        End::Failed(FILES_FULL)
    }
}

/// How GTJFN ends, once its text is read: a JFN is taken for the file that it names. BAD_NAME, JFNS_FULL, NO_FILE, FILES_FULL.
pub fn named(
    text: &Option<Text>,
    regs: &Regs,
    who: ForkName,
    user: &DirName,
    tables: &FileTables,
) -> End<FileChange>
    requires regs { IsRegs regs.now }
    requires terminal { IsTerminal who.tty }
    ensures turn { (p : NumberedPages) → turn_on (names_of tables.now) p (named_turn (asked_of who regs.now user.now tables.now) (bytes_of text.now))
        ≡ record { end = result; pages = p } }
    ensures fits { FitsEnd (IsSound tables.now who.tty) result }
{
    match file_named(text, user) {
        Some(name) => taking(regs, who, name, tables),
        None => End::Failed(BAD_NAME),
    }
}
