// The calls on a JFN that the job holds: how each ends.
ghost use Rattle.std.specs.Prelude.{◌≡◌, ◌≤◌, ◌/◌, ◌%◌, ◌^◌, ◌==◌, List, ℕ};
ghost use Rattle.machine_names.specs.Bounds.{IsTerminal};
ghost use Rattle.plain_files.specs.Bytes.{IsByteSize};
ghost use Rattle.plain_units.specs.Deeds.{skip_pc};
ghost use Rattle.plain_model.specs.Calls.{ends};
ghost use Rattle.plain_model.specs.FileCalls.{closf as closf_of, delf as delf_of, mode_in as mode_in_of, openf as openf_of, rljfn as rljfn_of, size_in as size_in_of, skipping as skipping_of};
ghost use Rattle.plain_model.specs.declared.call.FileChange.{FileChange as AFileChange};
ghost use Rattle.call_turns.specs.Turns.{FitsEnd, IsRegs};
ghost use Rattle.file_calls.specs.Asking.{asked_of};
ghost use Rattle.file_calls.specs.Changing.{IsSound};

use call_turns::behind;
use file_tables::FileTables;
use machine_names::ForkName;
use plain_files::{LARGEST_BYTE, Mode};
use plain_model::call::{BAD_SIZE, End, FILE_IN_USE, FileChange, JFN_OPEN, NO_JFN, NOT_OPEN};
use plain_units::Regs;
use word36::Word;

/// A call that is done, and returns by its second return with these registers.
pub fn skipping(change: FileChange, regs: Regs) -> End<FileChange>
    requires { IsRegs regs }
    ensures end { result ≡ skipping_of change regs }
    ensures fits { IsRegs (record regs { pc = skip_pc regs }) }
{
    End::Done {
        change,
        regs: behind(behind(regs)),
        out: None,
        post: None,
    }
}

// The size of bytes in bits 0 to 5 of a word, where 0 stands for words.
fn size_in(word: Word) -> u8
    ensures size { result ≡ size_in_of word }
    ensures some { 1 ≤ result }
{
    let size = (word.value() >> 30) as u8;
    if size == 0 { LARGEST_BYTE } else { size }
}

// Bit 19 of a word has a file read, bit 20 has it written.
fn mode_in(word: Word) -> Mode
    ensures { result ≡ mode_in_of word }
{
    Mode {
        r: word.value() / (1 << 16) % 2 == 1,
        w: word.value() / (1 << 15) % 2 == 1,
    }
}

/// OPENF: the file of the JFN in accumulator 1 is opened as accumulator 2 says. NO_JFN, JFN_OPEN, BAD_SIZE, NOT_OPEN.
pub fn openf(regs: &Regs, who: ForkName, tables: &FileTables) -> End<FileChange>
    requires regs { IsRegs regs.now }
    requires terminal { IsTerminal who.tty }
    ensures turn { (user : List ℕ) → ends result ≡ openf_of (asked_of who regs.now user tables.now) }
    ensures fits { FitsEnd (IsSound tables.now who.tty) result }
{
    let n = regs.ac[1].right();
    let Some(jfn) = tables.jfn(who.tty, n) else {
        return End::Failed(NO_JFN);
    };
    if jfn.mode.is_some() {
        return End::Failed(JFN_OPEN);
    }
    let size = size_in(regs.ac[2]);
    if size > LARGEST_BYTE {
        return End::Failed(BAD_SIZE);
    }
    let mode = mode_in(regs.ac[2]);
    if mode.r || mode.w {
        skipping(FileChange::Open(who.tty, n, mode, size), *regs)
    } else {
        End::Failed(NOT_OPEN)
    }
}

/// CLOSF: the JFN in accumulator 1 is released. NO_JFN.
pub fn closf(regs: &Regs, who: ForkName, tables: &FileTables) -> End<FileChange>
    requires regs { IsRegs regs.now }
    requires terminal { IsTerminal who.tty }
    ensures turn { (user : List ℕ) → ends result ≡ closf_of (asked_of who regs.now user tables.now) }
    ensures fits { FitsEnd (IsSound tables.now who.tty) result }
{
    let n = regs.ac[1].right();
    let Some(_) = tables.jfn(who.tty, n) else {
        return End::Failed(NO_JFN);
    };
    skipping(FileChange::Release(who.tty, n), *regs)
}

/// RLJFN: the same, where its file isn't open. NO_JFN, JFN_OPEN.
pub fn rljfn(regs: &Regs, who: ForkName, tables: &FileTables) -> End<FileChange>
    requires regs { IsRegs regs.now }
    requires terminal { IsTerminal who.tty }
    ensures turn { (user : List ℕ) → ends result ≡ rljfn_of (asked_of who regs.now user tables.now) }
    ensures fits { FitsEnd (IsSound tables.now who.tty) result }
{
    let n = regs.ac[1].right();
    let Some(jfn) = tables.jfn(who.tty, n) else {
        return End::Failed(NO_JFN);
    };
    if jfn.mode.is_some() {
        return End::Failed(JFN_OPEN);
    }
    skipping(FileChange::Release(who.tty, n), *regs)
}

/// DELF: the file of the JFN in accumulator 1 is removed, and the JFN released, where no other JFN of any job stands for that
/// file. NO_JFN, FILE_IN_USE.
pub fn delf(regs: &Regs, who: ForkName, tables: &FileTables) -> End<FileChange>
    requires regs { IsRegs regs.now }
    requires terminal { IsTerminal who.tty }
    ensures turn { (user : List ℕ) → ends result ≡ delf_of (asked_of who regs.now user tables.now) }
    ensures fits { FitsEnd (IsSound tables.now who.tty) result }
{
    let n = regs.ac[1].right();
    let Some(jfn) = tables.jfn(who.tty, n) else {
        return End::Failed(NO_JFN);
    };
    if tables.names(jfn.file) > 1 {
        return End::Failed(FILE_IN_USE);
    }
    skipping(FileChange::Delete(who.tty, n), *regs)
}
