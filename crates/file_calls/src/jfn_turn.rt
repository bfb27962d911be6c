// One turn of a call on JFNs.
ghost use Rattle.std.specs.Prelude.{◌≡◌, ◌<◌, ◌^◌, List, true, ℕ};
ghost use Rattle.machine_names.specs.Bounds.{IsTerminal};
ghost use Rattle.page_contracts.specs.DrumWords.{DrumWords};
ghost use Rattle.page_contracts.specs.declared.answers.Need.{Need as ANeed};
ghost use Rattle.page_gather.specs.Gathering.{left_of};
ghost use Rattle.plain_units.specs.Deeds.{in_ac};
ghost use Rattle.plain_model.specs.Calls.{ends};
ghost use Rattle.plain_model.specs.FileCalls.{gtjfn as gtjfn_of, jfn_call as jfn_call_of};
ghost use Rattle.call_turns.specs.Answers.{AnswerNeeds, IsDone, answer_of as answer_to, HasRegs};
ghost use Rattle.call_turns.specs.Turns.{FitsEnd, IsRegs};
ghost use Rattle.ka10_unit.specs.Carrying.{Grows};
ghost use Rattle.ka10_unit.specs.Gathers.{Serves, framed};
ghost use Rattle.text_pointers.specs.Reading.{Stands, text_frames};
ghost use Rattle.file_calls.specs.Asking.{asked_of};
ghost use Rattle.file_calls.specs.Changing.{IsSound};
ghost use Rattle.file_calls.specs.Jobs.{OthersHold};
ghost use Rattle.file_calls.specs.Turning.{EndsOver, Stays, Turned, behind_end};

use crate::changing::change;
use crate::jfns::{closf, delf, openf, rljfn};
use crate::naming::named;
use call_turns::{Answer, answer_of, stopped};
use file_tables::FileTables;
use machine_names::{DirName, ForkName};
use page_contracts::Pages;
use plain_model::call::{CLOSF, DELF, End, FileChange, GTJFN, OPENF, RLJFN};
use plain_units::Regs;
use plain_units::channel::ILLEGAL_INSTRUCTION;
use text_pointers::{Reader, Scratch, text_at};
use word36::Word;

// How a call of a held JFN ends, by its number. A number that is none of them traps as an illegal instruction.
fn ending(number: u32, regs: &Regs, who: ForkName, tables: &FileTables) -> End<FileChange>
    requires regs { IsRegs regs.now }
    requires terminal { IsTerminal who.tty }
    ensures turn { (user : List ℕ) → (number ≡ GTJFN → ⊥) → ends result ≡ jfn_call_of number (asked_of who regs.now user tables.now) }
    ensures fits { FitsEnd (IsSound tables.now who.tty) result }
{
    match number {
        OPENF => openf(regs, who, tables),
        CLOSF => closf(regs, who, tables),
        RLJFN => rljfn(regs, who, tables),
        DELF => delf(regs, who, tables),
        _ => End::Trap(ILLEGAL_INSTRUCTION),
    }
}

// Ends a turn: its change is made, if it is done.
fn end<P: Pages>(
    ending: End<FileChange>,
    who: ForkName,
    tables: &mut FileTables,
    pages: &mut P,
) -> Answer
    requires fits { FitsEnd (IsSound tables.old who.tty) ending }
    ensures answer { result ≡ answer_to ending }
    ensures told { EndsOver P.means pages.old pages.new tables.old tables.new ending }
    ensures others { OthersHold who.tty tables.old tables.new }
    ensures grows { Grows P.means who.tty 0 pages.old pages.new }
    ensures regs { HasRegs result }
{
    match &ending {
        End::Done { change: what, .. } => {
            change(what, tables, pages);
            answer_of(ending)
        }
        _ => answer_of(ending),
    }
}

// Where a call is done, the pages are made that the reading of its text makes.
fn make_text<P: Pages>(ending: &End<FileChange>, reader: &Reader, pages: &mut P)
    requires serves { Serves P.means pages.old reader.now.fork }
    requires serial { P.means.serial pages.old reader.now.fork.tty < 2 ^ 62 }
    ensures told { (d : DrumWords) → P.means.fits pages.old d → P.means.fits pages.new d × (Stands reader.now.fork (framed P.means pages.old d) reader.now
        → P.means.plain pages.new d ≡ behind_end ending.now (P.means.plain pages.old d) (left_of (P.means.plain pages.old d) reader.now.gather)) }
    ensures stays { behind_end ending.now pages.old pages.new ≡ pages.new }
    ensures grows { Grows P.means reader.now.fork.tty 128 pages.old pages.new }
{
    if let End::Done { .. } = ending {
        reader.make(pages);
    }
}

// The byte pointer in accumulator 2.
fn pointer(regs: &Regs) -> Word
    requires { IsRegs regs.now }
    ensures { result ≡ in_ac regs.now 2 }
{
    regs.ac[2]
}

// GTJFN: a JFN is taken for the file that the text at the pointer in accumulator 2 names. Where the call is refused, no page
// is made.
fn gtjfn<P: Pages>(
    regs: &Regs,
    who: ForkName,
    user: &DirName,
    tables: &mut FileTables,
    scratch: &mut Scratch,
    pages: &mut P,
) -> Answer
    requires regs { IsRegs regs.now }
    requires serves { Serves P.means pages.old who }
    requires serial { P.means.serial pages.old who.tty < 2 ^ 62 }
    ensures told { let a = asked_of who regs.now user.now tables.old in Turned P.means pages.old pages.new tables.old tables.new a result (gtjfn_of a) }
    ensures needs { AnswerNeeds P.means.store text_frames pages.new result }
    ensures core { P.means.flat ≡ true → IsDone result }
    ensures stays { Stays pages.old pages.new tables.old tables.new result }
    ensures others { OthersHold who.tty tables.old tables.new }
    ensures grows { Grows P.means who.tty 128 pages.old pages.new }
    ensures regs { HasRegs result }
{
    match text_at(scratch, regs, pages, who, pointer(regs)) {
        Err(stop) => stopped(stop),
        Ok(text) => {
            let ending = named(&text, regs, who, user, tables);
            make_text(&ending, &scratch.reader, pages);
            end(ending, who, tables, pages)
        }
    }
}

/// One turn of a call on JFNs, by its number (JSYS Manual): its answer is that of the plain call, and so are the files, the JFNs of
/// all jobs and the pages that it leaves. GTJFN reads its text first and changes then: it needs something first only where a
/// page that it refers to, or a map on the way, is in no frame, or where what it makes finds none; the others need nothing. A
/// turn that isn't done leaves all as it was. Each call has two returns; a number that is none of them traps as an illegal
/// instruction.
pub fn jfn_call<P: Pages>(
    number: u32,
    regs: &Regs,
    who: ForkName,
    user: &DirName,
    tables: &mut FileTables,
    scratch: &mut Scratch,
    pages: &mut P,
) -> Answer
    requires regs { IsRegs regs.now }
    requires serves { Serves P.means pages.old who }
    requires serial { P.means.serial pages.old who.tty < 2 ^ 62 }
    ensures told { let a = asked_of who regs.now user.now tables.old in Turned P.means pages.old pages.new tables.old tables.new a result (jfn_call_of number a) }
    ensures needs { AnswerNeeds P.means.store text_frames pages.new result }
    ensures core { P.means.flat ≡ true → IsDone result }
    ensures reads { (n : ANeed) → result ≡ Answer.Need n → number ≡ GTJFN }
    ensures stays { Stays pages.old pages.new tables.old tables.new result }
    ensures others { OthersHold who.tty tables.old tables.new }
    ensures grows { Grows P.means who.tty 128 pages.old pages.new }
    ensures regs { HasRegs result }
{
    if number == GTJFN {
        return gtjfn(regs, who, user, tables, scratch, pages);
    }
    let ending = ending(number, regs, who, tables);
    end(ending, who, tables, pages)
}
