// SIN: the bytes of a string are taken from a file, or from the terminal.
ghost use Rattle.std.specs.Prelude.{◌≡◌, ◌<◌, IfErr, IfOk, List, ℕ};
ghost use Rattle.word36.specs.Words.{right};
ghost use Rattle.machine_names.specs.Bounds.{IsTerminal};
ghost use Rattle.machine_names.specs.declared.names.ForkName.{ForkName as AForkName};
ghost use Rattle.plain_files.specs.NamedFiles.{open_file};
ghost use Rattle.plain_units.specs.Deeds.{in_ac};
ghost use Rattle.plain_model.specs.StringCalls.{at_end as at_end_of, sin as sin_of, takes_character as takes_character_of, takes_from as takes_from_of, takes_next as takes_next_of};
ghost use Rattle.call_turns.specs.Turns.{FitsEnd, IsRegs};
ghost use Rattle.file_tables.specs.declared.tables.FileTables.{FileTables as AFileTables};
ghost use Rattle.ka10_unit.specs.Gathers.{Serves};
ghost use Rattle.file_bytes.specs.Asking.{IsOpenAs, asked, asked_on};
ghost use Rattle.file_bytes.specs.Planning.{CanTurn};
ghost use Rattle.string_io.specs.Planning.{FitsPlan, Plans};
ghost use Rattle.string_io.specs.Turning.{StringStops};

use crate::deposits::{NextByte, deposits};
use crate::ends::{at_once, pointer_in};
use crate::plan::Plan;
use call_turns::{behind, word_of};
use file_bytes::{Way, end_of, jfn_number, jfn_open};
use file_tables::FileTables;
use ka10_bytes::load;
use ka10_unit::Stop;
use machine_names::ForkName;
use page_contracts::Pages;
use page_files::place;
use plain_files::Jfn;
use plain_model::call::{ByteChange, End, NOT_OPEN, TERMINAL_INPUT, TERMINAL_OUTPUT};
use plain_units::Regs;
use plain_units::channel::END_OF_FILE;
use script_texts::WaitOn;
use string_counts::behind_byte;
use tty_lines::Line;
use word36::Word;

// A byte becomes the next of the string at the pointer in accumulator 2, and the call is done with a change, or done so far.
fn takes_next<P: Pages>(
    change: ByteChange,
    byte: Word,
    regs: &Regs,
    who: ForkName,
    pages: &P,
) -> Result<Plan, Stop>
    requires regs { IsRegs regs.now }
    requires serves { Serves P.means pages.now who }
    ensures told { (tables : AFileTables) (input : List ℕ) → CanTurn tables who.tty change → Plans P.means pages.now tables who (λ p. takes_next_of (asked_on who regs.now tables input p) change byte) result }
    ensures fits { (tables : AFileTables) → CanTurn tables who.tty change → IfOk result (FitsPlan tables who) }
    ensures needs { IfErr result (StringStops P.means pages.now) }
{
    let pointer = pointer_in(regs, 2);
    let next = NextByte {
        pointer,
        byte,
        change,
        regs: behind_byte(regs, pointer, byte),
    };
    deposits(regs, who, pages, &next)
}

// The oldest of the characters that are stored is taken; where there is none, the fork waits for one.
fn takes_character<P: Pages>(
    regs: &Regs,
    who: ForkName,
    input: &Line,
    tables: &FileTables,
    pages: &P,
) -> Result<Plan, Stop>
    requires regs { IsRegs regs.now }
    requires serves { Serves P.means pages.now who }
    ensures told { Plans P.means pages.now tables.now who (λ p. takes_character_of (asked_on who regs.now tables.now input.now.input p) input.now.input) result }
    ensures fits { IfOk result (FitsPlan tables.now who) }
    ensures needs { IfErr result (StringStops P.means pages.now) }
{
    match input.oldest() {
        Some(code) => takes_next(
            ByteChange::Take(who.tty),
            Word::wrapped(u64::from(code)),
            regs,
            who,
            pages,
        ),
        None => Ok(at_once(who, End::Waits(WaitOn::Input))),
    }
}

// The end of a file ends the call: its channel is posted, and all accumulators stay.
fn at_end(regs: &Regs) -> End<ByteChange>
    requires { IsRegs regs.now }
    ensures end { (who : AForkName) (tables : AFileTables) (input : List ℕ) (pages : List ℕ → ℕ) → result ≡ at_end_of (asked who regs.now tables input pages) }
    ensures fits { (who : AForkName) (tables : AFileTables) → FitsEnd (CanTurn tables who.tty) result }
{
    End::Done {
        change: ByteChange::Nothing,
        regs: behind(*regs),
        out: None,
        post: Some(END_OF_FILE),
    }
}

// The byte at which a JFN stands is taken, and the JFN goes to the next; or the page of that byte has to come into core first.
fn takes_from<P: Pages>(
    jfn: Jfn,
    regs: &Regs,
    who: ForkName,
    tables: &FileTables,
    pages: &P,
) -> Result<Plan, Stop>
    requires regs { IsRegs regs.now }
    requires serves { Serves P.means pages.now who }
    requires open { IsOpenAs tables.now who.tty (right (in_ac regs.now 1)) jfn }
    ensures told { (input : List ℕ) → Plans P.means pages.now tables.now who (λ p. takes_from_of (asked_on who regs.now tables.now input p) (open_file tables.now.dir jfn)) result }
    ensures fits { IfOk result (FitsPlan tables.now who) }
    ensures needs { IfErr result (StringStops P.means pages.now) }
{
    if end_of(jfn, tables) <= jfn.at {
        return Ok(at_once(who, at_end(regs)));
    }
    let (page, offset, pointer) = place(jfn.size, jfn.at);
    match word_of(pages, jfn.file, page, offset) {
        Ok(word) => takes_next(
            ByteChange::Move(who.tty, jfn_number(regs), jfn.at + 1),
            load(pointer, word),
            regs,
            who,
            pages,
        ),
        Err(need) => Err(Stop::Need(need)),
    }
}

/// SIN: the next byte of the file of the JFN in accumulator 1, or the next character, is to become the next of the string at the pointer
/// in accumulator 2. NO_JFN, NOT_OPEN.
pub fn sin<P: Pages>(
    regs: &Regs,
    who: ForkName,
    input: &Line,
    tables: &FileTables,
    pages: &P,
) -> Result<Plan, Stop>
    requires regs { IsRegs regs.now }
    requires serves { Serves P.means pages.now who }
    ensures told { Plans P.means pages.now tables.now who (λ p. sin_of (asked_on who regs.now tables.now input.now.input p)) result }
    ensures fits { IfOk result (FitsPlan tables.now who) }
    ensures needs { IfErr result (StringStops P.means pages.now) }
{
    let number = jfn_number(regs);
    if number == TERMINAL_INPUT {
        return takes_character(regs, who, input, tables, pages);
    }
    if number == TERMINAL_OUTPUT {
        return Ok(at_once(who, End::Refused(NOT_OPEN)));
    }
    match jfn_open(Way::ToRead, regs, who, tables) {
        Ok(jfn) => takes_from(jfn, regs, who, tables, pages),
        Err(code) => Ok(at_once(who, End::Refused(code))),
    }
}
