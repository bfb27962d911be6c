// A unit planned: any word whatever, on pages that it leaves as they are.
ghost use Rattle.std.specs.Prelude.{◌≡◌, ◌<◌, ◌^◌, IfErr, true};
ghost use Rattle.ka10_table.specs.Rows.{IsInLine, row_of};
ghost use Rattle.plain_units.specs.Addressing as word_fields;
ghost use Rattle.plain_units.specs.Instructions.{execute as executed, executes, local_word};
ghost use Rattle.machine_names.specs.Bounds.{IsAddress};
ghost use Rattle.page_contracts.specs.DrumWords.{DrumWords};
ghost use Rattle.plain_units.specs.Steps.{refers};
ghost use Rattle.ka10_unit.specs.Gathers.{Serves, framed};
ghost use Rattle.ka10_unit.specs.Planning.{DoesRest, DoesStep, IsPlan, IsStep, NeedsNothing, PlanNeeds, Plans, as_step, calls_local, does_at, is_illegal as is_illegal_word, stopped_by};
ghost use Rattle.ka10_unit.specs.Taking.{HasSpare, IsTrap, StopsFor};

use crate::addresses::address_of;
use crate::ends::{Ending, ordinary};
use crate::pointed::byte_instruction;
use crate::references::refer;
use crate::taken::{Stop, Taken};
use ka10_deeds::{Address, MOST_WORDS, ac_field, is_executive, opcode};
use ka10_table::{Family, TableRow, row};
use machine_names::{ForkName, Kind};
use page_contracts::{Need, Pages};
use plain_units::{Put, Regs};
use word36::Word;

// Where a local call stores its word, and where the word stands that it executes.
const LOCAL_CALL: u32 = 0o40;

const LOCAL_HANDLER: u32 = 0o41;

/// Another word to be executed, behind a local call or not.
#[derive(Clone, Copy, PartialEq, Eq)]
pub struct Next {
    pub is_local: bool,
    pub word: Word,
}

/// What one word of a unit comes to.
#[derive(Clone, Copy)]
pub enum WordStep {
    Goes(Next),
    Ends(Ending),
    /// A monitor call, of this number.
    Calls(u32),
}

/// What a unit comes to.
#[derive(Clone, Copy)]
pub enum Planned {
    /// It goes through: it makes the pages that were gathered, stores the word that was kept, and
    /// ends so.
    Do(Ending),
    /// It needs this first, and changes nothing: a map or a page that it refers to is in no frame, or
    /// the pages that it makes find none.
    Need(Need),
    /// It traps, with a channel, and changes nothing.
    Trap(u8),
    /// It is a monitor call, of this number, and changes nothing yet.
    Call(u32),
}

/// The word that a local call stores: the opcode and AC of its own, with the address E.
fn stored_call(word: Word, e: u32) -> Word
    requires { IsAddress e }
    ensures { result ≡ local_word word e }
{
    Word::join(word.left() >> 5 << 5, e)
}

/// Takes another word to be executed.
fn go_on<P: Pages>(
    taken: &mut Taken,
    regs: &Regs,
    pages: &P,
    at: u32,
    is_local: bool,
) -> Result<WordStep, Stop>
    requires serves { Serves P.means pages.now taken.old.fork }
    requires address { IsAddress at }
    requires fetched { HasSpare 1 taken.old }
    ensures fork { taken.new.fork ≡ taken.old.fork }
    ensures bounds { IsStep result taken.new }
    ensures needs { IfErr result (StopsFor P.means pages.now) }
    ensures told { DoesStep P.means pages.now regs.now.ac taken.old taken.new (λ next. refers at Kind.Execute (next is_local)) result }
{
    match refer(taken, regs, pages, at, Kind::Execute) {
        Err(stop) => Err(stop),
        Ok(word) => Ok(WordStep::Goes(Next { is_local, word })),
    }
}

/// A local call: its word is stored at 40, and the word at 41 is executed.
fn call_local<P: Pages>(
    taken: &mut Taken,
    regs: &Regs,
    pages: &P,
    word: Word,
    e: u32,
) -> Result<WordStep, Stop>
    requires serves { Serves P.means pages.now taken.old.fork }
    requires e { IsAddress e }
    requires fetched { HasSpare 1 taken.old }
    ensures fork { taken.new.fork ≡ taken.old.fork }
    ensures bounds { IsStep result taken.new }
    ensures needs { IfErr result (StopsFor P.means pages.now) }
    ensures told { DoesStep P.means pages.now regs.now.ac taken.old taken.new (calls_local word e) result }
{
    match refer(taken, regs, pages, LOCAL_CALL, Kind::Write) {
        Err(stop) => Err(stop),
        Ok(_) => {
            taken.kept = Some(Put {
                at: LOCAL_CALL,
                word: stored_call(word, e),
            });
            go_on(taken, regs, pages, LOCAL_HANDLER, true)
        }
    }
}

/// Whether a word is illegal before its address is taken.
fn is_illegal(family: Family, is_local: bool, ac: u8) -> bool
    requires { ac < 16 }
    ensures { result ≡ is_illegal_word family is_local ac }
{
    match family {
        Family::Illegal => true,
        Family::Monitor => is_local,
        Family::Jrst => is_executive(ac),
        _ => false,
    }
}

/// How a unit ended, as a step.
fn ended(end: Result<Ending, Stop>) -> Result<WordStep, Stop>
    ensures { result ≡ as_step end }
{
    match end {
        Err(stop) => Err(stop),
        Ok(ending) => Ok(WordStep::Ends(ending)),
    }
}

/// What an instruction does with its effective address.
fn do_at<P: Pages>(
    taken: &mut Taken,
    regs: &Regs,
    pages: &P,
    row: TableRow,
    word: Word,
    is_local: bool,
    address: &Address,
) -> Result<WordStep, Stop>
    requires serves { Serves P.means pages.now taken.old.fork }
    requires line { IsInLine (word_fields.opcode word) row }
    requires pc { regs.now.pc < 2 ^ 18 }
    requires address { IsAddress address.now.e }
    requires fetched { HasSpare 1 taken.old }
    ensures fork { taken.new.fork ≡ taken.old.fork }
    ensures bounds { IsStep result taken.new }
    ensures needs { IfErr result (StopsFor P.means pages.now) }
    ensures told { DoesStep P.means pages.now regs.now.ac taken.old taken.new (does_at row.family row is_local regs.now word address.now) result }
{
    let ac = ac_field(word);
    match row.family {
        Family::Monitor => Ok(WordStep::Calls(address.e)),
        Family::Xct => go_on(taken, regs, pages, address.e, is_local),
        Family::Local => call_local(taken, regs, pages, word, address.e),
        Family::ByteOp => ended(byte_instruction(taken, regs, pages, row.code, ac, address.e)),
        _ => ended(ordinary(taken, regs, pages, row, opcode(word), ac, address)),
    }
}

/// One word of a unit.
fn do_word<P: Pages>(
    taken: &mut Taken,
    regs: &Regs,
    pages: &P,
    word: Word,
    is_local: bool,
) -> Result<WordStep, Stop>
    requires serves { Serves P.means pages.now taken.old.fork }
    requires pc { regs.now.pc < 2 ^ 18 }
    requires fetched { HasSpare 1 taken.old }
    ensures fork { taken.new.fork ≡ taken.old.fork }
    ensures bounds { IsStep result taken.new }
    ensures needs { IfErr result (StopsFor P.means pages.now) }
    ensures told { DoesStep P.means pages.now regs.now.ac taken.old taken.new (executes (row_of (word_fields.opcode word)).family (row_of (word_fields.opcode word)) is_local regs.now word) result }
{
    let row = row(opcode(word));
    if is_illegal(row.family, is_local, ac_field(word)) {
        return Err(Stop::ILLEGAL);
    }
    match address_of(taken, regs, pages, word) {
        Err(stop) => Err(stop),
        Ok(address) => do_at(taken, regs, pages, row, word, is_local, &address),
    }
}

/// What a unit comes to that stops before its end.
fn stopped(stop: Stop) -> Planned
    ensures plan { result ≡ stopped_by stop }
    ensures bounds { IsPlan result }
    ensures core { IsTrap stop → NeedsNothing result }
{
    match stop {
        Stop::Trap(channel) => Planned::Trap(channel),
        Stop::Need(need) => Planned::Need(need),
    }
}

/// Executes a word, and those that it leads to, with so many words at most.
fn follow<P: Pages>(
    left: u32,
    taken: &mut Taken,
    regs: &Regs,
    pages: &P,
    word: Word,
    is_local: bool,
) -> Planned
    requires serves { Serves P.means pages.now taken.old.fork }
    requires pc { regs.now.pc < 2 ^ 18 }
    requires fetched { HasSpare 1 taken.old }
    ensures fork { taken.new.fork ≡ taken.old.fork }
    ensures bounds { IsPlan result }
    ensures core { P.means.flat ≡ true → NeedsNothing result }
    ensures needs { PlanNeeds P.means.store pages.now result }
    ensures told { DoesRest P.means pages.now regs.now.ac taken.old taken.new (executed left is_local regs.now word) result }
{
    if left == 0 {
        return stopped(Stop::ILLEGAL);
    }
    match do_word(taken, regs, pages, word, is_local) {
        Err(stop) => stopped(stop),
        Ok(WordStep::Calls(number)) => Planned::Call(number),
        Ok(WordStep::Ends(ending)) => Planned::Do(ending),
        Ok(WordStep::Goes(next)) => follow(left - 1, taken, regs, pages, next.word, next.is_local),
    }
}

/// Plans the unit of the instruction at the program counter: any word whatever. It changes nothing
/// but what is taken, which is then that of this unit: its references, what they come to, and the
/// word that it kept.
pub fn plan<P: Pages>(taken: &mut Taken, regs: &Regs, pages: &P, fork: ForkName) -> Planned
    requires serves { Serves P.means pages.now fork }
    requires pc { regs.now.pc < 2 ^ 18 }
    ensures fork { taken.new.fork ≡ fork }
    ensures bounds { IsPlan result }
    ensures core { P.means.flat ≡ true → NeedsNothing result }
    ensures needs { PlanNeeds P.means.store pages.now result }
    ensures told { (d : DrumWords) → P.means.fits pages.now d → Plans fork (framed P.means pages.now d) regs.now taken.new result }
{
    taken.restart(fork);
    match refer(taken, regs, pages, regs.pc, Kind::Execute) {
        Err(stop) => stopped(stop),
        Ok(word) => follow(MOST_WORDS, taken, regs, pages, word, false),
    }
}
