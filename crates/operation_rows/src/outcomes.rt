// What comes of a row, and how it is shown.
use ka10_alu::Out;
use ka10_deeds::{Destination, Post};
use ka10_table::{Family, OpMode, TableRow};
use std::io::{self, Write};
use word36::{Flags, Word, fill_octal};

/// What comes of a row.
#[derive(Drop)]
pub(crate) enum Outcome {
    /// Words and flags.
    Done(Out),
    /// A division that is not done.
    NotDone,
    /// A word alone.
    Word(Word),
    /// The word of AC, and whether the next instruction is skipped.
    Tested(Word, bool),
    /// Whether a condition holds.
    Answer(bool),
    /// A row of the instruction table.
    Instruction(TableRow),
    /// How many opcodes are no instruction, and how many there are.
    Counts(usize, usize),
    /// What an instruction leaves.
    Left(Left),
    /// From which address an instruction takes its operand, and where it stores a word.
    Places(Option<u32>, Destination),
}

/// What an instruction leaves: an accumulator and the one behind it, the word that it stores, the program counter, the left half
/// with the flags, and what it posts.
#[derive(Drop)]
pub(crate) struct Left {
    pub(crate) ac: Word,
    pub(crate) next: Word,
    pub(crate) stored: Option<Word>,
    pub(crate) pc: u32,
    pub(crate) flags: u32,
    pub(crate) post: Post,
}

/// Prints what came of a row, each part behind a space.
pub(crate) fn show<W: Write>(outcome: &Outcome, out: &mut W) -> io::Result<()> {
    match outcome {
        Outcome::Done(done) => show_done(done, out),
        Outcome::NotDone => out.write_all(b" not done"),
        Outcome::Word(word) => show_word(*word, out),
        Outcome::Tested(word, skips) => {
            show_word(*word, out)?;
            show_if(*skips, b" skips", out)
        }
        Outcome::Answer(true) => out.write_all(b" yes"),
        Outcome::Answer(false) => out.write_all(b" no"),
        Outcome::Instruction(row) => show_instruction(row, out),
        Outcome::Counts(illegal, all) => write!(out, " {illegal} illegal of {all}"),
        Outcome::Left(left) => show_left(left, out),
        Outcome::Places(operand, destination) => show_places(*operand, *destination, out),
    }
}

/// Prints a word.
fn show_word<W: Write>(word: Word, out: &mut W) -> io::Result<()> {
    out.write_all(b" ")?;
    out.write_all(&word.octal())
}

/// Prints a text where this holds.
fn show_if<W: Write>(holds: bool, text: &[u8], out: &mut W) -> io::Result<()> {
    if holds {
        out.write_all(text)?;
    }
    Ok(())
}

/// Prints one word or both, and the flags that are set.
fn show_done<W: Write>(done: &Out, out: &mut W) -> io::Result<()> {
    show_word(done.word, out)?;
    if let Some(low) = done.low {
        show_word(low, out)?;
    }
    show_flags(&done.flags, out)
}

/// Prints the flags that are set.
fn show_flags<W: Write>(flags: &Flags, out: &mut W) -> io::Result<()> {
    show_if(flags.overflow, b" overflow", out)?;
    show_if(flags.carry0, b" carry 0", out)?;
    show_if(flags.carry1, b" carry 1", out)?;
    show_if(flags.fov, b" floating overflow", out)?;
    show_if(flags.bis, b" byte increment", out)?;
    show_if(flags.nodiv, b" no divide", out)
}

/// Prints the accumulators, the word that is stored, the program counter and the flags, and the channel that is posted.
fn show_left<W: Write>(left: &Left, out: &mut W) -> io::Result<()> {
    show_word(left.ac, out)?;
    show_word(left.next, out)?;
    match left.stored {
        Some(word) => show_word(word, out)?,
        None => out.write_all(b" -")?,
    }
    write!(out, " {:o} {:o}", left.pc, left.flags)?;
    show_if(left.post == Post::Overflow, b" overflow", out)?;
    show_if(left.post == Post::Pushdown, b" pushdown", out)
}

/// Prints the address of the operand, and where a word is stored.
fn show_places<W: Write>(
    operand: Option<u32>,
    destination: Destination,
    out: &mut W,
) -> io::Result<()> {
    match operand {
        Some(at) => write!(out, " from {at:o}")?,
        None => out.write_all(b" from nowhere")?,
    }
    match destination {
        Destination::Nowhere => out.write_all(b" to nowhere"),
        Destination::Back(at) => write!(out, " back to {at:o}"),
        Destination::Into(at) => write!(out, " to {at:o}"),
        Destination::Before(at) => write!(out, " to {at:o} before its accumulator"),
    }
}

/// Prints the family, the mode and the code.
fn show_instruction<W: Write>(row: &TableRow, out: &mut W) -> io::Result<()> {
    out.write_all(family_name(row.family))?;
    out.write_all(mode_name(row.mode))?;
    let mut digits = *b" 00";
    fill_octal(&mut digits[1..], row.code as u64);
    out.write_all(&digits)
}

/// The name of a family.
fn family_name(family: Family) -> &'static [u8] {
    match family {
        Family::Illegal => b" illegal",
        Family::Local => b" local call",
        Family::Monitor => b" monitor call",
        Family::ByteOp => b" byte operation",
        Family::Move => b" move",
        Family::Imul => b" short product",
        Family::Mul => b" product",
        Family::Idiv => b" quotient",
        Family::Div => b" long quotient",
        Family::Shift => b" shift",
        Family::Jffo => b" first one",
        Family::DoubleShift => b" double shift",
        Family::Exch => b" exchange",
        Family::Blt => b" block",
        Family::Aobj => b" both halves",
        Family::Jrst => b" jump and restore",
        Family::Jfcl => b" jump on flags",
        Family::Xct => b" execute",
        Family::Pushj => b" push and jump",
        Family::PushPop => b" push or pop",
        Family::Popj => b" pop and jump",
        Family::JsrJsp => b" jump to subroutine",
        Family::JsaJra => b" jump with AC",
        Family::AddSub => b" sum",
        Family::Compare => b" compare",
        Family::JumpSkip => b" jump or skip",
        Family::AddOne => b" add one",
        Family::SubOne => b" subtract one",
        Family::Boolean => b" Boolean",
        Family::Half => b" halfword",
        Family::Test => b" test",
    }
}

/// The name of a mode.
fn mode_name(mode: OpMode) -> &'static [u8] {
    match mode {
        OpMode::Basic => b", basic",
        OpMode::Immediate => b", immediate",
        OpMode::Memory => b", memory",
        OpMode::Both => b", both",
        OpMode::Own => b", self",
    }
}
