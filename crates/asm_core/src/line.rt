// What a line of a program says, and what becomes of a program.
use crate::Half;
use machine_names::Text;
use word36::Word;

/// A name that labels a line: 1 to 6 capital letters and digits, the first a letter.
pub type Symbol = Text<6>;

/// Characters of a line, of which there are at most 256.
pub type LineText = Text<256>;

/// Half a word as a line writes it.
#[derive(Clone, Copy)]
pub enum Value {
    Number(Half),
    /// The location of the line that this labels.
    Named(Symbol),
}

/// What a line places.
#[derive(Clone, Copy)]
pub enum Statement {
    /// No word.
    Nothing,
    /// No word; the words of the lines behind begin at this address.
    Loc(Half),
    /// This word.
    Number(Word),
    /// The word with these halves. An instruction is one: its left half has the opcode, the
    /// accumulator, the indirect bit and the index register.
    Halves(Value, Value),
    /// These characters with at least one zero behind them, five a word.
    Asciz(LineText),
}

/// A line: the symbol that it labels itself with, and what it places.
#[derive(Clone, Copy)]
pub struct Line {
    pub label: Option<Symbol>,
    pub statement: Statement,
}

/// A word at its address.
#[derive(Clone, Copy, PartialEq, Eq)]
pub struct Placed {
    pub address: u32,
    pub word: Word,
}

/// Why a text is no program. Lines are numbered from 1.
#[derive(Clone, Copy, PartialEq, Eq, Drop)]
pub enum AsmFault {
    /// No memory was left.
    Memory,
    /// This line is no line of a program, or has no line feed.
    Line(u64),
    /// A word of this line, or its label, would stand at 2^18 or above.
    Overrun(u64),
    /// This symbol labels an earlier line too.
    Doubled(Symbol),
    /// This symbol is used and labels no line.
    Undefined(Symbol),
}
