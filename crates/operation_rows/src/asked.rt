// What a row asks.
ghost use Rattle.std.specs.Prelude.{◌≤◌};

use word36::Word;

/// How many words a row has at most.
pub(crate) const MOST_WORDS: usize = 8;

/// What a row asks. Opcodes and words stand in the order in which the operation takes them.
#[derive(Clone, Copy)]
pub(crate) enum Operation {
    /// `ARITHMETIC`: an opcode, the words of AC and of the accumulator behind it, and the operand.
    Arithmetic,
    /// `SHIFT`: an opcode, the words of AC and of the accumulator behind it, and the effective address.
    Shift,
    /// `BOOLEAN`: an opcode, the word of AC and the operand.
    Boolean,
    /// `HALF`: an opcode, the source and the destination.
    Half,
    /// `TEST`: an opcode, the word of AC and the mask.
    Test,
    /// `MASK`: an opcode and the operand of which it makes its mask.
    Mask,
    /// `HOLDS`: a condition, as the last digit of its opcode, and a word.
    Holds,
    /// `INSTRUCTION`: an opcode.
    Instruction,
    /// `INSTRUCTIONS`: no word.
    Instructions,
    /// `INCREMENT`: a byte pointer.
    Increment,
    /// `LOAD`: a byte pointer and the word at it.
    Load,
    /// `DEPOSIT`: a byte pointer, the word at it and the byte.
    Deposit,
    /// `DEED`: an opcode, an accumulator, its word and that of the accumulator behind it, the left half with the flags, the
    /// effective address, the last word taken for that, and the operand.
    Deed,
    /// `PLACES`: an opcode, an accumulator, its word, and the effective address.
    Places,
}

impl Operation {
    /// How many words stand behind its name.
    fn words(self) -> usize
        ensures { result ≤ MOST_WORDS }
    {
        match self {
            Operation::Instructions => 0,
            Operation::Instruction | Operation::Increment => 1,
            Operation::Mask | Operation::Holds | Operation::Load => 2,
            Operation::Boolean | Operation::Half | Operation::Test | Operation::Deposit => 3,
            Operation::Arithmetic | Operation::Shift | Operation::Places => 4,
            Operation::Deed => MOST_WORDS,
        }
    }
}

/// A row: what it asks, and its words; behind the last one stand zeros.
#[derive(Drop)]
pub(crate) struct Row {
    /// What it asks.
    pub(crate) operation: Operation,
    /// Of these words.
    pub(crate) words: [Word; MOST_WORDS],
}

/// The operations by their names.
const OPERATIONS: [(&str, Operation); 14] = [
    ("ARITHMETIC", Operation::Arithmetic),
    ("SHIFT", Operation::Shift),
    ("BOOLEAN", Operation::Boolean),
    ("HALF", Operation::Half),
    ("TEST", Operation::Test),
    ("MASK", Operation::Mask),
    ("HOLDS", Operation::Holds),
    ("INSTRUCTION", Operation::Instruction),
    ("INSTRUCTIONS", Operation::Instructions),
    ("INCREMENT", Operation::Increment),
    ("LOAD", Operation::Load),
    ("DEPOSIT", Operation::Deposit),
    ("DEED", Operation::Deed),
    ("PLACES", Operation::Places),
];

/// The operation of this name.
fn operation_named(name: &[u8]) -> Option<Operation> {
    for (text, operation) in &OPERATIONS {
        if text.as_bytes() == name {
            return Some(*operation);
        }
    }
    None
}

/// Where the first space stands, or the text ends.
fn word_end(text: &[u8]) -> usize {
    text.iter().position(|c| *c == b' ').unwrap_or(text.len())
}

/// The row that a line is: an operation's name and just its words, each behind a space.
pub(crate) fn read_row(line: &[u8]) -> Option<Row> {
    let (name, mut rest) = line.split_at_checked(word_end(line))?;
    let operation = operation_named(name)?;
    let mut words = [Word::ZERO; MOST_WORDS];
    for place in 0..operation.words() {
        let text = rest.strip_prefix(b" ")?;
        let (word, behind) = text.split_at_checked(word_end(text))?;
        words[place] = Word::read_octal(word)?;
        rest = behind;
    }
    if rest.is_empty() {
        Some(Row { operation, words })
    } else {
        None
    }
}
