// The statements of a line, and a whole line.
ghost use Rattle.std.specs.Prelude.{◌≡◌, ◌≤◌, length, IfSome};
ghost use Rattle.std.specs.List.{list_all};
ghost use Rattle.std.specs.Str.{bytes_eq};
ghost use Rattle.std.specs.Prelude.{nat_le};
ghost use Rattle.asm_core.specs.Grammar.{asciz, line_in, line_of, named, plain, quoted, statement_of, with_operands};

use crate::cutting::{LINE_CHARACTERS, cut, cut_field, is_line_text, is_over, past_blanks};
use crate::names::{call_of, opcode_of};
use crate::numbers::{SYMBOL_CHARACTERS, half, is_symbol};
use crate::operands::{instruction, word_of};
use crate::{Line, LineText, Statement, Symbol};
use word36::Word;

// The left half of a monitor call: opcode 104 without an accumulator.
const MONITOR_CALL: u32 = 0o104000;

/// A text without its line feed as a line. None exactly where it is no line of a program.
#[tactic(auto, unfolding(crate::specs::Grammar::line_of))]
pub fn read_line(text: &[u8]) -> Option<Line>
    ensures value { result ≡ line_of text.now }
    ensures short { IfSome result (λ x. IfSome x.label (λ s. length s ≤ SYMBOL_CHARACTERS)) }
{
    if is_line_text(text) {
        line_in(past_blanks(text))
    } else {
        None
    }
}

// A text without the blanks in front as a line: its label before a colon, if a symbol stands there, and
// its statement.
#[tactic(auto, unfolding(crate::specs::Grammar::line_in))]
fn line_in(text: &[u8]) -> Option<Line>
    requires { length text.now ≤ LINE_CHARACTERS }
    ensures value { result ≡ line_in text.now }
    ensures short { IfSome result (λ x. IfSome x.label (λ s. length s ≤ SYMBOL_CHARACTERS)) }
{
    if let Some((front, behind)) = cut(text, b':') {
        if is_symbol(front) {
            let statement = statement_of(past_blanks(behind))?;
            return Some(Line {
                label: Some(Symbol::new(front)),
                statement,
            });
        }
    }
    let statement = statement_of(text)?;
    Some(Line {
        label: None,
        statement,
    })
}

// The statement of a line behind its label.
#[tactic(auto, unfolding(crate::specs::Grammar::statement_of))]
fn statement_of(text: &[u8]) -> Option<Statement>
    requires { length text.now ≤ LINE_CHARACTERS }
    ensures { result ≡ statement_of text.now }
{
    let (word, behind) = cut_field(text);
    if is_word(word, b"ASCIZ") {
        asciz(behind)
    } else {
        with_operands(word, past_blanks(behind))
    }
}

// A statement whose operands begin this text: nothing but a comment stands behind them.
#[tactic(auto, unfolding(crate::specs::Grammar::with_operands))]
fn with_operands(word: &[u8], text: &[u8]) -> Option<Statement>
    ensures { result ≡ with_operands word.now text.now }
{
    let (operands, behind) = cut_field(text);
    if is_over(behind) {
        plain(word, operands)
    } else {
        None
    }
}

// A statement but ASCIZ, by its word and its operands.
#[tactic(auto, unfolding(crate::specs::Grammar::plain))]
fn plain(word: &[u8], operands: &[u8]) -> Option<Statement>
    ensures { result ≡ plain word.now operands.now }
{
    if word.is_empty() {
        return Some(Statement::Nothing);
    }
    if is_word(word, b"LOC") {
        return Some(Statement::Loc(half(operands)?));
    }
    if is_word(word, b"WORD") {
        return word_of(operands);
    }
    named(word, operands)
}

// A monitor call, which has no operands; or an instruction.
#[tactic(auto, unfolding(crate::specs::Grammar::named))]
fn named(word: &[u8], operands: &[u8]) -> Option<Statement>
    ensures { result ≡ named word.now operands.now }
{
    if let Some(number) = call_of(word) {
        if !operands.is_empty() {
            return None;
        }
        return Some(Statement::Number(Word::join(MONITOR_CALL, number as u32)));
    }
    instruction(opcode_of(word)?, operands)
}

// The text of ASCIZ between quotes.
#[tactic(auto, unfolding(crate::specs::Grammar::asciz))]
fn asciz(text: &[u8]) -> Option<Statement>
    requires { length text.now ≤ LINE_CHARACTERS }
    ensures { result ≡ asciz text.now }
{
    let text = past_blanks(text);
    match text {
        [] => None,
        [c, ..] => { if *c == b'"' { quoted(&text[1..]) } else { None } }
    }
}

// The text of ASCIZ up to the closing quote, behind which nothing but a comment stands.
#[tactic(auto, unfolding(crate::specs::Grammar::quoted))]
fn quoted(text: &[u8]) -> Option<Statement>
    requires { length text.now ≤ LINE_CHARACTERS }
    ensures { result ≡ quoted text.now }
{
    let (front, behind) = cut(text, b'"')?;
    if is_over(behind) && has_no_tab(front) {
        Some(Statement::Asciz(LineText::new(front)))
    } else {
        None
    }
}

// Whether each character of a line is a printed one or a space.
fn has_no_tab(text: &[u8]) -> bool
    ensures { result ≡ list_all (nat_le 32) text.now }
{
    text.iter().all(|c| b' ' <= *c)
}

// Whether a word is this one.
fn is_word(word: &[u8], name: &[u8]) -> bool
    ensures { result ≡ bytes_eq word.now name.now }
{
    word == name
}
