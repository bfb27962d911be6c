// The words of a statement, put at their addresses.
ghost use Rattle.std.specs.Prelude.{◌≡◌, ◌⊎◌, ◌<◌, ◌≤◌, ◌+◌, ◌/◌, ◌^◌, ℕ, List, [], ◌∷◌, ◌++◌, None, drop, length, MatchResult, OnOk, IfErr};
ghost use Rattle.word36.specs.Words.{joined};
ghost use Rattle.asm_core.specs.Passes.{IsUndefined, kept};
ghost use Rattle.asm_core.specs.Places.{character, first_undefined, five, half_by, names_in, packed, placed_from, size_of, used, words_by};

use crate::survey::SPACE_WORDS;
use crate::symbols::Symbols;
use crate::{AsmFault, Half, Placed, Statement, Value};
use word36::Word;

// How many characters a word has.
const WORD_CHARACTERS: usize = 5;

/// Puts the words of a statement behind a program.
pub(crate) fn place(
    program: &mut Vec<Placed>,
    location: u32,
    statement: &Statement,
    symbols: &Symbols,
) -> Result<(), AsmFault>
    requires { location + size_of statement.now ≤ SPACE_WORDS }
    ensures done { OnOk result ((first_undefined (kept symbols.now) (used statement.now) ≡ None) × (program.new.items ≡ program.old.items ++ placed_from location (words_by (kept symbols.now) statement.now))) }
    ensures fault { IfErr result (λ e. (e ≡ AsmFault.Memory) ⊎ IsUndefined (kept symbols.now) (used statement.now) e) }
{
    match statement {
        Statement::Nothing => Ok(()),
        Statement::Loc(_) => Ok(()),
        Statement::Number(word) => push(program, location, *word),
        Statement::Halves(left, right) => place_halves(program, location, left, right, symbols),
        Statement::Asciz(text) => place_text(program, location, text.as_slice()),
    }
}

// Puts a word behind a program.
fn push(program: &mut Vec<Placed>, address: u32, word: Word) -> Result<(), AsmFault>
    ensures done { OnOk result (program.new.items ≡ program.old.items ++ (record { address = address; word = word }) ∷ []) }
    ensures fault { IfErr result (λ e. e ≡ AsmFault.Memory) }
{
    match program.push(Placed { address, word }) {
        Ok(()) => Ok(()),
        Err(_) => Err(AsmFault::Memory),
    }
}

// Puts the word with these halves behind a program.
fn place_halves(
    program: &mut Vec<Placed>,
    location: u32,
    left: &Value,
    right: &Value,
    symbols: &Symbols,
) -> Result<(), AsmFault>
    ensures done { OnOk result ((first_undefined (kept symbols.now) (names_in left.now ++ names_in right.now) ≡ None) × (program.new.items ≡ program.old.items ++ (record { address = location; word = joined (half_by (kept symbols.now) left.now) (half_by (kept symbols.now) right.now) }) ∷ [])) }
    ensures fault { IfErr result (λ e. (e ≡ AsmFault.Memory) ⊎ IsUndefined (kept symbols.now) (names_in left.now ++ names_in right.now) e) }
{
    let left = half(left, symbols)?;
    let right = half(right, symbols)?;
    push(program, location, Word::join(left.value(), right.value()))
}

// The half that a value is.
fn half(value: &Value, symbols: &Symbols) -> Result<Half, AsmFault>
    ensures { MatchResult result (λ h. (first_undefined (kept symbols.now) (names_in value.now) ≡ None) × (h ≡ half_by (kept symbols.now) value.now)) (λ e. IsUndefined (kept symbols.now) (names_in value.now) e) }
{
    match value {
        Value::Number(half) => Ok(*half),
        Value::Named(symbol) => match symbols.get(symbol) {
            Some(half) => Ok(half),
            None => Err(AsmFault::Undefined(*symbol)),
        },
    }
}

// Puts the words of a text behind a program.
fn place_text(program: &mut Vec<Placed>, location: u32, text: &[u8]) -> Result<(), AsmFault>
    requires { location + (length text.now / 5 + 1) ≤ SPACE_WORDS }
    ensures done { OnOk result (program.new.items ≡ program.old.items ++ placed_from location (packed (length text.now / 5 + 1) text.now)) }
    ensures fault { IfErr result (λ e. e ≡ AsmFault.Memory) }
{
    let count = (text.len() / WORD_CHARACTERS + 1) as u32;
    let mut left = text;
    for place in 0..count {
        push(program, location + place, five(left))?;
        left = past_five(left);
    }
    Ok(())
}

// The characters behind the first five.
fn past_five(text: &[u8]) -> &[u8]
    ensures { result.now ≡ drop 5 text.now }
{
    let (_, behind) = text.split_at(text.len().min(WORD_CHARACTERS));
    behind
}

// The word of the first five characters.
fn five(text: &[u8]) -> Word
    ensures { result ≡ five text.now }
{
    let upper = character(text, 0) * 0o4000000000 + character(text, 1) * 0o20000000;
    let lower = character(text, 2) * 0o100000 + character(text, 3) * 0o400 + character(text, 4) * 2;
    Word::wrapped(upper + lower)
}

// The seven bits of a character of a text, 0 behind its end.
fn character(text: &[u8], place: usize) -> u64
    ensures value { result ≡ character text.now place }
    ensures below { result < 128 }
{
    if place < text.len() {
        (text[place] % 128) as u64
    } else {
        0
    }
}
