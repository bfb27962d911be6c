// What a line types: characters, some of them as a backslash and three octal digits.
ghost use Rattle.std.specs.Prelude.{◌≤◌, ◌<◌, ℕ, List, length, MatchOption};
ghost use Rattle.script_texts.specs.Script.{Types};
ghost use Rattle.script_lang.specs.Typing.{EscapesFirst, EscapesNone, TypesFirst, TypesNone};

use machine_names::TypedText;
use word36::read_octal;

// How many characters a line types at most.
const MOST_TYPED: usize = 100;

// How many octal digits stand behind a backslash.
const ESCAPE_DIGITS: usize = 3;

// The last character.
const LAST_CHARACTER: u64 = 0o177;

/// The characters that a text types: none, where it is empty, and up to MOST_TYPED. None exactly where it
/// is not the text of characters, or has more.
pub(crate) fn typed(text: &[u8]) -> Option<TypedText>
    ensures { MatchOption result ((cs : List ℕ) → Types text.now cs → MOST_TYPED < length cs) (λ cs. Types text.now cs × (length cs ≤ MOST_TYPED)) }
{
    let mut characters = [0; MOST_TYPED];
    let mut count = 0;
    let mut rest = text;
    while !rest.is_empty() {
        if count == MOST_TYPED {
            return None;
        }
        let (c, more) = first_character(rest)?;
        characters[count] = c;
        count += 1;
        rest = more;
    }
    Some(TypedText::new(&characters[..count]))
}

// The first character that a text types, and what stands behind it. None exactly where the text
// begins with none.
fn first_character(text: &[u8]) -> Option<(u8, &[u8])>
    ensures { MatchOption result (TypesNone text.now) (λ p. TypesFirst text.now p.0 p.1.now) }
{
    let (c, rest) = text.split_first()?;
    match *c {
        b'\\' => escaped(rest),
        b' '..=b'~' => Some((*c, rest)),
        _ => None,
    }
}

// The character below 128 that three octal digits write, and what stands behind them. None exactly
// where the text begins with no such digits.
fn escaped(text: &[u8]) -> Option<(u8, &[u8])>
    ensures { MatchOption result (EscapesNone text.now) (λ p. EscapesFirst text.now p.0 p.1.now) }
{
    if text.len() < ESCAPE_DIGITS {
        return None;
    }
    let (digits, rest) = text.split_at(ESCAPE_DIGITS);
    let c = read_octal(digits, ESCAPE_DIGITS)?;
    if c > LAST_CHARACTER {
        return None;
    }
    Some((c as u8, rest))
}
