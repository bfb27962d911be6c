// The fields of a line, told apart by spaces.
ghost use Rattle.std.specs.Prelude.{◌≡◌, ◌≤◌, ℕ, Bool, MatchOption};
ghost use Rattle.script_texts.specs.Script.{IsDecimal, IsOctal, IsTty};
ghost use Rattle.script_texts.specs.Texts.{on_or_off};
ghost use Rattle.machine_names.specs.declared.names.Tty.{Tty as ATty};
ghost use Rattle.script_lang.specs.Fields.{Begins, BeginsNot, IsCut, IsHead, Lacks};

use machine_names::{TERMINALS, Tty};
use memchr::memchr;
use word36::{WORD_DIGITS, Word, read_octal};

// How many octal digits an address has at most.
const ADDRESS_DIGITS: usize = 6;

// How many octal digits the number of a page, or of a word in it, has at most.
const PAGE_DIGITS: usize = 3;

// How many decimal digits a serial has at most.
const SERIAL_DIGITS: usize = 6;

/// The bytes before the first one that is this, and those behind it. None exactly where no byte is.
pub fn cut(text: &[u8], at: u8) -> Option<(&[u8], &[u8])>
    ensures { MatchOption result (Lacks at text.now) (λ p. IsCut at text.now p.0.now p.1.now) }
{
    let place = memchr(at, text)?;
    Some((&text[..place], &text[place + 1..]))
}

/// The bytes before the first space, and those from it on; all and none where there is no space.
pub(crate) fn head(text: &[u8]) -> (&[u8], &[u8])
    ensures { IsHead text.now result.0.now result.1.now }
{
    match cut(text, b' ') {
        Some((front, _)) => text.split_at(front.len()),
        None => text.split_at(text.len()),
    }
}

/// The number that 1 to so many decimal digits write. None exactly where the text has another
/// length or another byte.
pub fn read_decimal(text: &[u8], most: usize) -> Option<u32>
    requires { most ≤ 9 }
    ensures { MatchOption result ((n : ℕ) → IsDecimal most text.now n → ⊥) (λ n. IsDecimal most text.now n) }
{
    if text.is_empty() || text.len() > most {
        return None;
    }
    let mut n: u32 = 0;
    for digit in text {
        if *digit < b'0' || *digit > b'9' {
            return None;
        }
        n = n * 10 + (*digit - b'0') as u32;
    }
    Some(n)
}

/// The terminal that 1 or 2 decimal digits write. None exactly where the text writes none.
pub(crate) fn tty(text: &[u8]) -> Option<Tty>
    ensures { MatchOption result ((t : ATty) → IsTty text.now t → ⊥) (λ t. IsTty text.now t) }
{
    let n = read_decimal(text, 2)?;
    if n >= TERMINALS as u32 {
        return None;
    }
    Some(Tty(n as u8))
}

/// The address that 1 to 6 octal digits write. None exactly where the text writes none.
pub(crate) fn address(text: &[u8]) -> Option<u32>
    ensures { MatchOption result ((n : ℕ) → IsOctal ADDRESS_DIGITS text.now n → ⊥) (λ n. IsOctal ADDRESS_DIGITS text.now n) }
{
    Some(read_octal(text, ADDRESS_DIGITS)? as u32)
}

/// The number of a page of a file, or of a word of a page, that 1 to 3 octal digits write. None
/// exactly where the text writes none.
pub(crate) fn page(text: &[u8]) -> Option<u16>
    ensures { MatchOption result ((n : ℕ) → IsOctal PAGE_DIGITS text.now n → ⊥) (λ n. IsOctal PAGE_DIGITS text.now n) }
{
    Some(read_octal(text, PAGE_DIGITS)? as u16)
}

/// The word that 1 to 12 octal digits write. None exactly where the text has another length or
/// another byte.
pub(crate) fn word(text: &[u8]) -> Option<Word>
    ensures { MatchOption result ((n : ℕ) → IsOctal WORD_DIGITS text.now n → ⊥) (λ w. IsOctal WORD_DIGITS text.now w) }
{
    Word::read_octal(text)
}

/// Whether a text is ON, which is true, or OFF. None exactly where it is neither.
pub(crate) fn switch(text: &[u8]) -> Option<bool>
    ensures { MatchOption result ((on : Bool) → text.now ≡ on_or_off on → ⊥) (λ on. text.now ≡ on_or_off on) }
{
    if text == b"ON".as_slice() {
        return Some(true);
    }
    if text == b"OFF".as_slice() {
        return Some(false);
    }
    None
}

/// The terminal of the first field, and what stands behind the space of this field. None exactly
/// where the text begins with none.
pub(crate) fn tty_field(text: &[u8]) -> Option<(Tty, &[u8])>
    ensures { MatchOption result (BeginsNot IsTty text.now) (λ p. Begins IsTty text.now p.0 p.1.now) }
{
    let (front, rest) = cut(text, b' ')?;
    Some((tty(front)?, rest))
}

/// The serial of the first field, and what stands behind the space of this field. None exactly
/// where the text begins with none.
pub(crate) fn serial_field(text: &[u8]) -> Option<(u32, &[u8])>
    ensures { MatchOption result (BeginsNot (IsDecimal SERIAL_DIGITS) text.now) (λ p. Begins (IsDecimal SERIAL_DIGITS) text.now p.0 p.1.now) }
{
    let (front, rest) = cut(text, b' ')?;
    Some((read_decimal(front, SERIAL_DIGITS)?, rest))
}

/// The address of the first field, and what stands behind the space of this field. None exactly
/// where the text begins with none.
pub(crate) fn address_field(text: &[u8]) -> Option<(u32, &[u8])>
    ensures { MatchOption result (BeginsNot (IsOctal ADDRESS_DIGITS) text.now) (λ p. Begins (IsOctal ADDRESS_DIGITS) text.now p.0 p.1.now) }
{
    let (front, rest) = cut(text, b' ')?;
    Some((address(front)?, rest))
}

/// The number of a page in the first field, and what stands behind the space of this field. None
/// exactly where the text begins with none.
pub(crate) fn page_field(text: &[u8]) -> Option<(u16, &[u8])>
    ensures { MatchOption result (BeginsNot (IsOctal PAGE_DIGITS) text.now) (λ p. Begins (IsOctal PAGE_DIGITS) text.now p.0 p.1.now) }
{
    let (front, rest) = cut(text, b' ')?;
    Some((page(front)?, rest))
}
