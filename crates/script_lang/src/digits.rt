// Numbers as digits.
ghost use Rattle.std.specs.Prelude.{◌≡◌, ◌≤◌, decimal};
ghost use Rattle.word36.specs.Octal.{octal_padded};
ghost use Rattle.script_texts.specs.Texts.{octal, trimmed, escaped};

use itoa::Buffer;
use machine_names::Text;
use word36::{WORD_DIGITS, fill_octal};

/// How many decimal digits a number has at most.
pub const DECIMAL_DIGITS: usize = 20;

/// How many bytes type a character at most.
pub const ESCAPED_BYTES: usize = 4;

/// The decimal digits of a number.
pub fn decimal(n: u64) -> Text<DECIMAL_DIGITS>
    ensures { result ≡ decimal n }
{
    let mut buffer = Buffer::new();
    Text::new(buffer.format(n).as_bytes())
}

/// The octal digits of a number below 2^36, without zeros in front.
pub fn octal(n: u64) -> Text<WORD_DIGITS>
    ensures { result ≡ octal n }
{
    let mut digits = [0; WORD_DIGITS];
    fill_octal(&mut digits, n);
    Text::new(trim(&digits))
}

/// The last octal digits of a number, as many as are asked for.
pub fn octal_padded(width: usize, n: u64) -> Text<WORD_DIGITS>
    requires { width ≤ WORD_DIGITS }
    ensures { result ≡ octal_padded width n }
{
    let mut digits = [0; WORD_DIGITS];
    fill_octal(&mut digits[..width], n);
    Text::new(&digits[..width])
}

/// A typed character: itself from 32 to 126, but for the backslash; else a backslash and three octal digits.
pub fn escaped(c: u8) -> Text<ESCAPED_BYTES>
    ensures { result ≡ escaped c }
{
    if c < b' ' || c > b'~' || c == b'\\' {
        let mut text = [b'\\'; ESCAPED_BYTES];
        fill_octal(&mut text[1..], u64::from(c));
        Text::new(&text)
    } else {
        Text::new(&[c])
    }
}

// The digits without the zeros in front, but for the last digit.
fn trim(digits: &[u8]) -> &[u8]
    ensures { result.now ≡ trimmed digits.now }
{
    let mut at = 0;
    while at + 1 < digits.len() && digits[at] == b'0' {
        at += 1;
    }
    &digits[at..]
}
