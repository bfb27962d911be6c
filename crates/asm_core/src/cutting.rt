// A line cut into its parts.
ghost use Rattle.std.specs.Prelude.{◌≡◌, ◌≤◌, ◌==◌, length, None, Some, MatchOption, IfSome, IsTrue, not, ◌+◌};
ghost use Rattle.std.specs.List.{list_all, position};
ghost use Rattle.asm_core.specs.Cutting.{behind_field, cut, ends_field, field, is_blank, is_line_code, is_line_text, is_over, past_blanks};

/// How many characters a line has at most, its line feed not counted.
pub const LINE_CHARACTERS: usize = 256;

/// Whether a text is a line without its line feed: at most 256 characters, each printed, a space or a tab.
#[tactic(auto, unfolding(crate::specs::Cutting::is_line_text))]
pub(crate) fn is_line_text(text: &[u8]) -> bool
    ensures value { result ≡ is_line_text text.now }
    ensures short { IsTrue result → length text.now ≤ LINE_CHARACTERS }
{
    text.len() <= LINE_CHARACTERS && has_line_codes(text)
}

// Whether each character is a printed one, a space or a tab.
fn has_line_codes(text: &[u8]) -> bool
    ensures { result ≡ list_all is_line_code text.now }
{
    text.iter()
        .all(|c| (b' ' <= *c && *c <= b'~') || *c == b'\t')
}

/// A text without the blanks in front of it.
pub(crate) fn past_blanks(text: &[u8]) -> &[u8]
    ensures value { result.now ≡ past_blanks text.now }
    ensures shorter { length result.now ≤ length text.now }
{
    let (_, behind) = text.split_at(first_unblank(text).unwrap_or(text.len()));
    behind
}

// Where the first character stands that is no blank.
fn first_unblank(text: &[u8]) -> Option<usize>
    ensures { result ≡ position (λ c. not (is_blank c)) text.now }
{
    text.iter().position(|c| !(*c == b' ' || *c == b'\t'))
}

/// The field that a text begins with, up to the first blank or semicolon, and what stands behind it.
pub(crate) fn cut_field(text: &[u8]) -> (&[u8], &[u8])
    ensures field { result.0.now ≡ field text.now }
    ensures behind { result.1.now ≡ behind_field text.now }
    ensures shorter { length result.1.now ≤ length text.now }
{
    text.split_at(field_end(text).unwrap_or(text.len()))
}

// Where the first character stands that ends a field.
fn field_end(text: &[u8]) -> Option<usize>
    ensures { result ≡ position ends_field text.now }
{
    text.iter()
        .position(|c| *c == b' ' || *c == b'\t' || *c == b';')
}

/// Whether nothing but blanks and a comment is left of a line.
#[tactic(auto, unfolding(crate::specs::Cutting::is_over))]
pub(crate) fn is_over(text: &[u8]) -> bool
    ensures { result ≡ is_over text.now }
{
    match past_blanks(text) {
        [] => true,
        [c, ..] => *c == b';',
    }
}

/// What stands before the first such mark of a text, and what behind it. None exactly where there is
/// no such mark.
pub(crate) fn cut(text: &[u8], mark: u8) -> Option<(&[u8], &[u8])>
    ensures cut { MatchOption result (cut mark text.now ≡ None) (λ p. cut mark text.now ≡ Some (p.0.now, p.1.now)) }
    ensures shorter { IfSome result (λ p. length p.0.now + length p.1.now + 1 ≡ length text.now) }
{
    let at = place_of(text, mark)?;
    Some((&text[..at], &text[at + 1..]))
}

// Where the first such mark stands.
fn place_of(text: &[u8], mark: u8) -> Option<usize>
    ensures { result ≡ position (λ c. c == mark) text.now }
{
    text.iter().position(|c| *c == mark)
}
