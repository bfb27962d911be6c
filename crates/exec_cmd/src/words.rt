// The words of a line.
ghost use Rattle.std.specs.Prelude.{◌≡◌, ◌≤◌, [], ◌∷◌, length, not, MatchOption};
ghost use Rattle.std.specs.List.{position, position_or_len};
ghost use Rattle.plain_typing.specs.Commands.{says as says_in};
ghost use Rattle.plain_typing.specs.Words.{is_space, words};

/// The first word of a line, and what stands behind it. None exactly where the line has no word.
pub(crate) fn first_word(line: &[u8]) -> Option<(&[u8], &[u8])>
    ensures { MatchOption result (words line.now ≡ []) (λ p. words line.now ≡ p.0.now ∷ words p.1.now) }
{
    let start = word_start(line)?;
    let rest = &line[start..];
    Some(rest.split_at(word_end(rest)))
}

/// Whether a word is this one, its small letters raised.
pub(crate) fn says(word: &[u8], verb: &[u8]) -> bool
    ensures { result ≡ says_in word.now verb.now }
{
    if word.len() != verb.len() {
        return false;
    }
    for (i, c) in word.iter().enumerate() {
        if c.to_ascii_uppercase() != verb[i] {
            return false;
        }
    }
    true
}

// Where the first word begins.
fn word_start(line: &[u8]) -> Option<usize>
    ensures { result ≡ position (λ c. not (is_space c)) line.now }
{
    line.iter().position(|c| *c != b' ')
}

// Where the first space stands, or the line ends.
fn word_end(line: &[u8]) -> usize
    ensures end { result ≡ position_or_len is_space line.now }
    ensures within { result ≤ length line.now }
{
    first_space(line).unwrap_or(line.len())
}

// Where the first space stands.
fn first_space(line: &[u8]) -> Option<usize>
    ensures { result ≡ position is_space line.now }
{
    line.iter().position(|c| *c == b' ')
}
