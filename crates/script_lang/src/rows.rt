// Rows of words.
ghost use Rattle.std.specs.Prelude.{◌<◌, ℕ, List, length, MatchOption};
ghost use Rattle.script_texts.specs.Script.{WordFields};
ghost use Rattle.script_lang.specs.Rows.{IsRow};

use crate::fields::{head, word};
use script_texts::WordRow;
use word36::Word;

/// How many words a row has at most.
pub(crate) const MOST_WORDS: usize = 8;

/// The words of fields, each behind its space, of which there may be none. None exactly where a
/// field is no word, or there are more than MOST_WORDS.
pub(crate) fn row(text: &[u8]) -> Option<WordRow>
    ensures { MatchOption result ((ws : List ℕ) → WordFields text.now ws → MOST_WORDS < length ws) (λ row. IsRow text.now row) }
{
    let mut words = [Word::ZERO; MOST_WORDS];
    let mut count = 0;
    let mut rest = text;
    while !rest.is_empty() {
        if count == MOST_WORDS {
            return None;
        }
        let (front, more) = head(rest.strip_prefix(b" ")?);
        words[count] = word(front)?;
        count += 1;
        rest = more;
    }
    Some(WordRow {
        count: count as u8,
        words,
    })
}
