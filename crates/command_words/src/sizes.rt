// The sizes of a run, and the numbers that ask for them.
ghost use Rattle.std.specs.Prelude.{ℕ, MatchOption};
ghost use Rattle.command_words.specs.Parser.{AsksIn};

use outside::MOST_DRUM_PAGES;
use script_lang::read_decimal;

/// How large a run is.
#[derive(Clone, Copy, PartialEq, Eq)]
pub struct Sizes {
    /// The page frames of core, 160 to 8,192.
    pub frames: u32,
    /// The drum's pages, 256 to 16,384: there may be so many pages and forks.
    pub drum: u32,
}

// What a size may be, and what it is where no option says.
pub(crate) struct Range {
    pub(crate) least: u32,
    pub(crate) most: u32,
    pub(crate) standard: u32,
}

/// The fewest page frames of core that a run may have, the most, and how many it has where no option says.
pub const LEAST_FRAMES: u32 = 160;

pub const MOST_FRAMES: u32 = 8192;

pub const STANDARD_FRAMES: u32 = 256;

/// The fewest pages of the drum, and how many a run has where no option says; the most are `MOST_DRUM_PAGES`.
pub const LEAST_DRUM_PAGES: u32 = 256;

pub const STANDARD_DRUM_PAGES: u32 = 2048;

pub(crate) const FRAMES: Range = Range {
    least: LEAST_FRAMES,
    most: MOST_FRAMES,
    standard: STANDARD_FRAMES,
};

pub(crate) const DRUM: Range = Range {
    least: LEAST_DRUM_PAGES,
    most: MOST_DRUM_PAGES,
    standard: STANDARD_DRUM_PAGES,
};

// How many digits a number among the words has at most.
pub(crate) const NUMBER_DIGITS: usize = 9;

/// The size that the value of an option asks for. None exactly where it is no number, or out of its
/// range.
pub(crate) fn size_of(value: Option<&str>, range: &Range) -> Option<u32>
    ensures { MatchOption result ((n : ℕ) → AsksIn range.now value.entry n → ⊥) (λ n. AsksIn range.now value.entry n) }
{
    let Some(text) = value else {
        return Some(range.standard);
    };
    let n = read_decimal(text.as_bytes(), NUMBER_DIGITS)?;
    if n < range.least || n > range.most {
        return None;
    }
    Some(n)
}
