// A turn of a call, as far as it has come.
ghost use Rattle.std.specs.Prelude.{◌≡◌};
ghost use Rattle.call_turns.specs.Turns.{entry_in, full_end, page_in, word_in};

use machine_names::{FileNo, PageName, Slot};
use plain_model::call::{End, NO_ROOM};
use plain_pages::MapEntry;
use plain_units::channel::DRUM_FULL;
use word36::Word;

/// What a turn asks of the pages. It is told of them as they are before it.
#[derive(Clone, Copy)]
pub enum Ask {
    /// The entry of a slot, Empty where its fork isn't there.
    Sees(Slot),
    /// The page at the end of a slot's chain, if one is named there.
    Finds(Slot),
    /// The page of a file, if it has that.
    FindsFile(FileNo, u16),
    /// The word at an offset of a page of a file, 0 where the file doesn't have the page.
    ReadsFile(FileNo, u16, u16),
}

/// What a turn is told.
#[derive(Clone, Copy)]
pub enum Told {
    Entry(MapEntry),
    Page(Option<PageName>),
    Word(Word),
}

impl Told {
    /// The entry that was seen; Empty where something else was asked for.
    pub fn entry(self) -> MapEntry
        ensures { result ≡ entry_in self }
    {
        match self {
            Told::Entry(entry) => entry,
            Told::Page(_) => MapEntry::Empty,
            Told::Word(_) => MapEntry::Empty,
        }
    }

    /// The page that was found; None where something else was asked for.
    pub fn page(self) -> Option<PageName>
        ensures { result ≡ page_in self }
    {
        match self {
            Told::Page(page) => page,
            Told::Entry(_) => None,
            Told::Word(_) => None,
        }
    }

    /// The word that was read; 0 where something else was asked for.
    pub fn word(self) -> Word
        ensures { result ≡ word_in self }
    {
        match self {
            Told::Word(word) => word,
            Told::Entry(_) => Word::ZERO,
            Told::Page(_) => Word::ZERO,
        }
    }
}

/// A turn of a call that makes changes of some kind: it ends, or it asks, and goes on with what is left of it. It refers to a
/// page at most once, as the last that it asks.
#[derive(Clone, Copy)]
pub enum Turn<C, S> {
    Ends(End<C>),
    Asks(Ask, S),
    /// It ends so where the page at the end of a slot's chain may be read. It is refused where that may not be, or no page is there.
    Reads(Slot, End<C>),
    /// It ends so where a page of a file may be written, which is made where the file has none.
    Fills(FileNo, u16, End<C>, WhenFull),
}

/// What a turn comes to that is to make a page, where the drum is full.
#[derive(Clone, Copy)]
pub enum WhenFull {
    /// The call is refused.
    Refused,
    /// The unit traps.
    Traps,
}

impl WhenFull {
    /// How such a turn ends.
    pub fn end<C: Copy>(self) -> End<C>
        ensures { result ≡ full_end self }
    {
        match self {
            WhenFull::Refused => End::Refused(NO_ROOM),
            WhenFull::Traps => End::Trap(DRUM_FULL),
        }
    }
}

/// What a turn was granted by the last that it asked.
#[derive(Clone, Copy)]
pub enum Grant {
    Nothing,
    /// The page at the end of a slot's chain may be read.
    Read(Slot),
    /// A page of a file may be written, and has to be made where the file has none.
    Fill(FileNo, u16),
}

/// How a turn comes out. Its change is not made yet, nor the page that was granted.
#[derive(Clone, Copy)]
pub struct Outcome<C> {
    pub grant: Grant,
    pub end: End<C>,
}

impl<C: Copy> Outcome<C> {
    /// The call, which has one return, is refused with the code of an error.
    pub fn refused(code: u32) -> Self
        ensures { result ≡ record { grant = Grant.Nothing; end = End.Refused code } }
    {
        Outcome {
            grant: Grant::Nothing,
            end: End::Refused(code),
        }
    }
}
