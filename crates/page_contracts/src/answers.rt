// What is asked of pages, and what they answer.
use machine_names::Kind;
use page_homes::Home;
use plain_pages::MapEntry;
use word36::Word;

/// What a reference to a page finds.
#[derive(Clone, Copy)]
pub enum Touch {
    /// The page is there.
    Ready,
    /// A zero page has to be made.
    Zero,
    /// The page has to be copied. A sole copy takes the home of a page that has no other name.
    Copy { sole: bool },
    /// This home is in no frame.
    Absent(Home),
    /// A page has to be made, and no frame is free.
    NeedFrame,
    /// The map forbids a reference of this kind.
    Denied(Kind),
    /// A page has to be made, and the drum is full.
    Full,
}

/// What a look at a word finds, whatever the access.
#[derive(Clone, Copy)]
pub enum Peeked {
    Is(Word),
    /// This home is in no frame.
    Absent(Home),
    /// No page is named there.
    NoPage,
}

/// What a look at an entry finds.
#[derive(Clone, Copy)]
pub enum Seen {
    Is(MapEntry),
    /// This home, of the map, is in no frame.
    Absent(Home),
    /// No such fork lives.
    Missing,
}

/// What a fork in page wait waits for: a page, or any frame.
#[derive(Clone, Copy)]
pub enum Need {
    Page(Home),
    Frame,
}

/// The handle of a living fork's space, looked up once for many references.
#[derive(Clone, Copy, PartialEq, Eq)]
pub struct SpaceHandle(pub u32);

/// Where the words of a page are that a look has found. It stays so until an entry changes, a home is given up, or a transfer ends.
#[derive(Clone, Copy, PartialEq, Eq)]
pub struct Found(pub u32);
