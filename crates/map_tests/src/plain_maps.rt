// Maps, a file and words of pages as plain lists, in which everything is looked for.
use page_contracts::Peeked;

/// How many forks there may be, how many pages of a space are used, and how many of the file.
pub const FORKS: usize = 4;

pub const SPACE: usize = 4;

pub const FILED: usize = 3;

// How many entries, and how many pages, there may be.
const ENTRIES: usize = FORKS * SPACE;

const PAGES: usize = 32;

/// An entry: none, a page, which may have to be copied when it is written, or the entry with a number.
#[derive(Clone, Copy)]
pub enum Plain {
    Empty,
    Page(usize, bool),
    Follows(usize),
}

/// Which forks live, their entries, the pages of the file, and the first word of each page.
#[derive(Drop)]
pub struct PlainMaps {
    lives: [bool; FORKS],
    entries: [Plain; ENTRIES],
    filed: [Option<usize>; FILED],
    words: [u64; PAGES],
}

impl PlainMaps {
    /// No fork and no page.
    pub fn new() -> PlainMaps {
        PlainMaps {
            lives: [false; FORKS],
            entries: [Plain::Empty; ENTRIES],
            filed: [None; FILED],
            words: [0; PAGES],
        }
    }

    /// Whether a fork lives.
    pub fn lives(&self, fork: usize) -> bool {
        fork < FORKS && self.lives[fork]
    }

    // The entry with a number, of a fork that lives.
    fn entry(&self, at: usize) -> Option<Plain> {
        if at < ENTRIES && self.lives(at / SPACE) {
            Some(self.entries[at])
        } else {
            None
        }
    }

    /// Sets the entry with a number.
    pub fn set(&mut self, at: usize, entry: Plain) {
        if at < ENTRIES {
            self.entries[at] = entry;
        }
    }

    /// A fork begins to live, with an empty map or one that follows another's.
    pub fn add(&mut self, fork: usize, leader: Option<usize>) {
        if fork < FORKS {
            self.lives[fork] = true;
        }
        for page in 0..SPACE {
            let entry = match leader {
                Some(leader) => Plain::Follows(number(leader, page)),
                None => Plain::Empty,
            };
            self.set(number(fork, page), entry);
        }
    }

    /// A fork ends, with its map.
    pub fn end(&mut self, fork: usize) {
        if fork < FORKS {
            self.lives[fork] = false;
        }
    }

    /// The last entry of a chain of four at most, with its number.
    pub fn last(&self, at: usize) -> Option<(usize, Plain)> {
        let mut place = at;
        for _link in 0..4 {
            match self.entry(place)? {
                Plain::Follows(next) => place = next,
                entry => return Some((place, entry)),
            }
        }
        None
    }

    /// The page at the end of a chain.
    pub fn page(&self, at: usize) -> Option<usize> {
        match self.last(at) {
            Some((_, Plain::Page(page, _))) => Some(page),
            _ => None,
        }
    }

    /// The page of the file.
    pub fn filed(&self, page: usize) -> Option<usize> {
        if page < FILED { self.filed[page] } else { None }
    }

    /// The file names a page, or none.
    pub fn file(&mut self, page: usize, named: Option<usize>) {
        if page < FILED {
            self.filed[page] = named;
        }
    }

    // How many entries of forks that live name a page.
    fn names_in_maps(&self, page: usize) -> u32 {
        let mut names: u32 = 0;
        for at in 0..ENTRIES {
            if let Some(Plain::Page(named, _)) = self.entry(at) {
                if named == page {
                    names = names.saturating_add(1);
                }
            }
        }
        names
    }

    /// How many entries, and pages of the file, name a page.
    pub fn names(&self, page: usize) -> u32 {
        let mut names = self.names_in_maps(page);
        for filed in 0..FILED {
            if self.filed(filed) == Some(page) {
                names = names.saturating_add(1);
            }
        }
        names
    }

    /// How many pages and forks there are.
    pub fn live(&self) -> u32 {
        let mut count: u32 = 0;
        for page in 0..PAGES {
            if self.names(page) > 0 {
                count = count.saturating_add(1);
            }
        }
        for fork in 0..FORKS {
            if self.lives(fork) {
                count = count.saturating_add(1);
            }
        }
        count
    }

    // A page that nothing names.
    fn unnamed(&self) -> usize {
        for page in 0..PAGES {
            if self.names(page) == 0 {
                return page;
            }
        }
        PAGES
    }

    /// The word of a page.
    pub fn word(&self, page: usize) -> u64 {
        if page < PAGES { self.words[page] } else { 0 }
    }

    /// Puts a word into a page.
    pub fn put(&mut self, page: usize, word: u64) {
        if page < PAGES {
            self.words[page] = word;
        }
    }

    /// A page is made where a chain ends: a page of zeros where it names none, and else a copy of the page.
    pub fn make(&mut self, at: usize) {
        let Some((last, entry)) = self.last(at) else {
            return;
        };
        let made = self.unnamed();
        match entry {
            Plain::Page(page, _) => self.put(made, self.word(page)),
            _ => self.put(made, 0),
        }
        self.set(last, Plain::Page(made, false));
    }

    /// What a look at the word of a page finds, where nothing is in the way.
    pub fn peek(&self, at: usize) -> Option<u64> {
        match self.page(at) {
            Some(page) => Some(self.word(page)),
            None => None,
        }
    }
}

/// The number of an entry.
pub fn number(fork: usize, page: usize) -> usize {
    fork.wrapping_mul(SPACE).wrapping_add(page)
}

/// Whether a look found this, or something was in its way.
pub fn agrees(peeked: &Peeked, word: Option<u64>) -> bool {
    match peeked {
        Peeked::Is(found) => word == Some(found.value()),
        Peeked::NoPage => word.is_none(),
        Peeked::Absent(_) => true,
    }
}
