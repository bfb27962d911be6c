// Pages as a store in memory keeps them.
ghost use Rattle.std.specs.Prelude.{◌≡◌, false, length, replicate, IfOk};
ghost use Rattle.machine_names.specs.PageWords.{zero_words};
ghost use Rattle.flat_pages.specs.StoredPages.{homes_below};

use outside::PAGE_WORDS;
use page_homes::Home;
use std::alloc::{AllocError, Global};
use word36::Word;

/// For each home the words of its page, and whether it is taken. The words are nobody's where it isn't.
#[derive(Drop)]
pub struct StoredPages {
    pub words: Vec<[Word; PAGE_WORDS]>,
    pub taken: Vec<bool>,
    ghost even: { length words.items ≡ length taken.items },
}

/// The words of a page just made.
pub fn zero_page() -> [Word; PAGE_WORDS]
    ensures { result ≡ zero_words }
{
    [Word::ZERO; PAGE_WORDS]
}

// The words of so many pages.
fn zero_pages(alloc: Global, number: u32) -> Result<Vec<[Word; PAGE_WORDS]>, AllocError>
    ensures { IfOk result (λ v. v.items ≡ replicate number zero_words) }
{
    let mut pages = Vec::with_capacity(alloc, number as usize)?;
    for _page in 0..number {
        let words = zero_page();
        pages.push(words)?;
    }
    Ok(pages)
}

// As many homes, none of them taken.
fn none_taken(alloc: Global, number: u32) -> Result<Vec<bool>, AllocError>
    ensures { IfOk result (λ v. v.items ≡ replicate number false) }
{
    vec![in alloc; false; number as usize]
}

/// All homes below a number, in order.
pub fn all_homes(alloc: Global, number: u32) -> Result<Vec<Home>, AllocError>
    ensures { IfOk result (λ v. v.items ≡ homes_below number) }
{
    (0..number).map(|home| Home(home)).collect(alloc)
}

impl StoredPages {
    ghost use Rattle.std.specs.Prelude.{◌≡◌, ◌<◌, true, false, IfOk, length, replicate, slice_set, slice_index};
    ghost use Rattle.flat_pages.specs.StoredPages.{stored_at, free_page};
    ghost use Rattle.flat_pages.specs.StoredLists.{pages_of};

    /// The pages of so many homes, none of them taken.
    pub fn free(alloc: Global, number: u32) -> Result<StoredPages, AllocError>
        ensures { IfOk result (λ p. pages_of p ≡ replicate number free_page) }
    {
        let words = zero_pages(alloc, number)?;
        let taken = none_taken(alloc, number)?;
        Ok(StoredPages { words, taken })
    }

    /// Whether a home is taken; one past the end isn't.
    pub fn is_taken(&self, home: Home) -> bool
        ensures { result ≡ (stored_at (pages_of self.now) home.0).taken }
    {
        (home.0 as usize) < self.taken.len() && self.taken[home.0 as usize]
    }

    /// A word of a home's page.
    #[inline(always)]
    pub fn word(&self, home: u32, at: u16) -> Word
        requires home { home < length (pages_of self.now) }
        requires at { at < PAGE_WORDS }
        requires page { length (stored_at (pages_of self.now) home).words ≡ PAGE_WORDS }
        ensures { result ≡ slice_index (stored_at (pages_of self.now) home).words at }
    {
        self.words[home as usize][at as usize]
    }

    /// The words of a home's page.
    pub fn page(&self, home: Home) -> [Word; PAGE_WORDS]
        requires { home.0 < length (pages_of self.now) }
        ensures { result ≡ (stored_at (pages_of self.now) home.0).words }
    {
        self.words[home.0 as usize]
    }

    /// Puts a word into a home's page.
    #[inline(always)]
    pub fn put(&mut self, home: u32, at: u16, word: Word)
        requires home { home < length (pages_of self.old) }
        requires at { at < PAGE_WORDS }
        ensures { pages_of self.new ≡ slice_set (pages_of self.old) home (record (stored_at (pages_of self.old) home) { words = slice_set (stored_at (pages_of self.old) home).words at word }) }
    {
        let page = &mut self.words[home as usize];
        page[at as usize] = word;
    }

    /// Takes a home, for a page of these words.
    pub fn take(&mut self, home: Home, words: [Word; PAGE_WORDS])
        requires { home.0 < length (pages_of self.old) }
        ensures { pages_of self.new ≡ slice_set (pages_of self.old) home.0 (record { taken = true; words = words }) }
    {
        self.words[home.0 as usize] = words;
        self.taken[home.0 as usize] = true;
    }

    /// Gives up a home.
    pub fn give_up(&mut self, home: Home)
        requires { home.0 < length (pages_of self.old) }
        ensures { pages_of self.new ≡ slice_set (pages_of self.old) home.0 (record (stored_at (pages_of self.old) home.0) { taken = false }) }
    {
        self.taken[home.0 as usize] = false;
    }
}
