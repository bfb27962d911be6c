// The entries of maps as words of their pages.
ghost use Rattle.std.specs.Prelude.{◌≡◌, ◌<◌, ◌↔◌, IsTrue, IfSome};
ghost use Rattle.share_table.specs.declared.pointer.Pointer.{Pointer as APointer};
ghost use Rattle.share_table.specs.Pointers.{IsPointer, access_bits, fields, one_page, pointer_word};

use crate::{MOST_SHARES, Share};
use machine_names::{Access, LAST_SERIAL, SPACE_PAGES};
use page_homes::{Home, MOST_HOMES};
use word36::Word;

/// An entry of a map: empty, a page by its home, one by its share, or what the page of another fork's
/// space is. The fork is named by its serial, 1 to 262,143, its page is 0 to 511, and homes and shares
/// are below 16,384.
#[derive(Clone, Copy, PartialEq, Eq)]
pub enum Pointer {
    Empty,
    Private(Home, Access),
    Shared(Share, Access),
    Indirect(u32, u16, Access),
}

// One of the kind, in bits 0 and 1 of a word, as a number of the word's left half.
const ONE_KIND: u32 = 0o200000;

// One of the access, in bits 2 to 5, as a number of the left half.
const ONE_ACCESS: u32 = 0o10000;

// How many accesses there are.
const ACCESSES: u32 = 0o20;

// How many pages there are: the page is in bits 9 to 17, the last of the left half.
const PAGES: u32 = 0o1000;

// What the kind says of the other fields.
const PRIVATE: u32 = 1;

const SHARED: u32 = 2;

const INDIRECT: u32 = 3;

// What is permitted, in four bits: R, W, X and C.
fn bits_of(access: Access) -> u32
    ensures value { result ≡ access_bits access }
    ensures below { result < ACCESSES }
{
    u32::from(access.r) * 8
        + u32::from(access.w) * 4
        + u32::from(access.x) * 2
        + u32::from(access.c)
}

// What four bits permit.
fn access_of(bits: u32) -> Access
    requires { bits < ACCESSES }
    ensures { access_bits result ≡ bits }
{
    Access {
        r: bits / 8 == 1,
        w: bits / 4 % 2 == 1,
        x: bits / 2 % 2 == 1,
        c: bits % 2 == 1,
    }
}

// The word with these fields.
fn word_of(kind: u32, access: Access, page: u32, number: u32) -> Word
    requires kind { kind < 4 }
    requires page { page < PAGES }
    requires number { number < one_page }
    ensures { result ≡ fields kind (access_bits access) page number }
{
    Word::join(
        kind * ONE_KIND + bits_of(access) * ONE_ACCESS + page,
        number,
    )
}

/// The word of an entry. The numbers of the entry fit it.
pub fn encode(p: Pointer) -> Word
    requires { IsPointer p }
    ensures { result ≡ pointer_word p }
{
    match p {
        Pointer::Empty => Word::ZERO,
        Pointer::Private(home, access) => word_of(PRIVATE, access, 0, home.0),
        Pointer::Shared(share, access) => word_of(SHARED, access, 0, share.0),
        Pointer::Indirect(serial, page, access) => {
            word_of(INDIRECT, access, u32::from(page), serial)
        }
    }
}

// Whether the numbers of an entry fit its word.
fn fits(p: Pointer) -> bool
    ensures { IsTrue result ↔ IsPointer p }
{
    match p {
        Pointer::Empty => true,
        Pointer::Private(home, _) => home.0 < MOST_HOMES,
        Pointer::Shared(share, _) => share.0 < MOST_SHARES,
        Pointer::Indirect(serial, page, _) => {
            1 <= serial && serial <= LAST_SERIAL && usize::from(page) < SPACE_PAGES
        }
    }
}

// The entry that the fields of a word name. The word is that of this entry, or of none.
fn named_by(w: Word) -> Pointer
    ensures { (p : APointer) → IsPointer p → pointer_word p ≡ w → result ≡ p }
{
    let left = w.left();
    let number = w.right();
    let access = access_of(left / ONE_ACCESS % ACCESSES);
    match left / ONE_KIND {
        PRIVATE => Pointer::Private(Home(number), access),
        SHARED => Pointer::Shared(Share(number), access),
        INDIRECT => Pointer::Indirect(number, (left % PAGES) as u16, access),
        _ => Pointer::Empty,
    }
}

/// The entry of a word, if an entry has this word: None exactly where none has it.
pub fn decode(w: Word) -> Option<Pointer>
    ensures read { (p : APointer) → IsPointer p → pointer_word p ≡ w → result ≡ Some p }
    ensures only { IfSome result (λ p. IsPointer p × (pointer_word p ≡ w)) }
{
    let p = named_by(w);
    if !fits(p) || encode(p) != w {
        return None;
    }
    Some(p)
}
