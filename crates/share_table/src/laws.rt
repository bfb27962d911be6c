// What follows from the definitions, in the words of their users.
ghost use Rattle.std.specs.Prelude.{◌≡◌, ℕ, ◌+◌, ◌<◌, Some};
ghost use Rattle.share_table.specs.declared.shares.SharedPage.{SharedPage as ASharedPage};
ghost use Rattle.share_table.specs.declared.shares.TheConstants.{LAST_COUNT};
ghost use Rattle.share_table.specs.Pointers.{IsEntryWord, IsPointer};
ghost use Rattle.share_table.specs.Shares.{Shares, joined, left, page_at};

use crate::{Pointer, decode, encode};
use word36::Word;

/// An entry that is encoded and decoded comes back.
pub fn pointers_come_back(p: Pointer) -> Option<Pointer>
    requires { IsPointer p }
    ensures { result ≡ Some p }
{
    decode(encode(p))
}

/// The word of an entry that is decoded and encoded comes back.
pub fn words_come_back(w: Word) -> Option<Word>
    requires { IsEntryWord w }
    ensures { result ≡ Some w }
{
    match decode(w) {
        Some(p) => Some(encode(p)),
        None => None,
    }
}

/// What joins and leaves again changes nothing, while the count stays below its last value.
pub fn what_joins_may_leave()
    ensures { (t : Shares) (s : ℕ) (p : ASharedPage) → page_at t s ≡ Some p → 0 < p.count → p.count + 1 < LAST_COUNT → left (joined t s) s ≡ t }
{}
