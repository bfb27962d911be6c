// The homes whose frames are held, by holder.
ghost use Rattle.std.specs.Prelude.{◌≡◌, ◌==◌, ◌∷◌, ◌++◌, ◌<◌, ℕ, List, [], IfOk, None, Some, filter, length, not, replicate, slice_set};
ghost use Rattle.std.specs.List.{list_any};
ghost use Rattle.page_homes.specs.declared.homes.Home.{Home};
ghost use Rattle.paged_store.specs.HeldHomes.{held_by, no_holds};

use arrayvec::ArrayVec;
use outside::Memory;
use page_contracts::{MOST_HELD, MOST_HOLDERS};
use page_homes::Home;
use std::alloc::{AllocError, Global};
use std::marker::Model;

// How many homes are held for one holder at most.
const HELD: usize = MOST_HELD as usize;

/// For each holder the homes whose frames are held for it, at most 128.
#[derive(Drop)]
pub struct Holders {
    lists: Vec<ArrayVec<u32, HELD>>,
}

impl Model for Holders {
    ghost use Rattle.std.specs.Prelude.{◌≡◌, ℕ, List, length, map};
    ghost use Rattle.page_contracts.specs.declared.store.TheConstants.{MOST_HOLDERS};

    ghost Value = { List (List ℕ) };

    ghost view = { λ s. map (λ v. v.items) s.lists.items };

    ghost invariant = { λ s. length s.lists.items ≡ MOST_HOLDERS };
}

// So many empty lists.
fn empty_lists(alloc: Global) -> Result<Vec<ArrayVec<u32, HELD>>, AllocError>
    ensures { IfOk result (λ v. v.items ≡ replicate MOST_HOLDERS (record { items = [] })) }
{
    let mut lists = Vec::with_capacity(alloc, MOST_HOLDERS as usize)?;
    for _holder in 0..MOST_HOLDERS {
        lists.push(ArrayVec::new())?;
    }
    Ok(lists)
}

// Whether a home is in a list.
fn stands_in(list: &[u32], home: Home) -> bool
    ensures { result ≡ list_any (λ h. h == home.0) list.now }
{
    list.iter().any(|h| *h == home.0)
}

// Takes a home out of a list.
fn take_out(list: &mut ArrayVec<u32, HELD>, home: Home)
    ensures { list.new.items ≡ filter (λ h. not (h == home.0)) list.old.items }
{
    list.retain(|h| *h != home.0);
}

impl Holders {
    /// Nothing is held for anybody. Memory where there is none for the lists.
    pub fn boot(alloc: Global) -> Result<Self, Memory>
        ensures { IfOk result (λ h. h ≡ no_holds) }
    {
        Ok(Holders {
            lists: empty_lists(alloc)?,
        })
    }

    /// How many homes are held for a holder.
    pub fn count(&self, holder: u16) -> u32
        ensures { result ≡ length (held_by self.now holder) }
    {
        if (holder as usize) < self.lists.len() {
            self.lists[holder as usize].len() as u32
        } else {
            0
        }
    }

    /// Whether a home is held for a holder.
    pub fn has(&self, holder: u16, home: Home) -> bool
        requires { holder < MOST_HOLDERS }
        ensures { result ≡ list_any (λ h. h == home.0) (held_by self.now holder) }
    {
        let list = &self.lists[holder as usize];
        stands_in(list.as_slice(), home)
    }

    /// Holds a home for a holder.
    pub fn add(&mut self, holder: u16, home: Home)
        requires holder { holder < MOST_HOLDERS }
        requires few { length (held_by self.old holder) < MOST_HELD }
        ensures { self.new ≡ slice_set self.old holder (held_by self.old holder ++ home.0 ∷ []) }
    {
        let list = &mut self.lists[holder as usize];
        list.push(home.0);
    }

    /// The last home that is held for a holder isn't held for it any more, and is answered. None exactly where none is
    /// held; then nothing changes.
    pub fn pop(&mut self, holder: u16) -> Option<Home>
        ensures none { result ≡ None → (held_by self.old holder ≡ []) × (self.new ≡ self.old) }
        ensures some { (home : Home) → result ≡ Some home → (rest : List ℕ) × (held_by self.old holder ≡ rest ++ home.0 ∷ []) × (self.new ≡ slice_set self.old holder rest) }
    {
        if (holder as usize) < self.lists.len() {
            let list = &mut self.lists[holder as usize];
            let home = list.pop()?;
            return Some(Home(home));
        }
        None
    }

    /// A home isn't held for a holder any more.
    pub fn drop_home(&mut self, holder: u16, home: Home)
        requires { holder < MOST_HOLDERS }
        ensures { self.new ≡ slice_set self.old holder (filter (λ h. not (h == home.0)) (held_by self.old holder)) }
    {
        let list = &mut self.lists[holder as usize];
        take_out(list, home);
    }
}
