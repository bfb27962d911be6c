// Which homes are taken.
ghost use Rattle.std.specs.Prelude.{◌≡◌, ◌<◌, ◌≤◌, true, false, not, IfOk, count_by, length, replicate, slice_index_or, slice_set};

use number_set::NumberSet;
use outside::Memory;
use page_homes::{Home, MOST_HOMES};
use std::alloc::Global;
use std::marker::Model;

/// The homes below a number, each free or taken.
#[derive(Drop)]
pub struct Homes {
    flags: Vec<bool>,
    taken: NumberSet,
    spare: u32,
}

impl Model for Homes {
    ghost use Rattle.std.specs.Prelude.{List, Bool};
    ghost use Rattle.paged_store.specs.TakenHomes.{AreCounted};

    ghost Value = { List Bool };

    ghost view = { λ s. s.flags.items };

    ghost invariant = { λ s. AreCounted s.flags.items s.taken s.spare };
}

impl Homes {
    /// So many homes, 16,384 at most, all of them free. Memory where there is none for them.
    pub fn boot(alloc: Global, pages: u32) -> Result<Self, Memory>
        requires { pages ≤ MOST_HOMES }
        ensures { IfOk result (λ h. h ≡ replicate pages false) }
    {
        Ok(Homes {
            flags: vec![in alloc; false; pages as usize]?,
            taken: NumberSet::boot(alloc, pages as usize)?,
            spare: pages,
        })
    }

    /// Whether a home is taken; one past the end isn't.
    #[inline(always)]
    pub fn is_taken(&self, home: Home) -> bool
        ensures taken { result ≡ slice_index_or self.now home.0 false }
        ensures few { length self.now ≤ MOST_HOMES }
    {
        (home.0 as usize) < self.flags.len() && self.flags[home.0 as usize]
    }

    /// How many homes are free.
    pub fn spare(&self) -> u32
        ensures { result ≡ count_by not self.now }
    {
        self.spare
    }

    /// Takes the free home of least number. One is free.
    pub fn take(&mut self) -> Home
        requires { 0 < count_by not self.old }
        ensures below { result.0 < length self.old }
        ensures free { slice_index_or self.old result.0 false ≡ false }
        ensures taken { self.new ≡ slice_set self.old result.0 true }
        ensures few { length self.old ≤ MOST_HOMES }
    {
        match self.taken.least_absent(0) {
            Some(home) => {
                self.flags[home] = true;
                self.taken.insert(home);
                self.spare -= 1;
                Home(home as u32)
            }
            None => unreachable!(),
        }
    }

    /// Makes a home free that is taken.
    pub fn release(&mut self, home: Home)
        requires { slice_index_or self.old home.0 false ≡ true }
        ensures { self.new ≡ slice_set self.old home.0 false }
    {
        self.flags[home.0 as usize] = false;
        self.taken.remove(home.0 as usize);
        self.spare += 1;
    }
}
