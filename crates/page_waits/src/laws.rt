// What follows from the definitions. A law does nothing when it runs.
ghost use Rattle.std.specs.Prelude.{◌≡◌, ◌+◌, ◌≤◌, ℕ, List, [], ◌++◌, Bool, false, true, Option, None, Some};
ghost use Rattle.std.specs.List.{list_any};
ghost use Rattle.fork_lists.specs.declared.lists.ForkLists.{ForkLists as ALists};
ghost use Rattle.page_contracts.specs.Stores.{Ends, Transfer, arrives, without};
ghost use Rattle.page_contracts.specs.declared.answers.Need.{Need as ANeed};
ghost use Rattle.page_homes.specs.declared.homes.Home.{Home as AHome};
ghost use Rattle.page_waits.specs.Nearing.{NearsEnd, wait_left};
ghost use Rattle.page_waits.specs.Waits.{AreStanding, Wakes, the_lists};

use crate::System;

/// Between two steps of a machine, who waits for a page has its arrival queued, and where somebody waits for a frame some transfer is queued.
pub fn waits_are_awaited<S: System>()
    ensures pages { (s : S) (l : ALists) (seat : ℕ) (home : AHome) → AreStanding S.means the_lists s l → the_lists.waiting l seat ≡ Some (ANeed.Page home) → list_any (arrives home.0) (S.means.store.queue s) ≡ true }
    ensures frames { (s : S) (l : ALists) (seat : ℕ) → AreStanding S.means the_lists s l → the_lists.waiting l seat ≡ Some ANeed.Frame → S.means.store.queue s ≡ [] → ⊥ }
{}

/// Who waits is ready again once as many transfers have ended as there are frames, at most. So many are left at most; each that ends brings the end of a wait nearer by
/// one, or ends it; and what is queued behind, or taken from the queue but for the arrival that is waited for, takes it no farther off. What joins these
/// brings it nearer by the sum; and a wait whose end has come nearer by as many as were left is over.
pub fn who_waits_is_ready_again<S: System>()
    ensures few { (s : S) (l : ALists) (seat : ℕ) → AreStanding S.means the_lists s l → wait_left (S.means.store.queue s) (the_lists.waiting l seat) ≤ S.means.store.frames s }
    ensures ends { (s s' : S) (l l' : ALists) (told : ANeed) (seat : ℕ) → Ends S.means.store told s s' → Wakes the_lists told l l'
        → NearsEnd 1 (S.means.store.queue s) (S.means.store.queue s') (the_lists.waiting l seat) (the_lists.waiting l' seat) }
    ensures stays { (s s' : S) (l l' : ALists) (gone : Transfer → Bool) (more : List Transfer) (seat : ℕ) → AreStanding S.means the_lists s l
        → S.means.store.queue s' ≡ without gone (S.means.store.queue s) ++ more → the_lists.waiting l' seat ≡ the_lists.waiting l seat
        → ((home : AHome) (t : Transfer) → the_lists.waiting l seat ≡ Some (ANeed.Page home) → arrives home.0 t ≡ true → gone t ≡ false)
        → NearsEnd 0 (S.means.store.queue s) (S.means.store.queue s') (the_lists.waiting l seat) (the_lists.waiting l' seat) }
    ensures joins { (n m : ℕ) (p q r : List Transfer) (u v w : Option ANeed) → NearsEnd n p q u v → NearsEnd m q r v w → NearsEnd (n + m) p r u w }
    ensures over { (n : ℕ) (q r : List Transfer) (v w : Option ANeed) → NearsEnd n q r v w → wait_left q v ≤ n → w ≡ None }
{}
