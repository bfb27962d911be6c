// What follows from the definitions, in the words of their users. A law does nothing when it runs.
ghost use Rattle.std.specs.Prelude.{◌≡◌, ℕ, ◌<◌, List, IsSome, false, length};
ghost use Rattle.page_homes.specs.declared.homes.Home.{Home};
ghost use Rattle.frame_table.specs.Ages.{OthersKeepAges, RenewsAge};
ghost use Rattle.frame_table.specs.Core.{Core, IsCore, IsVictim, LAST_USE, home_in, is_held, seat_of, used, with_page, without_page};
ghost use Rattle.frame_table.specs.Deeds.{Deed, IsHeldThrough, after, after_all};

/// A frame that is held keeps the page of its home, whatever is done, until its holds are spent and
/// its pins taken away.
pub fn held_frames_keep_their_pages()
    ensures { (c : Core) (ds : List Deed) (f : ℕ) → IsHeldThrough c ds f → home_in (after_all c ds) f ≡ home_in c f }
{}

/// A hold that is spent leaves no trace, and neither does a pin that is taken away.
pub fn spent_holds_leave_no_trace()
    ensures holds { (c : Core) (f : ℕ) → IsSome (seat_of c f) → after (after c (Deed.Holds f)) (Deed.Releases f) ≡ c }
    ensures pins { (c : Core) (f : ℕ) → IsSome (seat_of c f) → after (after c (Deed.Pins f)) (Deed.Unpins f) ≡ c }
{}

/// Until the numbers of uses end, a use, or a page that comes in, makes a frame the youngest, and no
/// other frame's age changes. One that is made free leaves the others as they are.
pub fn uses_renew_ages()
    ensures used { (c : Core) (f : ℕ) → IsCore c → c.uses < LAST_USE → IsSome (seat_of c f) → RenewsAge c (used c f) f }
    ensures comes { (c : Core) (f : ℕ) (h : Home) → IsCore c → c.uses < LAST_USE → f < length c.seats → RenewsAge c (with_page c f h) f }
    ensures goes { (c : Core) (f : ℕ) → OthersKeepAges c (without_page c f) f }
{}

/// A victim is taken and not held.
pub fn a_victim_is_not_held()
    ensures taken { (c : Core) (f : ℕ) → IsVictim c f → IsSome (seat_of c f) }
    ensures let_go { (c : Core) (f : ℕ) → IsVictim c f → is_held c f ≡ false }
{}
