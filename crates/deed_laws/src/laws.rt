// What follows from the definitions. A law does nothing when it runs.
ghost use Rattle.std.specs.Prelude.{◌≡◌, ℕ};
ghost use Rattle.fork_tree.specs.Trees.{IsTree};
ghost use Rattle.machine_names.specs.declared.names.Tty.{Tty as ATty};
ghost use Rattle.plain_model.specs.Events.{outer};
ghost use Rattle.plain_model.specs.State.{PlainState};
ghost use Rattle.plain_model.specs.Trees.{tree_of};
ghost use Rattle.plain_model.specs.TypeEvents.{typed_at};
ghost use Rattle.script_texts.specs.declared.event.Event.{Event as AnEvent};
ghost use Rattle.event_deeds.specs.Deeds.{deeds, most_deeds};
ghost use Rattle.event_deeds.specs.declared.deed.Deed.TheVariants.{Outer, Typed};

/// The deeds of a character that is typed, one behind the other, do what the character does, and show the same.
pub fn deeds_are_their_character()
    ensures { (s : PlainState) (t : ATty) (c : ℕ) → IsTree (tree_of s) → deeds most_deeds s (Typed t c) ≡ typed_at s t c }
{}

/// An event that is one deed does what that deed does, and shows the same.
pub fn a_deed_is_its_event()
    ensures { (s : PlainState) (e : AnEvent) → deeds most_deeds s (Outer e) ≡ outer s e }
{}
