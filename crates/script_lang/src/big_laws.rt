// What generated scripts have in common, and one of them. A law does nothing when it runs.
ghost use Rattle.std.specs.Prelude.{◌≡◌, ℕ, [], ◌∷◌, length};
ghost use Rattle.std.specs.List.{filter, filter_map};
ghost use Rattle.script_lang.specs.Generator.{big_events, is_step, turns_of_program};

/// Each generated script has 162 events that are steps of their own, and eight programs; these are the
/// turns that the programs of seed 7 make.
pub fn big_script()
    ensures steps { (seed : ℕ) → length (filter is_step (big_events seed)) ≡ 162 }
    ensures programs { (seed : ℕ) → length (filter_map turns_of_program (big_events seed)) ≡ 8 }
    ensures seven { filter_map turns_of_program (big_events 7) ≡ 364 ∷ 368 ∷ 331 ∷ 334 ∷ 385 ∷ 313 ∷ 330 ∷ 349 ∷ [] }
{}
