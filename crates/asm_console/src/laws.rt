// What follows from the definitions, in the words of their users. A law does nothing when it runs.
ghost use Rattle.std.specs.Prelude.{◌≡◌, ◌<◌, ◌^◌, ◌*◌, ◌≤◌, ℕ, All, List, Ok, length};
ghost use Rattle.machine_names.specs.declared.names.Tty.{Tty as ATty};
ghost use Rattle.script_texts.specs.Limits.{FitsEvent};
ghost use Rattle.script_texts.specs.Script.{AreLines, IsScript, most_bytes};
ghost use Rattle.asm_core.specs.declared.line.Placed.{Placed as APlaced};
ghost use Rattle.asm_core.specs.Places.{outcome};
ghost use Rattle.asm_console.specs.Lines.{events_of, lines_text};

/// The lines that put words are lines of a script, one for each word, and spell just these events. Each has at most 28
/// bytes; so the lines of 599,186 words and fewer are a whole script, since they ask for no turns. And each word of a
/// program stands at an address of a space.
pub fn lines_are_read()
    ensures lines { (t : ATty) (program : List APlaced) → All FitsEvent (events_of t program) → AreLines (lines_text t program) (length program) (events_of t program) }
    ensures short { (t : ATty) (program : List APlaced) → All FitsEvent (events_of t program) → length (lines_text t program) ≤ 28 * length program }
    ensures script { (t : ATty) (program : List APlaced) → All FitsEvent (events_of t program) → 28 * length program ≤ most_bytes → IsScript (lines_text t program) (events_of t program) }
    ensures below { (text : List ℕ) (program : List APlaced) → outcome text ≡ Ok program → All (λ p. p.address < 2 ^ 18) program }
{}
