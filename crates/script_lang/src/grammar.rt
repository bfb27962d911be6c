// What a line of a script is.
ghost use Rattle.std.specs.Prelude.{◌≡◌, ◌≤◌, ◌↔◌, ℕ, List, length, All, IsTrue};
ghost use Rattle.script_texts.specs.Limits.{FitsEvent};
ghost use Rattle.script_texts.specs.Script.{IsBlank, IsScript, Spells};
ghost use Rattle.script_texts.specs.declared.event.Event.{Event as AnEvent};
ghost use Rattle.script_lang.specs.Grammar.{SpellsNone};

use crate::keywords::event;
use line_buffer::MOST_LINE;
use script_texts::Event;

/// What a line without its line feed is.
#[derive(Clone, Copy)]
pub enum Read {
    /// An empty line or a comment, which begins with a semicolon.
    Nothing,
    /// The line spells this event.
    One(Event),
    /// The line is none of a script.
    Bad,
}

/// What a line without its line feed is: `One` exactly where it spells an event, `Nothing` exactly
/// where it is empty or a comment, and else `Bad`.
pub fn read_line(text: &[u8]) -> Read
    ensures one { (e : AnEvent) → result ≡ Read.One e → Spells text.now e × FitsEvent e }
    ensures only { (e : AnEvent) → Spells text.now e → result ≡ Read.One e }
    ensures nothing { result ≡ Read.Nothing ↔ IsBlank text.now }
    ensures bad { result ≡ Read.Bad ↔ (SpellsNone text.now × (IsBlank text.now → ⊥)) }
{
    if is_blank(text) {
        return Read::Nothing;
    }
    match event(text) {
        Some(event) => Read::One(event),
        None => Read::Bad,
    }
}

/// Whether a line is empty or a comment.
pub(crate) fn is_blank(line: &[u8]) -> bool
    ensures { IsTrue result ↔ IsBlank line.now }
{
    matches!(line, [] | [b';', ..])
}

/// A line spells one event at most, which keeps its limits; and no line that spells one is longer
/// than MOST_LINE bytes.
pub fn one_spelling()
    ensures one { (line : List ℕ) (e f : AnEvent) → Spells line e → Spells line f → e ≡ f }
    ensures fits { (line : List ℕ) (e : AnEvent) → Spells line e → FitsEvent e }
    ensures short { (line : List ℕ) (e : AnEvent) → Spells line e → length line ≤ MOST_LINE }
{}

/// Each event of a script keeps its limits.
pub fn script_fits()
    ensures { (text : List ℕ) (es : List AnEvent) → IsScript text es → All FitsEvent es }
{}
