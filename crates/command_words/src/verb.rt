// The first word of a command, and which events it asks for.
ghost use Rattle.std.specs.Prelude.{◌≡◌, MatchOption};
ghost use Rattle.command_words.specs.Parser.{AsksWith, verb_named};
ghost use Rattle.command_words.specs.declared.request.EventSource.{EventSource as TheSource};

use crate::request::EventSource;
use crate::sizes::NUMBER_DIGITS;
use script_lang::read_decimal;

// What a command is.
#[derive(Clone, Copy)]
pub(crate) enum Verb {
    Run,
    Big,
}

impl Verb {
    // The command of this name.
    pub(crate) fn named(name: &str) -> Option<Verb>
        ensures { result ≡ verb_named name.now }
    {
        if name.as_bytes() == b"run".as_slice() {
            Some(Verb::Run)
        } else if name.as_bytes() == b"big".as_slice() {
            Some(Verb::Big)
        } else {
            None
        }
    }

    // The events that the command asks for with this seed, if there is one. None exactly where `run` has a
    // seed, or `big` has none, or one that is no number.
    pub(crate) fn events(self, seed: Option<&str>) -> Option<EventSource>
        ensures { MatchOption result ((e : TheSource) → AsksWith self seed.entry e → ⊥) (λ e. AsksWith self seed.entry e) }
    {
        match (self, seed) {
            (Verb::Run, None) => Some(EventSource::Script),
            (Verb::Big, Some(text)) => {
                let seed = read_decimal(text.as_bytes(), NUMBER_DIGITS)?;
                Some(EventSource::Generated(seed))
            }
            _ => None,
        }
    }
}
