// The words that ask for a run.
ghost use Rattle.std.specs.Prelude.{◌≡◌, List, IfOk, MatchOption};
ghost use Rattle.clap.specs.Words.{found_of};
ghost use Rattle.command_words.specs.Parser.{AsksForRun, AsksForSizes};
ghost use Rattle.command_words.specs.Words.{Ask, AskOf, Text};
ghost use Rattle.command_words.specs.declared.request.Request.{Request as TheRequest};
ghost use Rattle.command_words.specs.declared.sizes.Sizes.{Sizes as TheSizes};

use crate::parser::read_words;
use crate::request::Request;
use crate::sizes::{DRUM, FRAMES, Sizes, size_of};
use crate::verb::Verb;
use clap::ArgMatches;
use outside::Memory;
use std::alloc::Global;

/// The run that a command's words ask for, those behind the program's name. They are `run`, or `big` and a
/// seed, with `--frames n` or `--frames=n`, and `--drum n` or `--drum=n`, in any order behind the first word
/// and each at most once; a seed and n are 1 to 9 decimal digits. Without an option there are 256 frames and
/// 2,048 pages of the drum. None exactly where the words are others, or a size is out of its range. `Memory`
/// says nothing of the words.
pub fn asked_run(alloc: Global, words: &[String]) -> Result<Option<Request>, Memory>
    ensures { IfOk result (λ run. MatchOption run ((r : TheRequest) → Ask words.now r → ⊥) (λ r. Ask words.now r)) }
{
    let Some(name) = words.first() else {
        return Ok(None);
    };
    let Some(verb) = Verb::named(name) else {
        return Ok(None);
    };
    match read_words(alloc, words) {
        Ok(Some(matches)) => Ok(request_of(verb, &matches)),
        Ok(None) => Ok(None),
        Err(Memory) => Err(Memory),
    }
}

/// Words ask for one run at most.
pub fn one_asking()
    ensures { (words : List Text) (r q : TheRequest) → AskOf words r → AskOf words q → r ≡ q }
{}

// The run that a first word and the values behind it ask for.
fn request_of(verb: Verb, matches: &ArgMatches<'_>) -> Option<Request>
    ensures { let found = found_of matches.now in MatchOption result ((r : TheRequest) → AsksForRun verb found r → ⊥) (λ r. AsksForRun verb found r) }
{
    let events = verb.events(matches.get_str("seed"))?;
    let sizes = sizes_of(matches)?;
    Some(Request { events, sizes })
}

// The sizes that the values of the options ask for.
fn sizes_of(matches: &ArgMatches<'_>) -> Option<Sizes>
    ensures { let found = found_of matches.now in MatchOption result ((s : TheSizes) → AsksForSizes found s → ⊥) (λ s. AsksForSizes found s) }
{
    let frames = size_of(matches.get_str("frames"), &FRAMES)?;
    let drum = size_of(matches.get_str("drum"), &DRUM)?;
    Some(Sizes { frames, drum })
}
