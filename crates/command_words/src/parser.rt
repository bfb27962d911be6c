// What `clap` finds in the words of a command.
ghost use Rattle.std.specs.Prelude.{◌≡◌, false, map, string_bytes, IfOk, MatchOption};
ghost use Rattle.std.specs.List.{list_all};
ghost use Rattle.clap.specs.Words.{FailsBy, fault_of, found_of, matches_of, rows_of, rule_of};
ghost use Rattle.command_words.specs.Parser.{AreRight, IsFoundIn, is_other, rule_named, run_app, seed_rule};

use clap::error::ErrorKind;
use clap::{Arg, ArgAction, ArgMatches, Command, Error};
use outside::Memory;
use std::alloc::Global;

// What is found in the words behind the first. None exactly where something is wrong with them, or a word is `--`, which
// `clap` would let pass.
pub(crate) fn read_words<'a>(
    alloc: Global,
    words: &'a [String],
) -> Result<Option<ArgMatches<'a>>, Memory>
    ensures { IfOk result (λ found. MatchOption found (AreRight (map string_bytes words.now) → ⊥) (λ m. IsFoundIn (map string_bytes words.now) (found_of m))) }
{
    if !are_other(words) {
        return Ok(None);
    }
    match matches(alloc, words) {
        Ok(matches) => Ok(Some(matches)),
        Err(error) => match error.kind() {
            ErrorKind::OutOfMemory => Err(Memory),
            _ => Ok(None),
        },
    }
}

// Whether no word is `--`.
fn are_other(words: &[String]) -> bool
    ensures { result ≡ list_all is_other (map string_bytes words.now) }
{
    words.iter().all(|word| word.as_bytes() != b"--".as_slice())
}

// What `clap` reads of the words behind the first, which it takes for the name of a program.
fn matches<'a>(alloc: Global, words: &'a [String]) -> Result<ArgMatches<'a>, Error>
    ensures matches { IfOk result (λ m. rows_of (found_of m) ≡ matches_of run_app (map string_bytes words.now)) }
    ensures kinds { FailsBy (fault_of run_app (map string_bytes words.now)) result }
{
    Command::new(alloc, "tenex")
        .disable_help_flag(true)
        .arg(option(alloc, "frames"))?
        .arg(option(alloc, "drum"))?
        .arg(seed(alloc))?
        .try_get_matches_from(words)
}

// `--name` with one value.
fn option<'a>(alloc: Global, name: &'a str) -> Arg<'a>
    ensures rule { rule_of result ≡ rule_named name.now }
    ensures local { result.global ≡ false }
{
    Arg::new(alloc, name).long(name).action(ArgAction::Set)
}

// A word that stands alone.
fn seed<'a>(alloc: Global) -> Arg<'a>
    ensures rule { rule_of result ≡ seed_rule }
    ensures local { result.global ≡ false }
{
    Arg::new(alloc, "seed").action(ArgAction::Set)
}
