// The words that ask for what a command makes of a record.
ghost use Rattle.std.specs.Prelude.{◌≡◌, List, IfOk, MatchOption};
ghost use Rattle.clap.specs.Words.{found_of};
ghost use Rattle.command_words.specs.Parser.{AsksForRecord};
ghost use Rattle.command_words.specs.RecordWords.{AskRecord, AskRecordOf};
ghost use Rattle.command_words.specs.Words.{Text};
ghost use Rattle.command_words.specs.declared.request.RecordRequest.{RecordRequest as TheRequest};

use crate::parser::read_words;
use crate::record_command::RecordCommand;
use crate::request::RecordRequest;
use crate::sizes::{DRUM, size_of};
use clap::ArgMatches;
use outside::Memory;
use std::alloc::Global;

/// What a command's words, those behind the program's name, ask to be made of a record. They are `replay` or `image`, with
/// `--drum n` or `--drum=n` at most once; n is 1 to 9 decimal digits. Without it there are 2,048 pages. None exactly where
/// the words are others, or the size is out of its range. `Memory` says nothing of the words.
pub fn asked_record(alloc: Global, words: &[String]) -> Result<Option<RecordRequest>, Memory>
    ensures { IfOk result (λ asked. MatchOption asked ((r : TheRequest) → AskRecord words.now r → ⊥) (λ r. AskRecord words.now r)) }
{
    let Some(name) = words.first() else {
        return Ok(None);
    };
    let Some(command) = RecordCommand::named(name) else {
        return Ok(None);
    };
    match read_words(alloc, words) {
        Ok(Some(matches)) => Ok(record_request(command, &matches)),
        Ok(None) => Ok(None),
        Err(Memory) => Err(Memory),
    }
}

/// Words ask for one thing of a record at most.
pub fn one_record_asking()
    ensures { (words : List Text) (r q : TheRequest) → AskRecordOf words r → AskRecordOf words q → r ≡ q }
{}

// What a command and the values behind its name ask for. It takes no frames and no seed.
fn record_request(command: RecordCommand, matches: &ArgMatches<'_>) -> Option<RecordRequest>
    ensures { let found = found_of matches.now in MatchOption result ((r : TheRequest) → AsksForRecord command found r → ⊥) (λ r. AsksForRecord command found r) }
{
    match (matches.get_str("frames"), matches.get_str("seed")) {
        (None, None) => {
            let drum = size_of(matches.get_str("drum"), &DRUM)?;
            Some(RecordRequest { command, drum })
        }
        _ => None,
    }
}
