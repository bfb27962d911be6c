// The words that ask for what a command makes of a text.
ghost use Rattle.std.specs.Prelude.{◌≡◌, true, false, List, IfOk, MatchOption};
ghost use Rattle.machine_names.specs.declared.names.Tty.{Tty as ATty};
ghost use Rattle.command_words.specs.TextWords.{AskForTerminal, AskText, AskTextOf};
ghost use Rattle.command_words.specs.Words.{AskOf, Text};
ghost use Rattle.command_words.specs.declared.request.Request.{Request as TheRequest};
ghost use Rattle.command_words.specs.declared.request.TextRequest.{TextRequest as TheTextRequest};

use crate::record_words::asked_record;
use crate::request::TextRequest;
use machine_names::{TERMINALS, Tty};
use outside::Memory;
use script_lang::read_decimal;
use std::alloc::Global;

// How many digits the number of a terminal has at most.
const TERMINAL_DIGITS: usize = 2;

/// What a command's words, those behind the program's name, ask to be made of a text: of a record, where they are as
/// `asked_record` has them; or of a program, where they are `asm` and 1
/// or 2 decimal digits that name a terminal. None exactly where the words are others. `Memory` says nothing of them.
pub fn asked_text(alloc: Global, words: &[String]) -> Result<Option<TextRequest>, Memory>
    ensures { IfOk result (λ asked. MatchOption asked ((q : TheTextRequest) → AskText words.now q → ⊥) (λ q. AskText words.now q)) }
{
    match asked_record(alloc, words) {
        Ok(Some(request)) => Ok(Some(TextRequest::Record(request))),
        Ok(None) => Ok(asked_program(words)),
        Err(Memory) => Err(Memory),
    }
}

/// Words ask for one thing of a text at most, and not for a run besides.
pub fn one_text_asking()
    ensures one { (words : List Text) (q p : TheTextRequest) → AskTextOf words q → AskTextOf words p → q ≡ p }
    ensures apart { (words : List Text) (r : TheRequest) (q : TheTextRequest) → AskOf words r → AskTextOf words q → ⊥ }
{}

// What the words ask to be made of a program. None exactly where they ask for nothing of one.
fn asked_program(words: &[String]) -> Option<TextRequest>
    ensures { MatchOption result ((t : ATty) → AskForTerminal words.now t → ⊥) (λ q. AskText words.now q) }
{
    let terminal = asked_terminal(words)?;
    Some(TextRequest::Assemble(terminal))
}

// The terminal at whose job the words of a program are put. None exactly where the words are not those of `asm`.
fn asked_terminal(words: &[String]) -> Option<Tty>
    ensures { MatchOption result ((t : ATty) → AskForTerminal words.now t → ⊥) (λ t. AskForTerminal words.now t) }
{
    let [name, number] = words else {
        return None;
    };
    if name.as_bytes() != b"asm".as_slice() {
        return None;
    }
    let n = read_decimal(number.as_bytes(), TERMINAL_DIGITS)?;
    if n >= TERMINALS as u32 {
        return None;
    }
    Some(Tty(n as u8))
}
