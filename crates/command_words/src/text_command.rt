// The commands that read a text, by their names.
ghost use Rattle.std.specs.Prelude.{◌≡◌, MatchOption};
ghost use Rattle.command_words.specs.TextWords.{AskText, first_command, text_named};
ghost use Rattle.command_words.specs.Words.{Ask};
ghost use Rattle.command_words.specs.declared.request.Request.{Request as TheRequest};
ghost use Rattle.command_words.specs.declared.request.TextRequest.{TextRequest as TheTextRequest};

use crate::record_command::RecordCommand;

/// What a command makes of the one text that it reads.
#[derive(Clone, Copy, PartialEq, Eq)]
pub enum TextCommand {
    /// A text of a record.
    Record(RecordCommand),
    /// The lines of a script that put the words of a program.
    Assemble,
}

impl TextCommand {
    /// The command of this name, which is the first of its words. None exactly where no command that reads a text has it.
    pub fn named(name: &str) -> Option<TextCommand>
        ensures { result ≡ text_named name.now }
    {
        if name.as_bytes() == b"asm".as_slice() {
            Some(TextCommand::Assemble)
        } else {
            let command = RecordCommand::named(name)?;
            Some(TextCommand::Record(command))
        }
    }

    /// The command whose words these are, right or wrong, by the first of them. Where there is one they ask for no run, and
    /// where there is none they ask for nothing to be made of a text.
    pub fn begun_by(words: &[String]) -> Option<TextCommand>
        ensures first { result ≡ first_command words.now }
        ensures apart { MatchOption result ((q : TheTextRequest) → AskText words.now q → ⊥) (λ _. (r : TheRequest) → Ask words.now r → ⊥) }
    {
        let name = words.first()?;
        TextCommand::named(name)
    }
}
