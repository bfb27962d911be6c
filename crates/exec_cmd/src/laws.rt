// What follows from the definitions, in the words of their users. A law does nothing when it runs.
ghost use Rattle.std.specs.Prelude.{◌≡◌, ◌≢◌, ◌↔◌, ℕ, List, [], ◌∷◌, ◌++◌, All};
ghost use Rattle.plain_typing.specs.Commands.{command_of};
ghost use Rattle.exec_cmd.specs.Grammar.{Commands as AreCommands};
ghost use Rattle.plain_typing.specs.Words.{words};
ghost use Rattle.plain_typing.specs.declared.command.Command.{Command as ACommand};

/// A user's line is a command exactly where its words are those of the command, so that it is one
/// command at most; and it is unknown exactly where it is no command.
pub fn one_command()
    ensures known { (user : List ℕ) (line : List ℕ) (c : ACommand) → c ≢ ACommand.Unknown → (command_of user line ≡ c) ↔ AreCommands user line c }
    ensures unknown { (user : List ℕ) (line : List ℕ) → (command_of user line ≡ ACommand.Unknown) ↔ ((c : ACommand) → AreCommands user line c → ⊥) }
{}

/// The words of a line that has a space in it are those before the space and those behind it; and what
/// has no space is a word.
pub fn words_between_spaces()
    ensures parted { (front : List ℕ) (rest : List ℕ) → words (front ++ 32 ∷ rest) ≡ words front ++ words rest }
    ensures whole { (c : ℕ) (cs : List ℕ) → All (λ d. d ≢ 32) (c ∷ cs) → words (c ∷ cs) ≡ (c ∷ cs) ∷ [] }
    ensures none { words [] ≡ [] }
{}
