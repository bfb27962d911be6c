// The commands that read a record, by their names.
ghost use Rattle.std.specs.Prelude.{◌≡◌};
ghost use Rattle.command_words.specs.Parser.{command_named};

/// What a command makes of a record.
#[derive(Clone, Copy, PartialEq, Eq)]
pub enum RecordCommand {
    /// The transcript of its entries.
    Replay,
    /// The image of the files that it leaves.
    Image,
}

impl RecordCommand {
    /// The command of this name, which is the first of its words. None exactly where no command that reads a record has it.
    pub fn named(name: &str) -> Option<RecordCommand>
        ensures { result ≡ command_named name.now }
    {
        if name.as_bytes() == b"replay".as_slice() {
            Some(RecordCommand::Replay)
        } else if name.as_bytes() == b"image".as_slice() {
            Some(RecordCommand::Image)
        } else {
            None
        }
    }
}
