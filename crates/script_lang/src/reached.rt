// How far a script was given.
ghost use Rattle.std.specs.Prelude.{◌≡◌, ◌≤◌, ◌<◌, ◌+◌};
ghost use Rattle.script_texts.specs.Script.{most_bytes, most_turns};

/// How many bytes a script may have.
pub const MOST_BYTES: u64 = 16_777_216;

/// How many turns the RUN lines of a script may ask for in all.
pub const MOST_TURNS: u64 = 1_099_511_627_776;

/// The bytes and the lines that were given, and the turns that their events ask for.
#[derive(Drop)]
pub(crate) struct Reached {
    pub bytes: u64,
    pub lines: u64,
    pub turns: u64,
    ghost short: { bytes ≤ most_bytes },
    ghost counted: { lines ≤ bytes },
    ghost few: { turns ≤ most_turns },
}

impl Reached {
    /// The beginning of a script.
    pub fn start() -> Self
        ensures bytes { result.bytes ≡ 0 }
        ensures lines { result.lines ≡ 0 }
        ensures turns { result.turns ≡ 0 }
    {
        Reached {
            bytes: 0,
            lines: 0,
            turns: 0,
        }
    }

    /// Goes past a line of so many bytes, its line feed among them, whose event asks for so many turns.
    pub fn go_past(&mut self, bytes: u64, turns: u64)
        requires some { 0 < bytes }
        requires short { self.old.bytes + bytes ≤ most_bytes }
        requires few { self.old.turns + turns ≤ most_turns }
        ensures bytes { self.new.bytes ≡ self.old.bytes + bytes }
        ensures lines { self.new.lines ≡ self.old.lines + 1 }
        ensures turns { self.new.turns ≡ self.old.turns + turns }
    {
        *self = Reached {
            bytes: self.bytes + bytes,
            lines: self.lines + 1,
            turns: self.turns + turns,
        };
    }
}
