// How far a record was read.
ghost use Rattle.std.specs.Prelude.{◌≡◌, ◌≤◌, ◌<◌, ◌+◌};
ghost use Rattle.script_texts.specs.Script.{most_turns};
ghost use Rattle.record_reader.specs.Verdicts.{most_record_bytes};

/// How many bytes a record may have.
pub const MOST_RECORD_BYTES: u64 = 268_435_456;

/// The bytes, lines and turns that were read.
#[derive(Drop)]
pub(crate) struct Passed {
    pub bytes: u64,
    pub lines: u64,
    pub turns: u64,
    ghost short: { bytes ≤ most_record_bytes },
    ghost counted: { lines ≤ bytes },
    ghost few: { turns ≤ most_turns },
}

impl Passed {
    /// The beginning of a record.
    pub fn start() -> Self
        ensures bytes { result.bytes ≡ 0 }
        ensures lines { result.lines ≡ 0 }
        ensures turns { result.turns ≡ 0 }
    {
        Passed {
            bytes: 0,
            lines: 0,
            turns: 0,
        }
    }

    /// Goes past a line of so many bytes, its line feed among them, with so many turns.
    pub fn go_past(&mut self, bytes: u64, turns: u64)
        requires some { 0 < bytes }
        requires short { self.old.bytes + bytes ≤ most_record_bytes }
        requires few { self.old.turns + turns ≤ most_turns }
        ensures bytes { self.new.bytes ≡ self.old.bytes + bytes }
        ensures lines { self.new.lines ≡ self.old.lines + 1 }
        ensures turns { self.new.turns ≡ self.old.turns + turns }
    {
        *self = Passed {
            bytes: self.bytes + bytes,
            lines: self.lines + 1,
            turns: self.turns + turns,
        };
    }
}
