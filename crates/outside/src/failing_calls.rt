// Which calls of an object in memory fail.
ghost use Rattle.std.specs.Prelude.{◌≡◌, ◌↔◌, IsTrue};
ghost use Rattle.outside.specs.Faults.{CountsUp, FailsNext};

/// The numbers of the calls that fail, from 1, and how many calls were made.
#[derive(Drop)]
pub struct FailingCalls {
    failing: Vec<u64>,
    made: u64,
}

impl FailingCalls {
    /// No call was made yet.
    pub fn new(failing: Vec<u64>) -> Self
        ensures failing { result.failing ≡ failing }
        ensures made { result.made ≡ 0 }
    {
        FailingCalls { failing, made: 0 }
    }

    /// Makes a call, and answers whether it fails: exactly where its number is listed. The number of a call
    /// stops at 2^64 - 1.
    pub fn next(&mut self) -> bool
        ensures fails { IsTrue result ↔ FailsNext self.old.failing.items self.old.made }
        ensures made { CountsUp self.old.made self.new.made }
        ensures failing { self.new.failing ≡ self.old.failing }
    {
        self.made = self.made.saturating_add(1);
        self.failing.contains(&self.made)
    }
}
