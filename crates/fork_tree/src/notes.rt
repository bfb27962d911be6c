// What is known of who waits in a job, so that who wakes them looks only where one may go on.
ghost use Rattle.std.specs.Prelude.{◌≡◌, ◌||◌, ℕ};
ghost use Rattle.fork_tree.specs.Waking.{is_by, is_ever, may_wait};

/// What forks of a job wait for.
#[derive(Clone, Copy)]
pub(crate) enum Awaited {
    /// That a fork of the job ends.
    End,
    /// A character of the terminal.
    Character,
    /// A moment that the clock has reached.
    Moment(u64),
}

/// From when on a fork of a job may go on that waits for one kind of thing: a character, or a moment.
#[derive(Clone, Copy)]
pub(crate) enum Due {
    /// At once: a body of the job was lent since the last look.
    Now,
    /// At this moment of the clock, and at none before it.
    From(u64),
    /// Never: none waits for that.
    Never,
}

/// What is known of who waits in a job: as of the last look at its forks, or nothing, where a body was lent since.
#[derive(Clone, Copy)]
pub(crate) struct Notes {
    pub readers: Due,
    pub sleepers: Due,
}

impl Due {
    // Whether one may go on at any time.
    fn is_ever(self) -> bool
        ensures { result ≡ is_ever self }
    {
        match self {
            Due::Now => true,
            Due::From(_) => true,
            Due::Never => false,
        }
    }

    // Whether one may go on at a moment of the clock.
    fn is_by(self, clock: u64) -> bool
        ensures { result ≡ is_by self clock }
    {
        match self {
            Due::Now => true,
            Due::From(moment) => moment <= clock,
            Due::Never => false,
        }
    }

    /// The sooner of two.
    pub(crate) fn sooner(self, other: Due) -> Due
        ensures { (clock : ℕ) → is_by result clock ≡ (is_by self clock || is_by other clock) }
    {
        match (self, other) {
            (Due::Now, _) | (_, Due::Now) => Due::Now,
            (Due::Never, due) | (due, Due::Never) => due,
            (Due::From(a), Due::From(b)) => Due::From(a.min(b)),
        }
    }
}

impl Notes {
    /// None waits.
    pub(crate) const QUIET: Notes = Notes {
        readers: Due::Never,
        sleepers: Due::Never,
    };

    /// Any may wait.
    pub(crate) const LENT: Notes = Notes {
        readers: Due::Now,
        sleepers: Due::Now,
    };

    /// Whether a fork of the job may wait for this.
    pub(crate) fn may_wait(&self, awaited: Awaited) -> bool
        ensures { result ≡ may_wait self.now awaited }
    {
        match awaited {
            Awaited::End => true,
            Awaited::Character => self.readers.is_ever(),
            Awaited::Moment(clock) => self.sleepers.is_by(clock),
        }
    }
}
