// How units end that were tried in place.
ghost use Rattle.std.specs.Prelude.{◌≡◌};
ghost use Rattle.ka10_in_place.specs.InPlace.{ended};

use ka10_deeds::Post;

/// What a try at a unit in place comes to.
#[derive(Clone, Copy, PartialEq, Eq)]
pub enum Quick {
    /// The unit is done, and posts nothing.
    Done,
    /// It is done, and posts that an arithmetic result was no signed word, or that a division was
    /// not done.
    Overflow,
    /// It is done, and posts that a pushdown list ran over, or under.
    Pushdown,
    /// It isn't done here. Nothing has changed, and no page was used.
    Slow,
}

/// How a unit that is done ends.
#[inline(always)]
pub fn ended(post: Post) -> Quick
    ensures { result ≡ ended post }
{
    match post {
        Post::Nothing => Quick::Done,
        Post::Overflow => Quick::Overflow,
        Post::Pushdown => Quick::Pushdown,
    }
}

/// Why a burst ended.
#[derive(Clone, Copy, PartialEq, Eq)]
pub enum BurstEnd {
    /// As many units were done as were asked for, and none posted.
    Most,
    /// One more unit was done, which posts that an arithmetic result was no signed word, or that a
    /// division was not done.
    Overflow,
    /// One more unit was done, which posts that a pushdown list ran over, or under.
    Pushdown,
    /// The next unit isn't done in place.
    Slow,
}

/// What a burst came to.
#[derive(Clone, Copy, PartialEq, Eq)]
pub struct Burst {
    /// How many units were done that posted nothing.
    pub units: u32,
    pub end: BurstEnd,
}
