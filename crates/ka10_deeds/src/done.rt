// What is told of a deed that is done.
ghost use Rattle.std.specs.Prelude.{◌≡◌, Some};
ghost use Rattle.ka10_deeds.specs.Done.{channel_of};
ghost use Rattle.plain_units.specs.Deeds.{overflow_post, pushdown_post};

use word36::Word;

/// The channel that a unit posts when it is done.
#[derive(Clone, Copy, PartialEq, Eq)]
pub enum Post {
    Nothing,
    /// An arithmetic result was no signed word, or a division was not done.
    Overflow,
    /// A pushdown list ran over, or under.
    Pushdown,
}

/// What a deed that is done tells besides the registers.
#[derive(Clone, Copy, PartialEq, Eq)]
pub struct Done {
    /// The word that the instruction stores. None exactly where it stores none.
    pub stored: Option<Word>,
    /// The channel that it posts.
    pub post: Post,
}

impl Post {
    /// Overflow, where the result overflowed.
    #[inline(always)]
    pub(crate) fn overflow(overflow: bool) -> Post
        ensures { channel_of result ≡ overflow_post overflow }
    {
        if overflow {
            Post::Overflow
        } else {
            Post::Nothing
        }
    }

    /// A pushdown list that ran over or under, where the left half of its word came to a limit.
    #[inline(always)]
    pub(crate) fn pushdown(limit: u32, word: Word) -> Post
        ensures { channel_of result ≡ pushdown_post limit word }
    {
        if word.left() == limit {
            Post::Pushdown
        } else {
            Post::Nothing
        }
    }
}

impl Done {
    /// Nothing is stored or posted.
    pub(crate) const NOTHING: Done = Done {
        stored: None,
        post: Post::Nothing,
    };

    /// A word is stored, and nothing posted.
    #[inline(always)]
    pub(crate) fn storing(word: Word) -> Done
        ensures stored { result.stored ≡ Some word }
        ensures post { result.post ≡ Post.Nothing }
    {
        Done {
            stored: Some(word),
            post: Post::Nothing,
        }
    }
}
