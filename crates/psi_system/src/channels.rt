// Channels, as bits of words.
ghost use Rattle.std.specs.Prelude.{◌≡◌, ◌<◌};
ghost use Rattle.plain_model.specs.Interrupts.{channel_word as channel_word_of, without_channels as without_channels_of};
ghost use Rattle.plain_model.specs.Inspections.{is_interrupted as is_interrupted_of, is_wanted as is_wanted_of};

use fork_tree::{channel_word, has_channel, wants_one};
use ka10_alu::boolean;
use plain_model::Psi;
use plain_model::interrupt::CHANNELS;
use word36::Word;
use word36::opcodes::ANDCM;

/// Whether a channel, 0 to 35, is active and pending.
pub fn is_wanted(psi: &Psi, channel: u8) -> bool
    requires { channel < CHANNELS }
    ensures { result ≡ is_wanted_of psi.now channel }
{
    has_channel(psi.active, channel) && has_channel(psi.pending, channel)
}

/// The channels of a word without one, 0 to 35.
pub fn without_channel(word: Word, channel: u8) -> Word
    requires { channel < CHANNELS }
    ensures { result ≡ without_channels_of word (channel_word_of channel) }
{
    boolean(ANDCM, word, channel_word(channel))
}

/// Whether a fork looks at its channels before its next unit: its interrupts are on, it has a table, and an active channel is
/// pending.
#[inline]
pub fn is_interrupted(psi: &Psi) -> bool
    ensures { result ≡ is_interrupted_of psi.now }
{
    psi.on && psi.pending != Word::ZERO && psi.table.is_some() && wants_one(psi)
}
