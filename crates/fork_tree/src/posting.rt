// What a channel that is posted does to a fork.
ghost use Rattle.std.specs.Prelude.{◌≡◌, ◌<◌, ◌∷◌, ℕ, [], false};
ghost use Rattle.std.specs.List.{list_any};
ghost use Rattle.std.specs.Option.{option_and_then, option_map_or};
ghost use Rattle.std.specs.FinMap as map;
ghost use Rattle.plain_model.specs.declared.fork.Fork.{Fork as AFork};
ghost use Rattle.plain_units.specs.declared.channel.TheConstants.{INFERIOR_ENDED};
ghost use Rattle.plain_model.specs.declared.interrupt.TheConstants.{CHANNELS};
ghost use Rattle.plain_model.specs.Forks.{fork_in};
ghost use Rattle.plain_model.specs.Inspections.{wants_one};
ghost use Rattle.plain_model.specs.Interrupts.{channel_word, channels_of, forces, has_channel, is_panic, listens, posted, posted_all, with_pending, woken};
ghost use Rattle.plain_model.specs.Posting.{with_all_posted};
ghost use Rattle.plain_model.specs.Trees.{changed, end_told, with_body};

use crate::tree::Tree;
use ka10_alu::boolean;
use machine_names::{ForkName, Tty};
use plain_model::interrupt::CHANNELS;
use plain_model::{Body, Psi};
use plain_units::channel::{
    DENIED_EXECUTE, DRUM_FULL, ILLEGAL_INSTRUCTION, INFERIOR_ENDED, PUSHDOWN_OVERFLOW,
};
use script_texts::ForkStatus;
use word36::Word;
use word36::opcodes::{AND, IOR};

/// Whether a channel is a panic channel, which forces a fork that does not take it (JSYS Manual, "Pseudo-interrupt system").
pub fn is_panic(channel: u8) -> bool
    ensures { result ≡ is_panic channel }
{
    match channel {
        PUSHDOWN_OVERFLOW | DRUM_FULL => true,
        _ => (ILLEGAL_INSTRUCTION..=DENIED_EXECUTE).contains(&channel),
    }
}

/// Whether a channel, 0 to 35, is one of those of a word, whose leftmost bit is channel 0.
pub fn has_channel(word: Word, channel: u8) -> bool
    requires { channel < CHANNELS }
    ensures { result ≡ has_channel word channel }
{
    word.value() >> (CHANNELS - 1 - channel) & 1 == 1
}

/// The word with one channel, 0 to 35.
pub fn channel_word(channel: u8) -> Word
    requires { channel < CHANNELS }
    ensures word { result ≡ channel_word channel }
    ensures alone { channels_of result ≡ channel ∷ [] }
{
    Word::wrapped(1 << (CHANNELS - 1 - channel))
}

/// Whether an active channel is pending.
#[tactic(auto, using(crate::proofs::Wanted::wants_is))]
pub fn wants_one(psi: &Psi) -> bool
    ensures { result ≡ wants_one psi.now }
{
    boolean(AND, psi.active, psi.pending) != Word::ZERO
}

/// Whether a fork takes a channel, 0 to 35: its interrupts are on, it has a table, and the channel is active.
pub fn listens(psi: &Psi, channel: u8) -> bool
    requires { channel < CHANNELS }
    ensures { result ≡ listens psi.now channel }
{
    psi.on && psi.table.is_some() && has_channel(psi.active, channel)
}

// The status of a fork that waited, and goes on.
fn woken(status: ForkStatus) -> ForkStatus
    ensures { result ≡ woken status }
{
    match status {
        ForkStatus::Wait(_) => ForkStatus::Run,
        ForkStatus::Run | ForkStatus::Halted | ForkStatus::Forced(_) => status,
    }
}

// A channel is pending.
fn pend(body: &mut Body, channel: u8)
    requires { channel < CHANNELS }
    ensures { body.new ≡ record body.old { psi = with_pending body.old.psi channel; status = woken body.old.status } }
{
    body.psi.pending = boolean(IOR, body.psi.pending, channel_word(channel));
    body.status = woken(body.status);
}

/// Posts a channel, 0 to 35, to a fork: where the fork takes it, it is pending, and a fork that waited goes on; else a panic channel forces
/// the fork, and another is dropped. Whether the fork is forced so (JSYS Manual, "Pseudo-interrupt system").
pub fn post(body: &mut Body, channel: u8) -> bool
    requires { channel < CHANNELS }
    ensures fork { (f : AFork) → with_body body.new f ≡ posted (with_body body.old f) channel }
    ensures forced { result ≡ forces body.old.psi channel }
    ensures hears { (c : ℕ) → listens body.new.psi c ≡ listens body.old.psi c }
    ensures regs { body.new.regs ≡ body.old.regs }
    ensures sleep { body.new.sleep ≡ body.old.sleep }
    ensures units { body.new.units ≡ body.old.units }
    ensures error { body.new.error ≡ body.old.error }
{
    if listens(&body.psi, channel) {
        pend(body, channel);
        return false;
    }
    if is_panic(channel) {
        body.status = ForkStatus::Forced(channel);
        return true;
    }
    false
}

/// Posts the channels of a word to a fork, in rising order. Whether one of them forces it. One pass over the channels.
pub fn post_all(body: &mut Body, channels: Word) -> bool
    ensures fork { (f : AFork) → with_body body.new f ≡ posted_all (with_body body.old f) (channels_of channels) }
    ensures forced { result ≡ list_any (forces body.old.psi) (channels_of channels) }
    ensures regs { body.new.regs ≡ body.old.regs }
    ensures sleep { body.new.sleep ≡ body.old.sleep }
    ensures units { body.new.units ≡ body.old.units }
    ensures error { body.new.error ≡ body.old.error }
{
    let mut forced = false;
    for channel in 0..CHANNELS {
        if has_channel(channels, channel) {
            forced |= post(body, channel);
        }
    }
    forced
}

impl Tree {
    // The superior of a fork, in a slot of its job if there is one, is told that a fork below it has ended.
    fn tell_superior(&mut self, tty: Tty, superior: Option<u8>)
        ensures { self.new ≡ record self.old { forks = changed self.old.forks (λ k. posted k INFERIOR_ENDED) (option_and_then (fork_in self.old.forks tty) superior) } }
    {
        let Some(slot) = superior else { return };
        if self.fork_at(tty, slot).is_some() {
            post(self.body_at(tty, slot), INFERIOR_ENDED);
        }
    }

    /// The fork of a name has ended: who waits for a fork of its job runs again, in slot order, and then channel 19 is posted to its superior
    /// (JSYS Manual, "Pseudo-interrupt system"; WFORK). Nothing changes where none of that name lives. Thirty looks.
    pub fn tell_end(&mut self, name: ForkName)
        ensures { self.new ≡ record self.old { forks = option_map_or (end_told self.old.forks) (map.get self.old.forks name) self.old.forks } }
    {
        let Some(fork) = self.fork(name) else { return };
        let superior = fork.superior;
        self.wake_waiters(name.tty);
        self.tell_superior(name.tty, superior);
    }

    /// Posts the channels of a word to the fork of a name, in rising order; where one of them forces it, it has ended, and that is told. Whether
    /// one forced it. Nothing changes where none of that name lives (JSYS Manual, IIC). One pass over the channels, and thirty looks
    /// where the fork is forced.
    pub fn post_channels(&mut self, name: ForkName, channels: Word) -> bool
        ensures forks { self.new ≡ record self.old { forks = option_map_or (with_all_posted self.old.forks (channels_of channels)) (map.get self.old.forks name) self.old.forks } }
        ensures forced { result ≡ option_map_or (λ f. list_any (forces f.body.psi) (channels_of channels)) (map.get self.old.forks name) false }
    {
        self.are_trees();
        let Some(body) = self.body_mut(name) else {
            return false
        };
        let forced = post_all(body, channels);
        if forced {
            self.tell_end(name);
        }
        forced
    }
}
