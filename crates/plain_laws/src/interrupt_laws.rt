// What the definitions of pseudo-interrupts say, in the words of those who use them. A law does nothing when it runs.
ghost use Rattle.std.specs.Prelude.{◌≡◌, ◌≢◌, ◌↔◌, ◌<◌, ◌^◌, ◌==◌, ◌&&◌, ◌||◌, not, ℕ, List, [], ◌∷◌, All, Bool, Contains, IsSome, true, false, None, Some};
ghost use Rattle.std.specs.FinMap as map;
ghost use Rattle.machine_names.specs.declared.names.ForkName.{ForkName as AForkName};
ghost use Rattle.machine_names.specs.declared.names.Tty.{Tty as ATty};
ghost use Rattle.plain_typing.specs.declared.typed.TheConstants.{CONTROL_C};
ghost use Rattle.plain_typing.specs.Characters.{read_as};
ghost use Rattle.plain_pages.specs.PlainPages.{NamedPages};
ghost use Rattle.plain_units.specs.declared.registers.Regs.{Regs as ARegs};
ghost use Rattle.script_texts.specs.declared.event.Event.{Event as AEvent};
ghost use Rattle.script_texts.specs.declared.event.Step.{Step as AStep};
ghost use Rattle.script_texts.specs.declared.status.WaitOn.{WaitOn as AWaitOn};
ghost use Rattle.script_texts.specs.Follows.{Follows};
ghost use Rattle.script_texts.specs.Limits.{FitsEvent};
ghost use Rattle.plain_model.specs.declared.call.End.{End as AnEnd};
ghost use Rattle.plain_model.specs.declared.call.End.TheVariants.{Done, Waits};
ghost use Rattle.plain_model.specs.declared.fork.Fork.{Fork as AFork};
ghost use Rattle.plain_model.specs.declared.fork.Psi.{Psi as APsi};
ghost use Rattle.plain_model.specs.declared.interrupt.Delivery.{Delivery as ADelivery};
ghost use Rattle.plain_model.specs.declared.interrupt.Found.{Found as AFound};
ghost use Rattle.plain_model.specs.declared.interrupt.TheConstants.{CHANNELS};
ghost use Rattle.plain_model.specs.Calls.{Asked, fork_behind, no_files, turn_on, with_wait};
ghost use Rattle.plain_model.specs.Forks.{with_fork, with_status};
ghost use Rattle.plain_model.specs.Inspections.{delivered, interrupted_word, is_interrupted, is_wanted, least_level, with_level};
ghost use Rattle.plain_model.specs.InterruptCalls.{debrk, restored, without_level};
ghost use Rattle.plain_model.specs.Interrupts.{forces, has_channel, is_panic, listens, pended, posted};
ghost use Rattle.plain_model.specs.Run.{IsLegal, plain_run};
ghost use Rattle.plain_model.specs.State.{PlainJob, PlainState, opening};
ghost use Rattle.plain_model.specs.Unit.{instruction_unit, stopped, taken_up, unit, unit_ended};
ghost use Rattle.plain_laws.specs.InterruptLaws.{CanBeTaken, Finds, FindsStored, FindsWords, GoesBefore, HasLevels, IsAtEase, IsFirst, IsFound, ReadsChannels, Wants, pages_then};
ghost use Rattle.plain_laws.specs.JfnLaws.{Lives};
ghost use Rattle.plain_laws.specs.TypeLaws.{HasJob, typed};
ghost use Rattle.plain_laws.specs.Whole.{AreOfLiving, IsWhole};

use plain_model::TerminalMode;
use plain_model::call::InterruptChange;
use plain_model::interrupt::Inspected;
use script_texts::ForkStatus;

/// A fork looks at its channels before its next unit exactly where its interrupts are on, it has a table, and a channel is
/// active and pending. Then a channel that it finds to take is delivered, which is the whole unit; or it is forced; and only
/// where it finds none to take now its unit is that of the instruction.
pub fn interrupts_come_before_instructions()
    ensures looks { (psi : APsi) → (is_interrupted psi ≡ true) ↔ ((psi.on ≡ true) × IsSome psi.table × Wants psi) }
    ensures delivers { (s : PlainState) (f : AFork) (d : ADelivery) → Lives s f → is_interrupted f.body.psi ≡ true → Finds s f (Inspected.Delivers d) → unit s f.name ≡ taken_up s (pages_then s f) f d }
    ensures forces { (s : PlainState) (f : AFork) (channel : ℕ) → Lives s f → is_interrupted f.body.psi ≡ true → Finds s f (Inspected.Forces channel) → unit s f.name ≡ unit_ended s (with_status f (ForkStatus.Forced channel)) (ForkStatus.Forced channel) }
    ensures nothing { (s : PlainState) (f : AFork) → Lives s f → is_interrupted f.body.psi ≡ true → Finds s f Inspected.Nothing → unit s f.name ≡ instruction_unit s f }
{}

/// A channel that is posted to a fork which takes it has the fork look at its channels before its next unit. Where no other
/// is pending and no level is in progress, and the words of the channel and of its level name a level and places that the
/// fork may read and write, that unit is the delivery of the channel.
pub fn posted_channels_are_delivered_next()
    ensures looks { (f : AFork) (channel : ℕ) → channel < CHANNELS → listens f.body.psi channel ≡ true → is_interrupted (posted f channel).body.psi ≡ true }
    ensures delivered { (s : PlainState) (f : AFork) (channel : ℕ) (d : ADelivery) (q : NamedPages) → channel < CHANNELS → listens f.body.psi channel ≡ true → IsAtEase f.body.psi
        → Lives s (posted f channel) → FindsWords s.pages (posted f channel) channel d q → unit s f.name ≡ taken_up s q (posted f channel) d }
{}

/// A channel that is posted to a fork which takes it is pending until it is delivered; each other stays as it was.
pub fn channels_are_pending_until_they_are_delivered()
    ensures posted { (f : AFork) (channel other : ℕ) → channel < CHANNELS → other < CHANNELS → listens f.body.psi channel ≡ true → has_channel (posted f channel).body.psi.pending other ≡ (has_channel f.body.psi.pending other || (other == channel)) }
    ensures delivered { (f : AFork) (d : ADelivery) (other : ℕ) → d.found.channel < CHANNELS → other < CHANNELS → has_channel (delivered f d).body.psi.pending other ≡ (has_channel f.body.psi.pending other && not (other == d.found.channel)) }
{}

/// What is delivered was active and pending, and its level is less than each that was in progress; so it is the least one in
/// progress then, and when it is over the levels are as they were.
pub fn levels_nest()
    ensures before { (s : PlainState) (f : AFork) (d : ADelivery) → Finds s f (Inspected.Delivers d) → (d.found.channel < CHANNELS) × (is_wanted f.body.psi d.found.channel ≡ true) × GoesBefore f.body.psi d.found }
    ensures least { (psi : APsi) (found : AFound) → HasLevels psi → GoesBefore psi found → least_level (with_level psi found) ≡ Some found.level }
    ensures over { (f g : AFork) (found : AFound) → HasLevels f.body.psi → GoesBefore f.body.psi found → g.body.psi.levels ≡ (with_level f.body.psi found).levels
        → (without_level g.body found.level).psi.levels ≡ f.body.psi.levels }
{}

/// Of the channels that are active and pending, by the words that the fork reads of them in their order, the one is delivered that
/// is of the least level, and of equal levels the one of the least number, among those that can be taken now. None is found only
/// where none can be, and no panic channel is among them.
pub fn the_least_level_is_delivered_first()
    ensures first { (s : PlainState) (f : AFork) (words : List (ℕ × ℕ)) (q : NamedPages) (d : ADelivery) → ReadsChannels s.pages f words q → Finds s f (Inspected.Delivers d)
        → ((c : ℕ × ℕ) × Contains words c × IsFound d.found c × CanBeTaken f.body.psi c) × All (λ c. CanBeTaken f.body.psi c → IsFirst d.found c) words }
    ensures none { (s : PlainState) (f : AFork) (words : List (ℕ × ℕ)) (q : NamedPages) → ReadsChannels s.pages f words q → Finds s f Inspected.Nothing
        → All (λ c. (CanBeTaken f.body.psi c → ⊥) × (is_panic c.0 ≡ false)) words }
{}

/// DEBRK undoes what a delivery did: where the level of the delivery is still the last that began, and its word is still
/// stored, the call goes on where the fork was interrupted, with the flags that it had; the level is over, and the others are as
/// they were. The accumulators stay as the fork has them.
pub fn debrk_undoes_a_delivery()
    ensures turn { (p q : NamedPages) (a : Asked) (f g : AFork) (d : ADelivery) (table : ℕ) → HasLevels f.body.psi → GoesBefore f.body.psi d.found → f.body.regs.pc < 2 ^ 18
        → map.get a.tree.forks a.who ≡ Some g → g.body.psi.table ≡ Some table → g.body.psi.levels ≡ (delivered f d).body.psi.levels
        → FindsStored p a.who a.regs table d.found.level (interrupted_word f.body.regs) q
        → turn_on no_files p (debrk a) ≡ record { end = Done (InterruptChange.Become g.name (without_level g.body d.found.level)) (record a.regs { pc = f.body.regs.pc; flags = f.body.regs.flags }) None None; pages = q } }
    ensures levels { (f g : AFork) (d : ADelivery) → HasLevels f.body.psi → GoesBefore f.body.psi d.found → g.body.psi.levels ≡ (delivered f d).body.psi.levels → (without_level g.body d.found.level).psi.levels ≡ f.body.psi.levels }
    ensures registers { (regs now : ARegs) → regs.pc < 2 ^ 18 → restored now (interrupted_word regs) ≡ record now { pc = regs.pc; flags = regs.flags } }
{}

/// A fork that waits stays on its call. A channel that it takes has it run again, with its registers as they were; so the
/// word that a delivery stores has the address of the call, to which DEBRK returns, and the call is made again.
pub fn waiting_calls_are_made_again()
    ensures waits { (f : AFork) (on : AWaitOn) → (fork_behind {C = InterruptChange} f (Waits on) ≡ with_wait f on) × ((with_wait f on).body.status ≡ ForkStatus.Wait on) × ((with_wait f on).body.regs ≡ f.body.regs) }
    ensures wakes { (f : AFork) (on : AWaitOn) (channel : ℕ) → f.body.status ≡ ForkStatus.Wait on → listens f.body.psi channel ≡ true → ((posted f channel).body.status ≡ ForkStatus.Run) × ((posted f channel).body.regs ≡ f.body.regs) }
    ensures again { (f : AFork) (channel : ℕ) (now : ARegs) → f.body.regs.pc < 2 ^ 18 → (restored now (interrupted_word (posted f channel).body.regs)).pc ≡ f.body.regs.pc }
{}

/// A panic channel that a fork does not take forces it; another that it does not take is dropped; and one that it takes is
/// pending.
pub fn panic_channels_force_who_does_not_take_them()
    ensures forced { (f : AFork) (channel : ℕ) → listens f.body.psi channel ≡ false → is_panic channel ≡ true → posted f channel ≡ with_status f (ForkStatus.Forced channel) }
    ensures dropped { (f : AFork) (channel : ℕ) → listens f.body.psi channel ≡ false → is_panic channel ≡ false → posted f channel ≡ f }
    ensures pending { (f : AFork) (channel : ℕ) → listens f.body.psi channel ≡ true → posted f channel ≡ pended f channel }
{}

/// A character whose code a fork has assigned is posted to that fork, by its channel, where the job's forks read the terminal: it is
/// neither stored nor shown, and all else stays; where the channel forces the fork, that has stopped.
pub fn assigned_characters_reach_their_fork()
    ensures posted { (s : PlainState) (t : ATty) (j : PlainJob) (c channel : ℕ) (f : AFork) → HasJob s t j → j.mode ≡ TerminalMode.Program → read_as c ≢ CONTROL_C → map.get j.codes (read_as c) ≡ Some (f.name, channel) → Lives s f
        → forces f.body.psi channel ≡ false → typed s t (c ∷ []) ≡ record { state = with_fork s (posted f channel); items = [] } }
    ensures forced { (s : PlainState) (t : ATty) (j : PlainJob) (c channel : ℕ) (f : AFork) → HasJob s t j → j.mode ≡ TerminalMode.Program → read_as c ≢ CONTROL_C → map.get j.codes (read_as c) ≡ Some (f.name, channel) → Lives s f
        → forces f.body.psi channel ≡ true → typed s t (c ∷ []) ≡ stopped s (posted f channel) }
{}

/// Where a fork does not look at its channels, its unit is that of the instruction: so it is where its interrupts are off,
/// where it has no table, and where no channel is active and pending.
pub fn interrupts_that_are_off_change_nothing()
    ensures instruction { (s : PlainState) (f : AFork) → Lives s f → is_interrupted f.body.psi ≡ false → unit s f.name ≡ instruction_unit s f }
    ensures off { (psi : APsi) → psi.on ≡ false → is_interrupted psi ≡ false }
    ensures no_table { (psi : APsi) → psi.table ≡ None → is_interrupted psi ≡ false }
    ensures none_wanted { (psi : APsi) → (Wants psi → ⊥) → is_interrupted psi ≡ false }
{}

/// A code does not outlive its fork: wherever a run comes, each code that is assigned belongs to a fork of that job, which lives.
pub fn codes_do_not_outlive_their_forks()
    ensures living { (s : PlainState) (t : ATty) (j : PlainJob) (code channel : ℕ) (f : AForkName) → IsWhole s → HasJob s t j → map.get j.codes code ≡ Some (f, channel) → IsSome (map.get s.forks f) × (f.tty.0 ≡ t.0) }
    ensures always { (flat : Bool) (limit : ℕ) (events : List AEvent) (entries : List AStep) → All FitsEvent events → (follows : Follows events entries) → IsLegal flat true (opening limit) events entries follows
        → (let s = (plain_run limit entries).state in AreOfLiving s.forks s.jobs) }
{}

/// A fork that is forced when it looks at its channels makes no page: the pages are those before.
pub fn forced_forks_make_no_page()
    ensures { (s : PlainState) (f : AFork) (channel : ℕ) → Lives s f → is_interrupted f.body.psi ≡ true → Finds s f (Inspected.Forces channel) → (unit s f.name).state.pages ≡ s.pages }
{}
