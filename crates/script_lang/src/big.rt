// The generated script, event by event.
ghost use Rattle.std.specs.Prelude.{◌≡◌, ◌+◌, ◌<◌, ℕ, [], drop, slice_get, IfSome, MatchOption};
ghost use Rattle.script_texts.specs.Limits.{FitsEvent};
ghost use Rattle.script_lang.specs.Generator.{big_events, generated_file, one_word, terminal};
ghost use Rattle.script_lang.specs.Stages.{IsStage, Moves, rest_of};
ghost use Rattle.script_lang.specs.declared.stages.ScriptStage.TheVariants.{Login as AtLogin, MakeFile as AtFile, Fill as AtFill, Load as AtLoad, Evict as AtEvict, Run as AtRun, Show as AtShow};

use crate::draws::Draws;
use crate::stages::{Loading, ScriptStage};
use machine_names::{DirName, FileName, Tty};
use script_texts::{Event, WordRow};
use std::marker::Model;
use word36::Word;

// The terminals of the script are numbered up to this one.
const LAST_TERMINAL: u8 = 7;

// The pages of the file are numbered up to this one.
const LAST_PAGE: u8 = 63;

// The evictions are numbered up to this one.
const LAST_EVICTION: u8 = 39;

// How many frames may be evicted.
const EVICTED_FRAMES: u32 = 160;

// How many units are run behind each eviction.
const UNITS: u32 = 500;

// Where a program begins.
const PROGRAM_START: u32 = 0o100;

// AOS 0(2), ADD 2,4, SOJG 3,100, MOVEI 1,102, PBOUT and HALTF.
const PROGRAM: [u64; 6] = [
    0o350002000000,
    0o270100000004,
    0o367140000100,
    0o201040000102,
    0o104000000074,
    0o104000000170,
];

/// The events of the generated script of a seed that are still to come: eight users each run one
/// program with numbers drawn from the seed, while frames are evicted.
#[derive(Drop)]
pub struct Big {
    draws: Draws,
    stage: ScriptStage,
}

impl Model for Big {
    ghost use Rattle.std.specs.Prelude.{List};
    ghost use Rattle.script_texts.specs.declared.event.Event.{Event};
    ghost use Rattle.script_lang.specs.Stages.{IsStage, rest_of};

    ghost Value = { List Event };

    ghost view = { λ b. rest_of b.stage b.draws.last };

    ghost invariant = { λ b. IsStage b.stage };
}

/// The generated script of a seed.
pub fn big_from(seed: u32) -> Big
    ensures { result ≡ big_events seed }
{
    Big {
        draws: Draws::new(seed),
        stage: ScriptStage::Login(0),
    }
}

impl Big {
    /// The next event of the script. None exactly where all have come.
    pub fn next(&mut self) -> Option<Event>
        ensures event { result ≡ slice_get self.old 0 }
        ensures rest { self.new ≡ drop 1 self.old }
        ensures fits { IfSome result FitsEvent }
    {
        let (event, stage) = advance(self.stage, &mut self.draws)?;
        self.stage = stage;
        Some(event)
    }
}

// The event of a stage, and the stage behind it. None exactly where all is over.
fn advance(stage: ScriptStage, draws: &mut Draws) -> Option<(Event, ScriptStage)>
    requires { IsStage stage }
    ensures { MatchOption result ((rest_of stage draws.old.last ≡ []) × (draws.new.last ≡ draws.old.last)) (λ p. Moves stage draws.old.last p.0 p.1 draws.new.last) }
{
    match stage {
        ScriptStage::Login(t) => Some(login(t)),
        ScriptStage::MakeFile => Some(make_file()),
        ScriptStage::Fill(page) => Some(fill(page)),
        ScriptStage::Load(t, part) => Some(load(t, part, draws)),
        ScriptStage::Evict(n) => Some(evict(n, draws)),
        ScriptStage::Run(n) => Some(run(n)),
        ScriptStage::Tick => Some((Event::Tick, ScriptStage::Show(0))),
        ScriptStage::Show(t) => Some(show(t)),
        ScriptStage::Over => None,
    }
}

// A user logs in.
fn login(t: u8) -> (Event, ScriptStage)
    requires { t < 8 }
    ensures { (x : ℕ) → Moves (AtLogin t) x result.0 result.1 x }
{
    let event = Event::Login(Tty(t), DirName::new(b"U"));
    if t == LAST_TERMINAL {
        (event, ScriptStage::MakeFile)
    } else {
        (event, ScriptStage::Login(t + 1))
    }
}

// The file is made.
fn make_file() -> (Event, ScriptStage)
    ensures { (x : ℕ) → Moves AtFile x result.0 result.1 x }
{
    (Event::File(file_name()), ScriptStage::Fill(0))
}

// A page of the file gets its word.
fn fill(page: u8) -> (Event, ScriptStage)
    requires { page < 64 }
    ensures { (x : ℕ) → Moves (AtFill page) x result.0 result.1 x }
{
    let event = filling(page);
    if page == LAST_PAGE {
        (event, ScriptStage::Load(0, Loading::Code(0)))
    } else {
        (event, ScriptStage::Fill(page + 1))
    }
}

// The word of a page is one more than its number.
fn filling(page: u8) -> Event
    ensures { result ≡ Event.Words generated_file page 0 (one_word (page + 1)) }
{
    let mut words = [Word::ZERO; 8];
    words[0] = Word::wrapped(u64::from(page) + 1);
    let row = WordRow { count: 1, words };
    Event::Words(file_name(), u16::from(page), 0, row)
}

// The file of the script.
fn file_name() -> FileName
    ensures { result ≡ generated_file }
{
    FileName::new(b"<BIG>OUT.BIN")
}

// A part of a terminal's program.
fn load(t: u8, part: Loading, draws: &mut Draws) -> (Event, ScriptStage)
    requires { IsStage (AtLoad t part) }
    ensures { Moves (AtLoad t part) draws.old.last result.0 result.1 draws.new.last }
{
    match part {
        Loading::Code(k) => code(t, k),
        Loading::Address => (poke(t, 2, 0o20), ScriptStage::Load(t, Loading::Turns)),
        Loading::Turns => (
            poke(t, 3, 300 + draws.draw(100)),
            ScriptStage::Load(t, Loading::Stride),
        ),
        Loading::Stride => (
            poke(t, 4, 2048 * (2 * draws.draw(32) + 1)),
            ScriptStage::Load(t, Loading::Start),
        ),
        Loading::Start => start(t),
    }
}

// A word of a terminal's program.
fn code(t: u8, k: u8) -> (Event, ScriptStage)
    requires terminal { t < 8 }
    requires word { k < 6 }
    ensures { (x : ℕ) → Moves (AtLoad t (Loading.Code k)) x result.0 result.1 x }
{
    let word = Word::wrapped(PROGRAM[usize::from(k)]);
    let event = Event::Poke(Tty(t), PROGRAM_START + u32::from(k), word);
    if k == 5 {
        (event, ScriptStage::Load(t, Loading::Address))
    } else {
        (event, ScriptStage::Load(t, Loading::Code(k + 1)))
    }
}

// A number goes into an accumulator.
fn poke(t: u8, accumulator: u32, n: u32) -> Event
    ensures { result ≡ Event.Poke (terminal t) accumulator n }
{
    Event::Poke(Tty(t), accumulator, Word::wrapped(u64::from(n)))
}

// A terminal's program is started.
fn start(t: u8) -> (Event, ScriptStage)
    requires { t < 8 }
    ensures { (x : ℕ) → Moves (AtLoad t Loading.Start) x result.0 result.1 x }
{
    let event = Event::Start(Tty(t), PROGRAM_START);
    if t == LAST_TERMINAL {
        (event, ScriptStage::Evict(0))
    } else {
        (event, ScriptStage::Load(t + 1, Loading::Code(0)))
    }
}

// A frame is evicted.
fn evict(n: u8, draws: &mut Draws) -> (Event, ScriptStage)
    requires { n < 40 }
    ensures { Moves (AtEvict n) draws.old.last result.0 result.1 draws.new.last }
{
    (
        Event::Evict(draws.draw(EVICTED_FRAMES)),
        ScriptStage::Run(n),
    )
}

// Units are run.
fn run(n: u8) -> (Event, ScriptStage)
    requires { n < 40 }
    ensures { (x : ℕ) → Moves (AtRun n) x result.0 result.1 x }
{
    if n == LAST_EVICTION {
        (Event::Run(UNITS), ScriptStage::Tick)
    } else {
        (Event::Run(UNITS), ScriptStage::Evict(n + 1))
    }
}

// A terminal's forks are shown.
fn show(t: u8) -> (Event, ScriptStage)
    requires { t < 8 }
    ensures { (x : ℕ) → Moves (AtShow t) x result.0 result.1 x }
{
    if t == LAST_TERMINAL {
        (Event::Forks(Tty(t)), ScriptStage::Over)
    } else {
        (Event::Forks(Tty(t)), ScriptStage::Show(t + 1))
    }
}
