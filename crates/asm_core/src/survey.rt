// The first pass over a program: its symbols, and the first fault in its lines.
ghost use Rattle.std.specs.Prelude.{◌≡◌, ◌≢◌, ◌⊎◌, ◌<◌, ◌≤◌, ◌+◌, ◌^◌, ℕ, List, [], ◌∷◌, ◌++◌, Ok, None, Some, length, MatchResult, OnOk, IfErr, IfSome, if◌then◌else◌};
ghost use Rattle.std.specs.Str.{bytes_eq};
ghost use Rattle.asm_core.specs.declared.line.Line.{Line as ALine};
ghost use Rattle.asm_core.specs.Passes.{IsDoubled, IsFault, IsNew, Surveyed, after_label, kept};
ghost use Rattle.asm_core.specs.Places.{behind, lines_of, next_line, overruns, size_of, value_in};

use crate::cutting::cut;
use crate::numbers::SYMBOL_CHARACTERS;
use crate::statements::read_line;
use crate::symbols::Symbols;
use crate::{AsmFault, Half, Line, Statement, Symbol};
use std::alloc::Global;

/// How many bytes the text of a program has at most.
pub const PROGRAM_BYTES: usize = 1_048_576;

/// How many words a space has.
pub const SPACE_WORDS: u32 = 0o1000000;

/// Where the first pass stands: behind so many lines, at this location.
#[derive(Drop)]
pub(crate) struct Survey {
    pub symbols: Symbols,
    pub location: u32,
    pub lines: u64,
}

impl Survey {
    /// Takes the next line of a program, without its line feed.
    pub fn take_line(&mut self, text: &[u8]) -> Result<(), AsmFault>
        requires within { self.old.location ≤ SPACE_WORDS }
        requires few { self.old.lines < 2 ^ 63 }
        ensures { (before : List ALine) → Surveyed self.old before
            → MatchResult result (λ done. (x : ALine) × (next_line before text.now ≡ Ok x) × Surveyed self.new (before ++ x ∷ [])) (λ e. IsFault e (next_line before text.now)) }
    {
        let number = self.lines + 1;
        let Some(line) = read_line(text) else {
            return Err(AsmFault::Line(number));
        };
        if overruns(self.location, &line) {
            return Err(AsmFault::Overrun(number));
        }
        self.label_line(line.label)?;
        self.location = behind(self.location, &line.statement);
        self.lines = number;
        Ok(())
    }

    // Gives the label of a line the location, unless it has a value.
    fn label_line(&mut self, label: Option<Symbol>) -> Result<(), AsmFault>
        requires below { IfSome label (λ symbol. self.old.location < SPACE_WORDS) }
        requires short { IfSome label (λ symbol. length symbol ≤ SYMBOL_CHARACTERS) }
        ensures same { (self.new.location ≡ self.old.location) × (self.new.lines ≡ self.old.lines) }
        ensures put { OnOk result (IsNew (kept self.old.symbols) label × ((other : List ℕ) → kept self.new.symbols other ≡ after_label label self.old.location (kept self.old.symbols) other)) }
        ensures fault { IfErr result (λ e. (e ≡ AsmFault.Memory) ⊎ IsDoubled (kept self.old.symbols) label e) }
    {
        match label {
            Some(symbol) => self.add_label(&symbol),
            None => Ok(()),
        }
    }

    // Gives a symbol the location, unless it has a value.
    fn add_label(&mut self, label: &Symbol) -> Result<(), AsmFault>
        requires below { self.old.location < SPACE_WORDS }
        requires short { length label.now ≤ SYMBOL_CHARACTERS }
        ensures same { (self.new.location ≡ self.old.location) × (self.new.lines ≡ self.old.lines) }
        ensures put { OnOk result ((kept self.old.symbols label.now ≡ None) × ((other : List ℕ) → kept self.new.symbols other ≡ (if bytes_eq label.now other then Some self.old.location else kept self.old.symbols other))) }
        ensures fault { IfErr result (λ e. (e ≡ AsmFault.Memory) ⊎ ((e ≡ AsmFault.Doubled label.now) × (kept self.old.symbols label.now ≢ None))) }
    {
        if self.symbols.get(label).is_some() {
            return Err(AsmFault::Doubled(*label));
        }
        match Half::new(self.location) {
            Some(location) => self.symbols.insert(label, location),
            None => Err(AsmFault::Memory),
        }
    }
}

// Whether a label or a word of a line at this location would stand at 2^18 or above.
#[tactic(auto, unfolding(crate::specs::Places::overruns))]
fn overruns(location: u32, line: &Line) -> bool
    requires { location ≤ SPACE_WORDS }
    ensures { result ≡ overruns location line.now }
{
    let size = size_of(&line.statement);
    (line.label.is_some() && location >= SPACE_WORDS)
        || (size >= 1 && location as u64 + size > SPACE_WORDS as u64)
}

// How many words a statement has.
fn size_of(statement: &Statement) -> u64
    ensures value { result ≡ size_of statement.now }
    ensures small { result < 2 ^ 63 }
{
    match statement {
        Statement::Nothing => 0,
        Statement::Loc(_) => 0,
        Statement::Number(_) => 1,
        Statement::Halves(_, _) => 1,
        Statement::Asciz(text) => text.as_slice().len() as u64 / 5 + 1,
    }
}

/// The location behind a statement.
pub(crate) fn behind(location: u32, statement: &Statement) -> u32
    requires { location + size_of statement.now ≤ SPACE_WORDS }
    ensures value { result ≡ behind location statement.now }
    ensures within { result ≤ SPACE_WORDS }
{
    match statement {
        Statement::Loc(start) => start.value(),
        _ => (location as u64 + size_of(statement)) as u32,
    }
}

/// The symbols of a program, or the first fault in its lines.
pub(crate) fn first_pass(alloc: Global, text: &[u8]) -> Result<Symbols, AsmFault>
    requires { length text.now ≤ PROGRAM_BYTES }
    ensures { MatchResult result (λ symbols. (lines : List ALine) × (lines_of text.now ≡ Ok lines) × ((symbol : List ℕ) → kept symbols symbol ≡ value_in lines symbol)) (λ e. IsFault e (lines_of text.now)) }
{
    let mut survey = Survey {
        symbols: Symbols::new(alloc),
        location: 0,
        lines: 0,
    };
    let mut left = text;
    while let Some((line, behind)) = cut(left, b'\n') {
        survey.take_line(line)?;
        left = behind;
    }
    if !left.is_empty() {
        return Err(AsmFault::Line(survey.lines + 1));
    }
    Ok(survey.symbols)
}
