// A text as a program.
ghost use Rattle.std.specs.Prelude.{◌≡◌, ◌≤◌, ℕ, List, Ok, length, MatchResult};
ghost use Rattle.asm_core.specs.declared.line.Line.{Line as ALine};
ghost use Rattle.asm_core.specs.Passes.{IsFault, kept};
ghost use Rattle.asm_core.specs.Places.{lines_of, outcome, value_in};

use crate::cutting::cut;
use crate::statements::read_line;
use crate::survey::{PROGRAM_BYTES, behind, first_pass};
use crate::symbols::Symbols;
use crate::words::place;
use crate::{AsmFault, Placed};
use std::alloc::Global;

/// The words of a program with their addresses, in the order of its lines; or the first fault in it.
/// It goes over the text twice: for the symbols, and for the words.
pub fn assemble(alloc: Global, text: &[u8]) -> Result<Vec<Placed>, AsmFault>
    requires { length text.now ≤ PROGRAM_BYTES }
    ensures { MatchResult result (λ program. outcome text.now ≡ Ok program.items) (λ e. IsFault e (outcome text.now)) }
{
    match first_pass(alloc, text) {
        Ok(symbols) => second_pass(alloc, text, &symbols),
        Err(fault) => Err(fault),
    }
}

// The words of a program whose symbols are known, or the first symbol that is none.
fn second_pass(alloc: Global, text: &[u8], symbols: &Symbols) -> Result<Vec<Placed>, AsmFault>
    requires { (lines : List ALine) × (lines_of text.now ≡ Ok lines) × ((symbol : List ℕ) → kept symbols.now symbol ≡ value_in lines symbol) }
    ensures { MatchResult result (λ program. outcome text.now ≡ Ok program.items) (λ e. IsFault e (outcome text.now)) }
{
    let mut program = Vec::new(alloc);
    let mut location = 0;
    let mut left = text;
    while let Some((text, others)) = cut(left, b'\n') {
        // The first pass has read each line.
        let Some(line) = read_line(text) else {
            return Err(AsmFault::Line(0));
        };
        place(&mut program, location, &line.statement, symbols)?;
        location = behind(location, &line.statement);
        left = others;
    }
    Ok(program)
}
