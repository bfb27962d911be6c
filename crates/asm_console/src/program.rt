// The program that a text is.
ghost use Rattle.std.specs.Prelude.{◌≡◌, ◌≢◌, ◌≤◌, IfErr, IfOk, OnOk};
ghost use Rattle.outside.specs.Faults.{Rose};
ghost use Rattle.asm_console.specs.Endings.{IsProgram, IsTrueOf};

use crate::asm_end::Stopped;
use crate::reading::read_text;
use asm_core::{Placed, assemble};
use outside::Source;
use std::alloc::Global;

/// The words of the program that the source's text is; or why there are none.
pub fn read_program<S: Source>(alloc: Global, source: &mut S) -> Result<Vec<Placed>, Stopped>
    ensures later { S.fault_count source.old ≤ S.fault_count source.new }
    ensures cause { IfErr result (λ why. why ≡ Stopped.ReadFault → Rose (S.fault_count source.old) (S.fault_count source.new)) }
    ensures unfaulted { IfErr result (λ why. why ≢ Stopped.ReadFault → S.fault_count source.new ≡ S.fault_count source.old) }
    ensures steady { OnOk result (S.fault_count source.new ≡ S.fault_count source.old) }
    ensures program { IfOk result (λ p. IsProgram (S.left source.old) (S.left source.new) p.items) }
    ensures why { IfErr result (IsTrueOf (S.left source.old) (S.left source.new)) }
{
    let text = read_text(alloc, source)?;
    match assemble(alloc, text.as_slice()) {
        Ok(program) => Ok(program),
        Err(fault) => Err(Stopped::Fault(fault)),
    }
}
