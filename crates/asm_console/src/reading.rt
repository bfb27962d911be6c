// The text of a program, read whole.
ghost use Rattle.std.specs.Prelude.{◌≡◌, ◌≢◌, ◌≤◌, length, IfErr, IfOk, OnOk};
ghost use Rattle.outside.specs.Faults.{Rose};
ghost use Rattle.asm_core.specs.declared.survey.TheConstants.{PROGRAM_BYTES as MOST};
ghost use Rattle.asm_console.specs.Endings.{IsRead, IsUnread};

use crate::asm_end::Stopped;
use asm_core::PROGRAM_BYTES;
use outside::Source;
use std::alloc::Global;

// How many bytes are read at once.
const PIECE_BYTES: usize = 4096;

/// The bytes of a source to its end. LongText comes exactly where more were taken than a program has, ReadFault only
/// where the source's count of faults rose.
pub fn read_text<S: Source>(alloc: Global, source: &mut S) -> Result<Vec<u8>, Stopped>
    ensures later { S.fault_count source.old ≤ S.fault_count source.new }
    ensures cause { IfErr result (λ why. why ≡ Stopped.ReadFault → Rose (S.fault_count source.old) (S.fault_count source.new)) }
    ensures unfaulted { IfErr result (λ why. why ≢ Stopped.ReadFault → S.fault_count source.new ≡ S.fault_count source.old) }
    ensures steady { OnOk result (S.fault_count source.new ≡ S.fault_count source.old) }
    ensures text { IfOk result (λ text. IsRead (S.left source.old) (S.left source.new) text.items) }
    ensures short { IfOk result (λ text. length text.items ≤ MOST) }
    ensures why { IfErr result (IsUnread (S.left source.old) (S.left source.new)) }
{
    let mut text = Vec::new(alloc);
    let mut piece = [0; PIECE_BYTES];
    loop {
        let Ok(count) = source.read(&mut piece) else {
            return Err(Stopped::ReadFault);
        };
        if count == 0 {
            return Ok(text);
        }
        if text.len() + count > PROGRAM_BYTES {
            return Err(Stopped::LongText);
        }
        text.extend_from_slice(&piece[..count])?;
    }
}
