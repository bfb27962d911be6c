// A record read from its first line to its end.
ghost use Rattle.std.specs.Prelude.{◌≡◌, ◌≢◌, ◌≤◌, ℕ, List, Option, None, Some, IfOk};
ghost use Rattle.outside.specs.Faults.{Rose};
ghost use Rattle.script_texts.specs.declared.event.Step.{Step as AStep};
ghost use Rattle.record_reader.specs.Verdicts.{ReadsAs, Verdict};
ghost use Rattle.record_reader.specs.Versions.{CanBeRead, lines_of_record, whole_record};
ghost use Rattle.record_reader.specs.Reader.{line_given, lines_read, verdict_given};

use crate::line::Said;
use crate::reader::{NextStep, RecordReader};
use outside::{Memory, Source};
use std::alloc::Global;

/// The lines of a record in order, and the answer behind the last of them, which gives no line.
#[derive(Drop)]
pub struct WholeReading {
    pub lines: Vec<Said>,
    pub end: NextStep,
}

/// Reads a record to its end. Where the source tells its bytes, these are the lines and the verdict of the whole text, in
/// whatever pieces it came; of a record that a run wrote they are that record's own lines, and then the end.
pub fn read_record<S: Source>(alloc: Global, source: &mut S) -> Result<WholeReading, Memory>
    ensures cause { IfOk result (λ r. r.end ≡ NextStep.ReadFault → Rose (S.fault_count source.old) (S.fault_count source.new)) }
    ensures unfaulted { IfOk result (λ r. r.end ≢ NextStep.ReadFault → S.fault_count source.new ≡ S.fault_count source.old) }
    ensures last { IfOk result (λ r. line_given r.end ≡ None) }
    ensures reads { (text : List ℕ) (v : Verdict) → S.left source.old ≡ Some text → IfOk result (λ r. verdict_given r.end ≡ Some v → ReadsAs text (lines_read r) v) }
    ensures whole { (size : Option ℕ) (entries : List AStep) (reads writes : ℕ) → CanBeRead size entries reads writes → S.left source.old ≡ Some (whole_record size entries reads writes)
        → IfOk result (λ r. r.end ≢ NextStep.ReadFault → (lines_read r ≡ lines_of_record size entries reads writes) × (r.end ≡ NextStep.End)) }
{
    let mut reader = RecordReader::new();
    let mut lines = Vec::new(alloc);
    loop {
        let next = reader.next(source);
        let Some(said) = next.said() else {
            return Ok(WholeReading { lines, end: next });
        };
        let Ok(()) = lines.push(said) else {
            return Err(Memory);
        };
    }
}
