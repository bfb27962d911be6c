// RUN: turns, each given to a taker.
ghost use Rattle.std.specs.Prelude.{◌≡◌, ◌≤◌, ◌^◌, IfOk, OnOk, false};
ghost use Rattle.page_waits.specs.Machines.{IsBare, KeepsMarks, auto, limit};
ghost use Rattle.page_waits.specs.Transfers.{MovesAtMost};
ghost use Rattle.page_waits.specs.declared.turn.Turn.{Turn as ATurn};
ghost use Rattle.script_texts.specs.declared.event.Event.{Event as AnEvent};
ghost use Rattle.paged_events.specs.Budgets.{most_in_turns};
ghost use Rattle.paged_events.specs.Given.{Acted, IsWithin, TookTurns};
ghost use Rattle.paged_events.specs.Outside.{UsesOutside};
ghost use Rattle.paged_events.specs.Rows.{TookRows};

use crate::fault::Fault;
use crate::giving::{give_idle, give_units};
use outside::Drum;
use page_waits::{Machine as Waits, System, Turn};
use script_texts::Taker;

// The next turns of a run, so many at most, given to a taker: a row of units, behind which a transfer ends where its quantum has ended under AUTO ON; or
// idle entries. How many they are.
fn next_turns<S: System, D: Drum, T: Taker>(
    waits: &mut Waits<S>,
    left: u32,
    drum: &mut D,
    out: &mut T,
) -> Result<u32, Fault>
    requires drum { limit waits.old ≤ D.size drum.old }
    requires bare { IsBare waits.old }
    requires some { 1 ≤ left }
    requires within { IsWithin S.means waits.old.system (2 ^ 51) }
    ensures took { TookTurns S.means D.held T.stands T.cut (auto waits.old) left result waits.old.system waits.new.system waits.old.lists waits.new.lists drum.old drum.new out.old out.new }
    ensures rows { IfOk result (λ n. TookRows S.means (record { reads = D.read_count; writes = D.write_count }) (auto waits.old) n waits.old.system waits.new.system waits.old.lists waits.new.lists drum.old drum.new) }
    ensures outside { UsesOutside T.onward T.fault_count D.fault_count D.read_count D.write_count D.size result out.old out.new drum.old drum.new }
    ensures some { IfOk result (λ n. MovesAtMost (record { reads = D.read_count; writes = D.write_count }) (most_in_turns n) drum.old drum.new) }
    ensures bounded { MovesAtMost (record { reads = D.read_count; writes = D.write_count }) (most_in_turns left) drum.old drum.new }
    ensures off { auto waits.old ≡ false → drum.new ≡ drum.old }
    ensures bare { IfOk result (λ n. IsBare waits.new) }
    ensures marks { KeepsMarks waits.old waits.new }
{
    waits.lists_are_sound();
    match waits.turns(left, drum) {
        Ok(turn) => match turn {
            Turn::Ran(row) => match give_units(waits, &row, out) {
                Ok(()) => match waits.end_quantum(row.ended, drum) {
                    Ok(()) => {
                        waits.lists_are_sound();
                        Ok(row.progress.count)
                    }
                    Err(_) => Err(Fault::Drum),
                },
                Err(_) => Err(Fault::Taker),
            },
            Turn::Idle(count) => match give_idle(count, out) {
                Ok(()) => Ok(count),
                Err(_) => Err(Fault::Taker),
            },
        },
        Err(_) => Err(Fault::Drum),
    }
}

/// RUN: so many turns.
pub fn run<S: System, D: Drum, T: Taker>(
    waits: &mut Waits<S>,
    n: u32,
    drum: &mut D,
    out: &mut T,
) -> Result<u32, Fault>
    requires drum { limit waits.old ≤ D.size drum.old }
    requires bare { IsBare waits.old }
    requires few { n ≤ 1000000 }
    requires within { IsWithin S.means waits.old.system (2 ^ 50) }
    ensures acted { Acted S.means D.held T.stands T.cut (auto waits.old) (AnEvent.Run n) result waits.old.system waits.new.system waits.old.lists waits.new.lists drum.old drum.new out.old out.new }
    ensures rows { OnOk result (TookRows S.means (record { reads = D.read_count; writes = D.write_count }) (auto waits.old) n waits.old.system waits.new.system waits.old.lists waits.new.lists drum.old drum.new) }
    ensures outside { UsesOutside T.onward T.fault_count D.fault_count D.read_count D.write_count D.size result out.old out.new drum.old drum.new }
    ensures bounded { MovesAtMost (record { reads = D.read_count; writes = D.write_count }) (most_in_turns n) drum.old drum.new }
    ensures off { auto waits.old ≡ false → drum.new ≡ drum.old }
    ensures bare { IfOk result (λ n. IsBare waits.new) }
    ensures marks { KeepsMarks waits.old waits.new }
{
    waits.lists_are_sound();
    let mut left = n;
    while left > 0 {
        match next_turns(waits, left, drum, out) {
            Ok(taken) => left -= taken,
            Err(fault) => return Err(fault),
        }
    }
    Ok(n)
}
