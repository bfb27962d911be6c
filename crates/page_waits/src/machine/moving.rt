// What a script asks of frames and transfers, and the end of a quantum.
ghost use Rattle.std.specs.Prelude.{◌≡◌, ◌≤◌, ◌&&◌, [], ℕ, IsOk, IsOkAnd, None, OnErr, OnOk, drop, false, map, take, true};
ghost use Rattle.outside.specs.Faults.{Rose};
ghost use Rattle.page_contracts.specs.Stores.{Evicts, need_of};
ghost use Rattle.page_waits.specs.Acts.{Quiet};
ghost use Rattle.page_waits.specs.InCore.{IsInCore};
ghost use Rattle.page_waits.specs.Machines.{IsBare, KeepsMarks, auto, limit};
ghost use Rattle.page_waits.specs.Systems.{StaysState};
ghost use Rattle.page_waits.specs.Told.{MovesSilently, all_arrived};
ghost use Rattle.page_waits.specs.Transfers.{MovesAtMost};
ghost use Rattle.page_waits.specs.Waits.{the_lists};

use crate::System;
use crate::machine::Machine;
use outside::{Drum, Failed};
use page_contracts::Completed;
use page_homes::FrameId;

impl<S: System> Machine<S> {
    /// EVICT: the page of a frame begins to leave it, where there is such a frame and the page may.
    pub fn evict(&mut self, frame: u32)
        ensures evicts { Evicts S.means.store frame self.old.system self.new.system }
        ensures state { StaysState S.means self.old.system self.new.system }
        ensures lists { self.new.lists ≡ self.old.lists }
        ensures bare { IsBare self.old → IsBare self.new }
        ensures marks { KeepsMarks self.old self.new }
    {
        self.system.evict(FrameId(frame));
    }

    /// DRUM: the oldest transfers end, so many at most; all, where fewer are queued. Where none is, nothing changes.
    pub fn transfers<D: Drum>(&mut self, n: u32, drum: &mut D) -> Result<(), Failed>
        requires drum { limit self.old ≤ D.size drum.old }
        requires bare { IsBare self.old }
        ensures later { D.fault_count drum.old ≤ D.fault_count drum.new }
        ensures cause { OnErr result (Rose (D.fault_count drum.old) (D.fault_count drum.new)) }
        ensures size { D.size drum.new ≡ D.size drum.old }
        ensures reads { D.read_count drum.old ≤ D.read_count drum.new }
        ensures writes { D.write_count drum.old ≤ D.write_count drum.new }
        ensures bounded { MovesAtMost (record { reads = D.read_count; writes = D.write_count }) n drum.old drum.new }
        ensures quiet { OnOk result (Quiet S.means the_lists D.held None None None 0 self.old.system self.new.system self.old.lists self.new.lists drum.old drum.new) }
        ensures oldest { OnOk result (S.means.store.queue self.new.system ≡ drop n (S.means.store.queue self.old.system)) }
        ensures silent { OnOk result (MovesSilently self.old.lists.sched self.new.lists.sched) }
        ensures bare { IsBare self.new }
        ensures marks { KeepsMarks self.old self.new }
        ensures system { S.means.store.queue self.old.system ≡ [] → self.new.system ≡ self.old.system }
        ensures lists { S.means.store.queue self.old.system ≡ [] → self.new.lists ≡ self.old.lists }
        ensures drum { S.means.store.queue self.old.system ≡ [] → drum.new ≡ drum.old }
        ensures core { (frames : ℕ) → IsInCore S.means frames self.old.system self.old.lists → IsOkAnd result (λ done. IsInCore S.means frames self.new.system self.new.lists) }
        ensures told { OnOk result (self.new.lists.sched ≡ all_arrived (take n (map need_of (S.means.store.queue self.old.system))) self.old.lists.sched) }
    {
        for _k in 0..n {
            match self.complete(drum) {
                Completed::Done(_) => {}
                Completed::Nothing => return Ok(()),
                Completed::DrumFault => return Err(Failed),
            }
        }
        Ok(())
    }

    /// AUTO: whether a run completes transfers by itself.
    pub fn set_auto(&mut self, on: bool)
        ensures mark { auto self.new ≡ on }
        ensures system { self.new.system ≡ self.old.system }
        ensures lists { self.new.lists ≡ self.old.lists }
    {
        self.auto = on;
    }

    /// Where a quantum has ended, and a run completes transfers by itself, the oldest transfer ends. Where none is queued, nothing changes.
    pub fn end_quantum<D: Drum>(&mut self, ended: bool, drum: &mut D) -> Result<(), Failed>
        requires drum { limit self.old ≤ D.size drum.old }
        requires bare { IsBare self.old }
        ensures later { D.fault_count drum.old ≤ D.fault_count drum.new }
        ensures cause { OnErr result (Rose (D.fault_count drum.old) (D.fault_count drum.new)) }
        ensures size { D.size drum.new ≡ D.size drum.old }
        ensures reads { D.read_count drum.old ≤ D.read_count drum.new }
        ensures writes { D.write_count drum.old ≤ D.write_count drum.new }
        ensures bounded { MovesAtMost (record { reads = D.read_count; writes = D.write_count }) 1 drum.old drum.new }
        ensures quiet { OnOk result (Quiet S.means the_lists D.held None None None 0 self.old.system self.new.system self.old.lists self.new.lists drum.old drum.new) }
        ensures ended { (ended && auto self.old) ≡ true → OnOk result (S.means.store.queue self.new.system ≡ drop 1 (S.means.store.queue self.old.system)) }
        ensures still { (ended && auto self.old) ≡ false → drum.new ≡ drum.old }
        ensures silent { OnOk result (MovesSilently self.old.lists.sched self.new.lists.sched) }
        ensures bare { IsBare self.new }
        ensures marks { KeepsMarks self.old self.new }
        ensures system { S.means.store.queue self.old.system ≡ [] → self.new.system ≡ self.old.system }
        ensures lists { S.means.store.queue self.old.system ≡ [] → self.new.lists ≡ self.old.lists }
        ensures drum { S.means.store.queue self.old.system ≡ [] → drum.new ≡ drum.old }
        ensures core { (frames : ℕ) → IsInCore S.means frames self.old.system self.old.lists → IsOkAnd result (λ done. IsInCore S.means frames self.new.system self.new.lists) }
        ensures told { (ended && auto self.old) ≡ true → OnOk result (self.new.lists.sched ≡ all_arrived (take 1 (map need_of (S.means.store.queue self.old.system))) self.old.lists.sched) }
        ensures ok { (ended && auto self.old) ≡ false → IsOk result }
        ensures same { (ended && auto self.old) ≡ false → self.new ≡ self.old }
    {
        if ended && self.auto {
            self.transfers(1, drum)
        } else {
            Ok(())
        }
    }
}
