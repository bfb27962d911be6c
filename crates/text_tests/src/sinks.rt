// Sinks in memory.
use crate::made::made;
use crate::same::same;
use outside::MemSink;
use std::alloc::Global;
use std::process::Abort;

/// A list of one number.
pub fn only(rt: &impl Abort, alloc: Global, number: u64) -> Vec<u64> {
    vec![in alloc; number].expect(rt, "no memory")
}

/// A sink with room for so many bytes.
pub fn sink(rt: &impl Abort, alloc: Global, room: usize) -> MemSink {
    made(rt, MemSink::new(alloc, room, Vec::new(alloc)))
}

/// The sinks of a transcript and a record have these bytes, and are let go.
pub fn have(rt: &impl Abort, out: MemSink, rec: MemSink, transcript: &[u8], record: &[u8]) {
    same(rt, out.bytes(), transcript);
    same(rt, rec.bytes(), record);
}
