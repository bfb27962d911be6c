// Long lines, and scripts as long as a script may be.
ghost use Rattle.std.specs.Prelude.{Option, None};

use crate::memory_run::{assert_ended, made, run_script, run_source};
use outside::{Failed, Memory, Source};
use run_console::Status;
use std::alloc::Global;

// A line again and again, and something behind the last.
#[derive(Drop)]
struct Repeated {
    line: &'static [u8],
    times: u64,
    rest: &'static [u8],
    at: usize,
}

impl Repeated {
    fn next_byte(&mut self) -> Option<u8> {
        if self.times > 0 && self.at >= self.line.len() {
            self.times -= 1;
            self.at = 0;
        }
        let bytes = if self.times > 0 { self.line } else { self.rest };
        let byte = bytes.get(self.at).copied()?;
        self.at += 1;
        Some(byte)
    }
}

impl Source for Repeated {
    ghost fault_count = { λ _. 0 };

    ghost left = { λ _. None };

    fn faults(&self) -> u64 {
        0
    }

    fn read(&mut self, piece: &mut [u8]) -> Result<usize, Failed> {
        for filled in 0..piece.len() {
            match self.next_byte() {
                Some(byte) => piece[filled] = byte,
                None => return Ok(filled),
            }
        }
        Ok(piece.len())
    }
}

// 2,796,198 lines of 6 bytes and 4 lines of 7 bytes are 16,777,216 bytes.
#[test]
fn the_longest_script_is_run(rt: HostRuntime) {
    for (rest, status, out, rec) in [
        (
            b"RUN 01\nRUN 01\nRUN 01\nRUN 01\n".as_slice(),
            Status::Done,
            b"".as_slice(),
            b"I 2796202\nE 0 0\n".as_slice(),
        ),
        (
            b"RUN 01\nRUN 01\nRUN 01\nRUN 001\n",
            Status::LongScript,
            b"?LONG SCRIPT\n",
            b"I 2796201\n",
        ),
    ] {
        let mut script = Repeated {
            line: b"RUN 1\n",
            times: 2_796_198,
            rest,
            at: 0,
        };
        let ran = made(&rt, run_source(rt.alloc(), &mut script));
        assert_ended(&rt, &ran, status, out, rec);
    }
}

// 2,097,152 comments of 8 bytes are 16,777,216 bytes.
#[test]
fn comments_count_for_the_length(rt: HostRuntime) {
    for (rest, status, out, rec) in [
        (
            b"".as_slice(),
            Status::Done,
            b"".as_slice(),
            b"E 0 0\n".as_slice(),
        ),
        (b"\n", Status::LongScript, b"?LONG SCRIPT\n", b""),
        (b";", Status::LongScript, b"?LONG SCRIPT\n", b""),
    ] {
        let mut script = Repeated {
            line: b";234567\n",
            times: 2_097_152,
            rest,
            at: 0,
        };
        let ran = made(&rt, run_source(rt.alloc(), &mut script));
        assert_ended(&rt, &ran, status, out, rec);
    }
}

// A comment with so many bytes, and an event.
fn commented(alloc: Global, bytes: usize) -> Result<Vec<u8>, Memory> {
    let mut script: Vec<u8> = vec![in alloc; b';'; bytes]?;
    script.extend_from_slice(b"\nLOGIN 0 A\n")?;
    Ok(script)
}

#[test]
fn a_line_has_256_bytes_at_most(rt: HostRuntime) {
    for (bytes, status, out, rec) in [
        (
            256,
            Status::Done,
            b"T0 @\n".as_slice(),
            b"LOGIN 0 A\nE 0 0\n".as_slice(),
        ),
        (257, Status::Script, b"?LINE 1\n", b""),
    ] {
        let script = made(&rt, commented(rt.alloc(), bytes));
        let ran = made(&rt, run_script(rt.alloc(), &script));
        assert_ended(&rt, &ran, status, out, rec);
    }
}
