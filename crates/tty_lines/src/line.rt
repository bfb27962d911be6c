// The line of a job's terminal.
ghost use Rattle.std.specs.Prelude.{◌≡◌, ◌<◌, ◌↔◌, [], drop, slice_get, IsTrue, IfOk, IfSome};
ghost use Rattle.std.specs.FinMap as map;
ghost use Rattle.plain_typing.specs.Characters.{read_as as is_read_as};
ghost use Rattle.plain_typing.specs.Lines.{AreAssigned, IsAssignable, IsLine, new_line};
ghost use Rattle.plain_typing.specs.Typing.{fate_of, left_by};

use crate::read_as;
use circular_buffer::HeapCircularBuffer;
use machine_names::ForkName;
use number_map::NumberMap;
use outside::Memory;
use plain_typing::{ASSIGNABLE_CODES, CONTROL_C, MOST_STORED, Typed};
use std::alloc::Global;
use std::marker::Model;

// The fork and the channel of each code that is assigned.
type Codes = NumberMap<(ForkName, u8), ASSIGNABLE_CODES>;

/// The characters that were typed at a terminal and are not yet read, at most MOST_STORED, and the
/// codes that forks have assigned to channels (JSYS Manual, ATI).
#[derive(Drop)]
pub struct Line {
    input: HeapCircularBuffer<u8>,
    codes: Codes,
}

impl Model for Line {
    ghost use Rattle.std.specs.Prelude.{◌≡◌};
    ghost use Rattle.plain_typing.specs.declared.typed.TheConstants.{MOST_STORED};
    ghost use Rattle.plain_typing.specs.Lines.{InputLine, IsLine, line_code};

    ghost Value = { InputLine };

    ghost coded = { line_code };

    ghost view = { λ l. record { input = l.input.items; codes = l.codes } };

    ghost invariant = { λ l. (l.input.capacity ≡ MOST_STORED) × IsLine (record { input = l.input.items; codes = l.codes }) };
}

impl Line {
    /// Nothing is stored, and no code is assigned.
    pub fn boot(alloc: Global) -> Result<Self, Memory>
        ensures { IfOk result (λ line. line ≡ new_line) }
    {
        Ok(Line {
            input: HeapCircularBuffer::with_capacity(alloc, MOST_STORED)?,
            codes: NumberMap::boot(alloc)?,
        })
    }

    /// Whether no character is stored.
    pub fn is_empty(&self) -> bool
        ensures empty { IsTrue result ↔ (self.now.input ≡ []) }
        ensures line { IsLine self.now }
    {
        self.input.is_empty()
    }

    /// A character below 128 is typed at a program. It is stored last, unless a fork has assigned it
    /// or the line is full.
    pub fn typed(&mut self, code: u8) -> Typed
        requires { code < 128 }
        ensures fate { result ≡ fate_of self.old (is_read_as code) }
        ensures line { self.new ≡ left_by self.old (is_read_as code) result }
    {
        let code = read_as(code);
        if code == CONTROL_C {
            return Typed::ControlC;
        }
        if let Some((fork, channel)) = self.assigned(code) {
            return Typed::Posts(fork, channel);
        }
        match self.input.try_push_back(code) {
            Ok(()) => Typed::Stored,
            Err(_) => Typed::Dropped,
        }
    }

    /// The oldest character that is stored, below 128, which stays. None exactly where none is stored.
    pub fn oldest(&self) -> Option<u8>
        ensures oldest { result ≡ slice_get self.now.input 0 }
        ensures small { IfSome result (λ code. code < 128) }
        ensures line { IsLine self.now }
    {
        self.input.front().copied()
    }

    /// The oldest character that is stored, below 128, which is stored no more. None exactly where none
    /// is.
    pub fn take(&mut self) -> Option<u8>
        ensures oldest { result ≡ slice_get self.old.input 0 }
        ensures rest { self.new ≡ record self.old { input = drop 1 self.old.input } }
        ensures small { IfSome result (λ code. code < 128) }
    {
        self.input.pop_front()
    }

    /// The fork and its channel that a code is assigned to. None exactly where it is assigned to nothing. One step.
    pub fn assigned(&self, code: u8) -> Option<(ForkName, u8)>
        ensures assigned { result ≡ map.get self.now.codes code }
        ensures line { IsLine self.now }
    {
        self.codes.get(usize::from(code))
    }

    /// Assigns a code to a fork's channel, in place of what it was assigned to.
    pub fn assign(&mut self, code: u8, fork: ForkName, channel: u8)
        requires code { IsAssignable code }
        requires channel { channel < 36 }
        ensures { self.new ≡ record self.old { codes = map.insert self.old.codes code (fork, channel) } }
    {
        self.codes.insert(usize::from(code), (fork, channel));
    }

    /// A code is assigned to nothing any more. Those of other codes stay.
    pub fn unassign(&mut self, code: u8)
        ensures { self.new ≡ record self.old { codes = map.remove self.old.codes code } }
    {
        self.codes.remove(usize::from(code));
    }

    /// The line is as at its boot: nothing is stored, and no code is assigned.
    pub fn clear(&mut self)
        ensures { self.new ≡ new_line }
    {
        self.input.clear();
        unassign_all(&mut self.codes);
    }
}

// Takes away each code.
fn unassign_all(codes: &mut Codes)
    requires { AreAssigned codes.old }
    ensures { codes.new ≡ map.empty }
{
    for code in 0..ASSIGNABLE_CODES {
        codes.remove(code);
    }
}
