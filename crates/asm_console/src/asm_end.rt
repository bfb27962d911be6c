// How the assembly of a text ends.
use asm_core::AsmFault;
use std::alloc::AllocError;

/// How the assembly of a text ended.
#[derive(Clone, Copy, PartialEq, Eq, Drop)]
pub enum AsmEnd {
    /// The words of the program were written.
    Done,
    /// There are no words to be written, for this reason, and the line that tells it was written.
    Stopped(Stopped),
    /// A write failed.
    WriteFault,
}

/// Why there are no words to be written.
#[derive(Clone, Copy, PartialEq, Eq, Drop)]
pub enum Stopped {
    /// A read of the text failed.
    ReadFault,
    /// The text is too long.
    LongText,
    /// The text is no program, or there was no memory.
    Fault(AsmFault),
}

impl From<AllocError> for Stopped {
    ghost use Rattle.std.specs.Prelude.{◌≡◌};
    ghost use Rattle.asm_core.specs.declared.line.AsmFault.TheVariants.{Memory};
    ghost use Rattle.asm_console.specs.declared.asm_end.Stopped.TheVariants.{Fault};

    ghost from_gives = { λ _ why. why ≡ Fault Memory };

    fn from(_error: AllocError) -> Self {
        Stopped::Fault(AsmFault::Memory)
    }
}
