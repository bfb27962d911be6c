// What follows from the definition of a text, in the words of who writes one. A law does nothing when it runs.
ghost use Rattle.text_pointers.specs.Laws.{ReadsInOrder};

use plain_units::Regs;
use word36::Word;

/// A text that stands from the next byte of a pointer on, in words that can be read, is read: its bytes in order, up to
/// the one that is 0, wherever they stand in the space of a fork.
pub fn texts_are_read_in_order(regs: &Regs, pointer: Word)
    ensures { ReadsInOrder regs.now pointer }
{}
