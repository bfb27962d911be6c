// PMAP, page by page: its registers.
ghost use Rattle.std.specs.Prelude.{◌≡◌, ◌<◌, true};
ghost use Rattle.plain_model.specs.MapCalls.{behind_page as behind_page_of, is_counted as is_counted_of, next_source as next_source_of, on_next_page as on_next_page_of, pages_left as pages_left_of};
ghost use Rattle.call_turns.specs.Turns.{IsRegs};

use call_turns::{behind, with_ac};
use plain_units::Regs;
use word36::Word;

/// A source of all ones: the destination is taken out of its map.
pub const NO_SOURCE: u64 = Word::MASK;

/// Whether PMAP goes over pages: bit 0 of accumulator 3.
pub fn is_counted(regs: &Regs) -> bool
    requires { IsRegs regs.now }
    ensures { result ≡ is_counted_of regs.now }
{
    regs.ac[3].value() / (1 << 35) % 2 == 1
}

/// How many pages are left: the right half of accumulator 3.
pub fn pages_left(regs: &Regs) -> u32
    requires { IsRegs regs.now }
    ensures { result ≡ pages_left_of regs.now }
{
    regs.ac[3].right()
}

// The source behind one page.
fn next_source(word: Word) -> Word
    ensures { result ≡ next_source_of word }
{
    if word.value() == NO_SOURCE {
        word
    } else {
        Word::wrapped(word.value() + 1)
    }
}

// The registers for the page behind this one, of which there is one.
fn on_next_page(regs: Regs) -> Regs
    requires regs { IsRegs regs }
    requires left { 0 < pages_left_of regs }
    ensures next { result ≡ on_next_page_of regs }
    ensures fits { IsRegs result }
{
    let source = next_source(regs.ac[1]);
    let destination = Word::wrapped(regs.ac[2].value() + 1);
    let count = Word::wrapped(regs.ac[3].value() - 1);
    with_ac(with_ac(with_ac(regs, 1, source), 2, destination), 3, count)
}

/// The registers behind a page. Where PMAP goes over pages there is one left before.
#[tactic(auto, unfolding(plain_model::specs::MapCalls::behind_page))]
pub fn behind_page(regs: Regs) -> Regs
    requires regs { IsRegs regs }
    requires left { is_counted_of regs ≡ true → 0 < pages_left_of regs }
    ensures behind { result ≡ behind_page_of regs }
    ensures fits { IsRegs result }
{
    if !is_counted(&regs) {
        return behind(regs);
    }
    let next = on_next_page(regs);
    if pages_left(&next) == 0 {
        behind(next)
    } else {
        next
    }
}
