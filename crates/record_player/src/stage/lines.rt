// What a record has next, played.
ghost use Rattle.std.specs.Prelude.{◌≡◌, ◌+◌, ◌≤◌, ◌^◌, ℕ, None, Some};
ghost use Rattle.script_texts.specs.Limits.{FitsStep};
ghost use Rattle.script_texts.specs.RecordLines.{RecordLine};
ghost use Rattle.record_reader.specs.Order.{FitsCount, FitsLine, turns_on};
ghost use Rattle.record_reader.specs.Reader.{line_given};
ghost use Rattle.record_player.specs.Stages.{PlayedLine, PlayedSteps};

use crate::halt::Halt;
use crate::replay_end::ReplayEnd;
use crate::stage::Stage;
use page_contracts::Pages;
use record_reader::NextStep;
use script_texts::{Step, Taker};

impl<P: Pages> Stage<P> {
    // So many equal turns, or an event, once.
    fn entries<T: Taker>(&mut self, step: Step, count: u64, out: &mut T) -> Result<(), Halt>
        requires fits { FitsStep step }
        requires count { FitsCount step count }
        requires few { self.old.done + count ≤ 2 ^ 51 }
        ensures { PlayedSteps T.fault_count T.onward T.stands T.cut self.old self.new out.old out.new result step count }
    {
        match step {
            Step::Outer(e) => match self.event(e, out) {
                Ok(()) => Ok(()),
                Err(_) => Err(Halt::Fault),
            },
            Step::Unit(fork) => self.units(fork, count, out),
            Step::Idle => self.idles(count, out),
        }
    }

    // How the playing ends that halts here.
    fn end_of(&self, why: Halt) -> ReplayEnd
        requires { why ≡ Halt.Illegal → self.now.done ≤ 2 ^ 51 }
        ensures illegal { why ≡ Halt.Illegal → result ≡ ReplayEnd.Illegal (self.now.done + 1) }
        ensures fault { why ≡ Halt.Fault → result ≡ ReplayEnd.WriteFault }
    {
        match why {
            Halt::Illegal => ReplayEnd::Illegal(self.done + 1),
            Halt::Fault => ReplayEnd::WriteFault,
        }
    }

    /// Plays what a record has next. None, where that is a line, all of whose entries were played; else how the playing ends.
    pub fn line<T: Taker>(&mut self, next: NextStep, out: &mut T) -> Option<ReplayEnd>
        requires { (l : RecordLine) → line_given next ≡ Some l → FitsLine l × (self.old.done + turns_on l + 1 ≤ 2 ^ 51) }
        ensures { PlayedLine T.fault_count T.onward T.stands T.cut self.old self.new out.old out.new next result }
    {
        match next {
            NextStep::Size(_) | NextStep::Counts(_, _) => None,
            NextStep::Run(step, count) => match self.entries(step, count, out) {
                Ok(()) => None,
                Err(why) => Some(self.end_of(why)),
            },
            NextStep::End => Some(ReplayEnd::Done),
            NextStep::Bad(number) => Some(ReplayEnd::Bad(number)),
            NextStep::Long => Some(ReplayEnd::Long),
            NextStep::ReadFault => Some(ReplayEnd::ReadFault),
        }
    }
}
