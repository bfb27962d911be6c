// Carrying out the plan of a turn.
ghost use Rattle.std.specs.Prelude.{◌≡◌, ◌<◌, ◌^◌};
ghost use Rattle.machine_names.specs.Bounds.{IsOwner, IsTerminal};
ghost use Rattle.page_contracts.specs.DrumWords.{DrumWords};
ghost use Rattle.page_contracts.specs.Pages.{MayLose, can_settle, touch_of};
ghost use Rattle.call_turns.specs.Making.{MakesAtMost};
ghost use Rattle.machine_names.specs.declared.names.Kind.{Kind as AKind};
ghost use Rattle.machine_names.specs.declared.names.Tty.{Tty as ATty};
ghost use Rattle.plain_pages.specs.References.{in_file};
ghost use Rattle.call_turns.specs.Answers.{FitsAnswer, answer_of as answer_to};
ghost use Rattle.call_turns.specs.Turns.{FitsEnd};
ghost use Rattle.ka10_unit.specs.Carrying.{Grows};
ghost use Rattle.ka10_unit.specs.Gathers.{Serves, framed};
ghost use Rattle.plain_files.specs.Bytes.{most_bytes};
ghost use Rattle.file_bytes.specs.Asking.{IsUsable};
ghost use Rattle.file_bytes.specs.Planning.{page_for, place_for};
ghost use Rattle.file_bytes.specs.Turning.{OthersStay, Stays};
ghost use Rattle.string_io.specs.Carrying.{ChangesAt, CarriedAt, Opens};
ghost use Rattle.string_io.specs.Depositing.{CanCarry, pages_planned};
ghost use Rattle.string_io.specs.Planning.{CanEnd, OpensEnd};

use crate::plan::Plan;
use call_turns::{Answer, answer_of};
use file_bytes::change;
use file_tables::FileTables;
use ka10_unit::store;
use machine_names::{Kind, Place, Tty};
use page_contracts::{Pages, Touch};
use page_files::place;
use plain_files::Jfn;
use plain_model::call::{ByteChange, End};
use tty_lines::Line;

// Whether the page of the byte at which a JFN stands is there, or can be made.
fn can_write<P: Pages>(jfn: Jfn, tables: &FileTables, pages: &P) -> bool
    requires usable { IsUsable tables.now jfn }
    requires room { jfn.at < most_bytes jfn.size }
    ensures answer { result ≡ can_settle (P.means.touched pages.now (place_for jfn) AKind.Write) }
    ensures told { (d : DrumWords) (owner : ATty) → P.means.fits pages.now d → IsOwner owner → result ≡ can_settle (touch_of (P.means.plain pages.now d) (P.means.scene pages.now) (in_file (page_for jfn)) AKind.Write owner) }
{
    let (page, _, _) = place(jfn.size, jfn.at);
    match pages.touch(Place::File(jfn.file, page), Kind::Write) {
        Touch::Ready => true,
        Touch::Zero => true,
        Touch::Copy { sole: _ } => true,
        Touch::Absent(_) => false,
        Touch::NeedFrame => false,
        Touch::Denied(_) => false,
        Touch::Full => false,
    }
}

// Makes a change of the job at a terminal, where the page of a byte that it writes can be had.
fn change_where_open<P: Pages>(
    what: &ByteChange,
    t: Tty,
    input: &mut Line,
    tables: &mut FileTables,
    pages: &mut P,
)
    requires terminal { IsTerminal t }
    requires can { CanEnd tables.old t what.now }
    requires serial { P.means.serial pages.old t < 2 ^ 63 }
    ensures told { (d : DrumWords) → P.means.fits pages.old d → Opens (P.means.plain pages.old d) (P.means.scene pages.old) tables.old t what.now → ChangesAt P.means pages.old pages.new tables.old tables.new input.old input.new t what.now d }
    ensures others { OthersStay t tables.old tables.new input.old input.new }
    ensures loses { MayLose P.means pages.old pages.new }
    ensures made { MakesAtMost P.means t 1 pages.old pages.new }
{
    if let ByteChange::Put(_, n, _) = what {
        let Some(jfn) = tables.jfn(t, *n) else {
            return;
        };
        if !can_write(jfn, tables, pages) {
            return;
        }
    }
    change(what, t, input, tables, pages);
}

/// Carries out the plan of a turn: what it refers to is made, its word is stored, and then its change is made, if it is done; one that
/// isn't leaves all as it was.
pub fn carry_out<P: Pages>(
    plan: &Plan,
    input: &mut Line,
    tables: &mut FileTables,
    pages: &mut P,
) -> Answer
    requires fits { FitsEnd (CanEnd tables.old plan.now.fork.tty) plan.now.ending }
    requires serves { Serves P.means pages.old plan.now.fork }
    requires serial { P.means.serial pages.old plan.now.fork.tty < 2 ^ 62 }
    ensures answer { result ≡ answer_to plan.now.ending }
    ensures told { (d : DrumWords) → P.means.fits pages.old d → let p = framed P.means pages.old d in CanCarry plan.now.fork p plan.now → OpensEnd tables.old p plan.now.fork.tty (pages_planned p plan.now) plan.now.ending
        → CarriedAt P.means pages.old pages.new tables.old tables.new input.old input.new plan.now d }
    ensures fits { FitsAnswer result }
    ensures stays { Stays pages.old pages.new tables.old tables.new input.old input.new result }
    ensures others { OthersStay plan.now.fork.tty tables.old tables.new input.old input.new }
    ensures grows { Grows P.means plan.now.fork.tty 129 pages.old pages.new }
{
    match &plan.ending {
        End::Done { change: what, .. } => {
            plan.gather.make(pages);
            store(pages, plan.fork, plan.put);
            change_where_open(what, plan.fork.tty, input, tables, pages);
            answer_of(plan.ending)
        }
        _ => answer_of(plan.ending),
    }
}
