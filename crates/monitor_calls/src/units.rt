// Units of a fork of a tree.
ghost use Rattle.std.specs.Prelude.{◌≡◌, ◌<◌, ◌≤◌, ◌^◌, ◌==◌, Err, IfErr, IfOk, IsOk, IsSome, Ok, Some, if◌then◌else◌, true};
ghost use Rattle.plain_model.specs.declared.fork.Body.{Body as ABody};
ghost use Rattle.plain_model.specs.declared.fork.Fork.{Fork as AFork};
ghost use Rattle.plain_model.specs.Forks.{OthersStay, fork_in};
ghost use Rattle.ka10_unit.specs.Gathers.{Serves};
ghost use Rattle.fork_tree.specs.Trees.{IsTree};
ghost use Rattle.job_forks.specs.Holding.{Holds};
ghost use Rattle.job_forks.specs.Limits.{AreWithin};
ghost use Rattle.monitor_calls.specs.Limits.{CanUnit};
ghost use Rattle.monitor_calls.specs.ForkUnit.{HasJob, Place as APlace, UnitWaits, UnitsRan, fork_of, tables_in};
ghost use Rattle.step_shown.specs.Reaching.{Reaches};
ghost use Rattle.step_shown.specs.Shown.{nothing};

use crate::calls::{called, reach_of};
use crate::job::Job;
use crate::row::{Last, units_to_call};
use crate::typing::Typing;
use file_tables::FileTables;
use fork_tree::Tree;
use page_contracts::{Need, Pages};
use step_shown::{Reach, Runner, Shown};
use text_pointers::Scratch;

/// Units of a fork in a row: how many, at least one, what the last of them shows, and how far they reached. Those before it show
/// nothing.
#[derive(Clone, Copy)]
pub struct Units {
    pub count: u32,
    pub shown: Shown,
    pub reach: Reach,
}

// A unit needs this first, behind so many that are done: these alone, if there are any.
fn done_before(count: u32, need: Need, reach: Reach) -> Result<Units, Need>
    ensures { result ≡ (if count == 0 then Err need else Ok (record { count = count; shown = nothing; reach = reach })) }
{
    if count == 0 {
        return Err(need);
    }
    Ok(Units {
        count,
        shown: Shown::NOTHING,
        reach,
    })
}

/// Units of a fork of a tree in a row, at least one and so many at most. A monitor call is made once the fork is
/// back among the others, since it looks at all. Err: the first unit needs this first, and nothing was changed; a later one that
/// needs something first is left for the next row.
#[inline]
pub fn units_with_call<P: Pages>(
    tree: &mut Tree,
    pages: &mut P,
    files: &mut FileTables,
    jobs: &Vec<Option<Job>>,
    typed: &mut Vec<Typing>,
    scratch: &mut Scratch,
    clock: u64,
    who: Runner,
    most: u32,
) -> Result<Units, Need>
    requires tree { IsTree tree.old }
    requires there { IsSome (fork_in tree.old.forks who.fork.tty who.slot) }
    requires can { (f : AFork) → fork_in tree.old.forks who.fork.tty who.slot ≡ Some f → (f.name ≡ who.fork) × CanUnit f.body }
    requires few { (f : AFork) → fork_in tree.old.forks who.fork.tty who.slot ≡ Some f → f.body.units < 2 ^ 62 }
    requires serves { Serves P.means pages.old who.fork }
    requires holds { Holds P.means pages.old tree.old.forks }
    requires within { AreWithin tree.old.forks }
    requires job { HasJob files.old jobs.now.items typed.old.items who.fork.tty }
    requires serial { P.means.serial pages.old who.fork.tty < 2 ^ 61 }
    requires clock { clock < 2 ^ 63 }
    requires some { 0 < most }
    ensures ran { (at : APlace) (b : ABody) → fork_in tree.old.forks who.fork.tty who.slot ≡ Some (fork_of who.fork at b)
        → IfOk result (UnitsRan P.means pages.old pages.new (tables_in tree.old files.old jobs.now.items typed.old.items clock) (tables_in tree.new files.new jobs.now.items typed.new.items clock) (fork_of who.fork at b)) }
    ensures waits { (at : APlace) (b : ABody) → fork_in tree.old.forks who.fork.tty who.slot ≡ Some (fork_of who.fork at b)
        → IfErr result (UnitWaits P.means pages.old pages.new (tables_in tree.old files.old jobs.now.items typed.old.items clock) (tables_in tree.new files.new jobs.now.items typed.new.items clock) (fork_of who.fork at b)) }
    ensures core { P.means.flat ≡ true → IsOk result }
    ensures reach { IfOk result (λ units. Reaches units.reach who.fork tree.old tree.new) }
    ensures others { OthersStay who.fork.tty tree.old.forks tree.new.forks }
    ensures some { IfOk result (λ units. 1 ≤ units.count) }
    ensures few { IfOk result (λ units. units.count ≤ most) }
{
    let body = tree.body_at(who.fork.tty, who.slot);
    let row = units_to_call(body, who.fork, pages, scratch, most);
    match row.last {
        Last::Shows(shown) => Ok(Units {
            count: row.count,
            shown,
            reach: Reach::Own,
        }),
        Last::Calls(number) => {
            let reach = reach_of(number);
            match called(tree, pages, files, jobs, typed, clock, scratch, who, number) {
                Ok(shown) => Ok(Units {
                    count: row.count + 1,
                    shown,
                    reach,
                }),
                Err(need) => done_before(row.count, need, reach),
            }
        }
        Last::Needs(need) => done_before(row.count, need, Reach::Own),
    }
}
