// The lists follow what units and deeds have done to the forks.
ghost use Rattle.std.specs.Prelude.{◌≡◌, MatchOption, true};
ghost use Rattle.fork_lists.specs.Ties.{AreTied};
ghost use Rattle.fork_tree.specs.Trees.{IsTree};
ghost use Rattle.job_sched.specs.Schedules.{size};
ghost use Rattle.job_sched.specs.Ties.{WaitsLess};
ghost use Rattle.machine_names.specs.Bounds.{IsTerminal};
ghost use Rattle.monitor_typing.specs.Deeds.{FitsPart};
ghost use Rattle.plain_model.specs.Moves.{moves};
ghost use Rattle.plain_model.specs.Trees.{PlainTree};
ghost use Rattle.script_texts.specs.Limits.{FitsEvent};
ghost use Rattle.script_texts.specs.declared.event.Event.TheVariants.{Tick};
ghost use Rattle.step_shown.specs.Reaching.{Reaches};
ghost use Rattle.step_shown.specs.Runners.{IsRunner};
ghost use Rattle.turn_forms.specs.Turns.{KeepSlots, moved};
ghost use Rattle.paged_system.specs.Followed.{HadForks, IsPartAt, IsPartNowhere, MovesFrom, RowEnded, event_became, job_became, part_became};

use event_deeds::Showing;
use event_items::{echo_terminal, event_terminal};
use fork_lists::ForkLists;
use fork_tree::Tree;
use machine_names::Tty;
use script_texts::Event;
use step_shown::{Reach, Runner};
use turn_forms::following_is_moving;

/// The lists follow units of a fork in a row, which have reached so far among the forks: from any forks before, of which each that lives on is in its
/// slot, they move as the forks have.
pub fn follow_reach(lists: &mut ForkLists, tree: &Tree, who: Runner, reach: Reach)
    requires ended { RowEnded lists.old tree.now who reach }
    ensures moved { (old : PlainTree) → IsTree old → AreTied old.forks lists.old → IsRunner old who → Reaches reach who.fork old tree.now → KeepSlots old.forks tree.now.forks
        → lists.new.sched ≡ moved (moves old.forks tree.now.forks) lists.old.sched }
    ensures tied { AreTied tree.now.forks lists.new }
    ensures waits { WaitsLess lists.old.sched.waiting lists.new.sched.waiting }
    ensures set { size lists.new.sched ≡ size lists.old.sched }
{
    following_is_moving();
    tree.are_trees();
    match reach {
        Reach::Own => lists.follow_slot(tree, who.fork, who.slot),
        Reach::Made => lists.follow_maker(tree, who.fork, who.slot),
        Reach::Job => lists.follow(tree, who.fork.tty),
    }
}

// The lists follow a job, of which alone forks have changed, each in its slot: they move as the forks have.
fn follow_job(lists: &mut ForkLists, tree: &Tree, t: Tty)
    requires terminal { IsTerminal t }
    requires had { HadForks (job_became t tree.now) lists.old }
    ensures moved { MovesFrom (job_became t tree.now) tree.now lists.old lists.new.sched }
    ensures tied { AreTied tree.now.forks lists.new }
    ensures waits { WaitsLess lists.old.sched.waiting lists.new.sched.waiting }
    ensures set { size lists.new.sched ≡ size lists.old.sched }
{
    following_is_moving();
    tree.are_trees();
    lists.follow(tree, t);
}

// The lists follow the forks of all jobs, of which sleepers were awoken.
fn follow_awoken(lists: &mut ForkLists, tree: &Tree)
    requires had { HadForks (event_became Tick tree.now) lists.old }
    ensures moved { MovesFrom (event_became Tick tree.now) tree.now lists.old lists.new.sched }
    ensures tied { AreTied tree.now.forks lists.new }
    ensures waits { WaitsLess lists.old.sched.waiting lists.new.sched.waiting }
    ensures set { size lists.new.sched ≡ size lists.old.sched }
{
    following_is_moving();
    tree.are_trees();
    lists.follow_all(tree);
}

/// The lists follow an event that is one deed: from any forks before, they move as the forks have.
pub fn follow_event(lists: &mut ForkLists, tree: &Tree, e: &Event)
    requires fits { FitsEvent e.now }
    requires had { HadForks (event_became e.now tree.now) lists.old }
    ensures moved { MovesFrom (event_became e.now tree.now) tree.now lists.old lists.new.sched }
    ensures tied { AreTied tree.now.forks lists.new }
    ensures waits { WaitsLess lists.old.sched.waiting lists.new.sched.waiting }
    ensures set { size lists.new.sched ≡ size lists.old.sched }
{
    match event_terminal(e) {
        Some(t) => follow_job(lists, tree, t),
        None => {
            if let Event::Tick = e {
                follow_awoken(lists, tree);
            }
        }
    }
}

// The terminal of whose job a part of a character may change forks that shows this. None, where it changes none.
fn part_terminal(shown: &Showing) -> Option<Tty>
    requires { FitsPart shown.now }
    ensures { MatchOption result (IsPartNowhere shown.now) (λ t. IsTerminal t × IsPartAt shown.now t) }
{
    match shown {
        Showing::Echo(t, echo) => echo_terminal(*t, echo),
        Showing::Told(t, _) => Some(*t),
        // A part shows no reply.
        Showing::Reply(_) => unreachable!(),
    }
}

/// The lists follow a part of a character that shows this: from any forks before, they move as the forks have.
pub fn follow_part(lists: &mut ForkLists, tree: &Tree, shown: &Showing)
    requires fits { FitsPart shown.now }
    requires had { HadForks (part_became shown.now tree.now) lists.old }
    ensures moved { MovesFrom (part_became shown.now tree.now) tree.now lists.old lists.new.sched }
    ensures tied { AreTied tree.now.forks lists.new }
    ensures waits { WaitsLess lists.old.sched.waiting lists.new.sched.waiting }
    ensures set { size lists.new.sched ≡ size lists.old.sched }
{
    match part_terminal(shown) {
        Some(t) => follow_job(lists, tree, t),
        None => {}
    }
}
