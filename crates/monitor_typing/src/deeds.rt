// The parts of a character that is typed, each of which is done whole or not at all.
ghost use Rattle.std.specs.Prelude.{◌≡◌, [], IfErr, IfOk, IsOk, if◌then◌else◌, true};
ghost use Rattle.machine_names.specs.Bounds.{IsAddress, IsFileName, IsTerminal};
ghost use Rattle.fork_tree.specs.Inferiors.{HasNoInferior};
ghost use Rattle.fork_tree.specs.Trees.{IsTree};
ghost use Rattle.event_deeds.specs.Deeds.{FitsPurpose, IsNext, all_done, begun, deed as deed_of, one_killed, over, purpose_done};
ghost use Rattle.event_deeds.specs.Leaves.{last_below as last_below_of};
ghost use Rattle.event_deeds.specs.declared.deed.Deed.TheVariants.{Begin as ABegin, End as AnEnd, Kill as AKill};
ghost use Rattle.event_deeds.specs.declared.deed.Purpose.{Purpose as APurpose};
ghost use Rattle.job_commands.specs.Needing.{NeedsLast, NeedsMap};
ghost use Rattle.monitor_typing.specs.Deeds.{Does, FitsAnswer, NeedsFirstPage, PartNeeds, PartPrints, Prints};
ghost use Rattle.monitor_typing.specs.Reaching.{PartReaches};
ghost use Rattle.monitor_typing.specs.Effects.{HasJobAt, job_in};
ghost use Rattle.monitor_core.specs.Systems.{Waits, event_frames};

use crate::characters::type_first;
use event_deeds::{Answer, Deed, Purpose, Showing};
use job_commands::{begin_program, kill_next, kill_top, start_of};
use machine_names::{FileName, Tty};
use monitor_calls::Job;
use monitor_core::System;
use page_contracts::{Need, Pages};
use plain_model::TerminalMode;
use psi_calls::forget_lost;
use step_shown::{Complaint, Told};
use word36::Word;

// A part of a command, which prints this, and behind which this comes.
fn printed(t: Tty, told: Told, next: Option<Deed>) -> Answer
    ensures { result ≡ record { showing = Showing.Told t told; next = next } }
{
    Answer {
        showing: Showing::Told(t, told),
        next,
    }
}

// What comes behind a look for a fork to kill: another look, or what they were killed for.
fn behind_kill(t: Tty, purpose: Purpose, some: bool) -> Deed
    ensures { result ≡ (if some then AKill t purpose else AnEnd t purpose) }
{
    if some {
        Deed::Kill(t, purpose)
    } else {
        Deed::End(t, purpose)
    }
}

// The address is looked up at which the program in a file starts. Err: the file's first page is in no frame.
fn look_up<P: Pages>(system: &System<P>, t: Tty, name: &FileName) -> Result<Answer, Need>
    requires terminal { IsTerminal t }
    requires name { IsFileName name.now }
    ensures does { IfOk result (Does system.now system.now (λ s. begun s t name.now)) }
    ensures fits { IfOk result FitsAnswer }
    ensures others { IfOk result (λ answer. PartReaches answer.showing system.now.tree.forks system.now.tree.forks) }
    ensures printed { IfOk result (Prints t) }
    ensures waits { IfErr result (Waits event_frames system.now system.now) }
    ensures needs { IfErr result (NeedsFirstPage system.now name.now) }
    ensures core { P.means.flat ≡ true → IsOk result }
{
    let Some(file) = system.files.find(name) else {
        return Ok(printed(t, Told::Refused(Complaint::NoProgram), None));
    };
    match start_of(&system.pages, file) {
        Ok(Some(word)) => {
            let run = Purpose::Run(*name, word.right());
            Ok(printed(t, Told::Nothing, Some(Deed::Kill(t, run))))
        }
        Ok(None) => Ok(printed(t, Told::Refused(Complaint::NoProgram), None)),
        Err(need) => Err(need),
    }
}

// Of the inferiors of a job's top fork that have none themselves, the one in the highest slot is killed. Err: its map is in no frame.
fn kill_one<P: Pages>(
    system: &mut System<P>,
    t: Tty,
    job: Job,
    purpose: Purpose,
) -> Result<Answer, Need>
    requires terminal { IsTerminal t }
    requires job { HasJobAt system.old t job }
    requires purpose { FitsPurpose purpose }
    ensures does { IfOk result (Does system.old system.new (λ s. one_killed s t purpose job.top)) }
    ensures fits { IfOk result FitsAnswer }
    ensures others { IfOk result (λ answer. PartReaches answer.showing system.old.tree.forks system.new.tree.forks) }
    ensures printed { IfOk result (Prints t) }
    ensures waits { IfErr result (Waits event_frames system.old system.new) }
    ensures needs { IfErr result (NeedsLast P.means system.old.pages (last_below_of system.old.tree.forks job.top)) }
    ensures core { P.means.flat ≡ true → IsOk result }
{
    match kill_next(job.top, &mut system.tree, &mut system.pages) {
        Ok(some) => {
            system.tree.are_trees();
            let next = behind_kill(t, purpose, some);
            Ok(printed(t, Told::Nothing, Some(next)))
        }
        Err(need) => Err(need),
    }
}

// The program in a file, which is there, is run from an address on by a job's top fork, which has no inferior. Of the codes that forks of
// the job have assigned, those of the top fork stay. Err: its map is in no frame.
fn run_alone<P: Pages>(
    system: &mut System<P>,
    t: Tty,
    job: Job,
    name: &FileName,
    address: u32,
) -> Result<Answer, Need>
    requires terminal { IsTerminal t }
    requires job { HasJobAt system.old t job }
    requires address { IsAddress address }
    ensures does { IfOk result (Does system.old system.new
        (λ s. over (record { state = purpose_done s t (job_in system.old t job) (APurpose.Run name.now address); items = [] }))) }
    ensures fits { IfOk result FitsAnswer }
    ensures others { IfOk result (λ answer. PartReaches answer.showing system.old.tree.forks system.new.tree.forks) }
    ensures printed { IfOk result (Prints t) }
    ensures waits { IfErr result (Waits event_frames system.old system.new) }
    ensures needs { IfErr result (NeedsMap P.means system.old.pages job.top) }
    ensures core { P.means.flat ≡ true → IsOk result }
{
    let Some(file) = system.files.find(name) else {
        return Ok(printed(t, Told::Nothing, None));
    };
    match begin_program(job.top, file, address, &mut system.tree, &mut system.pages) {
        Ok(()) => {
            system.tree.are_trees();
            system.jobs[t.0 as usize] = Some(Job {
                user: job.user,
                mode: TerminalMode::Program,
                top: job.top,
                start: Some(Word::join(0, address)),
            });
            forget_lost(&mut system.typed[t.0 as usize].input, &system.tree);
            Ok(printed(t, Told::Nothing, None))
        }
        Err(need) => Err(need),
    }
}

// A job, whose top fork has no inferior, ends, with that fork and its JFNs. Err: the fork's map is in no frame.
fn end_job<P: Pages>(system: &mut System<P>, t: Tty, job: Job) -> Result<Answer, Need>
    requires terminal { IsTerminal t }
    requires job { HasJobAt system.old t job }
    requires bare { HasNoInferior system.old.tree.forks job.top }
    ensures does { IfOk result (Does system.old system.new
        (λ s. over (record { state = purpose_done s t (job_in system.old t job) APurpose.Logout; items = [] }))) }
    ensures fits { IfOk result FitsAnswer }
    ensures others { IfOk result (λ answer. PartReaches answer.showing system.old.tree.forks system.new.tree.forks) }
    ensures printed { IfOk result (Prints t) }
    ensures waits { IfErr result (Waits event_frames system.old system.new) }
    ensures needs { IfErr result (NeedsMap P.means system.old.pages job.top) }
    ensures core { P.means.flat ≡ true → IsOk result }
{
    match kill_top(job.top, &mut system.tree, &mut system.pages) {
        Ok(()) => {
            system.tree.are_trees();
            system.files.release_all(t);
            system.jobs[t.0 as usize] = None;
            Ok(printed(t, Told::Nothing, None))
        }
        Err(need) => Err(need),
    }
}

// What the inferiors of a job's top fork were killed for is done; while there are any, those are killed first. Err: the map of the top
// fork is in no frame.
fn finish<P: Pages>(
    system: &mut System<P>,
    t: Tty,
    job: Job,
    purpose: &Purpose,
) -> Result<Answer, Need>
    requires terminal { IsTerminal t }
    requires job { HasJobAt system.old t job }
    requires purpose { FitsPurpose purpose.now }
    ensures does { IfOk result (Does system.old system.new (λ s. all_done s t (job_in system.old t job) purpose.now)) }
    ensures fits { IfOk result FitsAnswer }
    ensures others { IfOk result (λ answer. PartReaches answer.showing system.old.tree.forks system.new.tree.forks) }
    ensures printed { IfOk result (Prints t) }
    ensures waits { IfErr result (Waits event_frames system.old system.new) }
    ensures needs { IfErr result (NeedsMap P.means system.old.pages job.top) }
    ensures core { P.means.flat ≡ true → IsOk result }
{
    system.tree.are_trees();
    match system.tree.last_below(job.top) {
        Some(_) => Ok(printed(t, Told::Nothing, Some(Deed::Kill(t, *purpose)))),
        None => match purpose {
            Purpose::Run(name, address) => run_alone(system, t, job, name, *address),
            Purpose::Logout => end_job(system, t, job),
        },
    }
}

// The address is looked up for a terminal's job. Once the job is gone, nothing is done.
fn begin<P: Pages>(system: &mut System<P>, t: Tty, name: &FileName) -> Result<Answer, Need>
    requires terminal { IsTerminal t }
    requires name { IsFileName name.now }
    ensures does { IfOk result (Does system.old system.new (λ s. deed_of s (ABegin t name.now))) }
    ensures fits { IfOk result FitsAnswer }
    ensures others { IfOk result (λ answer. PartReaches answer.showing system.old.tree.forks system.new.tree.forks) }
    ensures printed { IfOk result (Prints t) }
    ensures waits { IfErr result (Waits event_frames system.old system.new) }
    ensures needs { IfErr result (PartNeeds system.old (ABegin t name.now)) }
    ensures core { P.means.flat ≡ true → IsOk result }
{
    match system.jobs[t.0 as usize] {
        Some(_) => look_up(system, t, name),
        None => Ok(printed(t, Told::Nothing, None)),
    }
}

// A fork of a terminal's job is killed. Once the job is gone, nothing is done.
fn kill<P: Pages>(system: &mut System<P>, t: Tty, purpose: Purpose) -> Result<Answer, Need>
    requires terminal { IsTerminal t }
    requires purpose { FitsPurpose purpose }
    ensures does { IfOk result (Does system.old system.new (λ s. deed_of s (AKill t purpose))) }
    ensures fits { IfOk result FitsAnswer }
    ensures others { IfOk result (λ answer. PartReaches answer.showing system.old.tree.forks system.new.tree.forks) }
    ensures printed { IfOk result (Prints t) }
    ensures waits { IfErr result (Waits event_frames system.old system.new) }
    ensures needs { IfErr result (PartNeeds system.old (AKill t purpose)) }
    ensures core { P.means.flat ≡ true → IsOk result }
{
    match system.jobs[t.0 as usize] {
        Some(job) => kill_one(system, t, job, purpose),
        None => Ok(printed(t, Told::Nothing, None)),
    }
}

// What the forks of a terminal's job were killed for is done. Once the job is gone, nothing is done.
fn end<P: Pages>(system: &mut System<P>, t: Tty, purpose: &Purpose) -> Result<Answer, Need>
    requires terminal { IsTerminal t }
    requires purpose { FitsPurpose purpose.now }
    ensures does { IfOk result (Does system.old system.new (λ s. deed_of s (AnEnd t purpose.now))) }
    ensures fits { IfOk result FitsAnswer }
    ensures others { IfOk result (λ answer. PartReaches answer.showing system.old.tree.forks system.new.tree.forks) }
    ensures printed { IfOk result (Prints t) }
    ensures waits { IfErr result (Waits event_frames system.old system.new) }
    ensures needs { IfErr result (PartNeeds system.old (AnEnd t purpose.now)) }
    ensures core { P.means.flat ≡ true → IsOk result }
{
    match system.jobs[t.0 as usize] {
        Some(job) => finish(system, t, job, purpose),
        None => Ok(printed(t, Told::Nothing, None)),
    }
}

/// A part of a character that is typed at a terminal is done. Err: this is needed first, the first page of a program or the map of a fork
/// that goes or begins, and nothing is done.
pub fn part<P: Pages>(system: &mut System<P>, deed: &Deed) -> Result<Answer, Need>
    requires part { IsNext deed.now }
    ensures does { IfOk result (Does system.old system.new (λ s. deed_of s deed.now)) }
    ensures fits { IfOk result FitsAnswer }
    ensures others { IfOk result (λ answer. PartReaches answer.showing system.old.tree.forks system.new.tree.forks) }
    ensures printed { IfOk result (PartPrints deed.now) }
    ensures waits { IfErr result (Waits event_frames system.old system.new) }
    ensures needs { IfErr result (PartNeeds system.old deed.now) }
    ensures core { P.means.flat ≡ true → IsOk result }
    ensures trees { IsTree system.new.tree }
{
    let done = match deed {
        Deed::Typed(t, code) => Ok(type_first(system, *t, *code)),
        Deed::Begin(t, name) => begin(system, *t, name),
        Deed::Kill(t, purpose) => kill(system, *t, *purpose),
        Deed::End(t, purpose) => end(system, *t, purpose),
        // An event that is one deed is no part.
        Deed::Outer(_) => unreachable!(),
    };
    system.tree.are_trees();
    done
}
