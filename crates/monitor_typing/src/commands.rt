// The commands of a terminal's job to the monitor.
ghost use Rattle.std.specs.Prelude.{◌≡◌, IfSome, None};
ghost use Rattle.machine_names.specs.Bounds.{IsTerminal};
ghost use Rattle.plain_model.specs.Commands.{commanded, delete_file as delete_file_of, go_on as go_on_of, start_again as start_again_of};
ghost use Rattle.event_deeds.specs.Deeds.{IsNext};
ghost use Rattle.file_tables.specs.Tables.{files_of};
ghost use Rattle.step_shown.specs.Echoes.{told_items};
ghost use Rattle.monitor_typing.specs.Deeds.{IsBehind, begins_with};
ghost use Rattle.monitor_typing.specs.Effects.{Has, HasJobAt, job_in};
ghost use Rattle.monitor_core.specs.Reaching.{ChangesJob};

use console_access::start;
use event_deeds::{Deed, Purpose};
use job_commands::{delete, go_on};
use machine_names::{FileName, Tty};
use monitor_calls::Job;
use monitor_core::System;
use page_contracts::Pages;
use plain_typing::Command;
use step_shown::{Complaint, Told};

// The deed that a command begins, where it isn't done at once: RUN of a file that is there, and LOGOUT.
pub(crate) fn begins<P: Pages>(system: &System<P>, t: Tty, command: &Command) -> Option<Deed>
    requires terminal { IsTerminal t }
    ensures begins { result ≡ begins_with (files_of system.now.files) t command.now }
    ensures fits { IfSome result IsNext }
    ensures behind { IfSome result (IsBehind t) }
{
    match command {
        Command::Run(name) => match system.files.find(name) {
            Some(file) => Some(Deed::Begin(t, system.files.name_of(file))),
            None => None,
        },
        Command::Logout => Some(Deed::Kill(t, Purpose::Logout)),
        _ => None,
    }
}

// START: the top fork runs at the start address of the last program that was run.
fn start_again<P: Pages>(system: &mut System<P>, t: Tty, job: Job) -> Told
    requires terminal { IsTerminal t }
    requires job { HasJobAt system.old t job }
    ensures has { Has system.old system.new (λ s. start_again_of s t (job_in system.old t job)) (told_items t result) }
    ensures others { ChangesJob t system.old.tree.forks system.new.tree.forks }
{
    let Some(word) = job.start else {
        return Told::Refused(Complaint::NoProgram);
    };
    system.tree.are_trees();
    start(&mut system.tree, job.top, word.right());
    system.tree.are_trees();
    system.jobs[t.0 as usize] = Some(job.in_program());
    Told::Nothing
}

// CONTINUE: the top fork goes on where it stands.
fn resume<P: Pages>(system: &mut System<P>, t: Tty, job: Job) -> Told
    requires terminal { IsTerminal t }
    requires job { HasJobAt system.old t job }
    ensures has { Has system.old system.new (λ s. go_on_of s t (job_in system.old t job)) (told_items t result) }
    ensures others { ChangesJob t system.old.tree.forks system.new.tree.forks }
{
    system.tree.are_trees();
    if !go_on(job.top, &mut system.tree) {
        return Told::Refused(Complaint::Cannot);
    }
    system.tree.are_trees();
    system.jobs[t.0 as usize] = Some(job.in_program());
    Told::Nothing
}

// DELETE: a file is removed.
fn delete_file<P: Pages>(system: &mut System<P>, t: Tty, name: &FileName) -> Told
    ensures has { Has system.old system.new (λ s. delete_file_of s t name.now) (told_items t result) }
    ensures others { ChangesJob t system.old.tree.forks system.new.tree.forks }
{
    let Some(file) = system.files.find(name) else {
        return Told::Refused(Complaint::NoFile);
    };
    match delete(file, &mut system.files, &mut system.pages) {
        Ok(()) => Told::Prompt,
        Err(_) => Told::Refused(Complaint::Busy),
    }
}

/// A command of a terminal's job that is done at once, and what it prints.
pub(crate) fn do_command<P: Pages>(
    system: &mut System<P>,
    t: Tty,
    job: Job,
    command: &Command,
) -> Told
    requires terminal { IsTerminal t }
    requires job { HasJobAt system.old t job }
    requires whole { begins_with (files_of system.old.files) t command.now ≡ None }
    ensures has { Has system.old system.new (λ s. commanded s t (job_in system.old t job) command.now) (told_items t result) }
    ensures others { ChangesJob t system.old.tree.forks system.new.tree.forks }
{
    match command {
        Command::Blank => Told::Prompt,
        // There is no such file.
        Command::Run(_) => Told::Refused(Complaint::NoFile),
        Command::Start => start_again(system, t, job),
        Command::Continue => resume(system, t, job),
        Command::Directory => Told::Files(job.user),
        Command::Delete(name) => delete_file(system, t, name),
        // It isn't done at once.
        Command::Logout => unreachable!(),
        Command::Unknown => Told::Refused(Complaint::Unknown),
    }
}
