// A character that is typed, with all its parts, over pages in memory alone, where none needs anything first.
ghost use Rattle.std.specs.Prelude.{◌≡◌, ◌<◌, true};
ghost use Rattle.machine_names.specs.Bounds.{IsTerminal};
ghost use Rattle.plain_model.specs.TypeEvents.{typed_at};
ghost use Rattle.event_deeds.specs.Deeds.{IsNext, deeds};
ghost use Rattle.step_shown.specs.Echoes.{FitsEcho, echo_items, told_items};
ghost use Rattle.monitor_core.specs.Reaching.{ChangesJob};
ghost use Rattle.monitor_typing.specs.Reaching.{EchoReaches};
ghost use Rattle.monitor_typing.specs.Deeds.{IsBehind};
ghost use Rattle.monitor_typing.specs.Effects.{Has};

use crate::characters::type_first;
use crate::deeds::part;
use event_deeds::{Deed, Showing};
use machine_names::Tty;
use monitor_core::System;
use page_contracts::Pages;
use step_shown::{Echo, Told};

// As many parts as may come behind the end of a line.
const MOST_BEHIND: u8 = 33;

// A part of a command is done, and those that come behind it, so many at most. What the last prints; those before it print nothing.
fn end_command<P: Pages>(system: &mut System<P>, t: Tty, deed: &Deed, left: u8) -> Told
    requires flat { P.means.flat ≡ true }
    requires part { IsNext deed.now }
    requires behind { IsBehind t deed.now }
    ensures has { Has system.old system.new (λ s. deeds left s deed.now) (told_items t result) }
    ensures others { ChangesJob t system.old.tree.forks system.new.tree.forks }
{
    if left == 0 {
        return Told::Nothing;
    }
    match part(system, deed) {
        Ok(answer) => match answer.next {
            Some(next) => end_command(system, t, &next, left - 1),
            None => match answer.showing {
                Showing::Told(_, told) => told,
                // A part of a command prints.
                _ => unreachable!(),
            },
        },
        // Pages in memory alone need nothing first.
        Err(_) => unreachable!(),
    }
}

/// A character is typed at a terminal. Once its job is gone, nothing is done.
pub fn type_one<P: Pages>(system: &mut System<P>, t: Tty, c: u8) -> Echo
    requires terminal { IsTerminal t }
    requires flat { P.means.flat ≡ true }
    requires code { c < 128 }
    ensures has { Has system.old system.new (λ s. typed_at s t c) (echo_items t result) }
    ensures fits { FitsEcho result }
    ensures others { EchoReaches t result system.old.tree.forks system.new.tree.forks }
{
    system.tree.are_trees();
    let first = type_first(system, t, c);
    match first.next {
        Some(next) => Echo::Ends(end_command(system, t, &next, MOST_BEHIND)),
        None => match first.showing {
            Showing::Echo(_, shown) => shown,
            // A character shows what its terminal shows of it.
            _ => unreachable!(),
        },
    }
}
