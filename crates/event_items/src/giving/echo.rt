// What a terminal shows of a character that is typed, given to a taker.
ghost use Rattle.std.specs.Prelude.{◌∷◌, ◌++◌, []};
ghost use Rattle.machine_names.specs.Bounds.{IsTerminal};
ghost use Rattle.machine_names.specs.declared.character.TheConstants.{PROMPT};
ghost use Rattle.plain_model.specs.Commands.{with_line_end};
ghost use Rattle.plain_model.specs.Unit.{printed};
ghost use Rattle.step_shown.specs.Echoes.{FitsEcho, complaint_text, echo_items, told_items};
ghost use Rattle.event_items.specs.Giving.{TookItems};
ghost use Rattle.monitor_core.specs.Systems.{state_of};

use crate::giving::listing::give_files;
use crate::giving::text::{give_code, give_text};
use crate::giving::unit::give_stop;
use machine_names::Tty;
use machine_names::character::LINE_END;
use monitor_core::System;
use outside::Failed;
use page_contracts::Pages;
use script_texts::Taker;
use step_shown::{Complaint, Echo, Told};

// Gives why a command isn't done, and the prompt.
fn give_complaint<T: Taker>(why: Complaint, t: Tty, out: &mut T) -> Result<(), Failed>
    requires terminal { IsTerminal t }
    ensures { TookItems T.fault_count T.onward T.stands T.cut out.old out.new result (λ d. printed t (with_line_end (complaint_text why) ++ PROMPT ∷ [])) }
{
    give_text(out, t, why.text())?;
    give_text(out, t, b"\r\n@")
}

/// Gives what a command prints.
pub fn give_told<P: Pages, T: Taker>(
    system: &System<P>,
    t: Tty,
    told: Told,
    out: &mut T,
) -> Result<(), Failed>
    requires terminal { IsTerminal t }
    ensures { TookItems T.fault_count T.onward T.stands T.cut out.old out.new result (λ d. told_items t told (state_of system.now d)) }
{
    match told {
        Told::Nothing => Ok(()),
        Told::Prompt => give_text(out, t, b"@"),
        Told::Refused(why) => give_complaint(why, t, out),
        Told::Files(user) => {
            give_files(system.files(), &user, t, out)?;
            give_text(out, t, b"@")
        }
    }
}

/// Gives what a terminal shows of a character that is typed.
#[inline(never)]
pub fn give_echo<P: Pages, T: Taker>(
    system: &System<P>,
    t: Tty,
    shown: Echo,
    out: &mut T,
) -> Result<(), Failed>
    requires terminal { IsTerminal t }
    requires fits { FitsEcho shown }
    ensures { TookItems T.fault_count T.onward T.stands T.cut out.old out.new result (λ d. echo_items t shown (state_of system.now d)) }
{
    match shown {
        Echo::Nothing => Ok(()),
        Echo::Shows(code) => give_code(out, t, code),
        Echo::Wakes(code) => give_code(out, t, code),
        Echo::Bell => give_text(out, t, b"\x07"),
        Echo::Stops => give_text(out, t, b"^C\r\n@"),
        Echo::Posts(t, stop) => give_stop(out, t, stop),
        Echo::Ends(told) => {
            give_code(out, t, LINE_END)?;
            give_told(system, t, told, out)
        }
    }
}
