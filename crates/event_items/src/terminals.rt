// Of whose job an event, or a character that is typed, may change forks.
ghost use Rattle.std.specs.Prelude.{MatchOption};
ghost use Rattle.machine_names.specs.Bounds.{IsTerminal};
ghost use Rattle.script_texts.specs.Limits.{FitsEvent};
ghost use Rattle.step_shown.specs.Echoes.{FitsEcho};
ghost use Rattle.event_items.specs.Terminals.{IsAt, IsNowhere, IsOf, IsOfNone};

use machine_names::Tty;
use script_texts::Event;
use step_shown::Echo;

/// The terminal of whose job an event may change forks. None, where it is an event of no terminal.
pub fn event_terminal(e: &Event) -> Option<Tty>
    requires { FitsEvent e.now }
    ensures { MatchOption result (IsOfNone e.now) (IsOf e.now) }
{
    match e {
        Event::Login(t, _) => Some(*t),
        Event::Poke(t, _, _) => Some(*t),
        Event::Start(t, _) => Some(*t),
        Event::Examine(t, _, _) => Some(*t),
        Event::Forks(t) => Some(*t),
        _ => None,
    }
}

/// The terminal of whose job a character may change forks, which was typed at a terminal and shows this. None, where it changes none.
pub fn echo_terminal(t: Tty, shown: &Echo) -> Option<Tty>
    requires terminal { IsTerminal t }
    requires fits { FitsEcho shown.now }
    ensures { MatchOption result (IsNowhere t shown.now) (IsAt t shown.now) }
{
    match shown {
        Echo::Shows(_) => None,
        Echo::Bell => None,
        Echo::Posts(u, _) => Some(*u),
        Echo::Nothing => Some(t),
        Echo::Wakes(_) => Some(t),
        Echo::Stops => Some(t),
        Echo::Ends(_) => Some(t),
    }
}
