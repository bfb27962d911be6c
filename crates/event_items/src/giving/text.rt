// Characters that a terminal prints, given to a taker.
ghost use Rattle.std.specs.Prelude.{◌<◌, All};
ghost use Rattle.machine_names.specs.Bounds.{IsTerminal};
ghost use Rattle.plain_model.specs.Unit.{printed, shown_code};
ghost use Rattle.event_items.specs.Giving.{TookItems};

use machine_names::Tty;
use machine_names::character::LINE_END;
use outside::Failed;
use script_texts::{Item, Taker};

/// Gives the characters that a terminal prints.
pub fn give_text<T: Taker>(out: &mut T, t: Tty, text: &[u8]) -> Result<(), Failed>
    requires terminal { IsTerminal t }
    requires codes { All (λ c. c < 128) text.now }
    ensures { TookItems T.fault_count T.onward T.stands T.cut out.old out.new result (λ d. printed t text.now) }
{
    for code in text {
        out.item(Item::Char(t, *code))?;
    }
    Ok(())
}

/// Gives a character that a terminal prints: the end of a line prints as two.
pub fn give_code<T: Taker>(out: &mut T, t: Tty, code: u8) -> Result<(), Failed>
    requires terminal { IsTerminal t }
    requires code { code < 128 }
    ensures { TookItems T.fault_count T.onward T.stands T.cut out.old out.new result (λ d. printed t (shown_code code)) }
{
    if code == LINE_END {
        give_text(out, t, b"\r\n")
    } else {
        out.item(Item::Char(t, code))
    }
}
