// What the definitions of pages say of the bounds.
ghost use Rattle.std.specs.Prelude.{◌≡◌, length};
ghost use Rattle.plain_pages.specs.PlainPages.{NamedPages, page_serial};
ghost use Rattle.plain_pages.specs.NewMaps.{empty_map};

use machine_names::{SPACE_PAGES, Tty};

/// A new map has an entry for each page of a space, and the console has a serial of its own.
pub fn page_bounds_hold()
    ensures pages { length empty_map ≡ SPACE_PAGES }
    ensures console { (p : NamedPages) → page_serial p Tty.CONSOLE ≡ p.console_serial }
{}
