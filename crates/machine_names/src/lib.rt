//! The names of what the machine has, and its bounds: terminals, forks, pages, files, texts of
//! fixed room, and the orders of names. To the layers above a name is a number or two, and a text is its bytes.
//! Stands on `outside` for how many words a page has.
#![tactic(auto)]

mod bounds;
pub mod character;
mod names;
mod text;

pub use bounds::bounds_hold;
pub use names::{
    ACCUMULATORS, Access, FILE_PAGES, FileNo, ForkName, Kind, LAST_SERIAL, MOST_FILES, MOST_FORKS,
    PAGE_ADDRESSES, PageName, Place, QUANTUM, SPACE_PAGES, Slot, TERMINALS, Tty,
};
pub use text::{DirName, FileName, Text, TypedText};
