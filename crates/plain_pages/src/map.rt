// Entries of a fork's map, and what they are set to.
use machine_names::{Access, FileNo, ForkName, PageName};

/// An entry of a fork's map (CACM paper, "The memory management"): nothing; a page; or an entry of
/// a fork of the same job, named by its serial, that it follows.
#[derive(Clone, Copy)]
pub enum MapEntry {
    Empty,
    Names(PageName, Access),
    Follows(u32, u16, Access),
}

/// What an entry is set to. Narrow keeps of the access what is given too, and adds the copy mark.
#[derive(Clone, Copy)]
pub enum NewEntry {
    Empty,
    FilePage(FileNo, u16, Access),
    Follows(u32, u16, Access),
    Narrow(Access),
}

/// The map of a new fork: empty, or each entry following the same entry of a fork.
#[derive(Clone, Copy)]
pub enum NewMap {
    Empty,
    FollowAll(ForkName),
}
