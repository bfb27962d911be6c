// Members of the balance set.
use machine_names::ForkName;
use page_contracts::Need;

/// A member of the balance set, and its number there.
#[derive(Clone, Copy)]
pub struct Member {
    pub fork: ForkName,
    pub seat: u16,
}

/// A member in page wait, and what it waits for.
#[derive(Clone, Copy)]
pub struct Waiter {
    pub fork: ForkName,
    pub seat: u16,
    pub need: Need,
}
