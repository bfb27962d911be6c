// What a turn of a call answers.
use plain_units::Regs;
use script_texts::WaitOn;

/// What one turn of a monitor call answers. All but `After` leave what calls change as it was.
#[derive(Clone, Copy)]
pub enum Answer {
    /// The call is done: its registers, a character that it prints, and a channel that it posts to its fork.
    After {
        regs: Regs,
        out: Option<u8>,
        post: Option<u8>,
    },
    Wait(WaitOn),
    Halt,
    /// A call with one return is refused, with an error code.
    Refused(u32),
    /// A call with two returns is refused, with an error code, and returns by the first.
    Failed(u32),
    /// The unit traps, with a channel.
    Trap(u8),
    /// The turn wants a page or a frame first.
    Need(page_contracts::Need),
}
