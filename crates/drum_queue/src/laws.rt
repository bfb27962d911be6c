// What follows from the definitions, in the words of their users. A law does nothing when it runs.
ghost use Rattle.std.specs.Prelude.{List, [], ◌++◌};
ghost use Rattle.drum_queue.specs.History.{AreAmong, Deed, begun, ended, left};

/// Whatever is done to a queue that is empty at first, a transfer begins before it ends, and those
/// that ended, with those that are left behind them, are among those that began, in the same order.
pub fn transfers_end_in_order()
    ensures { (ds : List Deed) → AreAmong (ended [] ds ++ left [] ds) (begun ds) }
{}
