// Bounds of the definitions, and what they say of what a new machine has.
ghost use Rattle.std.specs.Prelude.{◌≡◌, ℕ, length};
ghost use Rattle.plain_model.specs.State.{opening};
ghost use Rattle.plain_model.specs.Forks.{first_regs};

use machine_names::{ACCUMULATORS, MOST_FORKS, QUANTUM, TERMINALS};

/// How many entries of one RUN in a row may pass a fork over that can run: fewer than so many, a quantum for each of the forks that may
/// live.
pub const MOST_PASSED: u32 = QUANTUM * TERMINALS as u32 * MOST_FORKS as u32;

/// Each terminal has a serial from the start, and a fork its accumulators.
pub fn start_bounds_hold()
    ensures terminals { (n : ℕ) → length (opening n).fork_serials ≡ TERMINALS }
    ensures accumulators { length first_regs.ac ≡ ACCUMULATORS }
{}
