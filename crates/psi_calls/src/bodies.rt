// Forks with other interrupts.
ghost use Rattle.std.specs.Prelude.{◌≡◌, Some, false, true};
ghost use Rattle.plain_model.specs.Interrupts.{with_channels as with_channels_of, without_channels as without_channels_of, woken as woken_of};
ghost use Rattle.plain_model.specs.InterruptCalls.{awake as awake_of, with_psi};
ghost use Rattle.job_forks.specs.Limits.{IsBody};

use fork_tree::wants_one;
use ka10_alu::boolean;
use plain_model::{Body, Psi};
use script_texts::ForkStatus;
use word36::Word;
use word36::opcodes::{ANDCM, IOR};

// The status of a fork that waited, and goes on.
fn woken(status: ForkStatus) -> ForkStatus
    ensures { result ≡ woken_of status }
{
    match status {
        ForkStatus::Wait(_) => ForkStatus::Run,
        ForkStatus::Run | ForkStatus::Halted | ForkStatus::Forced(_) => status,
    }
}

// A fork goes on, where it waits and an active channel is pending.
fn awake(mut body: Body) -> Body
    ensures awake { result ≡ awake_of body }
    ensures units { result.units ≡ body.units }
    ensures within { IsBody body → IsBody result }
{
    if wants_one(&body.psi) {
        body.status = woken(body.status);
    }
    body
}

/// A fork with a level table and a channel table, LEVTAB,,CHNTAB.
pub fn with_table(mut body: Body, table: Word) -> Body
    ensures psi { result ≡ with_psi body (record body.psi { table = Some table }) }
    ensures within { IsBody body → IsBody result }
{
    body.psi.table = Some(table);
    body
}

/// A fork whose interrupts are on; it goes on, where it waits and an active channel is pending.
pub fn switched_on(mut body: Body) -> Body
    ensures psi { result ≡ awake_of (with_psi body (record body.psi { on = true })) }
    ensures units { result.units ≡ body.units }
    ensures within { IsBody body → IsBody result }
{
    body.psi.on = true;
    awake(body)
}

/// A fork whose interrupts are off. What is active or pending stays so.
pub fn switched_off(mut body: Body) -> Body
    ensures psi { result ≡ with_psi body (record body.psi { on = false }) }
    ensures within { IsBody body → IsBody result }
{
    body.psi.on = false;
    body
}

/// A fork with these channels active besides; it goes on, where it waits and an active channel is pending.
pub fn with_channels(mut body: Body, channels: Word) -> Body
    ensures psi { result ≡ awake_of (with_psi body (record body.psi { active = with_channels_of body.psi.active channels })) }
    ensures units { result.units ≡ body.units }
    ensures within { IsBody body → IsBody result }
{
    let psi = body.psi;
    body.psi = Psi {
        active: boolean(IOR, psi.active, channels),
        ..psi
    };
    awake(body)
}

/// A fork with these channels neither active nor pending.
pub fn without_channels(mut body: Body, channels: Word) -> Body
    ensures psi { result ≡ with_psi body (record body.psi { active = without_channels_of body.psi.active channels; pending = without_channels_of body.psi.pending channels }) }
    ensures within { IsBody body → IsBody result }
{
    let psi = body.psi;
    body.psi = Psi {
        active: boolean(ANDCM, psi.active, channels),
        pending: boolean(ANDCM, psi.pending, channels),
        ..psi
    };
    body
}
