// The machine that the words of the command ask for.
ghost use Rattle.std.specs.Prelude.{◌≡◌, ◌≤◌, IfOk, IfErr};
ghost use Rattle.page_homes.specs.declared.homes.TheConstants.{MOST_HOMES};
ghost use Rattle.command_words.specs.declared.request.Request.{Request as ARequest};
ghost use Rattle.command_words.specs.declared.sizes.TheConstants.{LEAST_FRAMES, MOST_FRAMES};
ghost use Rattle.script_driver.specs.Driving.{IsBooted};
ghost use Rattle.run_console.specs.Booting.{AreNewPages};
ghost use Rattle.run_console.specs.Command.{IsAsked};
ghost use Rattle.run_console.specs.Headline.{IsTrueOf, status_of};

use command_words::{EventSource, Sizes, asked_run};
use known_slots::KnownSlots;
use outside::Memory;
use page_contracts::Pages;
use paged_events::Machine;
use paged_store::PagedStore;
use paged_system::{Paged, boot as boot_waits};
use slot_paged::SlotPaged;
use std::alloc::Global;
use texts::Status;

/// Why a run did not begin.
#[derive(Clone, Copy, PartialEq, Eq)]
pub enum Unbegun {
    /// The words are wrong, or the drum has fewer pages than they ask for.
    Usage,
    /// There was no memory for the words or for the machine.
    Memory,
}

impl Unbegun {
    /// The status of a run that did not begin.
    pub fn status(self) -> Status
        ensures { result ≡ status_of self }
    {
        match self {
            Unbegun::Usage => Status::Usage,
            Unbegun::Memory => Status::Memory,
        }
    }
}

impl From<Memory> for Unbegun {
    ghost use Rattle.std.specs.Prelude.{◌≡◌};
    ghost use Rattle.run_console.specs.declared.asked.Unbegun.TheVariants.{Memory as NoMemory};

    ghost from_gives = { λ _ why. why ≡ NoMemory };

    fn from(_memory: Memory) -> Self {
        Unbegun::Memory
    }
}

/// A machine on frames and a drum.
pub type FramedMachine = Machine<Paged<KnownSlots<PagedStore>>>;

/// Which events the words ask for, and a machine of the sizes that they ask for, where a drum of so many pages has
/// enough of them; or why there is none. Nothing is booted before the words and the drum are looked at.
pub fn asked_machine(
    alloc: Global,
    words: &[String],
    drum_pages: u32,
) -> Result<(EventSource, FramedMachine), Unbegun>
    ensures booted { IfOk result (λ p. (request : ARequest) × IsAsked words.now drum_pages request × (p.0 ≡ request.events) × IsBooted request.sizes.frames request.sizes.drum p.1) }
    ensures why { IfErr result (IsTrueOf words.now drum_pages) }
{
    let Some(request) = asked_run(alloc, words)? else {
        return Err(Unbegun::Usage);
    };
    if request.sizes.drum > drum_pages {
        return Err(Unbegun::Usage);
    }
    let machine = boot(alloc, request.sizes)?;
    Ok((request.events, machine))
}

// New pages in frames and on a drum of these sizes: no fork and no page.
fn boot_pages(alloc: Global, sizes: Sizes) -> Result<KnownSlots<PagedStore>, Memory>
    requires { sizes.drum ≤ MOST_HOMES }
    ensures { IfOk result (AreNewPages ⟦<KnownSlots<PagedStore> as Pages>⟧.means sizes.frames sizes.drum) }
{
    let store = PagedStore::boot(alloc, sizes.frames, sizes.drum)?;
    let slots = SlotPaged::boot(alloc, store, sizes.drum)?;
    KnownSlots::over(alloc, slots)
}

// A new machine of these sizes, on frames and a drum. Its balance set has as many members as the frames have room for.
fn boot(alloc: Global, sizes: Sizes) -> Result<FramedMachine, Memory>
    requires least_frames { LEAST_FRAMES ≤ sizes.frames }
    requires most_frames { sizes.frames ≤ MOST_FRAMES }
    requires most_pages { sizes.drum ≤ MOST_HOMES }
    ensures { IfOk result (IsBooted sizes.frames sizes.drum) }
{
    let pages = boot_pages(alloc, sizes)?;
    let set = pages.members();
    let waits = boot_waits(alloc, set, pages)?;
    Ok(Machine::new(waits))
}
