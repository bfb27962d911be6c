// Items and steps that nobody keeps.
ghost use Rattle.std.specs.Prelude.{◌≡◌, Ok};

use outside::Failed;
use script_texts::{Item, Step, Taker};

/// Takes every item and step, and keeps none. Its count of faults is 0 for good, and it stands for whatever it was given.
#[derive(Drop)]
pub(crate) struct Unheard;

impl Taker for Unheard {
    ghost fault_count = { λ _. 0 };

    ghost onward = { λ _ _. Unit {0} };

    ghost stands = { λ _ _ _ _. Unit {0} };

    ghost cut = { λ _ _ _ _. Unit {0} };

    ghost handed_on = { λ _. Unit {0} };

    fn faults(&self) -> u64 {
        0
    }

    fn item(&mut self, _item: Item) -> Result<(), Failed>
        ensures { result ≡ Ok tt }
    {
        Ok(())
    }

    fn step(&mut self, _step: Step) -> Result<(), Failed>
        ensures { result ≡ Ok tt }
    {
        Ok(())
    }

    fn turns(&mut self, _step: Step, _count: u64) -> Result<(), Failed>
        ensures { result ≡ Ok tt }
    {
        Ok(())
    }

    fn flush(&mut self) -> Result<(), Failed>
        ensures { result ≡ Ok tt }
    {
        Ok(())
    }
}
