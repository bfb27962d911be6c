ghost use Rattle.std.specs.Prelude.{◌≡◌, Ok};

use outside::Memory;
use std::process::Abort;

// What was made, for which there is memory in every test.
pub fn made<T>(rt: &impl Abort, answer: Result<T, Memory>) -> T
    ensures { answer ≡ Ok result }
{
    match answer {
        Ok(made) => made,
        Err(_) => panic!(rt; "no memory"),
    }
}
