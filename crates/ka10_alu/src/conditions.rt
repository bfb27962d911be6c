// Conditions of numbers.
ghost use Rattle.std.specs.Prelude.{◌≡◌, ◌<◌};
ghost use Rattle.word36.specs.Tests.{condition_holds};

/// Whether a number meets a condition, one of eight, against 0 (PDP-10 handbook, "Arithmetic
/// testing"): never, less, equal, less or equal, always, greater or equal, not equal, greater.
#[inline(always)]
pub fn holds(condition: u8, n: i64) -> bool
    requires { condition < 8 }
    ensures { result ≡ condition_holds condition n }
{
    match condition {
        0 => false,
        1 => n < 0,
        2 => n == 0,
        3 => n <= 0,
        4 => true,
        5 => n >= 0,
        6 => n != 0,
        _ => n > 0,
    }
}
