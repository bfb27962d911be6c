// What a typed character is read as.
ghost use Rattle.std.specs.Prelude.{◌≡◌};
ghost use Rattle.plain_typing.specs.Characters.{read_as as is_read_as};

use machine_names::character::{CARRIAGE_RETURN, LINE_END};

/// What a typed character is read as: a carriage return as the end of the line, each other one as
/// itself.
pub fn read_as(code: u8) -> u8
    ensures { result ≡ is_read_as code }
{
    if code == CARRIAGE_RETURN {
        LINE_END
    } else {
        code
    }
}
