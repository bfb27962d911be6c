// Numbers that are drawn.
ghost use Rattle.std.specs.Prelude.{◌≡◌, ◌<◌, ◌^◌};
ghost use Rattle.script_lang.specs.Generator.{drawn, first_number, next_number};

// The numbers of the sequence are below this.
const MODULUS: u64 = 1 << 31;

/// A sequence of numbers, of which a seed gives the first.
#[derive(Clone, Copy)]
pub(crate) struct Draws {
    pub last: u32,
    ghost small: { last < 2 ^ 31 },
}

impl Draws {
    /// The sequence of a seed.
    pub fn new(seed: u32) -> Self
        ensures { result.last ≡ first_number seed }
    {
        Draws {
            last: (u64::from(seed) % MODULUS) as u32,
        }
    }

    /// The next number, taken below a bound.
    pub fn draw(&mut self, bound: u32) -> u32
        requires { 0 < bound }
        ensures value { result ≡ drawn bound self.old.last }
        ensures below { result < bound }
        ensures last { self.new.last ≡ next_number self.old.last }
    {
        let next = (1_103_515_245 * u64::from(self.last) + 12345) % MODULUS;
        *self = Draws { last: next as u32 };
        self.last / 65536 % bound
    }
}
