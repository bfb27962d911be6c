// Byte pointers: the fields P, S and Y, and the pointer to the next byte.
ghost use Rattle.std.specs.Prelude.{◌≡◌, ◌+◌, ◌-◌, ◌*◌, ◌%◌, ◌<◌, ◌^◌};
ghost use Rattle.word36.specs.Bytes.{incremented, position, size};

use word36::Word;

// The bits of P, and of S.
const FIELD: u32 = 0o77;

// How many bits stand to the right of P in the left half: those of S, I and X.
const FIELDS_BITS: u32 = 12;

// The bits of S, I and X in the left half.
const FIELDS: u32 = 0o7777;

// How many bits a word has.
const WORD_BITS: u32 = 36;

/// P: how many bits stand to the right of the byte, below 64.
#[inline]
pub fn position_of(p: Word) -> u32
    ensures value { result ≡ position p }
    ensures below { result < 64 }
{
    (p.value() >> 30) as u32
}

/// S: how many bits the byte has, below 64.
#[inline]
pub fn size_of_byte(p: Word) -> u32
    ensures value { result ≡ size p }
    ensures below { result < 64 }
{
    (p.value() >> 24) as u32 & FIELD
}

/// As many ones as the byte has bits.
#[inline]
pub fn ones_of(size: u32) -> u64
    requires { size < 64 }
    ensures { result ≡ 2 ^ size - 1 }
{
    (1 << size) - 1
}

// A pointer with another P and another address, and the fields of its left half between them.
#[inline]
fn with_position(left: u32, position: u32, address: u32) -> Word
    requires left { left < 2 ^ 18 }
    requires position { position < 64 }
    requires address { address < 2 ^ 18 }
    ensures { result ≡ position * 2 ^ 30 + left % 2 ^ 12 * 2 ^ 18 + address }
{
    Word::join(position << FIELDS_BITS | left & FIELDS, address)
}

/// The pointer to the next byte, as IBP, ILDB and IDPB leave it (PDP-10 handbook, "Byte
/// manipulation"). Where P is at least S the byte is in the same word; else P becomes 36 minus S
/// modulo 64, and the address grows by 1 modulo 2^18, without a carry into other fields.
#[inline]
#[tactic(auto, unfolding(word36::specs::Bytes::incremented))]
pub fn increment(p: Word) -> Word
    ensures { result ≡ incremented p }
{
    let position = position_of(p);
    let size = size_of_byte(p);
    if size <= position {
        with_position(p.left(), position - size, p.right())
    } else {
        let first = WORD_BITS + (FIELD + 1) - size & FIELD;
        with_position(p.left(), first, p.right() + 1 & Word::HALF_MASK)
    }
}
