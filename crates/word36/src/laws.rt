// What the constants are. A law does nothing when it runs.
ghost use Rattle.std.specs.Prelude.{◌≡◌, ◌-◌, ◌^◌, [], ◌∷◌};
ghost use Rattle.word36.specs.Flags.{no_flags};

use crate::flags::Flags;
use crate::octal::WORD_DIGITS;
use crate::opcodes::{
    ADD, AND, ANDCM, ASH, ASHC, CAI, DIV, HLL, IDIV, IMUL, IOR, JFFO, LSH, LSHC, MOVE, MOVM, MOVN,
    MOVS, MUL, ROT, ROTC, SETA, SETZ, SUB, TRN, TSON, XOR,
};
use crate::word::Word;

/// The masks and opcodes are these numbers, words have as many octal digits as say all of them and
/// no more, and the flags that are clear are none. That `Word::ZERO` is 0 is what `Word::default`
/// promises.
pub fn constants_hold()
    ensures masks { (Word.MASK ≡ 2 ^ 36 - 1) × (Word.MAGNITUDE_MASK ≡ 2 ^ 35 - 1) × (Word.HALF_MASK ≡ 2 ^ 18 - 1) }
    ensures digits { 8 ^ WORD_DIGITS ≡ 2 ^ 36 }
    ensures clear { Flags.CLEAR ≡ no_flags }
    ensures moves { MOVE ∷ MOVS ∷ MOVN ∷ MOVM ∷ [] ≡ 0o200 ∷ 0o204 ∷ 0o210 ∷ 0o214 ∷ [] }
    ensures arithmetic { IMUL ∷ MUL ∷ IDIV ∷ DIV ∷ ADD ∷ SUB ∷ CAI ∷ [] ≡ 0o220 ∷ 0o224 ∷ 0o230 ∷ 0o234 ∷ 0o270 ∷ 0o274 ∷ 0o300 ∷ [] }
    ensures shifts { ASH ∷ ROT ∷ LSH ∷ JFFO ∷ ASHC ∷ ROTC ∷ LSHC ∷ [] ≡ 0o240 ∷ 0o241 ∷ 0o242 ∷ 0o243 ∷ 0o244 ∷ 0o245 ∷ 0o246 ∷ [] }
    ensures booleans { SETZ ∷ AND ∷ ANDCM ∷ SETA ∷ XOR ∷ IOR ∷ [] ≡ 0o400 ∷ 0o404 ∷ 0o420 ∷ 0o424 ∷ 0o430 ∷ 0o434 ∷ [] }
    ensures others { HLL ∷ TRN ∷ TSON ∷ [] ≡ 0o500 ∷ 0o600 ∷ 0o677 ∷ [] }
{}
