//! The opcodes of the integer operations; of an instruction with modes it is the first of its four
//! (PDP-10 handbook, "User operations").

/// A word moved.
pub const MOVE: u16 = 0o200;

/// A word moved with its halves swapped.
pub const MOVS: u16 = 0o204;

/// A word moved negated.
pub const MOVN: u16 = 0o210;

/// A word's magnitude moved.
pub const MOVM: u16 = 0o214;

/// The product in one word.
pub const IMUL: u16 = 0o220;

/// The product in two words.
pub const MUL: u16 = 0o224;

/// The quotient of a word.
pub const IDIV: u16 = 0o230;

/// The quotient of two words.
pub const DIV: u16 = 0o234;

/// The arithmetic shift.
pub const ASH: u16 = 0o240;

/// The rotation.
pub const ROT: u16 = 0o241;

/// The logical shift.
pub const LSH: u16 = 0o242;

/// The search for the first one.
pub const JFFO: u16 = 0o243;

/// The arithmetic shift of two words.
pub const ASHC: u16 = 0o244;

/// The rotation of two words.
pub const ROTC: u16 = 0o245;

/// The logical shift of two words.
pub const LSHC: u16 = 0o246;

/// The sum.
pub const ADD: u16 = 0o270;

/// The difference.
pub const SUB: u16 = 0o274;

/// The first comparison, behind the sums.
pub const CAI: u16 = 0o300;

/// The first of the sixteen Boolean functions: zeros.
pub const SETZ: u16 = 0o400;

/// The Boolean function 'and'.
pub const AND: u16 = 0o404;

/// The Boolean function 'and with the complement of memory'.
pub const ANDCM: u16 = 0o420;

/// The Boolean function that leaves the accumulator.
pub const SETA: u16 = 0o424;

/// The Boolean function 'exclusive or'.
pub const XOR: u16 = 0o430;

/// The Boolean function 'inclusive or'.
pub const IOR: u16 = 0o434;

/// The first halfword move, behind the Boolean functions.
pub const HLL: u16 = 0o500;

/// The first test of masked bits, behind the halfword moves.
pub const TRN: u16 = 0o600;

/// The last test of masked bits.
pub const TSON: u16 = 0o677;
