// The names of instructions and monitor calls.
ghost use Rattle.std.specs.Prelude.{◌≡◌, ◌<◌, ◌≤◌, ◌^◌, length, IfSome, None, Some};
ghost use Rattle.asm_core.specs.Cutting.{pieces};
ghost use Rattle.asm_core.specs.Names.{arithmetic, call_of, in_groups, jumps, logic, meaning, of_group, of_stem, opcode_of};

use crate::cutting::cut;

/// The numbers of the monitor calls that a program can name, in the order of their names below.
#[rattlefmt::skip]
pub static CALL_NUMBERS: [u16; 43] = [
    0o12, 0o14, 0o15, 0o20, 0o21, 0o22, 0o23, 0o26, 0o27, 0o36, 0o43,
    0o50, 0o51, 0o52, 0o53, 0o56, 0o57, 0o60, 0o61, 0o73, 0o74, 0o76,
    0o125, 0o126, 0o130, 0o131, 0o132, 0o133, 0o136, 0o137, 0o140,
    0o152, 0o153, 0o154, 0o155, 0o156, 0o157, 0o160, 0o161, 0o162, 0o163, 0o167, 0o170,
];

/// The number of the monitor call that a word names.
pub(crate) fn call_of(word: &[u8]) -> Option<u16>
    ensures { result ≡ call_of word.now }
{
    let mut names: &[u8] = b"GETER TIME RUNTM GTJFN OPENF CLOSF RLJFN DELF SFPTR SIZEF RFPTR \
        BIN BOUT SIN SOUT PMAP RPACS SPACS RMAP PBIN PBOUT PSOUT \
        SIR EIR DIR AIC IIC DIC DEBRK ATI DTI \
        CFORK KFORK FFORK RFORK RFSTS SFORK SFACS RFACS HFORK WFORK DISMS HALTF ";
    for number in CALL_NUMBERS.iter() {
        let (name, others) = cut(names, b' ')?;
        if name == word {
            return Some(*number);
        }
        names = others;
    }
    None
}

/// The opcode that a word names.
#[tactic(auto, unfolding(crate::specs::Names::opcode_of))]
pub(crate) fn opcode_of(word: &[u8]) -> Option<u16>
    ensures value { result ≡ opcode_of word.now }
    ensures below { IfSome result (λ op. op < 512) }
{
    if let Some(op) = arithmetic(word) {
        return Some(op);
    }
    if let Some(op) = jump(word) {
        return Some(op);
    }
    logic(word)
}

// The endings of the modes basic, immediate, memory and own.
const MODES_TO_OWN: &[u8] = b" I M S ";

// The endings of the modes basic, immediate, memory and both.
const MODES_TO_BOTH: &[u8] = b" I M B ";

// The opcodes of moves, byte instructions, shifts and arithmetic.
fn arithmetic(word: &[u8]) -> Option<u16>
    ensures { result ≡ in_groups arithmetic word.now }
{
    if let Some(op) = in_group(word, 0o133, 1, b"IBP ILDB LDB IDPB DPB ", 1, b" ") {
        return Some(op);
    }
    if let Some(op) = in_group(word, 0o200, 4, b"MOVE MOVS MOVN MOVM ", 1, MODES_TO_OWN) {
        return Some(op);
    }
    if let Some(op) = in_group(word, 0o220, 4, b"IMUL MUL IDIV DIV ", 1, MODES_TO_BOTH) {
        return Some(op);
    }
    if let Some(op) = in_group(word, 0o240, 1, b"ASH ROT LSH JFFO ASHC ROTC LSHC ", 1, b" ") {
        return Some(op);
    }
    in_group(word, 0o270, 4, b"ADD SUB ", 1, MODES_TO_BOTH)
}

// The opcodes of jumps, skips and the stack.
fn jump(word: &[u8]) -> Option<u16>
    ensures { result ≡ in_groups jumps word.now }
{
    if let Some(op) = in_group(word, 0o104, 1, b"JSYS ", 1, b" ") {
        return Some(op);
    }
    if let Some(op) = in_group(
        word,
        0o250,
        1,
        b"EXCH BLT AOBJP AOBJN JRST JFCL XCT ",
        1,
        b" ",
    ) {
        return Some(op);
    }
    if let Some(op) = in_group(
        word,
        0o260,
        1,
        b"PUSHJ PUSH POP POPJ JSR JSP JSA JRA ",
        1,
        b" ",
    ) {
        return Some(op);
    }
    in_group(
        word,
        0o300,
        8,
        b"CAI CAM JUMP SKIP AOJ AOS SOJ SOS ",
        1,
        b" L E LE A GE N G ",
    )
}

// The opcodes of Boolean functions, halfword moves and tests of masked bits.
fn logic(word: &[u8]) -> Option<u16>
    ensures { result ≡ in_groups logic word.now }
{
    if let Some(op) = in_group(
        word,
        0o400,
        4,
        b"SETZ AND ANDCA SETM ANDCM SETA XOR IOR ANDCB EQV SETCA ORCA SETCM ORCM ORCB SETO ",
        1,
        MODES_TO_BOTH,
    ) {
        return Some(op);
    }
    if let Some(op) = in_group(
        word,
        0o500,
        4,
        b"HLL HRL HLLZ HRLZ HLLO HRLO HLLE HRLE HRR HLR HRRZ HLRZ HRRO HLRO HRRE HLRE ",
        1,
        MODES_TO_OWN,
    ) {
        return Some(op);
    }
    if let Some(op) = in_group(word, 0o600, 16, b"TRN TRZ TRC TRO ", 2, b" E A N ") {
        return Some(op);
    }
    if let Some(op) = in_group(word, 0o601, 16, b"TLN TLZ TLC TLO ", 2, b" E A N ") {
        return Some(op);
    }
    if let Some(op) = in_group(word, 0o610, 16, b"TDN TDZ TDC TDO ", 2, b" E A N ") {
        return Some(op);
    }
    in_group(word, 0o611, 16, b"TSN TSZ TSC TSO ", 2, b" E A N ")
}

// The opcode that a word names in a group: it is one of these stems with one of these endings behind.
// The opcode grows from that of the first by a step for each stem and one for each ending.
fn in_group(
    word: &[u8],
    first: u16,
    stem_step: u16,
    stems: &[u8],
    ending_step: u16,
    endings: &[u8],
) -> Option<u16>
    requires first { first ≤ 512 }
    requires stem_step { stem_step ≤ 16 }
    requires ending_step { ending_step ≤ 16 }
    requires stems { length stems.now ≤ 256 }
    requires endings { length endings.now ≤ 256 }
    ensures { result ≡ meaning (of_group (record { first = first; stem_step = stem_step; stems = stems.now; ending_step = ending_step; endings = endings.now })) word.now }
{
    let mut op = first;
    let mut left = stems;
    while let Some((stem, others)) = cut(left, b' ') {
        if let Some(found) = of_stem(word, op, stem, ending_step, endings) {
            return Some(found);
        }
        op += stem_step;
        left = others;
    }
    None
}

// The opcode that a word names by one stem.
fn of_stem(word: &[u8], first: u16, stem: &[u8], step: u16, endings: &[u8]) -> Option<u16>
    requires first { first ≤ 8192 }
    requires step { step ≤ 16 }
    requires endings { length endings.now ≤ 256 }
    ensures { result ≡ meaning (of_stem step stem.now first (pieces 32 endings.now)) word.now }
{
    let ending = word.strip_prefix(stem)?;
    let mut op = first;
    let mut left = endings;
    while let Some((name, others)) = cut(left, b' ') {
        if name == ending {
            return Some(op);
        }
        op += step;
        left = others;
    }
    None
}
