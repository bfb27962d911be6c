// How opcodes are dispatched.
ghost use Rattle.std.specs.Prelude.{◌≡◌, ◌<◌};
ghost use Rattle.ka10_deeds.specs.Acts.{acted, instruction_at};

/// What is done for an opcode: an instruction under its mnemonic, so that all of its row is known,
/// or, of the Boolean functions, the halfwords and the tests, instructions that take and store
/// their words alike and are told apart by the opcode (PDP-10 handbook, "User operations").
#[derive(Clone, Copy, PartialEq, Eq)]
pub enum Act {
    /// No instruction.
    Illegal,
    /// 001 to 037.
    Local,
    /// 104, a monitor call.
    Jsys,
    /// 133 to 137, the byte instructions.
    Ibp,
    Ildb,
    Ldb,
    Idpb,
    Dpb,
    /// 200 to 217, moves by operation and mode.
    Move,
    Movei,
    Movem,
    Moves,
    Movs,
    Movsi,
    Movsm,
    Movss,
    Movn,
    Movni,
    Movnm,
    Movns,
    Movm,
    Movmi,
    Movmm,
    Movms,
    /// 220 to 237, products and quotients.
    Imul,
    Imuli,
    Imulm,
    Imulb,
    Mul,
    Muli,
    Mulm,
    Mulb,
    Idiv,
    Idivi,
    Idivm,
    Idivb,
    Div,
    Divi,
    Divm,
    Divb,
    /// 240 to 246, shifts.
    Ash,
    Rot,
    Lsh,
    Jffo,
    Ashc,
    Rotc,
    Lshc,
    /// 250 to 256.
    Exch,
    Blt,
    Aobjp,
    Aobjn,
    Jrst,
    Jfcl,
    Xct,
    /// 260 to 267, stacks and subroutines.
    Pushj,
    Push,
    Pop,
    Popj,
    Jsr,
    Jsp,
    Jsa,
    Jra,
    /// 270 to 277, sums.
    Add,
    Addi,
    Addm,
    Addb,
    Sub,
    Subi,
    Subm,
    Subb,
    /// 300 to 317, comparisons.
    Cai,
    Cail,
    Caie,
    Caile,
    Caia,
    Caige,
    Cain,
    Caig,
    Cam,
    Caml,
    Came,
    Camle,
    Cama,
    Camge,
    Camn,
    Camg,
    /// 320 to 337, jumps and skips.
    Jump,
    Jumpl,
    Jumpe,
    Jumple,
    Jumpa,
    Jumpge,
    Jumpn,
    Jumpg,
    Skip,
    Skipl,
    Skipe,
    Skiple,
    Skipa,
    Skipge,
    Skipn,
    Skipg,
    /// 340 to 357, one added.
    Aoj,
    Aojl,
    Aoje,
    Aojle,
    Aoja,
    Aojge,
    Aojn,
    Aojg,
    Aos,
    Aosl,
    Aose,
    Aosle,
    Aosa,
    Aosge,
    Aosn,
    Aosg,
    /// 360 to 377, one subtracted.
    Soj,
    Sojl,
    Soje,
    Sojle,
    Soja,
    Sojge,
    Sojn,
    Sojg,
    Sos,
    Sosl,
    Sose,
    Sosle,
    Sosa,
    Sosge,
    Sosn,
    Sosg,
    /// 400 to 477, Boolean functions by their mode.
    Boolean,
    BooleanImmediate,
    BooleanMemory,
    BooleanBoth,
    /// 500 to 577, halfwords by their mode.
    Half,
    HalfImmediate,
    HalfMemory,
    HalfOwn,
    /// 600 to 677, tests by their operand: TR and TL, which take no word, and TD and TS.
    TestImmediate,
    TestMemory,
}

// Acts by their names alone.
macro_rules! acts {
    ($($act:ident)+) => { [$(Act::$act),+] };
}

// The acts of the opcodes, each line with its first opcode.
#[rattlefmt::skip]
static ACTS: [Act; 512] = acts![
    Illegal Local Local Local Local Local Local Local               // 000
    Local Local Local Local Local Local Local Local                 // 010
    Local Local Local Local Local Local Local Local                 // 020
    Local Local Local Local Local Local Local Local                 // 030
    Illegal Illegal Illegal Illegal Illegal Illegal Illegal Illegal // 040
    Illegal Illegal Illegal Illegal Illegal Illegal Illegal Illegal // 050
    Illegal Illegal Illegal Illegal Illegal Illegal Illegal Illegal // 060
    Illegal Illegal Illegal Illegal Illegal Illegal Illegal Illegal // 070
    Illegal Illegal Illegal Illegal Jsys Illegal Illegal Illegal    // 100
    Illegal Illegal Illegal Illegal Illegal Illegal Illegal Illegal // 110
    Illegal Illegal Illegal Illegal Illegal Illegal Illegal Illegal // 120
    Illegal Illegal Illegal Ibp Ildb Ldb Idpb Dpb                   // 130
    Illegal Illegal Illegal Illegal Illegal Illegal Illegal Illegal // 140
    Illegal Illegal Illegal Illegal Illegal Illegal Illegal Illegal // 150
    Illegal Illegal Illegal Illegal Illegal Illegal Illegal Illegal // 160
    Illegal Illegal Illegal Illegal Illegal Illegal Illegal Illegal // 170
    Move Movei Movem Moves Movs Movsi Movsm Movss                   // 200
    Movn Movni Movnm Movns Movm Movmi Movmm Movms                   // 210
    Imul Imuli Imulm Imulb Mul Muli Mulm Mulb                       // 220
    Idiv Idivi Idivm Idivb Div Divi Divm Divb                       // 230
    Ash Rot Lsh Jffo Ashc Rotc Lshc Illegal                         // 240
    Exch Blt Aobjp Aobjn Jrst Jfcl Xct Illegal                      // 250
    Pushj Push Pop Popj Jsr Jsp Jsa Jra                             // 260
    Add Addi Addm Addb Sub Subi Subm Subb                           // 270
    Cai Cail Caie Caile Caia Caige Cain Caig                        // 300
    Cam Caml Came Camle Cama Camge Camn Camg                        // 310
    Jump Jumpl Jumpe Jumple Jumpa Jumpge Jumpn Jumpg                // 320
    Skip Skipl Skipe Skiple Skipa Skipge Skipn Skipg                // 330
    Aoj Aojl Aoje Aojle Aoja Aojge Aojn Aojg                        // 340
    Aos Aosl Aose Aosle Aosa Aosge Aosn Aosg                        // 350
    Soj Sojl Soje Sojle Soja Sojge Sojn Sojg                        // 360
    Sos Sosl Sose Sosle Sosa Sosge Sosn Sosg                        // 370
    Boolean BooleanImmediate BooleanMemory BooleanBoth              // 400
    Boolean BooleanImmediate BooleanMemory BooleanBoth              // 404
    Boolean BooleanImmediate BooleanMemory BooleanBoth              // 410
    Boolean BooleanImmediate BooleanMemory BooleanBoth              // 414
    Boolean BooleanImmediate BooleanMemory BooleanBoth              // 420
    Boolean BooleanImmediate BooleanMemory BooleanBoth              // 424
    Boolean BooleanImmediate BooleanMemory BooleanBoth              // 430
    Boolean BooleanImmediate BooleanMemory BooleanBoth              // 434
    Boolean BooleanImmediate BooleanMemory BooleanBoth              // 440
    Boolean BooleanImmediate BooleanMemory BooleanBoth              // 444
    Boolean BooleanImmediate BooleanMemory BooleanBoth              // 450
    Boolean BooleanImmediate BooleanMemory BooleanBoth              // 454
    Boolean BooleanImmediate BooleanMemory BooleanBoth              // 460
    Boolean BooleanImmediate BooleanMemory BooleanBoth              // 464
    Boolean BooleanImmediate BooleanMemory BooleanBoth              // 470
    Boolean BooleanImmediate BooleanMemory BooleanBoth              // 474
    Half HalfImmediate HalfMemory HalfOwn                           // 500
    Half HalfImmediate HalfMemory HalfOwn                           // 504
    Half HalfImmediate HalfMemory HalfOwn                           // 510
    Half HalfImmediate HalfMemory HalfOwn                           // 514
    Half HalfImmediate HalfMemory HalfOwn                           // 520
    Half HalfImmediate HalfMemory HalfOwn                           // 524
    Half HalfImmediate HalfMemory HalfOwn                           // 530
    Half HalfImmediate HalfMemory HalfOwn                           // 534
    Half HalfImmediate HalfMemory HalfOwn                           // 540
    Half HalfImmediate HalfMemory HalfOwn                           // 544
    Half HalfImmediate HalfMemory HalfOwn                           // 550
    Half HalfImmediate HalfMemory HalfOwn                           // 554
    Half HalfImmediate HalfMemory HalfOwn                           // 560
    Half HalfImmediate HalfMemory HalfOwn                           // 564
    Half HalfImmediate HalfMemory HalfOwn                           // 570
    Half HalfImmediate HalfMemory HalfOwn                           // 574
    TestImmediate TestImmediate TestImmediate TestImmediate         // 600
    TestImmediate TestImmediate TestImmediate TestImmediate         // 604
    TestMemory TestMemory TestMemory TestMemory                     // 610
    TestMemory TestMemory TestMemory TestMemory                     // 614
    TestImmediate TestImmediate TestImmediate TestImmediate         // 620
    TestImmediate TestImmediate TestImmediate TestImmediate         // 624
    TestMemory TestMemory TestMemory TestMemory                     // 630
    TestMemory TestMemory TestMemory TestMemory                     // 634
    TestImmediate TestImmediate TestImmediate TestImmediate         // 640
    TestImmediate TestImmediate TestImmediate TestImmediate         // 644
    TestMemory TestMemory TestMemory TestMemory                     // 650
    TestMemory TestMemory TestMemory TestMemory                     // 654
    TestImmediate TestImmediate TestImmediate TestImmediate         // 660
    TestImmediate TestImmediate TestImmediate TestImmediate         // 664
    TestMemory TestMemory TestMemory TestMemory                     // 670
    TestMemory TestMemory TestMemory TestMemory                     // 674
    Illegal Illegal Illegal Illegal Illegal Illegal Illegal Illegal // 700
    Illegal Illegal Illegal Illegal Illegal Illegal Illegal Illegal // 710
    Illegal Illegal Illegal Illegal Illegal Illegal Illegal Illegal // 720
    Illegal Illegal Illegal Illegal Illegal Illegal Illegal Illegal // 730
    Illegal Illegal Illegal Illegal Illegal Illegal Illegal Illegal // 740
    Illegal Illegal Illegal Illegal Illegal Illegal Illegal Illegal // 750
    Illegal Illegal Illegal Illegal Illegal Illegal Illegal Illegal // 760
    Illegal Illegal Illegal Illegal Illegal Illegal Illegal Illegal // 770
];

/// The act of an opcode.
#[inline(always)]
pub fn act_at(op: u16) -> Act
    requires { op < 512 }
    ensures { acted result (instruction_at op) ≡ instruction_at op }
{
    ACTS[op as usize]
}
