// The table, row by row.
ghost use Rattle.std.specs.Prelude.{◌≡◌, ◌<◌};
ghost use Rattle.ka10_table.specs.Rows.{IsInLine, row_of};

use crate::families::Family::{
    AddOne, AddSub, Aobj, Blt, Boolean, ByteOp, Compare, Div, DoubleShift, Exch, Half, Idiv,
    Illegal, Imul, Jfcl, Jffo, Jrst, JsaJra, JsrJsp, JumpSkip, Local, Monitor, Move, Mul, Popj,
    PushPop, Pushj, Shift, SubOne, Test, Xct,
};
use crate::families::OpMode::{Basic, Both, Immediate, Memory, Own};
use crate::families::TableRow;

// A line of codes is a row a code; a line of modes is one code, a row a mode.
macro_rules! rows {
    ($($family:ident $([$($code:literal)+])? $($one:literal [$($mode:ident)+])?;)+) => {
        [$(
            $($(TableRow { family: $family, mode: Basic, code: $code },)+)?
            $($(TableRow { family: $family, mode: $mode, code: $one },)+)?
        )+]
    };
}

/// The rows of the opcodes 000 to 777. The comments have the first opcode of each line and the
/// mnemonics.
#[rattlefmt::skip]
pub static ROWS: [TableRow; 512] = rows![
    Illegal [0];                               // 000
    Local [0 1 2 3 4 5 6];                     // 001
    Local [7 8 9 10 11 12 13 14];              // 010
    Local [15 16 17 18 19 20 21 22];           // 020
    Local [23 24 25 26 27 28 29 30];           // 030
    Illegal [0 0 0 0 0 0 0 0 0 0 0 0 0 0 0 0]; // 040
    Illegal [0 0 0 0 0 0 0 0 0 0 0 0 0 0 0 0]; // 060
    Illegal [0 0 0 0];                         // 100
    Monitor [0];                               // 104 JSYS
    Illegal [0 0 0 0 0 0 0 0 0 0 0];           // 105
    Illegal [0 0 0 0 0 0 0 0 0 0 0];           // 120
    ByteOp [0 1 2 3 4];                        // 133 IBP ILDB LDB IDPB DPB
    Illegal [0 0 0 0 0 0 0 0 0 0 0 0 0 0 0 0]; // 140
    Illegal [0 0 0 0 0 0 0 0 0 0 0 0 0 0 0 0]; // 160
    Move 0 [Basic Immediate Memory Own];       // 200 MOVE MOVEI MOVEM MOVES
    Move 1 [Basic Immediate Memory Own];       // 204 MOVS MOVSI MOVSM MOVSS
    Move 2 [Basic Immediate Memory Own];       // 210 MOVN MOVNI MOVNM MOVNS
    Move 3 [Basic Immediate Memory Own];       // 214 MOVM MOVMI MOVMM MOVMS
    Imul 0 [Basic Immediate Memory Both];      // 220 IMUL IMULI IMULM IMULB
    Mul 0 [Basic Immediate Memory Both];       // 224 MUL MULI MULM MULB
    Idiv 0 [Basic Immediate Memory Both];      // 230 IDIV IDIVI IDIVM IDIVB
    Div 0 [Basic Immediate Memory Both];       // 234 DIV DIVI DIVM DIVB
    Shift [0 1 2];                             // 240 ASH ROT LSH
    Jffo [0];                                  // 243 JFFO
    DoubleShift [0 1 2];                       // 244 ASHC ROTC LSHC
    Illegal [0];                               // 247
    Exch [0];                                  // 250 EXCH
    Blt [0];                                   // 251 BLT
    Aobj [0 1];                                // 252 AOBJP AOBJN
    Jrst [0];                                  // 254 JRST
    Jfcl [0];                                  // 255 JFCL
    Xct [0];                                   // 256 XCT
    Illegal [0];                               // 257
    Pushj [0];                                 // 260 PUSHJ
    PushPop [0 1];                             // 261 PUSH POP
    Popj [0];                                  // 263 POPJ
    JsrJsp [0 1];                              // 264 JSR JSP
    JsaJra [0 1];                              // 266 JSA JRA
    AddSub 0 [Basic Immediate Memory Both];    // 270 ADD ADDI ADDM ADDB
    AddSub 1 [Basic Immediate Memory Both];    // 274 SUB SUBI SUBM SUBB
    Compare [0 1 2 3 4 5 6 7];                 // 300 CAI CAIL CAIE CAILE CAIA CAIGE CAIN CAIG
    Compare [8 9 10 11 12 13 14 15];           // 310 CAM CAML CAME CAMLE CAMA CAMGE CAMN CAMG
    JumpSkip [0 1 2 3 4 5 6 7];                // 320 JUMP JUMPL JUMPE JUMPLE JUMPA JUMPGE JUMPN JUMPG
    JumpSkip [8 9 10 11 12 13 14 15];          // 330 SKIP SKIPL SKIPE SKIPLE SKIPA SKIPGE SKIPN SKIPG
    AddOne [0 1 2 3 4 5 6 7];                  // 340 AOJ AOJL AOJE AOJLE AOJA AOJGE AOJN AOJG
    AddOne [8 9 10 11 12 13 14 15];            // 350 AOS AOSL AOSE AOSLE AOSA AOSGE AOSN AOSG
    SubOne [0 1 2 3 4 5 6 7];                  // 360 SOJ SOJL SOJE SOJLE SOJA SOJGE SOJN SOJG
    SubOne [8 9 10 11 12 13 14 15];            // 370 SOS SOSL SOSE SOSLE SOSA SOSGE SOSN SOSG
    Boolean 0 [Basic Immediate Memory Both];   // 400 SETZ SETZI SETZM SETZB
    Boolean 1 [Basic Immediate Memory Both];   // 404 AND ANDI ANDM ANDB
    Boolean 2 [Basic Immediate Memory Both];   // 410 ANDCA ANDCAI ANDCAM ANDCAB
    Boolean 3 [Basic Immediate Memory Both];   // 414 SETM SETMI SETMM SETMB
    Boolean 4 [Basic Immediate Memory Both];   // 420 ANDCM ANDCMI ANDCMM ANDCMB
    Boolean 5 [Basic Immediate Memory Both];   // 424 SETA SETAI SETAM SETAB
    Boolean 6 [Basic Immediate Memory Both];   // 430 XOR XORI XORM XORB
    Boolean 7 [Basic Immediate Memory Both];   // 434 IOR IORI IORM IORB
    Boolean 8 [Basic Immediate Memory Both];   // 440 ANDCB ANDCBI ANDCBM ANDCBB
    Boolean 9 [Basic Immediate Memory Both];   // 444 EQV EQVI EQVM EQVB
    Boolean 10 [Basic Immediate Memory Both];  // 450 SETCA SETCAI SETCAM SETCAB
    Boolean 11 [Basic Immediate Memory Both];  // 454 ORCA ORCAI ORCAM ORCAB
    Boolean 12 [Basic Immediate Memory Both];  // 460 SETCM SETCMI SETCMM SETCMB
    Boolean 13 [Basic Immediate Memory Both];  // 464 ORCM ORCMI ORCMM ORCMB
    Boolean 14 [Basic Immediate Memory Both];  // 470 ORCB ORCBI ORCBM ORCBB
    Boolean 15 [Basic Immediate Memory Both];  // 474 SETO SETOI SETOM SETOB
    Half 0 [Basic Immediate Memory Own];       // 500 HLL HLLI HLLM HLLS
    Half 1 [Basic Immediate Memory Own];       // 504 HRL HRLI HRLM HRLS
    Half 2 [Basic Immediate Memory Own];       // 510 HLLZ HLLZI HLLZM HLLZS
    Half 3 [Basic Immediate Memory Own];       // 514 HRLZ HRLZI HRLZM HRLZS
    Half 4 [Basic Immediate Memory Own];       // 520 HLLO HLLOI HLLOM HLLOS
    Half 5 [Basic Immediate Memory Own];       // 524 HRLO HRLOI HRLOM HRLOS
    Half 6 [Basic Immediate Memory Own];       // 530 HLLE HLLEI HLLEM HLLES
    Half 7 [Basic Immediate Memory Own];       // 534 HRLE HRLEI HRLEM HRLES
    Half 8 [Basic Immediate Memory Own];       // 540 HRR HRRI HRRM HRRS
    Half 9 [Basic Immediate Memory Own];       // 544 HLR HLRI HLRM HLRS
    Half 10 [Basic Immediate Memory Own];      // 550 HRRZ HRRZI HRRZM HRRZS
    Half 11 [Basic Immediate Memory Own];      // 554 HLRZ HLRZI HLRZM HLRZS
    Half 12 [Basic Immediate Memory Own];      // 560 HRRO HRROI HRROM HRROS
    Half 13 [Basic Immediate Memory Own];      // 564 HLRO HLROI HLROM HLROS
    Half 14 [Basic Immediate Memory Own];      // 570 HRRE HRREI HRREM HRRES
    Half 15 [Basic Immediate Memory Own];      // 574 HLRE HLREI HLREM HLRES
    Test [0 1 2 3 4 5 6 7];                    // 600 TRN TLN TRNE TLNE TRNA TLNA TRNN TLNN
    Test [8 9 10 11 12 13 14 15];              // 610 TDN TSN TDNE TSNE TDNA TSNA TDNN TSNN
    Test [16 17 18 19 20 21 22 23];            // 620 TRZ TLZ TRZE TLZE TRZA TLZA TRZN TLZN
    Test [24 25 26 27 28 29 30 31];            // 630 TDZ TSZ TDZE TSZE TDZA TSZA TDZN TSZN
    Test [32 33 34 35 36 37 38 39];            // 640 TRC TLC TRCE TLCE TRCA TLCA TRCN TLCN
    Test [40 41 42 43 44 45 46 47];            // 650 TDC TSC TDCE TSCE TDCA TSCA TDCN TSCN
    Test [48 49 50 51 52 53 54 55];            // 660 TRO TLO TROE TLOE TROA TLOA TRON TLON
    Test [56 57 58 59 60 61 62 63];            // 670 TDO TSO TDOE TSOE TDOA TSOA TDON TSON
    Illegal [0 0 0 0 0 0 0 0 0 0 0 0 0 0 0 0]; // 700
    Illegal [0 0 0 0 0 0 0 0 0 0 0 0 0 0 0 0]; // 720
    Illegal [0 0 0 0 0 0 0 0 0 0 0 0 0 0 0 0]; // 740
    Illegal [0 0 0 0 0 0 0 0 0 0 0 0 0 0 0 0]; // 760
];

/// The row of an opcode.
#[inline]
pub fn row(op: u16) -> TableRow
    requires { op < 512 }
    ensures row { result ≡ row_of op }
    ensures line { IsInLine op result }
{
    ROWS[op as usize]
}
