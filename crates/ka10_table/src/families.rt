/// The lines of the instruction table, in the order of their opcodes (PDP-10 handbook, "User
/// operations").
#[derive(Clone, Copy, PartialEq, Eq)]
pub enum Family {
    /// No instruction: the machine traps.
    Illegal,
    /// 001 to 037: calls of the program's own, through the words at 40 and 41.
    Local,
    /// 104: JSYS, a monitor call.
    Monitor,
    /// 133 to 137: IBP, ILDB, LDB, IDPB, DPB.
    ByteOp,
    /// 200 to 217: MOVE, MOVS, MOVN, MOVM.
    Move,
    /// 220 to 223: IMUL.
    Imul,
    /// 224 to 227: MUL.
    Mul,
    /// 230 to 233: IDIV.
    Idiv,
    /// 234 to 237: DIV.
    Div,
    /// 240 to 242: ASH, ROT, LSH.
    Shift,
    /// 243: JFFO.
    Jffo,
    /// 244 to 246: ASHC, ROTC, LSHC.
    DoubleShift,
    /// 250: EXCH.
    Exch,
    /// 251: BLT.
    Blt,
    /// 252 and 253: AOBJP, AOBJN.
    Aobj,
    /// 254: JRST.
    Jrst,
    /// 255: JFCL.
    Jfcl,
    /// 256: XCT.
    Xct,
    /// 260: PUSHJ.
    Pushj,
    /// 261 and 262: PUSH, POP.
    PushPop,
    /// 263: POPJ.
    Popj,
    /// 264 and 265: JSR, JSP.
    JsrJsp,
    /// 266 and 267: JSA, JRA.
    JsaJra,
    /// 270 to 277: ADD, SUB.
    AddSub,
    /// 300 to 317: CAI, CAM.
    Compare,
    /// 320 to 337: JUMP, SKIP.
    JumpSkip,
    /// 340 to 357: AOJ, AOS.
    AddOne,
    /// 360 to 377: SOJ, SOS.
    SubOne,
    /// 400 to 477: SETZ to SETO.
    Boolean,
    /// 500 to 577: HLL to HLRE.
    Half,
    /// 600 to 677: TRN to TSON.
    Test,
}

/// Where the operand comes from and where the result goes (PDP-10 handbook, "Modes").
#[derive(Clone, Copy, PartialEq, Eq)]
pub enum OpMode {
    /// From the word at the effective address to the accumulator; also each row without modes.
    Basic,
    /// Mode I: from the effective address itself to the accumulator.
    Immediate,
    /// Mode M: to the effective address.
    Memory,
    /// Mode B: to both.
    Both,
    /// Mode S: to the effective address, and to the accumulator where that is not accumulator 0.
    Own,
}

/// What an opcode is.
#[derive(Clone, Copy, PartialEq, Eq)]
pub struct TableRow {
    /// The line of the table.
    pub family: Family,
    /// Basic where the line has no modes.
    pub mode: OpMode,
    /// The opcode less the line's first one, divided by 4 where the line has modes; 0 in Illegal.
    pub code: u8,
}
