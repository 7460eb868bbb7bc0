//! The instructions. Their spellings are in docs/I386.md, as a table in the order of the variants
//! here.

ghost use Rattle.std.specs.Prelude.{◌≡◌};
ghost use Rattle.i386_profile.specs.Codes.{alu_code, shift_code, unary_code, cond_code};

use crate::operands::{ByteReg, Mem, Reg, Rm};

/// An operation of two operands, with the number that selects it in opcodes 81 and 83.
#[derive(Clone, Copy, PartialEq)]
pub enum AluOp {
    Add = 0,
    Or = 1,
    And = 4,
    Sub = 5,
    Xor = 6,
    Cmp = 7,
}

impl AluOp {
    pub(crate) fn code(self) -> u8
        ensures { result ≡ alu_code self }
    {
        self as u8
    }
}

/// A shift, with the number that selects it in opcode C1.
#[derive(Clone, Copy)]
pub enum ShiftOp {
    Shl = 4,
    Shr = 5,
    Sar = 7,
}

impl ShiftOp {
    pub(crate) fn code(self) -> u8
        ensures { result ≡ shift_code self }
    {
        self as u8
    }
}

/// An operation of one operand, with the number that selects it in opcode F7.
#[derive(Clone, Copy)]
pub enum UnaryOp {
    Not = 2,
    Neg = 3,
    Mul = 4,
    Div = 6,
}

impl UnaryOp {
    pub(crate) fn code(self) -> u8
        ensures { result ≡ unary_code self }
    {
        self as u8
    }
}

/// A condition of a jump, with its number. Each odd one is the negation of the one before. The
/// numbers 10 and 11, of the parity flag, are left out.
#[derive(Clone, Copy)]
pub enum Cond {
    /// overflow
    O = 0,
    /// no overflow
    No = 1,
    /// below: carry
    B = 2,
    /// above or equal
    Ae = 3,
    /// equal: zero
    E = 4,
    /// not equal
    Ne = 5,
    /// below or equal: carry or zero
    Be = 6,
    /// above
    A = 7,
    /// sign
    S = 8,
    /// no sign
    Ns = 9,
    /// less: sign differs from overflow
    L = 12,
    /// greater or equal
    Ge = 13,
    /// less or equal: zero, or sign differs from overflow
    Le = 14,
    /// greater
    G = 15,
}

impl Cond {
    pub(crate) fn code(self) -> u8
        ensures { result ≡ cond_code self }
    {
        self as u8
    }
}

/// An instruction with its operands, the destination first. Immediates and relative targets are
/// modulo 2^32.
#[derive(Clone, Copy)]
pub enum Ins {
    /// `mov r, n`
    Load(Reg, u32),
    /// `mov dword m, n`
    Put(Mem, u32),
    /// `mov rm, r`
    MovTo(Rm, Reg),
    /// `mov r, m`
    MovFrom(Reg, Mem),
    /// `mov m, b`
    ByteTo(Mem, ByteReg),
    /// `mov b, m`
    ByteFrom(ByteReg, Mem),
    /// `movzx r, byte m`
    Widen(Reg, Mem),
    /// `movzx r, b`
    WidenReg(Reg, ByteReg),
    /// `lea r, m`
    Lea(Reg, Mem),
    /// `op rm, r`
    Alu(AluOp, Rm, Reg),
    /// `op r, m`
    AluFrom(AluOp, Reg, Mem),
    /// `op rm, n`
    AluImm(AluOp, Rm, u32),
    /// `test rm, r`
    Test(Rm, Reg),
    /// `inc r`
    Inc(Reg),
    /// `dec r`
    Dec(Reg),
    /// `push r`
    Push(Reg),
    /// `pop r`
    Pop(Reg),
    /// `push n`
    PushImm(u32),
    /// `shl`, `shr` or `sar rm, count`
    Shift(ShiftOp, Rm, u8),
    /// `imul r, rm`
    Imul(Reg, Rm),
    /// `not`, `neg`, `mul` or `div rm`
    Unary(UnaryOp, Rm),
    /// `jmp`, by a distance from the address after the instruction
    Jmp(u32),
    /// a jump under a condition
    Jcc(Cond, u32),
    /// `call`
    Call(u32),
    /// `ret`
    Ret,
    /// `int n`
    Gate(u8),
    /// `nop`
    Nop,
}
