//! Spellings by GNU as. tests/peers/i386_spellings.py prints the rows.

use i386_profile::{AluOp, ByteReg, Cond, Ins, Mem, Reg, Rm, ShiftOp, UnaryOp};

/// A place in memory with a base.
macro_rules! at {
    ($base:ident, $disp:literal) => {
        Mem {
            base: Some(Reg::$base),
            disp: $disp,
        }
    };
}

/// Instructions and the spelling that is written.
pub(crate) const CHOSEN: &[(Ins, &[u8])] = &[
    (
        Ins::Load(Reg::Eax, 0x1234_5678),
        &[0xB8, 0x78, 0x56, 0x34, 0x12],
    ),
    (
        Ins::Load(Reg::Ecx, 0x1234_5678),
        &[0xB9, 0x78, 0x56, 0x34, 0x12],
    ),
    (
        Ins::Load(Reg::Edx, 0x1234_5678),
        &[0xBA, 0x78, 0x56, 0x34, 0x12],
    ),
    (
        Ins::Load(Reg::Ebx, 0x1234_5678),
        &[0xBB, 0x78, 0x56, 0x34, 0x12],
    ),
    (
        Ins::Load(Reg::Esp, 0x1234_5678),
        &[0xBC, 0x78, 0x56, 0x34, 0x12],
    ),
    (
        Ins::Load(Reg::Ebp, 0x1234_5678),
        &[0xBD, 0x78, 0x56, 0x34, 0x12],
    ),
    (
        Ins::Load(Reg::Esi, 0x1234_5678),
        &[0xBE, 0x78, 0x56, 0x34, 0x12],
    ),
    (
        Ins::Load(Reg::Edi, 0x1234_5678),
        &[0xBF, 0x78, 0x56, 0x34, 0x12],
    ),
    (
        Ins::Put(at!(Edi, 0), 4),
        &[0xC7, 0x07, 0x04, 0x00, 0x00, 0x00],
    ),
    (Ins::MovTo(Rm::Reg(Reg::Eax), Reg::Ebx), &[0x89, 0xD8]),
    (Ins::MovTo(Rm::Mem(at!(Eax, 0)), Reg::Ecx), &[0x89, 0x08]),
    (Ins::MovTo(Rm::Mem(at!(Ecx, 0)), Reg::Ecx), &[0x89, 0x09]),
    (Ins::MovTo(Rm::Mem(at!(Edx, 0)), Reg::Ecx), &[0x89, 0x0A]),
    (Ins::MovTo(Rm::Mem(at!(Ebx, 0)), Reg::Ecx), &[0x89, 0x0B]),
    (
        Ins::MovTo(Rm::Mem(at!(Esp, 0)), Reg::Ecx),
        &[0x89, 0x0C, 0x24],
    ),
    (
        Ins::MovTo(Rm::Mem(at!(Ebp, 0)), Reg::Ecx),
        &[0x89, 0x4D, 0x00],
    ),
    (Ins::MovTo(Rm::Mem(at!(Esi, 0)), Reg::Ecx), &[0x89, 0x0E]),
    (Ins::MovTo(Rm::Mem(at!(Edi, 0)), Reg::Ecx), &[0x89, 0x0F]),
    (
        Ins::MovFrom(Reg::Edx, at!(Eax, 0xFFFF_FF7F)),
        &[0x8B, 0x90, 0x7F, 0xFF, 0xFF, 0xFF],
    ),
    (
        Ins::MovFrom(Reg::Edx, at!(Eax, 0xFFFF_FF80)),
        &[0x8B, 0x50, 0x80],
    ),
    (
        Ins::MovFrom(Reg::Edx, at!(Eax, 0xFFFF_FFFF)),
        &[0x8B, 0x50, 0xFF],
    ),
    (Ins::MovFrom(Reg::Edx, at!(Eax, 0x7F)), &[0x8B, 0x50, 0x7F]),
    (
        Ins::MovFrom(Reg::Edx, at!(Eax, 0x80)),
        &[0x8B, 0x90, 0x80, 0x00, 0x00, 0x00],
    ),
    (
        Ins::MovFrom(Reg::Edx, at!(Ebp, 0xFFFF_FF7F)),
        &[0x8B, 0x95, 0x7F, 0xFF, 0xFF, 0xFF],
    ),
    (
        Ins::MovFrom(Reg::Edx, at!(Ebp, 0xFFFF_FF80)),
        &[0x8B, 0x55, 0x80],
    ),
    (
        Ins::MovFrom(Reg::Edx, at!(Ebp, 0xFFFF_FFFF)),
        &[0x8B, 0x55, 0xFF],
    ),
    (Ins::MovFrom(Reg::Edx, at!(Ebp, 0x7F)), &[0x8B, 0x55, 0x7F]),
    (
        Ins::MovFrom(Reg::Edx, at!(Ebp, 0x80)),
        &[0x8B, 0x95, 0x80, 0x00, 0x00, 0x00],
    ),
    (
        Ins::MovFrom(Reg::Edx, at!(Esp, 0xFFFF_FF7F)),
        &[0x8B, 0x94, 0x24, 0x7F, 0xFF, 0xFF, 0xFF],
    ),
    (
        Ins::MovFrom(Reg::Edx, at!(Esp, 0xFFFF_FF80)),
        &[0x8B, 0x54, 0x24, 0x80],
    ),
    (
        Ins::MovFrom(Reg::Edx, at!(Esp, 0xFFFF_FFFF)),
        &[0x8B, 0x54, 0x24, 0xFF],
    ),
    (
        Ins::MovFrom(Reg::Edx, at!(Esp, 0x7F)),
        &[0x8B, 0x54, 0x24, 0x7F],
    ),
    (
        Ins::MovFrom(Reg::Edx, at!(Esp, 0x80)),
        &[0x8B, 0x94, 0x24, 0x80, 0x00, 0x00, 0x00],
    ),
    (
        Ins::MovFrom(
            Reg::Ecx,
            Mem {
                base: None,
                disp: 0x1234,
            },
        ),
        &[0x8B, 0x0D, 0x34, 0x12, 0x00, 0x00],
    ),
    (Ins::ByteTo(at!(Esi, 0), ByteReg::Al), &[0x88, 0x06]),
    (Ins::ByteFrom(ByteReg::Al, at!(Esi, 0)), &[0x8A, 0x06]),
    (Ins::WidenReg(Reg::Edi, ByteReg::Al), &[0x0F, 0xB6, 0xF8]),
    (Ins::ByteTo(at!(Esi, 0), ByteReg::Cl), &[0x88, 0x0E]),
    (Ins::ByteFrom(ByteReg::Cl, at!(Esi, 0)), &[0x8A, 0x0E]),
    (Ins::WidenReg(Reg::Edi, ByteReg::Cl), &[0x0F, 0xB6, 0xF9]),
    (Ins::ByteTo(at!(Esi, 0), ByteReg::Dl), &[0x88, 0x16]),
    (Ins::ByteFrom(ByteReg::Dl, at!(Esi, 0)), &[0x8A, 0x16]),
    (Ins::WidenReg(Reg::Edi, ByteReg::Dl), &[0x0F, 0xB6, 0xFA]),
    (Ins::ByteTo(at!(Esi, 0), ByteReg::Bl), &[0x88, 0x1E]),
    (Ins::ByteFrom(ByteReg::Bl, at!(Esi, 0)), &[0x8A, 0x1E]),
    (Ins::WidenReg(Reg::Edi, ByteReg::Bl), &[0x0F, 0xB6, 0xFB]),
    (Ins::Widen(Reg::Ebp, at!(Ebx, 8)), &[0x0F, 0xB6, 0x6B, 0x08]),
    (Ins::Lea(Reg::Ebx, at!(Esi, 0x48)), &[0x8D, 0x5E, 0x48]),
    (
        Ins::Alu(AluOp::Add, Rm::Reg(Reg::Edx), Reg::Esi),
        &[0x01, 0xF2],
    ),
    (
        Ins::Alu(AluOp::Add, Rm::Mem(at!(Esp, 4)), Reg::Ebx),
        &[0x01, 0x5C, 0x24, 0x04],
    ),
    (
        Ins::AluFrom(AluOp::Add, Reg::Ecx, at!(Ebp, 0)),
        &[0x03, 0x4D, 0x00],
    ),
    (
        Ins::AluImm(AluOp::Add, Rm::Reg(Reg::Ebx), 1),
        &[0x83, 0xC3, 0x01],
    ),
    (
        Ins::Alu(AluOp::Or, Rm::Reg(Reg::Edx), Reg::Esi),
        &[0x09, 0xF2],
    ),
    (
        Ins::Alu(AluOp::Or, Rm::Mem(at!(Esp, 4)), Reg::Ebx),
        &[0x09, 0x5C, 0x24, 0x04],
    ),
    (
        Ins::AluFrom(AluOp::Or, Reg::Ecx, at!(Ebp, 0)),
        &[0x0B, 0x4D, 0x00],
    ),
    (
        Ins::AluImm(AluOp::Or, Rm::Reg(Reg::Ebx), 1),
        &[0x83, 0xCB, 0x01],
    ),
    (
        Ins::Alu(AluOp::And, Rm::Reg(Reg::Edx), Reg::Esi),
        &[0x21, 0xF2],
    ),
    (
        Ins::Alu(AluOp::And, Rm::Mem(at!(Esp, 4)), Reg::Ebx),
        &[0x21, 0x5C, 0x24, 0x04],
    ),
    (
        Ins::AluFrom(AluOp::And, Reg::Ecx, at!(Ebp, 0)),
        &[0x23, 0x4D, 0x00],
    ),
    (
        Ins::AluImm(AluOp::And, Rm::Reg(Reg::Ebx), 1),
        &[0x83, 0xE3, 0x01],
    ),
    (
        Ins::Alu(AluOp::Sub, Rm::Reg(Reg::Edx), Reg::Esi),
        &[0x29, 0xF2],
    ),
    (
        Ins::Alu(AluOp::Sub, Rm::Mem(at!(Esp, 4)), Reg::Ebx),
        &[0x29, 0x5C, 0x24, 0x04],
    ),
    (
        Ins::AluFrom(AluOp::Sub, Reg::Ecx, at!(Ebp, 0)),
        &[0x2B, 0x4D, 0x00],
    ),
    (
        Ins::AluImm(AluOp::Sub, Rm::Reg(Reg::Ebx), 1),
        &[0x83, 0xEB, 0x01],
    ),
    (
        Ins::Alu(AluOp::Xor, Rm::Reg(Reg::Edx), Reg::Esi),
        &[0x31, 0xF2],
    ),
    (
        Ins::Alu(AluOp::Xor, Rm::Mem(at!(Esp, 4)), Reg::Ebx),
        &[0x31, 0x5C, 0x24, 0x04],
    ),
    (
        Ins::AluFrom(AluOp::Xor, Reg::Ecx, at!(Ebp, 0)),
        &[0x33, 0x4D, 0x00],
    ),
    (
        Ins::AluImm(AluOp::Xor, Rm::Reg(Reg::Ebx), 1),
        &[0x83, 0xF3, 0x01],
    ),
    (
        Ins::Alu(AluOp::Cmp, Rm::Reg(Reg::Edx), Reg::Esi),
        &[0x39, 0xF2],
    ),
    (
        Ins::Alu(AluOp::Cmp, Rm::Mem(at!(Esp, 4)), Reg::Ebx),
        &[0x39, 0x5C, 0x24, 0x04],
    ),
    (
        Ins::AluFrom(AluOp::Cmp, Reg::Ecx, at!(Ebp, 0)),
        &[0x3B, 0x4D, 0x00],
    ),
    (
        Ins::AluImm(AluOp::Cmp, Rm::Reg(Reg::Ebx), 1),
        &[0x83, 0xFB, 0x01],
    ),
    (
        Ins::AluImm(AluOp::Add, Rm::Reg(Reg::Edi), 0xFFFF_FF7F),
        &[0x81, 0xC7, 0x7F, 0xFF, 0xFF, 0xFF],
    ),
    (
        Ins::AluImm(AluOp::Add, Rm::Reg(Reg::Edi), 0xFFFF_FF80),
        &[0x83, 0xC7, 0x80],
    ),
    (
        Ins::AluImm(AluOp::Add, Rm::Reg(Reg::Edi), 0x7F),
        &[0x83, 0xC7, 0x7F],
    ),
    (
        Ins::AluImm(AluOp::Add, Rm::Reg(Reg::Edi), 0x80),
        &[0x81, 0xC7, 0x80, 0x00, 0x00, 0x00],
    ),
    (
        Ins::AluImm(AluOp::Cmp, Rm::Mem(at!(Edi, 0)), 1000),
        &[0x81, 0x3F, 0xE8, 0x03, 0x00, 0x00],
    ),
    (Ins::Test(Rm::Mem(at!(Eax, 0)), Reg::Eax), &[0x85, 0x00]),
    (Ins::Inc(Reg::Eax), &[0x40]),
    (Ins::Inc(Reg::Edi), &[0x47]),
    (Ins::Dec(Reg::Eax), &[0x48]),
    (Ins::Dec(Reg::Edi), &[0x4F]),
    (Ins::Push(Reg::Eax), &[0x50]),
    (Ins::Push(Reg::Edi), &[0x57]),
    (Ins::Pop(Reg::Eax), &[0x58]),
    (Ins::Pop(Reg::Edi), &[0x5F]),
    (Ins::PushImm(0x1234_5678), &[0x68, 0x78, 0x56, 0x34, 0x12]),
    (
        Ins::Shift(ShiftOp::Shl, Rm::Reg(Reg::Edx), 31),
        &[0xC1, 0xE2, 0x1F],
    ),
    (
        Ins::Shift(ShiftOp::Shl, Rm::Mem(at!(Ebp, 0)), 255),
        &[0xC1, 0x65, 0x00, 0xFF],
    ),
    (
        Ins::Shift(ShiftOp::Shr, Rm::Reg(Reg::Edx), 31),
        &[0xC1, 0xEA, 0x1F],
    ),
    (
        Ins::Shift(ShiftOp::Shr, Rm::Mem(at!(Ebp, 0)), 255),
        &[0xC1, 0x6D, 0x00, 0xFF],
    ),
    (
        Ins::Shift(ShiftOp::Sar, Rm::Reg(Reg::Edx), 31),
        &[0xC1, 0xFA, 0x1F],
    ),
    (
        Ins::Shift(ShiftOp::Sar, Rm::Mem(at!(Ebp, 0)), 255),
        &[0xC1, 0x7D, 0x00, 0xFF],
    ),
    (Ins::Imul(Reg::Edi, Rm::Reg(Reg::Ecx)), &[0x0F, 0xAF, 0xF9]),
    (
        Ins::Imul(Reg::Esi, Rm::Mem(at!(Ebx, 0x12C))),
        &[0x0F, 0xAF, 0xB3, 0x2C, 0x01, 0x00, 0x00],
    ),
    (Ins::Unary(UnaryOp::Not, Rm::Reg(Reg::Esi)), &[0xF7, 0xD6]),
    (
        Ins::Unary(
            UnaryOp::Not,
            Rm::Mem(Mem {
                base: None,
                disp: 0x40,
            }),
        ),
        &[0xF7, 0x15, 0x40, 0x00, 0x00, 0x00],
    ),
    (Ins::Unary(UnaryOp::Neg, Rm::Reg(Reg::Esi)), &[0xF7, 0xDE]),
    (
        Ins::Unary(
            UnaryOp::Neg,
            Rm::Mem(Mem {
                base: None,
                disp: 0x40,
            }),
        ),
        &[0xF7, 0x1D, 0x40, 0x00, 0x00, 0x00],
    ),
    (Ins::Unary(UnaryOp::Mul, Rm::Reg(Reg::Esi)), &[0xF7, 0xE6]),
    (
        Ins::Unary(
            UnaryOp::Mul,
            Rm::Mem(Mem {
                base: None,
                disp: 0x40,
            }),
        ),
        &[0xF7, 0x25, 0x40, 0x00, 0x00, 0x00],
    ),
    (Ins::Unary(UnaryOp::Div, Rm::Reg(Reg::Esi)), &[0xF7, 0xF6]),
    (
        Ins::Unary(
            UnaryOp::Div,
            Rm::Mem(Mem {
                base: None,
                disp: 0x40,
            }),
        ),
        &[0xF7, 0x35, 0x40, 0x00, 0x00, 0x00],
    ),
    (Ins::Jmp(0xFFFF_FFFE), &[0xE9, 0xFE, 0xFF, 0xFF, 0xFF]),
    (
        Ins::Jcc(Cond::O, 0x100),
        &[0x0F, 0x80, 0x00, 0x01, 0x00, 0x00],
    ),
    (
        Ins::Jcc(Cond::No, 0x100),
        &[0x0F, 0x81, 0x00, 0x01, 0x00, 0x00],
    ),
    (
        Ins::Jcc(Cond::B, 0x100),
        &[0x0F, 0x82, 0x00, 0x01, 0x00, 0x00],
    ),
    (
        Ins::Jcc(Cond::Ae, 0x100),
        &[0x0F, 0x83, 0x00, 0x01, 0x00, 0x00],
    ),
    (
        Ins::Jcc(Cond::E, 0x100),
        &[0x0F, 0x84, 0x00, 0x01, 0x00, 0x00],
    ),
    (
        Ins::Jcc(Cond::Ne, 0x100),
        &[0x0F, 0x85, 0x00, 0x01, 0x00, 0x00],
    ),
    (
        Ins::Jcc(Cond::Be, 0x100),
        &[0x0F, 0x86, 0x00, 0x01, 0x00, 0x00],
    ),
    (
        Ins::Jcc(Cond::A, 0x100),
        &[0x0F, 0x87, 0x00, 0x01, 0x00, 0x00],
    ),
    (
        Ins::Jcc(Cond::S, 0x100),
        &[0x0F, 0x88, 0x00, 0x01, 0x00, 0x00],
    ),
    (
        Ins::Jcc(Cond::Ns, 0x100),
        &[0x0F, 0x89, 0x00, 0x01, 0x00, 0x00],
    ),
    (
        Ins::Jcc(Cond::L, 0x100),
        &[0x0F, 0x8C, 0x00, 0x01, 0x00, 0x00],
    ),
    (
        Ins::Jcc(Cond::Ge, 0x100),
        &[0x0F, 0x8D, 0x00, 0x01, 0x00, 0x00],
    ),
    (
        Ins::Jcc(Cond::Le, 0x100),
        &[0x0F, 0x8E, 0x00, 0x01, 0x00, 0x00],
    ),
    (
        Ins::Jcc(Cond::G, 0x100),
        &[0x0F, 0x8F, 0x00, 0x01, 0x00, 0x00],
    ),
    (Ins::Call(0xFFFF_FFF0), &[0xE8, 0xF0, 0xFF, 0xFF, 0xFF]),
    (Ins::Ret, &[0xC3]),
    (Ins::Gate(0x80), &[0xCD, 0x80]),
    (Ins::Nop, &[0x90]),
];

/// Instructions and a spelling that is only read.
pub(crate) const OTHERS: &[(Ins, &[u8])] = &[
    (
        Ins::Load(Reg::Esi, 7),
        &[0xC7, 0xC6, 0x07, 0x00, 0x00, 0x00],
    ),
    (Ins::MovTo(Rm::Reg(Reg::Eax), Reg::Ebx), &[0x8B, 0xC3]),
    (
        Ins::Alu(AluOp::Add, Rm::Reg(Reg::Edx), Reg::Esi),
        &[0x03, 0xD6],
    ),
    (
        Ins::Alu(AluOp::Or, Rm::Reg(Reg::Edx), Reg::Esi),
        &[0x0B, 0xD6],
    ),
    (
        Ins::Alu(AluOp::And, Rm::Reg(Reg::Edx), Reg::Esi),
        &[0x23, 0xD6],
    ),
    (
        Ins::Alu(AluOp::Sub, Rm::Reg(Reg::Edx), Reg::Esi),
        &[0x2B, 0xD6],
    ),
    (
        Ins::Alu(AluOp::Xor, Rm::Reg(Reg::Edx), Reg::Esi),
        &[0x33, 0xD6],
    ),
    (
        Ins::Alu(AluOp::Cmp, Rm::Reg(Reg::Edx), Reg::Esi),
        &[0x3B, 0xD6],
    ),
    (
        Ins::AluImm(AluOp::Sub, Rm::Reg(Reg::Esp), 0xFFFF_FFFC),
        &[0x81, 0xEC, 0xFC, 0xFF, 0xFF, 0xFF],
    ),
    (Ins::Jmp(0xFFFF_FFFE), &[0xEB, 0xFE]),
    (Ins::Jcc(Cond::O, 0x7F), &[0x70, 0x7F]),
    (Ins::Jcc(Cond::Le, 0x7F), &[0x7E, 0x7F]),
    (Ins::Jcc(Cond::G, 0x7F), &[0x7F, 0x7F]),
    (Ins::MovFrom(Reg::Eax, at!(Ecx, 0)), &[0x8B, 0x41, 0x00]),
    (
        Ins::MovFrom(Reg::Eax, at!(Esp, 1)),
        &[0x8B, 0x84, 0x24, 0x01, 0x00, 0x00, 0x00],
    ),
    (
        Ins::MovFrom(Reg::Eax, at!(Ebp, 0)),
        &[0x8B, 0x85, 0x00, 0x00, 0x00, 0x00],
    ),
];

/// Prefixes that spell nothing, or end too early.
pub(crate) const NOTHING: &[&[u8]] = &[
    // mov eax with a SIB byte other than 24: an index, a scale, other bases
    &[0x8B, 0x04, 0x25, 0, 0, 0, 0],
    &[0x8B, 0x04, 0x64],
    &[0x8B, 0x04, 0x23],
    &[0x8B, 0x04, 0x0C],
    // byte registers 4 to 7, and forms of memory alone with mod 11
    &[0x88, 0x20],
    &[0x8A, 0x38],
    &[0x0F, 0xB6, 0xC4],
    &[0x88, 0xC0],
    &[0x8A, 0xC0],
    &[0x8D, 0xC0],
    // adc, sbb, rol, lidt's group, test in F7, idiv, C7 with another number
    &[0x11, 0xC8],
    &[0x83, 0xD0, 1],
    &[0x83, 0xD8, 1],
    &[0xC1, 0xC0, 1],
    &[0xC1, 0xF0, 1],
    &[0xF7, 0xC0, 0, 0, 0, 0],
    &[0xF7, 0xF8],
    &[0xC7, 0xC8, 0, 0, 0, 0],
    // jp, jnp, and opcodes of no instruction
    &[0x7A, 0],
    &[0x7B, 0],
    &[0x0F, 0x8A, 0, 0, 0, 0],
    &[0x0F, 0x8B, 0, 0, 0, 0],
    &[0x0F, 0x0B],
    &[0x00, 0xC0],
    &[0x04, 1],
    &[0x6A, 1],
    &[0x80, 0xC0, 1],
    &[0x8C, 0xC0],
    &[0xC2, 0, 0],
    &[0xF4],
    &[0xFF, 0xC0],
    // cut off
    &[0x0F],
    &[0x89],
    &[0x8B, 0x44],
    &[0x8B, 0x44, 0x24],
    &[0x8B, 0x05, 0, 0, 0],
    &[0xB8, 0, 0, 0],
    &[0xC7, 0x00, 0, 0, 0],
    &[0x83, 0xC0],
    &[0xC1, 0xE0],
    &[0xCD],
    &[0xEB],
    &[0xE9, 0, 0, 0],
];
