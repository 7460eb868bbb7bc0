//! Reading an instruction from the beginning of some bytes. Each reader answers what it read and
//! the bytes after it, or `None` where they begin with no such thing.

ghost use Rattle.std.specs.Prelude.{◌≡◌, ◌<◌, option_map};
ghost use Rattle.i386_profile.specs.Codes.{reg_code};
ghost use Rattle.i386_profile.specs.Reading.{reg_of, byte_reg_of, alu_of, shift_of, unary_of, cond_of};
ghost use Rattle.i386_profile.specs.Reading.{byte_at, doubleword_at, signed_byte_at, displaced_at, rm_at, operands_at, Operands as OperandsView};
ghost use Rattle.i386_profile.specs.Reading.{alu_at, register_at, immediate_at, short_jcc_at, jcc_at, alu_imm_at, mov_ins, mov_at, shift_at, put_at, gate_at};
ghost use Rattle.i386_profile.specs.Reading.{short_jmp_at, unary_at, imul_at, widen_at, two_byte_at, low_at, middle_at, high_at, instruction_at};

use crate::ins::{AluOp, Cond, Ins, ShiftOp, UnaryOp};
use crate::operands::{ByteReg, Mem, Reg, Rm};

/// The register of the low three bits.
fn reg(code: u8) -> Reg
    ensures { result ≡ reg_of code }
{
    match code {
        0 => Reg::Eax,
        1 => Reg::Ecx,
        2 => Reg::Edx,
        3 => Reg::Ebx,
        4 => Reg::Esp,
        5 => Reg::Ebp,
        6 => Reg::Esi,
        _ => Reg::Edi,
    }
}

fn byte_reg(code: u8) -> Option<ByteReg>
    ensures { result ≡ byte_reg_of code }
{
    match code {
        0 => Some(ByteReg::Al),
        1 => Some(ByteReg::Cl),
        2 => Some(ByteReg::Dl),
        3 => Some(ByteReg::Bl),
        _ => None,
    }
}

fn alu_op(code: u8) -> Option<AluOp>
    ensures { result ≡ alu_of code }
{
    match code {
        0 => Some(AluOp::Add),
        1 => Some(AluOp::Or),
        4 => Some(AluOp::And),
        5 => Some(AluOp::Sub),
        6 => Some(AluOp::Xor),
        7 => Some(AluOp::Cmp),
        _ => None,
    }
}

fn shift_op(code: u8) -> Option<ShiftOp>
    ensures { result ≡ shift_of code }
{
    match code {
        4 => Some(ShiftOp::Shl),
        5 => Some(ShiftOp::Shr),
        7 => Some(ShiftOp::Sar),
        _ => None,
    }
}

fn unary_op(code: u8) -> Option<UnaryOp>
    ensures { result ≡ unary_of code }
{
    match code {
        2 => Some(UnaryOp::Not),
        3 => Some(UnaryOp::Neg),
        4 => Some(UnaryOp::Mul),
        6 => Some(UnaryOp::Div),
        _ => None,
    }
}

fn cond(code: u8) -> Option<Cond>
    ensures { result ≡ cond_of code }
{
    match code {
        0 => Some(Cond::O),
        1 => Some(Cond::No),
        2 => Some(Cond::B),
        3 => Some(Cond::Ae),
        4 => Some(Cond::E),
        5 => Some(Cond::Ne),
        6 => Some(Cond::Be),
        7 => Some(Cond::A),
        8 => Some(Cond::S),
        9 => Some(Cond::Ns),
        12 => Some(Cond::L),
        13 => Some(Cond::Ge),
        14 => Some(Cond::Le),
        15 => Some(Cond::G),
        _ => None,
    }
}

#[inline(always)]
fn byte(bytes: &[u8]) -> Option<(u8, &[u8])>
    ensures { option_map (λ x. (x.0, x.1.now)) result ≡ byte_at bytes.now }
{
    match bytes {
        [] => None,
        [byte, rest @ ..] => Some((*byte, rest)),
    }
}

#[inline(always)]
fn doubleword(bytes: &[u8]) -> Option<(u32, &[u8])>
    ensures { option_map (λ x. (x.0, x.1.now)) result ≡ doubleword_at bytes.now }
{
    if bytes.len() < 4 {
        return None;
    }
    let (prefix, rest) = bytes.split_at(4);
    let number = u32::from_le_bytes([prefix[0], prefix[1], prefix[2], prefix[3]]);
    Some((number, rest))
}

#[inline(always)]
fn signed_byte(bytes: &[u8]) -> Option<(u32, &[u8])>
    ensures { option_map (λ x. (x.0, x.1.now)) result ≡ signed_byte_at bytes.now }
{
    let (byte, rest) = byte(bytes)?;
    let number = if byte < 0x80 {
        u32::from(byte)
    } else {
        u32::from(byte) + 0xFFFF_FF00
    };
    Some((number, rest))
}

/// A base and the displacement that mod announces.
#[tactic(auto, unfolding(crate::specs::Reading::displaced_at))]
fn displaced(mode: u8, base: Reg, bytes: &[u8]) -> Option<(Rm, &[u8])>
    ensures { option_map (λ x. (x.0, x.1.now)) result ≡ displaced_at mode base bytes.now }
{
    let (disp, rest) = match mode {
        0 => (0, bytes),
        1 => signed_byte(bytes)?,
        _ => doubleword(bytes)?,
    };
    Some((
        Rm::Mem(Mem {
            base: Some(base),
            disp,
        }),
        rest,
    ))
}

/// The operand of the fields mod and rm.
#[tactic(auto, unfolding(crate::specs::Reading::rm_at))]
#[inline(always)]
fn rm(mode: u8, code: u8, bytes: &[u8]) -> Option<(Rm, &[u8])>
    ensures { option_map (λ x. (x.0, x.1.now)) result ≡ rm_at mode code bytes.now }
{
    match (mode, code) {
        (3, _) => Some((Rm::Reg(reg(code)), bytes)),
        (_, 4) => {
            let (sib, rest) = byte(bytes)?;
            if sib != 0x24 {
                return None;
            }
            displaced(mode, Reg::Esp, rest)
        }
        (0, 5) => {
            let (disp, rest) = doubleword(bytes)?;
            Some((Rm::Mem(Mem { base: None, disp }), rest))
        }
        _ => displaced(mode, reg(code), bytes),
    }
}

/// What a ModRM byte names: the number in reg, and the operand of mod and rm.
#[derive(Clone, Copy)]
struct ModRm {
    reg: u8,
    rm: Rm,
}

#[tactic(auto, unfolding(crate::specs::Reading::operands_at))]
#[inline(always)]
fn operands(bytes: &[u8]) -> Option<(ModRm, &[u8])>
    ensures { option_map (λ x. (record { reg = x.0.reg; rm = x.0.rm }, x.1.now)) result
        ≡ operands_at bytes.now }
{
    let (modrm, rest) = byte(bytes)?;
    let (rm, rest) = rm(modrm / 64, modrm % 8, rest)?;
    let reg = modrm / 8 % 8;
    Some((ModRm { reg, rm }, rest))
}

/// 01 to 3B: an operation and its direction.
#[tactic(auto, unfolding(crate::specs::Reading::alu_at))]
#[inline(always)]
fn alu(opcode: u8, bytes: &[u8]) -> Option<(Ins, &[u8])>
    ensures { option_map (λ x. (x.0, x.1.now)) result ≡ alu_at opcode bytes.now }
{
    let op = alu_op(opcode / 8)?;
    let (operands, rest) = operands(bytes)?;
    let reg = reg(operands.reg);
    let ins = match (opcode % 8, operands.rm) {
        (1, rm) => Ins::Alu(op, rm, reg),
        (3, Rm::Reg(source)) => Ins::Alu(op, Rm::Reg(reg), source),
        (3, Rm::Mem(mem)) => Ins::AluFrom(op, reg, mem),
        _ => return None,
    };
    Some((ins, rest))
}

/// 40 to 5F: a register in the opcode.
#[tactic(auto, unfolding(crate::specs::Reading::register_at))]
#[inline(always)]
fn register(opcode: u8, bytes: &[u8]) -> Option<(Ins, &[u8])>
    ensures { option_map (λ x. (x.0, x.1.now)) result ≡ register_at opcode bytes.now }
{
    let reg = reg(opcode % 8);
    match opcode / 8 {
        8 => Some((Ins::Inc(reg), bytes)),
        9 => Some((Ins::Dec(reg), bytes)),
        10 => Some((Ins::Push(reg), bytes)),
        11 => Some((Ins::Pop(reg), bytes)),
        _ => None,
    }
}

/// 68, B8 to BF, E8, E9: a doubleword after the opcode.
#[tactic(auto, unfolding(crate::specs::Reading::immediate_at))]
#[inline(always)]
fn immediate(opcode: u8, bytes: &[u8]) -> Option<(Ins, &[u8])>
    ensures { option_map (λ x. (x.0, x.1.now)) result ≡ immediate_at opcode bytes.now }
{
    let (n, rest) = doubleword(bytes)?;
    let ins = match opcode {
        0x68 => Ins::PushImm(n),
        0xE8 => Ins::Call(n),
        0xE9 => Ins::Jmp(n),
        0xB8..=0xBF => Ins::Load(reg(opcode % 8), n),
        _ => return None,
    };
    Some((ins, rest))
}

/// 70 to 7F: a condition in the opcode.
#[tactic(auto, unfolding(crate::specs::Reading::short_jcc_at))]
#[inline(always)]
fn short_jcc(opcode: u8, bytes: &[u8]) -> Option<(Ins, &[u8])>
    ensures { option_map (λ x. (x.0, x.1.now)) result ≡ short_jcc_at opcode bytes.now }
{
    let cond = cond(opcode % 16)?;
    let (rel, rest) = signed_byte(bytes)?;
    Some((Ins::Jcc(cond, rel), rest))
}

/// 80 to 8F after 0F: the same with a distance of four bytes.
#[tactic(auto, unfolding(crate::specs::Reading::jcc_at))]
#[inline(always)]
fn jcc(opcode: u8, bytes: &[u8]) -> Option<(Ins, &[u8])>
    ensures { option_map (λ x. (x.0, x.1.now)) result ≡ jcc_at opcode bytes.now }
{
    let cond = cond(opcode % 16)?;
    let (rel, rest) = doubleword(bytes)?;
    Some((Ins::Jcc(cond, rel), rest))
}

/// 81 and 83: operands, and an immediate of four bytes or one.
#[tactic(auto, unfolding(crate::specs::Reading::alu_imm_at))]
#[inline(always)]
fn alu_imm(opcode: u8, bytes: &[u8]) -> Option<(Ins, &[u8])>
    ensures { option_map (λ x. (x.0, x.1.now)) result ≡ alu_imm_at opcode bytes.now }
{
    let (operands, rest) = operands(bytes)?;
    let op = alu_op(operands.reg)?;
    let (n, rest) = if opcode == 0x83 {
        signed_byte(rest)?
    } else {
        doubleword(rest)?
    };
    Some((Ins::AluImm(op, operands.rm, n), rest))
}

/// The instruction of 85, 88 to 8B, 8D with these operands.
#[inline(always)]
fn mov_ins(opcode: u8, code: u8, rm: Rm) -> Option<Ins>
    ensures { result ≡ mov_ins opcode code rm }
{
    let reg = reg(code);
    match (opcode, rm) {
        (0x85, rm) => Some(Ins::Test(rm, reg)),
        (0x88, Rm::Mem(mem)) => Some(Ins::ByteTo(mem, byte_reg(code)?)),
        (0x89, rm) => Some(Ins::MovTo(rm, reg)),
        (0x8A, Rm::Mem(mem)) => Some(Ins::ByteFrom(byte_reg(code)?, mem)),
        (0x8B, Rm::Reg(source)) => Some(Ins::MovTo(Rm::Reg(reg), source)),
        (0x8B, Rm::Mem(mem)) => Some(Ins::MovFrom(reg, mem)),
        (0x8D, Rm::Mem(mem)) => Some(Ins::Lea(reg, mem)),
        _ => None,
    }
}

/// 84 to 8F.
#[tactic(auto, unfolding(crate::specs::Reading::mov_at))]
#[inline(always)]
fn mov(opcode: u8, bytes: &[u8]) -> Option<(Ins, &[u8])>
    ensures { option_map (λ x. (x.0, x.1.now)) result ≡ mov_at opcode bytes.now }
{
    let (operands, rest) = operands(bytes)?;
    let ins = mov_ins(opcode, operands.reg, operands.rm)?;
    Some((ins, rest))
}

/// C1
#[tactic(auto, unfolding(crate::specs::Reading::shift_at))]
fn shift(bytes: &[u8]) -> Option<(Ins, &[u8])>
    ensures { option_map (λ x. (x.0, x.1.now)) result ≡ shift_at bytes.now }
{
    let (operands, rest) = operands(bytes)?;
    let op = shift_op(operands.reg)?;
    let (count, rest) = byte(rest)?;
    Some((Ins::Shift(op, operands.rm, count), rest))
}

/// C7
#[tactic(auto, unfolding(crate::specs::Reading::put_at))]
fn put(bytes: &[u8]) -> Option<(Ins, &[u8])>
    ensures { option_map (λ x. (x.0, x.1.now)) result ≡ put_at bytes.now }
{
    let (operands, rest) = operands(bytes)?;
    if operands.reg != 0 {
        return None;
    }
    let (n, rest) = doubleword(rest)?;
    let ins = match operands.rm {
        Rm::Reg(reg) => Ins::Load(reg, n),
        Rm::Mem(mem) => Ins::Put(mem, n),
    };
    Some((ins, rest))
}

/// CD
#[tactic(auto, unfolding(crate::specs::Reading::gate_at))]
#[inline(always)]
fn gate(bytes: &[u8]) -> Option<(Ins, &[u8])>
    ensures { option_map (λ x. (x.0, x.1.now)) result ≡ gate_at bytes.now }
{
    let (n, rest) = byte(bytes)?;
    Some((Ins::Gate(n), rest))
}

/// EB
#[tactic(auto, unfolding(crate::specs::Reading::short_jmp_at))]
#[inline(always)]
fn short_jmp(bytes: &[u8]) -> Option<(Ins, &[u8])>
    ensures { option_map (λ x. (x.0, x.1.now)) result ≡ short_jmp_at bytes.now }
{
    let (rel, rest) = signed_byte(bytes)?;
    Some((Ins::Jmp(rel), rest))
}

/// F7
#[tactic(auto, unfolding(crate::specs::Reading::unary_at))]
fn unary(bytes: &[u8]) -> Option<(Ins, &[u8])>
    ensures { option_map (λ x. (x.0, x.1.now)) result ≡ unary_at bytes.now }
{
    let (operands, rest) = operands(bytes)?;
    let op = unary_op(operands.reg)?;
    Some((Ins::Unary(op, operands.rm), rest))
}

/// AF after 0F.
#[tactic(auto, unfolding(crate::specs::Reading::imul_at))]
fn imul(bytes: &[u8]) -> Option<(Ins, &[u8])>
    ensures { option_map (λ x. (x.0, x.1.now)) result ≡ imul_at bytes.now }
{
    let (operands, rest) = operands(bytes)?;
    Some((Ins::Imul(reg(operands.reg), operands.rm), rest))
}

/// The byte register with the number of this register.
fn low_byte(r: Reg) -> Option<ByteReg>
    ensures { result ≡ byte_reg_of (reg_code r) }
{
    byte_reg(r.code())
}

/// B6 after 0F.
#[tactic(auto, unfolding(crate::specs::Reading::widen_at))]
fn widen(bytes: &[u8]) -> Option<(Ins, &[u8])>
    ensures { option_map (λ x. (x.0, x.1.now)) result ≡ widen_at bytes.now }
{
    let (operands, rest) = operands(bytes)?;
    let reg = reg(operands.reg);
    let ins = match operands.rm {
        Rm::Reg(source) => Ins::WidenReg(reg, low_byte(source)?),
        Rm::Mem(mem) => Ins::Widen(reg, mem),
    };
    Some((ins, rest))
}

/// What follows the escape 0F.
#[tactic(auto, unfolding(crate::specs::Reading::two_byte_at))]
#[inline(always)]
fn two_byte(bytes: &[u8]) -> Option<(Ins, &[u8])>
    ensures { option_map (λ x. (x.0, x.1.now)) result ≡ two_byte_at bytes.now }
{
    let (opcode, rest) = byte(bytes)?;
    match opcode {
        0x80..=0x8F => jcc(opcode, rest),
        0xAF => imul(rest),
        0xB6 => widen(rest),
        _ => None,
    }
}

/// 00 to 7F
#[tactic(auto, unfolding(crate::specs::Reading::low_at))]
#[inline(always)]
fn low(opcode: u8, bytes: &[u8]) -> Option<(Ins, &[u8])>
    ensures { option_map (λ x. (x.0, x.1.now)) result ≡ low_at opcode bytes.now }
{
    match opcode {
        0x0F => two_byte(bytes),
        0x00..=0x3F => alu(opcode, bytes),
        0x40..=0x5F => register(opcode, bytes),
        0x68 => immediate(opcode, bytes),
        0x70..=0x7F => short_jcc(opcode, bytes),
        _ => None,
    }
}

/// 80 to BF
#[tactic(auto, unfolding(crate::specs::Reading::middle_at))]
#[inline(always)]
fn middle(opcode: u8, bytes: &[u8]) -> Option<(Ins, &[u8])>
    ensures { option_map (λ x. (x.0, x.1.now)) result ≡ middle_at opcode bytes.now }
{
    match opcode {
        0x81 | 0x83 => alu_imm(opcode, bytes),
        0x84..=0x8F => mov(opcode, bytes),
        0x90 => Some((Ins::Nop, bytes)),
        0xB8..=0xBF => immediate(opcode, bytes),
        _ => None,
    }
}

/// C0 to FF
#[tactic(auto, unfolding(crate::specs::Reading::high_at))]
#[inline(always)]
fn high(opcode: u8, bytes: &[u8]) -> Option<(Ins, &[u8])>
    ensures { option_map (λ x. (x.0, x.1.now)) result ≡ high_at opcode bytes.now }
{
    match opcode {
        0xC1 => shift(bytes),
        0xC3 => Some((Ins::Ret, bytes)),
        0xC7 => put(bytes),
        0xCD => gate(bytes),
        0xE8 | 0xE9 => immediate(opcode, bytes),
        0xEB => short_jmp(bytes),
        0xF7 => unary(bytes),
        _ => None,
    }
}

/// The instruction at the beginning.
#[tactic(auto, unfolding(crate::specs::Reading::instruction_at))]
#[inline(always)]
pub(crate) fn instruction(bytes: &[u8]) -> Option<(Ins, &[u8])>
    ensures { option_map (λ x. (x.0, x.1.now)) result ≡ instruction_at bytes.now }
{
    let (opcode, rest) = byte(bytes)?;
    match opcode {
        0x00..=0x7F => low(opcode, rest),
        0x80..=0xBF => middle(opcode, rest),
        _ => high(opcode, rest),
    }
}
