//! From an instruction to its chosen spelling.

ghost use Rattle.std.specs.Prelude.{◌≡◌, ◌+◌, ◌≤◌, ◌<◌, [], ◌∷◌, ◌++◌, length, drop};
ghost use Rattle.i386_profile.specs.Codes.{reg_code};
ghost use Rattle.i386_profile.specs.Spelling.{modrm_base, one_byte, two_byte};
ghost use Rattle.i386_profile.specs.Chosen.{low_byte, doubleword, is_signed_byte, chosen_memory, chosen_rm, chosen_alu_imm, chosen};
ghost use Rattle.i386_profile.specs.Laws.{ChosenSpells, RoundTrip};

use crate::ins::Ins;
use crate::operands::{Mem, Reg, Rm};
use crate::writer::Writer;

/// -128 to 127, modulo 2^32.
fn is_signed_byte(n: u32) -> bool
    ensures { result ≡ is_signed_byte n }
{
    n < 0x80 || 0xFFFF_FF80 <= n
}

fn low_byte(n: u32, w: &mut Writer)
    requires room { length w.old < 16 }
    ensures { w.new ≡ w.old ++ low_byte n }
{
    w.byte((n % 256) as u8);
}

/// ModRM with a base, and the SIB byte that esp takes.
#[tactic(auto, unfolding(crate::specs::Spelling::modrm))]
fn modrm_base(mode: u8, reg: u8, base: Reg, w: &mut Writer)
    requires mode { mode < 4 }
    requires reg { reg < 8 }
    requires room { length w.old ≤ 14 }
    ensures { w.new ≡ w.old ++ modrm_base mode reg base }
{
    w.byte(64 * mode + 8 * reg + base.code());
    if base == Reg::Esp {
        w.byte(0x24);
    }
}

#[tactic(auto, unfolding(crate::specs::Spelling::modrm))]
fn memory(reg: u8, m: Mem, w: &mut Writer)
    requires reg { reg < 8 }
    requires room { length w.old ≤ 10 }
    ensures { w.new ≡ w.old ++ chosen_memory reg m.base m.disp }
{
    match m.base {
        None => {
            w.byte(8 * reg + 5);
            w.doubleword(m.disp);
        }
        Some(base) => {
            if m.disp == 0 && base.code() != 5 {
                modrm_base(0, reg, base, w);
            } else if is_signed_byte(m.disp) {
                modrm_base(1, reg, base, w);
                low_byte(m.disp, w);
            } else {
                modrm_base(2, reg, base, w);
                w.doubleword(m.disp);
            }
        }
    }
}

#[tactic(auto, unfolding(crate::specs::Spelling::modrm))]
fn operand(reg: u8, rm: Rm, w: &mut Writer)
    requires reg { reg < 8 }
    requires room { length w.old ≤ 10 }
    ensures { w.new ≡ w.old ++ chosen_rm reg rm }
{
    match rm {
        Rm::Reg(r) => w.byte(64 * 3 + 8 * reg + r.code()),
        Rm::Mem(m) => memory(reg, m, w),
    }
}

/// An opcode, and an operand with this number in reg.
fn slash(opcode: u8, reg: u8, rm: Rm, w: &mut Writer)
    requires reg { reg < 8 }
    requires empty { w.old ≡ [] }
    ensures written { w.new ≡ one_byte opcode ++ chosen_rm reg rm }
    ensures room { length w.new ≤ 7 }
{
    w.byte(opcode);
    operand(reg, rm, w);
}

/// The same after 0F.
fn escaped(opcode: u8, r: Reg, rm: Rm, w: &mut Writer)
    requires empty { w.old ≡ [] }
    ensures { w.new ≡ two_byte opcode ++ chosen_rm (reg_code r) rm }
{
    w.byte(0x0F);
    w.byte(opcode);
    operand(r.code(), rm, w);
}

fn alu_imm(code: u8, rm: Rm, n: u32, w: &mut Writer)
    requires reg { code < 8 }
    requires empty { w.old ≡ [] }
    ensures { w.new ≡ chosen_alu_imm code rm n }
{
    if is_signed_byte(n) {
        slash(0x83, code, rm, w);
        low_byte(n, w);
    } else {
        slash(0x81, code, rm, w);
        w.doubleword(n);
    }
}

/// An opcode and a doubleword.
fn immediate(opcode: u8, n: u32, w: &mut Writer)
    requires empty { w.old ≡ [] }
    ensures { w.new ≡ one_byte opcode ++ doubleword n }
{
    w.byte(opcode);
    w.doubleword(n);
}

fn jcc(code: u8, rel: u32, w: &mut Writer)
    requires code { code < 16 }
    requires empty { w.old ≡ [] }
    ensures { w.new ≡ two_byte (0x80 + code) ++ doubleword rel }
{
    w.byte(0x0F);
    w.byte(0x80 + code);
    w.doubleword(rel);
}

fn put(m: Mem, n: u32, w: &mut Writer)
    requires empty { w.old ≡ [] }
    ensures { w.new ≡ one_byte 0xC7 ++ chosen_rm 0 (Rm.Mem m) ++ doubleword n }
{
    slash(0xC7, 0, Rm::Mem(m), w);
    w.doubleword(n);
}

fn shift(code: u8, rm: Rm, count: u8, w: &mut Writer)
    requires code { code < 8 }
    requires empty { w.old ≡ [] }
    ensures { w.new ≡ one_byte 0xC1 ++ chosen_rm code rm ++ count ∷ [] }
{
    slash(0xC1, code, rm, w);
    w.byte(count);
}

fn gate(n: u8, w: &mut Writer)
    requires empty { w.old ≡ [] }
    ensures { w.new ≡ one_byte 0xCD ++ n ∷ [] }
{
    w.byte(0xCD);
    w.byte(n);
}

fn write(ins: Ins, w: &mut Writer)
    requires empty { w.old ≡ [] }
    ensures { w.new ≡ chosen ins }
{
    match ins {
        Ins::Load(r, n) => immediate(0xB8 + r.code(), n, w),
        Ins::Put(m, n) => put(m, n, w),
        Ins::MovTo(rm, r) => slash(0x89, r.code(), rm, w),
        Ins::MovFrom(r, m) => slash(0x8B, r.code(), Rm::Mem(m), w),
        Ins::ByteTo(m, b) => slash(0x88, b.whole().code(), Rm::Mem(m), w),
        Ins::ByteFrom(b, m) => slash(0x8A, b.whole().code(), Rm::Mem(m), w),
        Ins::Widen(r, m) => escaped(0xB6, r, Rm::Mem(m), w),
        Ins::WidenReg(r, b) => escaped(0xB6, r, Rm::Reg(b.whole()), w),
        Ins::Lea(r, m) => slash(0x8D, r.code(), Rm::Mem(m), w),
        Ins::Alu(op, rm, r) => slash(0x01 + 8 * op.code(), r.code(), rm, w),
        Ins::AluFrom(op, r, m) => slash(0x03 + 8 * op.code(), r.code(), Rm::Mem(m), w),
        Ins::AluImm(op, rm, n) => alu_imm(op.code(), rm, n, w),
        Ins::Test(rm, r) => slash(0x85, r.code(), rm, w),
        Ins::Inc(r) => w.byte(0x40 + r.code()),
        Ins::Dec(r) => w.byte(0x48 + r.code()),
        Ins::Push(r) => w.byte(0x50 + r.code()),
        Ins::Pop(r) => w.byte(0x58 + r.code()),
        Ins::PushImm(n) => immediate(0x68, n, w),
        Ins::Shift(op, rm, count) => shift(op.code(), rm, count, w),
        Ins::Imul(r, rm) => escaped(0xAF, r, rm, w),
        Ins::Unary(op, rm) => slash(0xF7, op.code(), rm, w),
        Ins::Jmp(rel) => immediate(0xE9, rel, w),
        Ins::Jcc(c, rel) => jcc(c.code(), rel, w),
        Ins::Call(rel) => immediate(0xE8, rel, w),
        Ins::Ret => w.byte(0xC3),
        Ins::Gate(n) => gate(n, w),
        Ins::Nop => w.byte(0x90),
    }
}

/// Writes the chosen spelling at the beginning of `out`, leaves the rest, and answers the
/// spelling's length in bytes.
pub fn encode(ins: &Ins, out: &mut [u8; 16]) -> usize
    ensures written { out.new ≡ chosen ins.now ++ drop result out.old }
    ensures length { result ≡ length (chosen ins.now) }
    ensures least { 1 ≤ result }
    ensures most { result ≤ 16 }
{
    let mut w = Writer::new();
    write(*ins, &mut w);
    w.copy_to(out)
}

/// Every instruction has a spelling: the one that `encode` writes, of at most 11 bytes.
pub fn chosen_spells()
    ensures { ChosenSpells }
{}

/// What `encode` writes, `decode` reads, whatever follows.
pub fn round_trip()
    ensures { RoundTrip }
{}
