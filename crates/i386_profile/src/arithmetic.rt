//! Results and flags, on registers alone.

ghost use Rattle.std.specs.Prelude.{◌≡◌, ◌<◌, false};
ghost use Rattle.i386_profile.specs.Flags.{with_flags, with_carry_overflow, holds, alu_value, alu_flags};
ghost use Rattle.i386_profile.specs.Flags.{sum_overflows, difference_overflows, product_overflows};
ghost use Rattle.i386_profile.specs.Flags.{inc, dec, neg_flags, mul, shift_value, shift_carry, shift_overflow, shift_flags};

use crate::cpu::{Cpu, is_negative};
use crate::ins::{AluOp, Cond, ShiftOp};
use crate::operands::Reg;

/// The signed sum does not fit in 32 bits.
fn sum_overflows(a: u32, b: u32) -> bool
    ensures { result ≡ sum_overflows a b }
{
    let (_, overflow) = a.cast_signed().overflowing_add(b.cast_signed());
    overflow
}

/// The signed difference does not fit in 32 bits.
fn difference_overflows(a: u32, b: u32) -> bool
    ensures { result ≡ difference_overflows a b }
{
    let (_, overflow) = a.cast_signed().overflowing_sub(b.cast_signed());
    overflow
}

/// The signed product does not fit in 32 bits.
pub(crate) fn product_overflows(a: u32, b: u32) -> bool
    ensures { result ≡ product_overflows a b }
{
    let product = i64::from(a.cast_signed()) * i64::from(b.cast_signed());
    product < -0x8000_0000 || 0x7FFF_FFFF < product
}

pub(crate) fn alu_value(op: AluOp, a: u32, b: u32) -> u32
    ensures { result ≡ alu_value op a b }
{
    match op {
        AluOp::Add => a.wrapping_add(b),
        AluOp::Or => a | b,
        AluOp::And => a & b,
        AluOp::Sub | AluOp::Cmp => a.wrapping_sub(b),
        AluOp::Xor => a ^ b,
    }
}

pub(crate) fn shift_value(op: ShiftOp, a: u32, count: u32) -> u32
    requires { count < 32 }
    ensures { result ≡ shift_value op a count }
{
    match op {
        ShiftOp::Shl => a << count,
        ShiftOp::Shr => a >> count,
        ShiftOp::Sar => (a.cast_signed() >> count).cast_unsigned(),
    }
}

/// The last bit shifted out.
fn shift_carry(op: ShiftOp, a: u32, count: u32) -> bool
    requires low { 0 < count }
    requires high { count < 32 }
    ensures { result ≡ shift_carry op a count }
{
    match op {
        ShiftOp::Shl => (a >> (32 - count)) % 2 == 1,
        ShiftOp::Shr | ShiftOp::Sar => (a >> (count - 1)) % 2 == 1,
    }
}

/// The overflow of a shift by 1.
fn shift_overflow(op: ShiftOp, a: u32) -> bool
    ensures { result ≡ shift_overflow op a }
{
    match op {
        ShiftOp::Shl => is_negative(shift_value(op, a, 1)) != shift_carry(op, a, 1),
        ShiftOp::Shr => is_negative(a),
        ShiftOp::Sar => false,
    }
}

impl Cpu {
    pub(crate) fn set_alu_flags(&mut self, op: AluOp, a: u32, b: u32)
        ensures { self.new ≡ alu_flags op self.old a b }
    {
        let value = alu_value(op, a, b);
        match op {
            AluOp::Add => self.set_flags(value < a, sum_overflows(a, b), value),
            AluOp::Sub | AluOp::Cmp => self.set_flags(a < b, difference_overflows(a, b), value),
            AluOp::Or | AluOp::And | AluOp::Xor => self.set_flags(false, false, value),
        }
    }

    pub(crate) fn set_carry_overflow(&mut self, carry: bool, overflow: bool)
        ensures { self.new ≡ with_carry_overflow self.old carry overflow }
    {
        self.cf = carry;
        self.of = overflow;
    }

    pub(crate) fn increment(&mut self, r: Reg)
        ensures { self.new ≡ inc self.old r }
    {
        let a = self.get(r);
        let value = a.wrapping_add(1);
        self.set_flags(self.cf, sum_overflows(a, 1), value);
        self.set(r, value);
    }

    pub(crate) fn decrement(&mut self, r: Reg)
        ensures { self.new ≡ dec self.old r }
    {
        let a = self.get(r);
        let value = a.wrapping_sub(1);
        self.set_flags(self.cf, difference_overflows(a, 1), value);
        self.set(r, value);
    }

    pub(crate) fn set_neg_flags(&mut self, a: u32)
        ensures { self.new ≡ neg_flags self.old a }
    {
        self.set_flags(a != 0, difference_overflows(0, a), 0u32.wrapping_sub(a));
    }

    /// The double-length product of eax and the operand into edx:eax.
    pub(crate) fn multiply(&mut self, b: u32)
        ensures { self.new ≡ mul self.old b }
    {
        let product = u64::from(self.get(Reg::Eax)) * u64::from(b);
        self.set(Reg::Eax, (product % 0x1_0000_0000) as u32);
        self.set(Reg::Edx, (product / 0x1_0000_0000) as u32);
        let carry = product > 0xFFFF_FFFF;
        self.set_carry_overflow(carry, carry);
    }

    pub(crate) fn set_shift_flags(&mut self, op: ShiftOp, a: u32, count: u32)
        requires { count < 32 }
        ensures { self.new ≡ shift_flags op self.old a count }
    {
        if count == 0 {
            return;
        }
        let overflow = if count == 1 {
            shift_overflow(op, a)
        } else {
            self.of
        };
        self.set_flags(
            shift_carry(op, a, count),
            overflow,
            shift_value(op, a, count),
        );
    }

    pub(crate) fn holds(&self, c: Cond) -> bool
        ensures { result ≡ holds c self.now }
    {
        let less = self.sf != self.of;
        match c {
            Cond::O => self.of,
            Cond::No => !self.of,
            Cond::B => self.cf,
            Cond::Ae => !self.cf,
            Cond::E => self.zf,
            Cond::Ne => !self.zf,
            Cond::Be => self.cf || self.zf,
            Cond::A => !(self.cf || self.zf),
            Cond::S => self.sf,
            Cond::Ns => !self.sf,
            Cond::L => less,
            Cond::Ge => !less,
            Cond::Le => self.zf || less,
            Cond::G => !(self.zf || less),
        }
    }
}
