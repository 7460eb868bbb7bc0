//! What an instruction does to registers, flags and the segment. What can lie outside is tried
//! before anything is changed.

ghost use Rattle.std.specs.Prelude.{◌≡◌, ◌≢◌, if◌then◌else◌};
ghost use Rattle.i386_profile.specs.Segments.{Makes};
ghost use Rattle.i386_profile.specs.Flags.{set, inc, dec, jump_state, holds};
ghost use Rattle.i386_profile.specs.Effects.{state, step_of, load_rm, store_rm, after_mov_from, after_byte_to, after_byte_from, after_widen};
ghost use Rattle.i386_profile.specs.Effects.{after_alu, after_alu_from, after_test, after_shift, after_imul, after_not, after_neg, after_mul, after_div};
ghost use Rattle.i386_profile.specs.Effects.{after_push, after_pop, after_call, after_ret, does_unary, Answers, Does, IsKeptByFault};

use crate::arithmetic::{alu_value, product_overflows, shift_value};
use crate::cpu::{Cpu, FaultKind, Step};
use crate::ins::{AluOp, Cond, Ins, ShiftOp, UnaryOp};
use crate::operands::{Mem, Reg, Rm};
use crate::segment::{Outside, Segment};

/// The operand's value.
fn load<S: Segment>(rm: Rm, cpu: &Cpu, seg: &S) -> Result<u32, Outside>
    ensures { result ≡ load_rm (state cpu.now (S.bytes seg.now)) rm }
{
    match rm {
        Rm::Reg(r) => Ok(cpu.get(r)),
        Rm::Mem(m) => seg.load32(cpu.address(m)),
    }
}

/// The operand gets a new value.
fn store<S: Segment>(rm: Rm, value: u32, cpu: &mut Cpu, seg: &mut S) -> Result<(), Outside>
    ensures { Makes (store_rm rm value) result
        (state cpu.old (S.bytes seg.old)) (state cpu.new (S.bytes seg.new)) }
{
    match rm {
        Rm::Reg(r) => {
            cpu.set(r, value);
            Ok(())
        }
        Rm::Mem(m) => seg.store32(cpu.address(m), value),
    }
}

/// `mov r, m`
#[tactic(auto, unfolding(crate::specs::Effects::after_mov_from))]
fn mov_from<S: Segment>(r: Reg, m: Mem, cpu: &mut Cpu, seg: &mut S) -> Result<(), Outside>
    ensures { Makes (after_mov_from r m) result
        (state cpu.old (S.bytes seg.old)) (state cpu.new (S.bytes seg.new)) }
{
    let value = seg.load32(cpu.address(m))?;
    cpu.set(r, value);
    Ok(())
}

/// `mov m, b`, where b is the low byte of r
#[tactic(auto, unfolding(crate::specs::Effects::after_byte_to))]
fn byte_to<S: Segment>(m: Mem, r: Reg, cpu: &mut Cpu, seg: &mut S) -> Result<(), Outside>
    ensures { Makes (after_byte_to m r) result
        (state cpu.old (S.bytes seg.old)) (state cpu.new (S.bytes seg.new)) }
{
    seg.store8(cpu.address(m), (cpu.get(r) % 256) as u8)
}

/// `mov b, m`, where b is the low byte of r
#[tactic(auto, unfolding(crate::specs::Effects::after_byte_from))]
fn byte_from<S: Segment>(r: Reg, m: Mem, cpu: &mut Cpu, seg: &mut S) -> Result<(), Outside>
    ensures { Makes (after_byte_from r m) result
        (state cpu.old (S.bytes seg.old)) (state cpu.new (S.bytes seg.new)) }
{
    let value = seg.load8(cpu.address(m))?;
    let kept = cpu.get(r) / 256 * 256;
    cpu.set(r, kept + u32::from(value));
    Ok(())
}

/// `movzx r, byte m`
#[tactic(auto, unfolding(crate::specs::Effects::after_widen))]
fn widen<S: Segment>(r: Reg, m: Mem, cpu: &mut Cpu, seg: &mut S) -> Result<(), Outside>
    ensures { Makes (after_widen r m) result
        (state cpu.old (S.bytes seg.old)) (state cpu.new (S.bytes seg.new)) }
{
    let value = seg.load8(cpu.address(m))?;
    cpu.set(r, u32::from(value));
    Ok(())
}

/// `op rm, b`
#[tactic(auto, unfolding(crate::specs::Effects::after_alu))]
#[inline(always)]
fn alu<S: Segment>(op: AluOp, rm: Rm, b: u32, cpu: &mut Cpu, seg: &mut S) -> Result<(), Outside>
    ensures { Makes (after_alu op rm b) result
        (state cpu.old (S.bytes seg.old)) (state cpu.new (S.bytes seg.new)) }
{
    let a = load(rm, cpu, seg)?;
    if op != AluOp::Cmp {
        store(rm, alu_value(op, a, b), cpu, seg)?;
    }
    cpu.set_alu_flags(op, a, b);
    Ok(())
}

/// `op r, m`
#[tactic(auto, unfolding(crate::specs::Effects::after_alu_from))]
fn alu_from<S: Segment>(
    op: AluOp,
    r: Reg,
    m: Mem,
    cpu: &mut Cpu,
    seg: &mut S,
) -> Result<(), Outside>
    ensures { Makes (after_alu_from op r m) result
        (state cpu.old (S.bytes seg.old)) (state cpu.new (S.bytes seg.new)) }
{
    let b = seg.load32(cpu.address(m))?;
    alu(op, Rm::Reg(r), b, cpu, seg)
}

/// `test rm, b`
#[tactic(auto, unfolding(crate::specs::Effects::after_test))]
fn test<S: Segment>(rm: Rm, b: u32, cpu: &mut Cpu, seg: &mut S) -> Result<(), Outside>
    ensures { Makes (after_test rm b) result
        (state cpu.old (S.bytes seg.old)) (state cpu.new (S.bytes seg.new)) }
{
    let a = load(rm, cpu, seg)?;
    cpu.set_flags(false, false, a & b);
    Ok(())
}

/// `shl`, `shr`, `sar`
#[tactic(auto, unfolding(crate::specs::Effects::after_shift))]
#[inline(always)]
fn shift<S: Segment>(
    op: ShiftOp,
    rm: Rm,
    count: u8,
    cpu: &mut Cpu,
    seg: &mut S,
) -> Result<(), Outside>
    ensures { Makes (after_shift op rm count) result
        (state cpu.old (S.bytes seg.old)) (state cpu.new (S.bytes seg.new)) }
{
    let count = u32::from(count % 32);
    let a = load(rm, cpu, seg)?;
    store(rm, shift_value(op, a, count), cpu, seg)?;
    cpu.set_shift_flags(op, a, count);
    Ok(())
}

/// `imul r, rm`
#[tactic(auto, unfolding(crate::specs::Effects::after_imul))]
fn imul<S: Segment>(r: Reg, rm: Rm, cpu: &mut Cpu, seg: &mut S) -> Result<(), Outside>
    ensures { Makes (after_imul r rm) result
        (state cpu.old (S.bytes seg.old)) (state cpu.new (S.bytes seg.new)) }
{
    let b = load(rm, cpu, seg)?;
    let a = cpu.get(r);
    let overflow = product_overflows(a, b);
    cpu.set_carry_overflow(overflow, overflow);
    cpu.set(r, a.wrapping_mul(b));
    Ok(())
}

/// `not rm`
#[tactic(auto, unfolding(crate::specs::Effects::after_not))]
fn not<S: Segment>(rm: Rm, cpu: &mut Cpu, seg: &mut S) -> Result<(), Outside>
    ensures { Makes (after_not rm) result
        (state cpu.old (S.bytes seg.old)) (state cpu.new (S.bytes seg.new)) }
{
    let a = load(rm, cpu, seg)?;
    store(rm, 0xFFFF_FFFF - a, cpu, seg)
}

/// `neg rm`
#[tactic(auto, unfolding(crate::specs::Effects::after_neg))]
fn neg<S: Segment>(rm: Rm, cpu: &mut Cpu, seg: &mut S) -> Result<(), Outside>
    ensures { Makes (after_neg rm) result
        (state cpu.old (S.bytes seg.old)) (state cpu.new (S.bytes seg.new)) }
{
    let a = load(rm, cpu, seg)?;
    store(rm, 0u32.wrapping_sub(a), cpu, seg)?;
    cpu.set_neg_flags(a);
    Ok(())
}

/// `mul rm`
#[tactic(auto, unfolding(crate::specs::Effects::after_mul))]
fn mul<S: Segment>(rm: Rm, cpu: &mut Cpu, seg: &mut S) -> Result<(), Outside>
    ensures { Makes (after_mul rm) result
        (state cpu.old (S.bytes seg.old)) (state cpu.new (S.bytes seg.new)) }
{
    let b = load(rm, cpu, seg)?;
    cpu.multiply(b);
    Ok(())
}

/// `div rm`
#[tactic(auto, unfolding(crate::specs::Effects::after_div))]
fn div<S: Segment>(rm: Rm, cpu: &mut Cpu, seg: &mut S) -> Step
    ensures effect { Answers (after_div rm (state cpu.old (S.bytes seg.old))) result
        (state cpu.old (S.bytes seg.old)) (state cpu.new (S.bytes seg.new)) }
    ensures never_instruction { result ≢ Step.Fault FaultKind.Instruction }
{
    let Ok(divisor) = load(rm, cpu, seg) else {
        return Step::Fault(FaultKind::Segment);
    };
    let dividend = u64::from(cpu.get(Reg::Edx)) * 0x1_0000_0000 + u64::from(cpu.get(Reg::Eax));
    if divisor == 0 {
        return Step::Fault(FaultKind::Divide);
    }
    let quotient = dividend / u64::from(divisor);
    if quotient > 0xFFFF_FFFF {
        return Step::Fault(FaultKind::Divide);
    }
    cpu.set(Reg::Eax, quotient as u32);
    cpu.set(Reg::Edx, (dividend % u64::from(divisor)) as u32);
    Step::Next
}

/// `push`
#[tactic(auto, unfolding(crate::specs::Effects::after_push))]
fn push<S: Segment>(value: u32, cpu: &mut Cpu, seg: &mut S) -> Result<(), Outside>
    ensures { Makes (after_push value) result
        (state cpu.old (S.bytes seg.old)) (state cpu.new (S.bytes seg.new)) }
{
    let top = cpu.get(Reg::Esp).wrapping_sub(4);
    seg.store32(top, value)?;
    cpu.set(Reg::Esp, top);
    Ok(())
}

/// `pop r`
#[tactic(auto, unfolding(crate::specs::Effects::after_pop))]
fn pop<S: Segment>(r: Reg, cpu: &mut Cpu, seg: &mut S) -> Result<(), Outside>
    ensures { Makes (after_pop r) result
        (state cpu.old (S.bytes seg.old)) (state cpu.new (S.bytes seg.new)) }
{
    let top = cpu.get(Reg::Esp);
    let value = seg.load32(top)?;
    cpu.set(Reg::Esp, top.wrapping_add(4));
    cpu.set(r, value);
    Ok(())
}

/// `call`
#[tactic(auto, unfolding(crate::specs::Effects::after_call))]
fn call<S: Segment>(rel: u32, cpu: &mut Cpu, seg: &mut S) -> Result<(), Outside>
    ensures { Makes (after_call rel) result
        (state cpu.old (S.bytes seg.old)) (state cpu.new (S.bytes seg.new)) }
{
    push(cpu.eip, cpu, seg)?;
    cpu.eip = cpu.eip.wrapping_add(rel);
    Ok(())
}

/// `ret`
#[tactic(auto, unfolding(crate::specs::Effects::after_ret))]
fn ret<S: Segment>(cpu: &mut Cpu, seg: &mut S) -> Result<(), Outside>
    ensures { Makes after_ret result
        (state cpu.old (S.bytes seg.old)) (state cpu.new (S.bytes seg.new)) }
{
    let top = cpu.get(Reg::Esp);
    let value = seg.load32(top)?;
    cpu.set(Reg::Esp, top.wrapping_add(4));
    cpu.eip = value;
    Ok(())
}

/// An access that lies outside is the fault Segment.
fn step(result_of: Result<(), Outside>) -> Step
    ensures { result ≡ step_of result_of }
{
    match result_of {
        Ok(()) => Step::Next,
        Err(Outside) => Step::Fault(FaultKind::Segment),
    }
}

/// A register gets a value.
fn set(r: Reg, value: u32, cpu: &mut Cpu) -> Step
    ensures next { result ≡ Step.Next }
    ensures value { cpu.new ≡ set cpu.old r value }
{
    cpu.set(r, value);
    Step::Next
}

/// `inc r`
fn increment(r: Reg, cpu: &mut Cpu) -> Step
    ensures next { result ≡ Step.Next }
    ensures value { cpu.new ≡ inc cpu.old r }
{
    cpu.increment(r);
    Step::Next
}

/// `dec r`
fn decrement(r: Reg, cpu: &mut Cpu) -> Step
    ensures next { result ≡ Step.Next }
    ensures value { cpu.new ≡ dec cpu.old r }
{
    cpu.decrement(r);
    Step::Next
}

/// `jmp`
fn jump(rel: u32, cpu: &mut Cpu) -> Step
    ensures next { result ≡ Step.Next }
    ensures target { cpu.new ≡ jump_state cpu.old rel }
{
    cpu.eip = cpu.eip.wrapping_add(rel);
    Step::Next
}

/// A jump under a condition.
fn jump_if(c: Cond, rel: u32, cpu: &mut Cpu) -> Step
    ensures next { result ≡ Step.Next }
    ensures target { cpu.new ≡ (if holds c cpu.old then jump_state cpu.old rel else cpu.old) }
{
    if cpu.holds(c) {
        jump(rel, cpu)
    } else {
        Step::Next
    }
}

/// `not`, `neg`, `mul`, `div`
#[inline(always)]
fn unary<S: Segment>(op: UnaryOp, rm: Rm, cpu: &mut Cpu, seg: &mut S) -> Step
    ensures effect { Answers (does_unary op rm (state cpu.old (S.bytes seg.old))) result
        (state cpu.old (S.bytes seg.old)) (state cpu.new (S.bytes seg.new)) }
    ensures never_instruction { result ≢ Step.Fault FaultKind.Instruction }
{
    match op {
        UnaryOp::Not => step(not(rm, cpu, seg)),
        UnaryOp::Neg => step(neg(rm, cpu, seg)),
        UnaryOp::Mul => step(mul(rm, cpu, seg)),
        UnaryOp::Div => div(rm, cpu, seg),
    }
}

/// Carries one instruction out. On entry `cpu.eip` is the offset after it. `Fault(Segment)` comes
/// exactly where an access lies outside, `Fault(Divide)` exactly where a divisor is 0 or a quotient
/// passes 32 bits.
#[inline(always)]
pub fn exec<S: Segment>(ins: &Ins, cpu: &mut Cpu, seg: &mut S) -> Step
    ensures effect { Does ins.now result
        (state cpu.old (S.bytes seg.old)) (state cpu.new (S.bytes seg.new)) }
    // That no instruction stands there is for `decode` to find.
    ensures never_instruction { result ≢ Step.Fault FaultKind.Instruction }
    ensures kept { IsKeptByFault result
        (state cpu.old (S.bytes seg.old)) (state cpu.new (S.bytes seg.new)) }
{
    match *ins {
        Ins::Load(r, n) => set(r, n, cpu),
        Ins::Put(m, n) => step(store(Rm::Mem(m), n, cpu, seg)),
        Ins::MovTo(rm, r) => step(store(rm, cpu.get(r), cpu, seg)),
        Ins::MovFrom(r, m) => step(mov_from(r, m, cpu, seg)),
        Ins::ByteTo(m, b) => step(byte_to(m, b.whole(), cpu, seg)),
        Ins::ByteFrom(b, m) => step(byte_from(b.whole(), m, cpu, seg)),
        Ins::Widen(r, m) => step(widen(r, m, cpu, seg)),
        Ins::WidenReg(r, b) => set(r, cpu.get(b.whole()) % 256, cpu),
        Ins::Lea(r, m) => set(r, cpu.address(m), cpu),
        Ins::Alu(op, rm, r) => step(alu(op, rm, cpu.get(r), cpu, seg)),
        Ins::AluFrom(op, r, m) => step(alu_from(op, r, m, cpu, seg)),
        Ins::AluImm(op, rm, n) => step(alu(op, rm, n, cpu, seg)),
        Ins::Test(rm, r) => step(test(rm, cpu.get(r), cpu, seg)),
        Ins::Inc(r) => increment(r, cpu),
        Ins::Dec(r) => decrement(r, cpu),
        Ins::Push(r) => step(push(cpu.get(r), cpu, seg)),
        Ins::Pop(r) => step(pop(r, cpu, seg)),
        Ins::PushImm(n) => step(push(n, cpu, seg)),
        Ins::Shift(op, rm, count) => step(shift(op, rm, count, cpu, seg)),
        Ins::Imul(r, rm) => step(imul(r, rm, cpu, seg)),
        Ins::Unary(op, rm) => unary(op, rm, cpu, seg),
        Ins::Jmp(rel) => jump(rel, cpu),
        Ins::Jcc(c, rel) => jump_if(c, rel, cpu),
        Ins::Call(rel) => step(call(rel, cpu, seg)),
        Ins::Ret => step(ret(cpu, seg)),
        Ins::Gate(n) => Step::Gate(n),
        Ins::Nop => Step::Next,
    }
}
