//! What instructions do, against a processor and against the manuals. eip is 0x100 on entry.

use crate::accesses::{ACCESSES, Access, BYTES, FAULTS, JUMPS};
use crate::block::Block;
use crate::vectors::{CONDITIONS, Row, TRAPS, VECTORS, WIDE, WideRow};
use i386_profile::{Cpu, FaultKind, Step, decode, exec};

/// Registers and flags, the flags by their letters.
fn cpu(regs: [u32; 8], eip: u32, flags: &[u8; 4]) -> Cpu {
    Cpu {
        regs,
        eip,
        cf: flags[0] == b'C',
        zf: flags[1] == b'Z',
        sf: flags[2] == b'S',
        of: flags[3] == b'O',
    }
}

fn are_same_flags(a: &Cpu, b: &Cpu) -> bool {
    a.cf == b.cf && a.zf == b.zf && a.sf == b.sf && a.of == b.of
}

fn is_same(a: &Cpu, b: &Cpu) -> bool {
    a.regs == b.regs && a.eip == b.eip && are_same_flags(a, b)
}

/// eax, ecx, edx and flags, where the other registers are 0.
fn state_of(regs: [u32; 3], flags: &[u8; 4]) -> Cpu {
    let [a, c, d] = regs;
    cpu([a, c, d, 0, 0, 0, 0, 0], 0x100, flags)
}

/// What stands there, read and carried out; nothing where no instruction stands there.
fn step_of(code: &[u8], state: &mut Cpu, block: &mut Block) -> Option<Step> {
    if code.is_empty() {
        return None;
    }
    match decode(code, 0) {
        Ok((ins, _)) => Some(exec(&ins, state, block)),
        Err(_) => None,
    }
}

fn is_next(step: Option<Step>) -> bool {
    matches!(step, Some(Step::Next))
}

fn is_fault(step: Option<Step>, kind: FaultKind) -> bool {
    match step {
        Some(Step::Fault(found)) => found as u8 == kind as u8,
        _ => false,
    }
}

/// The instruction leads from one state to the other, over no memory.
fn leads_to(code: &[u8], before: Cpu, after: &Cpu) -> bool {
    let mut state = before;
    is_next(step_of(code, &mut state, &mut Block { bytes: BYTES })) && is_same(&state, after)
}

fn is_answer(code: &[u8], row: &Row) -> bool {
    let (a, c, flags, eax, left) = row;
    leads_to(
        code,
        state_of([*a, *c, 5], flags),
        &state_of([*eax, *c, 5], left),
    )
}

fn is_wide_answer(code: &[u8], row: &WideRow) -> bool {
    let ([a, c, d], flags, [eax, edx], left) = row;
    leads_to(
        code,
        state_of([*a, *c, *d], flags),
        &state_of([*eax, *c, *edx], left),
    )
}

/// `div ecx` faults, and leaves all as it was.
fn is_trap(regs: [u32; 3]) -> bool {
    let before = state_of(regs, b"CZSO");
    let mut state = before;
    let step = step_of(&[0xF7, 0xF1], &mut state, &mut Block { bytes: BYTES });
    is_fault(step, FaultKind::Divide) && is_same(&state, &before)
}

#[test]
fn answers_of_a_processor(rt: HostRuntime) {
    for (i, (code, rows)) in VECTORS.iter().enumerate() {
        assert!(rt; rows.iter().all(|row| is_answer(code, row)), "row {i}");
    }
}

#[test]
fn wide_answers_of_a_processor(rt: HostRuntime) {
    for (i, (code, rows)) in WIDE.iter().enumerate() {
        assert!(rt; rows.iter().all(|row| is_wide_answer(code, row)), "row {i}");
    }
}

#[test]
fn traps_of_a_processor(rt: HostRuntime) {
    for (i, regs) in TRAPS.iter().enumerate() {
        assert!(rt; is_trap(*regs), "row {i}");
    }
}

/// A jump by 5 is taken (`y`), is not (`n`), or does not exist.
fn is_condition(opcode: u8, flags: &[u8; 4], taken: u8) -> bool {
    let code = [opcode, 5];
    let before = cpu([0; 8], 0x100, flags);
    match taken {
        b'y' => leads_to(&code, before, &cpu([0; 8], 0x105, flags)),
        b'n' => leads_to(&code, before, &before),
        _ => decode(&code, 0).is_err(),
    }
}

#[test]
fn conditions_of_a_processor(rt: HostRuntime) {
    for (i, (flags, taken)) in CONDITIONS.iter().enumerate() {
        let mut opcodes = (0x70u8..0x80).zip(taken.iter());
        assert!(rt;
            opcodes.all(|(opcode, taken)| is_condition(opcode, flags, *taken)),
            "row {i}"
        );
    }
}

fn is_access(row: &Access) -> bool {
    let (code, regs, flags, after, eip, left, bytes) = row;
    let mut state = cpu(*regs, 0x100, flags);
    let mut block = Block { bytes: BYTES };
    is_next(step_of(code, &mut state, &mut block))
        && is_same(&state, &cpu(*after, *eip, left))
        && block.bytes == *bytes
}

#[test]
fn accesses_by_the_manuals(rt: HostRuntime) {
    for (i, row) in ACCESSES.iter().enumerate() {
        assert!(rt; is_access(row), "row {i}");
    }
}

/// The instruction faults so, and leaves all as it was.
fn is_fault_at(code: &[u8], regs: [u32; 8], kind: FaultKind) -> bool {
    let before = cpu(regs, 0x100, b"CZSO");
    let mut state = before;
    let mut block = Block { bytes: BYTES };
    is_fault(step_of(code, &mut state, &mut block), kind)
        && is_same(&state, &before)
        && block.bytes == BYTES
}

#[test]
fn faults_by_the_manuals(rt: HostRuntime) {
    for (i, (code, regs, kind)) in FAULTS.iter().enumerate() {
        assert!(rt; is_fault_at(code, *regs, *kind), "row {i}");
    }
}

fn is_jump(code: &[u8], flags: &[u8; 4], eip: u32) -> bool {
    leads_to(code, cpu([0; 8], 0x100, flags), &cpu([0; 8], eip, flags))
}

#[test]
fn jumps_by_the_manuals(rt: HostRuntime) {
    for (i, (code, flags, eip)) in JUMPS.iter().enumerate() {
        assert!(rt; is_jump(code, flags, *eip), "row {i}");
    }
}

/// `int 0x80` changes nothing and calls the machine.
fn is_gate() -> bool {
    let before = cpu([7; 8], 0x100, b"C.S.");
    let mut state = before;
    let mut block = Block { bytes: BYTES };
    matches!(
        step_of(&[0xCD, 0x80], &mut state, &mut block),
        Some(Step::Gate(0x80))
    ) && is_same(&state, &before)
        && block.bytes == BYTES
}

#[test]
fn gate(rt: HostRuntime) {
    assert!(rt; is_gate());
}
