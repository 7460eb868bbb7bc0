//! The bytes of a statement.

ghost use Rattle.std.specs.Prelude.{◌≡◌, ◌≤◌, ◌++◌, length, replicate, OnOk};
ghost use Rattle.i386_profile.specs.Chosen.{chosen};
ghost use Rattle.pal_asm.specs.Statements.{branch_by, branch_at, distance, target_offset, target_label, bytes_at, size_of, label_of};
ghost use Rattle.pal_asm.specs.SeenStatements.{statement_view};

use crate::name::Name;
use crate::names::Branch;
use crate::operand::Target;
use crate::statement::Statement;
use flk_base::{Bytes, NoMemory};
use i386_profile::{Ins, encode};

fn branch_by(branch: Branch, rel: u32) -> Ins
    ensures { result ≡ branch_by branch rel }
{
    match branch {
        Branch::Jmp => Ins::Jmp(rel),
        Branch::Jcc(condition) => Ins::Jcc(condition, rel),
        Branch::Call => Ins::Call(rel),
    }
}

/// An offset as a distance from another, modulo 2^32.
fn distance(target: u32, after: u32) -> u32
    ensures { result ≡ distance target after }
{
    target.wrapping_sub(after)
}

/// How many bytes an instruction has.
fn ins_size(ins: Ins) -> usize
    ensures value { result ≡ length (chosen ins) }
    ensures most { result ≤ 16 }
{
    encode(&ins, &mut [0; 16])
}

/// A jump or a call at an offset.
fn branch_at(branch: Branch, target: u32, at: u32) -> Ins
    ensures { chosen result ≡ branch_at branch target at }
{
    let after = at.wrapping_add(ins_size(branch_by(branch, 0)) as u32);
    branch_by(branch, distance(target, after))
}

fn target_offset(value: u32, target: Target) -> u32
    ensures { result ≡ target_offset value target }
{
    match target {
        Target::Label(_) => value,
        Target::Offset(offset) => offset,
    }
}

fn target_label(target: Target) -> Option<Name>
    ensures { result ≡ target_label target }
{
    match target {
        Target::Label(name) => Some(name),
        Target::Offset(_) => None,
    }
}

/// The label that a statement waits for.
pub(crate) fn label_of(statement: &Statement) -> Option<Name>
    ensures { result ≡ label_of (statement_view statement.now) }
{
    match statement {
        Statement::LoadLabel(_, name) | Statement::PushLabel(name) => Some(*name),
        Statement::Jump(_, target) => target_label(*target),
        _ => None,
    }
}

/// How many bytes a statement has, whatever its label's value and wherever it stands.
pub(crate) fn size_of(statement: &Statement) -> usize
    ensures { result ≡ size_of (statement_view statement.now) }
{
    match statement {
        Statement::Whole(ins) => ins_size(*ins),
        Statement::LoadLabel(r, _) => ins_size(Ins::Load(*r, 0)),
        Statement::PushLabel(_) => ins_size(Ins::PushImm(0)),
        Statement::Jump(branch, target) => {
            ins_size(branch_at(*branch, target_offset(0, *target), 0))
        }
        Statement::Bytes(bytes) => bytes.as_slice().len(),
        Statement::Long(_) => 4,
        Statement::Zeros(count) => *count as usize,
    }
}

fn put_ins(code: &mut Bytes, ins: Ins) -> Result<(), NoMemory>
    ensures { OnOk result (code.new.bytes ≡ code.old.bytes ++ chosen ins) }
{
    let mut spelling = [0; 16];
    let length = encode(&ins, &mut spelling);
    code.push_all(&spelling[..length])
}

fn put_zeros(code: &mut Bytes, count: usize) -> Result<(), NoMemory>
    ensures { OnOk result (code.new.bytes ≡ code.old.bytes ++ replicate count 0) }
{
    code.reserve(count)?;
    for _i in 0..count {
        code.put(&[0]);
    }
    Ok(())
}

/// Appends the bytes of a statement at an offset, where the label that it waits for has this value.
pub(crate) fn put_statement(
    code: &mut Bytes,
    statement: &Statement,
    at: u32,
    value: u32,
) -> Result<(), NoMemory>
    ensures { OnOk result (code.new.bytes ≡ code.old.bytes
        ++ bytes_at at value (statement_view statement.now)) }
{
    match statement {
        Statement::Whole(ins) => put_ins(code, *ins),
        Statement::LoadLabel(r, _) => put_ins(code, Ins::Load(*r, value)),
        Statement::PushLabel(_) => put_ins(code, Ins::PushImm(value)),
        Statement::Jump(branch, target) => {
            let offset = target_offset(value, *target);
            put_ins(code, branch_at(*branch, offset, at))
        }
        Statement::Bytes(bytes) => code.push_all(bytes.as_slice()),
        Statement::Long(n) => code.push_all(&n.to_le_bytes()),
        Statement::Zeros(count) => put_zeros(code, *count as usize),
    }
}
