//! What a statement stands for, by its word and its operands.

ghost use Rattle.std.specs.Prelude.{◌≡◌, ◌≢◌, true, [], ◌∷◌, ◌++◌, map, option_map, option_and_then, MatchOption, MatchResult};
ghost use Rattle.pal_asm.specs.Statements.{memory, mov_of, movzx_of, lea_of, alu_of, test_of, push_of, shift_of, imul_of, unary_of, branch_of, int_of, long_of, zero_of, statement_of, least_number, most_number};
ghost use Rattle.pal_asm.specs.Statements.{Bytes as Spelled};
ghost use Rattle.pal_asm.specs.Seen.{operand_as, RefusesAlone};
ghost use Rattle.pal_asm.specs.SeenStatements.{statement_view, operand_list, pieces, AreMore, number_byte, operand_byte};
ghost use Rattle.pal_asm.specs.Tokens.{tokens};
ghost use Rattle.pal_asm.specs.Operands.{all_operands, operand_of, operands_of, is_in_range};
ghost use Rattle.pal_asm.specs.Assembling.{statement_in};
ghost use Rattle.std.specs.List.{list_all};

use crate::commas::split_comma;
use crate::fault::{AsmKind, LineFault};
use crate::limits::MOST_CODE;
use crate::name::Name;
use crate::names::{Branch, Mnemonic};
use crate::numbers::{low8, low32};
use crate::operand::{Operand, Place, Target, is_in_range, is_within, operand_of};
use crate::tokens::is_blank_text;
use flk_base::Bytes;
use i386_profile::{AluOp, Ins, Mem, Reg, Rm, ShiftOp, UnaryOp};
use std::alloc::Global;

/// A statement: an instruction, one that waits for a label's value, or bytes.
#[derive(Drop)]
pub(crate) enum Statement {
    Whole(Ins),
    LoadLabel(Reg, Name),
    PushLabel(Name),
    Jump(Branch, Target),
    Bytes(Bytes),
    Long(u32),
    Zeros(u32),
}

/// The operands of a statement.
#[derive(Clone, Copy)]
enum Operands {
    Nothing,
    One(Operand),
    Two(Operand, Operand),
}

fn memory(place: Place) -> Mem
    ensures { result ≡ memory place }
{
    Mem {
        base: place.base,
        disp: low32(place.displacement),
    }
}

fn mov_of(a: Operand, b: Operand) -> Option<Statement>
    ensures { option_map statement_view result ≡ mov_of (a ∷ b ∷ []) }
{
    match (a, b) {
        (Operand::Register(r), Operand::Number(n)) => Some(Statement::Whole(Ins::Load(
            r,
            low32(n),
        ))),
        (Operand::Register(r), Operand::Label(name)) => Some(Statement::LoadLabel(r, name)),
        (Operand::Dword(p), Operand::Number(n)) => {
            Some(Statement::Whole(Ins::Put(memory(p), low32(n))))
        }
        (Operand::Register(s), Operand::Register(r)) => {
            Some(Statement::Whole(Ins::MovTo(Rm::Reg(s), r)))
        }
        (Operand::Memory(p), Operand::Register(r)) => {
            Some(Statement::Whole(Ins::MovTo(Rm::Mem(memory(p)), r)))
        }
        (Operand::Register(r), Operand::Memory(p)) => {
            Some(Statement::Whole(Ins::MovFrom(r, memory(p))))
        }
        (Operand::Memory(p), Operand::ByteRegister(b)) => {
            Some(Statement::Whole(Ins::ByteTo(memory(p), b)))
        }
        (Operand::ByteRegister(b), Operand::Memory(p)) => {
            Some(Statement::Whole(Ins::ByteFrom(b, memory(p))))
        }
        _ => None,
    }
}

fn movzx_of(a: Operand, b: Operand) -> Option<Statement>
    ensures { option_map statement_view result ≡ movzx_of (a ∷ b ∷ []) }
{
    match (a, b) {
        (Operand::Register(r), Operand::Byte(p)) => Some(Statement::Whole(Ins::Widen(
            r,
            memory(p),
        ))),
        (Operand::Register(r), Operand::ByteRegister(b)) => Some(Statement::Whole(Ins::WidenReg(
            r, b,
        ))),
        _ => None,
    }
}

fn lea_of(a: Operand, b: Operand) -> Option<Statement>
    ensures { option_map statement_view result ≡ lea_of (a ∷ b ∷ []) }
{
    match (a, b) {
        (Operand::Register(r), Operand::Memory(p)) => Some(Statement::Whole(Ins::Lea(
            r,
            memory(p),
        ))),
        _ => None,
    }
}

fn alu_of(op: AluOp, a: Operand, b: Operand) -> Option<Statement>
    ensures { option_map statement_view result ≡ alu_of op (a ∷ b ∷ []) }
{
    match (a, b) {
        (Operand::Register(s), Operand::Register(r)) => Some(Statement::Whole(Ins::Alu(
            op,
            Rm::Reg(s),
            r,
        ))),
        (Operand::Memory(p), Operand::Register(r)) => Some(Statement::Whole(Ins::Alu(
            op,
            Rm::Mem(memory(p)),
            r,
        ))),
        (Operand::Register(r), Operand::Memory(p)) => Some(Statement::Whole(Ins::AluFrom(
            op,
            r,
            memory(p),
        ))),
        (Operand::Register(r), Operand::Number(n)) => Some(Statement::Whole(Ins::AluImm(
            op,
            Rm::Reg(r),
            low32(n),
        ))),
        (Operand::Dword(p), Operand::Number(n)) => {
            Some(Statement::Whole(Ins::AluImm(op, Rm::Mem(memory(p)), low32(n))))
        }
        _ => None,
    }
}

fn test_of(a: Operand, b: Operand) -> Option<Statement>
    ensures { option_map statement_view result ≡ test_of (a ∷ b ∷ []) }
{
    match (a, b) {
        (Operand::Register(s), Operand::Register(r)) => Some(Statement::Whole(Ins::Test(
            Rm::Reg(s),
            r,
        ))),
        (Operand::Memory(p), Operand::Register(r)) => Some(Statement::Whole(Ins::Test(
            Rm::Mem(memory(p)),
            r,
        ))),
        _ => None,
    }
}

fn shift_of(op: ShiftOp, a: Operand, b: Operand) -> Option<Statement>
    ensures { option_map statement_view result ≡ shift_of op (a ∷ b ∷ []) }
{
    match (a, b) {
        (Operand::Register(r), Operand::Number(n)) => Some(Statement::Whole(Ins::Shift(
            op,
            Rm::Reg(r),
            low8(n),
        ))),
        (Operand::Dword(p), Operand::Number(n)) => Some(Statement::Whole(Ins::Shift(
            op,
            Rm::Mem(memory(p)),
            low8(n),
        ))),
        _ => None,
    }
}

fn imul_of(a: Operand, b: Operand) -> Option<Statement>
    ensures { option_map statement_view result ≡ imul_of (a ∷ b ∷ []) }
{
    match (a, b) {
        (Operand::Register(r), Operand::Register(s)) => Some(Statement::Whole(Ins::Imul(
            r,
            Rm::Reg(s),
        ))),
        (Operand::Register(r), Operand::Memory(p)) => Some(Statement::Whole(Ins::Imul(
            r,
            Rm::Mem(memory(p)),
        ))),
        _ => None,
    }
}

fn push_of(a: Operand) -> Option<Statement>
    ensures { option_map statement_view result ≡ push_of (a ∷ []) }
{
    match a {
        Operand::Register(r) => Some(Statement::Whole(Ins::Push(r))),
        Operand::Number(n) => Some(Statement::Whole(Ins::PushImm(low32(n)))),
        Operand::Label(name) => Some(Statement::PushLabel(name)),
        _ => None,
    }
}

fn inc_of(a: Operand) -> Option<Statement>
    ensures { option_map statement_view result ≡ statement_of Mnemonic.Inc (a ∷ []) }
{
    match a {
        Operand::Register(r) => Some(Statement::Whole(Ins::Inc(r))),
        _ => None,
    }
}

fn dec_of(a: Operand) -> Option<Statement>
    ensures { option_map statement_view result ≡ statement_of Mnemonic.Dec (a ∷ []) }
{
    match a {
        Operand::Register(r) => Some(Statement::Whole(Ins::Dec(r))),
        _ => None,
    }
}

fn pop_of(a: Operand) -> Option<Statement>
    ensures { option_map statement_view result ≡ statement_of Mnemonic.Pop (a ∷ []) }
{
    match a {
        Operand::Register(r) => Some(Statement::Whole(Ins::Pop(r))),
        _ => None,
    }
}

fn unary_of(op: UnaryOp, a: Operand) -> Option<Statement>
    ensures { option_map statement_view result ≡ unary_of op (a ∷ []) }
{
    match a {
        Operand::Register(r) => Some(Statement::Whole(Ins::Unary(op, Rm::Reg(r)))),
        Operand::Dword(p) => Some(Statement::Whole(Ins::Unary(op, Rm::Mem(memory(p))))),
        _ => None,
    }
}

fn branch_of(branch: Branch, a: Operand) -> Option<Statement>
    ensures { option_map statement_view result ≡ branch_of branch (a ∷ []) }
{
    match a {
        Operand::Label(name) => Some(Statement::Jump(branch, Target::Label(name))),
        Operand::Number(n) => Some(Statement::Jump(branch, Target::Offset(low32(n)))),
        _ => None,
    }
}

fn int_of(a: Operand) -> Option<Statement>
    ensures { option_map statement_view result ≡ int_of (a ∷ []) }
{
    match a {
        Operand::Number(n) => Some(Statement::Whole(Ins::Gate(low8(n)))),
        _ => None,
    }
}

fn long_of(a: Operand) -> Option<Statement>
    ensures { option_map statement_view result ≡ long_of (a ∷ []) }
{
    match a {
        Operand::Number(n) => Some(Statement::Long(low32(n))),
        _ => None,
    }
}

fn zero_of(a: Operand) -> Option<Statement>
    ensures { option_map statement_view result ≡ zero_of (a ∷ []) }
{
    match a {
        Operand::Number(n) => Some(Statement::Zeros(low32(n))),
        _ => None,
    }
}

/// A statement without operands.
fn with_none(mnemonic: Mnemonic) -> Option<Statement>
    ensures { option_map statement_view result ≡ statement_of mnemonic [] }
{
    match mnemonic {
        Mnemonic::Ret => Some(Statement::Whole(Ins::Ret)),
        Mnemonic::Nop => Some(Statement::Whole(Ins::Nop)),
        _ => None,
    }
}

/// A statement with one operand.
fn with_one(mnemonic: Mnemonic, a: Operand) -> Option<Statement>
    requires { mnemonic ≢ Mnemonic.Byte }
    ensures { option_map statement_view result ≡ statement_of mnemonic (a ∷ []) }
{
    match mnemonic {
        Mnemonic::Inc => inc_of(a),
        Mnemonic::Dec => dec_of(a),
        Mnemonic::Push => push_of(a),
        Mnemonic::Pop => pop_of(a),
        Mnemonic::Unary(op) => unary_of(op, a),
        Mnemonic::Branch(branch) => branch_of(branch, a),
        Mnemonic::Int => int_of(a),
        Mnemonic::Long => long_of(a),
        Mnemonic::Zero => zero_of(a),
        _ => None,
    }
}

/// A statement with two operands.
fn with_two(mnemonic: Mnemonic, a: Operand, b: Operand) -> Option<Statement>
    requires { mnemonic ≢ Mnemonic.Byte }
    ensures { option_map statement_view result ≡ statement_of mnemonic (a ∷ b ∷ []) }
{
    match mnemonic {
        Mnemonic::Mov => mov_of(a, b),
        Mnemonic::Movzx => movzx_of(a, b),
        Mnemonic::Lea => lea_of(a, b),
        Mnemonic::Alu(op) => alu_of(op, a, b),
        Mnemonic::Test => test_of(a, b),
        Mnemonic::Shift(op) => shift_of(op, a, b),
        Mnemonic::Imul => imul_of(a, b),
        _ => None,
    }
}

fn statement_of(mnemonic: Mnemonic, operands: Operands) -> Option<Statement>
    requires { mnemonic ≢ Mnemonic.Byte }
    ensures { option_map statement_view result ≡ statement_of mnemonic (operand_list operands) }
{
    match operands {
        Operands::Nothing => with_none(mnemonic),
        Operands::One(a) => with_one(mnemonic, a),
        Operands::Two(a, b) => with_two(mnemonic, a, b),
    }
}

/// The least number that may stand with a word, outside brackets.
fn least_number(mnemonic: Mnemonic) -> i64
    ensures { result ≡ least_number mnemonic }
{
    match mnemonic {
        Mnemonic::Shift(_) | Mnemonic::Branch(_) | Mnemonic::Int | Mnemonic::Zero => 0,
        Mnemonic::Byte => -128,
        _ => -0x8000_0000,
    }
}

/// The most.
fn most_number(mnemonic: Mnemonic) -> i64
    ensures { result ≡ most_number mnemonic }
{
    match mnemonic {
        Mnemonic::Shift(_) | Mnemonic::Int | Mnemonic::Byte => 255,
        Mnemonic::Zero => MOST_CODE as i64,
        _ => 0xFFFF_FFFF,
    }
}

fn are_in_range(mnemonic: Mnemonic, operands: &Operands) -> bool
    ensures { result ≡ list_all (is_in_range (least_number mnemonic) (most_number mnemonic))
        (operand_list operands.now) }
{
    let least = least_number(mnemonic);
    let most = most_number(mnemonic);
    match operands {
        Operands::Nothing => true,
        Operands::One(a) => is_in_range(least, most, *a),
        Operands::Two(a, b) => is_in_range(least, most, *a) && is_in_range(least, most, *b),
    }
}

/// One operand with no comma.
fn sole_operand(text: &[u8]) -> Option<Operand>
    ensures { MatchOption result (AreMore 1 (all_operands (pieces text.now)))
        (λ o. option_map (map operand_as) (all_operands (pieces text.now)) ≡ Some (o ∷ [])) }
{
    let (piece, after) = split_comma(text);
    match after {
        None => operand_of(piece),
        Some(_) => None,
    }
}

/// One or two operands.
fn some_operands(text: &[u8]) -> Option<Operands>
    ensures { MatchOption result (AreMore 2 (all_operands (pieces text.now)))
        (λ os. option_map (map operand_as) (all_operands (pieces text.now))
        ≡ Some (operand_list os)) }
{
    let (first, after) = split_comma(text);
    match after {
        None => Some(Operands::One(operand_of(first)?)),
        Some(rest) => {
            let a = operand_of(first)?;
            Some(Operands::Two(a, sole_operand(rest)?))
        }
    }
}

/// None, one or two operands. Nothing but `.byte` takes more.
fn operands_of(text: &[u8]) -> Option<Operands>
    ensures { MatchOption result (AreMore 2 (operands_of (tokens text.now)))
        (λ os. option_map (map operand_as) (operands_of (tokens text.now))
        ≡ Some (operand_list os)) }
{
    if is_blank_text(text) {
        Some(Operands::Nothing)
    } else {
        some_operands(text)
    }
}

/// A number of `.byte`: its low byte, where it is in range.
#[derive(Clone, Copy)]
enum ByteNumber {
    Within(u8),
    Outside,
}

fn number_byte(n: i64) -> ByteNumber
    ensures { result ≡ number_byte n }
{
    if is_within(-128, 255, n) {
        ByteNumber::Within(low8(n))
    } else {
        ByteNumber::Outside
    }
}

/// That of an operand, which must be a number.
fn operand_byte(operand: Operand) -> Option<ByteNumber>
    ensures { result ≡ operand_byte operand }
{
    match operand {
        Operand::Number(n) => Some(number_byte(n)),
        _ => None,
    }
}

/// That of a text.
fn byte_of(piece: &[u8]) -> Option<ByteNumber>
    ensures { result ≡ option_and_then operand_byte (operand_of (tokens piece.now)) }
{
    match operand_of(piece) {
        Some(operand) => operand_byte(operand),
        None => None,
    }
}

/// One more byte after those before, where there was room for them and is room for it.
fn keep(bytes: &mut Bytes, is_room: bool, byte: u8) -> bool
    ensures { result ≡ true → (is_room ≡ true) × (bytes.new.bytes ≡ bytes.old.bytes ++ byte ∷ []) }
{
    is_room && bytes.push_all(&[byte]).is_ok()
}

/// One number or more, between commas. A piece that is none comes before a number outside its
/// range, and both before out of memory.
fn bytes_of(alloc: Global, text: &[u8]) -> Result<Bytes, LineFault>
    ensures { MatchResult result
        (λ bytes. statement_in (Some (Mnemonic.Byte, tokens text.now))
        ≡ Ok (Some (Spelled bytes.bytes)))
        (λ fault. RefusesAlone fault (statement_in (Some (Mnemonic.Byte, tokens text.now)))) }
{
    let mut bytes = Bytes::new(alloc);
    let mut are_in_range = true;
    let mut is_room = true;
    let mut rest = Some(text);
    'pieces: while let Some(pieces) = rest {
        let (piece, after) = split_comma(pieces);
        let Some(byte) = byte_of(piece) else {
            return Err(LineFault::Kind(AsmKind::Operand));
        };
        match byte {
            ByteNumber::Within(byte) => is_room = keep(&mut bytes, is_room, byte),
            ByteNumber::Outside => are_in_range = false,
        }
        rest = after;
    }
    if !are_in_range {
        Err(LineFault::Kind(AsmKind::Range))
    } else if is_room {
        Ok(bytes)
    } else {
        Err(LineFault::NoMemory)
    }
}

/// A statement of a word that takes at most two operands: its form, then its ranges.
fn plain_statement(mnemonic: Mnemonic, text: &[u8]) -> Result<Statement, AsmKind>
    requires { mnemonic ≢ Mnemonic.Byte }
    ensures { MatchResult result
        (λ statement. statement_in (Some (mnemonic, tokens text.now))
        ≡ Ok (Some (statement_view statement)))
        (λ kind. statement_in (Some (mnemonic, tokens text.now)) ≡ Err kind) }
{
    let Some(operands) = operands_of(text) else {
        return Err(AsmKind::Operand);
    };
    let fits = are_in_range(mnemonic, &operands);
    let Some(statement) = statement_of(mnemonic, operands) else {
        return Err(AsmKind::Operand);
    };
    if fits {
        Ok(statement)
    } else {
        Err(AsmKind::Range)
    }
}

/// A statement by its word and the text after it, or its first fault.
pub(crate) fn statement_in(
    alloc: Global,
    mnemonic: Mnemonic,
    text: &[u8],
) -> Result<Statement, LineFault>
    ensures { MatchResult result
        (λ statement. statement_in (Some (mnemonic, tokens text.now))
        ≡ Ok (Some (statement_view statement)))
        (λ fault. RefusesAlone fault (statement_in (Some (mnemonic, tokens text.now)))) }
{
    match mnemonic {
        Mnemonic::Byte => Ok(Statement::Bytes(bytes_of(alloc, text)?)),
        _ => plain_statement(mnemonic, text).map_err(LineFault::Kind),
    }
}
