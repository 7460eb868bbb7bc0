//! The names of registers and statements, each once.

ghost use Rattle.std.specs.Prelude.{◌≡◌};
ghost use Rattle.pal_asm.specs.Names.{register_name, byte_register_name, mnemonic_name, register_of, byte_register_of, other_name, own_name, mnemonic_of};

use i386_profile::{AluOp, ByteReg, Cond, Reg, ShiftOp, UnaryOp};

/// A jump or a call.
#[derive(Clone, Copy)]
pub(crate) enum Branch {
    Jmp,
    Jcc(Cond),
    Call,
}

/// What the word that begins a statement stands for.
#[derive(Clone, Copy)]
pub(crate) enum Mnemonic {
    Mov,
    Movzx,
    Lea,
    Alu(AluOp),
    Test,
    Inc,
    Dec,
    Push,
    Pop,
    Shift(ShiftOp),
    Imul,
    Unary(UnaryOp),
    Branch(Branch),
    Ret,
    Int,
    Nop,
    Byte,
    Long,
    Zero,
}

const REGISTERS: [Reg; 8] = [
    Reg::Eax,
    Reg::Ecx,
    Reg::Edx,
    Reg::Ebx,
    Reg::Esp,
    Reg::Ebp,
    Reg::Esi,
    Reg::Edi,
];

const BYTE_REGISTERS: [ByteReg; 4] = [ByteReg::Al, ByteReg::Cl, ByteReg::Dl, ByteReg::Bl];

const MNEMONICS: [Mnemonic; 44] = [
    Mnemonic::Mov,
    Mnemonic::Movzx,
    Mnemonic::Lea,
    Mnemonic::Alu(AluOp::Add),
    Mnemonic::Alu(AluOp::Or),
    Mnemonic::Alu(AluOp::And),
    Mnemonic::Alu(AluOp::Sub),
    Mnemonic::Alu(AluOp::Xor),
    Mnemonic::Alu(AluOp::Cmp),
    Mnemonic::Test,
    Mnemonic::Inc,
    Mnemonic::Dec,
    Mnemonic::Push,
    Mnemonic::Pop,
    Mnemonic::Shift(ShiftOp::Shl),
    Mnemonic::Shift(ShiftOp::Shr),
    Mnemonic::Shift(ShiftOp::Sar),
    Mnemonic::Imul,
    Mnemonic::Unary(UnaryOp::Not),
    Mnemonic::Unary(UnaryOp::Neg),
    Mnemonic::Unary(UnaryOp::Mul),
    Mnemonic::Unary(UnaryOp::Div),
    Mnemonic::Branch(Branch::Jmp),
    Mnemonic::Branch(Branch::Jcc(Cond::O)),
    Mnemonic::Branch(Branch::Jcc(Cond::No)),
    Mnemonic::Branch(Branch::Jcc(Cond::B)),
    Mnemonic::Branch(Branch::Jcc(Cond::Ae)),
    Mnemonic::Branch(Branch::Jcc(Cond::E)),
    Mnemonic::Branch(Branch::Jcc(Cond::Ne)),
    Mnemonic::Branch(Branch::Jcc(Cond::Be)),
    Mnemonic::Branch(Branch::Jcc(Cond::A)),
    Mnemonic::Branch(Branch::Jcc(Cond::S)),
    Mnemonic::Branch(Branch::Jcc(Cond::Ns)),
    Mnemonic::Branch(Branch::Jcc(Cond::L)),
    Mnemonic::Branch(Branch::Jcc(Cond::Ge)),
    Mnemonic::Branch(Branch::Jcc(Cond::Le)),
    Mnemonic::Branch(Branch::Jcc(Cond::G)),
    Mnemonic::Branch(Branch::Call),
    Mnemonic::Ret,
    Mnemonic::Int,
    Mnemonic::Nop,
    Mnemonic::Byte,
    Mnemonic::Long,
    Mnemonic::Zero,
];

/// A general register's name.
pub(crate) fn register_name(r: Reg) -> &'static [u8]
    ensures { result.now ≡ register_name r }
{
    match r {
        Reg::Eax => b"eax",
        Reg::Ecx => b"ecx",
        Reg::Edx => b"edx",
        Reg::Ebx => b"ebx",
        Reg::Esp => b"esp",
        Reg::Ebp => b"ebp",
        Reg::Esi => b"esi",
        Reg::Edi => b"edi",
    }
}

/// A byte register's name.
pub(crate) fn byte_register_name(b: ByteReg) -> &'static [u8]
    ensures { result.now ≡ byte_register_name b }
{
    match b {
        ByteReg::Al => b"al",
        ByteReg::Cl => b"cl",
        ByteReg::Dl => b"dl",
        ByteReg::Bl => b"bl",
    }
}

fn alu_name(op: AluOp) -> &'static [u8]
    ensures { result.now ≡ mnemonic_name (Mnemonic.Alu op) }
{
    match op {
        AluOp::Add => b"add",
        AluOp::Or => b"or",
        AluOp::And => b"and",
        AluOp::Sub => b"sub",
        AluOp::Xor => b"xor",
        AluOp::Cmp => b"cmp",
    }
}

fn shift_name(op: ShiftOp) -> &'static [u8]
    ensures { result.now ≡ mnemonic_name (Mnemonic.Shift op) }
{
    match op {
        ShiftOp::Shl => b"shl",
        ShiftOp::Shr => b"shr",
        ShiftOp::Sar => b"sar",
    }
}

fn unary_name(op: UnaryOp) -> &'static [u8]
    ensures { result.now ≡ mnemonic_name (Mnemonic.Unary op) }
{
    match op {
        UnaryOp::Not => b"not",
        UnaryOp::Neg => b"neg",
        UnaryOp::Mul => b"mul",
        UnaryOp::Div => b"div",
    }
}

fn jcc_name(condition: Cond) -> &'static [u8]
    ensures { result.now ≡ mnemonic_name (Mnemonic.Branch (Branch.Jcc condition)) }
{
    match condition {
        Cond::O => b"jo",
        Cond::No => b"jno",
        Cond::B => b"jb",
        Cond::Ae => b"jae",
        Cond::E => b"je",
        Cond::Ne => b"jne",
        Cond::Be => b"jbe",
        Cond::A => b"ja",
        Cond::S => b"js",
        Cond::Ns => b"jns",
        Cond::L => b"jl",
        Cond::Ge => b"jge",
        Cond::Le => b"jle",
        Cond::G => b"jg",
    }
}

fn branch_name(branch: Branch) -> &'static [u8]
    ensures { result.now ≡ mnemonic_name (Mnemonic.Branch branch) }
{
    match branch {
        Branch::Jmp => b"jmp",
        Branch::Jcc(condition) => jcc_name(condition),
        Branch::Call => b"call",
    }
}

/// The word that begins a statement.
pub(crate) fn mnemonic_name(mnemonic: Mnemonic) -> &'static [u8]
    ensures { result.now ≡ mnemonic_name mnemonic }
{
    match mnemonic {
        Mnemonic::Mov => b"mov",
        Mnemonic::Movzx => b"movzx",
        Mnemonic::Lea => b"lea",
        Mnemonic::Alu(op) => alu_name(op),
        Mnemonic::Test => b"test",
        Mnemonic::Inc => b"inc",
        Mnemonic::Dec => b"dec",
        Mnemonic::Push => b"push",
        Mnemonic::Pop => b"pop",
        Mnemonic::Shift(op) => shift_name(op),
        Mnemonic::Imul => b"imul",
        Mnemonic::Unary(op) => unary_name(op),
        Mnemonic::Branch(branch) => branch_name(branch),
        Mnemonic::Ret => b"ret",
        Mnemonic::Int => b"int",
        Mnemonic::Nop => b"nop",
        Mnemonic::Byte => b".byte",
        Mnemonic::Long => b".long",
        Mnemonic::Zero => b".zero",
    }
}

/// The register that a word names.
pub(crate) fn register_of(word: &[u8]) -> Option<Reg>
    ensures { result ≡ register_of word.now }
{
    REGISTERS
        .iter()
        .copied()
        .find(|r| register_name(*r) == word)
}

/// The byte register that a word names.
pub(crate) fn byte_register_of(word: &[u8]) -> Option<ByteReg>
    ensures { result ≡ byte_register_of word.now }
{
    BYTE_REGISTERS
        .iter()
        .copied()
        .find(|b| byte_register_name(*b) == word)
}

fn other_name(word: &[u8]) -> Option<Mnemonic>
    ensures { result ≡ other_name word.now }
{
    if word == b"jz".as_slice() {
        Some(Mnemonic::Branch(Branch::Jcc(Cond::E)))
    } else if word == b"jnz".as_slice() {
        Some(Mnemonic::Branch(Branch::Jcc(Cond::Ne)))
    } else if word == b"jc".as_slice() {
        Some(Mnemonic::Branch(Branch::Jcc(Cond::B)))
    } else if word == b"jnc".as_slice() {
        Some(Mnemonic::Branch(Branch::Jcc(Cond::Ae)))
    } else {
        None
    }
}

fn own_name(word: &[u8]) -> Option<Mnemonic>
    ensures { result ≡ own_name word.now }
{
    MNEMONICS
        .iter()
        .copied()
        .find(|m| mnemonic_name(*m) == word)
}

/// The statement that a word begins.
pub(crate) fn mnemonic_of(word: &[u8]) -> Option<Mnemonic>
    ensures { result ≡ mnemonic_of word.now }
{
    match own_name(word) {
        Some(mnemonic) => Some(mnemonic),
        None => other_name(word),
    }
}
