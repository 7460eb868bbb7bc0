//! Instructions against their bytes.

ghost use Rattle.std.specs.Prelude.{◌<◌, length};

use crate::spellings::{CHOSEN, NOTHING, OTHERS};
use i386_profile::{Ins, decode, encode};

/// Two instructions are one where their chosen spellings are: no bytes spell two.
fn is_same(a: &Ins, b: &Ins) -> bool {
    let mut code_a = [0; 16];
    let mut code_b = [0; 16];
    encode(a, &mut code_a) == encode(b, &mut code_b) && code_a == code_b
}

/// The instruction is read there, from so many bytes.
fn is_read(code: &[u8], ins: &Ins, size: usize) -> bool
    requires { 0 < length code.now }
{
    match decode(code, 0) {
        Ok((found, length)) => length == size && is_same(&found, ins),
        Err(_) => false,
    }
}

/// The instruction is written so, with the rest left as it was, and read again.
fn is_chosen(ins: &Ins, code: &[u8]) -> bool {
    let mut out = [0xEE; 16];
    let size = encode(ins, &mut out);
    let (spelling, rest) = out.split_at(size);
    spelling == code && rest.iter().all(|byte| *byte == 0xEE) && is_read(&out, ins, size)
}

/// The bytes spell the instruction.
fn is_spelling(ins: &Ins, code: &[u8]) -> bool {
    !code.is_empty() && is_read(code, ins, code.len())
}

/// No prefix of the bytes spells an instruction.
fn is_nothing(code: &[u8]) -> bool {
    !code.is_empty() && decode(code, 0).is_err()
}

#[test]
fn spellings_of_an_assembler(rt: HostRuntime) {
    for (i, (ins, code)) in CHOSEN.iter().enumerate() {
        assert!(rt; is_chosen(ins, code), "row {i}");
    }
}

#[test]
fn other_spellings(rt: HostRuntime) {
    for (i, (ins, code)) in OTHERS.iter().enumerate() {
        assert!(rt; is_spelling(ins, code), "row {i}");
    }
}

#[test]
fn no_spellings(rt: HostRuntime) {
    for (i, code) in NOTHING.iter().enumerate() {
        assert!(rt; is_nothing(code), "row {i}");
    }
}
