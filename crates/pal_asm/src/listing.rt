//! From code to its listing.

ghost use Rattle.std.specs.Prelude.{◌≡◌, ◌+◌, ◌<◌, ◌≤◌, ◌++◌, length, [], decimal, IfOk, IsOk, OnOk};
ghost use Rattle.pal_asm.specs.Listing.{offset, text1, Puts, Lists};

use crate::limits::CODE_START;
use crate::names::Mnemonic;
use crate::writing::Text;
use flk_base::{Bytes, NoMemory};
use i386_profile::decode;
use std::alloc::Global;

/// The segment's offset of a position in the code, modulo 2^32.
fn offset(position: usize) -> u32
    ensures { result ≡ offset position }
{
    ((CODE_START as usize + position % (1 << 32)) % (1 << 32)) as u32
}

/// A byte where no instruction begins.
fn put_byte(text: &mut Text, byte: u8) -> Result<(), NoMemory>
    ensures { OnOk result (text.new.bytes.bytes ≡ text.old.bytes.bytes
        ++ text1 Mnemonic.Byte (decimal byte)) }
{
    text.number_only(Mnemonic::Byte, u32::from(byte))
}

/// The line of the statement at an offset of the code, and how many bytes the statement has.
fn put_statement(text: &mut Text, code: &[u8], at: usize) -> Result<usize, NoMemory>
    requires { at < length code.now }
    ensures least { IfOk result (λ n. 1 ≤ n) }
    ensures within { IfOk result (λ n. at + n ≤ length code.now) }
    ensures put { IfOk result (λ n. Puts at n code.now text.old.bytes.bytes text.new.bytes.bytes) }
{
    match decode(code, at) {
        Ok((ins, length)) => {
            text.ins(offset(at + length), ins)?;
            text.put(b"\n")?;
            Ok(length)
        }
        Err(_) => {
            put_byte(text, code[at])?;
            text.put(b"\n")?;
            Ok(1)
        }
    }
}

/// The listing of code, a line for each instruction and for each byte where none begins.
pub fn disassemble(alloc: Global, code: &[u8]) -> Result<Bytes, NoMemory>
    ensures listing { IfOk result (λ text. Lists code.now text.bytes) }
    // Where there is no code, memory does not run out.
    ensures empty { code.now ≡ [] → IsOk result }
{
    let mut text = Text::new(alloc);
    let mut at = 0;
    while at < code.len() {
        at += put_statement(&mut text, code, at)?;
    }
    Ok(text.into_bytes())
}
