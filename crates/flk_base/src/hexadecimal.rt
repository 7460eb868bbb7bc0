// Bytes as hexadecimal digits, by the crate `hex`.
ghost use Rattle.std.specs.Prelude.{◌≡◌, ◌≢◌, ◌⊎◌, ◌+◌, ◌*◌, ◌≤◌, ◌%◌, ◌++◌, [], ◌∷◌, length, Ok};
ghost use Rattle.std.specs.Prelude.{IsOk, IsErr, IfOk, IfErr, OnOk, OnErr};
ghost use Rattle.hex.specs.Hex.{decode_of, encode_lower};
ghost use Rattle.flk_base.specs.Hexadecimal.{HasHexCause, HasNonDigit};

use crate::buffer::{Bytes, NoMemory};
use hex::FromHexError;
use std::alloc::Global;

/// Why a text is no hexadecimal.
#[derive(Clone, Copy, Debug, PartialEq, Eq)]
pub enum HexFault {
    /// 1: an odd number of bytes.
    Odd,
    /// 2: a byte that is no digit.
    Digit,
    /// There was no memory for the bytes.
    NoMemory,
}

/// The bytes that the digits spell, two a byte, in either case.
pub fn read_hex(alloc: Global, text: &[u8]) -> Result<Bytes, HexFault>
    ensures ok { IfOk result (λ read. decode_of text.now ≡ Ok read.bytes) }
    ensures err { IfErr result (HasHexCause text.now) }
    ensures odd { length text.now % 2 ≡ 1 → result ≡ Err HexFault.Odd }
    ensures digit { HasNonDigit text.now → IsErr result }
{
    if text.len() % 2 == 1 {
        return Err(HexFault::Odd);
    }
    match hex::decode(alloc, text) {
        Ok(items) => Ok(Bytes::from_vec(items)),
        Err(error) => Err(fault_of(error)),
    }
}

// What an even number of bytes was refused for.
fn fault_of(error: FromHexError) -> HexFault
    ensures out_of_memory { error ≡ FromHexError.OutOfMemory → result ≡ HexFault.NoMemory }
    ensures either { (result ≡ HexFault.NoMemory)
        ⊎ ((result ≡ HexFault.Digit) × (error ≢ FromHexError.OutOfMemory)) }
{
    match error {
        FromHexError::OutOfMemory => HexFault::NoMemory,
        _ => HexFault::Digit,
    }
}

/// Appends the digits of the bytes, two a byte, in lower case, or nothing. Where there is room for
/// them, nothing is asked for.
pub fn print_hex(out: &mut Bytes, bytes: &[u8]) -> Result<(), NoMemory>
    ensures ok { OnOk result (out.new.bytes ≡ out.old.bytes ++ encode_lower bytes.now) }
    ensures err { OnErr result (out.new.bytes ≡ out.old.bytes) }
    ensures err_room { OnErr result (out.new.spare ≡ out.old.spare) }
    ensures ample { 2 * length bytes.now ≤ out.old.spare
        → IsOk result × (out.new.spare + 2 * length bytes.now ≡ out.old.spare) }
{
    out.reserve(2 * bytes.len())?;
    put_hex(out, bytes);
    Ok(())
}

// Appends the digits, for which there is room.
fn put_hex(out: &mut Bytes, bytes: &[u8])
    requires { 2 * length bytes.now ≤ out.old.spare }
    ensures bytes { out.new.bytes ≡ out.old.bytes ++ encode_lower bytes.now }
    ensures spare { out.new.spare + 2 * length bytes.now ≡ out.old.spare }
{
    for byte in bytes {
        out.put(&digits(*byte));
    }
}

// The two digits of a byte.
fn digits(byte: u8) -> [u8; 2]
    ensures { result ≡ encode_lower (byte ∷ []) }
{
    let mut pair = [0u8; 2];
    let one = [byte];
    // It can't fail: the pair has room for the digits of one byte.
    let _ = hex::encode_to_slice(one.as_slice(), &mut pair);
    pair
}
