//! A mask over bytes. Each block of 20 bytes has its own, the HMAC of a serial number and of the
//! number of the block.
ghost use Rattle.std.specs.Prelude.{◌≡◌, ℕ, ◌++◌, ◌*◌, ◌≤◌, ◌<◌, ◌^◌, List, length, slice_index};
ghost use Rattle.std.specs.Prelude.{EachIndex, bit_xor};
ghost use Rattle.byteorder.specs.Endian.{big_bytes};
ghost use Rattle.flk_hmac.specs.Mask.{masked_bytes};

use crate::hmac::mac;
use byteorder::{BigEndian, ByteOrder};

/// How many bytes a block of the mask has.
const MASK_LEN: usize = 20;

/// The serial number and the number of a block, as the text of that block's HMAC.
fn block_text(serial: u64, block: u32) -> [u8; 12]
    ensures { result ≡ big_bytes 8 serial ++ big_bytes 4 block }
{
    let mut text = [0; 12];
    BigEndian::write_u64(&mut text, serial);
    BigEndian::write_u32(&mut text[8..], block);
    text
}

/// Exclusive-ors the bytes of one block with the block of the mask.
fn mask_part(part: &mut [u8], block: &[u8; MASK_LEN])
    requires { length part.old ≤ 20 }
    ensures { EachIndex part.new (λ k.
        slice_index part.new k ≡ bit_xor (slice_index part.old k) (slice_index block.now k)) }
{
    for (i, byte) in part.iter_mut().enumerate() {
        *byte ^= block[i];
    }
}

/// Masks `bytes`, which are at most 2^32 blocks of 20 bytes: block i, counted from 0, is
/// exclusive-ored with the HMAC of the serial number in 8 bytes and of i in 4, both with the
/// highest byte first. The last block may be shorter. Masking twice gives the bytes back.
pub fn mask(key: &[u8; 20], serial: u64, bytes: &mut [u8])
    requires { length bytes.old ≤ 20 * 2 ^ 32 }
    ensures { bytes.new ≡ masked_bytes key.now serial bytes.old }
{
    for block in 0..bytes.len().div_ceil(MASK_LEN) {
        let start = MASK_LEN * block;
        let end = bytes.len().min(start + MASK_LEN);
        mask_part(
            &mut bytes[start..end],
            &mac(key, &block_text(serial, block as u32)),
        );
    }
}

/// The law of the mask: masking twice gives the bytes back, and the length stays.
pub fn mask_law()
    ensures twice { (key bytes : List ℕ) (serial : ℕ)
        → masked_bytes key serial (masked_bytes key serial bytes) ≡ bytes }
    ensures same_length { (key bytes : List ℕ) (serial : ℕ)
        → length (masked_bytes key serial bytes) ≡ length bytes }
{}
