// Blobs: what the device gives for bytes that it seals. docs/BLOBS.md has their form.
ghost use Rattle.std.specs.Prelude.{◌≡◌, ◌++◌, ◌≤◌, length, bytes_eq, IsTrue};
ghost use Rattle.flk_base.specs.Stop.{over};
ghost use Rattle.byteorder.specs.Endian.{big_bytes};
ghost use Rattle.flk_hmac.specs.Mask.{masked_bytes};
ghost use Rattle.seal_device.specs.Blobs.{head, blob, blob_size, counter_bytes, serial_field};
ghost use Rattle.seal_device.specs.Blobs.{chain_field, length_field, is_form, tag_ok, sealed_of};
ghost use Rattle.seal_device.specs.Blobs.{bearing_of, blob_counter};

use crate::bearings::Borne;
use crate::keys::Keys;
use byteorder::{BigEndian, ByteOrder};
use flk_hmac::{is_same, mac, mask};

/// How many bytes may be sealed together.
pub const LONGEST_SEALED: usize = 2_048;

/// How many bytes the buffer for a blob has.
pub const BLOB_ROOM: usize = 4_096;

// How many bytes stand before those that were sealed.
const HEAD_LEN: usize = 39;

const TAG_LEN: usize = 20;

const MARK: &[u8; 4] = b"FLK1";

// The number that stands where there is no counter.
const NO_COUNTER: u8 = 255;

/// The number of the counter that a blob bears. None where there are fewer than 13 bytes, or byte
/// 12 is 255; whether the bytes are a blob is not looked at.
pub fn blob_counter(blob: &[u8]) -> Option<u8>
    ensures { result ≡ blob_counter blob.now }
{
    if blob.len() <= 12 || blob[12] == NO_COUNTER {
        None
    } else {
        Some(blob[12])
    }
}

/// How many bytes the blob of so many bytes has.
pub fn blob_size(len: usize) -> usize
    requires { len ≤ LONGEST_SEALED }
    ensures { result ≡ blob_size len }
{
    HEAD_LEN + len + TAG_LEN
}

// The number and the value that stand for the counter that a record bears.
fn counter_fields(counter: Option<Borne>) -> (u8, u32)
    ensures { big_bytes 1 result.0 ++ big_bytes 4 result.1 ≡ counter_bytes counter }
{
    match counter {
        None => (NO_COUNTER, 0),
        Some(borne) => (borne.id, borne.value),
    }
}

// The head of the blob of a record.
#[tactic(auto, unfolding(crate::specs::Blobs::head))]
fn head_of(serial: u64, chain: &[u8; 20], counter: Option<Borne>, bytes: &[u8]) -> [u8; HEAD_LEN]
    requires { length bytes.now ≤ LONGEST_SEALED }
    ensures { result ≡ head (record {
      serial = serial;
      chain = chain.now;
      counter = counter;
      bytes = bytes.now;
    }) }
{
    let (id, value) = counter_fields(counter);
    let mut head = [0; HEAD_LEN];
    head[..4].copy_from_slice(MARK);
    BigEndian::write_u64(&mut head[4..], serial);
    head[12] = id;
    BigEndian::write_u32(&mut head[13..], value);
    BigEndian::write_u16(&mut head[37..], bytes.len() as u16);
    head[17..37].copy_from_slice(chain);
    head
}

// Writes bytes into a part as long as they are, each exclusive-or its byte of the mask.
fn mask_into(key: &[u8; 20], serial: u64, bytes: &[u8], part: &mut [u8])
    requires room { length part.old ≡ length bytes.now }
    requires short { length bytes.now ≤ LONGEST_SEALED }
    ensures { part.new ≡ masked_bytes key.now serial bytes.now }
{
    part.copy_from_slice(bytes);
    mask(key, serial, part);
}

// Writes the blob of a record into the buffer's first bytes, and gives its length.
pub(crate) fn write_blob(
    keys: &Keys,
    serial: u64,
    chain: &[u8; 20],
    counter: Option<Borne>,
    bytes: &[u8],
    out: &mut [u8; BLOB_ROOM],
) -> usize
    requires { length bytes.now ≤ LONGEST_SEALED }
    ensures written { out.new ≡ over (blob keys.now (record {
      serial = serial;
      chain = chain.now;
      counter = counter;
      bytes = bytes.now;
    })) out.old }
    ensures size { result ≡ blob_size (length bytes.now) }
{
    let end = HEAD_LEN + bytes.len();
    out[..HEAD_LEN].copy_from_slice(&head_of(serial, chain, counter, bytes));
    mask_into(&keys.masking, serial, bytes, &mut out[HEAD_LEN..end]);
    let tag = mac(&keys.sealing, &out[..end]);
    out[end..end + TAG_LEN].copy_from_slice(&tag);
    end + TAG_LEN
}

// The serial in a blob.
fn serial_in(blob: &[u8]) -> u64
    requires { blob_size 0 ≤ length blob.now }
    ensures { result ≡ serial_field blob.now }
{
    u64::from_be_bytes([
        blob[4], blob[5], blob[6], blob[7], blob[8], blob[9], blob[10], blob[11],
    ])
}

// How many bytes a blob says that were sealed.
fn length_in(blob: &[u8]) -> usize
    requires { blob_size 0 ≤ length blob.now }
    ensures { result ≡ length_field blob.now }
{
    usize::from(u16::from_be_bytes([blob[37], blob[38]]))
}

// Whether bytes have the form of a blob, whatever its tag is.
fn is_formed(blob: &[u8]) -> bool
    ensures { result ≡ is_form blob.now }
{
    if blob.len() < HEAD_LEN + TAG_LEN {
        return false;
    }
    let length = length_in(blob);
    &blob[..4] == MARK.as_slice()
        && length <= LONGEST_SEALED
        && blob.len() == HEAD_LEN + length + TAG_LEN
}

// Whether bytes have the form of a blob and the tag.
pub(crate) fn is_tagged(keys: &Keys, blob: &[u8]) -> bool
    ensures tag { result ≡ tag_ok keys.now blob.now }
    ensures form { IsTrue result → IsTrue (is_form blob.now) }
    ensures long { IsTrue result → blob_size 0 ≤ length blob.now }
{
    if !is_formed(blob) {
        return false;
    }
    let (front, tag) = blob.split_at(HEAD_LEN + length_in(blob));
    is_same(tag, &mac(&keys.sealing, front))
}

// The bytes that were sealed in a blob stand in the buffer's first ones, and their length is given.
pub(crate) fn unmask_into(keys: &Keys, blob: &[u8], out: &mut [u8; LONGEST_SEALED]) -> usize
    requires { IsTrue (is_form blob.now) }
    ensures written { out.new ≡ over (sealed_of keys.now blob.now).bytes out.old }
    ensures size { result ≡ length (sealed_of keys.now blob.now).bytes }
    ensures room { result ≤ LONGEST_SEALED }
{
    let length = length_in(blob);
    let masked = &blob[HEAD_LEN..HEAD_LEN + length];
    mask_into(&keys.masking, serial_in(blob), masked, &mut out[..length]);
    length
}

// Whether a blob bears this value of register 17.
pub(crate) fn is_chain(blob: &[u8], value: &[u8; 20]) -> bool
    requires { blob_size 0 ≤ length blob.now }
    ensures { result ≡ bytes_eq (chain_field blob.now) value.now }
{
    &blob[17..37] == value.as_slice()
}

// The counter that a blob bears, if it bears one.
pub(crate) fn borne_in(blob: &[u8]) -> Option<Borne>
    requires { blob_size 0 ≤ length blob.now }
    ensures { result ≡ bearing_of blob.now }
{
    if blob[12] == NO_COUNTER {
        return None;
    }
    Some(Borne {
        id: blob[12],
        value: u32::from_be_bytes([blob[13], blob[14], blob[15], blob[16]]),
    })
}
