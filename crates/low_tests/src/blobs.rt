// That blobs have the form of docs/BLOBS.md, and that seal and unseal refuse as they say. The blobs
// are those of python3's hmac and hashlib, or are made here by flk_hmac alone.
ghost use Rattle.std.specs.Prelude.{◌≤◌};

use flk_base::Fuse;
use flk_hmac::{derive, mac, mask};
use seal_device::{
    BLOB_ROOM, Device, LONGEST_SEALED, Provisioned, SealFault, UnsealFault, blob_counter, blob_law,
    commands_by_keys, opening_law,
};
use sha1::Sha1;

pub(crate) const SEED: [u8; 20] = [0x5a; 20];

pub(crate) const IMAGE: [u8; 6] = [0x06, 0x00, 0x04, 0x00, 0xf4, 0xc3];

// Register 17 once the image was measured, and at power-on.
const LAUNCHED: &[u8; 20] =
    b"\xe0\xcc\x23\x3e\xcb\xe4\x70\xac\x07\x25\x25\xc3\x29\xb3\x2f\xe5\xac\x3b\xd6\x4b";

const ONES: &[u8; 20] = &[0xff; 20];

// The first blob of the seed after the image was measured, of "abc"; and the second, of no bytes.
const ABC: &[u8; 62] =
    b"\x46\x4c\x4b\x31\x00\x00\x00\x00\x00\x00\x00\x00\xff\x00\x00\x00\x00\xe0\xcc\x23\x3e\xcb\xe4\
      \x70\xac\x07\x25\x25\xc3\x29\xb3\x2f\xe5\xac\x3b\xd6\x4b\x00\x03\xfa\x92\x41\x2c\xa3\xb1\x24\
      \x56\xb4\xc8\x40\xc2\xe8\xd8\xe0\x2f\x8c\xca\xef\x9c\x1c\x3f\x45";

const EMPTY: &[u8; 59] =
    b"\x46\x4c\x4b\x31\x00\x00\x00\x00\x00\x00\x00\x01\xff\x00\x00\x00\x00\xe0\xcc\x23\x3e\xcb\xe4\
      \x70\xac\x07\x25\x25\xc3\x29\xb3\x2f\xe5\xac\x3b\xd6\x4b\x00\x00\x61\x62\xca\x95\xd6\x5a\x75\
      \x6a\xeb\xb1\x74\x9e\xb5\xac\xa1\x17\x27\x12\x6a\x9c";

// SHA-1 of the third, of 2,048 bytes: byte i is 7 i + 3 modulo 256.
const LONGEST_DIGEST: &[u8; 20] =
    b"\xda\x73\xf4\xf3\x3e\x5d\xa6\x4c\x11\x78\xfe\x90\xd2\x35\x9b\x12\xdf\x03\x18\x16";

// The first blob of the seed "seed" at power-on, of "hello".
const HELLO: &[u8; 64] =
    b"\x46\x4c\x4b\x31\x00\x00\x00\x00\x00\x00\x00\x00\xff\x00\x00\x00\x00\xff\xff\xff\xff\xff\xff\
      \xff\xff\xff\xff\xff\xff\xff\xff\xff\xff\xff\xff\xff\xff\x00\x05\x6b\x0f\x1e\x27\x10\xc3\xf7\
      \x05\x80\xc5\xb7\x21\x96\x82\xee\x78\x9c\xe4\xf6\x3e\x54\x1f\x8f\x13\x4f";

// What stands in a buffer before a call.
pub(crate) const BEFORE: u8 = 0x77;

// A device that has this seed, and measured the image.
pub(crate) fn launched(seed: &[u8]) -> Device {
    let mut device = Device::blank();
    let _ = device.provision(seed);
    let _ = device.measure(&IMAGE, &mut Fuse { left: None });
    device
}

// Whether all of these bytes are as they were.
pub(crate) fn is_as_before(bytes: &[u8]) -> bool {
    for byte in bytes {
        if *byte != BEFORE {
            return false;
        }
    }
    true
}

// Whether a blob comes to this: the content stands in the buffer, and the rest is as it was.
pub(crate) fn comes_to(device: &Device, blob: &[u8], wanted: Result<&[u8], UnsealFault>) -> bool {
    let mut out = [BEFORE; LONGEST_SEALED];
    match (
        device.unseal(blob, &mut out, &mut Fuse { left: Some(1) }),
        wanted,
    ) {
        (Ok(size), Ok(content)) => &out[..size] == content && is_as_before(&out[size..]),
        (Err(fault), Err(other)) => fault == other && is_as_before(&out),
        _ => false,
    }
}

// Whether bytes are sealed to this blob, and the rest of the buffer is as it was.
fn seals_to(device: &mut Device, bytes: &[u8], blob: &[u8]) -> bool {
    let mut out = [BEFORE; BLOB_ROOM];
    match device.seal(bytes, None, true, &mut out, &mut Fuse { left: Some(1) }) {
        Ok(size) => &out[..size] == blob && is_as_before(&out[size..]),
        Err(_) => false,
    }
}

// The longest bytes.
fn longest() -> [u8; LONGEST_SEALED] {
    let mut bytes = [0; LONGEST_SEALED];
    for (i, byte) in bytes.iter_mut().enumerate() {
        *byte = ((7 * (i % 256) + 3) % 256) as u8;
    }
    bytes
}

// Whether the longest bytes are sealed as they are to be, and opened again.
fn is_longest_sealed(device: &mut Device) -> bool {
    let bytes = longest();
    let mut out = [BEFORE; BLOB_ROOM];
    match device.seal(&bytes, None, false, &mut out, &mut Fuse { left: None }) {
        Ok(size) => {
            size == 2_107
                && Sha1::digest(&out[..size]) == *LONGEST_DIGEST
                && is_as_before(&out[size..])
                && comes_to(device, &out[..size], Ok(&bytes))
        }
        Err(_) => false,
    }
}

// Whether three blobs, one after the other, are those of Python, and open.
fn is_sealed_in_turn() -> bool {
    let mut device = launched(&SEED);
    let sealed = seals_to(&mut device, b"abc", ABC)
        && seals_to(&mut device, b"", EMPTY)
        && is_longest_sealed(&mut device);
    sealed
        && comes_to(&device, ABC, Ok(b"abc"))
        && comes_to(&device, EMPTY, Ok(b""))
        && comes_to(&launched(&SEED), ABC, Ok(b"abc"))
}

// Whether a power cycle keeps the seed and the serial, and brings another chain.
fn is_kept_over_power() -> bool {
    let mut device = Device::blank();
    let seeded = device.provision(b"seed") == Ok(());
    let sealed = seals_to(&mut device, b"hello", HELLO);
    let _ = device.extend(17, b"", b"x", &mut Fuse { left: None });
    let other = comes_to(&device, HELLO, Err(UnsealFault::WrongChain));
    device.power_cycle();
    let opens = comes_to(&device, HELLO, Ok(b"hello"));
    let again = seals_to(&mut device, b"hello", HELLO);
    seeded && sealed && other && opens && !again && device.provision(b"") == Err(Provisioned)
}

#[test]
fn sealed_as_by_python(rt: HostRuntime) {
    assert!(rt; is_sealed_in_turn(), "in turn");
    assert!(rt; is_kept_over_power(), "over a power cycle");
}

// Whether the blob of "abc" with a bit of byte `i` flipped is none.
fn is_none_flipped(device: &Device, i: usize) -> bool {
    let mut blob = *ABC;
    if i < blob.len() {
        blob[i] ^= 1 << (i % 8);
    }
    comes_to(device, &blob, Err(UnsealFault::NotBlob))
}

#[test]
fn flipped_bits(rt: HostRuntime) {
    let device = launched(&SEED);
    for i in 0..62 {
        assert!(rt; is_none_flipped(&device, i), "byte {i}");
    }
}

// Whether the first `n` bytes of a blob are none.
fn is_none_cut(device: &Device, blob: &[u8], n: usize) -> bool {
    match blob.get(..n) {
        Some(front) => comes_to(device, front, Err(UnsealFault::NotBlob)),
        None => false,
    }
}

#[test]
fn cut_and_longer(rt: HostRuntime) {
    let device = launched(&SEED);
    for n in 0..62 {
        assert!(rt; is_none_cut(&device, ABC, n), "{n} bytes");
    }
    for n in 0..59 {
        assert!(rt; is_none_cut(&device, EMPTY, n), "{n} bytes of none");
    }
    let mut longer = [0; 63];
    longer[..62].copy_from_slice(ABC);
    assert!(rt;
        comes_to(&device, &longer, Err(UnsealFault::NotBlob)),
        "63 bytes"
    );
}

// What is to stand in a blob: serial, counter and its value, register 17's value, how many bytes it
// says that there are, and the bytes.
type Made<'a> = (u64, u8, u32, &'a [u8; 20], u16, &'a [u8]);

// Bytes at a place of the buffer, if they have room, and where they end.
fn put(out: &mut [u8; BLOB_ROOM], at: usize, bytes: &[u8]) -> usize
    requires { at ≤ BLOB_ROOM }
    ensures after { at ≤ result }
    ensures inside { result ≤ BLOB_ROOM }
{
    if bytes.len() > BLOB_ROOM - at {
        return at;
    }
    out[at..at + bytes.len()].copy_from_slice(bytes);
    at + bytes.len()
}

// A blob made by hand: flk_hmac alone has a part in it.
fn made_by_hand(seed: &[u8], made: Made<'_>, out: &mut [u8; BLOB_ROOM]) -> usize
    ensures { result ≤ BLOB_ROOM }
{
    let (serial, id, value, chain, n, bytes) = made;
    let mark = put(out, 0, b"FLK1");
    let numbered = put(out, mark, &serial.to_be_bytes());
    let counted = put(out, numbered, &[id]);
    let valued = put(out, counted, &value.to_be_bytes());
    let chained = put(out, valued, chain);
    let head = put(out, chained, &n.to_be_bytes());
    let end = put(out, head, bytes);
    mask(&derive(seed, b"flk-mask"), serial, &mut out[head..end]);
    let tag = mac(&derive(seed, b"flk-seal"), &out[..end]);
    put(out, end, &tag)
}

// Whether a blob made by hand comes to this on a device that never sealed.
fn is_made(seed: &[u8], made: Made<'_>, wanted: Result<&[u8], UnsealFault>) -> bool {
    let mut out = [0; BLOB_ROOM];
    let size = made_by_hand(seed, made, &mut out);
    comes_to(&launched(&SEED), &out[..size], wanted)
}

const NOT_BLOB: Result<&'static [u8], UnsealFault> = Err(UnsealFault::NotBlob);

const WRONG_CHAIN: Result<&'static [u8], UnsealFault> = Err(UnsealFault::WrongChain);

const WRONG_COUNTER: Result<&'static [u8], UnsealFault> = Err(UnsealFault::WrongCounter);

#[test]
fn made_by_hand_alone(rt: HostRuntime) {
    let rows: [(&[u8], Made<'_>, Result<&[u8], UnsealFault>); 12] = [
        (&SEED, (0, 255, 0, LAUNCHED, 3, b"abc"), Ok(b"abc")),
        (&SEED, (u64::MAX, 255, 0, LAUNCHED, 0, b""), Ok(b"")),
        // No counter, whatever its value.
        (&SEED, (7, 255, 9, LAUNCHED, 3, b"abc"), Ok(b"abc")),
        (&SEED, (0, 0, 1, LAUNCHED, 3, b"abc"), WRONG_COUNTER),
        (&SEED, (0, 254, 0, LAUNCHED, 3, b"abc"), WRONG_COUNTER),
        // Both are wrong, and the chain is told.
        (&SEED, (0, 0, 1, ONES, 3, b"abc"), WRONG_CHAIN),
        (&SEED, (0, 255, 0, ONES, 3, b"abc"), WRONG_CHAIN),
        // One byte less and one more than there are.
        (&SEED, (0, 255, 0, LAUNCHED, 2, b"abc"), NOT_BLOB),
        (&SEED, (0, 255, 0, LAUNCHED, 4, b"abc"), NOT_BLOB),
        (
            &SEED,
            (0, 255, 0, LAUNCHED, 2_048, &[7; 2_048]),
            Ok(&[7; 2_048]),
        ),
        (&SEED, (0, 255, 0, LAUNCHED, 2_049, &[7; 2_049]), NOT_BLOB),
        // Another seed, and another chain too.
        (&[0x5b; 20], (0, 255, 0, ONES, 3, b"abc"), NOT_BLOB),
    ];
    for (i, (seed, made, wanted)) in rows.iter().enumerate() {
        assert!(rt; is_made(*seed, *made, *wanted), "row {i}");
    }
}

// Whether sealing is refused so, and leaves the buffer as it was.
fn is_refused(
    device: &mut Device,
    bytes: &[u8],
    counter: Option<u8>,
    left: u32,
    wanted: SealFault,
) -> bool {
    let mut out = [BEFORE; BLOB_ROOM];
    let fuse = &mut Fuse { left: Some(left) };
    device.seal(bytes, counter, false, &mut out, fuse) == Err(wanted) && is_as_before(&out)
}

#[test]
fn refusals_in_their_order(rt: HostRuntime) {
    let long = [0; 2_049];
    let mut device = Device::blank();
    assert!(rt;
        is_refused(&mut device, &long, Some(0), 0, SealFault::PowerLost),
        "power"
    );
    assert!(rt;
        is_refused(&mut device, &long, Some(0), 1, SealFault::Unprovisioned),
        "seed"
    );
    assert!(rt;
        comes_to(&device, b"", Err(UnsealFault::Unprovisioned)),
        "seed of unseal"
    );
    let _ = device.provision(&SEED);
    assert!(rt;
        is_refused(&mut device, &long, Some(0), 1, SealFault::TooLong),
        "length"
    );
    assert!(rt;
        is_refused(&mut device, b"", Some(0), 1, SealFault::NoCounter),
        "counter"
    );
    let mut out = [BEFORE; LONGEST_SEALED];
    let lost = device.unseal(ABC, &mut out, &mut Fuse { left: Some(0) });
    assert!(rt;
        lost == Err(UnsealFault::PowerLost) && is_as_before(&out),
        "power of unseal"
    );
}

#[test]
fn numbers_of_faults(rt: HostRuntime) {
    let seals = SealFault::TooLong as u32 == 1
        && SealFault::NoCounter as u32 == 2
        && SealFault::SerialEnd as u32 == 4
        && SealFault::PowerLost as u32 == 5
        && SealFault::Unprovisioned as u32 == 6;
    let unseals = UnsealFault::NotBlob as u32 == 1
        && UnsealFault::WrongChain as u32 == 2
        && UnsealFault::WrongCounter as u32 == 3
        && UnsealFault::PowerLost as u32 == 5
        && UnsealFault::Unprovisioned as u32 == 6;
    assert!(rt; seals && unseals, "numbers");
}

#[test]
fn counters_of_blobs(rt: HostRuntime) {
    let rows: [(&[u8], Option<u8>); 5] = [
        (b"", None),
        (b"FLK1\x00\x00\x00\x00\x00\x00\x00\x00", None),
        (b"FLK1\x00\x00\x00\x00\x00\x00\x00\x00\xff", None),
        (b"FLK1\x00\x00\x00\x00\x00\x00\x00\x00\xfe", Some(254)),
        (b"no mark, and so no blob", Some(b' ')),
    ];
    for (i, (bytes, counter)) in rows.iter().enumerate() {
        assert!(rt; blob_counter(*bytes) == *counter, "row {i}");
    }
}

// The vectors of FIPS 180-4's examples for SHA-1, and of no bytes.
#[test]
fn digests(rt: HostRuntime) {
    let rows: [(&[u8], &[u8; 20]); 3] = [
        (
            b"",
            b"\xda\x39\xa3\xee\x5e\x6b\x4b\x0d\x32\x55\xbf\xef\x95\x60\x18\x90\xaf\xd8\x07\x09",
        ),
        (
            b"abc",
            b"\xa9\x99\x3e\x36\x47\x06\x81\x6a\xba\x3e\x25\x71\x78\x50\xc2\x6c\x9c\xd0\xd8\x9d",
        ),
        (
            b"abcdbcdecdefdefgefghfghighijhijkijkljklmklmnlmnomnopnopq",
            b"\x84\x98\x3e\x44\x1c\x3b\xd2\x6e\xba\xae\x4a\xa1\xf9\x51\x29\xe5\xe5\x46\x70\xf1",
        ),
    ];
    for (i, (text, digest)) in rows.iter().enumerate() {
        assert!(rt; Sha1::digest(*text) == **digest, "row {i}");
    }
    let mut million = Sha1::new();
    for _ in 0..1_000 {
        million.update(&[b'a'; 1_000]);
    }
    let wanted =
        b"\x34\xaa\x97\x3c\xd4\xc4\xda\xa4\xf6\x1e\xeb\x2b\xdb\xad\x27\x31\x65\x34\x01\x6f";
    assert!(rt; million.finalize() == *wanted, "a million");
}

#[test]
fn laws_of_blobs() {
    blob_law();
    opening_law::<u32>();
    commands_by_keys::<[u8; 20], ()>();
}
