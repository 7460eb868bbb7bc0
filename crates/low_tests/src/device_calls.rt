// What the device's calls come to that have to do with counters and random words. The blobs and the
// words are those of python3's hmac and hashlib: of the seed, 20 bytes 5a, by the code that stands
// in docs/BLOBS.md, and word n is mac(mac(seed, b"flk-rand"), n.to_bytes(8, "big")).
use crate::blobs::{BEFORE, IMAGE, SEED, comes_to, is_as_before, launched};
use flk_base::Fuse;
use seal_device::{
    BLOB_ROOM, CounterFault, Device, QuoteFault, RandomFault, SealFault, UnsealFault, blob_counter,
    commands_by_counters, quote_law,
};

// The first blob of "k" once the image was measured, of which counter 0 has to stand at 1; and one
// of which it has to stand at 2.
const AT_ONE: &[u8] =
    b"\x46\x4c\x4b\x31\x00\x00\x00\x00\x00\x00\x00\x00\x00\x00\x00\x00\x01\xe0\xcc\x23\x3e\xcb\
      \xe4\x70\xac\x07\x25\x25\xc3\x29\xb3\x2f\xe5\xac\x3b\xd6\x4b\x00\x01\xf0\xf7\xc0\xfc\x9e\
      \x89\xdb\x4f\x08\x4b\xef\xc5\x68\x0a\x0a\xbf\x5a\x87\xd9\xf1\x66";

const AT_TWO: &[u8] =
    b"\x46\x4c\x4b\x31\x00\x00\x00\x00\x00\x00\x00\x00\x00\x00\x00\x00\x02\xe0\xcc\x23\x3e\xcb\
      \xe4\x70\xac\x07\x25\x25\xc3\x29\xb3\x2f\xe5\xac\x3b\xd6\x4b\x00\x01\xf0\x4f\xde\xe7\x5e\
      \x34\xbe\xfc\xc1\x24\x40\x57\x84\x03\x18\x5e\x5e\x66\xd9\xd1\x46";

// The second, of which counter 0 has to stand at 3.
const AT_THREE: &[u8] =
    b"\x46\x4c\x4b\x31\x00\x00\x00\x00\x00\x00\x00\x01\x00\x00\x00\x00\x03\xe0\xcc\x23\x3e\xcb\
      \xe4\x70\xac\x07\x25\x25\xc3\x29\xb3\x2f\xe5\xac\x3b\xd6\x4b\x00\x01\xe7\x13\xc9\x81\xef\
      \x89\x8d\xfd\xcf\x64\x9d\x56\xdd\xcd\x50\xdf\x18\xc3\xd5\x54\xda";

// A blob of "abc" of serial 7 that bears no counter, but the value 9: seal makes none such.
const NONE_AT_NINE: &[u8] =
    b"\x46\x4c\x4b\x31\x00\x00\x00\x00\x00\x00\x00\x07\xff\x00\x00\x00\x09\xe0\xcc\x23\x3e\xcb\
      \xe4\x70\xac\x07\x25\x25\xc3\x29\xb3\x2f\xe5\xac\x3b\xd6\x4b\x00\x03\x52\x41\xef\x85\x54\
      \x01\xf6\x64\x82\x3c\x54\x53\x02\xa0\xfa\x06\xf3\x9e\x3e\xaa\x1e\xd6\xfb";

// One byte more than may be sealed.
const TOO_LONG: &[u8] = &[0x6b; 2_049];

// The random words 0 and 1.
const WORD_0: [u8; 20] = [
    0x75, 0x70, 0xac, 0x25, 0x7d, 0xa6, 0x6c, 0x21, 0x80, 0x41, 0xcd, 0x19, 0x11, 0x0f, 0x62, 0x6e,
    0xf6, 0x75, 0x60, 0x89,
];

const WORD_1: [u8; 20] = [
    0x2d, 0x2b, 0x97, 0x5a, 0x72, 0x83, 0x53, 0xae, 0x98, 0x5a, 0x66, 0x61, 0xef, 0x88, 0x2f, 0xba,
    0xcf, 0xac, 0x80, 0x3a,
];

// What register 17 is quoted as for the nonce, at power-on, once the image was measured, and once x
// came after it: the value, and hmac(hmac(seed, b"flk-quote"), b"FLKQ" + nonce + value).
const NONCE: [u8; 20] = [0x07; 20];

const QUOTED_AT_POWER_ON: &[u8; 40] =
    b"\xff\xff\xff\xff\xff\xff\xff\xff\xff\xff\xff\xff\xff\xff\xff\xff\xff\xff\xff\xff\
      \x39\x9d\xf3\x05\x9d\xd1\x3d\x5d\x10\xc1\xf3\x42\xe8\x3b\xb5\x32\xfd\xd3\x63\x02";

const QUOTED_AT_LAUNCH: &[u8; 40] =
    b"\xe0\xcc\x23\x3e\xcb\xe4\x70\xac\x07\x25\x25\xc3\x29\xb3\x2f\xe5\xac\x3b\xd6\x4b\
      \xf9\xbf\xb9\xc8\x5c\x53\xf8\x2e\xe2\x17\x6f\x01\xb5\xe4\x89\x9f\xf1\xe5\x80\xb4";

const QUOTED_AFTER: &[u8; 40] =
    b"\x74\x07\x18\x7c\x51\x34\xf5\x37\x53\xf4\x6f\xec\x69\x27\x8d\x85\x10\xcc\x22\x58\
      \x64\x4e\x42\xaf\xa0\xfc\x9d\xfc\xa8\x5c\xfa\x7e\x80\x43\x11\x45\xc1\xb8\xb0\x46";

const QUOTE_KEY: &[u8; 20] =
    b"\x8c\xcc\x28\x96\x2e\xb6\x11\x10\xd5\x79\xf5\xe6\x58\x6f\x62\xdc\xe3\x68\x41\xef";

// A call to a device, and what it comes to.
#[derive(Clone, Copy)]
enum Row {
    /// Bytes are sealed, by a counter and ahead where that is asked: to this blob.
    Seal(&'static [u8], Option<u8>, bool, Result<&'static [u8], SealFault>),
    /// A blob is unsealed.
    Unseal(&'static [u8], Result<&'static [u8], UnsealFault>),
    /// A blob is tried for the next value of its counter.
    Next(&'static [u8], Result<u8, UnsealFault>),
    /// A counter is created.
    Create(Result<u8, CounterFault>),
    /// A counter is read.
    Read(u8, Result<u32, CounterFault>),
    /// A counter is incremented.
    Increment(u8, Result<u32, CounterFault>),
    /// Register 17 is quoted.
    Quote(Result<&'static [u8; 40], QuoteFault>),
    /// The key for quotes.
    QuoteKey(Option<&'static [u8; 20]>),
    /// A random word is drawn.
    Word(Result<[u8; 20], RandomFault>),
    /// The image is measured.
    Measure,
    /// Register 17 is extended.
    Extend,
    /// The power comes back.
    PowerOn,
}

// Whether sealing comes to this: the blob stands in the buffer, and the rest is as it was.
fn is_sealed(
    device: &mut Device,
    bytes: &[u8],
    counter: Option<u8>,
    ahead: bool,
    wanted: Result<&[u8], SealFault>,
) -> bool {
    let mut out = [BEFORE; BLOB_ROOM];
    let fuse = &mut Fuse { left: Some(1) };
    match (device.seal(bytes, counter, ahead, &mut out, fuse), wanted) {
        (Ok(size), Ok(blob)) => &out[..size] == blob && is_as_before(&out[size..]),
        (Err(fault), Err(other)) => fault == other && is_as_before(&out),
        _ => false,
    }
}

// Whether register 17 is quoted so, in one step.
fn is_quoted(device: &Device, wanted: Result<&'static [u8; 40], QuoteFault>) -> bool {
    let fuse = &mut Fuse { left: Some(1) };
    let quoted = device.quote(&NONCE, fuse);
    let same = match (quoted, wanted) {
        (Ok(quote), Ok(bytes)) => quote == *bytes,
        (Err(fault), Err(other)) => fault == other,
        _ => false,
    };
    same && fuse.left == Some(0)
}

// Whether a row is right, after the rows before it. One step is enough for each call.
fn is_row(device: &mut Device, row: Row) -> bool {
    let fuse = &mut Fuse { left: Some(1) };
    match row {
        Row::Seal(bytes, counter, ahead, wanted) => {
            is_sealed(device, bytes, counter, ahead, wanted)
        }
        Row::Unseal(blob, wanted) => comes_to(device, blob, wanted),
        Row::Next(blob, wanted) => device.check_next(blob, fuse) == wanted,
        Row::Create(wanted) => device.new_counter(fuse) == wanted,
        Row::Read(id, wanted) => device.read_counter(id, fuse) == wanted,
        Row::Increment(id, wanted) => device.increment(id, fuse) == wanted,
        Row::Quote(wanted) => is_quoted(device, wanted),
        Row::QuoteKey(wanted) => device.quote_key() == wanted.copied(),
        Row::Word(wanted) => device.random(fuse) == wanted,
        Row::Measure => device.measure(&IMAGE, fuse) == Ok(()),
        Row::Extend => device.extend(17, b"", b"x", fuse) == Ok(()),
        Row::PowerOn => {
            device.power_cycle();
            true
        }
    }
}

#[test]
fn a_counter_past_its_blob(rt: HostRuntime) {
    let rows: [Row; 11] = [
        Row::Create(Ok(0)),
        Row::Seal(b"k", Some(0), false, Ok(AT_ONE)),
        Row::Unseal(AT_ONE, Ok(b"k")),
        Row::Next(AT_ONE, Err(UnsealFault::WrongCounter)),
        Row::Increment(0, Ok(2)),
        Row::Unseal(AT_ONE, Err(UnsealFault::WrongCounter)),
        Row::Next(AT_ONE, Err(UnsealFault::WrongCounter)),
        Row::Seal(b"k", Some(1), false, Err(SealFault::NoCounter)),
        Row::Seal(TOO_LONG, Some(1), false, Err(SealFault::TooLong)),
        Row::Seal(TOO_LONG, Some(0), true, Err(SealFault::TooLong)),
        Row::Read(0, Ok(2)),
    ];
    let mut device = launched(&SEED);
    for (i, row) in rows.iter().enumerate() {
        assert!(rt; is_row(&mut device, *row), "row {i}");
    }
}

#[test]
fn a_blob_past_its_counter(rt: HostRuntime) {
    let rows: [Row; 17] = [
        Row::Unseal(AT_TWO, Err(UnsealFault::WrongCounter)),
        Row::Next(AT_TWO, Err(UnsealFault::WrongCounter)),
        Row::Create(Ok(0)),
        Row::Seal(b"k", Some(0), true, Ok(AT_TWO)),
        Row::Read(0, Ok(1)),
        Row::Unseal(AT_TWO, Err(UnsealFault::WrongCounter)),
        Row::Next(AT_TWO, Ok(0)),
        Row::Next(AT_THREE, Err(UnsealFault::WrongCounter)),
        Row::Unseal(AT_THREE, Err(UnsealFault::WrongCounter)),
        Row::Increment(0, Ok(2)),
        Row::Unseal(AT_TWO, Ok(b"k")),
        Row::Next(AT_TWO, Err(UnsealFault::WrongCounter)),
        Row::Next(AT_THREE, Ok(0)),
        Row::Seal(b"k", Some(0), true, Ok(AT_THREE)),
        Row::Increment(0, Ok(3)),
        Row::Unseal(AT_TWO, Err(UnsealFault::WrongCounter)),
        Row::Unseal(AT_THREE, Ok(b"k")),
    ];
    let mut device = launched(&SEED);
    for (i, row) in rows.iter().enumerate() {
        assert!(rt; is_row(&mut device, *row), "row {i}");
    }
}

#[test]
fn no_counter_and_no_chain(rt: HostRuntime) {
    let rows: [Row; 8] = [
        Row::Create(Ok(0)),
        Row::Unseal(NONE_AT_NINE, Ok(b"abc")),
        Row::Next(NONE_AT_NINE, Err(UnsealFault::WrongCounter)),
        Row::Next(b"no blob", Err(UnsealFault::NotBlob)),
        Row::Extend,
        Row::Next(AT_TWO, Err(UnsealFault::WrongChain)),
        Row::Unseal(AT_ONE, Err(UnsealFault::WrongChain)),
        Row::Next(NONE_AT_NINE, Err(UnsealFault::WrongChain)),
    ];
    let mut device = launched(&SEED);
    for (i, row) in rows.iter().enumerate() {
        assert!(rt; is_row(&mut device, *row), "row {i}");
    }
    let read = blob_counter(NONE_AT_NINE) == None && blob_counter(AT_ONE) == Some(0);
    assert!(rt; read, "the counters of the blobs");
}

#[test]
fn owners_and_power(rt: HostRuntime) {
    let rows: [Row; 19] = [
        Row::Create(Ok(0)),
        Row::Word(Ok(WORD_0)),
        Row::Extend,
        Row::Increment(0, Err(CounterFault::NotOwner)),
        Row::Increment(1, Err(CounterFault::NoCounter)),
        Row::Read(1, Err(CounterFault::NoCounter)),
        Row::Read(255, Err(CounterFault::NoCounter)),
        Row::Read(0, Ok(1)),
        Row::Create(Ok(1)),
        Row::Measure,
        Row::Increment(1, Err(CounterFault::NotOwner)),
        Row::Increment(0, Ok(2)),
        Row::PowerOn,
        Row::Increment(0, Err(CounterFault::NotOwner)),
        Row::Read(0, Ok(2)),
        Row::Word(Ok(WORD_1)),
        Row::Measure,
        Row::Increment(0, Ok(3)),
        Row::Read(1, Ok(2)),
    ];
    let mut device = launched(&SEED);
    for (i, row) in rows.iter().enumerate() {
        assert!(rt; is_row(&mut device, *row), "row {i}");
    }
}

// Whether sixteen counters are created, with the values 1 to 16, and no more.
fn is_full_at_sixteen() -> bool {
    let mut device = launched(&SEED);
    for id in 0..16u8 {
        let created = is_row(&mut device, Row::Create(Ok(id)))
            && is_row(&mut device, Row::Read(id, Ok(u32::from(id) + 1)));
        if !created {
            return false;
        }
    }
    is_row(&mut device, Row::Create(Err(CounterFault::Full)))
        && is_row(&mut device, Row::Read(16, Err(CounterFault::NoCounter)))
        && is_row(&mut device, Row::Increment(0, Ok(2)))
}

#[test]
fn sixteen_counters(rt: HostRuntime) {
    assert!(rt; is_full_at_sixteen(), "sixteen");
}

#[test]
fn without_a_seed(rt: HostRuntime) {
    let rows: [Row; 11] = [
        Row::Measure,
        Row::Quote(Err(QuoteFault::Unprovisioned)),
        Row::QuoteKey(None),
        Row::Seal(TOO_LONG, Some(0), true, Err(SealFault::Unprovisioned)),
        Row::Unseal(AT_ONE, Err(UnsealFault::Unprovisioned)),
        Row::Next(b"", Err(UnsealFault::Unprovisioned)),
        Row::Word(Err(RandomFault::Unprovisioned)),
        Row::Create(Ok(0)),
        Row::Increment(0, Ok(2)),
        Row::Read(0, Ok(2)),
        Row::Next(AT_THREE, Err(UnsealFault::Unprovisioned)),
    ];
    let mut device = Device::blank();
    for (i, row) in rows.iter().enumerate() {
        assert!(rt; is_row(&mut device, *row), "row {i}");
    }
}

// Whether each call says that the power was lost, where the fuse has no step left.
fn is_lost(device: &mut Device) -> bool {
    let fuse = &mut Fuse { left: Some(0) };
    let mut out = [BEFORE; BLOB_ROOM];
    device.new_counter(fuse) == Err(CounterFault::PowerLost)
        && device.read_counter(0, fuse) == Err(CounterFault::PowerLost)
        && device.increment(1, fuse) == Err(CounterFault::PowerLost)
        && device.increment(0, fuse) == Err(CounterFault::PowerLost)
        && device.random(fuse) == Err(RandomFault::PowerLost)
        && device.quote(&NONCE, fuse) == Err(QuoteFault::PowerLost)
        && device.check_next(AT_TWO, fuse) == Err(UnsealFault::PowerLost)
        && device.seal(TOO_LONG, Some(0), true, &mut out, fuse) == Err(SealFault::PowerLost)
        && device.seal(b"k", Some(0), true, &mut out, fuse) == Err(SealFault::PowerLost)
        && is_as_before(&out)
        && fuse.left == Some(0)
}

#[test]
fn lost_power(rt: HostRuntime) {
    assert!(rt; is_lost(&mut Device::blank()), "without a seed");
    let mut device = launched(&SEED);
    assert!(rt; is_row(&mut device, Row::Create(Ok(0))), "a counter");
    assert!(rt; is_lost(&mut device), "each call");
    let rows: [Row; 6] = [
        Row::Read(0, Ok(1)),
        Row::Read(1, Err(CounterFault::NoCounter)),
        Row::Word(Ok(WORD_0)),
        Row::Seal(b"k", Some(0), true, Ok(AT_TWO)),
        Row::Create(Ok(1)),
        Row::Read(1, Ok(2)),
    ];
    for (i, row) in rows.iter().enumerate() {
        assert!(rt; is_row(&mut device, *row), "row {i}");
    }
}

#[test]
fn quotes_of_a_device(rt: HostRuntime) {
    let rows: [Row; 7] = [
        Row::Quote(Ok(QUOTED_AT_LAUNCH)),
        Row::QuoteKey(Some(QUOTE_KEY)),
        Row::Quote(Ok(QUOTED_AT_LAUNCH)),
        Row::Extend,
        Row::Quote(Ok(QUOTED_AFTER)),
        Row::PowerOn,
        Row::Quote(Ok(QUOTED_AT_POWER_ON)),
    ];
    let mut device = launched(&SEED);
    for (i, row) in rows.iter().enumerate() {
        assert!(rt; is_row(&mut device, *row), "row {i}");
    }
}

// Whether each fault has its number.
fn is_numbered() -> bool {
    CounterFault::Full as u32 == 1
        && CounterFault::End as u32 == 2
        && CounterFault::NoCounter as u32 == 3
        && CounterFault::NotOwner as u32 == 4
        && CounterFault::PowerLost as u32 == 5
        && RandomFault::RandomEnd as u32 == 4
        && RandomFault::PowerLost as u32 == 5
        && RandomFault::Unprovisioned as u32 == 6
        && QuoteFault::PowerLost as u32 == 5
        && QuoteFault::Unprovisioned as u32 == 6
        && SealFault::CounterEnd as u32 == 3
}

#[test]
fn numbers_of_faults(rt: HostRuntime) {
    assert!(rt; is_numbered(), "numbers");
}

#[test]
fn laws_at_types() {
    commands_by_counters::<[u8; 20], (), u32>();
    quote_law::<u32>();
}
