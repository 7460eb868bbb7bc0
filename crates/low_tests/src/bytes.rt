// The fuse, bytes, and hexadecimal text.
use flk_base::{Bytes, Fuse, HexFault, print_hex, read_hex};
use std::alloc::Global;

// What is left of a fuse, whether its step is refused, and what is left then.
type FuseRow = (Option<u32>, bool, Option<u32>);

fn is_fuse_row(row: FuseRow) -> bool {
    let (left, is_refused, after) = row;
    let mut fuse = Fuse { left };
    fuse.step().is_err() == is_refused && fuse.left == after
}

const FUSES: [FuseRow; 4] = [
    (None, false, None),
    (Some(0), true, Some(0)),
    (Some(1), false, Some(0)),
    (Some(u32::MAX), false, Some(u32::MAX - 1)),
];

#[test]
fn fuse_steps(rt: HostRuntime) {
    for (i, row) in FUSES.iter().enumerate() {
        assert!(rt; is_fuse_row(*row), "row {i}");
    }
}

// Whether bytes grow by each of the three calls.
fn is_grown(alloc: Global) -> bool {
    let mut bytes = Bytes::new(alloc);
    if bytes.reserve(3).is_err() {
        return false;
    }
    bytes.put(b"abc");
    bytes.push_all(b"").is_ok()
        && bytes.push_all(b"de").is_ok()
        && bytes.as_slice() == b"abcde".as_slice()
}

#[test]
fn bytes_grow(rt: HostRuntime) {
    assert!(rt; is_grown(rt.alloc()), "bytes");
}

// Whether the text is read as these bytes.
fn is_read(alloc: Global, text: &[u8], bytes: &[u8]) -> bool {
    match read_hex(alloc, text) {
        Ok(read) => read.as_slice() == bytes,
        Err(_) => false,
    }
}

// Whether the bytes are printed as this text.
fn is_printed(alloc: Global, bytes: &[u8], text: &[u8]) -> bool {
    let mut out = Bytes::new(alloc);
    print_hex(&mut out, bytes).is_ok() && out.as_slice() == text
}

// A text, the bytes that it spells, and how these are printed.
const TEXTS: [(&'static [u8], &'static [u8], &'static [u8]); 3] = [
    (b"", b"", b""),
    (b"00Ff7a", &[0x00, 0xff, 0x7a], b"00ff7a"),
    (b"DEADbeef", &[0xde, 0xad, 0xbe, 0xef], b"deadbeef"),
];

#[test]
fn hexadecimal_is_read_and_printed(rt: HostRuntime) {
    for (i, (text, bytes, printed)) in TEXTS.iter().enumerate() {
        assert!(rt; is_read(rt.alloc(), *text, *bytes), "row {i}");
        assert!(rt; is_printed(rt.alloc(), *bytes, *printed), "row {i}");
    }
}

// Whether the text is refused so.
fn is_refused(alloc: Global, text: &[u8], fault: HexFault) -> bool {
    match read_hex(alloc, text) {
        Ok(_) => false,
        Err(other) => other == fault,
    }
}

// A text, and what it is refused for.
const OTHER_TEXTS: [(&'static [u8], HexFault); 7] = [
    (b"0", HexFault::Odd),
    (b"00f", HexFault::Odd),
    (b"g", HexFault::Odd),
    (b"0x1", HexFault::Odd),
    (b"0g", HexFault::Digit),
    (b"g0", HexFault::Digit),
    (b"00 1", HexFault::Digit),
];

#[test]
fn other_text_is_refused(rt: HostRuntime) {
    for (i, (text, fault)) in OTHER_TEXTS.iter().enumerate() {
        assert!(rt; is_refused(rt.alloc(), *text, *fault), "row {i}");
    }
}
