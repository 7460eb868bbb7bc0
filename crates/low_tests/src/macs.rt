// The vectors of RFC 2202 for HMAC-SHA-1, and further values that Python's `hmac` module gave.
use flk_hmac::{Hmac, derive, mask, mask_law};

// A key, a text, and its HMAC.
type Vector<'a> = (&'a [u8], &'a [u8], &'a [u8; 20]);

const LONG_KEY: [u8; 80] = [0xaa; 80];

const LONG_TEXT: &[u8; 73] =
    b"Test Using Larger Than Block-Size Key and Larger Than One Block-Size Data";

const LONG_MAC: &[u8; 20] =
    b"\xe8\xe9\x9d\x0f\x45\x23\x7d\x78\x6d\x6b\xba\xa7\x96\x5c\x78\x08\xbb\xff\x1a\x91";

// Whether the text, in two pieces cut here, has this HMAC.
fn is_mac(row: Vector<'_>, cut: usize) -> bool {
    let (key, text, wanted) = row;
    let (first, second) = text.split_at(cut.min(text.len()));
    let mut hmac = Hmac::new(key);
    hmac.update(first);
    hmac.update(second);
    hmac.finish() == *wanted
}

const VECTORS: [Vector<'static>; 9] = [
    (
        &[0x0b; 20],
        b"Hi There",
        b"\xb6\x17\x31\x86\x55\x05\x72\x64\xe2\x8b\xc0\xb6\xfb\x37\x8c\x8e\xf1\x46\xbe\x00",
    ),
    (
        b"Jefe",
        b"what do ya want for nothing?",
        b"\xef\xfc\xdf\x6a\xe5\xeb\x2f\xa2\xd2\x74\x16\xd5\xf1\x84\xdf\x9c\x25\x9a\x7c\x79",
    ),
    (
        &[0xaa; 20],
        &[0xdd; 50],
        b"\x12\x5d\x73\x42\xb9\xac\x11\xcd\x91\xa3\x9a\xf4\x8a\xa1\x7b\x4f\x63\xf1\x75\xd3",
    ),
    (
        b"\x01\x02\x03\x04\x05\x06\x07\x08\x09\x0a\x0b\x0c\x0d\x0e\x0f\x10\x11\x12\x13\x14\x15\
          \x16\x17\x18\x19",
        &[0xcd; 50],
        b"\x4c\x90\x07\xf4\x02\x62\x50\xc6\xbc\x84\x14\xf9\xbf\x50\xc8\x6c\x2d\x72\x35\xda",
    ),
    (
        &[0x0c; 20],
        b"Test With Truncation",
        b"\x4c\x1a\x03\x42\x4b\x55\xe0\x7f\xe7\xf2\x7b\xe1\xd5\x8b\xb9\x32\x4a\x9a\x5a\x04",
    ),
    (
        &LONG_KEY,
        b"Test Using Larger Than Block-Size Key - Hash Key First",
        b"\xaa\x4a\xe5\xe1\x52\x72\xd0\x0e\x95\x70\x56\x37\xce\x8a\x3b\x55\xed\x40\x21\x12",
    ),
    (
        &[0x6b; 64],
        b"a key of one block",
        b"\x14\xe6\xd7\x0e\xa2\xb8\x07\xd1\xe1\x0e\x9a\x6d\x80\xfa\x1a\xa7\xde\x07\x91\x1b",
    ),
    (
        &[0x6b; 65],
        b"a key of one byte more",
        b"\x26\x78\xb8\x8e\x73\x89\x58\x99\x34\xed\x92\xbd\xe8\x21\x8c\xa4\xb1\xa8\xd7\x32",
    ),
    (
        b"",
        b"",
        b"\xfb\xdb\x1d\x1b\x18\xaa\x6c\x08\x32\x4b\x7d\x64\xb7\x1f\xb7\x63\x70\x69\x0e\x1d",
    ),
];

#[test]
fn vectors(rt: HostRuntime) {
    for (i, row) in VECTORS.iter().enumerate() {
        assert!(rt; is_mac(*row, 0), "row {i}");
    }
}

#[test]
fn pieces_cut_everywhere(rt: HostRuntime) {
    for cut in 0..LONG_TEXT.len() + 1 {
        assert!(rt;
            is_mac((&LONG_KEY, LONG_TEXT, LONG_MAC), cut),
            "cut at {cut}"
        );
    }
}

#[test]
fn derives_by_label(rt: HostRuntime) {
    let wanted =
        b"\x59\x12\x7f\x6c\xad\xe2\xcf\xcf\x34\x05\x60\x2e\x4e\x24\x05\x60\xe9\x3f\xe7\xf6";
    assert!(rt; derive(&[0x5a; 20], b"flk-seal") == *wanted, "derive");
}

const MASK_KEY: &[u8; 20] =
    b"\x00\x01\x02\x03\x04\x05\x06\x07\x08\x09\x0a\x0b\x0c\x0d\x0e\x0f\x10\x11\x12\x13";

// Whether the bytes, at most 47, are masked as these, and the other way round.
fn is_masked(serial: u64, plain: &[u8], wanted: &[u8]) -> bool {
    let mut buffer = [0u8; 47];
    if plain.len() > buffer.len() {
        return false;
    }
    let bytes = &mut buffer[..plain.len()];
    bytes.copy_from_slice(plain);
    mask(MASK_KEY, serial, bytes);
    let is_right = &*bytes == wanted;
    mask(MASK_KEY, serial, bytes);
    is_right && &*bytes == plain
}

#[test]
fn masks_by_blocks(rt: HostRuntime) {
    // Two whole blocks and one of seven bytes, under a serial number with bits in its high half;
    // one block; and no bytes.
    let rows: [(u64, &[u8], &[u8]); 3] = [
        (
            0x0123_4567_89ab_cdef,
            b"\x01\x08\x0f\x16\x1d\x24\x2b\x32\x39\x40\x47\x4e\x55\x5c\x63\x6a\x71\x78\x7f\x86\x8d\
              \x94\x9b\xa2\xa9\xb0\xb7\xbe\xc5\xcc\xd3\xda\xe1\xe8\xef\xf6\xfd\x04\x0b\x12\x19\x20\
              \x27\x2e\x35\x3c\x43",
            b"\x7c\x7a\x58\xec\xe8\x86\x90\x56\x21\x6f\x59\xba\xc4\x98\x8a\xe3\xf4\x03\xbe\x9a\x18\
              \x23\x27\xe0\x97\x1a\x74\x3d\xbc\x45\x34\xb2\x1f\x4c\x73\x73\xcc\xdf\xbf\x7e\x45\xe5\
              \xdf\x76\x90\x0f\xcb",
        ),
        (
            9,
            b"twenty bytes exactly",
            b"\xef\xb4\xdd\x50\x22\xa5\x95\xa3\xdc\xd8\x16\xb1\x14\x8d\x8a\x92\x9a\xdf\x38\xc8",
        ),
        (9, b"", b""),
    ];
    for (i, (serial, plain, wanted)) in rows.iter().enumerate() {
        assert!(rt; is_masked(*serial, *plain, *wanted), "row {i}");
    }
    mask_law();
}
