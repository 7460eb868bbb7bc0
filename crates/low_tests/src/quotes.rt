// Quotes of sessions that are described. The bytes are those of python3's hashlib and hmac:
// v = 20 zeros, extended by the image, b"pal" + each text, b"in" + inputs, b"out" + outputs,
// b"end" + bytes([end]) + nonce and b"close", where a text t makes v sha1(v + sha1(t).digest()); and
// the quote is v + hmac(key, b"FLKQ" + nonce + v).
use quote_check::{Check, chain_law, value_law};

// A session that is described, by two texts of its code, and the key and the bytes of its quote.
#[derive(Clone, Copy)]
struct Row<'a> {
    image: &'a [u8],
    texts: [&'a [u8]; 2],
    inputs: &'a [u8],
    outputs: &'a [u8],
    end: u8,
    nonce: [u8; 20],
    key: [u8; 20],
    quote: &'a [u8],
}

// The quote of BASE.
const QUOTE: &[u8; 40] =
    b"\x51\xbe\xb2\x9f\xd0\x25\x57\xaa\xcc\xfd\xc7\xfb\x15\x10\x7c\x20\x93\xd7\xf2\xb6\
      \x9d\x58\x75\xe1\xae\x52\x41\xf8\x45\x1f\x10\x40\xef\xc6\x6c\xea\x28\xc9\xb5\x29";

// The quote of BASE with its texts in the other order.
const OTHER_ORDER: &[u8; 40] =
    b"\x8d\x29\xd1\x7d\xe9\x19\x38\x42\x44\x4c\x92\xcd\x8e\x18\x99\x0d\x91\xfb\x9d\xba\
      \x96\x5c\x04\xa3\x3e\x8c\x4b\xdf\xe4\x6b\x72\xf8\xa8\x2f\x8a\x7f\xdc\xd4\x0a\xe2";

// That of BASE with a tag without the nonce.
const NONCE_NOT_IN_TAG: &[u8; 40] =
    b"\x51\xbe\xb2\x9f\xd0\x25\x57\xaa\xcc\xfd\xc7\xfb\x15\x10\x7c\x20\x93\xd7\xf2\xb6\
      \xee\x60\x7e\x77\xd7\x40\xdf\x1c\xf9\x2f\x67\x12\x27\x00\xad\x18\x7a\x54\x28\xa0";

// That of BASE with a chain without the nonce.
const NONCE_NOT_IN_CHAIN: &[u8; 40] =
    b"\x0f\xe9\xde\xa5\x16\x32\x86\x4d\xeb\x96\xd3\x3e\xf1\x27\xd3\x79\x5c\xc5\xb8\x53\
      \x41\x5f\x00\x60\x9b\xb3\x4e\x64\xf2\xa3\x6c\x2f\x80\xa5\xb3\x50\x66\x03\x37\x34";

const BASE: Row<'static> = Row {
    image: b"image",
    texts: [b"one", b"two"],
    inputs: &[1, 2, 3],
    outputs: &[6, 0, 0, 0],
    end: 0,
    nonce: [0x07; 20],
    key: [0x5a; 20],
    quote: QUOTE,
};

// Whether the quote is that of the session.
fn is_right(row: &Row<'_>) -> bool {
    let mut check = Check::new(row.image);
    check.extend(row.texts[0]);
    check.extend(row.texts[1]);
    check.verdict(
        &row.key,
        row.inputs,
        row.outputs,
        row.end,
        &row.nonce,
        row.quote,
    )
}

#[test]
fn right_quotes(rt: HostRuntime) {
    let swapped = Row {
        texts: [b"two", b"one"],
        quote: OTHER_ORDER,
        ..BASE
    };
    for (i, row) in [BASE, swapped].iter().enumerate() {
        assert!(rt; is_right(row), "row {i}");
    }
}

// Whether the least session, with nothing in any text, has this quote.
fn is_least() -> bool {
    Check::new(b"").verdict(&[0x5a; 20], b"", b"", 0, &[0; 20], LEAST)
}

// The quote of a session with nothing in any text and a nonce of zeros.
const LEAST: &[u8; 40] =
    b"\x42\x59\x9b\x2c\xd4\x7b\x91\xce\x61\xc3\x04\xcf\xc3\x68\x36\x79\x9d\x63\xf7\xa6\
      \x93\xbb\x5f\x02\xbe\x4a\x31\x3d\x7b\x31\xcb\x5d\xd4\xd6\x69\xe5\x1a\x4d\x3d\x67";

#[test]
fn least_session(rt: HostRuntime) {
    assert!(rt; is_least(), "least");
}

#[test]
fn wrong_descriptions(rt: HostRuntime) {
    let rows = [
        Row {
            image: b"imagf",
            ..BASE
        },
        Row {
            texts: [b"one", b"twp"],
            ..BASE
        },
        Row {
            texts: [b"two", b"one"],
            ..BASE
        },
        Row {
            texts: [b"onetwo", b""],
            ..BASE
        },
        Row {
            inputs: &[1, 2],
            ..BASE
        },
        Row {
            outputs: &[6, 0, 0, 0, 0],
            ..BASE
        },
        Row { end: 4, ..BASE },
        Row {
            nonce: [0x08; 20],
            ..BASE
        },
        Row {
            key: [0x5b; 20],
            ..BASE
        },
    ];
    for (i, row) in rows.iter().enumerate() {
        assert!(rt; !is_right(row), "row {i}");
    }
}

// Whether the first bytes of the quote of BASE, so many, are none.
fn is_cut(len: usize) -> bool {
    len < QUOTE.len()
        && !is_right(&Row {
            quote: &QUOTE[..len],
            ..BASE
        })
}

// Whether the quote of BASE with a byte after it is none.
fn is_longer() -> bool {
    let mut longer = [0; 41];
    longer[..40].copy_from_slice(QUOTE);
    !is_right(&Row {
        quote: &longer,
        ..BASE
    })
}

#[test]
fn wrong_lengths(rt: HostRuntime) {
    for len in 0..40 {
        assert!(rt; is_cut(len), "{len} bytes");
    }
    assert!(rt; is_longer(), "41 bytes");
}

#[test]
fn wrong_quotes(rt: HostRuntime) {
    let rows: [&'static [u8; 40]; 3] = [NONCE_NOT_IN_TAG, NONCE_NOT_IN_CHAIN, OTHER_ORDER];
    for (i, quote) in rows.iter().enumerate() {
        let row = Row {
            quote: (*quote).as_slice(),
            ..BASE
        };
        assert!(rt; !is_right(&row), "row {i}");
    }
}

// Whether the quote of BASE with this byte changed is none of BASE.
fn is_changed(at: usize) -> bool {
    let mut quote = *QUOTE;
    if at >= quote.len() {
        return false;
    }
    quote[at] ^= 1;
    !is_right(&Row {
        quote: &quote,
        ..BASE
    })
}

#[test]
fn changed_bytes(rt: HostRuntime) {
    for at in 0..40 {
        assert!(rt; is_changed(at), "byte {at}");
    }
}

// The quotes of BASE with the ends 0 to 10 and 255.
const ENDS: [(u8, &[u8; 40]); 12] = [
    (
        0,
        b"\x51\xbe\xb2\x9f\xd0\x25\x57\xaa\xcc\xfd\xc7\xfb\x15\x10\x7c\x20\x93\xd7\xf2\xb6\
          \x9d\x58\x75\xe1\xae\x52\x41\xf8\x45\x1f\x10\x40\xef\xc6\x6c\xea\x28\xc9\xb5\x29",
    ),
    (
        1,
        b"\xce\x46\x54\x39\x38\x56\xe6\x8f\x40\xd9\xdb\xef\xc6\x01\x2b\x86\x90\xcd\xde\x8f\
          \x56\x19\x18\x06\xf6\x20\xd3\xdb\x3f\x35\x9f\xff\xd8\x97\xae\x64\xe3\xbc\xb6\x7d",
    ),
    (
        2,
        b"\xea\x0b\x54\x87\xcb\x6e\xdc\x22\x19\xd9\x7b\x54\xbb\x1d\xed\xe5\x70\x19\xcb\x35\
          \xa3\xf5\xe9\xde\xfe\x28\x02\x2a\x2b\xdc\xe2\x8d\xd9\xe2\x3e\xe9\x3c\x8c\x89\x29",
    ),
    (
        3,
        b"\xd0\x02\xed\x34\x52\x08\xe3\x5c\x30\x10\xd1\x86\x76\xf0\x05\xd8\x9f\x1f\x86\x1d\
          \x77\x01\xa8\x43\xb9\x4f\xbe\x5a\x0b\x2a\x00\xf3\xf2\x1c\x2d\x45\x3e\x70\x67\x1c",
    ),
    (
        4,
        b"\x83\xe2\x65\x2d\x31\x3d\xf1\x1a\x7c\x9d\x76\x28\x8a\xfb\x71\xfc\xb0\x3b\x97\x39\
          \xf2\xc8\x25\xef\x6d\x2c\x36\xb8\x5f\x10\x51\x87\xb5\xf1\xc1\xb1\x53\xbb\x8e\x4e",
    ),
    (
        5,
        b"\x45\x9d\x48\x52\x9b\xbd\x67\x65\x27\x1b\x84\x6a\x28\xd4\x91\xb3\x8b\xae\x5d\xae\
          \x07\xb6\xcd\xdb\x28\xd2\x7d\x3b\x7c\xee\x14\xc9\x05\xc6\x6c\x4b\x1b\x72\xdf\x46",
    ),
    (
        6,
        b"\x61\x22\x44\x7a\xbe\xc0\x18\x31\x14\x41\x3d\x06\x56\xcd\xfc\x2a\x70\x54\x3e\xed\
          \x98\x29\xea\x76\xeb\x75\x7f\xbf\x5c\x93\x83\x9b\x3d\xfd\x4d\x24\xa1\x96\x94\x70",
    ),
    (
        7,
        b"\xc3\xbb\x24\x4b\x4b\xe7\xde\xee\x68\x55\xad\xe6\x6f\xf0\x43\x63\x5f\x19\x9b\x78\
          \x53\x5f\xb9\xd8\xef\xfc\x0d\x63\xf5\xd0\xa1\x77\xf9\x3b\x7d\xb1\x84\xa4\xff\xbd",
    ),
    (
        8,
        b"\x47\x35\x8c\x5a\xab\xd8\x39\x4c\xa1\xd8\xe9\xf1\xf4\x36\xcd\x0f\x8e\x09\x17\xb1\
          \xed\x02\x8e\x86\x73\x6e\xef\xc6\xd3\xdc\xf6\xf8\xda\xdb\x2e\xad\x2c\x77\x35\x9d",
    ),
    (
        9,
        b"\x16\x36\x81\xb9\xf9\x6d\x98\x6e\x78\x1f\x8f\x72\xeb\xf4\xb7\x9d\xca\xfe\xd8\x6c\
          \x8c\x88\xf6\xcd\xd5\xfa\x17\xd5\xf5\xfe\xdd\x02\x0a\xa8\x4b\x7e\x88\x83\xc1\x54",
    ),
    (
        10,
        b"\x84\x3d\x1c\xa4\x22\xb9\x81\x7a\xd6\x58\xd0\x4b\x25\x0f\xad\x3e\xf4\x6d\xfd\xcc\
          \x5a\xb3\x70\x2a\x00\x46\xbb\xcc\x35\xf7\x2d\xb0\x64\x29\x69\x03\xcb\xb8\xc4\x09",
    ),
    (
        255,
        b"\x49\xf4\x96\xc5\xdd\x57\x05\xb8\x62\x63\x4e\xba\xac\xb1\xb7\xc6\x24\xff\x01\x89\
          \x02\x33\x3d\xf2\x39\x43\x16\xd6\x86\x07\x23\xe5\x72\xf3\xaf\x60\xc3\xaa\x69\xa7",
    ),
];

#[test]
fn ends(rt: HostRuntime) {
    for (end, quote) in ENDS {
        assert!(rt; is_right(&Row { end, quote, ..BASE }), "end {end}");
        assert!(rt;
            !is_right(&Row {
                end: end ^ 1,
                quote,
                ..BASE
            }),
            "not end {end}"
        );
    }
}

// The laws are called once, as any public function.
#[test]
fn laws() {
    value_law();
    chain_law();
}
