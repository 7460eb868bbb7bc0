// Images that another program packed, the limits of what can be built, and each fault alone and
// before the next.
use slb_image::{BuildError, ImageFault, build, fault_number, image_law, view};
use std::alloc::Global;

// Entry 32, budget 3, no job, and the code 31 db 31 c0 cd 80.
const IMAGE: [u8; 38] =
    *b"\x20\x00\x26\x00FLKC\x01\x00\x00\x00\x03\x00\x00\x00\0\0\0\0\0\0\0\0\0\0\0\0\0\0\0\0\x31\
      \xdb\x31\xc0\xcd\x80";

// The front of the longest image: entry 49,151, budget 1,000,000, a job.
const LONGEST_FRONT: &[u8; 32] =
    b"\xff\xbf\x00\xc0FLKC\x01\x00\x01\x00\x40\x42\x0f\x00\0\0\0\0\0\0\0\0\0\0\0\0\0\0\0\0";

// What an image is made of: entry, budget, and whether it is a job's.
type Values = (u32, u32, bool);

// Whether the image of these values begins with this front, goes on with the code, and is seen as
// what it was made of.
fn is_built(alloc: Global, code: &[u8], values: Values, front: &[u8]) -> bool {
    let (entry, budget, job) = values;
    let Ok(image) = build(alloc, code, entry, budget, job) else {
        return false;
    };
    let Ok(seen) = view(image.as_slice()) else {
        return false;
    };
    image.as_slice().starts_with(front)
        && image.as_slice().len() == front.len().saturating_add(code.len())
        && seen.all() == image.as_slice()
        && seen.code() == code
        && seen.entry() == entry
        && seen.budget() == budget
        && seen.job() == job
}

// As Python's `struct.pack("<HH4sHHI16s", entry, 32 + length, b"FLKC", 1, job, budget, b"")` gives
// the fronts.
#[test]
fn packed_as_elsewhere(rt: HostRuntime) {
    let code = [0x90; 49_120];
    let rows: [(&[u8], Values, &[u8]); 2] = [
        (&IMAGE[32..], (32, 3, false), &IMAGE[..32]),
        (&code, (49_151, 1_000_000, true), LONGEST_FRONT),
    ];
    for (i, (code, values, front)) in rows.iter().enumerate() {
        assert!(rt; is_built(rt.alloc(), *code, *values, *front), "row {i}");
    }
    image_law();
}

// How many bytes 90 the code has, the entry, the budget, and what comes of it: an image of so many
// bytes, or this fault.
type LimitRow = (usize, u32, u32, Result<usize, ImageFault>);

fn is_limit(alloc: Global, row: LimitRow) -> bool {
    let (count, entry, budget, wanted) = row;
    let Ok(code) = Vec::from_elem(alloc, 0x90u8, count) else {
        return false;
    };
    match build(alloc, code.as_slice(), entry, budget, false) {
        Ok(image) => wanted == Ok(image.as_slice().len()),
        Err(BuildError::Image(fault)) => wanted == Err(fault),
        Err(BuildError::NoMemory) => false,
    }
}

const LIMITS: [LimitRow; 11] = [
    (49_120, 32, 1, Ok(49_152)),
    (49_121, 32, 1, Err(ImageFault::Length)),
    (0, 32, 1, Err(ImageFault::Length)),
    (1, 31, 1, Err(ImageFault::Entry)),
    (1, 33, 1, Err(ImageFault::Entry)),
    (1, 65_568, 1, Err(ImageFault::Entry)),
    (1, 32, 0, Err(ImageFault::Budget)),
    (1, 32, 1_000_000, Ok(33)),
    (1, 32, 1_000_001, Err(ImageFault::Budget)),
    // Length before Entry, Entry before Budget.
    (0, 31, 0, Err(ImageFault::Length)),
    (1, 31, 0, Err(ImageFault::Entry)),
];

#[test]
fn limits(rt: HostRuntime) {
    for (i, row) in LIMITS.iter().enumerate() {
        assert!(rt; is_limit(rt.alloc(), *row), "row {i}");
    }
}

// Whether these bytes are refused so.
fn is_refused(bytes: &[u8], fault: ImageFault) -> bool {
    match view(bytes) {
        Ok(_) => false,
        Err(other) => other == fault,
    }
}

// Whether the image is refused so once two of its bytes are changed.
fn is_faulty(one: (usize, u8), other: (usize, u8), fault: ImageFault) -> bool {
    let mut bytes = IMAGE;
    if one.0 >= bytes.len() || other.0 >= bytes.len() {
        return false;
    }
    bytes[one.0] = one.1;
    bytes[other.0] = other.1;
    is_refused(&bytes, fault)
}

// An offset, the byte that comes there, and the fault that it makes.
const FAULTS: [(usize, u8, ImageFault); 17] = [
    (2, 37, ImageFault::Length),
    (2, 39, ImageFault::Length),
    (3, 1, ImageFault::Length),
    (0, 31, ImageFault::Entry),
    (0, 38, ImageFault::Entry),
    (1, 1, ImageFault::Entry),
    (4, b'f', ImageFault::Mark),
    (7, b'D', ImageFault::Mark),
    (8, 0, ImageFault::Version),
    (8, 2, ImageFault::Version),
    (9, 1, ImageFault::Version),
    (10, 2, ImageFault::Flags),
    (11, 1, ImageFault::Flags),
    (12, 0, ImageFault::Budget),
    (15, 1, ImageFault::Budget),
    (16, 1, ImageFault::Reserved),
    (31, 1, ImageFault::Reserved),
];

#[test]
fn each_fault_alone(rt: HostRuntime) {
    for (i, (offset, byte, fault)) in FAULTS.iter().enumerate() {
        assert!(rt;
            is_faulty((*offset, *byte), (*offset, *byte), *fault),
            "row {i}"
        );
    }
}

// A change that makes each fault, in their order.
const CHANGES: [((usize, u8), ImageFault); 7] = [
    ((2, 37), ImageFault::Length),
    ((0, 31), ImageFault::Entry),
    ((4, b'f'), ImageFault::Mark),
    ((8, 2), ImageFault::Version),
    ((10, 2), ImageFault::Flags),
    ((12, 0), ImageFault::Budget),
    ((31, 1), ImageFault::Reserved),
];

#[test]
fn the_first_fault(rt: HostRuntime) {
    for i in 0..CHANGES.len() - 1 {
        let (change, fault) = CHANGES[i];
        assert!(rt; is_faulty(change, CHANGES[i + 1].0, fault), "row {i}");
    }
}

// The image with zeros after it, up to so many bytes, and this length field, refused so.
fn is_wrong_length(alloc: Global, count: usize, field: [u8; 2], fault: ImageFault) -> bool {
    let Ok(mut bytes) = Vec::from_elem(alloc, 0u8, count) else {
        return false;
    };
    let mut image = IMAGE;
    image[2..4].copy_from_slice(&field);
    for (byte, from) in bytes.iter_mut().zip(&image) {
        *byte = *from;
    }
    is_refused(bytes.as_slice(), fault)
}

#[test]
fn wrong_lengths(rt: HostRuntime) {
    let rows = [
        // One byte more than the longest, with its length field.
        (49_153, *b"\x01\xc0", ImageFault::Length),
        // A length field of 32 that is the number of bytes.
        (32, *b"\x20\x00", ImageFault::Length),
        // Too few bytes, whose length field is wrong too.
        (31, *b"\x20\x00", ImageFault::Short),
        (0, *b"\x20\x00", ImageFault::Short),
    ];
    for (i, (count, field, fault)) in rows.iter().enumerate() {
        assert!(rt;
            is_wrong_length(rt.alloc(), *count, *field, *fault),
            "row {i}"
        );
    }
}

#[test]
fn faults_have_numbers(rt: HostRuntime) {
    let rows = [
        (ImageFault::Short, 1),
        (ImageFault::Length, 2),
        (ImageFault::Entry, 3),
        (ImageFault::Mark, 4),
        (ImageFault::Version, 5),
        (ImageFault::Flags, 6),
        (ImageFault::Budget, 7),
        (ImageFault::Reserved, 8),
    ];
    for (i, (fault, number)) in rows.iter().enumerate() {
        assert!(rt; fault_number(*fault) == *number, "row {i}");
    }
}
