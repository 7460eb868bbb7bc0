// What a power cycle leaves on the disk in memory.
use crate::steps::{Step, are_steps};
use flk_base::Fuse;
use job_store::SimDisk;
use std::alloc::Global;

// How many dirty places are kept, what fills the others, and the bytes from address 98 on then.
type Row<'a> = (u32, &'a [u8], &'a [u8; 16]);

// The expected bytes are those of a model in Python that keeps a byte for each address.
const ROWS: [Row<'static>; 12] = [
    (0, b"", b"\0\0abc\0\0\0gh\0\0\0\0\0\0"),
    (1, b"", b"\0\0abcX\0\0gh\0\0\0\0\0\0"),
    (4, b"", b"\0\0abcXYZgh\0\0\0\0p\0"),
    (5, b"", b"\0\0abcXYZgh\0\0\0\0pq"),
    (4_294_967_295, b"", b"\0\0abcXYZgh\0\0\0\0pq"),
    (0, b"\xff", b"\0\0abc\xff\xff\xffgh\0\0\0\0\xff\xff"),
    (1, b"\xff", b"\0\0abcX\xff\xffgh\0\0\0\0\xff\xff"),
    (5, b"\xff", b"\0\0abcXYZgh\0\0\0\0pq"),
    (0, b"12", b"\0\0abc121gh\0\0\0\x0021"),
    (1, b"12", b"\0\0abcX12gh\0\0\0\x0012"),
    (4, b"12", b"\0\0abcXYZgh\0\0\0\0p1"),
    (2, b"123456789", b"\0\0abcXY1gh\0\0\0\x0023"),
];

// Whether a cycle of a disk that was written, synced and written again leaves these bytes, and
// another one right after it changes nothing.
fn is_row<'x>(alloc: Global, keep: u32, fill: &'x [u8], bytes: &'x [u8; 16]) -> bool {
    let Ok(mut disk) = SimDisk::blank(alloc) else {
        return false;
    };
    let steps = [
        Step::Put(100, b"abcdefgh", true),
        Step::Sync(Ok(())),
        Step::Put(103, b"XYZ", true),
        Step::Put(112, b"pq", true),
        Step::Get(98, b"\0\0abcXYZgh\0\0\0\0pq"),
        Step::Cycle(keep, fill),
        Step::Get(98, bytes),
        Step::Cycle(1, b"zz"),
        Step::Get(98, bytes),
    ];
    let is_right = are_steps(&mut disk, &mut Fuse { left: None }, &steps, 0);
    disk.scrap();
    is_right
}

#[test]
fn cycles(rt: HostRuntime) {
    for (i, (keep, fill, bytes)) in ROWS.iter().enumerate() {
        assert!(rt; is_row(rt.alloc(), *keep, *fill, *bytes), "row {i}");
    }
}
