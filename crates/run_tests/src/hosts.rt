// What the host has before, between and after sessions: its spans, its registers, and where an area finds place.
use crate::machine::{Row, first_wrong};

const SUM: Row = (
    "image p pal 32 100 x:31c085c90f840d0000000fb61601d046490f85f3ffffff8907bb0400000031c0cd80",
    "ok 66",
);

const SPANS: &[Row] = &[
    ("let n rep:00*20", "ok"),
    SUM,
    ("take 2", "ok 0"),
    ("poke 0 x:aa", "ok"),
    ("peek 8192 1", "no taken"),
    ("reg ebx 7", "ok"),
    (
        "session p x:010203 n",
        "ok done turns 22 dma 0 0 0 x:06000000",
    ),
    ("regs", "ok 0 0 0 7 0 0 0 0"),
    ("peek 0 1", "ok x:aa"),
    // The input page of the area, at 65,536, is at 131,072.
    ("arm 0 131072 x:05", "ok"),
    (
        "session p x:010203 n",
        "ok done turns 22 dma 1 0 0 x:0a000000",
    ),
    ("give 0", "ok"),
    ("take 1", "ok 0"),
    ("peek 0 1", "ok x:00"),
    ("give 4096", "no span"),
    ("give 65536", "no span"),
    ("give 0", "ok"),
    ("take 1024", "ok 0"),
    ("session p x:010203 n", "no place"),
    ("take 0", "no room"),
    // Image and inputs are looked at first.
    ("session x: rep:00*4097 n", "no image 1"),
    ("session p rep:00*4097 n", "no input"),
];

// Code that changes each register: mov r, n of all eight, then xor eax, eax; xor ebx, ebx; int 0x80.
const REGISTERS: &[Row] = &[
    ("reg eax 1", "ok"),
    ("reg ecx 2", "ok"),
    ("reg edx 3", "ok"),
    ("reg ebx 4", "ok"),
    ("reg esp 5", "ok"),
    ("reg ebp 6", "ok"),
    ("reg esi 7", "ok"),
    ("reg edi 4294967295", "ok"),
    ("let c x:b8ffffffffb9ffffffffbaffffffffbbffffffff", "ok"),
    ("let d x:bcffffffffbdffffffffbeffffffffbf00000000", "ok"),
    ("image m pal 32 11 c+d+x:31c031dbcd80", "ok 78"),
    ("session m x: rep:00*20", "ok done turns 11 dma 0 0 0 x:"),
    ("regs", "ok 1 2 3 4 5 6 7 4294967295"),
];

// An area has 18 frames, from a multiple of 16 on.
const AREAS: &[Row] = &[
    ("let n rep:00*20", "ok"),
    SUM,
    // Free from frame 990, 992, 993 and 1,007 on: 992 is 16 * 62, and from 1,008 on there are only 16.
    ("take 990", "ok 0"),
    ("session p x: n", "ok done turns 7 dma 0 0 0 x:00000000"),
    ("give 0", "ok"),
    ("take 992", "ok 0"),
    ("session p x: n", "ok done turns 7 dma 0 0 0 x:00000000"),
    ("give 0", "ok"),
    ("take 993", "ok 0"),
    ("session p x: n", "no place"),
    ("give 0", "ok"),
    ("take 1007", "ok 0"),
    ("session p x: n", "no place"),
    ("give 0", "ok"),
    // Frame 16 alone: the area begins at frame 32, and its input page is at 196,608.
    ("take 16", "ok 0"),
    ("take 1", "ok 65536"),
    ("give 0", "ok"),
    ("arm 0 196608 x:05", "ok"),
    ("arm 0 65536 x:77", "ok"),
    (
        "session p x:010203 n",
        "ok done turns 22 dma 2 0 0 x:0a000000",
    ),
    ("peek 65536 1", "ok x:77"),
    // Frame 18 alone: the area has the frames before it.
    ("give 65536", "ok"),
    ("take 18", "ok 0"),
    ("take 1", "ok 73728"),
    ("give 0", "ok"),
    ("arm 0 65536 x:05", "ok"),
    (
        "session p x:010203 n",
        "ok done turns 22 dma 1 0 0 x:0a000000",
    ),
];

// Two images: mov dword [50000], 0x11111111 and the end; and mov ecx, [50000], which is put out.
const ERASURES: &[Row] = &[
    ("let n rep:00*20", "ok"),
    ("image w pal 32 9 x:c70550c300001111111131dbcd80", "ok 46"),
    (
        "image r pal 32 9 x:8b0d50c30000890fbb0400000031c0cd80",
        "ok 49",
    ),
    ("session w rep:22*4096 n", "ok done turns 3 dma 0 0 0 x:"),
    // The area is free, and zero.
    ("take 18", "ok 0"),
    ("peek 50000 4", "ok x:00000000"),
    ("peek 57344 4", "ok x:00000000"),
    ("peek 69628 8", "ok x:0000000000000000"),
    ("give 0", "ok"),
    // The next session finds nothing of it, whether a span of the host stands between or not.
    ("session r x: n", "ok done turns 5 dma 0 0 0 x:00000000"),
    ("session w x: n", "ok done turns 3 dma 0 0 0 x:"),
    ("take 1", "ok 0"),
    ("poke 0 x:5a", "ok"),
    ("session r x: n", "ok done turns 5 dma 0 0 0 x:00000000"),
    ("session w x: n", "ok done turns 3 dma 0 0 0 x:"),
    ("session r x: n", "ok done turns 5 dma 0 0 0 x:00000000"),
    ("peek 0 1", "ok x:5a"),
];

#[test]
fn hosts(rt: HostRuntime) {
    let scenarios: [&[Row]; 4] = [SPANS, REGISTERS, AREAS, ERASURES];
    for (i, rows) in scenarios.iter().enumerate() {
        let row = first_wrong(rt.alloc(), rows);
        assert!(rt; row == rows.len(), "scenario {i}, row {row}");
    }
}
