// What sessions answer, and what register 17 shows after them. Its values are by python3's hashlib: each text of the
// chain extends it, from 20 bytes 00 on.
use crate::machine::{LONG, Row, first_wrong};

// xor ebx, ebx; xor eax, eax; int 0x80.
const IMAGES: &[Row] = &[
    ("image m pal 32 3 x:31db31c0cd80", "ok 38"),
    (
        "show m",
        "ok x:20002600464c4b4301000000030000000000000000000000000000000000000031db31c0cd80",
    ),
    ("session m x: rep:00*20", "ok done turns 3 dma 0 0 0 x:"),
    ("read 17", "ok x:3e5759062c979a2591347f9e8670af85a30a8748"),
    // The entry is behind two bytes that are no instruction.
    ("image e pal 34 3 x:f4f431db31c0cd80", "ok 40"),
    ("session e x: rep:00*20", "ok done turns 3 dma 0 0 0 x:"),
    ("image e pal 33 3 x:f4f431db31c0cd80", "ok 40"),
    ("session e x: rep:00*20", "ok fault 1 turns 1 dma 0 0 0 x:"),
];

// xor eax, eax; test ecx, ecx; je end; next: movzx edx, byte [esi]; add eax, edx; inc esi; dec ecx; jne next;
// end: mov [edi], eax; mov ebx, 4; xor eax, eax; int 0x80. So 5 turns a byte, and 7.
const SUMS: &[Row] = &[
    ("let n rep:00*20", "ok"),
    (
        "let c x:31c085c90f840d0000000fb61601d046490f85f3ffffff8907bb0400000031c0cd80",
        "ok",
    ),
    ("image p pal 32 100 c", "ok 66"),
    (
        "session p x:010203 n",
        "ok done turns 22 dma 0 0 0 x:06000000",
    ),
    ("read 17", "ok x:0028c7783e384136c51d5a1ea3810fcdbb4854c2"),
    (
        "session p x:010203 rep:07*20",
        "ok done turns 22 dma 0 0 0 x:06000000",
    ),
    ("read 17", "ok x:41989ef2aad910affe4c11a43a393592aef598aa"),
    // The launch resets the register, and the session extends no other.
    ("extend 17 x:00", "ok"),
    (
        "session p x:010203 n total",
        "ok done turns 22 dma 0 0 0 x:06000000",
    ),
    ("read 17", "ok x:0028c7783e384136c51d5a1ea3810fcdbb4854c2"),
    ("read 0", "ok x:0000000000000000000000000000000000000000"),
    ("read 16", "ok x:0000000000000000000000000000000000000000"),
    ("read 18", "ok x:ffffffffffffffffffffffffffffffffffffffff"),
    // The name has the outputs, and keeps them where there is no session.
    ("show total+x:ff", "ok x:06000000ff"),
    ("session total total n total", "no image 1"),
    (
        "session p total n total",
        "ok done turns 27 dma 0 0 0 x:06000000",
    ),
    (
        "session p x:ff n total",
        "ok done turns 12 dma 0 0 0 x:ff000000",
    ),
    ("show total", "ok x:ff000000"),
    ("session p x: n", "ok done turns 7 dma 0 0 0 x:00000000"),
    // The longest inputs: 5 * 4,096 + 7 turns, and 255 * 4,096 is 0xff000.
    ("image q pal 32 20487 c", "ok 66"),
    (
        "session q rep:ff*4096 n",
        "ok done turns 20487 dma 0 0 0 x:00f00f00",
    ),
    ("session q rep:ff*4097 n", "no input"),
    ("image q pal 32 20486 c", "ok 66"),
    (
        "session q rep:ff*4096 n",
        "ok budget turns 20486 dma 0 0 0 x:",
    ),
];

// Each end that is a fault, and the last turn of a budget.
const ENDS: &[Row] = &[
    ("let n rep:00*20", "ok"),
    // mov [65533], eax.
    ("image f pal 32 9 x:8905fdff0000", "ok 38"),
    ("session f x: n", "ok fault 2 turns 1 dma 0 0 0 x:"),
    ("read 17", "ok x:0dfd1ca1693e7785294daa26fe8ac24462fe7b0e"),
    // jmp to itself.
    ("image l pal 32 1 x:e9fbffffff", "ok 37"),
    ("session l x: n", "ok budget turns 1 dma 0 0 0 x:"),
    ("read 17", "ok x:b777742a257850ed9f60f5bcde619a072a337712"),
    ("image l pal 32 1000000 x:e9fbffffff", "ok 37"),
    ("session l x: n", "ok budget turns 1000000 dma 0 0 0 x:"),
    // div ecx, which is 0; then 2^32 divided by 1.
    ("image d pal 32 100 x:f7f1", "ok 34"),
    ("session d x: n", "ok fault 3 turns 1 dma 0 0 0 x:"),
    ("read 17", "ok x:1dc41b974e56ccdff7fda4fa4e04e14932b3f291"),
    ("image d pal 32 100 x:ba01000000b901000000f7f1", "ok 44"),
    ("session d x: n", "ok fault 3 turns 3 dma 0 0 0 x:"),
    // hlt, which is none of the profile's instructions.
    ("image h pal 32 1 x:f4", "ok 33"),
    ("session h x: n", "ok fault 1 turns 1 dma 0 0 0 x:"),
    ("read 17", "ok x:157dad6a651e9dea11caad5e95a78ad07566cbde"),
    // int 0x21; then services 9 and 2^32 - 1 of int 0x80.
    ("image g pal 32 9 x:cd21", "ok 34"),
    ("session g x: n", "ok fault 1 turns 1 dma 0 0 0 x:"),
    ("image g pal 32 9 x:b809000000cd80", "ok 39"),
    ("session g x: n", "ok fault 1 turns 2 dma 0 0 0 x:"),
    ("image g pal 32 9 x:b8ffffffffcd80", "ok 39"),
    ("session g x: n", "ok fault 1 turns 2 dma 0 0 0 x:"),
    // The end is the last turn, and then it would be the one after the last.
    ("image m pal 32 3 x:31db31c0cd80", "ok 38"),
    ("session m x: n", "ok done turns 3 dma 0 0 0 x:"),
    ("image m pal 32 2 x:31db31c0cd80", "ok 38"),
    ("session m x: n", "ok budget turns 2 dma 0 0 0 x:"),
    ("read 17", "ok x:3d6463cee3e3b473d6f148797668620e58332665"),
    // The outputs have at most 4,096 bytes: mov ebx, 4096, then 4097, then 2^32 - 1; int 0x80.
    ("image o pal 32 9 x:bb00100000cd80", "ok 39"),
    ("session o x: n v", LONG),
    ("show v[4095..4096]", "ok x:00"),
    ("show v[4096..4097]", "no range"),
    ("read 17", "ok x:2617b1c31dc4b5b590ff02a3711adbf5c34b6fe7"),
    ("image o pal 32 9 x:bb01100000cd80", "ok 39"),
    ("session o x: n", "ok fault 2 turns 2 dma 0 0 0 x:"),
    ("image o pal 32 9 x:bbffffffffcd80", "ok 39"),
    ("session o x: n", "ok fault 2 turns 2 dma 0 0 0 x:"),
    // The image of a job, without inputs.
    ("image j job 32 1 x:90", "ok 33"),
    ("session j x: n", "ok refused 5 turns 0 dma 0 0 0 x:"),
    ("read 17", "ok x:0ac474c0bbdb8f1ce88f7000d08cbf185329d9e4"),
];

// Why there is no session, in the order of the checks.
const REFUSALS: &[Row] = &[
    ("let n rep:00*20", "ok"),
    ("image m pal 32 3 x:31db31c0cd80", "ok 38"),
    ("session m x: zz", "no name"),
    ("session m zz rep:00*19", "no name"),
    ("session m x: rep:00*19", "no nonce"),
    ("session m x: rep:00*21", "no nonce"),
    ("session x: x: x:", "no nonce"),
    ("session x: rep:00*4097 n", "no image 1"),
    ("session m+x:00 rep:00*4097 n", "no image 2"),
    ("session m[0..37] x: n", "no image 2"),
    ("session x:1f00+m[2..38] x: n", "no image 3"),
    ("session x:2600+m[2..38] x: n", "no image 3"),
    ("session m~4 x: n", "no image 4"),
    ("session m~8 x: n", "no image 5"),
    ("session m[0..10]+x:0200+m[12..38] x: n", "no image 6"),
    ("session m[0..12]+x:00000000+m[16..38] x: n", "no image 7"),
    ("session m~31 x: n", "no image 8"),
    ("session m rep:00*4097 n", "no input"),
    // Until then nothing was launched.
    ("read 17", "ok x:ffffffffffffffffffffffffffffffffffffffff"),
    ("session m rep:00*4096 n", "ok done turns 3 dma 0 0 0 x:"),
];

// What the code finds: its registers, all stored to the outputs, and its flags, on which jb, je, js and jo go to hlt.
const BEGINNINGS: &[Row] = &[
    (
        "image r pal 32 11 x:8907894f04895708895f0c896710896f14897718897f1cbb2000000031c0cd80",
        "ok 64",
    ),
    (
        "session r x:010203 rep:00*20",
        "ok done turns 11 dma 0 0 0 x:0000000003000000000000000000000000e000000000000000e0000000f00000",
    ),
    ("image f pal 32 7 x:720c740a7808700631db31c0cd80f4", "ok 47"),
    ("session f x: rep:00*20", "ok done turns 7 dma 0 0 0 x:"),
];

#[test]
fn sessions(rt: HostRuntime) {
    let scenarios: [&[Row]; 5] = [IMAGES, SUMS, ENDS, REFUSALS, BEGINNINGS];
    for (i, rows) in scenarios.iter().enumerate() {
        let row = first_wrong(rt.alloc(), rows);
        assert!(rt; row == rows.len(), "scenario {i}, row {row}");
    }
}
