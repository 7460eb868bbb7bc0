// What devices write while a session runs. With no span taken its area begins at 0: the region ends at 65,536, the
// input page at 69,632, the output page at 73,728.
use crate::machine::{Row, first_wrong};

// The sum of the inputs, as in sessions.rt: 22 turns for three bytes.
const INPUTS: &[Row] = &[
    ("let n rep:00*20", "ok"),
    (
        "image p pal 32 100 x:31c085c90f840d0000000fb61601d046490f85f3ffffff8907bb0400000031c0cd80",
        "ok 66",
    ),
    // In turn 0 the inputs are not taken yet. A write that reaches into the region is blocked, and turn 23 never comes.
    ("arm 0 65536 x:05", "ok"),
    ("arm 0 65535 x:aabb", "ok"),
    ("arm 23 69632 x:01", "ok"),
    (
        "session p x:010203 n",
        "ok done turns 22 dma 1 1 1 x:0a000000",
    ),
    // The chain has the inputs 05 02 03, by python3's hashlib.
    ("read 17", "ok x:ceaa07e90b2e4015f5060df246a8ea3feacc07c9"),
    ("dma 65536 x:01", "no blocked"),
    // After a session no write is armed.
    (
        "session p x:010203 n",
        "ok done turns 22 dma 0 0 0 x:06000000",
    ),
    // From turn 1 on the input page is not read, and at the close the output page is written.
    ("arm 1 65536 x:ff", "ok"),
    ("arm 22 65536 x:ff", "ok"),
    ("arm 22 69632 x:ffffffff", "ok"),
    (
        "session p x:010203 n",
        "ok done turns 22 dma 3 0 0 x:06000000",
    ),
    ("read 17", "ok x:0028c7783e384136c51d5a1ea3810fcdbb4854c2"),
];

// A host's span at 0, the area from 65,536 on, and code of three turns, then of other ends.
const TURNS: &[Row] = &[
    ("let n rep:00*20", "ok"),
    ("image m pal 32 3 x:31db31c0cd80", "ok 38"),
    ("take 1", "ok 0"),
    ("arm 4 3 x:dd", "ok"),
    ("arm 3 2 x:cc", "ok"),
    ("arm 0 0 x:aa", "ok"),
    ("arm 4294967295 1 x:bb", "ok"),
    ("session m x: n", "ok done turns 3 dma 2 0 2 x:"),
    ("peek 0 4", "ok x:aa00cc00"),
    // Writes of one turn are done in the order of arming, and those of turns by turn.
    ("arm 2 0 x:0102", "ok"),
    ("arm 2 1 x:03", "ok"),
    ("arm 1 0 x:ffff", "ok"),
    ("session m x: n", "ok done turns 3 dma 3 0 0 x:"),
    ("peek 0 4", "ok x:0103cc00"),
    // A turn that faults is counted: by its instruction, by a fetch outside the region, and the last of a budget.
    ("image f pal 32 9 x:8905fdff0000", "ok 38"),
    ("arm 1 0 x:11", "ok"),
    ("arm 2 1 x:12", "ok"),
    ("session f x: n", "ok fault 2 turns 1 dma 1 0 1 x:"),
    ("image f pal 32 9 x:e9dbff0000", "ok 37"),
    ("arm 2 1 x:22", "ok"),
    ("arm 3 2 x:23", "ok"),
    ("session f x: n", "ok fault 2 turns 2 dma 1 0 1 x:"),
    ("image f pal 32 1 x:e9fbffffff", "ok 37"),
    ("arm 1 2 x:33", "ok"),
    ("arm 2 3 x:34", "ok"),
    ("session f x: n", "ok budget turns 1 dma 1 0 1 x:"),
    ("peek 0 4", "ok x:11223300"),
    // The image of a job takes no turn.
    ("image j job 32 1 x:90", "ok 33"),
    ("arm 0 3 x:44", "ok"),
    ("arm 1 3 x:45", "ok"),
    ("session j x: n", "ok refused 5 turns 0 dma 1 0 1 x:"),
    ("peek 0 4", "ok x:11223344"),
];

// Where a write is blocked: eight writes, and three that are done.
const PLACES: &[Row] = &[
    ("image m pal 32 3 x:31db31c0cd80", "ok 38"),
    // The region's first byte, its code, its last byte, and the last with the next.
    ("arm 0 0 x:00", "ok"),
    ("arm 1 32 x:cc", "ok"),
    ("arm 3 65535 x:00", "ok"),
    ("arm 2 65535 x:0000", "ok"),
    // The first and the last byte of the two pages, and the last with the next, which is of a free frame.
    ("arm 0 65536 x:00", "ok"),
    ("arm 1 73727 x:01", "ok"),
    ("arm 1 73728 x:01", "ok"),
    ("arm 1 73727 x:0101", "ok"),
    // The last byte of memory, which is free, the byte after it, and no bytes.
    ("arm 1 4194303 x:00", "ok"),
    ("arm 1 4194304 x:00", "ok"),
    ("arm 1 4294967295 x:", "ok"),
    ("session m x: rep:00*20", "ok done turns 3 dma 3 8 0 x:"),
    // Of the pages nothing is left.
    ("take 18", "ok 0"),
    ("peek 73727 1", "ok x:00"),
];

// A host's span that ends where the region begins, at 65,536.
const EDGES: &[Row] = &[
    ("image m pal 32 3 x:31db31c0cd80", "ok 38"),
    ("take 16", "ok 0"),
    ("arm 1 65535 x:aa", "ok"),
    ("arm 1 65535 x:bbcc", "ok"),
    ("arm 1 131071 x:00", "ok"),
    ("arm 1 131072 x:00", "ok"),
    ("session m x: rep:00*20", "ok done turns 3 dma 2 2 0 x:"),
    ("peek 65535 1", "ok x:aa"),
    ("take 1", "ok 65536"),
    ("peek 65536 1", "ok x:00"),
];

// A session that is refused leaves the writes armed.
const REFUSED: &[Row] = &[
    ("let n rep:00*20", "ok"),
    ("image m pal 32 3 x:31db31c0cd80", "ok 38"),
    ("take 1", "ok 0"),
    ("arm 1 0 x:aa", "ok"),
    ("session x: x: n", "no image 1"),
    ("session m x: x:", "no nonce"),
    ("session m rep:00*4097 n", "no input"),
    ("take 1023", "ok 4096"),
    ("session m x: n", "no place"),
    ("give 4096", "ok"),
    ("peek 0 1", "ok x:00"),
    ("session m x: n", "ok done turns 3 dma 1 0 0 x:"),
    ("peek 0 1", "ok x:aa"),
];

#[test]
fn devices(rt: HostRuntime) {
    let scenarios: [&[Row]; 5] = [INPUTS, TURNS, PLACES, EDGES, REFUSED];
    for (i, rows) in scenarios.iter().enumerate() {
        let row = first_wrong(rt.alloc(), rows);
        assert!(rt; row == rows.len(), "scenario {i}, row {row}");
    }
}
