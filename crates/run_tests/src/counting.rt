// Counters, blobs that bear them, and random words, as sessions and hosts have them. The random words and the blob that
// no device made are by python3's hmac and hashlib, from the seed of the rows.
use crate::machine::{Row, first_wrong};

// mov eax, 5; int 0x80; mov eax, 7; int 0x80; mov [edi], ecx; mov ebx, 4; xor eax, eax; int 0x80: it creates a counter,
// increments it, and puts out its value. Another counter starts one above the largest value so far.
const CREATED: &[Row] = &[
    (
        "image k pal 32 100 x:b805000000cd80b807000000cd80890fbb0400000031c0cd80",
        "ok 57",
    ),
    (
        "session k x: rep:00*20",
        "ok done turns 8 dma 0 0 0 x:02000000",
    ),
    ("counter 0", "ok 2"),
    (
        "session k x: rep:00*20",
        "ok done turns 8 dma 0 0 0 x:04000000",
    ),
    ("counter 1", "ok 4"),
    ("counter 0", "ok 2"),
    ("counter 2", "no counter"),
    ("counter 255", "no counter"),
    ("counter 256", "no counter"),
    ("counter 4294967295", "no counter"),
];

// The code of examples/tally.asm: service, four bytes, and the rest of the inputs. By service 3 it seals, by 4 it opens,
// by 5 it creates a counter, by 6 it reads one, by 7 it increments one.
const TALLY: &str =
    "image tally pal 32 100 x:0fb62e8b56018d5e0583e90583fd050f820200000089d389e8cd8085c00f840c0000008907b904000000e91300000083fd050f820a000000891f894f04b90800000089cb31c0cd80";

const OTHER: &str =
    "image other pal 32 100 x:0fb62e8b56018d5e0583e90583fd050f820200000089d389e8cd8085c00f840c0000008907b904000000e91300000083fd050f820a000000891f894f04b90800000089cb31c0cd8090";

// A blob opens where its counter has its value, and never before or after.
const BORNE: &[Row] = &[
    (TALLY, "ok 104"),
    (OTHER, "ok 105"),
    ("let n rep:00*20", "ok"),
    // Counters need no seed.
    (
        "session tally x:0500000000 n",
        "ok done turns 19 dma 0 0 0 x:0000000000000000",
    ),
    (
        "session tally x:030000000061 n",
        "ok done turns 16 dma 0 0 0 x:06000000",
    ),
    ("seed rep:5a*20", "ok"),
    (
        "session tally x:030000000061 n b",
        "ok done turns 15 dma 0 0 0 x:464c4b31000000000000000000000000018f05c5872820ec88dbb39954c2cd6d6cb61d31fd0001fa66cfd7424a4959a6417cc75133565a149ce017b6",
    ),
    ("show b[0..17]", "ok x:464c4b3100000000000000000000000001"),
    (
        "session tally x:0400000000+b n",
        "ok done turns 15 dma 0 0 0 x:61",
    ),
    // Ahead: for the next value.
    (
        "session tally x:030001000062 n a",
        "ok done turns 15 dma 0 0 0 x:464c4b31000000000000000100000000028f05c5872820ec88dbb39954c2cd6d6cb61d31fd0001ee318bb8820bd04a6bf5da37a1cbbbf6097b9eafae",
    ),
    ("show a[0..17]", "ok x:464c4b3100000000000000010000000002"),
    (
        "session tally x:0400000000+a n",
        "ok done turns 16 dma 0 0 0 x:03000000",
    ),
    // Another image neither opens the blob nor increments the counter; it reads it.
    (
        "session other x:0400000000+b n",
        "ok done turns 16 dma 0 0 0 x:02000000",
    ),
    (
        "session other x:0700000000 n",
        "ok done turns 17 dma 0 0 0 x:04000000",
    ),
    (
        "session other x:0600000000 n",
        "ok done turns 19 dma 0 0 0 x:0000000001000000",
    ),
    // Where there is no counter, that is told first.
    (
        "session other x:0701000000 n",
        "ok done turns 17 dma 0 0 0 x:03000000",
    ),
    (
        "session tally x:0700000000 n",
        "ok done turns 19 dma 0 0 0 x:0000000002000000",
    ),
    (
        "session tally x:0400000000+b n",
        "ok done turns 16 dma 0 0 0 x:03000000",
    ),
    (
        "session tally x:0400000000+a n",
        "ok done turns 15 dma 0 0 0 x:62",
    ),
    (
        "session tally x:0700000000 n",
        "ok done turns 19 dma 0 0 0 x:0000000003000000",
    ),
    (
        "session tally x:0400000000+a n",
        "ok done turns 16 dma 0 0 0 x:03000000",
    ),
    // A host stands in another chain.
    ("unseal a", "no chain"),
    ("counter 0", "ok 3"),
    // Who knows the seed makes blobs by any counter: one that is in use has to have the value, and the others have none.
    (
        "session tally x:0400000000464c4b31000000000000000900000000038f05c5872820ec88dbb39954c2cd6d6cb61d31fd0001c1600e0c608d7c3dba6c1e2e87c4e44a59da42d04f n",
        "ok done turns 15 dma 0 0 0 x:63",
    ),
    (
        "session tally x:0400000000464c4b31000000000000000900000000048f05c5872820ec88dbb39954c2cd6d6cb61d31fd0001c100043b2a94768e96095a3886b741f88a45e93cad n",
        "ok done turns 16 dma 0 0 0 x:03000000",
    ),
    (
        "session tally x:0400000000464c4b31000000000000000901000000038f05c5872820ec88dbb39954c2cd6d6cb61d31fd0001c131accafc59b5908302b1339665d3a0e3586d836e n",
        "ok done turns 16 dma 0 0 0 x:03000000",
    ),
    (
        "session tally x:0400000000464c4b310000000000000009fe000000008f05c5872820ec88dbb39954c2cd6d6cb61d31fd0001c1cc1de420bd019013b446f03aa9463a31a44dfa0a n",
        "ok done turns 16 dma 0 0 0 x:03000000",
    ),
];

// There are 16 counters.
const FULL: &[Row] = &[
    (TALLY, "ok 104"),
    ("let n rep:00*20", "ok"),
    (
        "session tally x:0500000000 n",
        "ok done turns 19 dma 0 0 0 x:0000000000000000",
    ),
    (
        "session tally x:0500000000 n",
        "ok done turns 19 dma 0 0 0 x:0100000000000000",
    ),
    (
        "session tally x:0500000000 n",
        "ok done turns 19 dma 0 0 0 x:0200000000000000",
    ),
    (
        "session tally x:0500000000 n",
        "ok done turns 19 dma 0 0 0 x:0300000000000000",
    ),
    (
        "session tally x:0500000000 n",
        "ok done turns 19 dma 0 0 0 x:0400000000000000",
    ),
    (
        "session tally x:0500000000 n",
        "ok done turns 19 dma 0 0 0 x:0500000000000000",
    ),
    (
        "session tally x:0500000000 n",
        "ok done turns 19 dma 0 0 0 x:0600000000000000",
    ),
    (
        "session tally x:0500000000 n",
        "ok done turns 19 dma 0 0 0 x:0700000000000000",
    ),
    (
        "session tally x:0500000000 n",
        "ok done turns 19 dma 0 0 0 x:0800000000000000",
    ),
    (
        "session tally x:0500000000 n",
        "ok done turns 19 dma 0 0 0 x:0900000000000000",
    ),
    (
        "session tally x:0500000000 n",
        "ok done turns 19 dma 0 0 0 x:0a00000000000000",
    ),
    (
        "session tally x:0500000000 n",
        "ok done turns 19 dma 0 0 0 x:0b00000000000000",
    ),
    (
        "session tally x:0500000000 n",
        "ok done turns 19 dma 0 0 0 x:0c00000000000000",
    ),
    (
        "session tally x:0500000000 n",
        "ok done turns 19 dma 0 0 0 x:0d00000000000000",
    ),
    (
        "session tally x:0500000000 n",
        "ok done turns 19 dma 0 0 0 x:0e00000000000000",
    ),
    (
        "session tally x:0500000000 n",
        "ok done turns 19 dma 0 0 0 x:0f00000000000000",
    ),
    (
        "session tally x:0500000000 n",
        "ok done turns 17 dma 0 0 0 x:01000000",
    ),
    ("counter 15", "ok 16"),
    ("counter 16", "no counter"),
];

// Each random word is drawn once, by whom it may be.
const WORDS: &[Row] = &[
    (
        "image s pal 32 100 x:0fb6060fb66e0183c60283e90289f385c00f8402000000cd80baffffffff89e8cd8085c00f84070000008907b90400000089cb31c0cd80",
        "ok 87",
    ),
    ("let n rep:00*20", "ok"),
    ("random", "no seed"),
    (
        "session s x:0008+rep:00*20 n",
        "ok done turns 17 dma 0 0 0 x:06000000",
    ),
    // The input's bytes lie at an address that no counter has.
    (
        "session s x:0007 n",
        "ok done turns 17 dma 0 0 0 x:03000000",
    ),
    ("seed rep:5a*20", "ok"),
    (
        "session s x:0008+rep:00*20 n",
        "ok done turns 15 dma 0 0 0 x:7570ac257da66c218041cd19110f626ef6756089",
    ),
    ("random", "ok x:2d2b975a728353ae985a6661ef882fbacfac803a"),
    ("random w", "ok x:3d7f09b92b1024a1da6d755f06ef6c08646c5478"),
    ("show w[0..4]", "ok x:3d7f09b9"),
    (
        "session s x:0008+rep:00*20 n",
        "ok done turns 15 dma 0 0 0 x:28658ceaa69dd33338f6853ebda67bd200153432",
    ),
];

#[test]
fn counting(rt: HostRuntime) {
    let scenarios: [&[Row]; 4] = [CREATED, BORNE, FULL, WORDS];
    for (i, rows) in scenarios.iter().enumerate() {
        let row = first_wrong(rt.alloc(), rows);
        assert!(rt; row == rows.len(), "scenario {i}, row {row}");
    }
}
