// Sessions of jobs, mode by mode, as a host runs them by hand. Blobs are by python3's hmac and hashlib, from the seed of the rows:
// a blob is b"FLK1", serial (8), counter (1), value (4), the value of register 17 after the launch, the length (2), the state
// xor hmac(hmac(seed, b"flk-mask"), serial (8) + block (4)), and hmac(hmac(seed, b"flk-seal"), all that).
use crate::machine::{LONG, Row, first_wrong};

// A job by hand: it is born, a step is taken, both blobs are tried before and after the step is committed.
const BY_HAND: &[Row] = &[
    ("seed rep:5a*20", "ok"),
    (
        "image j job 32 100 x:8b0500f8000040890500f800008907bb04000000ba0400000031c0cd80",
        "ok 61",
    ),
    ("let n rep:00*20", "ok"),
    (
        "session j x:000000 n o",
        "ok done turns 8 dma 0 0 0 x:003f464c4b31000000000000000000000000019c6a53a198954220c58c4f05e0887de0a028f8e100049af0224fa76c2c0e0a1e56c2a0b5c06d1359641653868b2b01000000",
    ),
    ("counter 0", "ok 1"),
    ("let b o[2..65]", "ok"),
    (
        "session j x:01003f+b n o",
        "ok done turns 8 dma 0 0 0 x:003f464c4b31000000000000000100000000029c6a53a198954220c58c4f05e0887de0a028f8e100048eb1c243b070b5cd18620ea00344786e44d5fa8a478e836202000000",
    ),
    ("counter 0", "ok 1"),
    ("let d o[2..65]", "ok"),
    ("session j x:03003f+b n", "ok done turns 0 dma 0 0 0 x:"),
    (
        "session j x:03003f+d n",
        "ok refused 6 turns 0 dma 0 0 0 x:",
    ),
    (
        "session j x:02003f+b n",
        "ok refused 6 turns 0 dma 0 0 0 x:",
    ),
    ("counter 0", "ok 1"),
    // What follows the blob is ignored, and a host opens neither.
    (
        "session j x:02003f+d+x:ffff n",
        "ok done turns 0 dma 0 0 0 x:",
    ),
    ("counter 0", "ok 2"),
    (
        "session j x:03003f+b n",
        "ok refused 6 turns 0 dma 0 0 0 x:",
    ),
    (
        "session j x:01003f+b n",
        "ok refused 6 turns 0 dma 0 0 0 x:",
    ),
    (
        "session j x:03003f+d+x:00 n",
        "ok done turns 0 dma 0 0 0 x:",
    ),
    (
        "session j x:02003f+d n",
        "ok refused 6 turns 0 dma 0 0 0 x:",
    ),
    ("counter 0", "ok 2"),
    ("counter 1", "no counter"),
    ("unseal d", "no chain"),
    // A step can be taken twice from one state; one of the two can be committed.
    (
        "session j x:01003f+d n o",
        "ok done turns 8 dma 0 0 0 x:003f464c4b31000000000000000200000000039c6a53a198954220c58c4f05e0887de0a028f8e1000463e8e50f1eef9c58ace2da9fcbca52ee3eb62bbf4c4873c503000000",
    ),
    (
        "session j x:01003f+d n p",
        "ok done turns 8 dma 0 0 0 x:003f464c4b31000000000000000300000000039c6a53a198954220c58c4f05e0887de0a028f8e1000447d03762d820a9bd02c8865453364ab9228e92dabf26681103000000",
    ),
    (
        "session j x:02003f+p[2..65] n",
        "ok done turns 0 dma 0 0 0 x:",
    ),
    (
        "session j x:02003f+o[2..65] n",
        "ok refused 6 turns 0 dma 0 0 0 x:",
    ),
    ("counter 0", "ok 3"),
];

// Sessions of a job that are refused. The blobs that no device made are by python3's hmac and hashlib, from the seed.
const REFUSED: &[Row] = &[
    (
        "image j job 32 100 x:8b0500f8000040890500f800008907bb04000000ba0400000031c0cd80",
        "ok 61",
    ),
    (
        "image k job 32 100 x:8b0500f8000040890500f800008907bb04000000ba0400000031c0cd8090",
        "ok 62",
    ),
    ("let n rep:00*20", "ok"),
    // What is no request.
    ("session j x: n", "ok refused 5 turns 0 dma 0 0 0 x:"),
    ("session j x:00 n", "ok refused 5 turns 0 dma 0 0 0 x:"),
    ("session j x:0000 n", "ok refused 5 turns 0 dma 0 0 0 x:"),
    ("session j x:04 n", "ok refused 5 turns 0 dma 0 0 0 x:"),
    ("session j x:040000 n", "ok refused 5 turns 0 dma 0 0 0 x:"),
    ("session j x:ff0000 n", "ok refused 5 turns 0 dma 0 0 0 x:"),
    (
        "session j x:0000010f n",
        "ok refused 5 turns 0 dma 0 0 0 x:",
    ),
    ("session j x:000001 n", "ok refused 5 turns 0 dma 0 0 0 x:"),
    ("session j x:010001 n", "ok refused 5 turns 0 dma 0 0 0 x:"),
    ("session j x:01003f n", "ok refused 5 turns 0 dma 0 0 0 x:"),
    ("session j x:030001 n", "ok refused 5 turns 0 dma 0 0 0 x:"),
    (
        "session j x:020002aa n",
        "ok refused 5 turns 0 dma 0 0 0 x:",
    ),
    // Without a seed: the counter of a job that is born is in use all the same.
    ("session j x:000000 n", "ok refused 9 turns 8 dma 0 0 0 x:"),
    ("counter 0", "ok 1"),
    ("session j x:010000 n", "ok refused 9 turns 0 dma 0 0 0 x:"),
    ("session j x:020000 n", "ok refused 9 turns 0 dma 0 0 0 x:"),
    ("session j x:030000 n", "ok refused 9 turns 0 dma 0 0 0 x:"),
    ("seed rep:5a*20", "ok"),
    // No blob, one that bears no counter, a value that the counter has not, a counter that is not in use.
    ("session j x:010000 n", "ok refused 6 turns 0 dma 0 0 0 x:"),
    ("session j x:020000 n", "ok refused 6 turns 0 dma 0 0 0 x:"),
    ("session j x:030000 n", "ok refused 6 turns 0 dma 0 0 0 x:"),
    (
        "let v x:464c4b310000000000000007ff000000009c6a53a198954220c58c4f05e0887de0a028f8e1000436238cc39222ce3083224d18b1a69ff02a6e32192af96ed2",
        "ok",
    ),
    (
        "session j x:01003f+v n",
        "ok refused 6 turns 0 dma 0 0 0 x:",
    ),
    (
        "session j x:02003f+v n",
        "ok refused 6 turns 0 dma 0 0 0 x:",
    ),
    (
        "session j x:03003f+v n",
        "ok refused 6 turns 0 dma 0 0 0 x:",
    ),
    (
        "let v x:464c4b31000000000000000700ffffffff9c6a53a198954220c58c4f05e0887de0a028f8e1000436238cc3c67c582926d44d074fe040e091e62195d8a853cc",
        "ok",
    ),
    (
        "session j x:01003f+v n",
        "ok refused 6 turns 0 dma 0 0 0 x:",
    ),
    (
        "session j x:02003f+v n",
        "ok refused 6 turns 0 dma 0 0 0 x:",
    ),
    (
        "session j x:03003f+v n",
        "ok refused 6 turns 0 dma 0 0 0 x:",
    ),
    (
        "let v x:464c4b31000000000000000709000000019c6a53a198954220c58c4f05e0887de0a028f8e1000436238cc39682458d356692a8e62b62ce313ae2102544b725",
        "ok",
    ),
    (
        "session j x:01003f+v n",
        "ok refused 6 turns 0 dma 0 0 0 x:",
    ),
    (
        "session j x:02003f+v n",
        "ok refused 6 turns 0 dma 0 0 0 x:",
    ),
    (
        "session j x:03003f+v n",
        "ok refused 6 turns 0 dma 0 0 0 x:",
    ),
    // A blob of another image.
    ("session k x:000000 n o", LONG),
    (
        "session k x:03003f+o[2..65] n",
        "ok done turns 0 dma 0 0 0 x:",
    ),
    (
        "session j x:03003f+o[2..65] n",
        "ok refused 6 turns 0 dma 0 0 0 x:",
    ),
    (
        "session j x:01003f+o[2..65] n",
        "ok refused 6 turns 0 dma 0 0 0 x:",
    ),
    // There are 16 counters.
    ("session j x:000000 n", LONG),
    ("session j x:000000 n", LONG),
    ("session j x:000000 n", LONG),
    ("session j x:000000 n", LONG),
    ("session j x:000000 n", LONG),
    ("session j x:000000 n", LONG),
    ("session j x:000000 n", LONG),
    ("session j x:000000 n", LONG),
    ("session j x:000000 n", LONG),
    ("session j x:000000 n", LONG),
    ("session j x:000000 n", LONG),
    ("session j x:000000 n", LONG),
    ("session j x:000000 n", LONG),
    ("session j x:000000 n", LONG),
    ("counter 15", "ok 16"),
    ("session j x:000000 n", "ok refused 7 turns 0 dma 0 0 0 x:"),
];

// mov ebx, [esi]; mov edx, [esi+4]; xor eax, eax; int 0x80: outputs and state of as many bytes as its inputs say.
const SIZES: &[Row] = &[
    ("seed rep:5a*20", "ok"),
    ("image z job 32 100 x:8b1e8b560431c0cd80", "ok 41"),
    ("let n rep:00*20", "ok"),
    (
        "session z x:0000000000000000000000 n o",
        "ok done turns 4 dma 0 0 0 x:003b464c4b31000000000000000000000000016bb6c40b399223e2593e2a6f34b5c127273a428c000090afdd6f0f8f0aa3cbd704fc923b3d2e30c973f4",
    ),
    ("let e o[2..61]", "ok"),
    ("session z x:01003b+e+x:0004000000080000 n o", LONG),
    ("show o[0..2]", "ok x:083b"),
    ("show o[3132..3133]", "ok x:00"),
    ("show o[3132..3134]", "no range"),
    (
        "session z x:03083b+o[2..2109] n",
        "ok refused 6 turns 0 dma 0 0 0 x:",
    ),
    (
        "session z x:02083b+o[2..2109] n",
        "ok done turns 0 dma 0 0 0 x:",
    ),
    (
        "session z x:03083b+o[2..2109] n",
        "ok done turns 0 dma 0 0 0 x:",
    ),
    ("session z x:01083b+o[2..2109]+x:0000000000080000 n p", LONG),
    ("show p[0..2109]+x:", LONG),
    ("show p[2108..2110]", "no range"),
    (
        "session z x:01083b+o[2..2109]+x:0104000000000000 n",
        "ok fault 2 turns 4 dma 0 0 0 x:",
    ),
    (
        "session z x:01083b+o[2..2109]+x:0000000001080000 n",
        "ok fault 2 turns 4 dma 0 0 0 x:",
    ),
    (
        "session z x:01083b+o[2..2109]+x:00000000ffffffff n",
        "ok fault 2 turns 4 dma 0 0 0 x:",
    ),
    ("session z x:0000000004000000080000 n o", LONG),
    ("show o[0..2]", "ok x:083b"),
    ("show o[3132..3134]", "no range"),
    (
        "session z x:0000000104000000080000 n",
        "ok fault 2 turns 4 dma 0 0 0 x:",
    ),
    (
        "session z x:0000000004000001080000 n",
        "ok fault 2 turns 4 dma 0 0 0 x:",
    ),
    ("counter 3", "ok 5"),
    ("counter 4", "no counter"),
];

// What the code of a job finds, and what it may do.
const SERVED: &[Row] = &[
    ("seed rep:5a*20", "ok"),
    ("let n rep:00*20", "ok"),
    // mov [edi], ecx; mov [edi+4], esi; mov [edi+8], edx, and five bytes of state: where its own inputs lie, and how much state it has.
    (
        "image g job 32 100 x:890f897704895708bb0c000000ba0500000031c0cd80",
        "ok 54",
    ),
    (
        "session g x:0000000102 n o",
        "ok done turns 7 dma 0 0 0 x:0040464c4b31000000000000000000000000012653e100a5ee1889a33e1d5244f0533fe3c4398e00059bf0224fb715ff3c1316f0f2e9f411f9ba76ed37fb59448adb0200000003e0000000000000",
    ),
    (
        "session g x:010040+o[2..66]+x:aabbcc n",
        "ok done turns 7 dma 0 0 0 x:0040464c4b31000000000000000100000000022653e100a5ee1889a33e1d5244f0533fe3c4398e00058cb1c243b55139246956705be2a9f355b36d402c7297f309000300000043e0000005000000",
    ),
    // mov eax, [esi]; int 0x80; mov [edi], eax: of the services a job may call the one that ends and the one that draws, and the others before anything is looked at.
    (
        "image f job 32 100 x:8b06cd808907bb04000000ba0000000031c0cd80",
        "ok 52",
    ),
    ("session f x:00000001000000 n o", LONG),
    ("show o[61..65]", "ok x:07000000"),
    ("session f x:00000002000000 n o", LONG),
    ("show o[61..65]", "ok x:07000000"),
    ("session f x:00000003000000 n o", LONG),
    ("show o[61..65]", "ok x:07000000"),
    ("session f x:00000004000000 n o", LONG),
    ("show o[61..65]", "ok x:07000000"),
    ("session f x:00000005000000 n o", LONG),
    ("show o[61..65]", "ok x:07000000"),
    ("session f x:00000006000000 n o", LONG),
    ("show o[61..65]", "ok x:07000000"),
    ("session f x:00000007000000 n o", LONG),
    ("show o[61..65]", "ok x:07000000"),
    ("session f x:00000008000000 n o", LONG),
    ("show o[61..65]", "ok x:00000000"),
    (
        "session f x:00000009000000 n",
        "ok fault 1 turns 2 dma 0 0 0 x:",
    ),
    ("random", "ok x:2d2b975a728353ae985a6661ef882fbacfac803a"),
    // A fault and a spent budget: nothing is sealed.
    ("image h job 32 100 x:f1", "ok 33"),
    ("session h x:000000 n", "ok fault 1 turns 1 dma 0 0 0 x:"),
    ("image l job 32 3 x:e9fbffffff", "ok 37"),
    ("session l x:000000 n", "ok budget turns 3 dma 0 0 0 x:"),
];

#[test]
fn jobs_by_hand(rt: HostRuntime) {
    let scenarios: [&[Row]; 4] = [BY_HAND, REFUSED, SIZES, SERVED];
    for (i, rows) in scenarios.iter().enumerate() {
        let row = first_wrong(rt.alloc(), rows);
        assert!(rt; row == rows.len(), "scenario {i}, row {row}");
    }
}
