// What sessions and hosts seal and open. The blobs are by python3's hmac and hashlib, from the seed of the rows.
use crate::machine::{Row, first_wrong};

// movzx eax, byte [esi]; movzx ebp, byte [esi+1]; add esi, 2; sub ecx, 2; mov ebx, esi; test eax, eax; je next;
// int 0x80; next: mov edx, -1; mov eax, ebp; int 0x80; test eax, eax; je end; mov [edi], eax; mov ecx, 4; end: mov
// ebx, ecx; xor eax, eax; int 0x80. So where the first input byte is 1 it extends register 17 by the rest, and then it
// calls the service of the second byte on the rest, and puts out what that gives, or the number of its refusal.
const SECRETS: &[Row] = &[
    ("let n rep:00*20", "ok"),
    (
        "let c x:0fb6060fb66e0183c60283e90289f385c00f8402000000cd80baffffffff89e8cd8085c00f84070000008907b90400000089cb31c0cd80",
        "ok",
    ),
    ("image s pal 32 100 c", "ok 87"),
    // Without a seed nothing is sealed or opened, and nothing is compared.
    (
        "session s x:0003616263 n",
        "ok done turns 17 dma 0 0 0 x:06000000",
    ),
    (
        "session s x:0004616263 n",
        "ok done turns 17 dma 0 0 0 x:06000000",
    ),
    ("unseal x:", "no seed"),
    ("seed rep:5a*20", "ok"),
    ("seed x:", "no seeded"),
    (
        "session s x:0003616263 n b",
        "ok done turns 15 dma 0 0 0 x:464c4b310000000000000000ff00000000305ec65c6d954603bddd0ed401de5e84eeeb32600003fa92410d2baa398d4e55be76cb13f3c55192458489ce19",
    ),
    (
        "session s x:0004+b n",
        "ok done turns 15 dma 0 0 0 x:616263",
    ),
    (
        "session s x:0004+b~61 n",
        "ok done turns 17 dma 0 0 0 x:01000000",
    ),
    ("unseal b", "no chain"),
    ("unseal b~61", "no blob"),
    ("unseal b[0..61]", "no blob"),
    ("unseal b+x:00", "no blob"),
    ("unseal x:", "no blob"),
    (
        "session s x:0004+b[0..58] n",
        "ok done turns 17 dma 0 0 0 x:01000000",
    ),
    // The chain is another once the code has extended it, and so it is in another image.
    (
        "session s x:0104+b n",
        "ok done turns 18 dma 0 0 0 x:02000000",
    ),
    ("image t pal 32 100 c+x:90", "ok 88"),
    (
        "session t x:0004+b n",
        "ok done turns 17 dma 0 0 0 x:02000000",
    ),
    // The next record has the next serial; a refused one takes none.
    (
        "session s x:0003+rep:00*2049 n",
        "ok done turns 17 dma 0 0 0 x:01000000",
    ),
    (
        "session s x:0003616263 n d",
        "ok done turns 15 dma 0 0 0 x:464c4b310000000000000001ff00000000305ec65c6d954603bddd0ed401de5e84eeeb32600003edd3a197ebe7f7add9c7a32a87ba089252ca6bf20c5be7",
    ),
    (
        "session s x:0004+d n",
        "ok done turns 15 dma 0 0 0 x:616263",
    ),
    (
        "session s x:0004+b n",
        "ok done turns 15 dma 0 0 0 x:616263",
    ),
];

// Who knows the seed makes blobs of any value of register 17: a host can open those of power-on's.
const FORGED: &[Row] = &[
    ("seed rep:5a*20", "ok"),
    (
        "unseal x:464c4b310000000000000000ff00000000ffffffffffffffffffffffffffffffffffffffff0006e895413dd28583ed92512e11d13721552e190de9c07d97b67ade v",
        "ok x:736563726574",
    ),
    ("show v", "ok x:736563726574"),
    (
        "unseal x:464c4b310000000000000007ff00000009ffffffffffffffffffffffffffffffffffffffff0000dd5767ace019b0e94bc5b38b463219f2655c02ef v",
        "ok x:",
    ),
    ("show v", "ok x:"),
    (
        "unseal x:464c4b3100000000000000000000000001ffffffffffffffffffffffffffffffffffffffff0006e895413dd28522558879065e6812396f95d374090051533e7582 v",
        "no counter",
    ),
    (
        "unseal x:464c4b310000000000000000fe00000000ffffffffffffffffffffffffffffffffffffffff0006e895413dd285694ddb42e3f9802b3e5ddda5d3b2ac0972448787",
        "no counter",
    ),
    (
        "unseal x:464c4b310000000000000000000000000100000000000000000000000000000000000000000006e895413dd285d6eb04d1a19d092cd9669d9815ae4697baac432f",
        "no chain",
    ),
    (
        "unseal x:464c4b310000000000000000000000000100000000000000000000000000000000000000000006e895413dd285d6eb04d1a19d092cd9669d9815ae4697baac432f~12",
        "no blob",
    ),
    ("show v", "ok x:"),
];

// eax, ebx, ecx, edx and edi by the inputs; int 0x80; mov [61440], eax; mov [61444], ecx; mov ebx, 8; xor eax, eax;
// int 0x80: one call of a service, and eax and ecx after it. Checks come in this order: the span at ebx, the length, the
// counter that edx asks for, the span at edi, the device.
const SPANS: &[Row] = &[
    ("let n rep:00*20", "ok"),
    ("seed rep:5a*20", "ok"),
    (
        "image g pal 32 100 x:8b068b5e048b4e088b560c8b7e10cd80890500f00000890d04f00000bb0800000031c0cd80",
        "ok 69",
    ),
    (
        "session g x:0300000000e0000000000000ffffffff08f00000 n",
        "ok done turns 11 dma 0 0 0 x:000000003b000000",
    ),
    (
        "session g x:0300000000e0000000000000ffffffffc5ff0000 n",
        "ok done turns 11 dma 0 0 0 x:000000003b000000",
    ),
    (
        "session g x:0300000000e0000000000000ffffffffc6ff0000 n",
        "ok fault 2 turns 6 dma 0 0 0 x:",
    ),
    (
        "session g x:030000000000010000000000ffffffff08f00000 n",
        "ok done turns 11 dma 0 0 0 x:000000003b000000",
    ),
    (
        "session g x:03000000ffff000002000000ffffffff08f00000 n",
        "ok fault 2 turns 6 dma 0 0 0 x:",
    ),
    (
        "session g x:030000000000000000080000ffffffff08f00000 n",
        "ok done turns 11 dma 0 0 0 x:000000003b080000",
    ),
    (
        "session g x:0300000000000000010800000002000070110100 n",
        "ok done turns 11 dma 0 0 0 x:0100000001080000",
    ),
    (
        "session g x:0300000000000000010000000002000070110100 n",
        "ok done turns 11 dma 0 0 0 x:0200000001000000",
    ),
    (
        "session g x:030000000000000001000000feffffff70110100 n",
        "ok done turns 11 dma 0 0 0 x:0200000001000000",
    ),
    (
        "session g x:030000000000000001000000ff01000070110100 n",
        "ok fault 2 turns 6 dma 0 0 0 x:",
    ),
    (
        "session g x:030000000000000001000000ff01000008f00000 n",
        "ok done turns 11 dma 0 0 0 x:0200000001000000",
    ),
    (
        "session g x:030000000000000001000000ff00000008f00000 n",
        "ok done turns 11 dma 0 0 0 x:0200000001000000",
    ),
    (
        "session g x:0300000000000000010000000000000008f00000 n",
        "ok done turns 11 dma 0 0 0 x:0200000001000000",
    ),
    (
        "session g x:0400000000000000011000000000000070110100 n",
        "ok done turns 11 dma 0 0 0 x:0100000001100000",
    ),
    (
        "session g x:0400000000000000001000000000000070110100 n",
        "ok done turns 11 dma 0 0 0 x:0100000000100000",
    ),
    (
        "session g x:04000000ffff0000020000000000000008f00000 n",
        "ok fault 2 turns 6 dma 0 0 0 x:",
    ),
    // The span of a random word is looked at before the device; there is no service 9.
    (
        "session g x:08000000000000000000000000000000ecff0000 n",
        "ok done turns 11 dma 0 0 0 x:0000000000000000",
    ),
    (
        "session g x:08000000000000000000000000000000edff0000 n",
        "ok fault 2 turns 6 dma 0 0 0 x:",
    ),
    (
        "session g x:0900000000000000000000000000000008f00000 n",
        "ok fault 1 turns 6 dma 0 0 0 x:",
    ),
];

#[test]
fn sealing(rt: HostRuntime) {
    let scenarios: [&[Row]; 3] = [SECRETS, FORGED, SPANS];
    for (i, rows) in scenarios.iter().enumerate() {
        let row = first_wrong(rt.alloc(), rows);
        assert!(rt; row == rows.len(), "scenario {i}, row {row}");
    }
}
