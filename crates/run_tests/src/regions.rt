// What code does in its region: to itself, at the region's ends, and by the spans that it hands to gates. Values of
// register 17 are by python3's hashlib.
use crate::machine::{Row, first_wrong};

// The code writes over what the session began with.
const OVERWRITES: &[Row] = &[
    ("let n rep:00*20", "ok"),
    // mov dword [8], -1; mov dword [12], 1; xor ebx, ebx; xor eax, eax; int 0x80: version, flags and budget of its own
    // front. The budget stays, and so does the image of the chain.
    (
        "let f x:c70508000000ffffffffc7050c0000000100000031db31c0cd80",
        "ok",
    ),
    ("image f5 pal 32 5 f", "ok 58"),
    ("session f5 x: n", "ok done turns 5 dma 0 0 0 x:"),
    ("read 17", "ok x:d152e467df013aad779502a438d6f0a755c6d254"),
    ("image f4 pal 32 4 f", "ok 58"),
    ("session f4 x: n", "ok budget turns 4 dma 0 0 0 x:"),
    // mov dword [42], 0xc031db31: the two xor, in place of hlt four times; then int 0x80.
    (
        "image s pal 32 4 x:c7052a00000031db31c0f4f4f4f4cd80",
        "ok 48",
    ),
    ("session s x: n", "ok done turns 4 dma 0 0 0 x:"),
    // mov esp, 47; push 0x80cdc031: the stack puts xor eax, eax and int 0x80 at 43, in place of hlt four times.
    ("image s pal 32 5 x:bc2f0000006831c0cd8090f4f4f4f4", "ok 47"),
    ("session s x: n", "ok done turns 5 dma 0 0 0 x:"),
    // call 37; mov dword [esp], 48; ret: it returns to 48, behind hlt three times.
    (
        "image s pal 32 6 x:e800000000c7042430000000c3f4f4f431db31c0cd80",
        "ok 54",
    ),
    ("session s x: n", "ok done turns 6 dma 0 0 0 x:"),
    // mov dword [esi], 0; mov eax, [esi]; mov [edi], eax; mov ebx, 4; xor eax, eax; int 0x80. The chain has the inputs
    // that were taken.
    (
        "image i pal 32 6 x:c706000000008b068907bb0400000031c0cd80",
        "ok 51",
    ),
    (
        "session i x:01020304 n",
        "ok done turns 6 dma 0 0 0 x:00000000",
    ),
    ("read 17", "ok x:eaadf7a1e5e8be1f4820ac22fd4ca4f52936887f"),
];

// The instruction pointer at the region's end. The first statement of most puts four bytes at 65,532, the second jumps
// there.
const POINTERS: &[Row] = &[
    ("let n rep:00*20", "ok"),
    // jmp 65536.
    ("image j pal 32 99 x:e9dbff0000", "ok 37"),
    ("session j x: n", "ok fault 2 turns 2 dma 0 0 0 x:"),
    // jmp 4294967295; then the same by push and ret.
    ("image j pal 32 99 x:e9daffffff", "ok 37"),
    ("session j x: n", "ok fault 2 turns 2 dma 0 0 0 x:"),
    ("image j pal 32 99 x:68ffffffffc3", "ok 38"),
    ("session j x: n", "ok fault 2 turns 3 dma 0 0 0 x:"),
    // jmp 0: `20 00` of the front is no instruction.
    ("image j pal 32 99 x:e9dbffffff", "ok 37"),
    ("session j x: n", "ok fault 1 turns 2 dma 0 0 0 x:"),
    // nop four times, and then no byte is left.
    (
        "image j pal 32 99 x:c705fcff000090909090e9cdff0000",
        "ok 47",
    ),
    ("session j x: n", "ok fault 2 turns 7 dma 0 0 0 x:"),
    // nop three times, and the first byte of a jmp.
    (
        "image j pal 32 99 x:c705fcff0000909090e9e9cdff0000",
        "ok 47",
    ),
    ("session j x: n", "ok fault 1 turns 6 dma 0 0 0 x:"),
    // nop twice, and int 0x80: service 0, and then service 2, after which the pointer is at the end.
    (
        "image j pal 32 99 x:c705fcff00009090cd80e9cdff0000",
        "ok 47",
    ),
    ("session j x: n", "ok done turns 5 dma 0 0 0 x:"),
    (
        "image j pal 32 99 x:b802000000c705fcff00009090cd80e9c8ff0000",
        "ok 52",
    ),
    ("session j x: n", "ok fault 2 turns 7 dma 0 0 0 x:"),
];

// The stack pointer at the inputs, where it begins, and at the ends of the region. eax and ebx are 0 in most, so that
// int 0x80 ends the session.
const STACKS: &[Row] = &[
    ("let n rep:00*20", "ok"),
    // pop eax; mov [edi], eax; mov ebx, 4; xor eax, eax; int 0x80.
    ("image s pal 32 5 x:588907bb0400000031c0cd80", "ok 44"),
    (
        "session s x:01020304 n",
        "ok done turns 5 dma 0 0 0 x:01020304",
    ),
    // push eax at 65,536, 65,537, 4, 3 and 0.
    ("image s pal 32 5 x:bc0000010050cd80", "ok 40"),
    ("session s x: n", "ok done turns 3 dma 0 0 0 x:"),
    ("image s pal 32 5 x:bc0100010050cd80", "ok 40"),
    ("session s x: n", "ok fault 2 turns 2 dma 0 0 0 x:"),
    ("image s pal 32 5 x:bc0400000050cd80", "ok 40"),
    ("session s x: n", "ok done turns 3 dma 0 0 0 x:"),
    ("image s pal 32 5 x:bc0300000050cd80", "ok 40"),
    ("session s x: n", "ok fault 2 turns 2 dma 0 0 0 x:"),
    ("image s pal 32 5 x:bc0000000050cd80", "ok 40"),
    ("session s x: n", "ok fault 2 turns 2 dma 0 0 0 x:"),
    // pop eax at 65,532, 65,533 and 2^32 - 1.
    ("image s pal 32 5 x:bcfcff000058cd80", "ok 40"),
    ("session s x: n", "ok done turns 3 dma 0 0 0 x:"),
    ("image s pal 32 5 x:bcfdff000058cd80", "ok 40"),
    ("session s x: n", "ok fault 2 turns 2 dma 0 0 0 x:"),
    ("image s pal 32 5 x:bcffffffff58cd80", "ok 40"),
    ("session s x: n", "ok fault 2 turns 2 dma 0 0 0 x:"),
    // mov eax, -1; mov ecx, [eax+1]; mov [edi], ecx; mov ebx, 4; xor eax, eax; int 0x80: an address wraps, so entry and
    // length are read from the front. With [eax] it is outside.
    (
        "image w pal 32 6 x:b8ffffffff8b4801890fbb0400000031c0cd80",
        "ok 51",
    ),
    ("session w x: n", "ok done turns 6 dma 0 0 0 x:20003300"),
    (
        "image w pal 32 6 x:b8ffffffff8b08890fbb0400000031c0cd80",
        "ok 50",
    ),
    ("session w x: n", "ok fault 2 turns 2 dma 0 0 0 x:"),
];

// Service 1 of the gate.
const EXTENDS: &[Row] = &[
    ("let n rep:00*20", "ok"),
    // mov eax, 1; mov ebx, esi; int 0x80; mov ebx, eax; xor eax, eax; int 0x80: by the inputs, `abc` and none.
    ("image x pal 32 6 x:b80100000089f3cd8089c331c0cd80", "ok 47"),
    ("session x x:616263 n", "ok done turns 6 dma 0 0 0 x:"),
    ("read 17", "ok x:c869eb479e5af759d372c95f69194dd8607bff04"),
    ("session x x: n", "ok done turns 6 dma 0 0 0 x:"),
    ("read 17", "ok x:b43f750434ee410d0c85a8cf93e8900aba4692a3"),
    // The same twice: inc eax, which the service made 0, and int 0x80 again.
    (
        "image x pal 32 8 x:b80100000089f3cd8040cd8089c331c0cd80",
        "ok 50",
    ),
    ("session x x:616263 n", "ok done turns 8 dma 0 0 0 x:"),
    ("read 17", "ok x:3dfa18c9d219e5614751901a92512898483a49a9"),
    // mov ebx, 65536: no bytes from the region's end on, and one byte.
    (
        "image x pal 32 5 x:b801000000bb00000100cd8031dbcd80",
        "ok 48",
    ),
    ("session x x: n", "ok done turns 5 dma 0 0 0 x:"),
    ("read 17", "ok x:54147c22a3892a35a073d3dc8ea8e54bb220144f"),
    ("session x x:00 n", "ok fault 2 turns 3 dma 0 0 0 x:"),
    // mov ecx, -1; mov ebx, 1: their sum does not wrap, and nothing is extended.
    (
        "image x pal 32 9 x:b801000000b9ffffffffbb01000000cd80",
        "ok 49",
    ),
    ("session x x: n", "ok fault 2 turns 4 dma 0 0 0 x:"),
    ("read 17", "ok x:4ba614a38c465c731d3d1ebb6d748005c8a915fc"),
    // mov ecx, 65536, and ebx is 0: the whole region, with the image in front and `abc` at 57,344.
    (
        "image x pal 32 5 x:b801000000b900000100cd8031c0cd80",
        "ok 48",
    ),
    ("session x x:616263 n", "ok done turns 5 dma 0 0 0 x:"),
    ("read 17", "ok x:60b05344fd00502bddc36a01dc4e4d1df593d9c0"),
];

// Service 2 of the gate, of register 17 in most; its value is then what the launch made it.
const READS: &[Row] = &[
    ("let n rep:00*20", "ok"),
    // mov eax, 2; mov ebx, 17; int 0x80; mov ebx, 20; int 0x80.
    (
        "image r pal 32 5 x:b802000000bb11000000cd80bb14000000cd80",
        "ok 51",
    ),
    (
        "session r x: n",
        "ok done turns 5 dma 0 0 0 x:33932f46d9d11c01724fd957f3806650d2050952",
    ),
    ("read 17", "ok x:e0dd618ecdeb82da3f8565c680cae603007198bc"),
    // mov edi, 65516: the value ends with the region, and its last four bytes are put out.
    (
        "image r pal 32 8 x:b802000000bb11000000bfecff0000cd808b0dfcff0000890d00f00000bb04000000cd80",
        "ok 68",
    ),
    ("session r x: n", "ok done turns 8 dma 0 0 0 x:f7d0ec4e"),
    // mov edi, 65517, then 2^32 - 16: of register 17, and of 24, which is none.
    (
        "image r pal 32 8 x:b802000000bb11000000bfedff0000cd80",
        "ok 49",
    ),
    ("session r x: n", "ok fault 2 turns 4 dma 0 0 0 x:"),
    (
        "image r pal 32 8 x:b802000000bb11000000bff0ffffffcd80",
        "ok 49",
    ),
    ("session r x: n", "ok fault 2 turns 4 dma 0 0 0 x:"),
    (
        "image r pal 32 8 x:b802000000bb18000000bfedff0000cd80",
        "ok 49",
    ),
    ("session r x: n", "ok fault 2 turns 4 dma 0 0 0 x:"),
    // mov eax, 2; mov ebx, 24; int 0x80; mov [edi+20], eax; mov ebx, 24; xor eax, eax; int 0x80: 20 bytes are left as
    // they were, and eax is 1.
    (
        "image r pal 32 7 x:b802000000bb18000000cd80894714bb1800000031c0cd80",
        "ok 56",
    ),
    (
        "session r x: n",
        "ok done turns 7 dma 0 0 0 x:000000000000000000000000000000000000000001000000",
    ),
];

#[test]
fn regions(rt: HostRuntime) {
    let scenarios: [&[Row]; 5] = [OVERWRITES, POINTERS, STACKS, EXTENDS, READS];
    for (i, rows) in scenarios.iter().enumerate() {
        let row = first_wrong(rt.alloc(), rows);
        assert!(rt; row == rows.len(), "scenario {i}, row {row}");
    }
}
