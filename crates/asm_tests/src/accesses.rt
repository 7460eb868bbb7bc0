//! Instructions over twelve bytes, worked by hand from the rules of the manuals: what moves where,
//! where an access ends, the stack, jumps. eip is 0x100 on entry.

use i386_profile::FaultKind;

/// The bytes on entry.
pub(crate) const BYTES: [u8; 12] = [0, 1, 2, 3, 4, 5, 6, 7, 8, 9, 10, 11];

/// eax, ecx, edx and esp, with the other registers as they are in each row.
macro_rules! registers {
    ($eax:literal, $ecx:literal, $edx:literal, $esp:literal) => {
        [$eax, $ecx, $edx, 4, $esp, 8, 0xFFFF_FFFF, 9]
    };
}

/// eax to edi on entry.
const REGS: [u32; 8] = registers!(0x1111_1111, 0x2222_2222, 0x3333_3333, 8);

/// The stack below its first doubleword.
const LOW: [u32; 8] = registers!(0x1111_1111, 0x2222_2222, 0x3333_3333, 2);

/// The stack three bytes before the end.
const HIGH: [u32; 8] = registers!(0x1111_1111, 0x2222_2222, 0x3333_3333, 9);

/// edx is one below the divisor at ebx.
const FITS: [u32; 8] = registers!(0x1111_1111, 0x2222_2222, 0x0706_0503, 8);

/// edx is the divisor at ebx.
const PASSES: [u32; 8] = registers!(0x1111_1111, 0x2222_2222, 0x0706_0504, 8);

/// An instruction, registers and flags before it; registers, eip, flags and bytes after it.
pub(crate) type Access = (
    &'static [u8],
    [u32; 8],
    &'static [u8; 4],
    [u32; 8],
    u32,
    &'static [u8; 4],
    [u8; 12],
);

pub(crate) const ACCESSES: &[Access] = &[
    // mov ecx, 5
    (
        &[0xB9, 0x05, 0x00, 0x00, 0x00],
        REGS,
        b"....",
        registers!(0x1111_1111, 5, 0x3333_3333, 8),
        0x100,
        b"....",
        BYTES,
    ),
    // mov dword [ebp], 0xDDCCBBAA: the last four bytes
    (
        &[0xC7, 0x45, 0x00, 0xAA, 0xBB, 0xCC, 0xDD],
        REGS,
        b"....",
        REGS,
        0x100,
        b"....",
        [
            0x00, 0x01, 0x02, 0x03, 0x04, 0x05, 0x06, 0x07, 0xAA, 0xBB, 0xCC, 0xDD,
        ],
    ),
    // mov eax, ecx
    (
        &[0x89, 0xC8],
        REGS,
        b"....",
        registers!(0x2222_2222, 0x2222_2222, 0x3333_3333, 8),
        0x100,
        b"....",
        BYTES,
    ),
    // mov [ebx-4], ecx
    (
        &[0x89, 0x4B, 0xFC],
        REGS,
        b"....",
        REGS,
        0x100,
        b"....",
        [
            0x22, 0x22, 0x22, 0x22, 0x04, 0x05, 0x06, 0x07, 0x08, 0x09, 0x0A, 0x0B,
        ],
    ),
    // mov eax, [ebx]
    (
        &[0x8B, 0x03],
        REGS,
        b"....",
        registers!(0x0706_0504, 0x2222_2222, 0x3333_3333, 8),
        0x100,
        b"....",
        BYTES,
    ),
    // mov eax, [0]
    (
        &[0x8B, 0x05, 0x00, 0x00, 0x00, 0x00],
        REGS,
        b"....",
        registers!(0x0302_0100, 0x2222_2222, 0x3333_3333, 8),
        0x100,
        b"....",
        BYTES,
    ),
    // mov [esi+12], al: the address wraps
    (
        &[0x88, 0x46, 0x0C],
        REGS,
        b"....",
        REGS,
        0x100,
        b"....",
        [
            0x00, 0x01, 0x02, 0x03, 0x04, 0x05, 0x06, 0x07, 0x08, 0x09, 0x0A, 0x11,
        ],
    ),
    // mov cl, [ebx+1]
    (
        &[0x8A, 0x4B, 0x01],
        REGS,
        b"....",
        registers!(0x1111_1111, 0x2222_2205, 0x3333_3333, 8),
        0x100,
        b"....",
        BYTES,
    ),
    // movzx edx, byte [edi+2]
    (
        &[0x0F, 0xB6, 0x57, 0x02],
        REGS,
        b"....",
        registers!(0x1111_1111, 0x2222_2222, 0xB, 8),
        0x100,
        b"....",
        BYTES,
    ),
    // movzx edx, al
    (
        &[0x0F, 0xB6, 0xD0],
        REGS,
        b"....",
        registers!(0x1111_1111, 0x2222_2222, 0x11, 8),
        0x100,
        b"....",
        BYTES,
    ),
    // lea eax, [esi+2]: no access, and the address wraps
    (
        &[0x8D, 0x46, 0x02],
        REGS,
        b"....",
        registers!(1, 0x2222_2222, 0x3333_3333, 8),
        0x100,
        b"....",
        BYTES,
    ),
    // add [ebx], ecx
    (
        &[0x01, 0x0B],
        REGS,
        b"CZSO",
        REGS,
        0x100,
        b"....",
        [
            0x00, 0x01, 0x02, 0x03, 0x26, 0x27, 0x28, 0x29, 0x08, 0x09, 0x0A, 0x0B,
        ],
    ),
    // cmp [ebx], ecx
    (&[0x39, 0x0B], REGS, b"....", REGS, 0x100, b"C.S.", BYTES),
    // sub ecx, [ebx]
    (
        &[0x2B, 0x0B],
        REGS,
        b"CZSO",
        registers!(0x1111_1111, 0x1B1C_1D1E, 0x3333_3333, 8),
        0x100,
        b"....",
        BYTES,
    ),
    // cmp ecx, [ebx]
    (&[0x3B, 0x0B], REGS, b"CZSO", REGS, 0x100, b"....", BYTES),
    // and dword [ebx], 255
    (
        &[0x81, 0x23, 0xFF, 0x00, 0x00, 0x00],
        REGS,
        b"CZSO",
        REGS,
        0x100,
        b"....",
        [
            0x00, 0x01, 0x02, 0x03, 0x04, 0x00, 0x00, 0x00, 0x08, 0x09, 0x0A, 0x0B,
        ],
    ),
    // test [ebx], eax
    (&[0x85, 0x03], REGS, b"CZSO", REGS, 0x100, b"....", BYTES),
    // push esp: the old one
    (
        &[0x54],
        REGS,
        b"....",
        registers!(0x1111_1111, 0x2222_2222, 0x3333_3333, 4),
        0x100,
        b"....",
        [
            0x00, 0x01, 0x02, 0x03, 0x08, 0x00, 0x00, 0x00, 0x08, 0x09, 0x0A, 0x0B,
        ],
    ),
    // pop esp: the value
    (
        &[0x5C],
        REGS,
        b"....",
        registers!(0x1111_1111, 0x2222_2222, 0x3333_3333, 0x0B0A_0908),
        0x100,
        b"....",
        BYTES,
    ),
    // pop eax
    (
        &[0x58],
        REGS,
        b"....",
        registers!(0x0B0A_0908, 0x2222_2222, 0x3333_3333, 0xC),
        0x100,
        b"....",
        BYTES,
    ),
    // push 0x12345678
    (
        &[0x68, 0x78, 0x56, 0x34, 0x12],
        REGS,
        b"....",
        registers!(0x1111_1111, 0x2222_2222, 0x3333_3333, 4),
        0x100,
        b"....",
        [
            0x00, 0x01, 0x02, 0x03, 0x78, 0x56, 0x34, 0x12, 0x08, 0x09, 0x0A, 0x0B,
        ],
    ),
    // shl dword [ebx], 4
    (
        &[0xC1, 0x23, 0x04],
        REGS,
        b"CZSO",
        REGS,
        0x100,
        b"...O",
        [
            0x00, 0x01, 0x02, 0x03, 0x40, 0x50, 0x60, 0x70, 0x08, 0x09, 0x0A, 0x0B,
        ],
    ),
    // sar dword [ebx], 32
    (
        &[0xC1, 0x3B, 0x20],
        REGS,
        b"CZSO",
        REGS,
        0x100,
        b"CZSO",
        BYTES,
    ),
    // imul ecx, [ebx]
    (
        &[0x0F, 0xAF, 0x0B],
        REGS,
        b".ZS.",
        registers!(0x1111_1111, 0xEDFF_3288, 0x3333_3333, 8),
        0x100,
        b"CZSO",
        BYTES,
    ),
    // not dword [ebx]
    (
        &[0xF7, 0x13],
        REGS,
        b"CZSO",
        REGS,
        0x100,
        b"CZSO",
        [
            0x00, 0x01, 0x02, 0x03, 0xFB, 0xFA, 0xF9, 0xF8, 0x08, 0x09, 0x0A, 0x0B,
        ],
    ),
    // neg dword [ebx]
    (
        &[0xF7, 0x1B],
        REGS,
        b".Z.O",
        REGS,
        0x100,
        b"C.S.",
        [
            0x00, 0x01, 0x02, 0x03, 0xFC, 0xFA, 0xF9, 0xF8, 0x08, 0x09, 0x0A, 0x0B,
        ],
    ),
    // mul dword [ebx]
    (
        &[0xF7, 0x23],
        REGS,
        b".ZS.",
        registers!(0x76FF_9944, 0x2222_2222, 0x0077_DE33, 8),
        0x100,
        b"CZSO",
        BYTES,
    ),
    // div dword [ebx]: the quotient still fits
    (
        &[0xF7, 0x33],
        FITS,
        b"CZSO",
        registers!(0xFFFF_FFDD, 0x2222_2222, 0x06E3_C09D, 8),
        0x100,
        b"CZSO",
        BYTES,
    ),
    // call +16
    (
        &[0xE8, 0x10, 0x00, 0x00, 0x00],
        REGS,
        b"....",
        registers!(0x1111_1111, 0x2222_2222, 0x3333_3333, 4),
        0x110,
        b"....",
        [
            0x00, 0x01, 0x02, 0x03, 0x00, 0x01, 0x00, 0x00, 0x08, 0x09, 0x0A, 0x0B,
        ],
    ),
    // ret
    (
        &[0xC3],
        REGS,
        b"....",
        registers!(0x1111_1111, 0x2222_2222, 0x3333_3333, 0xC),
        0x0B0A_0908,
        b"....",
        BYTES,
    ),
    // nop
    (&[0x90], REGS, b"CZSO", REGS, 0x100, b"CZSO", BYTES),
];

/// Instructions and registers, and the fault that they end in.
pub(crate) const FAULTS: &[(&[u8], [u32; 8], FaultKind)] = &[
    // mov dword [edi], 4: the last byte alone lies outside
    (
        &[0xC7, 0x07, 0x04, 0x00, 0x00, 0x00],
        REGS,
        FaultKind::Segment,
    ),
    // mov eax, [edi]
    (&[0x8B, 0x07], REGS, FaultKind::Segment),
    // mov eax, [0xFFFFFFFF]: the sum does not wrap
    (
        &[0x8B, 0x05, 0xFF, 0xFF, 0xFF, 0xFF],
        REGS,
        FaultKind::Segment,
    ),
    // mov [esi+13], al
    (&[0x88, 0x46, 0x0D], REGS, FaultKind::Segment),
    // mov cl, [edi+3]
    (&[0x8A, 0x4F, 0x03], REGS, FaultKind::Segment),
    // movzx edx, byte [esi]
    (&[0x0F, 0xB6, 0x16], REGS, FaultKind::Segment),
    // cmp [edi], ecx
    (&[0x39, 0x0F], REGS, FaultKind::Segment),
    // cmp ecx, [edi]
    (&[0x3B, 0x0F], REGS, FaultKind::Segment),
    // xor dword [edi], 1
    (&[0x83, 0x37, 0x01], REGS, FaultKind::Segment),
    // test [edi], eax
    (&[0x85, 0x07], REGS, FaultKind::Segment),
    // push eax
    (&[0x50], LOW, FaultKind::Segment),
    // pop eax
    (&[0x58], HIGH, FaultKind::Segment),
    // shl dword [edi], 0
    (&[0xC1, 0x27, 0x00], REGS, FaultKind::Segment),
    // imul ecx, [edi]
    (&[0x0F, 0xAF, 0x0F], REGS, FaultKind::Segment),
    // not dword [edi]
    (&[0xF7, 0x17], REGS, FaultKind::Segment),
    // neg dword [edi]
    (&[0xF7, 0x1F], REGS, FaultKind::Segment),
    // mul dword [edi]
    (&[0xF7, 0x27], REGS, FaultKind::Segment),
    // div dword [ebx]: the quotient passes 32 bits
    (&[0xF7, 0x33], PASSES, FaultKind::Divide),
    // div dword [edi]: the access comes first
    (&[0xF7, 0x37], REGS, FaultKind::Segment),
    // call +16
    (&[0xE8, 0x10, 0x00, 0x00, 0x00], LOW, FaultKind::Segment),
    // ret
    (&[0xC3], HIGH, FaultKind::Segment),
];

/// Jumps and flags, and the eip that they lead to.
pub(crate) const JUMPS: &[(&[u8], &[u8; 4], u32)] = &[
    // jmp -2
    (&[0xEB, 0xFE], b"....", 0xFE),
    // je +5
    (&[0x74, 0x05], b".Z..", 0x105),
    // je +5
    (&[0x74, 0x05], b"C.SO", 0x100),
];
