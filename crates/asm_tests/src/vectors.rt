//! What an x86-64 processor answers. tests/peers/i386_flags.py prints the rows.
//!
//! Flags are four letters, `CZSO` where carry, zero, sign and overflow are set and `.` where they
//! are clear.

/// eax, ecx and the flags before an instruction, eax and the flags after it.
pub(crate) type Row = (u32, u32, [u8; 4], u32, [u8; 4]);

/// Instructions that leave ecx and edx.
pub(crate) const VECTORS: &[(&[u8], &[Row])] = &[
    // add eax, ecx
    (
        &[0x01, 0xC8],
        &[
            (0, 0, *b"....", 0, *b".Z.."),
            (0, 1, *b"CZSO", 1, *b"...."),
            (0, 0x7FFF_FFFF, *b"....", 0x7FFF_FFFF, *b"...."),
            (0, 0x8000_0000, *b"CZSO", 0x8000_0000, *b"..S."),
            (0, 0xFFFF_FFFF, *b"....", 0xFFFF_FFFF, *b"..S."),
            (1, 0, *b"CZSO", 1, *b"...."),
            (1, 1, *b"....", 2, *b"...."),
            (1, 0x7FFF_FFFF, *b"CZSO", 0x8000_0000, *b"..SO"),
            (1, 0x8000_0000, *b"....", 0x8000_0001, *b"..S."),
            (1, 0xFFFF_FFFF, *b"CZSO", 0, *b"CZ.."),
            (0x7FFF_FFFF, 0, *b"....", 0x7FFF_FFFF, *b"...."),
            (0x7FFF_FFFF, 1, *b"CZSO", 0x8000_0000, *b"..SO"),
            (0x7FFF_FFFF, 0x7FFF_FFFF, *b"....", 0xFFFF_FFFE, *b"..SO"),
            (0x7FFF_FFFF, 0x8000_0000, *b"CZSO", 0xFFFF_FFFF, *b"..S."),
            (0x7FFF_FFFF, 0xFFFF_FFFF, *b"....", 0x7FFF_FFFE, *b"C..."),
            (0x8000_0000, 0, *b"CZSO", 0x8000_0000, *b"..S."),
            (0x8000_0000, 1, *b"....", 0x8000_0001, *b"..S."),
            (0x8000_0000, 0x7FFF_FFFF, *b"CZSO", 0xFFFF_FFFF, *b"..S."),
            (0x8000_0000, 0x8000_0000, *b"....", 0, *b"CZ.O"),
            (0x8000_0000, 0xFFFF_FFFF, *b"CZSO", 0x7FFF_FFFF, *b"C..O"),
            (0xFFFF_FFFF, 0, *b"....", 0xFFFF_FFFF, *b"..S."),
            (0xFFFF_FFFF, 1, *b"CZSO", 0, *b"CZ.."),
            (0xFFFF_FFFF, 0x7FFF_FFFF, *b"....", 0x7FFF_FFFE, *b"C..."),
            (0xFFFF_FFFF, 0x8000_0000, *b"CZSO", 0x7FFF_FFFF, *b"C..O"),
            (0xFFFF_FFFF, 0xFFFF_FFFF, *b"....", 0xFFFF_FFFE, *b"C.S."),
        ],
    ),
    // sub eax, ecx
    (
        &[0x29, 0xC8],
        &[
            (0, 0, *b"....", 0, *b".Z.."),
            (0, 1, *b"CZSO", 0xFFFF_FFFF, *b"C.S."),
            (0, 0x7FFF_FFFF, *b"....", 0x8000_0001, *b"C.S."),
            (0, 0x8000_0000, *b"CZSO", 0x8000_0000, *b"C.SO"),
            (0, 0xFFFF_FFFF, *b"....", 1, *b"C..."),
            (1, 0, *b"CZSO", 1, *b"...."),
            (1, 1, *b"....", 0, *b".Z.."),
            (1, 0x7FFF_FFFF, *b"CZSO", 0x8000_0002, *b"C.S."),
            (1, 0x8000_0000, *b"....", 0x8000_0001, *b"C.SO"),
            (1, 0xFFFF_FFFF, *b"CZSO", 2, *b"C..."),
            (0x7FFF_FFFF, 0, *b"....", 0x7FFF_FFFF, *b"...."),
            (0x7FFF_FFFF, 1, *b"CZSO", 0x7FFF_FFFE, *b"...."),
            (0x7FFF_FFFF, 0x7FFF_FFFF, *b"....", 0, *b".Z.."),
            (0x7FFF_FFFF, 0x8000_0000, *b"CZSO", 0xFFFF_FFFF, *b"C.SO"),
            (0x7FFF_FFFF, 0xFFFF_FFFF, *b"....", 0x8000_0000, *b"C.SO"),
            (0x8000_0000, 0, *b"CZSO", 0x8000_0000, *b"..S."),
            (0x8000_0000, 1, *b"....", 0x7FFF_FFFF, *b"...O"),
            (0x8000_0000, 0x7FFF_FFFF, *b"CZSO", 1, *b"...O"),
            (0x8000_0000, 0x8000_0000, *b"....", 0, *b".Z.."),
            (0x8000_0000, 0xFFFF_FFFF, *b"CZSO", 0x8000_0001, *b"C.S."),
            (0xFFFF_FFFF, 0, *b"....", 0xFFFF_FFFF, *b"..S."),
            (0xFFFF_FFFF, 1, *b"CZSO", 0xFFFF_FFFE, *b"..S."),
            (0xFFFF_FFFF, 0x7FFF_FFFF, *b"....", 0x8000_0000, *b"..S."),
            (0xFFFF_FFFF, 0x8000_0000, *b"CZSO", 0x7FFF_FFFF, *b"...."),
            (0xFFFF_FFFF, 0xFFFF_FFFF, *b"....", 0, *b".Z.."),
        ],
    ),
    // cmp eax, ecx
    (
        &[0x39, 0xC8],
        &[
            (0, 0, *b"....", 0, *b".Z.."),
            (0, 0x7FFF_FFFF, *b"CZSO", 0, *b"C.S."),
            (0, 0xFFFF_FFFF, *b"....", 0, *b"C..."),
            (1, 1, *b"CZSO", 1, *b".Z.."),
            (1, 0x8000_0000, *b"....", 1, *b"C.SO"),
            (0x7FFF_FFFF, 0, *b"CZSO", 0x7FFF_FFFF, *b"...."),
            (0x7FFF_FFFF, 0x7FFF_FFFF, *b"....", 0x7FFF_FFFF, *b".Z.."),
            (0x7FFF_FFFF, 0xFFFF_FFFF, *b"CZSO", 0x7FFF_FFFF, *b"C.SO"),
            (0x8000_0000, 1, *b"....", 0x8000_0000, *b"...O"),
            (0x8000_0000, 0x8000_0000, *b"CZSO", 0x8000_0000, *b".Z.."),
            (0xFFFF_FFFF, 0, *b"....", 0xFFFF_FFFF, *b"..S."),
            (0xFFFF_FFFF, 0x7FFF_FFFF, *b"CZSO", 0xFFFF_FFFF, *b"..S."),
            (0xFFFF_FFFF, 0xFFFF_FFFF, *b"....", 0xFFFF_FFFF, *b".Z.."),
        ],
    ),
    // or eax, ecx
    (
        &[0x09, 0xC8],
        &[
            (0, 0, *b"....", 0, *b".Z.."),
            (1, 0, *b"CZSO", 1, *b"...."),
            (0x7FFF_FFFF, 0, *b"....", 0x7FFF_FFFF, *b"...."),
            (0x8000_0000, 0, *b"CZSO", 0x8000_0000, *b"..S."),
            (0xFFFF_FFFF, 0, *b"....", 0xFFFF_FFFF, *b"..S."),
        ],
    ),
    // and eax, ecx
    (
        &[0x21, 0xC8],
        &[
            (0, 0, *b"....", 0, *b".Z.."),
            (0, 0xFFFF_FFFF, *b"CZSO", 0, *b".Z.."),
            (1, 0x8000_0000, *b"....", 0, *b".Z.."),
            (0x7FFF_FFFF, 0x7FFF_FFFF, *b"CZSO", 0x7FFF_FFFF, *b"...."),
            (0x8000_0000, 1, *b"....", 0, *b".Z.."),
            (0xFFFF_FFFF, 0, *b"CZSO", 0, *b".Z.."),
            (0xFFFF_FFFF, 0xFFFF_FFFF, *b"....", 0xFFFF_FFFF, *b"..S."),
        ],
    ),
    // xor eax, ecx
    (
        &[0x31, 0xC8],
        &[
            (0, 0, *b"....", 0, *b".Z.."),
            (1, 1, *b"CZSO", 0, *b".Z.."),
            (0x7FFF_FFFF, 0x7FFF_FFFF, *b"....", 0, *b".Z.."),
            (0x8000_0000, 0x8000_0000, *b"CZSO", 0, *b".Z.."),
            (0xFFFF_FFFF, 0xFFFF_FFFF, *b"....", 0, *b".Z.."),
        ],
    ),
    // test eax, ecx
    (
        &[0x85, 0xC8],
        &[
            (0, 0, *b"....", 0, *b".Z.."),
            (0, 0xFFFF_FFFF, *b"CZSO", 0, *b".Z.."),
            (1, 0x8000_0000, *b"....", 1, *b".Z.."),
            (0x7FFF_FFFF, 0x7FFF_FFFF, *b"CZSO", 0x7FFF_FFFF, *b"...."),
            (0x8000_0000, 1, *b"....", 0x8000_0000, *b".Z.."),
            (0xFFFF_FFFF, 0, *b"CZSO", 0xFFFF_FFFF, *b".Z.."),
            (0xFFFF_FFFF, 0xFFFF_FFFF, *b"....", 0xFFFF_FFFF, *b"..S."),
        ],
    ),
    // imul eax, ecx
    (
        &[0x0F, 0xAF, 0xC1],
        &[
            (0, 0, *b"....", 0, *b"...."),
            (0, 0x7FFF_FFFF, *b"CZSO", 0, *b".ZS."),
            (0, 0xFFFF_FFFF, *b"....", 0, *b"...."),
            (1, 1, *b"CZSO", 1, *b".ZS."),
            (1, 0x8000_0000, *b"....", 0x8000_0000, *b"...."),
            (0x7FFF_FFFF, 0, *b"CZSO", 0, *b".ZS."),
            (0x7FFF_FFFF, 0x7FFF_FFFF, *b"....", 1, *b"C..O"),
            (0x7FFF_FFFF, 0xFFFF_FFFF, *b"CZSO", 0x8000_0001, *b".ZS."),
            (0x8000_0000, 1, *b"....", 0x8000_0000, *b"...."),
            (0x8000_0000, 0x8000_0000, *b"CZSO", 0, *b"CZSO"),
            (0xFFFF_FFFF, 0, *b"....", 0, *b"...."),
            (0xFFFF_FFFF, 0x7FFF_FFFF, *b"CZSO", 0x8000_0001, *b".ZS."),
            (0xFFFF_FFFF, 0xFFFF_FFFF, *b"....", 1, *b"...."),
            (0x8000, 0xFFFF, *b"CZSO", 0x7FFF_8000, *b".ZS."),
            (0x8000, 0x0001_0000, *b"....", 0x8000_0000, *b"C..O"),
            (0xFFFF_8000, 0x0001_0000, *b"CZSO", 0x8000_0000, *b".ZS."),
            (0x0001_0000, 0x0001_0000, *b"....", 0, *b"C..O"),
            (0xB505, 0xB505, *b"CZSO", 0x8000_1219, *b"CZSO"),
            (0xB504, 0xB505, *b"....", 0x7FFF_5D14, *b"...."),
        ],
    ),
    // inc eax
    (
        &[0x40],
        &[
            (0, 7, *b"....", 1, *b"...."),
            (0, 7, *b"CZSO", 1, *b"C..."),
            (1, 7, *b"....", 2, *b"...."),
            (1, 7, *b"CZSO", 2, *b"C..."),
            (0x7FFF_FFFF, 7, *b"....", 0x8000_0000, *b"..SO"),
            (0x7FFF_FFFF, 7, *b"CZSO", 0x8000_0000, *b"C.SO"),
            (0x8000_0000, 7, *b"....", 0x8000_0001, *b"..S."),
            (0x8000_0000, 7, *b"CZSO", 0x8000_0001, *b"C.S."),
            (0xFFFF_FFFF, 7, *b"....", 0, *b".Z.."),
            (0xFFFF_FFFF, 7, *b"CZSO", 0, *b"CZ.."),
        ],
    ),
    // dec eax
    (
        &[0x48],
        &[
            (0, 7, *b"....", 0xFFFF_FFFF, *b"..S."),
            (0, 7, *b"CZSO", 0xFFFF_FFFF, *b"C.S."),
            (1, 7, *b"....", 0, *b".Z.."),
            (1, 7, *b"CZSO", 0, *b"CZ.."),
            (0x7FFF_FFFF, 7, *b"....", 0x7FFF_FFFE, *b"...."),
            (0x7FFF_FFFF, 7, *b"CZSO", 0x7FFF_FFFE, *b"C..."),
            (0x8000_0000, 7, *b"....", 0x7FFF_FFFF, *b"...O"),
            (0x8000_0000, 7, *b"CZSO", 0x7FFF_FFFF, *b"C..O"),
            (0xFFFF_FFFF, 7, *b"....", 0xFFFF_FFFE, *b"..S."),
            (0xFFFF_FFFF, 7, *b"CZSO", 0xFFFF_FFFE, *b"C.S."),
        ],
    ),
    // neg eax
    (
        &[0xF7, 0xD8],
        &[
            (0, 7, *b"....", 0, *b".Z.."),
            (1, 7, *b"CZSO", 0xFFFF_FFFF, *b"C.S."),
            (0x7FFF_FFFF, 7, *b"....", 0x8000_0001, *b"C.S."),
            (0x8000_0000, 7, *b"CZSO", 0x8000_0000, *b"C.SO"),
            (0xFFFF_FFFF, 7, *b"....", 1, *b"C..."),
        ],
    ),
    // not eax
    (
        &[0xF7, 0xD0],
        &[
            (0, 7, *b"....", 0xFFFF_FFFF, *b"...."),
            (1, 7, *b"CZSO", 0xFFFF_FFFE, *b"CZSO"),
            (0x7FFF_FFFF, 7, *b"....", 0x8000_0000, *b"...."),
            (0x8000_0000, 7, *b"CZSO", 0x7FFF_FFFF, *b"CZSO"),
            (0xFFFF_FFFF, 7, *b"....", 0, *b"...."),
        ],
    ),
    // shl eax, 0
    (
        &[0xC1, 0xE0, 0x00],
        &[
            (0, 7, *b"....", 0, *b"...."),
            (1, 7, *b"CZSO", 1, *b"CZSO"),
            (0x7FFF_FFFF, 7, *b"....", 0x7FFF_FFFF, *b"...."),
            (0x8000_0000, 7, *b"CZSO", 0x8000_0000, *b"CZSO"),
            (0xFFFF_FFFF, 7, *b"....", 0xFFFF_FFFF, *b"...."),
        ],
    ),
    // shl eax, 1
    (
        &[0xC1, 0xE0, 0x01],
        &[
            (0, 7, *b"....", 0, *b".Z.."),
            (1, 7, *b"CZSO", 2, *b"...."),
            (0x7FFF_FFFF, 7, *b"....", 0xFFFF_FFFE, *b"..SO"),
            (0x8000_0000, 7, *b"CZSO", 0, *b"CZ.O"),
            (0xFFFF_FFFF, 7, *b"....", 0xFFFF_FFFE, *b"C.S."),
        ],
    ),
    // shl eax, 31
    (
        &[0xC1, 0xE0, 0x1F],
        &[
            (0, 7, *b"....", 0, *b".Z.."),
            (1, 7, *b"CZSO", 0x8000_0000, *b"..SO"),
            (0x7FFF_FFFF, 7, *b"....", 0x8000_0000, *b"C.S."),
            (0x8000_0000, 7, *b"CZSO", 0, *b".Z.O"),
            (0xFFFF_FFFF, 7, *b"....", 0x8000_0000, *b"C.S."),
        ],
    ),
    // shl eax, 32
    (
        &[0xC1, 0xE0, 0x20],
        &[
            (0, 7, *b"....", 0, *b"...."),
            (1, 7, *b"CZSO", 1, *b"CZSO"),
            (0x7FFF_FFFF, 7, *b"....", 0x7FFF_FFFF, *b"...."),
            (0x8000_0000, 7, *b"CZSO", 0x8000_0000, *b"CZSO"),
            (0xFFFF_FFFF, 7, *b"....", 0xFFFF_FFFF, *b"...."),
        ],
    ),
    // shl eax, 33
    (
        &[0xC1, 0xE0, 0x21],
        &[
            (0, 7, *b"....", 0, *b".Z.."),
            (1, 7, *b"CZSO", 2, *b"...."),
            (0x7FFF_FFFF, 7, *b"....", 0xFFFF_FFFE, *b"..SO"),
            (0x8000_0000, 7, *b"CZSO", 0, *b"CZ.O"),
            (0xFFFF_FFFF, 7, *b"....", 0xFFFF_FFFE, *b"C.S."),
        ],
    ),
    // shr eax, 0
    (
        &[0xC1, 0xE8, 0x00],
        &[
            (0, 7, *b"....", 0, *b"...."),
            (1, 7, *b"CZSO", 1, *b"CZSO"),
            (0x7FFF_FFFF, 7, *b"....", 0x7FFF_FFFF, *b"...."),
            (0x8000_0000, 7, *b"CZSO", 0x8000_0000, *b"CZSO"),
            (0xFFFF_FFFF, 7, *b"....", 0xFFFF_FFFF, *b"...."),
        ],
    ),
    // shr eax, 1
    (
        &[0xC1, 0xE8, 0x01],
        &[
            (0, 7, *b"....", 0, *b".Z.."),
            (1, 7, *b"CZSO", 0, *b"CZ.."),
            (0x7FFF_FFFF, 7, *b"....", 0x3FFF_FFFF, *b"C..."),
            (0x8000_0000, 7, *b"CZSO", 0x4000_0000, *b"...O"),
            (0xFFFF_FFFF, 7, *b"....", 0x7FFF_FFFF, *b"C..O"),
        ],
    ),
    // shr eax, 31
    (
        &[0xC1, 0xE8, 0x1F],
        &[
            (0, 7, *b"....", 0, *b".Z.."),
            (1, 7, *b"CZSO", 0, *b".Z.O"),
            (0x7FFF_FFFF, 7, *b"....", 0, *b"CZ.."),
            (0x8000_0000, 7, *b"CZSO", 1, *b"...O"),
            (0xFFFF_FFFF, 7, *b"....", 1, *b"C..."),
        ],
    ),
    // shr eax, 32
    (
        &[0xC1, 0xE8, 0x20],
        &[
            (0, 7, *b"....", 0, *b"...."),
            (1, 7, *b"CZSO", 1, *b"CZSO"),
            (0x7FFF_FFFF, 7, *b"....", 0x7FFF_FFFF, *b"...."),
            (0x8000_0000, 7, *b"CZSO", 0x8000_0000, *b"CZSO"),
            (0xFFFF_FFFF, 7, *b"....", 0xFFFF_FFFF, *b"...."),
        ],
    ),
    // shr eax, 33
    (
        &[0xC1, 0xE8, 0x21],
        &[
            (0, 7, *b"....", 0, *b".Z.."),
            (1, 7, *b"CZSO", 0, *b"CZ.."),
            (0x7FFF_FFFF, 7, *b"....", 0x3FFF_FFFF, *b"C..."),
            (0x8000_0000, 7, *b"CZSO", 0x4000_0000, *b"...O"),
            (0xFFFF_FFFF, 7, *b"....", 0x7FFF_FFFF, *b"C..O"),
        ],
    ),
    // sar eax, 0
    (
        &[0xC1, 0xF8, 0x00],
        &[
            (0, 7, *b"....", 0, *b"...."),
            (1, 7, *b"CZSO", 1, *b"CZSO"),
            (0x7FFF_FFFF, 7, *b"....", 0x7FFF_FFFF, *b"...."),
            (0x8000_0000, 7, *b"CZSO", 0x8000_0000, *b"CZSO"),
            (0xFFFF_FFFF, 7, *b"....", 0xFFFF_FFFF, *b"...."),
        ],
    ),
    // sar eax, 1
    (
        &[0xC1, 0xF8, 0x01],
        &[
            (0, 7, *b"....", 0, *b".Z.."),
            (1, 7, *b"CZSO", 0, *b"CZ.."),
            (0x7FFF_FFFF, 7, *b"....", 0x3FFF_FFFF, *b"C..."),
            (0x8000_0000, 7, *b"CZSO", 0xC000_0000, *b"..S."),
            (0xFFFF_FFFF, 7, *b"....", 0xFFFF_FFFF, *b"C.S."),
        ],
    ),
    // sar eax, 31
    (
        &[0xC1, 0xF8, 0x1F],
        &[
            (0, 7, *b"....", 0, *b".Z.."),
            (1, 7, *b"CZSO", 0, *b".Z.O"),
            (0x7FFF_FFFF, 7, *b"....", 0, *b"CZ.."),
            (0x8000_0000, 7, *b"CZSO", 0xFFFF_FFFF, *b"..SO"),
            (0xFFFF_FFFF, 7, *b"....", 0xFFFF_FFFF, *b"C.S."),
        ],
    ),
    // sar eax, 32
    (
        &[0xC1, 0xF8, 0x20],
        &[
            (0, 7, *b"....", 0, *b"...."),
            (1, 7, *b"CZSO", 1, *b"CZSO"),
            (0x7FFF_FFFF, 7, *b"....", 0x7FFF_FFFF, *b"...."),
            (0x8000_0000, 7, *b"CZSO", 0x8000_0000, *b"CZSO"),
            (0xFFFF_FFFF, 7, *b"....", 0xFFFF_FFFF, *b"...."),
        ],
    ),
    // sar eax, 33
    (
        &[0xC1, 0xF8, 0x21],
        &[
            (0, 7, *b"....", 0, *b".Z.."),
            (1, 7, *b"CZSO", 0, *b"CZ.."),
            (0x7FFF_FFFF, 7, *b"....", 0x3FFF_FFFF, *b"C..."),
            (0x8000_0000, 7, *b"CZSO", 0xC000_0000, *b"..S."),
            (0xFFFF_FFFF, 7, *b"....", 0xFFFF_FFFF, *b"C.S."),
        ],
    ),
];

/// eax, ecx, edx and the flags before an instruction, eax, edx and the flags after it.
pub(crate) type WideRow = ([u32; 3], [u8; 4], [u32; 2], [u8; 4]);

/// Instructions whose result is edx:eax.
pub(crate) const WIDE: &[(&[u8], &[WideRow])] = &[
    // mul ecx
    (
        &[0xF7, 0xE1],
        &[
            ([0, 0, 5], *b"....", [0, 0], *b"...."),
            ([0, 0x8000_0000, 5], *b"CZSO", [0, 0], *b".ZS."),
            ([1, 1, 5], *b"....", [1, 0], *b"...."),
            ([1, 0xFFFF_FFFF, 5], *b"CZSO", [0xFFFF_FFFF, 0], *b".ZS."),
            (
                [0x7FFF_FFFF, 0x7FFF_FFFF, 5],
                *b"....",
                [1, 0x3FFF_FFFF],
                *b"C..O",
            ),
            ([0x8000_0000, 0, 5], *b"CZSO", [0, 0], *b".ZS."),
            (
                [0x8000_0000, 0x8000_0000, 5],
                *b"....",
                [0, 0x4000_0000],
                *b"C..O",
            ),
            ([0xFFFF_FFFF, 1, 5], *b"CZSO", [0xFFFF_FFFF, 0], *b".ZS."),
            (
                [0xFFFF_FFFF, 0xFFFF_FFFF, 5],
                *b"....",
                [1, 0xFFFF_FFFE],
                *b"C..O",
            ),
            ([0x8000, 0xFFFF, 5], *b"CZSO", [0x7FFF_8000, 0], *b".ZS."),
            (
                [0x8000, 0x0001_0000, 5],
                *b"....",
                [0x8000_0000, 0],
                *b"....",
            ),
            (
                [0xFFFF_8000, 0x0001_0000, 5],
                *b"CZSO",
                [0x8000_0000, 0xFFFF],
                *b"CZSO",
            ),
            ([0x0001_0000, 0x0001_0000, 5], *b"....", [0, 1], *b"C..O"),
            ([0xB505, 0xB505, 5], *b"CZSO", [0x8000_1219, 0], *b".ZS."),
            ([0xB504, 0xB505, 5], *b"....", [0x7FFF_5D14, 0], *b"...."),
        ],
    ),
    // div ecx
    (
        &[0xF7, 0xF1],
        &[
            ([7, 2, 0], *b"....", [3, 1], *b"...."),
            ([0, 1, 0], *b"CZSO", [0, 0], *b"CZSO"),
            ([0xFFFF_FFFF, 1, 0], *b"....", [0xFFFF_FFFF, 0], *b"...."),
            ([0xFFFF_FFFF, 0xFFFF_FFFF, 0], *b"CZSO", [1, 0], *b"CZSO"),
            (
                [0xFFFF_FFFF, 0x8000_0000, 0x7FFF_FFFF],
                *b"....",
                [0xFFFF_FFFF, 0x7FFF_FFFF],
                *b"....",
            ),
            (
                [0xFFFF_FFFF, 0xFFFF_FFFF, 0xFFFF_FFFE],
                *b"CZSO",
                [0xFFFF_FFFF, 0xFFFF_FFFE],
                *b"CZSO",
            ),
            ([0, 2, 1], *b"....", [0x8000_0000, 0], *b"...."),
            ([0xFFFF_FFFF, 2, 1], *b"CZSO", [0xFFFF_FFFF, 1], *b"CZSO"),
        ],
    ),
];

/// Flags, and for each number of a condition whether a jump under it is taken. 10 and 11 are no
/// conditions here.
pub(crate) const CONDITIONS: &[(&[u8; 4], &[u8; 16])] = &[
    (b"....", b"nynynynyny--nyny"),
    (b"C...", b"nyynnyynny--nyny"),
    (b".Z..", b"nynyynynny--nyyn"),
    (b"CZ..", b"nyynynynny--nyyn"),
    (b"..S.", b"nynynynyyn--ynyn"),
    (b"C.S.", b"nyynnyynyn--ynyn"),
    (b".ZS.", b"nynyynynyn--ynyn"),
    (b"CZS.", b"nyynynynyn--ynyn"),
    (b"...O", b"ynnynynyny--ynyn"),
    (b"C..O", b"ynynnyynny--ynyn"),
    (b".Z.O", b"ynnyynynny--ynyn"),
    (b"CZ.O", b"ynynynynny--ynyn"),
    (b"..SO", b"ynnynynyyn--nyny"),
    (b"C.SO", b"ynynnyynyn--nyny"),
    (b".ZSO", b"ynnyynynyn--nyyn"),
    (b"CZSO", b"ynynynynyn--nyyn"),
];

/// eax, ecx, edx at which `div ecx` traps.
pub(crate) const TRAPS: &[[u32; 3]] = &[
    [0, 0, 0],
    [7, 0, 0],
    [0, 1, 1],
    [0, 0x8000_0000, 0x8000_0000],
    [0xFFFF_FFFF, 0xFFFF_FFFF, 0xFFFF_FFFF],
];
