// What readers give, in whatever pieces their sources come.
use flk_base::MemSource;
use script_text::{AnyEnd, LineEnd, LineReader};
use std::alloc::Global;
use std::test::Fail;

// What a call gives: a line, or how it ends.
enum Step {
    Line(&'static str),
    Long,
    Failed,
    End,
}

fn is_step(reader: &mut LineReader, source: &mut MemSource, wanted: &Step) -> bool {
    let end = reader.next(source);
    match wanted {
        Step::Line(text) => matches!(end, LineEnd::Line) && reader.line() == text.as_bytes(),
        Step::Long => matches!(end, LineEnd::Long) && reader.line().is_empty(),
        Step::Failed => matches!(end, LineEnd::Failed) && reader.line().is_empty(),
        Step::End => matches!(end, LineEnd::End) && reader.line().is_empty(),
    }
}

fn are_steps(reader: &mut LineReader, source: &mut MemSource, wanted: &[Step]) -> bool {
    for step in wanted {
        if !is_step(reader, source, step) {
            return false;
        }
    }
    true
}

// The calls of a new reader of this text, in pieces of so many bytes, with this read failing, give
// these.
fn gives(alloc: Global, text: &[u8], piece: u32, failing: &[u32], wanted: &[Step]) -> bool {
    let Ok(mut source) = MemSource::new(alloc, text, failing, piece.max(1)) else {
        return false;
    };
    let Ok(mut reader) = LineReader::new(alloc) else {
        return false;
    };
    are_steps(&mut reader, &mut source, wanted)
}

// Texts, and what the calls of a new reader give.
const TEXTS: &[(&[u8], &[Step])] = &[
    (b"", &[Step::End, Step::End]),
    (
        b"a\nbb\nccc\n",
        &[
            Step::Line("a"),
            Step::Line("bb"),
            Step::Line("ccc"),
            Step::End,
        ],
    ),
    (
        b"a\nbb\nccc",
        &[
            Step::Line("a"),
            Step::Line("bb"),
            Step::Line("ccc"),
            Step::End,
        ],
    ),
    (
        b"\n\na\n\n",
        &[
            Step::Line(""),
            Step::Line(""),
            Step::Line("a"),
            Step::Line(""),
            Step::End,
        ],
    ),
    (
        b"a\r\n\rb\r",
        &[Step::Line("a\r"), Step::Line("\rb\r"), Step::End],
    ),
    (
        b" \tx\0\n\x7f",
        &[Step::Line(" \tx\0"), Step::Line("\x7f"), Step::End],
    ),
];

#[test]
fn pieces_make_no_difference(rt: HostRuntime) {
    for (i, (text, wanted)) in TEXTS.iter().enumerate() {
        for piece in [1, 7, 65_536] {
            assert!(rt;
                gives(rt.alloc(), text, piece, &[], wanted),
                "row {i} by {piece}"
            );
        }
    }
}

const A: Step = Step::Line("a");

const B: Step = Step::Line("bb");

const C: Step = Step::Line("c");

// How many bytes a read gives at most, which read fails, and what the calls give.
const FAILING: &[(u32, u32, &[Step])] = &[
    (1, 0, &[Step::Failed, A, B, C, Step::End]),
    (1, 2, &[A, Step::Failed, B, C, Step::End]),
    (1, 5, &[A, B, Step::Failed, C, Step::End]),
    (1, 7, &[A, B, C, Step::End]),
    // One read takes the whole source, and a second is made only for the last line.
    (65_536, 1, &[A, B, Step::Failed, C, Step::End]),
];

#[test]
fn goes_on_after_a_fault(rt: HostRuntime) {
    for (i, (piece, read, wanted)) in FAILING.iter().enumerate() {
        assert!(rt;
            gives(rt.alloc(), b"a\nbb\nc", *piece, &[*read], wanted),
            "row {i}"
        );
    }
}

#[test]
fn stops_reading_at_the_end_of_a_line(rt: HostRuntime) -> Result<(), Fail> {
    let mut source = MemSource::new(rt.alloc(), b"a\nbb\nc", &[], 1)?;
    let mut first = LineReader::new(rt.alloc())?;
    assert!(rt; is_step(&mut first, &mut source, &Step::Line("a")));
    let mut second = LineReader::new(rt.alloc())?;
    assert!(rt; is_step(&mut second, &mut source, &Step::Line("bb")));
    assert!(rt; is_step(&mut second, &mut source, &Step::Line("c")));
    Ok(())
}

// So many bytes without an LF and then this text: the first call gives them all as a line.
fn is_line(alloc: Global, count: usize, tail: &[u8], piece: u32) -> bool {
    let Ok(mut bytes) = vec![in alloc; b'x'; count] else {
        return false;
    };
    if bytes.extend_from_slice(tail).is_err() {
        return false;
    }
    let Ok(mut source) = MemSource::new(alloc, &bytes, &[], piece.max(1)) else {
        return false;
    };
    let Ok(mut reader) = LineReader::new(alloc) else {
        return false;
    };
    matches!(reader.next(&mut source), LineEnd::Line) && reader.line().len() == count
}

// The first two calls say that the line is too long.
fn is_long(alloc: Global, count: usize, tail: &[u8], piece: u32) -> bool {
    let Ok(mut bytes) = vec![in alloc; b'x'; count] else {
        return false;
    };
    if bytes.extend_from_slice(tail).is_err() {
        return false;
    }
    gives(alloc, &bytes, piece, &[], &[Step::Long, Step::Long])
}

#[test]
fn longest_line_has_16_384_bytes(rt: HostRuntime) {
    for piece in [1, 7, 65_536] {
        assert!(rt; is_line(rt.alloc(), 16_384, b"\ny", piece), "by {piece}");
        assert!(rt; is_line(rt.alloc(), 16_384, b"", piece), "by {piece}");
        assert!(rt; is_long(rt.alloc(), 16_385, b"\ny", piece), "by {piece}");
        assert!(rt; is_long(rt.alloc(), 16_385, b"", piece), "by {piece}");
        assert!(rt; is_long(rt.alloc(), 90_000, b"", piece), "by {piece}");
    }
}

fn is_line_of(reader: &mut LineReader, source: &mut MemSource, letter: u8) -> bool {
    matches!(reader.next(source), LineEnd::Line)
        && reader.line().len() == 9_999
        && reader.line().iter().all(|c| *c == letter)
}

// Lines of 9,999 bytes each, which stand across the ends of reads and are moved.
#[test]
fn lines_survive_the_move(rt: HostRuntime) -> Result<(), Fail> {
    let mut bytes = Vec::new(rt.alloc());
    for letter in b'a'..=b'z' {
        let line = vec![in rt.alloc(); letter; 9_999]?;
        bytes.extend_from_slice(&line)?;
        bytes.push(b'\n')?;
    }
    let mut source = MemSource::new(rt.alloc(), &bytes, &[], 65_536)?;
    let mut reader = LineReader::new(rt.alloc())?;
    for letter in b'a'..=b'z' {
        assert!(rt;
            is_line_of(&mut reader, &mut source, letter),
            "letter {letter}"
        );
    }
    assert!(rt; is_step(&mut reader, &mut source, &Step::End));
    Ok(())
}

#[test]
fn any_reads_only_where_nothing_is_held(rt: HostRuntime) -> Result<(), Fail> {
    let mut source = MemSource::new(rt.alloc(), b"a\n", &[0, 2], 1)?;
    let mut reader = LineReader::new(rt.alloc())?;
    assert!(rt; matches!(reader.any(&mut source), AnyEnd::Failed));
    assert!(rt; matches!(reader.any(&mut source), AnyEnd::Some));
    assert!(rt; matches!(reader.any(&mut source), AnyEnd::Some));
    assert!(rt; is_step(&mut reader, &mut source, &Step::Failed));
    assert!(rt; is_step(&mut reader, &mut source, &Step::Line("a")));
    assert!(rt; matches!(reader.any(&mut source), AnyEnd::End));
    assert!(rt; reader.line().is_empty());
    assert!(rt; matches!(reader.any(&mut source), AnyEnd::End));
    assert!(rt; is_step(&mut reader, &mut source, &Step::End));
    Ok(())
}
