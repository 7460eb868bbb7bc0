// That the edges ask std once a call and report what it answered, also where it fails: no contract
// says when std fails.
use crate::streams::{PutRow, ReadRow, puts, reads};
use flk_base::{Failed, PutFault, StdSink, StdSource};
use std::alloc::Global;
use std::io;
use std::io::{ErrorKind, Read, Write};

// What one call of the outside does: it moves at most so many bytes, or it fails.
type Turn = Option<usize>;

// A reader and a writer of std whose calls do what the turns say, and fail when those are over.
// Each flush fails.
#[derive(Drop)]
struct Outside<'a, T> {
    inner: T,
    turns: &'a [Turn],
    fault: ErrorKind,
    calls: usize,
    flushes: usize,
}

impl<T> Outside<'_, T> {
    // How many bytes this call may move.
    fn turn(&mut self) -> io::Result<usize> {
        let call = self.calls;
        self.calls = call.saturating_add(1);
        match self.turns.get(call) {
            Some(Some(most)) => Ok(*most),
            _ => Err(io::Error::from(self.fault)),
        }
    }
}

impl<T: Read> Read for Outside<'_, T> {
    fn read(&mut self, buf: &mut [u8]) -> io::Result<usize> {
        let count = self.turn()?.min(buf.len());
        self.inner.read(&mut buf[..count])
    }
}

impl<T: Write> Write for Outside<'_, T> {
    fn write(&mut self, buf: &[u8]) -> io::Result<usize> {
        let count = self.turn()?.min(buf.len());
        self.inner.write(&buf[..count])
    }

    fn flush(&mut self) -> io::Result<()> {
        self.flushes = self.flushes.saturating_add(1);
        Err(io::Error::from(self.fault))
    }
}

// std tries some of these again in its own loops.
const FAULTS: [ErrorKind; 4] = [
    ErrorKind::Other,
    ErrorKind::Interrupted,
    ErrorKind::WouldBlock,
    ErrorKind::BrokenPipe,
];

// Whether reads answer as the rows say, each by one read of a reader that does what the turns say.
fn is_read(
    buf: &mut [u8],
    fault: ErrorKind,
    turns: &[Turn],
    rows: &[ReadRow],
    bytes: &[u8],
) -> bool {
    let mut outside = Outside {
        inner: b"abcdefgh".as_slice(),
        turns,
        fault,
        calls: 0,
        flushes: 0,
    };
    reads(&mut StdSource::new(&mut outside), buf, rows, bytes) && outside.calls == rows.len()
}

// What the reader does, what the reads are to answer, and the bytes that they give.
type SourceRow<'a> = (&'a [Turn], &'a [ReadRow], &'a [u8]);

const SOURCE_ROWS: [SourceRow<'static>; 4] = [
    // to its end
    (
        &[Some(9), Some(9), Some(9)],
        &[(Ok(4), 0), (Ok(4), 0), (Ok(0), 0)],
        b"abcdefgh",
    ),
    // an error, and then bytes
    (
        &[None, Some(2), None, None, Some(1)],
        &[
            (Err(Failed), 1),
            (Ok(2), 1),
            (Err(Failed), 2),
            (Err(Failed), 3),
            (Ok(1), 3),
        ],
        b"abc",
    ),
    // an end, and then bytes
    (
        &[Some(0), Some(2), Some(0), Some(0), Some(1)],
        &[(Ok(0), 0), (Ok(2), 0), (Ok(0), 0), (Ok(0), 0), (Ok(1), 0)],
        b"abc",
    ),
    // an end and an error
    (
        &[Some(0), None, Some(0), Some(1)],
        &[(Ok(0), 0), (Err(Failed), 1), (Ok(0), 1), (Ok(1), 1)],
        b"a",
    ),
];

// Whether reads answer as the row says, at each kind of error.
fn is_source_row(row: &SourceRow<'_>) -> bool {
    for fault in FAULTS {
        if !is_read(&mut [0; 4], fault, row.0, row.1, row.2) {
            return false;
        }
    }
    true
}

#[test]
fn source_over_a_reader(rt: HostRuntime) {
    for (i, row) in SOURCE_ROWS.iter().enumerate() {
        assert!(rt; is_source_row(row), "row {i}");
    }
}

// Whether puts answer as the rows say, by so many writes and no flush of a writer that does what
// the turns say, and these bytes stand after them.
fn is_put(
    alloc: Global,
    fault: ErrorKind,
    turns: &[Turn],
    rows: &[PutRow<'_>],
    writes: usize,
    wanted: &[u8],
) -> bool {
    let mut contents = Vec::new(alloc);
    let mut outside = Outside {
        inner: &mut contents,
        turns,
        fault,
        calls: 0,
        flushes: 0,
    };
    let is_right = puts(&mut StdSink::new(&mut outside), rows)
        && outside.calls == writes
        && outside.flushes == 0;
    is_right && contents.as_slice() == wanted
}

const FAILED: Result<(), PutFault> = Err(PutFault::Failed);

// What the writer does, the puts, how many writes those are, and what stands after them.
type SinkRow<'a> = (&'a [Turn], &'a [PutRow<'a>], usize, &'a [u8]);

const SINK_ROWS: [SinkRow<'static>; 7] = [
    // a piece without bytes
    (&[], &[(b"", Ok(()), 0)], 0, b""),
    // whole pieces
    (
        &[Some(9), Some(2), Some(9)],
        &[(b"abc", Ok(()), 0), (b"", Ok(()), 0), (b"de", Ok(()), 0)],
        2,
        b"abcde",
    ),
    // one byte a write
    (
        &[Some(1); 6],
        &[(b"abc", Ok(()), 0), (b"de", Ok(()), 0), (b"f", Ok(()), 0)],
        6,
        b"abcdef",
    ),
    // an error, and then a whole piece
    (
        &[None, Some(9), Some(9)],
        &[(b"abc", FAILED, 1), (b"de", Ok(()), 1)],
        2,
        b"de",
    ),
    // an error after the first byte of the second piece
    (
        &[Some(3), Some(1), None, Some(9)],
        &[(b"abc", Ok(()), 0), (b"de", FAILED, 1), (b"f", Ok(()), 1)],
        4,
        b"abcdf",
    ),
    // errors alone
    (
        &[None, None, None],
        &[(b"abc", FAILED, 1), (b"", Ok(()), 1), (b"f", FAILED, 2)],
        2,
        b"",
    ),
    // nothing is taken, and then all
    (
        &[Some(0), Some(0), Some(9)],
        &[(b"abc", FAILED, 1), (b"d", FAILED, 2), (b"ef", Ok(()), 2)],
        3,
        b"ef",
    ),
];

// Whether puts answer as the row says, at each kind of error.
fn is_sink_row(alloc: Global, row: &SinkRow<'_>) -> bool {
    for fault in FAULTS {
        if !is_put(alloc, fault, row.0, row.1, row.2, row.3) {
            return false;
        }
    }
    true
}

#[test]
fn sink_over_a_writer(rt: HostRuntime) {
    for (i, row) in SINK_ROWS.iter().enumerate() {
        assert!(rt; is_sink_row(rt.alloc(), row), "row {i}");
    }
}

// Whether one read and one put move a piece of so many bytes at once.
fn is_moved(alloc: Global, size: usize) -> bool {
    let Ok(mut piece) = Vec::from_elem(alloc, 7u8, size) else {
        return false;
    };
    let turns = [Some(size), Some(size)];
    let put = [(piece.as_slice(), Ok(()), 0)];
    let is_written = is_put(
        alloc,
        ErrorKind::Other,
        &turns[..1],
        &put,
        1,
        piece.as_slice(),
    );
    let rows = [(Ok(8), 0), (Ok(0), 0)];
    is_written
        && is_read(
            piece.as_mut_slice(),
            ErrorKind::Other,
            &turns,
            &rows,
            b"abcdefgh",
        )
}

// Longer than what the program reads and writes at once.
#[test]
fn large_pieces(rt: HostRuntime) {
    for size in [101, 70_001, 1_100_000] {
        assert!(rt; is_moved(rt.alloc(), size), "size {size}");
    }
}
