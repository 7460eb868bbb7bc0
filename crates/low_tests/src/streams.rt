// The source and the sink in memory, and how any source and sink is asked row by row.
use flk_base::{Failed, MemSink, MemSource, PutFault, Sink, Source};
use std::alloc::Global;

// What a read is to answer, and the count of faults after it.
pub(crate) type ReadRow = (Result<usize, Failed>, u64);

// A piece, what its put is to answer, and the count of faults after it.
pub(crate) type PutRow<'a> = (&'a [u8], Result<(), PutFault>, u64);

// Whether a read into the buffer for each row answers and counts as it says, and they give these
// bytes in all.
pub(crate) fn reads<S: Source>(
    source: &mut S,
    buf: &mut [u8],
    rows: &[ReadRow],
    bytes: &[u8],
) -> bool {
    let mut left = bytes;
    for (answer, faults) in rows {
        if buf.is_empty() {
            return false;
        }
        let read = source.read(buf);
        if read != *answer || source.faults() != *faults {
            return false;
        }
        if let Ok(count) = read {
            if !left.starts_with(&buf[..count]) {
                return false;
            }
            left = &left[count..];
        }
    }
    left.is_empty()
}

// Whether a put for each row answers and counts as it says.
pub(crate) fn puts<S: Sink>(sink: &mut S, rows: &[PutRow<'_>]) -> bool {
    for (piece, answer, faults) in rows {
        if sink.put(*piece) != *answer || sink.faults() != *faults {
            return false;
        }
    }
    true
}

// Whether a source in memory answers reads into a buffer of four bytes as the rows say.
fn is_source(alloc: Global, failing: &[u32], piece: u32, rows: &[ReadRow]) -> bool {
    let bytes = b"abcdefg".as_slice();
    match MemSource::new(alloc, bytes, failing, piece.max(1)) {
        Ok(mut source) => reads(&mut source, &mut [0; 4], rows, bytes),
        Err(_) => false,
    }
}

#[test]
fn source_in_memory(rt: HostRuntime) {
    let rows: [(&[u32], u32, &[ReadRow]); 2] = [
        (
            &[1, 3],
            3,
            &[
                (Ok(3), 0),
                (Err(Failed), 1),
                (Ok(3), 1),
                (Err(Failed), 2),
                (Ok(1), 2),
                (Ok(0), 2),
            ],
        ),
        (&[], 9, &[(Ok(4), 0), (Ok(3), 0), (Ok(0), 0)]),
    ];
    for (i, (failing, piece, reads)) in rows.iter().enumerate() {
        assert!(rt; is_source(rt.alloc(), *failing, *piece, *reads), "row {i}");
    }
}

// Whether a sink in memory answers puts as the rows say, and holds these bytes then.
fn is_sink(alloc: Global, failing: &[u32], rows: &[PutRow<'_>], contents: &[u8]) -> bool {
    match MemSink::new(alloc, failing) {
        Ok(mut sink) => puts(&mut sink, rows) && sink.contents() == contents,
        Err(_) => false,
    }
}

const PUTS: [PutRow<'static>; 4] = [
    (b"abc", Ok(()), 0),
    (b"de", Err(PutFault::Failed), 1),
    (b"", Ok(()), 1),
    (b"fg", Ok(()), 1),
];

#[test]
fn sink_in_memory(rt: HostRuntime) {
    assert!(rt; is_sink(rt.alloc(), &[1], &PUTS, b"abcfg"), "sink");
}
