//! Inputs of the filters, and what is made of them.

use flk_base::{MemSink, MemSource, NoMemory, RunEnd};
use flk_filters::{BadInput, Filter, run_filter};
use std::alloc::Global;

/// How the call ends, and what it writes, where each read gives three bytes.
fn run(
    alloc: Global,
    filter: Filter,
    input: &str,
) -> Result<(RunEnd<BadInput>, MemSink), NoMemory> {
    let mut source = MemSource::new(alloc, input.as_bytes(), &[], 3)?;
    let mut out = MemSink::new(alloc, &[])?;
    let end = run_filter(alloc, filter, &mut source, &mut out);
    Ok((end, out))
}

fn gives_text(alloc: Global, filter: Filter, input: &str, text: &str) -> bool {
    match run(alloc, filter, input) {
        Ok((RunEnd::Done, out)) => out.contents() == text.as_bytes(),
        _ => false,
    }
}

const TEXTS: &[(Filter, &str, &str)] = &[
    (Filter::Asm, "", "\n"),
    (
        Filter::Asm,
        "again: dec ecx\njnz again\n",
        "490f85f9ffffff\n",
    ),
    (Filter::Dis, "", ""),
    (
        Filter::Dis,
        "49 0F85 f9\tffffff\r\na1",
        "dec ecx\njne 0x20\n.byte 161\n",
    ),
    // The values are those of python3's hashlib: h is sha1(image), and then sha1(bytes(20) + h).
    (
        Filter::Measure,
        "20002600464c4b43010000000300000000000000000000000000000000000000 31DB31C0CD80\n",
        "sha1 44800927802d70c98910c92e5edae2a566c322fd\n\
         launch 125796dbcef09d8f4971141474f0c99b3f85ad30\n",
    ),
];

#[test]
fn texts(rt: HostRuntime) {
    for (i, (filter, input, text)) in TEXTS.iter().enumerate() {
        assert!(rt; gives_text(rt.alloc(), *filter, input, text), "row {i}");
    }
}

fn is_bad_hex(alloc: Global, filter: Filter, input: &str) -> bool {
    match run(alloc, filter, input) {
        Ok((RunEnd::Bad(BadInput::Hex), out)) => out.contents().is_empty(),
        _ => false,
    }
}

const BAD_HEX: &[(Filter, &str)] = &[
    (Filter::Dis, "9"),
    (Filter::Dis, "9g"),
    (Filter::Measure, "x:"),
];

#[test]
fn bad_hex(rt: HostRuntime) {
    for (i, (filter, input)) in BAD_HEX.iter().enumerate() {
        assert!(rt; is_bad_hex(rt.alloc(), *filter, input), "row {i}");
    }
}
