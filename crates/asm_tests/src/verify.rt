//! Lines of `verify`, and what is said of them. The quotes are by python3's hashlib and hmac: v is 20
//! bytes 00, extended by each text t in turn, which makes it sha1(v + sha1(t)), of the image, b"pal" +
//! each text, b"in" + inputs, b"out" + outputs, b"end" + bytes([end]) + nonce and b"close"; and the
//! quote is v + hmac(key, b"FLKQ" + nonce + v).

use flk_base::{Bytes, MemSink, MemSource, NoMemory, RunEnd};
use flk_filters::{BadInput, Filter, run_filter};
use std::alloc::Global;

// The words of a line that is true.
const BASE: [&str; 9] = [
    "x:000102030405060708090a0b0c0d0e0f10111213",
    "x:51beb29fd02557aaccfdc7fb15107c2093d7f2b6dcfa24d848e317057cc918b215ec37ce6ffbd8a9",
    "x:696d616765",
    "x:010203",
    "x:06000000",
    "0",
    "x:0707070707070707070707070707070707070707",
    "x:6f6e65",
    "x:74776f",
];

// What is said of a line: yes, no, or that it is none.
#[derive(Clone, Copy, PartialEq)]
enum Said {
    Yes,
    No,
    Bad,
}

// How the call ends, and what it writes.
fn run(alloc: Global, input: &[u8]) -> Result<(RunEnd<BadInput>, MemSink), NoMemory> {
    let mut source = MemSource::new(alloc, input, &[], 65_536)?;
    let mut out = MemSink::new(alloc, &[])?;
    let end = run_filter(alloc, Filter::Verify, &mut source, &mut out);
    Ok((end, out))
}

fn is_said(alloc: Global, input: &[u8], said: Said) -> bool {
    let Ok((end, out)) = run(alloc, input) else {
        return false;
    };
    let (wanted, text): (RunEnd<BadInput>, &[u8]) = match said {
        Said::Yes => (RunEnd::Done, b"yes\n"),
        Said::No => (RunEnd::Bad(BadInput::Denied), b"no\n"),
        Said::Bad => (RunEnd::Bad(BadInput::VerifyLine), b""),
    };
    end == wanted && out.contents() == text
}

// A line of these words, after some bytes and before others.
fn line_of(alloc: Global, before: &str, words: &[&str], after: &str) -> Result<Bytes, NoMemory> {
    let mut line = Bytes::new(alloc);
    line.push_all(before.as_bytes())?;
    for word in words {
        line.push_all(b" ")?;
        line.push_all(word.as_bytes())?;
    }
    line.push_all(after.as_bytes())?;
    Ok(line)
}

fn says(alloc: Global, before: &str, words: &[&str], after: &str, said: Said) -> bool {
    match line_of(alloc, before, words, after) {
        Ok(line) => is_said(alloc, line.as_slice(), said),
        Err(NoMemory) => false,
    }
}

// The line that is true with this word in place of the one at an index.
fn is_row(alloc: Global, at: usize, word: &str, said: Said) -> bool {
    let mut words = BASE;
    if at < words.len() {
        words[at] = word;
    }
    says(alloc, "", &words, "\n", said)
}

const ROWS: &[(usize, &str, Said)] = &[
    (5, "0", Said::Yes),
    (5, "0x0", Said::Yes),
    (5, "0000", Said::Yes),
    (2, "x:69+x:6d616765", Said::Yes),
    (6, "rep:07*20", Said::Yes),
    (6, "rep:07*21[0..20]", Said::Yes),
    (7, "x:6f6e64~2", Said::Yes),
    (0, "x:000102030405060708090a0b0c0d0e0f10111212", Said::No),
    (
        1,
        "x:50beb29fd02557aaccfdc7fb15107c2093d7f2b6dcfa24d848e317057cc918b215ec37ce6ffbd8a9",
        Said::No,
    ),
    (
        1,
        "x:51beb29fd02557aaccfdc7fb15107c2093d7f2b7dcfa24d848e317057cc918b215ec37ce6ffbd8a9",
        Said::No,
    ),
    (
        1,
        "x:51beb29fd02557aaccfdc7fb15107c2093d7f2b6ddfa24d848e317057cc918b215ec37ce6ffbd8a9",
        Said::No,
    ),
    (
        1,
        "x:51beb29fd02557aaccfdc7fb15107c2093d7f2b6dcfa24d848e317057cc918b215ec37ce6ffbd8a8",
        Said::No,
    ),
    (
        1,
        "x:51beb29fd02557aaccfdc7fb15107c2093d7f2b6dcfa24d848e317057cc918b215ec37ce6ffbd8",
        Said::No,
    ),
    (
        1,
        "x:51beb29fd02557aaccfdc7fb15107c2093d7f2b6dcfa24d848e317057cc918b215ec37ce6ffbd8a900",
        Said::No,
    ),
    (1, "x:", Said::No),
    (2, "x:696d616766", Said::No),
    (2, "x:", Said::No),
    (3, "x:010202", Said::No),
    (3, "x:", Said::No),
    (4, "x:060000", Said::No),
    (4, "x:0600000000", Said::No),
    (5, "1", Said::No),
    (5, "2", Said::No),
    (5, "3", Said::No),
    (5, "4", Said::No),
    (5, "5", Said::No),
    (5, "6", Said::No),
    (5, "7", Said::No),
    (5, "8", Said::No),
    (5, "9", Said::No),
    (5, "10", Said::No),
    (5, "255", Said::No),
    (6, "rep:08*20", Said::No),
    (7, "x:74776f", Said::No),
    (8, "x:6f6e65", Said::No),
    (8, "x:", Said::No),
    (8, "x:74776f x:", Said::No),
    (7, "", Said::No),
    (8, "", Said::No),
    (7, "x:6f6e65+x:74776f", Said::No),
    (0, "x:000102030405060708090a0b0c0d0e0f101112", Said::Bad),
    (0, "x:000102030405060708090a0b0c0d0e0f1011121300", Said::Bad),
    (6, "rep:07*19", Said::Bad),
    (6, "rep:07*21", Said::Bad),
    (6, "", Said::Bad),
    (0, "", Said::Bad),
    (5, "256", Said::Bad),
    (5, "-1", Said::Bad),
    (5, "0x100", Said::Bad),
    (5, "4294967296", Said::Bad),
    (5, "x:00", Said::Bad),
    (1, "q", Said::Bad),
    (2, "#", Said::Bad),
    (3, "x:0", Said::Bad),
    (4, "x:06000000[0..5]", Said::Bad),
    (8, "two", Said::Bad),
    (8, "x:74\n776f", Said::Bad),
    (8, "x:7477\r6f", Said::Bad),
    (8, "rep:00*65537", Said::Bad),
];

#[test]
fn words_of_a_line(rt: HostRuntime) {
    for (i, (at, word, said)) in ROWS.iter().enumerate() {
        assert!(rt; is_row(rt.alloc(), *at, word, *said), "row {i}");
    }
}

// Each end by its byte, and the quote of a session that ended so.
const ENDS: &[(&str, &str)] = &[
    (
        "0",
        "x:51beb29fd02557aaccfdc7fb15107c2093d7f2b6dcfa24d848e317057cc918b215ec37ce6ffbd8a9",
    ),
    (
        "1",
        "x:ce4654393856e68f40d9dbefc6012b8690cdde8f8cd09cbcd552f671d765c605a7754ac7876cabe1",
    ),
    (
        "2",
        "x:ea0b5487cb6edc2219d97b54bb1dede57019cb35a691be13b22744e92b5fc7f9def9dd89e42ae668",
    ),
    (
        "3",
        "x:d002ed345208e35c3010d18676f005d89f1f861d4de250d6c3715a32ae2dd43c710362f836717b17",
    ),
    (
        "4",
        "x:83e2652d313df11a7c9d76288afb71fcb03b9739f814d96bc784ac2be3b9dedb6c939891c6040bee",
    ),
    (
        "5",
        "x:459d48529bbd6765271b846a28d491b38bae5dae96a65c338e5629ced2e82d8f06ffe0bf43a5cd13",
    ),
    (
        "6",
        "x:6122447abec0183114413d0656cdfc2a70543eedd8047c12c601fbae2bfaeb1109b630fb3f8f2abf",
    ),
    (
        "7",
        "x:c3bb244b4be7deee6855ade66ff043635f199b78f3b5f8c07e3853cfdd639f4dfade1b8250728c59",
    ),
    (
        "8",
        "x:47358c5aabd8394ca1d8e9f1f436cd0f8e0917b1e4860df467091f921bf228c42763c95aeb888318",
    ),
    (
        "9",
        "x:163681b9f96d986e781f8f72ebf4b79dcafed86c37b8b256050695cdff2693332c8130f5b98e32c4",
    ),
    (
        "10",
        "x:843d1ca422b9817ad658d04b250fad3ef46dfdcca805e96700d303f98b12137188beab104d3d7bd4",
    ),
    (
        "255",
        "x:49f496c5dd5705b862634ebaacb1b7c624ff0189805a9e5fe43d8879faa7422eb4d415777200eea3",
    ),
];

fn is_end(alloc: Global, end: &str, quote: &str) -> bool {
    let words = [
        BASE[0], quote, BASE[2], BASE[3], BASE[4], end, BASE[6], BASE[7], BASE[8],
    ];
    says(alloc, "", &words, "", Said::Yes)
}

#[test]
fn ends(rt: HostRuntime) {
    for (i, (end, quote)) in ENDS.iter().enumerate() {
        assert!(rt; is_end(rt.alloc(), end, quote), "row {i}");
    }
}

// What stands before and after the words.
const AROUND: &[(&str, &str, Said)] = &[
    ("", "", Said::Yes),
    ("", "\n", Said::Yes),
    ("", "\r\n", Said::Yes),
    ("", "\r", Said::Yes),
    ("\t ", " \t\n", Said::Yes),
    ("", "\n\n", Said::Bad),
    ("\n", "\n", Said::Bad),
    ("", "\r\r\n", Said::Bad),
    ("", "\n\r", Said::Bad),
    ("#", "\n", Said::Bad),
    ("verify", "\n", Said::Bad),
];

#[test]
fn around_a_line(rt: HostRuntime) {
    for (i, (before, after, said)) in AROUND.iter().enumerate() {
        assert!(rt; says(rt.alloc(), before, &BASE, after, *said), "row {i}");
    }
}

#[test]
fn few_words(rt: HostRuntime) {
    for count in 0..7 {
        assert!(rt;
            says(rt.alloc(), "", &BASE[..count], "\n", Said::Bad),
            "{count} words"
        );
    }
    assert!(rt;
        says(rt.alloc(), "", &BASE[..7], "\n", Said::No),
        "seven words"
    );
}

// Whether so many spaces are refused for this reason, and nothing is written.
fn is_refused(alloc: Global, count: usize, wanted: BadInput) -> bool {
    let Ok(spaces) = vec![in alloc; b' '; count] else {
        return false;
    };
    match run(alloc, &spaces) {
        Ok((end, out)) => end == RunEnd::Bad(wanted) && out.contents().is_empty(),
        Err(NoMemory) => false,
    }
}

#[test]
fn long_inputs(rt: HostRuntime) {
    let most = 1_048_576;
    assert!(rt;
        is_refused(rt.alloc(), most, BadInput::VerifyLine),
        "the most"
    );
    assert!(rt;
        is_refused(rt.alloc(), most + 1, BadInput::TooLong),
        "one more"
    );
}
