// Calls from their words and their input to status, out and err.
use crate::start::{StartFault, begin};
use crate::top::flicker;
use flk_base::{MemSink, MemSource};
use flk_run::{Board, SimDisk};
use std::process::Abort;
use std::test::Fail;

// What a call answered and wrote.
#[derive(Drop)]
struct Written {
    status: u8,
    out: MemSink,
    err: MemSink,
}

// The calls that fail, of a source, of out and of err.
#[derive(Clone, Copy)]
struct Faults<'a> {
    reads: &'a [u32],
    puts: &'a [u32],
    messages: &'a [u32],
}

const NONE: Faults<'static> = Faults {
    reads: &[],
    puts: &[],
    messages: &[],
};

fn call(
    rt: &HostRuntime,
    words: &[&str],
    input: &[u8],
    piece: u32,
    faults: Faults<'_>,
) -> Result<Written, Fail> {
    let mut texts = Vec::new(rt.alloc());
    for word in words {
        texts.push(String::from_str(rt.alloc(), *word)?)?;
    }
    let mut source = MemSource::new(rt.alloc(), input, faults.reads, piece.max(1))?;
    let mut out = MemSink::new(rt.alloc(), faults.puts)?;
    let mut err = MemSink::new(rt.alloc(), faults.messages)?;
    let Ok(board) = Board::blank(rt.alloc()) else {
        return Err(Fail::from("no board"));
    };
    let Ok(disk) = SimDisk::blank(rt.alloc()) else {
        board.scrap();
        return Err(Fail::from("no disk"));
    };
    let finished = flicker(
        rt.alloc(),
        &texts,
        &mut source,
        &mut out,
        &mut err,
        board,
        disk,
    );
    let status = finished.exit();
    Ok(Written { status, out, err })
}

#[test]
fn scripts(rt: HostRuntime) -> Result<(), Fail> {
    let rows: [(&str, &str, &str, u8); 18] = [
        ("", "", "", 0),
        (
            "read 17\n",
            "1 ok x:ffffffffffffffffffffffffffffffffffffffff\n",
            "",
            0,
        ),
        (
            "extend 0 x:\nread 0",
            "1 ok\n2 ok x:0f1bdaadb3340e884d0b56a2e18f0e9dbccb8372\n",
            "",
            0,
        ),
        ("extend 24 x:00\n", "1 no register\n", "", 0),
        (
            "read 17\nreed 17\nread 17\n",
            "1 ok x:ffffffffffffffffffffffffffffffffffffffff\n",
            "flicker: line 2: unknown command\n",
            1,
        ),
        ("\n  # note\r\n\tread 0x18 \r\n", "3 no register\n", "", 0),
        ("extend 24 x:\r", "1 no register\n", "", 0),
        ("read 1\x07", "", "flicker: line 1: bad byte\n", 1),
        ("read\n", "", "flicker: line 1: word count\n", 1),
        ("extend 1 y:\n", "", "flicker: line 1: bad expression\n", 1),
        ("read 4294967296\n", "", "flicker: line 1: bad number\n", 1),
        ("extend a b\n", "", "flicker: line 1: bad number\n", 1),
        ("reed \x07\n", "", "flicker: line 1: bad byte\n", 1),
        ("reed 1 2 3\n", "", "flicker: line 1: unknown command\n", 1),
        (
            "let v x:0102\nshow v+rep:ff*2\nshow v[1..2]~0\n",
            "1 ok\n2 ok x:0102ffff\n3 ok x:03\n",
            "",
            0,
        ),
        ("show zz\nextend 0 zz\n", "1 no name\n2 no name\n", "", 0),
        (
            "image m pal 32 1 x:90\nimage m pal 33 1 x:90\nshow m[32..33]\n",
            "1 ok 33\n2 no image 3\n3 ok x:90\n",
            "",
            0,
        ),
        ("let 9 x:\n", "", "flicker: line 1: bad name\n", 1),
    ];
    for (script, out, err, status) in rows {
        let written = call(&rt, &["run"], script.as_bytes(), 5, NONE)?;
        assert_eq!(rt; written.out.contents(), out.as_bytes(), "out of {script:?}");
        assert_eq!(rt; written.err.contents(), err.as_bytes(), "err of {script:?}");
        assert_eq!(rt; written.status, status, "status of {script:?}");
    }
    Ok(())
}

#[test]
fn other_words(rt: HostRuntime) -> Result<(), Fail> {
    let usage = "flicker: usage: flicker run, asm, dis, measure, verify or gen N SEED\n";
    let rows: [&[&str]; 4] = [&[], &["run", "x"], &["Run"], &["--help"]];
    for words in rows {
        let written = call(&rt, words, b"read 17\n", 5, NONE)?;
        assert_eq!(rt; written.out.contents(), b"".as_slice());
        assert_eq!(rt; written.err.contents(), usage.as_bytes());
        assert_eq!(rt; written.status, 2);
    }
    Ok(())
}

#[test]
fn assembles(rt: HostRuntime) -> Result<(), Fail> {
    let rows = [
        ("", "\n"),
        ("mov eax, 1", "b801000000\n"),
        ("add eax, ebx\n", "01d8\n"),
        ("mov eax, [esp+4]", "8b442404\n"),
        ("mov eax, [ebp]", "8b4500\n"),
        ("add eax, 128", "81c080000000\n"),
        ("lea ebx, [esi+72]", "8d5e48\n"),
        ("mov dword [edi], 4", "c70704000000\n"),
        ("l: jmp l\n", "e9fbffffff\n"),
    ];
    for (text, out) in rows {
        let written = call(&rt, &["asm"], text.as_bytes(), 5, NONE)?;
        as_told(&rt, &written, out, "", 0);
    }
    let faults = [
        ("jmp x", "flicker: line 1: unknown label\n"),
        ("a: nop\na: nop\n", "flicker: line 2: label twice\n"),
        ("mov eax, 4294967296", "flicker: line 1: out of range\n"),
        ("nop\nmov eax", "flicker: line 2: bad operand\n"),
        ("\n\nmove eax, 1", "flicker: line 3: unknown word\n"),
        (".zero 49120\nnop", "flicker: line 2: code too long\n"),
    ];
    for (text, err) in faults {
        let written = call(&rt, &["asm"], text.as_bytes(), 5, NONE)?;
        as_told(&rt, &written, "", err, 1);
    }
    Ok(())
}

#[test]
fn lists(rt: HostRuntime) -> Result<(), Fail> {
    let bad = "flicker: bad hex\n";
    let rows = [
        ("", "", "", 0),
        ("ebfe", "jmp 0x20\n", "", 0),
        (" E b\tF\r\ne\n", "jmp 0x20\n", "", 0),
        ("a1", ".byte 161\n", "", 0),
        ("eb", ".byte 235\n", "", 0),
        ("9090c3", "nop\nnop\nret\n", "", 0),
        ("9", "", bad, 1),
        ("90 9g", "", bad, 1),
    ];
    for (code, out, err, status) in rows {
        let written = call(&rt, &["dis"], code.as_bytes(), 3, NONE)?;
        as_told(&rt, &written, out, err, status);
    }
    Ok(())
}

// The two values are those of python3's hashlib: h is sha1(image), and then sha1(bytes(20) + h).
#[test]
fn measures(rt: HostRuntime) -> Result<(), Fail> {
    let image = "20002600464c4b43010000000300000000000000000000000000000000000000 31DB31C0CD80\n";
    let lines = "sha1 44800927802d70c98910c92e5edae2a566c322fd\n\
        launch 125796dbcef09d8f4971141474f0c99b3f85ad30\n";
    let bad = "flicker: bad hex\n";
    let rows = [
        (image, lines, "", 0),
        ("00", "", "flicker: not an image: 1\n", 1),
        ("", "", "flicker: not an image: 1\n", 1),
        ("2", "", bad, 1),
        ("2g", "", bad, 1),
        (
            "20002600464c4b43010000000300000000000000000000000000000000000000",
            "",
            "flicker: not an image: 2\n",
            1,
        ),
    ];
    for (bytes, out, err, status) in rows {
        let written = call(&rt, &["measure"], bytes.as_bytes(), 7, NONE)?;
        as_told(&rt, &written, out, err, status);
    }
    Ok(())
}

// So many copies of a byte.
fn copies(rt: &HostRuntime, byte: u8, count: usize) -> Result<Vec<u8>, Fail> {
    Ok(vec![in rt.alloc(); byte; count]?)
}

#[test]
fn inputs_that_are_too_long(rt: HostRuntime) -> Result<(), Fail> {
    let long = "flicker: input too long\n";
    let rows = [
        ("asm", b' ', 1_048_576, "\n", "", 0),
        ("asm", b' ', 1_048_577, "", long, 1),
        ("dis", b' ', 1_048_576, "", "", 0),
        ("dis", b'g', 1_048_577, "", long, 1),
        ("dis", b'0', 98_242, "", long, 1),
        ("dis", b'0', 98_243, "", "flicker: bad hex\n", 1),
        ("measure", b'g', 1_048_577, "", long, 1),
    ];
    for (command, byte, count, out, err, status) in rows {
        let input = copies(&rt, byte, count)?;
        let written = call(&rt, &[command], &input, 65_536, NONE)?;
        as_told(&rt, &written, out, err, status);
    }
    Ok(())
}

#[test]
fn filters_that_fail(rt: HostRuntime) -> Result<(), Fail> {
    let read = Faults {
        reads: &[1],
        ..NONE
    };
    let put = Faults { puts: &[0], ..NONE };
    let message = Faults {
        messages: &[0],
        ..NONE
    };
    let rows: [Failing<'_>; 4] = [
        ("9090", read, "", "flicker: read fault\n", 3),
        ("9090", put, "", "flicker: write fault\n", 4),
        ("", put, "", "", 0),
        ("9", message, "", "", 4),
    ];
    for (code, faults, out, err, status) in rows {
        let written = call(&rt, &["dis"], code.as_bytes(), 2, faults)?;
        as_told(&rt, &written, out, err, status);
    }
    Ok(())
}

// A call that fails: its script, its faults, what out and err then hold, and the status.
type Failing<'a> = (&'a str, Faults<'a>, &'a str, &'a str, u8);

// What a call wrote and answered is what its row says.
fn as_told(rt: &impl Abort, written: &Written, out: &str, err: &str, status: u8) {
    assert_eq!(rt; written.out.contents(), out.as_bytes());
    assert_eq!(rt; written.err.contents(), err.as_bytes());
    assert_eq!(rt; written.status, status);
}

#[test]
fn reads_that_fail(rt: HostRuntime) -> Result<(), Fail> {
    let ones = "1 ok x:ffffffffffffffffffffffffffffffffffffffff\n";
    let first = Faults {
        reads: &[0],
        ..NONE
    };
    let second = Faults {
        reads: &[1],
        ..NONE
    };
    let silent = Faults {
        messages: &[0],
        ..first
    };
    let rows: [Failing<'_>; 3] = [
        ("read 17\n", first, "", "flicker: read fault\n", 3),
        ("read 17\nread 1", second, ones, "flicker: read fault\n", 3),
        ("read 17\n", silent, "", "", 4),
    ];
    for (script, faults, out, err, status) in rows {
        let written = call(&rt, &["run"], script.as_bytes(), 14, faults)?;
        as_told(&rt, &written, out, err, status);
    }
    Ok(())
}

// Read number n, counted from 0, comes when n bytes were taken: the whole lines among those are done.
#[test]
fn reads_that_fail_anywhere(rt: HostRuntime) -> Result<(), Fail> {
    let script = "extend 0 x:\nread 99\nextend 24 x:\n";
    let rows = [
        (0, 12, ""),
        (12, 20, "1 ok\n"),
        (20, 33, "1 ok\n2 no register\n"),
        (33, 34, "1 ok\n2 no register\n3 no register\n"),
    ];
    for (first, behind, out) in rows {
        for place in first..behind {
            let faults = Faults {
                reads: &[place],
                ..NONE
            };
            let written = call(&rt, &["run"], script.as_bytes(), 1, faults)?;
            as_told(&rt, &written, out, "flicker: read fault\n", 3);
        }
    }
    Ok(())
}

#[test]
fn writes_that_fail(rt: HostRuntime) -> Result<(), Fail> {
    let ones = "1 ok x:ffffffffffffffffffffffffffffffffffffffff\n";
    let line = Faults { puts: &[0], ..NONE };
    let message = Faults {
        messages: &[0],
        ..NONE
    };
    let both = Faults {
        messages: &[0],
        ..line
    };
    let rows: [Failing<'_>; 3] = [
        ("read 17\n", line, "", "flicker: write fault\n", 4),
        ("read 17\nreed", message, ones, "", 4),
        ("read 17\n", both, "", "", 4),
    ];
    for (script, faults, out, err, status) in rows {
        let written = call(&rt, &["run"], script.as_bytes(), 14, faults)?;
        as_told(&rt, &written, out, err, status);
    }
    Ok(())
}

#[test]
fn texts_of_a_start_that_failed(rt: HostRuntime) -> Result<(), Fail> {
    let usage = "flicker: usage: flicker run, asm, dis, measure, verify or gen N SEED";
    let not_text = StartFault::NotText;
    let no_memory = StartFault::NoMemory;
    assert_eq!(rt; format!(in rt.alloc(); "{not_text}")?.as_str(), usage);
    assert_eq!(rt;
        format!(in rt.alloc(); "{no_memory}")?.as_str(),
        "flicker: no memory"
    );
    Ok(())
}

// Whether a call over std's reader and writers in memory ended with 0 and wrote this.
fn is_written(rt: &HostRuntime, word: &str, input: &[u8], wanted: &[u8]) -> Result<bool, Fail> {
    let mut words = Vec::new(rt.alloc());
    words.push(String::from_str(rt.alloc(), word)?)?;
    let mut out = Vec::new(rt.alloc());
    let mut err = Vec::new(rt.alloc());
    let status = begin(rt.alloc(), &words, input, &mut out, &mut err).status;
    Ok(matches!(status, Ok(0)) && out.as_slice() == wanted && err.as_slice().is_empty())
}

#[test]
fn calls_over_std(rt: HostRuntime) -> Result<(), Fail> {
    let rows: [(&str, &[u8], &[u8]); 3] = [
        ("run", b"extend 0 x:\n", b"1 ok\n"),
        ("asm", b"nop", b"90\n"),
        ("dis", b"90", b"nop\n"),
    ];
    for (word, input, wanted) in rows {
        assert!(rt; is_written(&rt, word, input, wanted)?, "{word}");
    }
    Ok(())
}
