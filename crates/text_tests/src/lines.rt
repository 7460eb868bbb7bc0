// Lines and what they ask for: each fault once, and two faults in one line, of which the first is
// reported.
use expr_text::{Expr, ExprError, ExprFault, Exprs, Vars};
use flk_base::Bytes;
use script_text::{Event, LineError, LineFault, read_line};
use std::alloc::Global;
use std::test::Fail;

// An event: its command, its numbers, the name that it binds, and its expression.
#[derive(Drop)]
struct Asked<'e> {
    command: &'static str,
    numbers: [u32; 3],
    name: &'e [u8],
    value: Option<&'e Expr>,
}

fn of_numbers(command: &'static str, first: u32, second: u32) -> Asked<'static> {
    Asked {
        command,
        numbers: [first, second, 0],
        name: b"",
        value: None,
    }
}

fn of_all<'e>(
    command: &'static str,
    numbers: [u32; 3],
    name: &'e [u8],
    value: &'e Expr,
) -> Asked<'e> {
    Asked {
        command,
        numbers,
        name,
        value: Some(value),
    }
}

fn of_value<'e>(command: &'static str, first: u32, value: &'e Expr) -> Asked<'e> {
    of_all(command, [first, 0, 0], b"", value)
}

// A command with a name that may be missing, and with its first expression, if it has one.
fn of_binding<'e>(
    command: &'static str,
    numbers: [u32; 3],
    var: &'e Option<Bytes>,
    value: Option<&'e Expr>,
) -> Asked<'e> {
    Asked {
        command,
        numbers,
        name: match var {
            Some(name) => name.as_slice(),
            None => b"",
        },
        value,
    }
}

fn of_event(event: &Event) -> Asked<'_> {
    match event {
        Event::Blank => of_numbers("", 0, 0),
        Event::Extend { r, text } => of_value("extend", *r, text),
        Event::Read { r } => of_numbers("read", *r, 0),
        Event::Let { var, value } => of_all("let", [0, 0, 0], var.as_slice(), value),
        Event::Show { value } => of_value("show", 0, value),
        Event::Image {
            var,
            job,
            entry,
            budget,
            code,
        } => of_all(
            "image",
            [u32::from(*job), *entry, *budget],
            var.as_slice(),
            code,
        ),
        Event::Take { n } => of_numbers("take", *n, 0),
        Event::Give { at } => of_numbers("give", *at, 0),
        Event::Poke { at, bytes } => of_value("poke", *at, bytes),
        Event::Peek { at, len } => of_numbers("peek", *at, *len),
        Event::Dma { at, bytes } => of_value("dma", *at, bytes),
        Event::SetReg { reg, n } => of_numbers("reg", u32::from(*reg), *n),
        Event::Regs => of_numbers("regs", 0, 0),
        Event::Arm { turn, at, bytes } => of_all("arm", [*turn, *at, 0], b"", bytes),
        Event::Session { image, var, .. } => of_binding("session", [0, 0, 0], var, Some(image)),
        Event::Seed { seed } => of_value("seed", 0, seed),
        Event::Unseal { blob, var } => of_binding("unseal", [0, 0, 0], var, Some(blob)),
        Event::Counter { id } => of_numbers("counter", *id, 0),
        Event::Random { var } => of_binding("random", [0, 0, 0], var, None),
        Event::Quote { nonce, var } => of_binding("quote", [0, 0, 0], var, Some(nonce)),
        Event::Check { quote, end, .. } => of_value("check", *end, quote),
        Event::Slot { j, s, var } => of_binding("slot", [*j, *s, 0], var, None),
        Event::Overwrite { j, s, blob } => of_all("overwrite", [*j, *s, 0], b"", blob),
    }
}

// The expression, where there is one, is worth these bytes, with no name bound.
fn is_worth(alloc: Global, value: Option<&Expr>, wanted: &[u8]) -> bool {
    let Some(value) = value else {
        return wanted.is_empty();
    };
    match value.value(alloc, &Vars::new(alloc)) {
        Ok(bytes) => bytes.as_slice() == wanted,
        Err(_) => false,
    }
}

type Row = (
    &'static str,
    &'static str,
    [u32; 3],
    &'static str,
    &'static [u8],
);

fn is_row(alloc: Global, row: &Row) -> bool {
    let Ok(event) = read_line(alloc, row.0.as_bytes()) else {
        return false;
    };
    let asked = of_event(&event);
    asked.command == row.1
        && asked.numbers == row.2
        && asked.name == row.3.as_bytes()
        && is_worth(alloc, asked.value, row.4)
}

// Lines, and what they ask for.
const GOOD: &[Row] = &[
    ("", "", [0, 0, 0], "", &[]),
    (" \t ", "", [0, 0, 0], "", &[]),
    ("\r", "", [0, 0, 0], "", &[]),
    ("# read 1 2 3", "", [0, 0, 0], "", &[]),
    ("  #", "", [0, 0, 0], "", &[]),
    ("read 17", "read", [17, 0, 0], "", &[]),
    ("read 17\r", "read", [17, 0, 0], "", &[]),
    ("\tread\t 0x11 ", "read", [17, 0, 0], "", &[]),
    ("read 0017", "read", [17, 0, 0], "", &[]),
    ("read 4294967295", "read", [4_294_967_295, 0, 0], "", &[]),
    ("read 0xFFffFFff", "read", [4_294_967_295, 0, 0], "", &[]),
    ("extend 0 x:", "extend", [0, 0, 0], "", &[]),
    ("extend 24 x:0aFf", "extend", [24, 0, 0], "", &[10, 255]),
    ("let rep x:0102", "let", [0, 0, 0], "rep", &[1, 2]),
    ("show rep:0a*2~1", "show", [0, 0, 0], "", &[10, 11]),
    ("image m job 0x20 3 x:90", "image", [1, 32, 3], "m", &[144]),
    ("image m pal 32 3 x:", "image", [0, 32, 3], "m", &[]),
    ("take 0", "take", [0, 0, 0], "", &[]),
    ("take 4", "take", [4, 0, 0], "", &[]),
    ("give 0x1000", "give", [4096, 0, 0], "", &[]),
    (
        "poke 4096 x:0a+rep:00*1",
        "poke",
        [4096, 0, 0],
        "",
        &[10, 0],
    ),
    ("poke 0 x:", "poke", [0, 0, 0], "", &[]),
    ("peek 4096 65537", "peek", [4096, 65_537, 0], "", &[]),
    ("peek 0 0", "peek", [0, 0, 0], "", &[]),
    ("dma 1 x:01", "dma", [1, 0, 0], "", &[1]),
    ("dma 0 rep:ff*3", "dma", [0, 0, 0], "", &[255, 255, 255]),
    ("reg eax 0", "reg", [0, 0, 0], "", &[]),
    ("reg ecx 4294967295", "reg", [1, 4_294_967_295, 0], "", &[]),
    ("reg edx 2", "reg", [2, 2, 0], "", &[]),
    ("reg ebx 7", "reg", [3, 7, 0], "", &[]),
    ("reg esp 1", "reg", [4, 1, 0], "", &[]),
    ("reg ebp 0x10", "reg", [5, 16, 0], "", &[]),
    ("reg esi 1", "reg", [6, 1, 0], "", &[]),
    ("\treg  edi 1\r", "reg", [7, 1, 0], "", &[]),
    ("regs", "regs", [0, 0, 0], "", &[]),
    ("arm 1 2 x:00", "arm", [1, 2, 0], "", &[0]),
    ("session x:01 x:02 x:03", "session", [0, 0, 0], "", &[1]),
    ("session x:01 x: x: out", "session", [0, 0, 0], "out", &[1]),
];

#[test]
fn good_lines(rt: HostRuntime) {
    for (i, row) in GOOD.iter().enumerate() {
        assert!(rt; is_row(rt.alloc(), row), "row {i}");
    }
}

// Lines for the device alone, and what they ask for.
const GOOD_OF_DEVICES: &[Row] = &[
    ("seed rep:5a*3", "seed", [0, 0, 0], "", &[90, 90, 90]),
    ("unseal x:0102", "unseal", [0, 0, 0], "", &[1, 2]),
    ("unseal x: secret\r", "unseal", [0, 0, 0], "secret", &[]),
    ("counter 0", "counter", [0, 0, 0], "", &[]),
    ("counter 256", "counter", [256, 0, 0], "", &[]),
    (
        "counter 4294967295",
        "counter",
        [4_294_967_295, 0, 0],
        "",
        &[],
    ),
    ("\tcounter  0x10\r", "counter", [16, 0, 0], "", &[]),
    ("random", "random", [0, 0, 0], "", &[]),
    (" random\t\r", "random", [0, 0, 0], "", &[]),
    (
        "random abcdefghijklmnop",
        "random",
        [0, 0, 0],
        "abcdefghijklmnop",
        &[],
    ),
    ("quote x:0102", "quote", [0, 0, 0], "", &[1, 2]),
    ("\tquote  rep:07*2 q\r", "quote", [0, 0, 0], "q", &[7, 7]),
    ("check x:01 x: x: x: 0 x:", "check", [0, 0, 0], "", &[1]),
    (
        "\tcheck x:01 x: x: x: 0x100  x: x:02\r",
        "check",
        [256, 0, 0],
        "",
        &[1],
    ),
    (
        "check x: x:01 x: x: 4294967295 x: x:02 x:03",
        "check",
        [4_294_967_295, 0, 0],
        "",
        &[],
    ),
];

#[test]
fn good_device_lines(rt: HostRuntime) {
    for (i, row) in GOOD_OF_DEVICES.iter().enumerate() {
        assert!(rt; is_row(rt.alloc(), row), "row {i}");
    }
}

// Lines for the disk, and what they ask for.
const GOOD_OF_DISKS: &[Row] = &[
    ("slot 0 1", "slot", [0, 1, 0], "", &[]),
    ("slot 0 1 v", "slot", [0, 1, 0], "v", &[]),
    ("\tslot  7 0x2 \r", "slot", [7, 2, 0], "", &[]),
    (
        "slot 4294967295 8 abcdefghijklmnop",
        "slot",
        [4_294_967_295, 8, 0],
        "abcdefghijklmnop",
        &[],
    ),
    ("overwrite 0 1 x:00", "overwrite", [0, 1, 0], "", &[0]),
    ("overwrite 8 2 x:", "overwrite", [8, 2, 0], "", &[]),
    (
        "\toverwrite  0x7 0 rep:5a*2~1\r",
        "overwrite",
        [7, 0, 0],
        "",
        &[90, 91],
    ),
];

#[test]
fn good_disk_lines(rt: HostRuntime) {
    for (i, row) in GOOD_OF_DISKS.iter().enumerate() {
        assert!(rt; is_row(rt.alloc(), row), "row {i}");
    }
}

// The line asks for a session with these inputs and this nonce.
fn is_session(alloc: Global, line: &str, inputs: &[u8], nonce: &[u8]) -> bool {
    match read_line(alloc, line.as_bytes()) {
        Ok(
            Event::Session {
                inputs: x,
                nonce: y,
                ..
            },
        ) => is_worth(alloc, Some(&x), inputs) && is_worth(alloc, Some(&y), nonce),
        _ => false,
    }
}

#[test]
fn sessions(rt: HostRuntime) {
    let rows = ["session x:01 x:02 x:03", "session x:01 x:02 x:03 out"];
    for (i, line) in rows.iter().enumerate() {
        assert!(rt; is_session(rt.alloc(), line, &[2], &[3]), "row {i}");
    }
}

// The expressions are as many as these bytes, and each is worth them, with no name bound.
fn are_worth(alloc: Global, texts: &Exprs, wanted: &[&[u8]]) -> bool {
    texts.len() == wanted.len()
        && wanted
            .iter()
            .enumerate()
            .all(|(i, bytes)| is_worth(alloc, texts.get(i), bytes))
}

// The line asks to check a quote of an image 2, of inputs 3, outputs 4, a nonce 6 and these texts.
fn is_check(alloc: Global, line: &[u8], wanted: &[&[u8]]) -> bool {
    match read_line(alloc, line) {
        Ok(
            Event::Check {
                image,
                inputs,
                outputs,
                nonce,
                texts,
                ..
            },
        ) => {
            is_worth(alloc, Some(&image), &[2])
                && is_worth(alloc, Some(&inputs), &[3])
                && is_worth(alloc, Some(&outputs), &[4])
                && is_worth(alloc, Some(&nonce), &[6])
                && are_worth(alloc, &texts, wanted)
        }
        _ => false,
    }
}

// Lines of one quote, and the texts that they name.
const CHECKS: &[(&str, &[&[u8]])] = &[
    ("check x:01 x:02 x:03 x:04 5 x:06", &[]),
    ("check x:01 x:02 x:03 x:04 5 x:06 \t\r", &[]),
    ("check x:01 x:02 x:03 x:04 5 x:06 x:", &[&[]]),
    ("check x:01 x:02 x:03 x:04 5 x:06 x:0708", &[&[7, 8]]),
    (
        "check x:01 x:02 x:03 x:04 5 x:06 x:07 x: rep:08*2 x:07",
        &[&[7], &[], &[8, 8], &[7]],
    ),
    (
        "check x:01 x:02 x:03 x:04 5 x:06 x:06 x:05 x:04 x:03 x:02 x:01 x:00",
        &[&[6], &[5], &[4], &[3], &[2], &[1], &[0]],
    ),
];

#[test]
fn checks(rt: HostRuntime) {
    for (i, (line, texts)) in CHECKS.iter().enumerate() {
        assert!(rt; is_check(rt.alloc(), line.as_bytes(), texts), "row {i}");
    }
}

// A line that checks a quote with so many texts `x:`.
fn check_of(alloc: Global, count: usize) -> Result<Vec<u8>, Fail> {
    let mut line = Vec::new(alloc);
    line.extend_from_slice(b"check x: x: x: x: 0 x:")?;
    for _i in 0..count {
        line.extend_from_slice(b" x:")?;
    }
    Ok(line)
}

// The line is read as one that checks a quote with so many texts.
fn has_texts(alloc: Global, line: &[u8], count: usize) -> bool {
    match read_line(alloc, line) {
        Ok(Event::Check { texts, .. }) => texts.len() == count,
        _ => false,
    }
}

#[test]
fn most_texts(rt: HostRuntime) -> Result<(), Fail> {
    let mut line = check_of(rt.alloc(), 5_454)?;
    assert!(rt; line.len() == 16_384);
    assert!(rt; has_texts(rt.alloc(), &line, 5_454));
    line[16_383] = b';';
    assert!(rt; is_bad(rt.alloc(), &line, LineFault::Expression));
    line.push(b' ')?;
    assert!(rt; is_bad(rt.alloc(), &line, LineFault::LongLine));
    Ok(())
}

// The expression of the line has this fault where no name is bound.
fn is_worthless(alloc: Global, line: &str, fault: ExprFault) -> bool {
    let Ok(event) = read_line(alloc, line.as_bytes()) else {
        return false;
    };
    let Some(value) = of_event(&event).value else {
        return false;
    };
    match value.value(alloc, &Vars::new(alloc)) {
        Err(ExprError::Fault(found)) => found == fault,
        _ => false,
    }
}

// Lines with an expression that cites a name.
const UNBOUND: &[&str] = &[
    "let v v+x:00",
    "show x",
    "poke 0 v",
    "image m pal 32 1 m",
    "arm 1 2 v",
    "session m x: x: m",
    "quote n",
    "check q x: x: x: 0 x:",
    "overwrite 0 1 v",
];

#[test]
fn unbound_names(rt: HostRuntime) {
    for (i, line) in UNBOUND.iter().enumerate() {
        assert!(rt; is_worthless(rt.alloc(), line, ExprFault::Name), "row {i}");
    }
}

fn is_bad(alloc: Global, line: &[u8], fault: LineFault) -> bool {
    match read_line(alloc, line) {
        Err(LineError::Fault(found)) => found == fault,
        _ => false,
    }
}

// Lines, and the first fault of each.
const BAD: &[(&str, LineFault)] = &[
    ("read 1\x01", LineFault::Byte),
    ("read 1\r\r", LineFault::Byte),
    ("# \x7f", LineFault::Byte),
    ("reed 1\x7f", LineFault::Byte),
    ("reed", LineFault::Command),
    ("Read 1", LineFault::Command),
    ("Let v x:00", LineFault::Command),
    ("reed 1 2 3", LineFault::Command),
    ("rea 1", LineFault::Command),
    ("read", LineFault::Count),
    ("read 1 2", LineFault::Count),
    ("read a b", LineFault::Count),
    ("extend 1", LineFault::Count),
    ("extend 1 x: x:", LineFault::Count),
    ("let v", LineFault::Count),
    ("show", LineFault::Count),
    ("image m pal 32 3", LineFault::Count),
    ("give", LineFault::Count),
    ("peek 4096", LineFault::Count),
    ("read 4294967296", LineFault::Number),
    ("read 00000000017", LineFault::Number),
    ("read 0x", LineFault::Number),
    ("extend -1 y:", LineFault::Number),
    ("image m pal a 3 y:", LineFault::Number),
    ("take x:00", LineFault::Number),
    ("poke x:00 4096", LineFault::Number),
    ("peek 4096 x:", LineFault::Number),
    ("extend 1 x:0", LineFault::Expression),
    ("dma 1 01", LineFault::Expression),
    ("let 9 v", LineFault::Name),
    ("image m pul 32 3 x:90", LineFault::Name),
    ("image M pul a 3 x:90", LineFault::Name),
    ("reg eax", LineFault::Count),
    ("regs 1", LineFault::Count),
    ("arm 1 2", LineFault::Count),
    ("session a: b:", LineFault::Count),
    ("session a: b: c: 9 9", LineFault::Count),
    ("reg ax 1", LineFault::Name),
    ("reg EAX 1", LineFault::Name),
    ("reg eax1 b", LineFault::Name),
    ("reg esp b", LineFault::Number),
    ("arm 1 x: y:", LineFault::Number),
    ("session x: x: 9 9", LineFault::Expression),
    ("session x: x: x: 9", LineFault::Name),
    ("seed", LineFault::Count),
    ("seed x: v", LineFault::Count),
    ("unseal", LineFault::Count),
    ("unseal x: v w", LineFault::Count),
    ("unseal 01 9", LineFault::Expression),
    ("unseal x: 9", LineFault::Name),
    ("counters 1", LineFault::Command),
    ("Random", LineFault::Command),
    ("counter", LineFault::Count),
    ("counter 1 2", LineFault::Count),
    ("counter x x", LineFault::Count),
    ("random a b", LineFault::Count),
    ("counter x", LineFault::Number),
    ("counter 4294967296", LineFault::Number),
    ("random A", LineFault::Name),
    ("random x:", LineFault::Name),
    ("random abcdefghijklmnopq", LineFault::Name),
    ("quotes x:", LineFault::Command),
    ("quote", LineFault::Count),
    ("quote 01 9 9", LineFault::Count),
    ("quote 01 9", LineFault::Expression),
    ("quote x: 9", LineFault::Name),
    ("quote x: Q", LineFault::Name),
    ("check x: x: x: x: 0 x: \x01", LineFault::Byte),
    ("checks x: x: x: x: 0 x:", LineFault::Command),
    ("check", LineFault::Count),
    ("check 01 02 03 04 y", LineFault::Count),
    ("check x: x: x: x: 0", LineFault::Count),
    ("check 01 x: x: x: y 02", LineFault::Expression),
    ("check x: x: x: 01 y 02", LineFault::Expression),
    ("check x: x: x: x: y 02 03", LineFault::Number),
    ("check x: x: x: x: 4294967296 x:", LineFault::Number),
    ("check x: x: x: x: x: 0 x:", LineFault::Number),
    ("check x: x: x: x: 0 02", LineFault::Expression),
    ("check x: x: x: x: 0 x: 03", LineFault::Expression),
    ("check x: x: x: x: 0 x: x: 9 x:", LineFault::Expression),
    ("check x: x: x: x: 0 x: x: x:0", LineFault::Expression),
    ("slots 0 1", LineFault::Command),
    ("Slot 0 1", LineFault::Command),
    ("slot", LineFault::Count),
    ("slot 0", LineFault::Count),
    ("slot 0 1 v w", LineFault::Count),
    ("slot x 1", LineFault::Number),
    ("slot x 1 V", LineFault::Number),
    ("slot 0 v", LineFault::Number),
    ("slot 0 4294967296", LineFault::Number),
    ("slot 0 1 V", LineFault::Name),
    ("slot 0 1 x:00", LineFault::Name),
    ("slot 0 1 abcdefghijklmnopq", LineFault::Name),
    ("overwrites 0 1 x:00", LineFault::Command),
    ("overwrite 0 1", LineFault::Count),
    ("overwrite 0 1 x: v", LineFault::Count),
    ("overwrite 0 x: zz:", LineFault::Number),
    ("overwrite 4294967296 1 x:", LineFault::Number),
    ("overwrite 0 1 zz:", LineFault::Expression),
    ("overwrite 0 1 x:0", LineFault::Expression),
];

#[test]
fn bad_lines(rt: HostRuntime) {
    for (i, (line, fault)) in BAD.iter().enumerate() {
        assert!(rt; is_bad(rt.alloc(), line.as_bytes(), *fault), "row {i}");
    }
}

#[test]
fn long_lines(rt: HostRuntime) -> Result<(), Fail> {
    let longest = vec![in rt.alloc(); b' '; 16_384]?;
    assert!(rt; matches!(read_line(rt.alloc(), &longest), Ok(Event::Blank)));
    let longer = vec![in rt.alloc(); 0x7f; 16_385]?;
    assert!(rt; is_bad(rt.alloc(), &longer, LineFault::LongLine));
    Ok(())
}
