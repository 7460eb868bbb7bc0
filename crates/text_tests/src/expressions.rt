// Expressions and their values: each fault alone, and two in one expression, of which the first is
// reported.
use expr_text::{ExprError, ExprFault, Exprs, Unread, Vars, expression_in};
use flk_base::Bytes;
use std::alloc::Global;
use std::test::Fail;

fn bytes(alloc: Global, value: &[u8]) -> Result<Bytes, Fail> {
    let mut copy = Bytes::new(alloc);
    copy.push_all(value)?;
    Ok(copy)
}

// The variables of the tables below.
fn variables(alloc: Global) -> Result<Vars, Fail> {
    let mut vars = Vars::new(alloc);
    vars.set(b"x", bytes(alloc, &[0x00, 0xff])?)?;
    vars.set(b"rep", bytes(alloc, &[0x01])?)?;
    vars.set(b"sixteen_letters_", bytes(alloc, &[0x02, 0x03])?)?;
    vars.set(b"a0", bytes(alloc, &[])?)?;
    Ok(vars)
}

fn is_misspelled(alloc: Global, word: &str) -> bool {
    matches!(expression_in(alloc, word.as_bytes()), Err(Unread::Spelling))
}

// Words that spell no expression.
const MISSPELLED: &[&str] = &[
    "x:0",
    "x:0g",
    "X:00",
    "rep:f*3",
    "rep:fff*3",
    "rep:fg*3",
    "rep:ff*",
    "rep:ff3",
    "rep:",
    "rep:ff*4294967296",
    "seventeen_letters",
    "_a",
    "0a",
    "A",
    "",
    "x:00+",
    "+x:00",
    "x:00++x:01",
    "[0..0]",
    "x:00[0..1",
    "x:00[0.1]",
    "x:00[0...1]",
    "x:00[0..1..1]",
    "x:00[..1]",
    "x:00[0..]",
    "x:00[0..1]]",
    "x:00]",
    "x:00~",
    "x:00~0.",
    "x:00~4294967296",
];

#[test]
fn misspelled(rt: HostRuntime) {
    for (i, word) in MISSPELLED.iter().enumerate() {
        assert!(rt; is_misspelled(rt.alloc(), word), "row {i}");
    }
}

fn is_worth(alloc: Global, vars: &Vars, word: &str, wanted: &[u8]) -> bool {
    let Ok(expression) = expression_in(alloc, word.as_bytes()) else {
        return false;
    };
    match expression.value(alloc, vars) {
        Ok(value) => value.as_slice() == wanted,
        Err(_) => false,
    }
}

// Expressions, and what they are worth.
const VALUES: &[(&str, &[u8])] = &[
    ("x:", &[]),
    ("x:0aFf", &[0x0a, 0xff]),
    ("rep:fA*3", &[0xfa, 0xfa, 0xfa]),
    ("rep:00*0x2", &[0x00, 0x00]),
    ("rep:ff*0", &[]),
    ("x", &[0x00, 0xff]),
    ("rep", &[0x01]),
    ("a0", &[]),
    ("sixteen_letters_", &[0x02, 0x03]),
    ("x:00+x+x:", &[0x00, 0x00, 0xff]),
    ("x:00010203[1..3]", &[0x01, 0x02]),
    ("x:0001[0..2]", &[0x00, 0x01]),
    ("x:0001[2..2]", &[]),
    ("x:00ff[0x1..0x2]", &[0xff]),
    ("x:80ff~0", &[0x81, 0xff]),
    ("x:80ff~1", &[0x80, 0xfe]),
    ("x:00~0~0", &[0x00]),
    ("x~1+x", &[0x00, 0xfe, 0x00, 0xff]),
    ("x:000102[1..3]~0", &[0x00, 0x02]),
    ("x:000102~0[1..3]", &[0x01, 0x02]),
    ("x:00010203[1..4][1..2]", &[0x02]),
    ("rep:00*65537[0..2]", &[0x00, 0x00]),
    ("rep:00*70000~3[0..5]", &[0, 0, 0, 1, 0]),
    ("rep:00*4294967295[7..9]", &[0x00, 0x00]),
    (
        "rep:ab*4294967295~4294967294[4294967293..4294967295]",
        &[0xab, 0xaa],
    ),
    ("rep:00*600~255~256~511~512[1..600][509..512]", &[0, 1, 1]),
];

#[test]
fn values(rt: HostRuntime) -> Result<(), Fail> {
    let vars = variables(rt.alloc())?;
    for (i, (word, wanted)) in VALUES.iter().enumerate() {
        assert!(rt; is_worth(rt.alloc(), &vars, word, wanted), "row {i}");
    }
    Ok(())
}

fn has_fault(alloc: Global, vars: &Vars, word: &str, fault: ExprFault) -> bool {
    let Ok(expression) = expression_in(alloc, word.as_bytes()) else {
        return false;
    };
    match expression.value(alloc, vars) {
        Err(ExprError::Fault(found)) => found == fault,
        _ => false,
    }
}

// Expressions, and the first fault of each.
const FAULTS: &[(&str, ExprFault)] = &[
    ("x:0001[2..1]", ExprFault::Range),
    ("x:0001[1..3]", ExprFault::Range),
    ("x:0001[3..3]", ExprFault::Range),
    ("x:80ff~2", ExprFault::Range),
    ("x:~0", ExprFault::Range),
    ("x:000102[1..2]~1", ExprFault::Range),
    ("y", ExprFault::Name),
    ("rep+y", ExprFault::Name),
    ("y+x:00~1", ExprFault::Name),
    ("x:00~1+y", ExprFault::Range),
    ("y[1..0]", ExprFault::Name),
    ("rep:00*65537", ExprFault::Long),
    ("rep:00*65537+y", ExprFault::Long),
    ("rep:00*65537[0..65538]", ExprFault::Range),
    ("rep:00*70000~3", ExprFault::Long),
    ("rep:00*5~9", ExprFault::Range),
    ("rep:00*70000[3..2]", ExprFault::Range),
    ("rep:ab*4294967295~4294967295", ExprFault::Range),
    ("rep:00*65536+rep", ExprFault::Long),
    ("rep+rep:00*65536[0..65536]", ExprFault::Long),
];

#[test]
fn faults(rt: HostRuntime) -> Result<(), Fail> {
    let vars = variables(rt.alloc())?;
    for (i, (word, fault)) in FAULTS.iter().enumerate() {
        assert!(rt; has_fault(rt.alloc(), &vars, word, *fault), "row {i}");
    }
    Ok(())
}

fn has_65_536_bytes(alloc: Global, vars: &Vars, word: &str) -> bool {
    let Ok(expression) = expression_in(alloc, word.as_bytes()) else {
        return false;
    };
    match expression.value(alloc, vars) {
        Ok(value) => value.as_slice().len() == 65_536,
        Err(_) => false,
    }
}

// Expressions of the longest value.
const LONGEST: &[&str] = &[
    "rep:00*65536",
    "rep:00*65537[1..65537]",
    "rep:00*65535+rep",
    "rep:00*65536+a0",
];

#[test]
fn longest_values(rt: HostRuntime) -> Result<(), Fail> {
    let vars = variables(rt.alloc())?;
    for (i, word) in LONGEST.iter().enumerate() {
        assert!(rt; has_65_536_bytes(rt.alloc(), &vars, word), "row {i}");
    }
    Ok(())
}

// A flip at each side of where two pieces meet, and nowhere else.
#[test]
fn flips_at_the_edge_of_a_piece(rt: HostRuntime) {
    let Ok(expression) = expression_in(rt.alloc(), b"rep:00*600~255~256~511~512") else {
        panic!(&rt; "unread");
    };
    let Ok(value) = expression.value(rt.alloc(), &Vars::new(rt.alloc())) else {
        panic!(&rt; "no value");
    };
    for (i, byte) in value.as_slice().iter().enumerate() {
        let is_flipped = i == 255 || i == 256 || i == 511 || i == 512;
        assert!(rt; (*byte == 1) == is_flipped, "byte {i}");
    }
}

// Names, and what they are bound to once a hundred more are.
const BOUND: &[(&[u8], Option<&[u8]>)] = &[
    (b"x", Some(&[0x00, 0xff])),
    (b"x\0", None),
    (b"", None),
    (b"rep", Some(&[0xab])),
    (b"sixteen_letters_", Some(&[0x02, 0x03])),
    (b"sixteen_letters__", None),
    (b"n\0", Some(&[0x00])),
    (b"nc", Some(&[0x63])),
];

#[test]
fn bound_names(rt: HostRuntime) -> Result<(), Fail> {
    let mut vars = variables(rt.alloc())?;
    for i in 0..100u8 {
        let value = bytes(rt.alloc(), &[i])?;
        vars.room()?;
        vars.put(&[b'n', i], value);
    }
    vars.set(b"rep", bytes(rt.alloc(), &[0xab])?)?;
    for (i, (name, wanted)) in BOUND.iter().enumerate() {
        assert!(rt; vars.get(name) == *wanted, "row {i}");
    }
    Ok(())
}

fn is_at(alloc: Global, list: &Exprs, vars: &Vars, i: usize, wanted: &[u8]) -> bool {
    let Some(expression) = list.get(i) else {
        return false;
    };
    match expression.value(alloc, vars) {
        Ok(value) => value.as_slice() == wanted,
        Err(_) => false,
    }
}

#[test]
fn lists(rt: HostRuntime) -> Result<(), Fail> {
    let vars = variables(rt.alloc())?;
    let mut list = Exprs::new(rt.alloc());
    for word in ["x:00", "rep"] {
        let Ok(expression) = expression_in(rt.alloc(), word.as_bytes()) else {
            panic!(&rt; "unread");
        };
        list.push(expression)?;
    }
    assert!(rt; list.len() == 2);
    assert!(rt; is_at(rt.alloc(), &list, &vars, 0, &[0x00]));
    assert!(rt; is_at(rt.alloc(), &list, &vars, 1, &[0x01]));
    assert!(rt; list.get(2).is_none());
    Ok(())
}
