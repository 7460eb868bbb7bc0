// The slots of the disk, as a host reads and writes them by hand.
use crate::machine::{LONG, Row, first_wrong, first_wrong_failing};

// A disk of zeros has no blob; a slot holds what was written last, beside all others.
const SLOTS: &[Row] = &[
    ("slot 0 0", "no blob"),
    ("slot 7 1 v", "no blob"),
    ("show v", "no name"),
    ("overwrite 0 0 x:0102", "ok"),
    ("overwrite 0 1 x:03", "ok"),
    ("overwrite 7 1 x:04050607", "ok"),
    ("slot 0 0 v", "ok x:0102"),
    ("show v+v", "ok x:01020102"),
    ("slot 0 1", "ok x:03"),
    ("slot 1 0", "no blob"),
    ("slot 7 1 v", "ok x:04050607"),
    ("show v", "ok x:04050607"),
    ("overwrite 0 0 v", "ok"),
    ("slot 0 0", "ok x:04050607"),
    // A length of 0 says that there is no blob, whatever stands after it.
    ("overwrite 0 0 x:", "ok"),
    ("slot 0 0", "no blob"),
    ("slot 0 1", "ok x:03"),
];

// Numbers past the last slot, which comes before the length; the expression comes before both.
const EDGES: &[Row] = &[
    ("slot 8 0", "no slot"),
    ("slot 0 2", "no slot"),
    ("slot 4294967295 4294967295 v", "no slot"),
    ("overwrite 8 0 x:01", "no slot"),
    ("overwrite 0 2 x:01", "no slot"),
    ("overwrite 8 0 rep:aa*4095", "no slot"),
    ("overwrite 8 0 v", "no name"),
    ("overwrite 3 1 rep:aa*4095", "no long"),
    ("slot 3 1", "no blob"),
    ("overwrite 3 1 rep:aa*4094", "ok"),
    ("slot 3 1 v", LONG),
    ("show v[0..4]", "ok x:aaaaaaaa"),
    ("show v[4093..4094]", "ok x:aa"),
    ("show v[4093..4095]", "no range"),
    // What stands in the slot of 4,094 bytes reaches into no other one.
    ("slot 4 0", "no blob"),
    ("slot 3 0", "no blob"),
];

// Calls 0, 3 and 5 fail: a read, a sync, and a write, which is not synced then.
const FAILING: &[Row] = &[
    ("slot 0 0", "no disk"),
    ("slot 0 0", "no blob"),
    ("overwrite 0 0 x:01", "no disk"),
    // The disk in memory kept what was written before the sync failed.
    ("slot 0 0", "ok x:01"),
    ("overwrite 0 0 x:02", "no disk"),
    ("slot 0 0", "ok x:01"),
    ("overwrite 0 0 x:02", "ok"),
    ("slot 0 0", "ok x:02"),
];

#[test]
fn slots(rt: HostRuntime) {
    let scenarios: [&[Row]; 2] = [SLOTS, EDGES];
    for (i, rows) in scenarios.iter().enumerate() {
        let row = first_wrong(rt.alloc(), rows);
        assert!(rt; row == rows.len(), "scenario {i}, row {row}");
    }
    let row = first_wrong_failing(rt.alloc(), &[0, 3, 5], FAILING);
    assert!(rt; row == FAILING.len(), "failing, row {row}");
}
