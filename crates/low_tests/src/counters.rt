// That counters go by TPM 1.2's rule: each begins one above the largest value so far, and goes up
// by one. The numbers are worked by hand.
use tpm_state::{
    CounterFault, Counters, calls_by_counters, counters_by_owners, counters_only_grow,
    counters_stay_in_range, numbers_are_given_once,
};

const OWNER: [u8; 20] = [0x01; 20];

// Another owner, by the last byte alone.
const OTHER: [u8; 20] = [
    0x01, 0x01, 0x01, 0x01, 0x01, 0x01, 0x01, 0x01, 0x01, 0x01, 0x01, 0x01, 0x01, 0x01, 0x01, 0x01,
    0x01, 0x01, 0x01, 0x00,
];

// A call, and what it answers.
#[derive(Clone, Copy)]
enum Row {
    Create([u8; 20], Result<u8, CounterFault>),
    Read(u8, Result<u32, CounterFault>),
    Increment(u8, [u8; 20], Result<u32, CounterFault>),
}

// Whether a row is right, after the rows before it.
fn is_row(counters: &mut Counters, row: Row) -> bool {
    match row {
        Row::Create(owner, answer) => counters.create(&owner) == answer,
        Row::Read(id, answer) => counters.read(id) == answer,
        Row::Increment(id, who, answer) => counters.increment(id, &who) == answer,
    }
}

#[test]
fn worked_rows(rt: HostRuntime) {
    let rows: [Row; 21] = [
        Row::Read(0, Err(CounterFault::NoCounter)),
        Row::Increment(0, OWNER, Err(CounterFault::NoCounter)),
        Row::Create(OWNER, Ok(0)),
        Row::Read(0, Ok(1)),
        Row::Increment(0, OWNER, Ok(2)),
        Row::Increment(0, OTHER, Err(CounterFault::NotOwner)),
        Row::Read(0, Ok(2)),
        Row::Create(OTHER, Ok(1)),
        Row::Read(1, Ok(3)),
        Row::Read(0, Ok(2)),
        Row::Increment(1, OTHER, Ok(4)),
        Row::Increment(1, OTHER, Ok(5)),
        Row::Increment(1, OWNER, Err(CounterFault::NotOwner)),
        Row::Increment(0, OWNER, Ok(3)),
        Row::Create(OWNER, Ok(2)),
        Row::Read(2, Ok(6)),
        Row::Increment(3, OWNER, Err(CounterFault::NoCounter)),
        Row::Read(16, Err(CounterFault::NoCounter)),
        Row::Increment(255, OTHER, Err(CounterFault::NoCounter)),
        Row::Read(0, Ok(3)),
        Row::Read(1, Ok(5)),
    ];
    let mut counters = Counters::blank();
    for (i, row) in rows.iter().enumerate() {
        assert!(rt; is_row(&mut counters, *row), "row {i}");
    }
}

// Whether sixteen counters are created, with the values 1 to 16, and no more; the last one still
// goes up.
fn is_full_at_sixteen() -> bool {
    let mut counters = Counters::blank();
    for id in 0..16u8 {
        if counters.create(&OWNER) != Ok(id) || counters.read(id) != Ok(u32::from(id) + 1) {
            return false;
        }
    }
    counters.create(&OWNER) == Err(CounterFault::Full)
        && counters.increment(15, &OWNER) == Ok(17)
        && counters.create(&OTHER) == Err(CounterFault::Full)
        && counters.read(15) == Ok(17)
}

#[test]
fn sixteen_counters(rt: HostRuntime) {
    assert!(rt; is_full_at_sixteen(), "sixteen");
}

// Whether each fault has its number.
fn is_numbered() -> bool {
    CounterFault::Full as u32 == 1
        && CounterFault::End as u32 == 2
        && CounterFault::NoCounter as u32 == 3
        && CounterFault::NotOwner as u32 == 4
}

#[test]
fn fault_numbers(rt: HostRuntime) {
    assert!(rt; is_numbered(), "numbers");
}

#[test]
fn laws_at_a_type() {
    counters_stay_in_range::<u8>();
    counters_only_grow::<u8>();
    numbers_are_given_once::<u8>();
    calls_by_counters::<u8>();
    counters_by_owners::<u8, u32>();
}
