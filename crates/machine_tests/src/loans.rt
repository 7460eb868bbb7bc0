// Spans that are lent, byte by byte and as a whole.
ghost use Rattle.std.specs.Prelude.{◌≡◌, ◌<◌, ◌≤◌, ◌+◌, [], ◌∷◌, replicate};
ghost use Rattle.region_pool.specs.Spans.{Holds};
ghost use Rattle.machine_memory.specs.Contents.{first_byte};
ghost use Rattle.machine_memory.specs.Spans.{with_bytes};

use crate::steps::{Step, are_steps};
use machine_memory::{Memory, frame_law, loan_law};
use region_pool::{Purpose, Ticket};
use std::alloc::Global;

// Writes one byte of a span through a loan.
fn put(memory: &mut Memory, span: &Ticket, offset: usize, byte: u8)
    requires held { Holds memory.old.marks span.now }
    requires inside { offset < first_byte span.now.frames }
    ensures { memory.new ≡ with_bytes memory.old (first_byte span.now.first + offset) (byte ∷ []) }
{
    frame_law(memory);
    memory.lend_mut(span)[offset] = byte;
}

// Writes the first bytes of a span, each through a loan of its own.
fn stamp(memory: &mut Memory, span: &Ticket, count: usize, byte: u8)
    requires held { Holds memory.old.marks span.now }
    requires inside { count ≤ first_byte span.now.frames }
    ensures { memory.new
        ≡ with_bytes memory.old (first_byte span.now.first) (replicate count byte) }
{
    frame_law(memory);
    for offset in 0..count {
        put(memory, span, offset, byte);
    }
}

// Frames 0 and 1 are two spans: whether what is written through a loan stands in its span alone.
fn are_apart(memory: &mut Memory, one: &Ticket, other: &Ticket) -> bool
    requires one { Holds memory.old.marks one.now }
    requires other { Holds memory.old.marks other.now }
    ensures { memory.new.marks ≡ memory.old.marks }
{
    if one.frames() != 1 || other.frames() != 1 {
        return false;
    }
    stamp(memory, other, 4096, 7);
    put(memory, one, 4095, 9);
    let steps = [
        Step::Peek(4094, Some(0)),
        Step::Peek(4095, Some(9)),
        Step::Peek(4096, Some(7)),
    ];
    are_steps(memory, &steps) && memory.lend(other) == [7; 4096].as_slice()
}

// The same of a blank memory in which they are taken.
fn are_lent(alloc: Global) -> bool {
    let Ok(mut memory) = Memory::blank(alloc) else {
        return false;
    };
    let Ok(one) = memory.take(1, 1, Purpose::Host) else {
        return false;
    };
    let Ok(other) = memory.take(1, 1, Purpose::Host) else {
        memory.give_wiped(one);
        return false;
    };
    let is_right = are_apart(&mut memory, &one, &other);
    memory.give_wiped(other);
    memory.give_wiped(one);
    is_right
}

#[test]
fn spans_are_lent(rt: HostRuntime) {
    assert!(rt; are_lent(rt.alloc()), "loans");
    loan_law();
}
