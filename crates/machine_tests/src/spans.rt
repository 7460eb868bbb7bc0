// The edges of spans and of memory.
ghost use Rattle.region_pool.specs.Spans.{Span, Holds, IsDisjoint};

use crate::steps::{Step, are_steps};
use machine_memory::{FRAMES, Memory, TakeFault, frame_law, spans_law};
use region_pool::{Purpose, Ticket};
use std::alloc::Global;

// Frames 0 to 2 and 3 to 4 are two spans, and no other frame is taken.
const SIDE_BY_SIDE: [Step<'static>; 9] = [
    Step::Poke(12287, &[0xaa, 0xbb], false),
    Step::Poke(12288, &[0xaa, 0xbb], true),
    Step::Dma(12287, &[0xcc, 0xdd], true),
    Step::Peek(12287, Some(0xcc)),
    Step::Peek(12288, Some(0xdd)),
    Step::Peek(12289, Some(0xbb)),
    Step::Dma(20479, &[0xff, 0xff], false),
    Step::Peek(20479, Some(0)),
    Step::Peek(20480, None),
];

// Pieces of no bytes, where frames 0 to 4 are taken.
const EMPTY_PIECES: [Step<'static>; 11] = [
    Step::Poke(0, &[], true),
    Step::Poke(4097, &[], true),
    Step::Poke(12288, &[], true),
    Step::Poke(20480, &[], true),
    Step::Poke(20481, &[], false),
    Step::Poke(24576, &[], false),
    Step::Poke(u32::MAX, &[], false),
    Step::Touch(20480, true),
    Step::Touch(20481, false),
    Step::Dma(20481, &[], true),
    Step::Dma(u32::MAX, &[], true),
];

// Gives two spans back, and answers whether the steps are answered so in between.
#[tactic(auto, using(crate::proofs::Apart::differ_from_apart))]
fn are_given(memory: &mut Memory, one: Ticket, other: Ticket, steps: &[Step<'_>]) -> bool
    requires one { Holds memory.old.marks one }
    requires other { Holds memory.old.marks other }
    requires apart { IsDisjoint one other }
{
    memory.give_wiped(one);
    let are_right = are_steps(memory, steps);
    memory.give_wiped(other);
    are_right
}

// Whether the steps are answered so where frames 0 to 2 and 3 to 4 are two spans, and what the
// first steps left is there until its span is given back.
fn has_edges(alloc: Global, steps: &[Step<'_>]) -> bool {
    let Ok(mut memory) = Memory::blank(alloc) else {
        return false;
    };
    let is_shut = are_steps(&mut memory, &[Step::Dma(0, &[1], false)]);
    let Ok(one) = memory.take(3, 1, Purpose::Host) else {
        return false;
    };
    let Ok(other) = memory.take(2, 1, Purpose::Host) else {
        memory.give_wiped(one);
        return false;
    };
    spans_law(&memory, &one, &other);
    let are_right = are_steps(&mut memory, steps);
    let gone = [Step::Peek(12288, None), Step::Touch(12288, true)];
    let is_given = are_given(&mut memory, other, one, &gone);
    frame_law(&memory);
    is_shut && are_right && is_given && is_wiped(&mut memory)
}

// Whether the first five frames are free, and zero once they are taken.
fn is_wiped(memory: &mut Memory) -> bool {
    let Ok(again) = memory.take(5, 1, Purpose::Launch) else {
        return false;
    };
    let is_zero = memory.lend(&again).iter().all(|byte| *byte == 0);
    memory.give_wiped(again);
    is_zero
}

// Whether two more frames are taken and given back; or there was no memory for them, and the
// byte that was written stands, and they are free.
fn is_taken_or_left(memory: &mut Memory) -> bool
    ensures { (other : Span) → Holds memory.old.marks other → Holds memory.new.marks other }
{
    match memory.take(2, 1, Purpose::Host) {
        Ok(more) => {
            memory.give_wiped(more);
            true
        }
        Err(TakeFault::NoMemory) => are_steps(
            memory,
            &[
                Step::Peek(1, Some(9)),
                Step::Touch(4097, false),
                Step::Dma(4096, &[1], false),
            ],
        ),
        Err(TakeFault::NoRoom) => false,
    }
}

// Whether a take that is refused memory leaves all as it was. Where memory is refused before, there
// is nothing to see: that each of these calls succeeds where there is memory, the other rows show.
fn is_left(alloc: Global) -> bool {
    let Ok(mut memory) = Memory::blank(alloc) else {
        return true;
    };
    let Ok(one) = memory.take(1, 1, Purpose::Host) else {
        return true;
    };
    let is_right = are_steps(&mut memory, &[Step::Poke(1, &[9], true)])
        && is_taken_or_left(&mut memory);
    memory.give_wiped(one);
    is_right
}

#[test]
fn refused_take_leaves_memory(rt: HostRuntime) {
    assert!(rt; is_left(rt.alloc()), "refused");
}

#[test]
fn spans_have_edges(rt: HostRuntime) {
    let rows: [&[Step<'static>]; 2] = [&SIDE_BY_SIDE, &EMPTY_PIECES];
    for (i, steps) in rows.iter().enumerate() {
        assert!(rt; has_edges(rt.alloc(), *steps), "row {i}");
    }
}

// The edge of memory, all of which is taken.
const LAST_BYTES: [Step<'static>; 11] = [
    Step::Poke(4_194_303, &[1], true),
    Step::Poke(4_194_303, &[1, 2], false),
    Step::Poke(4_194_304, &[1], false),
    Step::Poke(4_194_304, &[], true),
    Step::Dma(4_194_303, &[3], true),
    Step::Dma(4_194_302, &[4, 5, 6], false),
    Step::Dma(4_194_304, &[7], false),
    Step::Dma(u32::MAX, &[8, 9], false),
    Step::Peek(4_194_302, Some(0)),
    Step::Peek(4_194_303, Some(3)),
    Step::Peek(4_194_304, None),
];

// Whether there is no room for one frame.
fn is_full(memory: &mut Memory) -> bool
    ensures { (other : Span) → Holds memory.old.marks other → Holds memory.new.marks other }
{
    match memory.take(1, 1, Purpose::Host) {
        Ok(more) => {
            memory.give_wiped(more);
            false
        }
        Err(fault) => matches!(fault, TakeFault::NoRoom),
    }
}

// Whether memory ends after its last byte, and a power cycle leaves that zero.
fn has_an_edge(alloc: Global) -> bool {
    let Ok(mut memory) = Memory::blank(alloc) else {
        return false;
    };
    let Ok(whole) = memory.take(FRAMES, 1, Purpose::Host) else {
        return false;
    };
    let are_right = are_steps(&mut memory, &LAST_BYTES)
        && memory.lend(&whole).len() == 4_194_304
        && is_full(&mut memory);
    memory.power_cycle();
    let is_zero = are_steps(&mut memory, &[Step::Peek(4_194_303, Some(0))]);
    memory.give_wiped(whole);
    are_right && is_zero
}

#[test]
fn memory_has_an_edge(rt: HostRuntime) {
    assert!(rt; has_an_edge(rt.alloc()), "edge");
}
