// Writes of devices that are armed for turns.
ghost use Rattle.std.specs.Prelude.{◌≡◌};
ghost use Rattle.region_pool.specs.Spans.{Holds};

use crate::steps::{Step, are_steps};
use machine_memory::{Dma, Memory, counts_law, taken_frame_law};
use region_pool::{NoMemory, Purpose, Ticket};
use std::alloc::Global;

// Three writes for turn 2 that have bytes, one of which reaches past frame 0, one that has none,
// and one for turn 5.
fn armed_writes(alloc: Global) -> Result<Dma, NoMemory> {
    let mut writes = Dma::new(alloc);
    writes.arm(2, 0, &[1, 1, 1])?;
    writes.arm(5, 1, &[2])?;
    writes.arm(2, 4095, &[3, 3])?;
    writes.arm(2, 2, &[4])?;
    writes.arm(2, 9999, &[])?;
    Ok(writes)
}

// A turn, how many writes are done, blocked and waiting after it, and three bytes of memory then.
type TurnRow = (u32, [u64; 3], [u8; 3]);

fn is_turn(memory: &mut Memory, writes: &mut Dma, row: TurnRow) -> bool
    ensures { memory.new.marks ≡ memory.old.marks }
{
    let (turn, counts, bytes) = row;
    writes.run(turn, memory);
    counts_law(writes);
    let steps = [
        Step::Peek(1, Some(bytes[0])),
        Step::Peek(2, Some(bytes[1])),
        Step::Peek(4095, Some(bytes[2])),
    ];
    [writes.done(), writes.blocked(), writes.left()] == counts && are_steps(memory, &steps)
}

// The first frame of a held span lies in one span.
fn lies_in_one(memory: &Memory, span: &Ticket)
    requires { Holds memory.now.marks span.now }
{
    taken_frame_law(memory, span.first());
}

// Whether each turn is as its row says, where frame 0 alone is taken, and nothing waits once the
// writes are dropped.
fn are_turns(alloc: Global, rows: &[TurnRow]) -> bool {
    let Ok(mut writes) = armed_writes(alloc) else {
        return false;
    };
    let Ok(mut memory) = Memory::blank(alloc) else {
        return false;
    };
    let Ok(page) = memory.take(1, 1, Purpose::Host) else {
        return false;
    };
    lies_in_one(&memory, &page);
    let mut are_right = true;
    for row in rows {
        are_right = is_turn(&mut memory, &mut writes, *row) && are_right;
    }
    memory.give_wiped(page);
    writes.clear();
    are_right && writes.left() == 0 && writes.done() == 0
}

#[test]
fn writes_wait_for_their_turn(rt: HostRuntime) {
    let rows = [
        (1, [0, 0, 5], [0, 0, 0]),
        (2, [3, 1, 1], [1, 4, 0]),
        (2, [3, 1, 1], [1, 4, 0]),
        (5, [4, 1, 0], [2, 4, 0]),
    ];
    assert!(rt; are_turns(rt.alloc(), &rows), "turns");
}
