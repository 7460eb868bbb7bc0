// The region of an area: devices are kept out of it, and it is erased, lent, and opened by a power
// cycle.
ghost use Rattle.std.specs.Prelude.{◌≡◌};
ghost use Rattle.machine_memory.specs.Areas.{IsArea};

use crate::steps::{Step, are_steps};
use machine_memory::Memory;
use region_pool::{Purpose, Ticket};
use std::alloc::Global;

// Whether devices are kept out of the region of an area at 0 alone, which is the bytes 0 to 65535;
// the input page begins at 65536.
fn is_guarded(memory: &mut Memory, area: &Ticket) -> bool
    requires { IsArea memory.old.marks area.now }
    ensures { memory.new.marks ≡ memory.old.marks }
{
    let is_open = are_steps(memory, &[Step::Dma(65535, &[1, 2], true)]);
    memory.guard(area);
    let shut = [
        Step::Dma(65535, &[3, 4], false),
        Step::Dma(65536, &[5], true),
        Step::Dma(0, &[6], false),
        Step::Peek(65535, Some(1)),
        Step::Peek(65536, Some(5)),
    ];
    let is_shut = are_steps(memory, &shut);
    memory.erase(area);
    let erased = [Step::Peek(65535, Some(0)), Step::Peek(65536, Some(5))];
    let is_erased = are_steps(memory, &erased);
    memory.unguard(area);
    is_open && is_shut && is_erased && are_steps(memory, &[Step::Dma(65535, &[7, 8], true)])
}

// Whether the region is lent, and a power cycle makes it zero and lets devices in.
fn is_lent(memory: &mut Memory, area: &Ticket) -> bool
    requires { IsArea memory.old.marks area.now }
    ensures { memory.new.marks ≡ memory.old.marks }
{
    memory.guard(area);
    memory.region_mut(area).fill(5);
    let filled = [Step::Peek(65535, Some(5)), Step::Peek(65536, Some(8))];
    let is_filled = are_steps(memory, &filled);
    memory.power_cycle();
    let cold = [Step::Peek(65536, Some(0)), Step::Dma(65535, &[9, 9], true)];
    is_filled && are_steps(memory, &cold)
}

// Both of an area at 0, one after the other.
fn is_region(alloc: Global) -> bool {
    let Ok(mut memory) = Memory::blank(alloc) else {
        return false;
    };
    let Ok(area) = memory.take(18, 16, Purpose::Launch) else {
        return false;
    };
    let is_right = is_guarded(&mut memory, &area) && is_lent(&mut memory, &area);
    memory.give_wiped(area);
    is_right
}

#[test]
fn regions_are_guarded(rt: HostRuntime) {
    assert!(rt; is_region(rt.alloc()), "region");
}
