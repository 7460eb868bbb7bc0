// What is asked of memory, and what it is to answer.
ghost use Rattle.std.specs.Prelude.{◌≡◌};

use machine_memory::{DevEnd, Memory};

#[derive(Clone, Copy)]
pub(crate) enum Step<'a> {
    // The host writes these bytes, if it may.
    Poke(u32, &'a [u8], bool),
    // A device writes these bytes, if it may.
    Dma(u32, &'a [u8], bool),
    // The host reads one byte, if it may.
    Peek(u32, Option<u8>),
    // The host reads no bytes, if it may.
    Touch(u32, bool),
}

// One byte that the host reads, if it may.
fn peek(memory: &Memory, at: u32) -> Option<u8> {
    let mut out = [0xee];
    if memory.host_read(at, &mut out).is_err() {
        return None;
    }
    Some(out[0])
}

// Whether the step is answered so. What it does stays done.
fn is_step(memory: &mut Memory, step: Step<'_>) -> bool
    ensures { memory.new.marks ≡ memory.old.marks }
{
    match step {
        Step::Poke(at, bytes, may) => memory.host_write(at, bytes).is_ok() == may,
        Step::Dma(at, bytes, may) => matches!(memory.dev_write(at, bytes), DevEnd::Done) == may,
        Step::Peek(at, byte) => peek(memory, at) == byte,
        Step::Touch(at, may) => memory.host_read(at, &mut []).is_ok() == may,
    }
}

// Whether each step is answered so, one after the other.
pub(crate) fn are_steps(memory: &mut Memory, steps: &[Step<'_>]) -> bool
    ensures { memory.new.marks ≡ memory.old.marks }
{
    let mut are_right = true;
    for step in steps {
        are_right = is_step(memory, *step) && are_right;
    }
    are_right
}
