//! What is true of every memory and of all armed writes.
ghost use Rattle.std.specs.Prelude.{◌≡◌, ◌⊎◌, ◌+◌, ℕ, List, length, count_by};
ghost use Rattle.region_pool.specs.Marks.{IsTaken};
ghost use Rattle.region_pool.specs.Spans.{Span, Holds, IsDisjoint, LiesInOneSpan};
ghost use Rattle.machine_memory.specs.Contents.{Contents, IsMemory, first_byte};
ghost use Rattle.machine_memory.specs.Spans.{with_bytes};
ghost use Rattle.machine_memory.specs.LentSpans.{after_loan};
ghost use Rattle.machine_memory.specs.ArmedWrites.{is_waiting, is_done, is_blocked};

use crate::dma::Dma;
use crate::memory::Memory;
use region_pool::{Ticket, frame_span_law, held_spans_law};

/// The law of frames: memory has `FRAMES` frames, and each that is free is zero and excluded.
pub fn frame_law(memory: &Memory)
    ensures { IsMemory memory.now }
{
    let _ = &memory.pool;
}

/// The law of spans: two spans that one memory holds are the same, or have no frame in common.
pub fn spans_law(memory: &Memory, one: &Ticket, other: &Ticket)
    requires one { Holds memory.now.marks one.now }
    requires other { Holds memory.now.marks other.now }
    ensures { (one.now ≡ other.now) ⊎ IsDisjoint one.now other.now }
{
    held_spans_law(&memory.pool, one, other);
}

/// The law of taken frames: each lies in one span that memory holds, and in no other.
pub fn taken_frame_law(memory: &Memory, frame: u32)
    requires { IsTaken memory.now.marks frame }
    ensures { LiesInOneSpan memory.now.marks frame }
{
    frame_span_law(&memory.pool, frame);
}

/// The law of loans: what comes back, as long as what was lent, stands where the span does.
pub fn loan_law()
    ensures { (memory : Contents) (span : Span) (bytes : List ℕ)
        → length bytes ≡ first_byte span.frames
        → after_loan memory span bytes ≡ with_bytes memory (first_byte span.first) bytes }
{}

/// The law of armed writes: each waits, or it was done or blocked.
pub fn counts_law(dma: &Dma)
    ensures { count_by (λ write. is_done write.ended) dma.now
        + count_by (λ write. is_blocked write.ended) dma.now
        + count_by (λ write. is_waiting write.ended) dma.now
        ≡ length dma.now }
{}
