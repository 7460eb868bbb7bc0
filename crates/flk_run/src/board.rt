// What the host does to the memory of a board.
ghost use Rattle.std.specs.Prelude.{◌≡◌, ◌≢◌, ◌≤◌, length, IfOk, OnOk, OnErr, IsErrOf, MatchResult};
ghost use Rattle.region_pool.specs.Places.{HasNoPlace};
ghost use Rattle.region_pool.specs.Spans.{Span, Holds};
ghost use Rattle.machine_memory.specs.Writes.{part};
ghost use Rattle.machine_memory.specs.Spans.{LiesInSpan, with_bytes, after_give};
ghost use Rattle.machine_memory.specs.DeviceWrites.{device_end, after_device_write};
ghost use Rattle.flk_run.specs.Parts.{KeepsDevice};
ghost use Rattle.flk_run.specs.Taking.{Took};

use late_launch::Board;
use machine_memory::{DevEnd, NotTaken, TakeFault};
use region_pool::{Purpose, Ticket};

/// Takes a span of so many frames for the host, at the lowest place. Its bytes are zero.
pub(crate) fn take(board: &mut Board, frames: u32) -> Result<Ticket, TakeFault>
    requires { 1 ≤ frames }
    ensures took { IfOk result (λ ticket. Took frames board.old.memory board.new.memory ticket) }
    ensures refused { IsErrOf result TakeFault.NoRoom → HasNoPlace board.old.memory.marks frames 1 }
    ensures device { KeepsDevice board.old board.new }
    ensures err { OnErr result (board.new ≡ board.old) }
{
    board.memory.take(frames, 1, Purpose::Host)
}

/// Gives a span back: its bytes become zero.
pub(crate) fn give(board: &mut Board, ticket: Ticket)
    requires { Holds board.old.memory.marks ticket }
    ensures given { board.new.memory ≡ after_give board.old.memory ticket }
    ensures others { (other : Span) → Holds board.old.memory.marks other → other ≢ ticket
        → Holds board.new.memory.marks other }
    ensures device { KeepsDevice board.old board.new }
{
    board.memory.give_wiped(ticket);
}

/// Writes bytes of one span for the host.
pub(crate) fn host_write(board: &mut Board, at: u32, bytes: &[u8]) -> Result<(), NotTaken>
    ensures taken { MatchResult result
        (λ _. LiesInSpan board.old.memory.marks at (length bytes.now))
        (λ _. ¬ LiesInSpan board.old.memory.marks at (length bytes.now)) }
    ensures written { OnOk result (board.new.memory ≡ with_bytes board.old.memory at bytes.now) }
    ensures device { KeepsDevice board.old board.new }
    ensures err { OnErr result (board.new ≡ board.old) }
{
    board.memory.host_write(at, bytes)
}

/// Reads bytes of one span for the host.
pub(crate) fn host_read(board: &Board, at: u32, out: &mut [u8]) -> Result<(), NotTaken>
    ensures taken { MatchResult result
        (λ _. LiesInSpan board.now.memory.marks at (length out.old))
        (λ _. ¬ LiesInSpan board.now.memory.marks at (length out.old)) }
    ensures read { OnOk result (out.new ≡ part board.now.memory.bytes at (length out.old)) }
{
    board.memory.host_read(at, out)
}

/// Writes bytes for a device, where each of them lies in a span.
pub(crate) fn dev_write(board: &mut Board, at: u32, bytes: &[u8]) -> DevEnd
    ensures ended { result ≡ device_end board.old.memory.excluded at (length bytes.now) }
    ensures written { board.new.memory ≡ after_device_write board.old.memory at bytes.now }
    ensures device { KeepsDevice board.old board.new }
{
    board.memory.dev_write(at, bytes)
}
