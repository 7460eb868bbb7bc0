//! Spans of the region.
ghost use Rattle.std.specs.Prelude.{◌≡◌, ◌+◌, ◌≤◌, length};
ghost use Rattle.machine_memory.specs.Writes.{part, written};
ghost use Rattle.slb_core.specs.Services.{lies_in};
ghost use Rattle.slb_core.specs.Spans.{with_region};

use crate::turn::SEGMENT_SIZE;
use late_launch::Launched;

/// Whether so many bytes from an offset on lie in the segment.
pub(crate) fn lies_in(at: u32, count: u32) -> bool
    ensures { result ≡ lies_in at count }
{
    at as usize + count as usize <= SEGMENT_SIZE
}

/// Copies so many bytes from an offset on.
fn copy_from(bytes: &[u8], at: usize, out: &mut [u8])
    requires { at + length out.old ≤ length bytes.now }
    ensures { out.new ≡ part bytes.now at (length out.old) }
{
    out.copy_from_slice(&bytes[at..at + out.len()]);
}

/// Writes a piece over as many bytes from an offset on.
fn write_at(bytes: &mut [u8], at: usize, piece: &[u8])
    requires { at + length piece.now ≤ length bytes.old }
    ensures value { bytes.new ≡ written bytes.old at piece.now }
    ensures size { length bytes.new ≡ length bytes.old }
{
    bytes[at..at + piece.len()].copy_from_slice(piece);
}

/// Copies a span of the region.
#[tactic(auto, using(crate::proofs::Loans::comes_back))]
pub(crate) fn read_span(session: &mut Launched, at: usize, out: &mut [u8])
    requires { at + length out.old ≤ 65536 }
    ensures read { out.new ≡ part session.old.region at (length out.old) }
    ensures session { session.new ≡ session.old }
    ensures size { length session.old.region ≡ 65536 }
{
    copy_from(session.region(), at, out);
}

/// Writes bytes over a span of the region.
#[tactic(auto, using(crate::proofs::Loans::comes_back))]
pub(crate) fn write_span(session: &mut Launched, at: usize, bytes: &[u8])
    requires { at + length bytes.now ≤ 65536 }
    ensures { session.new ≡ with_region session.old (written session.old.region at bytes.now) }
{
    write_at(session.region(), at, bytes);
}
