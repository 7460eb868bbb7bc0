//! What lies in a span.
ghost use Rattle.std.specs.Prelude.{◌↔◌, ◌≤◌, IsTrue};
ghost use Rattle.machine_memory.specs.Spans.{LiesInSpan};

use crate::sizes::FRAME_LEN;
use region_pool::Pool;

/// Whether an address lies in a span that is taken, or at its end.
fn touches_span(pool: &Pool, at: u32) -> bool
    ensures { IsTrue result ↔ LiesInSpan pool.now at 0 }
{
    let here = pool.span_at(at / FRAME_LEN as u32);
    let before = pool.span_at(at.saturating_sub(1) / FRAME_LEN as u32);
    here.is_some() || before.is_some()
}

/// Whether so many bytes, and at least one, lie from an address on in one span that is taken.
fn fits_span(pool: &Pool, at: u32, count: usize) -> bool
    requires { 1 ≤ count }
    ensures { IsTrue result ↔ LiesInSpan pool.now at count }
{
    match pool.span_at(at / FRAME_LEN as u32) {
        Some((first, frames)) => {
            let end = FRAME_LEN * (first as usize + frames as usize);
            // The address lies in this span, so it is below its end.
            count <= end - at as usize
        }
        None => false,
    }
}

/// Whether so many bytes from an address on lie in one span that is taken.
pub(crate) fn lies_in_span(pool: &Pool, at: u32, count: usize) -> bool
    ensures { IsTrue result ↔ LiesInSpan pool.now at count }
{
    if count == 0 {
        touches_span(pool, at)
    } else {
        fits_span(pool, at, count)
    }
}
