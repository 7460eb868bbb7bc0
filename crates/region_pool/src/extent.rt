//! How far a span reaches from one of its frames.
ghost use Rattle.std.specs.Prelude.{◌≡◌, ◌≢◌, ℕ, ◌<◌, ◌≤◌, ◌+◌, ◌^◌, length, slice_get};
ghost use Rattle.region_pool.specs.declared.mark.Mark.{Mark};

use crate::mark::{Mark, is_next};

/// The last frame, up to this one, that is no next frame.
pub(crate) fn first_of_span(marks: &[Mark], frame: usize) -> usize
    requires within { frame < length marks.now }
    requires begins { slice_get marks.now 0 ≢ Some Mark.Next }
    ensures before { result ≤ frame }
    ensures found { slice_get marks.now result ≢ Some Mark.Next }
    ensures between { (k : ℕ) → result < k → k ≤ frame → slice_get marks.now k ≡ Some Mark.Next }
{
    let mut first = frame;
    while is_next(marks[first]) {
        first -= 1;
    }
    first
}

/// The first frame after this one that is no next frame, or one past the last.
pub(crate) fn end_of_span(marks: &[Mark], frame: usize) -> usize
    requires within { frame < length marks.now }
    requires size { length marks.now < 2 ^ 32 }
    ensures after { frame < result }
    ensures inside { result ≤ length marks.now }
    ensures found { slice_get marks.now result ≢ Some Mark.Next }
    ensures between { (k : ℕ) → frame < k → k < result → slice_get marks.now k ≡ Some Mark.Next }
{
    let mut end = frame + 1;
    while end < marks.len() && is_next(marks[end]) {
        end += 1;
    }
    end
}
