//! Where a span fits.
ghost use Rattle.std.specs.Prelude.{◌≡◌, ℕ, ◌<◌, ◌≤◌, ◌+◌, ◌%◌, ◌^◌, List, length, IfSome, IfNone};
ghost use Rattle.std.specs.Prelude.{MatchOption};
ghost use Rattle.region_pool.specs.declared.mark.Mark.{Mark};
ghost use Rattle.region_pool.specs.Places.{IsLowestPlace, HasNoPlace, place};

use crate::mark::{Mark, is_free};

/// The least multiple of `align` after `frame`.
fn multiple_after(frame: usize, align: usize) -> usize
    requires frame { frame < 2 ^ 32 }
    requires small { align < 2 ^ 32 }
    requires aligned { 1 ≤ align }
    ensures multiple { result % align ≡ 0 }
    ensures after { frame < result }
    ensures least { result ≤ frame + align }
{
    (frame / align + 1) * align
}

/// The lowest place for `frames` frames, found in one pass. `candidate` is the least multiple of
/// `align` after the last frame that was seen taken, so all that was seen from it on is free.
pub(crate) fn lowest_place(marks: &[Mark], frames: usize, align: usize) -> Option<usize>
    requires size { length marks.now < 2 ^ 32 }
    requires some { 1 ≤ frames }
    requires few { frames < 2 ^ 32 }
    requires aligned { 1 ≤ align }
    requires small { align < 2 ^ 32 }
    ensures found { IfSome result (IsLowestPlace marks.now frames align) }
    ensures none { IfNone result (HasNoPlace marks.now frames align) }
    ensures within { IfSome result (λ first. first + frames ≤ length marks.now) }
{
    let mut candidate = 0;
    for (frame, mark) in marks.iter().enumerate() {
        if !is_free(*mark) {
            candidate = multiple_after(frame, align);
        } else if candidate + frames <= frame + 1 {
            return Some(candidate);
        }
    }
    None
}

/// The law of the definition `place`: it is the lowest place, and `None` exactly where there is
/// none.
pub fn place_law()
    ensures { (marks : List Mark) (frames align : ℕ) → 1 ≤ frames
        → MatchOption (place marks frames align)
        (HasNoPlace marks frames align)
        (IsLowestPlace marks frames align) }
{}
