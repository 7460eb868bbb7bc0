//! What the pool knows of one frame.
ghost use Rattle.std.specs.Prelude.{◌≡◌, ◌↔◌, IsTrue};
ghost use Rattle.region_pool.specs.Marks.{is_free};

/// The mark of a frame. The marks of a pool determine its spans: a span is its first frame and the
/// next frames that follow it.
#[derive(Clone, Copy)]
pub enum Mark {
    /// The frame lies in no span.
    Free,
    /// The first frame of a span that serves the host.
    Host,
    /// The first frame of a span that serves a session.
    Launch,
    /// A frame of the same span as the frame before it.
    Next,
}

pub(crate) fn is_free(mark: Mark) -> bool
    ensures { result ≡ is_free mark }
{
    matches!(mark, Mark::Free)
}

pub(crate) fn is_next(mark: Mark) -> bool
    ensures { IsTrue result ↔ (mark ≡ Mark.Next) }
{
    matches!(mark, Mark::Next)
}
