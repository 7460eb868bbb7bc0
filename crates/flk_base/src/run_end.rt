// How a call that reads a source and writes a sink ended.
use crate::streams::PutFault;

/// How a call that reads a source and writes a sink ended. `B` is what may be wrong with what was
/// read.
#[derive(Clone, Copy, Debug, PartialEq, Eq)]
pub enum RunEnd<B> {
    /// All was read, done and written.
    Done,
    /// What was read is not of its form.
    Bad(B),
    /// A read failed.
    ReadFault,
    /// A put was cut short: of its piece a prefix may be written, and not all.
    Cut(PutFault),
    /// Memory ran out before anything was begun, or before what would have been done next.
    NoMemory,
}
