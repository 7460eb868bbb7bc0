//! Where code stands, and how long it may be.

/// The offset of the first byte of code in the segment.
pub(crate) const CODE_START: u32 = 32;

/// The most bytes of code.
pub const MOST_CODE: usize = 49_120;
