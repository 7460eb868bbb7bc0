// The filters.

/// A command that reads its whole source, and writes what it makes of it.
#[derive(Clone, Copy, Debug, PartialEq, Eq)]
pub enum Filter {
    /// From an assembler text to its code in hexadecimal.
    Asm,
    /// From code in hexadecimal to its listing.
    Dis,
    /// From an image in hexadecimal to its digest, and to what register 17 shows after its launch.
    Measure,
    /// From a line that describes a session to whether the quote in it is that of the session.
    Verify,
}
