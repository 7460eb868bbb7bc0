//! The memory that an instruction sees.

ghost use Rattle.std.specs.Prelude.{◌≡◌, ℕ, List};
ghost use Rattle.i386_profile.specs.Segments.{load8, load32, store8, store32, Makes};

/// An access passes the segment's end.
#[derive(Clone, Copy)]
pub struct Outside;

/// Bytes at the offsets from 0 on. Doublewords are little-endian and may stand at any offset. A
/// call is `Outside` exactly where its offset plus its width, 1 or 4, passes the length, and then
/// changes nothing.
pub trait Segment {
    // The bytes from offset 0 on.
    ghost bytes: { Self → List ℕ };

    /// The byte at an offset.
    fn load8(&self, at: u32) -> Result<u8, Outside>
        ensures { result ≡ load8 at (bytes self.now) };

    /// The doubleword at an offset.
    fn load32(&self, at: u32) -> Result<u32, Outside>
        ensures { result ≡ load32 at (bytes self.now) };

    /// A new byte at an offset.
    fn store8(&mut self, at: u32, value: u8) -> Result<(), Outside>
        ensures { Makes (store8 at value) result (bytes self.old) (bytes self.new) };

    /// A new doubleword at an offset.
    fn store32(&mut self, at: u32, value: u32) -> Result<(), Outside>
        ensures { Makes (store32 at value) result (bytes self.old) (bytes self.new) };
}
