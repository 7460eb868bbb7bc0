//! What is wrong with bytes that are no image.
ghost use Rattle.std.specs.Prelude.{◌≡◌};
ghost use Rattle.slb_image.specs.Faults.{fault_number};

/// Why bytes are no image, or why values have none. Each fault has the number of its row in
/// docs/IMAGES.md, and the checks are made in this order.
#[derive(Clone, Copy, Debug, PartialEq, Eq)]
pub enum ImageFault {
    /// There are fewer than 32 bytes.
    Short = 1,
    /// The length field is not in 33 to 49,152, or is not the number of bytes.
    Length = 2,
    /// The entry is not in 32 up to and without the length.
    Entry = 3,
    /// The mark is not `FLKC`.
    Mark = 4,
    /// The version is not 1.
    Version = 5,
    /// The flags are neither 0 nor 1.
    Flags = 6,
    /// The budget is not in 1 to 1,000,000.
    Budget = 7,
    /// A reserved byte is not 0.
    Reserved = 8,
}

/// The number of a fault of images.
pub fn fault_number(fault: ImageFault) -> u32
    ensures { result ≡ fault_number fault }
{
    match fault {
        ImageFault::Short => 1,
        ImageFault::Length => 2,
        ImageFault::Entry => 3,
        ImageFault::Mark => 4,
        ImageFault::Version => 5,
        ImageFault::Flags => 6,
        ImageFault::Budget => 7,
        ImageFault::Reserved => 8,
    }
}
