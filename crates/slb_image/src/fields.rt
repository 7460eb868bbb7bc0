//! The fields of a front, by their offsets.
ghost use Rattle.std.specs.Prelude.{◌≡◌, ◌+◌, ◌≤◌, length};
ghost use Rattle.byteorder.specs.Endian.{little_from};
ghost use Rattle.slb_image.specs.Fields.{entry_field, length_field, version_field, flags_field};
ghost use Rattle.slb_image.specs.Fields.{budget_field};

/// How many bytes a front has.
pub(crate) const FRONT_LEN: usize = 32;

/// How many bytes a code has at most.
pub(crate) const CODE_LEN_MAX: usize = 49_120;

/// How many turns a code may take at most.
pub(crate) const BUDGET_MAX: u32 = 1_000_000;

/// The mark of an image.
pub(crate) const MARK: &[u8; 4] = b"FLKC";

/// The version of the form.
pub(crate) const VERSION: u16 = 1;

/// The number in two bytes from an offset, the lowest first.
fn u16_at(bytes: &[u8], offset: usize) -> u16
    requires { offset + 2 ≤ length bytes.now }
    ensures { result ≡ little_from offset 2 bytes.now }
{
    u16::from_le_bytes([bytes[offset], bytes[offset + 1]])
}

/// Where the code is entered, an offset from the front's first byte.
pub(crate) fn entry_in(bytes: &[u8]) -> u16
    requires { 32 ≤ length bytes.now }
    ensures { result ≡ entry_field bytes.now }
{
    u16_at(bytes, 0)
}

/// How many bytes front and code have.
pub(crate) fn length_in(bytes: &[u8]) -> u16
    requires { 32 ≤ length bytes.now }
    ensures { result ≡ length_field bytes.now }
{
    u16_at(bytes, 2)
}

/// The version that the bytes give.
pub(crate) fn version_in(bytes: &[u8]) -> u16
    requires { 32 ≤ length bytes.now }
    ensures { result ≡ version_field bytes.now }
{
    u16_at(bytes, 8)
}

/// The flags, of which bit 0 marks a job.
pub(crate) fn flags_in(bytes: &[u8]) -> u16
    requires { 32 ≤ length bytes.now }
    ensures { result ≡ flags_field bytes.now }
{
    u16_at(bytes, 10)
}

/// How many turns the code may take.
pub(crate) fn budget_in(bytes: &[u8]) -> u32
    requires { 32 ≤ length bytes.now }
    ensures { result ≡ budget_field bytes.now }
{
    u32::from_le_bytes([bytes[12], bytes[13], bytes[14], bytes[15]])
}
