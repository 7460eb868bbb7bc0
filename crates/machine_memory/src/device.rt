//! What devices may write.
ghost use Rattle.std.specs.Prelude.{◌≡◌, ◌^◌, ◌<◌, length, not};
ghost use Rattle.std.specs.List.{list_all};
ghost use Rattle.machine_memory.specs.DeviceWrites.{may_write};

use crate::sizes::FRAME_LEN;

/// How a device's write ended.
#[derive(Clone, Copy)]
pub enum DevEnd {
    /// Its bytes are written.
    Done,
    /// Some byte of it is past memory or in an excluded frame, and nothing is written.
    Blocked,
}

/// Whether none of the bits is set.
fn is_clear(bits: &[bool]) -> bool
    ensures { result ≡ list_all (λ bit. not bit) bits.now }
{
    bits.iter().all(|bit| !*bit)
}

/// Whether a device may write so many bytes from an address on.
pub(crate) fn may_write(excluded: &[bool], at: u32, count: usize) -> bool
    requires { length excluded.now < 2 ^ 32 }
    ensures { result ≡ may_write excluded.now at count }
{
    if count == 0 {
        return true;
    }
    let at = at as usize;
    let size = FRAME_LEN * excluded.len();
    if at >= size || count > size - at {
        return false;
    }
    let first = at / FRAME_LEN;
    let end = (at + (count - 1)) / FRAME_LEN + 1;
    is_clear(&excluded[first..end])
}
