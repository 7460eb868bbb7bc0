//! The comparison of tags.
ghost use Rattle.std.specs.Prelude.{◌≡◌, bytes_eq};

/// Whether two lists of bytes are the same. Where they are as long as each other, all bytes are looked
/// at, also after one that differs.
pub fn is_same(one: &[u8], other: &[u8]) -> bool
    ensures { result ≡ bytes_eq one.now other.now }
{
    if one.len() != other.len() {
        return false;
    }
    let mut same = true;
    for i in 0..one.len() {
        same &= one[i] == other[i];
    }
    same
}
