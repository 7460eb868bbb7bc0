//! What stands before the first of a byte.

ghost use Rattle.std.specs.Prelude.{◌≡◌, ◌≤◌, ◌==◌, not, length};
ghost use Rattle.std.specs.List.{prefix_len};

/// How many bytes stand before the first that is this one.
pub(crate) fn count_before(mark: u8, text: &[u8]) -> usize
    ensures value { result ≡ prefix_len (λ c. not (c == mark)) text.now }
    ensures within { result ≤ length text.now }
{
    text.iter().take_while(|c| **c != mark).count()
}
