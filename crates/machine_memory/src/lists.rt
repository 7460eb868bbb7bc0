//! Parts of lists that are written over.
ghost use Rattle.std.specs.Prelude.{◌≡◌, ◌+◌, ◌<◌, ◌≤◌, ◌^◌, length, vec_len, replicate, map};
ghost use Rattle.region_pool.specs.Marks.{is_free};
ghost use Rattle.machine_memory.specs.Writes.{written};

use region_pool::Pool;

/// Writes a piece over as many bytes from an index on.
pub(crate) fn write_at(bytes: &mut Vec<u8>, at: usize, piece: &[u8])
    requires { at + length piece.now ≤ vec_len bytes.old }
    ensures { bytes.new.items ≡ written bytes.old.items at piece.now }
{
    bytes[at..at + piece.len()].copy_from_slice(piece);
}

/// Makes so many bytes zero, from an index on.
pub(crate) fn wipe_at(bytes: &mut Vec<u8>, at: usize, count: usize)
    requires { at + count ≤ vec_len bytes.old }
    ensures { bytes.new.items ≡ written bytes.old.items at (replicate count 0) }
{
    bytes[at..at + count].fill(0);
}

/// Sets so many exclusion bits, from a frame on.
pub(crate) fn exclude_at(excluded: &mut Vec<bool>, first: usize, frames: usize, bit: bool)
    requires { first + frames ≤ vec_len excluded.old }
    ensures { excluded.new.items ≡ written excluded.old.items first (replicate frames bit) }
{
    excluded[first..first + frames].fill(bit);
}

/// Excludes the frames that are free, and no others.
pub(crate) fn exclude_free(excluded: &mut [bool], pool: &Pool)
    requires size { length excluded.old ≡ length pool.now }
    requires small { length pool.now < 2 ^ 32 }
    ensures { excluded.new ≡ map is_free pool.now }
{
    for (frame, bit) in excluded.iter_mut().enumerate() {
        *bit = !pool.is_taken(frame as u32);
    }
}
