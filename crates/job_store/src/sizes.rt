//! How large a disk and its slots are.
ghost use Rattle.std.specs.Prelude.{◌≡◌, ◌+◌, ◌<◌, ◌≤◌};
ghost use Rattle.job_store.specs.Contents.{disk_size};
ghost use Rattle.job_store.specs.Slots.{slot_at};

/// How many bytes a disk has.
pub const DISK_LEN: usize = 65_536;

/// How many jobs have slots on it, two each.
pub const JOBS: u32 = 8;

/// How many bytes a slot has.
pub const SLOT_LEN: usize = 4_096;

/// How many bytes the blob of a slot has at most. Two more say how many they are.
pub const LONGEST_BLOB: usize = 4_094;

/// The size of a disk, by the name that contracts have for it.
#[tactic(auto, unfolding(crate::specs::Contents::disk_size))]
pub(crate) fn size_of_disk() -> usize
    ensures same { result ≡ disk_size }
    ensures few { result < 1_048_576 }
{
    DISK_LEN
}

/// The address of slot `slot` of job `j`. The slot lies on the disk.
#[tactic(auto, unfolding(crate::specs::Contents::disk_size))]
pub(crate) fn address_of(j: u32, slot: u32) -> u32
    requires job { j < JOBS }
    requires slot { slot < 2 }
    ensures same { result ≡ slot_at j slot }
    ensures fits { result + SLOT_LEN ≤ disk_size }
{
    (2 * j + slot) * SLOT_LEN as u32
}
