//! Laws of a disk and of its slots. Each function does nothing: its clauses are laws, which are
//! proved because they stand here.
ghost use Rattle.std.specs.Prelude.{◌≡◌, ◌≢◌, ◌⊎◌, ℕ, ◌+◌, ◌<◌, ◌≤◌, List, length, All, Some, None};
ghost use Rattle.std.specs.Prelude.{slice_get, if◌then◌else◌};
ghost use Rattle.job_store.specs.Contents.{Contents, HasSize, IsSound, IsClean, IsTorn, disk_size};
ghost use Rattle.job_store.specs.Contents.{blank, after_sync};
ghost use Rattle.job_store.specs.PowerCycle.{after_power_cycle, dirty_below};
ghost use Rattle.job_store.specs.Calls.{Call, Outcome, IsOnDisk, Follows, AllFollow, KeepsPower};
ghost use Rattle.job_store.specs.Simulated.{Simulated, fails, next};
ghost use Rattle.job_store.specs.Slots.{slot_at, slot_bytes, stored, with_blob, SparesSlot};

use crate::sizes::{JOBS, LONGEST_BLOB, SLOT_LEN};

/// Whatever comes of a call of a disk, also of a write that failed, and whatever a power cycle
/// leaves: the disk keeps its size, and a place that is not dirty has its stable byte. So it is on
/// a blank one.
pub fn call_law()
    ensures size { (outcome : Outcome) (old new : Contents) → HasSize old →
        Follows outcome old new → HasSize new }
    ensures sound { (outcome : Outcome) (old new : Contents) → HasSize old → IsSound old →
        Follows outcome old new → IsSound new }
    ensures blank { HasSize blank × IsSound blank }
{}

/// What a call of the disk in memory leaves is what a call of any disk may leave that was done, or
/// that failed.
pub fn simulated_law()
    ensures { (call : Call) (disk : Simulated) → IsOnDisk call → HasSize disk.contents →
        Follows (if fails disk then Outcome.Failed call else Outcome.Done call) disk.contents
        (next call disk).0.contents }
{}

/// A power cycle changes no place that is not dirty, and nothing at all right after a sync. Where
/// it is to keep as many dirty places as there are, and each other one has its stable byte, it
/// leaves all that was written.
pub fn power_law()
    ensures clean { (disk : Contents) (keep place : ℕ) (fill : List ℕ) → HasSize disk →
        IsClean disk place →
        slice_get (after_power_cycle keep fill disk).working place
        ≡ slice_get disk.stable place }
    ensures synced { (disk : Contents) (keep : ℕ) (fill : List ℕ) → HasSize disk →
        after_power_cycle keep fill (after_sync disk) ≡ after_sync disk }
    ensures kept { (disk : Contents) (keep : ℕ) (fill : List ℕ) → HasSize disk → IsSound disk →
        dirty_below disk.dirty disk_size ≤ keep →
        (after_power_cycle keep fill disk).working ≡ disk.working }
{}

/// What was written to a slot is stored there: the blob, or none where it has no bytes.
pub fn stored_law()
    ensures blob { (disk : Contents) (j s : ℕ) (blob : List ℕ) → HasSize disk →
        j < JOBS → s < 2 → 0 < length blob → length blob ≤ LONGEST_BLOB →
        stored j s (with_blob j s blob disk) ≡ Some blob }
    ensures none { (disk : Contents) (j s : ℕ) (blob : List ℕ) → HasSize disk →
        j < JOBS → s < 2 → length blob ≡ 0 →
        stored j s (with_blob j s blob disk) ≡ None }
{}

/// A write to a slot, done or failed, leaves the bytes of every other slot, and so what is stored
/// there.
pub fn other_slots_law()
    ensures done { (disk : Contents) (j s i t : ℕ) (blob : List ℕ) → HasSize disk →
        j < JOBS → s < 2 → i < JOBS → t < 2 → (i ≢ j) ⊎ (t ≢ s) → length blob ≤ LONGEST_BLOB →
        (slot_bytes i t (with_blob j s blob disk) ≡ slot_bytes i t disk)
        × (stored i t (with_blob j s blob disk) ≡ stored i t disk) }
    ensures failed { (old new : Contents) (j s i t count : ℕ) → HasSize old →
        j < JOBS → s < 2 → i < JOBS → t < 2 → (i ≢ j) ⊎ (t ≢ s) → count ≤ SLOT_LEN →
        IsTorn (slot_at j s) count old new →
        (slot_bytes i t new ≡ slot_bytes i t old) × (stored i t new ≡ stored i t old) }
{}

/// The law of slots. A slot was written, and later the disk was synced; between the two the power
/// stayed on, and no other write to the slot was tried. Then the slot's bytes, and so its blob,
/// stand through whatever comes of calls after it, done or failed, and of power cycles, as long as
/// no write to the slot is tried.
pub fn slot_law()
    ensures bytes { (j s : ℕ) (disk synced later : Contents) (between after : List Outcome) →
        HasSize disk → j < JOBS → s < 2 →
        AllFollow between disk synced →
        All KeepsPower between → All (SparesSlot j s) between →
        AllFollow after (after_sync synced) later → All (SparesSlot j s) after →
        slot_bytes j s later ≡ slot_bytes j s disk }
    ensures blob { (j s : ℕ) (blob : List ℕ) (disk synced later : Contents)
        (between after : List Outcome) →
        HasSize disk → j < JOBS → s < 2 → 0 < length blob → length blob ≤ LONGEST_BLOB →
        AllFollow between (with_blob j s blob disk) synced →
        All KeepsPower between → All (SparesSlot j s) between →
        AllFollow after (after_sync synced) later → All (SparesSlot j s) after →
        stored j s later ≡ Some blob }
{}
