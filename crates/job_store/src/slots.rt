//! The slots of jobs, over any disk.
ghost use Rattle.std.specs.Prelude.{◌≡◌, ◌≢◌, ◌↔◌, ◌+◌, ◌<◌, ◌≤◌, length, take, drop, Err, None};
ghost use Rattle.std.specs.Prelude.{IfOk, OnOk, OnErr, IfSome, IfNone, Some};
ghost use Rattle.job_store.specs.Contents.{HasSize, IsTorn, after_sync};
ghost use Rattle.job_store.specs.Calls.{Call};
ghost use Rattle.job_store.specs.Slots.{slot_at, stored, blob_in, entry, slot_write, with_blob};
ghost use Rattle.job_store.specs.Slots.{HasSlotCause, MakesCall, TakesStep};

use crate::disk::{Disk, DiskFailed};
use crate::sizes::{JOBS, LONGEST_BLOB, SLOT_LEN, address_of};
use byteorder::{BigEndian, ByteOrder};
use flk_base::Fuse;

/// Why a slot was not written, synced or read, with the number of the fault. Lost power comes
/// before all else.
#[derive(Clone, Copy, Debug, PartialEq, Eq)]
pub enum SlotFault {
    /// The disk failed.
    DiskFault = 1,
    /// The slot holds no blob.
    NoBlob = 2,
    /// The power was lost before the step.
    PowerLost = 5,
}

// Puts the bytes that stand for a blob into the first ones of the buffer.
fn put_entry(blob: &[u8], bytes: &mut [u8; SLOT_LEN])
    requires { length blob.now ≤ LONGEST_BLOB }
    ensures { take (length blob.now + 2) bytes.new ≡ entry blob.now }
{
    BigEndian::write_u16(bytes, blob.len() as u16);
    bytes[2..blob.len() + 2].copy_from_slice(blob);
}

// Copies the blob of a slot with these bytes to the front of `out`, and answers its length; none
// where it holds none.
fn take_blob(bytes: &[u8; SLOT_LEN], out: &mut [u8; SLOT_LEN]) -> Option<usize>
    ensures none { IfNone result ((blob_in bytes.now ≡ None) × (out.new ≡ out.old)) }
    ensures blob { IfSome result (λ len. blob_in bytes.now ≡ Some (take len out.new)) }
    ensures len { IfSome result (λ len. (0 < len) × (len ≤ LONGEST_BLOB)) }
    ensures rest { IfSome result (λ len. drop len out.new ≡ drop len out.old) }
{
    let len = BigEndian::read_u16(bytes) as usize;
    if len == 0 || LONGEST_BLOB < len {
        return None;
    }
    out[..len].copy_from_slice(&bytes[2..len + 2]);
    Some(len)
}

/// The slots of jobs on a disk: two for each, 0 and 1.
pub struct Slots;

impl Slots {
    /// Writes a blob to slot `slot` of job `j`, in one step and by one write: its length in two
    /// bytes, the higher first, and then the blob.
    ///
    /// # Errors
    ///
    /// Where the power is lost, which is found first, or the disk fails. A write that failed may
    /// leave anything where the blob was to stand.
    pub fn write<D: Disk>(
        disk: &mut D,
        j: u32,
        slot: u32,
        blob: &[u8],
        fuse: &mut Fuse,
    ) -> Result<(), SlotFault>
        requires job { j < JOBS }
        requires slot { slot < 2 }
        requires short { length blob.now ≤ LONGEST_BLOB }

        ensures lost { (result ≡ Err SlotFault.PowerLost) ↔ (fuse.old.left ≡ Some 0) }
        ensures step { TakesStep fuse.old.left fuse.new.left result }
        ensures call { MakesCall D.call_gives (slot_write j slot blob.now) disk.old disk.new
            result }
        ensures cause { HasSlotCause (D.fault_count disk.old) (D.fault_count disk.new) result }
        ensures blob_or_fault { result ≢ Err SlotFault.NoBlob }

        ensures ok { OnOk result
            (D.contents disk.new ≡ with_blob j slot blob.now (D.contents disk.old)) }
        ensures torn { result ≡ Err SlotFault.DiskFault
            → IsTorn (slot_at j slot) (length blob.now + 2) (D.contents disk.old)
            (D.contents disk.new) }
        ensures size { result ≢ Err SlotFault.PowerLost → HasSize (D.contents disk.old) }
    {
        if fuse.step().is_err() {
            return Err(SlotFault::PowerLost);
        }
        let mut bytes = [0; SLOT_LEN];
        put_entry(blob, &mut bytes);
        match disk.write_at(address_of(j, slot), &bytes[..blob.len() + 2]) {
            Ok(()) => Ok(()),
            Err(DiskFailed) => Err(SlotFault::DiskFault),
        }
    }

    /// Syncs the disk, in one step and by one sync.
    ///
    /// # Errors
    ///
    /// Where the power is lost, which is found first, or the disk fails. The disk then holds what
    /// it held.
    pub fn sync<D: Disk>(disk: &mut D, fuse: &mut Fuse) -> Result<(), SlotFault>
        ensures lost { (result ≡ Err SlotFault.PowerLost) ↔ (fuse.old.left ≡ Some 0) }
        ensures step { TakesStep fuse.old.left fuse.new.left result }
        ensures call { MakesCall D.call_gives Call.Sync disk.old disk.new result }
        ensures cause { HasSlotCause (D.fault_count disk.old) (D.fault_count disk.new) result }
        ensures done_or_fault { result ≢ Err SlotFault.NoBlob }

        ensures ok { OnOk result (D.contents disk.new ≡ after_sync (D.contents disk.old)) }
        ensures err { OnErr result (D.contents disk.new ≡ D.contents disk.old) }
        ensures size { result ≢ Err SlotFault.PowerLost → HasSize (D.contents disk.old) }
    {
        if fuse.step().is_err() {
            return Err(SlotFault::PowerLost);
        }
        match disk.sync() {
            Ok(()) => Ok(()),
            Err(DiskFailed) => Err(SlotFault::DiskFault),
        }
    }

    /// Reads the blob of slot `slot` of job `j`, in one step and by one read: it stands in the
    /// first bytes of `out`, and its length is answered.
    ///
    /// # Errors
    ///
    /// Where the power is lost, which is found first, the disk fails, or the slot holds no blob.
    /// `out` is then as before.
    pub fn read<D: Disk>(
        disk: &mut D,
        j: u32,
        slot: u32,
        out: &mut [u8; SLOT_LEN],
        fuse: &mut Fuse,
    ) -> Result<usize, SlotFault>
        requires job { j < JOBS }
        requires slot { slot < 2 }

        ensures lost { (result ≡ Err SlotFault.PowerLost) ↔ (fuse.old.left ≡ Some 0) }
        ensures step { TakesStep fuse.old.left fuse.new.left result }
        ensures call { MakesCall D.call_gives (Call.Read (slot_at j slot) SLOT_LEN) disk.old
            disk.new result }
        ensures cause { HasSlotCause (D.fault_count disk.old) (D.fault_count disk.new) result }

        // It holds no blob exactly where the length that stands in it is 0, or past what it has
        // room for.
        ensures no_blob { result ≡ Err SlotFault.NoBlob
            → stored j slot (D.contents disk.old) ≡ None }
        ensures blob { IfOk result
            (λ len. stored j slot (D.contents disk.old) ≡ Some (take len out.new)) }
        ensures len { IfOk result (λ len. (0 < len) × (len ≤ LONGEST_BLOB)) }
        ensures rest { IfOk result (λ len. drop len out.new ≡ drop len out.old) }
        ensures err { OnErr result (out.new ≡ out.old) }
        ensures same { D.contents disk.new ≡ D.contents disk.old }
        ensures size { result ≢ Err SlotFault.PowerLost → HasSize (D.contents disk.old) }
    {
        if fuse.step().is_err() {
            return Err(SlotFault::PowerLost);
        }
        let mut bytes = [0; SLOT_LEN];
        if let Err(DiskFailed) = disk.read_at(address_of(j, slot), &mut bytes) {
            return Err(SlotFault::DiskFault);
        }
        match take_blob(&bytes, out) {
            Some(len) => Ok(len),
            None => Err(SlotFault::NoBlob),
        }
    }
}
