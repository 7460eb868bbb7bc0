// Commands to the slots of the disk, by the fuse of a board.
ghost use Rattle.std.specs.Prelude.{◌≡◌, ◌≤◌, ◌<◌, length, IfOk};
ghost use Rattle.flk_base.specs.Plan.{ask};
ghost use Rattle.job_store.specs.Commands.{ReadSlot, WriteSlot, SyncSlots};
ghost use Rattle.job_engine.specs.Commands.{ToSlots};
ghost use Rattle.job_engine.specs.Whole.{on_both};
ghost use Rattle.flk_run.specs.Events.{overwrites};
ghost use Rattle.flk_run.specs.Slots.{fused_machine, read_reply, done_reply};

use job_store::{JOBS, LONGEST_BLOB, SLOT_LEN, SimDisk, SlotFault, Slots};
use late_launch::Board;

/// Reads the blob of a slot into the first bytes of `out`, in one step, and answers how many they are.
pub(crate) fn read_slot(
    board: &mut Board,
    disk: &mut SimDisk,
    j: u32,
    s: u32,
    out: &mut [u8; SLOT_LEN],
) -> Result<usize, SlotFault>
    requires job { j < JOBS }
    requires slot { s < 2 }
    ensures read { (fused_machine board.new disk.new, read_reply out.new result)
        ≡ on_both (ask (ToSlots (ReadSlot j s))) (fused_machine board.old disk.old) }
    ensures kept { board.new ≡ record board.old { fuse = board.new.fuse } }
    ensures short { IfOk result (λ len. len ≤ LONGEST_BLOB) }
{
    Slots::read(disk, j, s, out, &mut board.fuse)
}

// Writes a blob into a slot, in one step.
fn write_slot(
    board: &mut Board,
    disk: &mut SimDisk,
    j: u32,
    s: u32,
    blob: &[u8],
) -> Result<(), SlotFault>
    requires job { j < JOBS }
    requires slot { s < 2 }
    requires short { length blob.now ≤ LONGEST_BLOB }
    ensures written { (fused_machine board.new disk.new, done_reply result)
        ≡ on_both (ask (ToSlots (WriteSlot j s blob.now))) (fused_machine board.old disk.old) }
    ensures kept { board.new ≡ record board.old { fuse = board.new.fuse } }
{
    Slots::write(disk, j, s, blob, &mut board.fuse)
}

// Syncs the disk, in one step.
fn sync_slots(board: &mut Board, disk: &mut SimDisk) -> Result<(), SlotFault>
    ensures synced { (fused_machine board.new disk.new, done_reply result)
        ≡ on_both (ask (ToSlots SyncSlots)) (fused_machine board.old disk.old) }
    ensures kept { board.new ≡ record board.old { fuse = board.new.fuse } }
{
    Slots::sync(disk, &mut board.fuse)
}

/// Writes a blob into a slot, and syncs the disk once that is done.
pub(crate) fn overwrite(
    board: &mut Board,
    disk: &mut SimDisk,
    j: u32,
    s: u32,
    blob: &[u8],
) -> Result<(), SlotFault>
    requires job { j < JOBS }
    requires slot { s < 2 }
    requires short { length blob.now ≤ LONGEST_BLOB }
    ensures overwritten { (fused_machine board.new disk.new, done_reply result)
        ≡ on_both (overwrites j s blob.now) (fused_machine board.old disk.old) }
    ensures kept { board.new ≡ record board.old { fuse = board.new.fuse } }
{
    match write_slot(board, disk, j, s, blob) {
        Ok(()) => return sync_slots(board, disk),
        Err(fault) => return Err(fault),
    }
}
