//! Laws of sessions (specs/). Each function does nothing: its clauses are laws, which are proved because they stand here.
ghost use Rattle.std.specs.Prelude.{◌≡◌, ◌≤◌, ◌<◌, ◌+◌, ◌↔◌, ℕ, List, [], length, IsTrue};
ghost use Rattle.region_pool.specs.Places.{IsPlace};
ghost use Rattle.machine_memory.specs.Contents.{Contents, IsMemory, IsFree, IsExcluded, frame_of};
ghost use Rattle.seal_device.specs.Digests.{on_device};
ghost use Rattle.late_launch.specs.Boards.{BoardParts, fused_device};
ghost use Rattle.slb_core.specs.Services.{longest_outputs};
ghost use Rattle.session_driver.specs.Answers.{ran_at, ended_answer};
ghost use Rattle.session_driver.specs.Quiet.{quiet_plan, SameEnd, EndAlike, quiet_answer};
ghost use Rattle.session_driver.specs.Sessions.{area_frames, area_alignment, area_at, permits_in};
ghost use Rattle.session_driver.specs.Resume.{IsOpenIn};

/// Where memory shuts devices out of its free frames alone, a session permits a device's write exactly where each of
/// its bytes lies in a frame that is taken, or in the input or the output page of the area. So none of them lies past
/// memory, in the region or in a free frame.
pub fn permitted_writes_law()
    ensures { (memory : Contents) (first at count : ℕ) → IsMemory memory →
        IsPlace memory.marks area_frames area_alignment first →
        ((frame : ℕ) → IsExcluded memory frame → IsFree memory frame) →
        IsTrue (permits_in memory (area_at first) at count)
        ↔ ((address : ℕ) → at ≤ address → address < at + count → IsOpenIn memory first (frame_of address)) }
{}

/// A session that runs while no device write is armed does what is told without memory: the same commands to the device,
/// with the same end, turns and outputs. It leaves memory and the host's registers as they were.
pub fn quiet_session_law()
    ensures plan { (board : BoardParts) (first : ℕ) (image inputs nonce : List ℕ) → IsMemory board.memory →
        IsPlace board.memory.marks area_frames area_alignment first → length inputs ≤ longest_outputs →
        EndAlike SameEnd (ran_at board first image inputs nonce [])
        (on_device (quiet_plan image inputs nonce) (fused_device board)) }
    ensures answer { (board : BoardParts) (first : ℕ) (image inputs nonce : List ℕ) → IsMemory board.memory →
        IsPlace board.memory.marks area_frames area_alignment first → length inputs ≤ longest_outputs →
        ended_answer board first (ran_at board first image inputs nonce [])
        ≡ quiet_answer board (on_device (quiet_plan image inputs nonce) (fused_device board)) }
{}
