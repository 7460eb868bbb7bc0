//! How large a frame is, and how many frames there are.
ghost use Rattle.std.specs.Prelude.{◌≡◌, ◌≤◌};
ghost use Rattle.machine_memory.specs.Contents.{frame_count};
ghost use Rattle.machine_memory.specs.Areas.{region_frames};

/// How many bytes a frame has.
pub const FRAME_LEN: usize = 4096;

/// How many frames memory has.
pub const FRAMES: u32 = 1024;

/// How many frames of an area are its region.
pub const REGION_FRAMES: u32 = 16;

/// The number of frames, by the name that contracts have for it.
#[tactic(auto, unfolding(crate::specs::Contents::frame_count))]
pub(crate) fn frames_of_memory() -> u32
    ensures same { result ≡ frame_count }
    ensures few { result ≤ 1_048_576 }
{
    FRAMES
}

/// The number of the region's frames, by the name that contracts have for it.
#[tactic(auto, unfolding(crate::specs::Areas::region_frames))]
pub(crate) fn frames_of_region() -> usize
    ensures same { result ≡ region_frames }
    ensures few { result ≤ 18 }
{
    REGION_FRAMES as usize
}
