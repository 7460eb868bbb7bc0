//! The region of an area, in memory.
ghost use Rattle.std.specs.Prelude.{◌≡◌, ◌≤◌, ◌<◌, ◌+◌, length};
ghost use Rattle.slb_image.specs.Fields.{length_field};
ghost use Rattle.machine_memory.specs.Contents.{first_byte};
ghost use Rattle.machine_memory.specs.Areas.{IsArea, region_frames};
ghost use Rattle.late_launch.specs.Regions.{region_bytes, input_page, output_page};

use machine_memory::{Memory, REGION_FRAMES, frame_law};
use region_pool::Ticket;

/// The bytes of a page.
pub(crate) const PAGE_SIZE: usize = 4096;

/// The offset in the region where the inputs lie; the stack begins below it.
pub(crate) const INPUTS_OFFSET: u32 = 57_344;

/// How many bytes the region has, by the name that contracts have for it.
#[tactic(auto, using(crate::proofs::Sizes::region_frames_are))]
pub(crate) fn region_size() -> usize
    ensures same { result ≡ first_byte region_frames }
    ensures number { result ≡ 65536 }
{
    PAGE_SIZE * REGION_FRAMES as usize
}

/// The bytes of the region.
pub(crate) fn region<'m>(memory: &'m Memory, area: &Ticket) -> &'m [u8]
    requires { IsArea memory.now.marks area.now }
    ensures bytes { result.now ≡ region_bytes memory.now area.now }
    ensures size { length result.now ≡ 65536 }
{
    &memory.lend(area)[..region_size()]
}

/// How many bytes the image has that a region begins with, by its length word.
pub(crate) fn image_len(region: &[u8]) -> usize
    requires { 4 ≤ length region.now }
    ensures { result ≡ length_field region.now }
{
    u16::from_le_bytes([region[2], region[3]]) as usize
}

/// The address of a page of the area, by its number.
fn page_at(memory: &Memory, area: &Ticket, number: u32) -> u32
    requires placed { IsArea memory.now.marks area.now }
    requires small { number < 18 }
    ensures { result ≡ first_byte (area.now.first + number) }
{
    frame_law(memory);
    PAGE_SIZE as u32 * (area.first() + number)
}

/// The address of the input page, which follows the region.
pub(crate) fn input_page(memory: &Memory, area: &Ticket) -> u32
    requires { IsArea memory.now.marks area.now }
    ensures { result ≡ input_page area.now }
{
    page_at(memory, area, REGION_FRAMES)
}

/// The address of the output page, which follows the input page.
pub(crate) fn output_page(memory: &Memory, area: &Ticket) -> u32
    requires { IsArea memory.now.marks area.now }
    ensures { result ≡ output_page area.now }
{
    page_at(memory, area, REGION_FRAMES + 1)
}
