//! A host that stands still, and the launch.
ghost use Rattle.std.specs.Prelude.{◌≡◌, ◌≤◌, length, is_some, IfSome};
ghost use Rattle.flk_base.specs.Plan.{ask};
ghost use Rattle.flk_base.specs.Stop.{Ends, or_lost, with_fuse};
ghost use Rattle.seal_device.specs.Commands.{Command};
ghost use Rattle.seal_device.specs.Digests.{on_device};
ghost use Rattle.seal_device.specs.Faults.{power_lost};
ghost use Rattle.machine_memory.specs.Areas.{IsArea};
ghost use Rattle.slb_image.specs.Image.{IsImageOf};
ghost use Rattle.late_launch.specs.Boards.{fused_device};
ghost use Rattle.late_launch.specs.Regions.{region_bytes};
ghost use Rattle.late_launch.specs.States.{has_image, image_in, start_registers};
ghost use Rattle.late_launch.specs.Answers.{launch_answer};

use crate::board::{Board, zero_registers};
use crate::dark::Dark;
use crate::launched::Launched;
use crate::region::{INPUTS_OFFSET, image_len, region};
use flk_base::{Fuse, PowerLost};
use i386_profile::{Cpu, Reg};
use machine_memory::frame_law;
use region_pool::Ticket;
use seal_device::Device;
use slb_image::{ImageView, view};
use std::marker::Model;

/// The most bytes that a launched image may have.
pub(crate) const LONGEST_IMAGE: usize = 49_152;

/// A host that stands still. It must be spent, by `launch` or `resume`.
pub struct Suspended {
    board: Board,
    area: Ticket,
}

impl Model for Suspended {
    ghost use Rattle.machine_memory.specs.Areas.{IsArea};
    ghost use Rattle.late_launch.specs.States.{SuspendedParts};

    ghost Value = { SuspendedParts };

    ghost view = { λ s. record { board = s.board; area = s.area } };

    ghost invariant = { λ s. IsArea s.board.memory.marks s.area };
}

/// Why no session runs.
pub enum LaunchEnd {
    /// The region does not begin with an image that has at most 49,152 bytes.
    NotImage(Suspended),
    /// The power was lost before the image was measured.
    PowerLost(Dark),
}

/// The image that a region begins with, if it does and the image has at most 49,152 bytes.
pub(crate) fn image_at(region: &[u8]) -> Option<ImageView<'_>>
    requires { 65536 ≤ length region.now }
    ensures exact { is_some result ≡ has_image region.now }
    ensures image { IfSome result (λ image. IsImageOf image (image_in region.now)) }
{
    let length = image_len(region);
    if length > LONGEST_IMAGE {
        return None;
    }
    view(&region[..length]).ok()
}

/// The registers that launched code starts with: all 0, but for its entry and its stack pointer.
fn start_registers(entry: u32) -> Cpu
    ensures { result ≡ start_registers entry }
{
    let mut start = zero_registers();
    start.regs[Reg::Esp as usize] = INPUTS_OFFSET;
    start.eip = entry;
    start
}

/// Measures the image that a region begins with, in one step of the fuse.
fn measure(device: &mut Device, region: &[u8], fuse: &mut Fuse) -> Result<(), PowerLost>
    requires { 65536 ≤ length region.now }
    ensures { Ends (or_lost power_lost)
        (on_device (ask (Command.Measure (image_in region.now))) (with_fuse device.old fuse.old.left))
        (with_fuse device.new fuse.new.left) result }
{
    device.measure(&region[..image_len(region)], fuse)
}

impl Suspended {
    /// The host of this board stands still, for a session in this area.
    pub(crate) fn new(board: Board, area: Ticket) -> Suspended
        requires { IsArea board.memory.marks area }
        ensures { result ≡ record { board = board; area = area } }
    {
        Suspended { board, area }
    }

    /// The late launch: devices are kept out of the region, and its image is measured in one step of the fuse.
    ///
    /// # Errors
    ///
    /// `NotImage` exactly where the region does not begin with an image of at most 49,152 bytes, and nothing
    /// changes; else `PowerLost` exactly where the fuse had no step left.
    pub fn launch(self) -> Result<Launched, LaunchEnd>
        ensures { result ≡ launch_answer self
            (on_device (ask (Command.Measure (image_in (region_bytes self.board.memory self.area)))) (fused_device self.board)) }
    {
        let Suspended { board, area } = self;
        let (mut device, mut memory, saved, mut fuse) = board.part();
        let entry = match image_at(region(&memory, &area)) {
            None => {
                let board = Board::from_parts(device, memory, saved, fuse);
                return Err(LaunchEnd::NotImage(Suspended::new(board, area)));
            }
            Some(image) => image.entry(),
        };
        frame_law(&memory);
        memory.guard(&area);
        match measure(&mut device, region(&memory, &area), &mut fuse) {
            Ok(()) => Ok(Launched::new(device, memory, saved, fuse, area, start_registers(entry))),
            Err(PowerLost) => {
                memory.give_wiped(area);
                Err(LaunchEnd::PowerLost(Dark::new(device, memory)))
            }
        }
    }

    /// The host goes on: its registers are as saved, and memory is as it is.
    pub fn resume(self) -> (Board, Ticket)
        ensures board { result.0 ≡ self.board }
        ensures area { result.1 ≡ self.area }
        ensures held { IsArea result.0.memory.marks result.1 }
    {
        let Suspended { board, area } = self;
        (board, area)
    }
}
