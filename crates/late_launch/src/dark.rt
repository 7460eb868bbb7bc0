//! A machine without power.
ghost use Rattle.std.specs.Prelude.{◌≡◌};
ghost use Rattle.late_launch.specs.Boards.{powered};

use crate::board::{Board, zero_registers};
use flk_base::Fuse;
use machine_memory::Memory;
use seal_device::Device;
use std::marker::Model;

/// A machine without power. It must be spent, by `power_on`. Contracts see what keeps its value: the device,
/// and which frames are taken.
pub struct Dark {
    device: Device,
    memory: Memory,
}

impl Model for Dark {
    ghost use Rattle.late_launch.specs.Boards.{DarkParts};

    ghost Value = { DarkParts };

    ghost view = { λ d. record { device = d.device; marks = d.memory.marks } };
}

impl Dark {
    /// A machine of this device and this memory, whose power is lost.
    pub(crate) fn new(device: Device, memory: Memory) -> Dark
        ensures { result ≡ record { device = device; marks = memory.marks } }
    {
        Dark { device, memory }
    }

    /// The power comes back: the device starts anew, memory is zero, the host's spans stay taken, its registers
    /// are 0, and there is no fuse.
    pub fn power_on(self) -> Board
        ensures { result ≡ powered self }
    {
        let Dark {
            mut device,
            mut memory,
        } = self;
        device.power_cycle();
        memory.power_cycle();
        Board::from_parts(device, memory, zero_registers(), Fuse { left: None })
    }
}
