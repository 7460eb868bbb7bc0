//! A session that has ended.
ghost use Rattle.std.specs.Prelude.{◌≡◌};
ghost use Rattle.machine_memory.specs.Areas.{IsArea};
ghost use Rattle.late_launch.specs.Regions.{IsCleared};
ghost use Rattle.late_launch.specs.States.{resumed};

use crate::board::Board;
use crate::ends::End;
use flk_base::Fuse;
use i386_profile::Cpu;
use machine_memory::Memory;
use region_pool::Ticket;
use seal_device::Device;
use std::marker::Model;

/// A session that has ended: its region is zero, and devices may write there. It must be spent, by `resume`.
pub struct Closed {
    device: Device,
    memory: Memory,
    saved: Cpu,
    fuse: Fuse,
    area: Ticket,
    end: End,
    turns: u32,
}

impl Model for Closed {
    ghost use Rattle.late_launch.specs.Regions.{IsOver};
    ghost use Rattle.late_launch.specs.States.{ClosedParts};

    ghost Value = { ClosedParts };

    ghost view = { λ c. record {
      saved = c.saved;
      memory = c.memory;
      device = c.device;
      fuse = c.fuse.left;
      area = c.area;
      end = c.end;
      turns = c.turns;
    } };

    ghost invariant = { λ c. IsOver c.memory c.area };
}

impl Closed {
    /// The session that ended so in this area.
    pub(crate) fn new(
        device: Device,
        memory: Memory,
        saved: Cpu,
        fuse: Fuse,
        area: Ticket,
        end: End,
        turns: u32,
    ) -> Closed
        requires placed { IsArea memory.marks area }
        requires cleared { IsCleared memory area }
        ensures { result ≡ record {
          saved = saved;
          memory = memory;
          device = device;
          fuse = fuse.left;
          area = area;
          end = end;
          turns = turns;
        } }
    {
        Closed {
            device,
            memory,
            saved,
            fuse,
            area,
            end,
            turns,
        }
    }

    /// How the session ended.
    pub fn end(&self) -> End
        ensures { result ≡ self.now.end }
    {
        self.end
    }

    /// How many turns it took.
    pub fn turns(&self) -> u32
        ensures { result ≡ self.now.turns }
    {
        self.turns
    }

    /// The host goes on: its registers are as they were saved, the region is zero and open to devices, and all
    /// else is as the session left it.
    pub fn resume(self) -> (Board, Ticket)
        ensures board { result.0 ≡ resumed self }
        ensures area { result.1 ≡ self.area }
        ensures held { IsArea result.0.memory.marks result.1 }
        ensures cleared { IsCleared result.0.memory result.1 }
    {
        let Closed {
            device,
            memory,
            saved,
            fuse,
            area,
            end: _,
            turns: _,
        } = self;
        (Board::from_parts(device, memory, saved, fuse), area)
    }
}
