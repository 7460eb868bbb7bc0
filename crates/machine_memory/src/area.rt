//! The area of a session: 18 frames, of which the first 16 are the region.
ghost use Rattle.std.specs.Prelude.{◌≡◌, length};
ghost use Rattle.std.specs.Borrow.{sem};
ghost use Rattle.machine_memory.specs.Contents.{first_byte};
ghost use Rattle.machine_memory.specs.Spans.{bytes_of};
ghost use Rattle.machine_memory.specs.LentSpans.{LendsRegion};
ghost use Rattle.machine_memory.specs.Areas.{IsArea, region_frames, region_of, guarded, unguarded};
ghost use Rattle.machine_memory.specs.Areas.{erased};

use crate::lists::exclude_at;
use crate::memory::Memory;
use crate::sizes::{FRAME_LEN, frames_of_region};
use region_pool::Ticket;

impl Memory {
    /// Keeps devices out of the region.
    pub fn guard(&mut self, area: &Ticket)
        requires { IsArea self.old.marks area.now }
        ensures { self.new ≡ guarded self.old area.now }
    {
        let first = area.first() as usize;
        exclude_at(&mut self.excluded, first, frames_of_region(), true);
    }

    /// Lets devices write to the region.
    pub fn unguard(&mut self, area: &Ticket)
        requires { IsArea self.old.marks area.now }
        ensures { self.new ≡ unguarded self.old area.now }
    {
        let first = area.first() as usize;
        exclude_at(&mut self.excluded, first, frames_of_region(), false);
    }

    /// Makes the bytes of the region zero.
    pub fn erase(&mut self, area: &Ticket)
        requires { IsArea self.old.marks area.now }
        ensures { self.new ≡ erased self.old area.now }
    {
        let first = area.first() as usize;
        self.blocks[first].wipe(FRAME_LEN * frames_of_region());
    }

    /// Lends the bytes of the region, to be written.
    pub fn region_mut(&mut self, area: &Ticket) -> &mut [u8]
        requires { IsArea self.old.marks area.now }
        ensures* lends { sem 𝓛 (LendsRegion self.entry area.now result) }
        ensures bytes { result.now ≡ bytes_of self.old (region_of area.now) }
        ensures size { length result.now ≡ first_byte region_frames }
    {
        let count = FRAME_LEN * frames_of_region();
        self.blocks[area.first() as usize].part(0, count)
    }
}
