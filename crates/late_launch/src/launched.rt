//! A session that runs.
ghost use Rattle.std.specs.Prelude.{◌≡◌, ◌≤◌, ◌+◌, ◌++◌, [], ◌∷◌, length, map, true, Some, IfOk};
ghost use Rattle.std.specs.Borrow.{sem};
ghost use Rattle.flk_base.specs.Plan.{ask};
ghost use Rattle.flk_base.specs.Stop.{Ends, or_lost, reported, reported_into};
ghost use Rattle.slb_image.specs.Image.{IsImageOf};
ghost use Rattle.machine_memory.specs.Writes.{written, part};
ghost use Rattle.machine_memory.specs.Contents.{first_byte};
ghost use Rattle.machine_memory.specs.Areas.{IsArea, region_frames, guarded};
ghost use Rattle.machine_memory.specs.ArmedWrites.{ended_by};
ghost use Rattle.seal_device.specs.Blobs.{blob_size};
ghost use Rattle.seal_device.specs.Commands.{Command};
ghost use Rattle.seal_device.specs.Digests.{on_device};
ghost use Rattle.seal_device.specs.Faults.{power_lost, register_fault, seal_fault, unseal_fault};
ghost use Rattle.seal_device.specs.Faults.{create_fault, read_fault, increment_fault, random_fault};
ghost use Rattle.late_launch.specs.Regions.{around, region_bytes, around_after_turn, input_page, inputs_offset, page, with_outputs, IsGuarded};
ghost use Rattle.late_launch.specs.Ends.{end_byte, IsEndOf, closing, extend_each};
ghost use Rattle.late_launch.specs.States.{has_image, image_in, session_device, lost};
ghost use Rattle.late_launch.specs.Lending.{LendsRegion};
ghost use Rattle.late_launch.specs.Answers.{close_answer};

use crate::closed::Closed;
use crate::dark::Dark;
use crate::ends::End;
use crate::region::{INPUTS_OFFSET, PAGE_SIZE, input_page, output_page, region};
use crate::suspended::image_at;
use flk_base::{Fuse, PowerLost};
use i386_profile::Cpu;
use machine_memory::{Dma, Memory, NotTaken, frame_law};
use region_pool::Ticket;
use seal_device::{
    BLOB_ROOM, CounterFault, Device, LONGEST_SEALED, RandomFault, RegisterFault, SealFault,
    UnsealFault,
};
use slb_image::ImageView;
use std::marker::Model;

/// The register that a late launch resets.
const LAUNCH_REGISTER: u32 = 17;

/// A session that runs: devices are kept out of its region. It must be spent, by `close` or `lost`. Contracts
/// see the region apart, and memory around it as the host will find it.
pub struct Launched {
    device: Device,
    memory: Memory,
    saved: Cpu,
    fuse: Fuse,
    area: Ticket,
    start: Cpu,
}

impl Model for Launched {
    ghost use Rattle.machine_memory.specs.Areas.{IsArea};
    ghost use Rattle.late_launch.specs.Regions.{around, region_bytes, IsSession};
    ghost use Rattle.late_launch.specs.States.{LaunchedParts};

    ghost Value = { LaunchedParts };

    ghost view = { λ l. record {
      saved = l.saved;
      around = around l.memory l.area;
      region = region_bytes l.memory l.area;
      device = l.device;
      fuse = l.fuse.left;
      area = l.area;
      start = l.start;
    } };

    ghost invariant = { λ l. IsSession l.memory l.area };
}

/// The byte of an end, and the nonce.
fn end_text(end: End, nonce: &[u8; 20]) -> [u8; 21]
    ensures { result ≡ end_byte end ∷ nonce.now }
{
    let mut text = [end.byte(); 21];
    text[1..].copy_from_slice(nonce);
    text
}

/// The first bytes of the input page.
fn read_inputs(memory: &Memory, area: &Ticket, inputs: &mut [u8])
    requires placed { IsArea memory.now.marks area.now }
    requires short { length inputs.old ≤ 4096 }
    ensures { inputs.new ≡ part memory.now.bytes (input_page area.now) (length inputs.old) }
{
    if let Err(NotTaken) = memory.host_read(input_page(memory, area), inputs) {
        unreachable!();
    }
}

/// Writes a piece over as many bytes from an offset on.
fn write_at(bytes: &mut [u8], at: usize, piece: &[u8])
    requires { at + length piece.now ≤ length bytes.old }
    ensures { bytes.new ≡ written bytes.old at piece.now }
{
    bytes[at..at + piece.len()].copy_from_slice(piece);
}

/// A page of outputs, and zeros after them.
fn page_of(outputs: &[u8]) -> [u8; PAGE_SIZE]
    requires { length outputs.now ≤ 4096 }
    ensures { result ≡ page outputs.now }
{
    let mut page = [0; PAGE_SIZE];
    write_at(&mut page, 0, outputs);
    page
}

/// Puts the outputs into the output page, and zeros after them.
fn put_outputs(memory: &mut Memory, area: &Ticket, outputs: &[u8])
    requires placed { IsArea memory.old.marks area.now }
    requires short { length outputs.now ≤ 4096 }
    ensures { memory.new ≡ with_outputs memory.old area.now outputs.now }
{
    let at = output_page(memory, area);
    if let Err(NotTaken) = memory.host_write(at, &page_of(outputs)) {
        unreachable!();
    }
}

impl Launched {
    /// A session in this area, from whose region devices are kept out.
    pub(crate) fn new(
        device: Device,
        memory: Memory,
        saved: Cpu,
        fuse: Fuse,
        area: Ticket,
        start: Cpu,
    ) -> Launched
        requires placed { IsArea memory.marks area }
        requires guarded { IsGuarded memory area }
        ensures { result ≡ record {
          saved = saved;
          around = around memory area;
          region = region_bytes memory area;
          device = device;
          fuse = fuse.left;
          area = area;
          start = start;
        } }
    {
        Launched {
            device,
            memory,
            saved,
            fuse,
            area,
            start,
        }
    }

    /// The image that the region begins with, as it does after the launch until the code writes there.
    pub fn image(&self) -> ImageView<'_>
        requires { has_image self.now.region ≡ true }
        ensures { IsImageOf result (image_in self.now.region) }
    {
        match image_at(region(&self.memory, &self.area)) {
            Some(image) => image,
            None => unreachable!(),
        }
    }

    /// The registers that the launched code starts with.
    pub fn cpu(&self) -> Cpu
        ensures { result ≡ self.now.start }
    {
        self.start
    }

    /// Lends the bytes of the region, to be written.
    pub fn region(&mut self) -> &mut [u8]
        ensures* lends { sem 𝓛 (LendsRegion self.entry result) }
        ensures bytes { result.now ≡ self.old.region }
        ensures size { length result.now ≡ 65536 }
    {
        frame_law(&self.memory);
        self.memory.region_mut(&self.area)
    }

    /// Copies so many bytes of the input page to where the inputs lie in the region.
    pub fn take_inputs(&mut self, len: u16)
        requires { len ≤ 4096 }
        ensures taken { self.new ≡ record self.old {
          region = written self.old.region inputs_offset (part self.old.around.bytes (input_page self.old.area) len);
        } }
        // The page lies in memory.
        ensures whole { length (part self.old.around.bytes (input_page self.old.area) len) ≡ len }
    {
        frame_law(&self.memory);
        let mut page = [0; PAGE_SIZE];
        let inputs = &mut page[..len as usize];
        read_inputs(&self.memory, &self.area, inputs);
        write_at(self.region(), INPUTS_OFFSET as usize, inputs);
    }

    /// Does the device writes that wait for a turn. One that touches the region is blocked.
    pub fn device_writes(&mut self, dma: &mut Dma, turn: u32)
        ensures session { self.new ≡ record self.old {
          around = around_after_turn turn self.old.area self.old.around dma.old;
        } }
        ensures ended { dma.new ≡ map (ended_by turn (guarded self.old.around self.old.area).excluded) dma.old }
    {
        frame_law(&self.memory);
        dma.run(turn, &mut self.memory);
    }

    /// Extends register `r` by the text that `front` and `text` are together, in one step of the fuse.
    ///
    /// # Errors
    ///
    /// Those of `Board::extend`.
    pub fn extend(&mut self, r: u32, front: &[u8], text: &[u8]) -> Result<(), RegisterFault>
        ensures ends { Ends (reported register_fault RegisterFault.PowerLost)
            (on_device (ask (Command.Extend r (front.now ++ text.now))) (session_device self.old))
            (session_device self.new) result }
        ensures others { self.new ≡ record self.old { device = self.new.device; fuse = self.new.fuse } }
    {
        self.device.extend(r, front, text, &mut self.fuse)
    }

    /// The value of register `r`, in one step of the fuse.
    ///
    /// # Errors
    ///
    /// Those of `Board::extend`.
    pub fn read_register(&mut self, r: u32) -> Result<[u8; 20], RegisterFault>
        ensures ends { Ends (reported register_fault RegisterFault.PowerLost)
            (on_device (ask (Command.ReadRegister r)) (session_device self.old))
            (session_device self.new) result }
        ensures others { self.new ≡ record self.old { device = self.new.device; fuse = self.new.fuse } }
    {
        self.device.read_register(r, &mut self.fuse)
    }

    /// Seals bytes in register 17's present value, in one step of the fuse: their blob stands in the first bytes of
    /// `out`, and its length is answered.
    ///
    /// # Errors
    ///
    /// `PowerLost` where the fuse has no step left, and nothing changes; else, with the step taken and `out` as it
    /// was, `Unprovisioned` where the device has no seed, `TooLong` past 2,048 bytes, `NoCounter` where a counter is
    /// asked for that is not in use, `CounterEnd` where one is asked for ahead that stands at 2^32 - 1, `SerialEnd`
    /// where the next serial is 2^64 - 1.
    pub fn seal(
        &mut self,
        bytes: &[u8],
        counter: Option<u8>,
        ahead: bool,
        out: &mut [u8; BLOB_ROOM],
    ) -> Result<usize, SealFault>
        ensures ends { Ends (reported_into out.old seal_fault SealFault.PowerLost)
            (on_device (ask (Command.Seal bytes.now counter ahead)) (session_device self.old))
            (session_device self.new) (result, out.new) }
        ensures others { self.new ≡ record self.old { device = self.new.device; fuse = self.new.fuse } }
        ensures size { IfOk result (λ size. size ≡ blob_size (length bytes.now)) }
    {
        self.device.seal(bytes, counter, ahead, out, &mut self.fuse)
    }

    /// Unseals a blob, in one step of the fuse: the bytes that were sealed stand in the first bytes of `out`, and
    /// how many they are is answered.
    ///
    /// # Errors
    ///
    /// Those of `Board::unseal`.
    pub fn unseal(
        &mut self,
        blob: &[u8],
        out: &mut [u8; LONGEST_SEALED],
    ) -> Result<usize, UnsealFault>
        ensures ends { Ends (reported_into out.old unseal_fault UnsealFault.PowerLost)
            (on_device (ask (Command.Unseal blob.now)) (session_device self.old))
            (session_device self.new) (result, out.new) }
        ensures others { self.new ≡ record self.old { device = self.new.device; fuse = self.new.fuse } }
        ensures size { IfOk result (λ size. size ≤ LONGEST_SEALED) }
    {
        self.device.unseal(blob, out, &mut self.fuse)
    }

    /// Tries a blob for the next value of the counter that it bears, in one step of the fuse, and gives the counter's
    /// number.
    ///
    /// # Errors
    ///
    /// Those of `Board::unseal`, where `WrongCounter` comes where the blob bears no counter, or one that is not in use
    /// or of which its value is not the next.
    pub fn check_next(&mut self, blob: &[u8]) -> Result<u8, UnsealFault>
        ensures ends { Ends (reported unseal_fault UnsealFault.PowerLost)
            (on_device (ask (Command.CheckNext blob.now)) (session_device self.old))
            (session_device self.new) result }
        ensures others { self.new ≡ record self.old { device = self.new.device; fuse = self.new.fuse } }
    {
        self.device.check_next(blob, &mut self.fuse)
    }

    /// Creates a counter that register 17's present value owns, in one step of the fuse, and gives its number.
    ///
    /// # Errors
    ///
    /// `PowerLost` where the fuse has no step left, and nothing changes; else, with the step taken, `Full` where all
    /// counters are in use, `End` where one has had the value 2^32 - 1.
    pub fn new_counter(&mut self) -> Result<u8, CounterFault>
        ensures ends { Ends (reported create_fault CounterFault.PowerLost)
            (on_device (ask Command.NewCounter) (session_device self.old))
            (session_device self.new) result }
        ensures others { self.new ≡ record self.old { device = self.new.device; fuse = self.new.fuse } }
    {
        self.device.new_counter(&mut self.fuse)
    }

    /// The value of counter `id`, in one step of the fuse.
    ///
    /// # Errors
    ///
    /// Those of `Board::read_counter`.
    pub fn read_counter(&mut self, id: u8) -> Result<u32, CounterFault>
        ensures ends { Ends (reported read_fault CounterFault.PowerLost)
            (on_device (ask (Command.ReadCounter id)) (session_device self.old))
            (session_device self.new) result }
        ensures others { self.new ≡ record self.old { device = self.new.device; fuse = self.new.fuse } }
    {
        self.device.read_counter(id, &mut self.fuse)
    }

    /// Increments counter `id`, in one step of the fuse, and gives its new value.
    ///
    /// # Errors
    ///
    /// `PowerLost` where the fuse has no step left, and nothing changes; else, with the step taken, `NoCounter` where
    /// the counter is not in use, `NotOwner` where register 17 had another value when it was created, `End` where it
    /// stands at 2^32 - 1.
    pub fn increment(&mut self, id: u8) -> Result<u32, CounterFault>
        ensures ends { Ends (reported increment_fault CounterFault.PowerLost)
            (on_device (ask (Command.Increment id)) (session_device self.old))
            (session_device self.new) result }
        ensures others { self.new ≡ record self.old { device = self.new.device; fuse = self.new.fuse } }
    {
        self.device.increment(id, &mut self.fuse)
    }

    /// The next random word, in one step of the fuse.
    ///
    /// # Errors
    ///
    /// Those of `Board::random`.
    pub fn random(&mut self) -> Result<[u8; 20], RandomFault>
        ensures ends { Ends (reported random_fault RandomFault.PowerLost)
            (on_device (ask Command.Random) (session_device self.old))
            (session_device self.new) result }
        ensures others { self.new ≡ record self.old { device = self.new.device; fuse = self.new.fuse } }
    {
        self.device.random(&mut self.fuse)
    }

    /// Extends register 17 by the text that `front` and `text` are together, in one step of the fuse.
    fn extend_launch(&mut self, front: &[u8], text: &[u8]) -> Result<(), PowerLost>
        ensures ends { Ends (or_lost power_lost)
            (on_device (extend_each ((front.now ++ text.now) ∷ [])) (session_device self.old))
            (session_device self.new) result }
        ensures others { self.new ≡ record self.old { device = self.new.device; fuse = self.new.fuse } }
    {
        match self.extend(LAUNCH_REGISTER, front, text) {
            Err(RegisterFault::PowerLost) => Err(PowerLost),
            // There is a register 17.
            Ok(()) | Err(RegisterFault::NoRegister) => Ok(()),
        }
    }

    /// Extends register 17 by the texts with which a session ends, each in one step of the fuse.
    #[tactic(auto, using(crate::proofs::Closing::extend_then, crate::proofs::Closing::extend_lost))]
    fn extend_closing(
        &mut self,
        end: End,
        inputs: &[u8],
        outputs: &[u8],
        nonce: &[u8; 20],
    ) -> Result<(), PowerLost>
        ensures ends { Ends (or_lost power_lost)
            (on_device (extend_each (closing inputs.now outputs.now end nonce.now)) (session_device self.old))
            (session_device self.new) result }
        ensures others { self.new ≡ record self.old { device = self.new.device; fuse = self.new.fuse } }
    {
        self.extend_launch(b"in", inputs)?;
        self.extend_launch(b"out", outputs)?;
        self.extend_launch(b"end", &end_text(end, nonce))?;
        self.extend_launch(b"close", b"")
    }

    /// The session ends so, after so many turns: register 17 is extended by what says how, the outputs and
    /// zeros after them come into the output page, the region becomes zero, and devices may write to it again.
    ///
    /// # Errors
    ///
    /// Where the fuse had no step left for one of the four extends.
    pub fn close(
        self,
        end: End,
        turns: u32,
        inputs: &[u8],
        outputs: &[u8],
        nonce: &[u8; 20],
    ) -> Result<Closed, Dark>
        requires inputs { length inputs.now ≤ 4096 }
        requires outputs { length outputs.now ≤ 4096 }
        requires end { IsEndOf end outputs.now }
        ensures { result ≡ close_answer self end turns outputs.now
            (on_device (extend_each (closing inputs.now outputs.now end nonce.now)) (session_device self)) }
    {
        let mut session = self;
        if let Err(PowerLost) = session.extend_closing(end, inputs, outputs, nonce) {
            return Err(session.lost());
        }
        let Launched {
            device,
            mut memory,
            saved,
            fuse,
            area,
            start: _,
        } = session;
        frame_law(&memory);
        put_outputs(&mut memory, &area, outputs);
        memory.erase(&area);
        memory.unguard(&area);
        Ok(Closed::new(device, memory, saved, fuse, area, end, turns))
    }

    /// The power is lost: the fuse has no step left.
    pub fn lost(self) -> Dark
        requires { self.fuse ≡ Some 0 }
        ensures { result ≡ lost self self.device }
    {
        let Launched {
            device,
            mut memory,
            saved: _,
            fuse: _,
            area,
            start: _,
        } = self;
        memory.give_wiped(area);
        Dark::new(device, memory)
    }
}
