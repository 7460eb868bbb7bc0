//! Memory: what is taken, given, read and written.
ghost use Rattle.std.specs.Prelude.{◌≡◌, ◌≢◌, ◌↔◌, ℕ, ◌≤◌, length, replicate, true, IfOk, IfErr};
ghost use Rattle.std.specs.Prelude.{OnOk, OnErr, IsErrOf, MatchResult};
ghost use Rattle.region_pool.specs.Places.{IsLowestPlace, HasNoPlace};
ghost use Rattle.region_pool.specs.Spans.{Span, Holds, IsDisjoint};
ghost use Rattle.std.specs.Borrow.{sem};
ghost use Rattle.machine_memory.specs.Writes.{part};
ghost use Rattle.machine_memory.specs.Contents.{blank, after_power_cycle, first_byte};
ghost use Rattle.machine_memory.specs.Spans.{LiesInSpan, bytes_of, with_bytes, after_take};
ghost use Rattle.machine_memory.specs.Spans.{after_give};
ghost use Rattle.machine_memory.specs.LentSpans.{LendsSpan};
ghost use Rattle.machine_memory.specs.DeviceWrites.{HasShutByte, device_end, after_device_write};

use crate::block::Block;
use crate::blocks::{no_blocks, read_span, wipe_blocks, write_spans};
use crate::device::{DevEnd, may_write};
use crate::lists::{exclude_at, exclude_free};
use crate::sizes::{FRAME_LEN, frames_of_memory};
use crate::spans::lies_in_span;
use region_pool::{NoMemory, NoRoom, Pool, Purpose, Ticket};
use std::alloc::{AllocError, Global};
use std::marker::Model;

/// Why no span was taken.
#[derive(Clone, Copy)]
pub enum TakeFault {
    /// No multiple of the alignment begins that many free frames.
    NoRoom,
    /// There was no memory for the bytes of the span.
    NoMemory,
}

/// The bytes lie in no one span that is taken.
#[derive(Clone, Copy)]
pub struct NotTaken;

/// Memory of `FRAMES` frames: for each frame a mark, an exclusion bit and a block, in which a span
/// has its bytes at its first frame. Contracts see all bytes, and the marks and the bits. Every
/// frame that is free has no bytes and is seen as zero, and it is excluded.
#[derive(Drop)]
pub struct Memory {
    pub(crate) blocks: Vec<Block>,
    pub(crate) pool: Pool,
    pub(crate) excluded: Vec<bool>,
}

impl Model for Memory {
    ghost use Rattle.machine_memory.specs.Contents.{Contents};
    ghost use Rattle.machine_memory.specs.Blocks.{contents_in, IsInBlocks};

    ghost Value = { Contents };

    ghost view = { λ m. contents_in m.pool m.excluded.items m.blocks.items };

    ghost invariant = { λ m. IsInBlocks m.pool m.excluded.items m.blocks.items };
}

/// So many frames, each excluded.
fn all_excluded(alloc: Global, frames: usize) -> Result<Vec<bool>, NoMemory>
    ensures { IfOk result (λ excluded. excluded.items ≡ replicate frames true) }
{
    match vec![in alloc; true; frames] {
        Ok(excluded) => Ok(excluded),
        Err(AllocError) => Err(NoMemory),
    }
}

impl Memory {
    /// Memory in which every frame is free.
    ///
    /// # Errors
    ///
    /// Where there is no memory for it.
    pub fn blank(alloc: Global) -> Result<Memory, NoMemory>
        ensures { IfOk result (λ memory. memory ≡ blank) }
    {
        let frames = frames_of_memory();
        let pool = Pool::new(alloc, frames)?;
        let blocks = no_blocks(alloc, frames as usize)?;
        let excluded = all_excluded(alloc, frames as usize)?;
        Ok(Memory {
            blocks,
            pool,
            excluded,
        })
    }

    /// Takes a span of `frames` frames at the lowest place, the least multiple of `align` that
    /// begins that many free frames. Its bytes are zero, and devices may write them.
    ///
    /// # Errors
    ///
    /// `NoRoom` where there is no such place, and else `NoMemory` where there is no memory for its
    /// bytes. Memory is then as before.
    pub fn take(&mut self, frames: u32, align: u32, purpose: Purpose) -> Result<Ticket, TakeFault>
        requires some { 1 ≤ frames }
        requires aligned { 1 ≤ align }

        ensures no_room { IsErrOf result TakeFault.NoRoom ↔ HasNoPlace self.old.marks frames align }
        ensures unchanged { OnErr result (self.new ≡ self.old) }

        ensures lowest { IfOk result
            (λ ticket. IsLowestPlace self.old.marks frames align ticket.first) }
        ensures frames { IfOk result (λ ticket. ticket.frames ≡ frames) }
        ensures purpose { IfOk result (λ ticket. ticket.purpose ≡ purpose) }
        ensures taken { IfOk result (λ ticket. self.new ≡ after_take self.old ticket) }
        ensures zero { IfOk result (λ ticket.
            bytes_of self.new ticket ≡ replicate (first_byte ticket.frames) 0) }

        ensures held { IfOk result (λ ticket. Holds self.new.marks ticket) }
        ensures others_held { OnOk result (
            (other : Span) → Holds self.old.marks other → Holds self.new.marks other) }
        ensures apart { IfOk result (λ ticket.
            (other : Span) → Holds self.old.marks other → IsDisjoint ticket other) }
    {
        if self.pool.place(frames, align).is_none() {
            return Err(TakeFault::NoRoom);
        }
        let alloc = *self.blocks.allocator();
        let block = match Block::zeros(alloc, FRAME_LEN * frames as usize) {
            Ok(block) => block,
            Err(NoMemory) => return Err(TakeFault::NoMemory),
        };
        match self.pool.take(frames, align, purpose) {
            Ok(ticket) => {
                let first = ticket.first() as usize;
                self.blocks[first] = block;
                exclude_at(&mut self.excluded, first, frames as usize, false);
                Ok(ticket)
            }
            Err(NoRoom) => Err(TakeFault::NoRoom),
        }
    }

    /// Gives a span back: its bytes become zero, and its frames excluded and free.
    pub fn give_wiped(&mut self, ticket: Ticket)
        requires { Holds self.old.marks ticket }
        ensures given { self.new ≡ after_give self.old ticket }
        ensures others_held { (other : Span) → Holds self.old.marks other → other ≢ ticket
            → Holds self.new.marks other }
    {
        let first = ticket.first() as usize;
        let frames = ticket.frames() as usize;
        let alloc = *self.blocks.allocator();
        self.blocks[first] = Block::empty(alloc);
        exclude_at(&mut self.excluded, first, frames, true);
        self.pool.give(ticket);
    }

    /// Reads bytes of one span for the host.
    ///
    /// # Errors
    ///
    /// Where they lie in no one span that is taken. `out` is then as before.
    pub fn host_read(&self, at: u32, out: &mut [u8]) -> Result<(), NotTaken>
        ensures taken { MatchResult result
            (λ _. LiesInSpan self.now.marks at (length out.old))
            (λ _. ¬ LiesInSpan self.now.marks at (length out.old)) }
        ensures read { OnOk result (out.new ≡ part self.now.bytes at (length out.old)) }
        ensures unchanged { OnErr result (out.new ≡ out.old) }
    {
        if !lies_in_span(&self.pool, at, out.len()) {
            return Err(NotTaken);
        }
        read_span(&self.blocks, &self.pool, at as usize, out);
        Ok(())
    }

    /// Writes bytes of one span for the host. Whether its frames are excluded does not matter.
    ///
    /// # Errors
    ///
    /// Where they lie in no one span that is taken. Memory is then as before.
    pub fn host_write(&mut self, at: u32, bytes: &[u8]) -> Result<(), NotTaken>
        ensures taken { MatchResult result
            (λ _. LiesInSpan self.old.marks at (length bytes.now))
            (λ _. ¬ LiesInSpan self.old.marks at (length bytes.now)) }
        ensures written { OnOk result (self.new ≡ with_bytes self.old at bytes.now) }
        ensures unchanged { OnErr result (self.new ≡ self.old) }
    {
        if !lies_in_span(&self.pool, at, bytes.len()) {
            return Err(NotTaken);
        }
        write_spans(&mut self.blocks, &self.pool, at as usize, bytes);
        Ok(())
    }

    /// Writes bytes for a device, wherever spans begin and end. It is blocked where some byte is
    /// past memory or in an excluded frame, and then changes nothing. One of no bytes is done.
    pub fn dev_write(&mut self, at: u32, bytes: &[u8]) -> DevEnd
        ensures ended { result ≡ device_end self.old.excluded at (length bytes.now) }
        ensures blocked { (result ≡ DevEnd.Blocked) ↔ HasShutByte self.old at (length bytes.now) }
        ensures written { self.new ≡ after_device_write self.old at bytes.now }
    {
        if !may_write(&self.excluded, at, bytes.len()) {
            return DevEnd::Blocked;
        }
        write_spans(&mut self.blocks, &self.pool, at as usize, bytes);
        DevEnd::Done
    }

    /// Lends the bytes of a span.
    pub fn lend(&self, span: &Ticket) -> &[u8]
        requires { Holds self.now.marks span.now }
        ensures bytes { result.now ≡ bytes_of self.now span.now }
        ensures size { length result.now ≡ first_byte span.now.frames }
    {
        self.blocks[span.first() as usize].bytes()
    }

    /// Lends the bytes of a span, to be written.
    pub fn lend_mut(&mut self, span: &Ticket) -> &mut [u8]
        requires { Holds self.old.marks span.now }
        ensures* lends { sem 𝓛 (LendsSpan self.entry span.now result) }
        ensures bytes { result.now ≡ bytes_of self.old span.now }
        ensures size { length result.now ≡ first_byte span.now.frames }
    {
        let count = FRAME_LEN * span.frames() as usize;
        self.blocks[span.first() as usize].part(0, count)
    }

    /// The power goes and comes back: all bytes become zero. Spans stay taken, and their frames are
    /// no longer excluded.
    pub fn power_cycle(&mut self)
        ensures { self.new ≡ after_power_cycle self.old }
    {
        wipe_blocks(&mut self.blocks);
        exclude_free(&mut self.excluded, &self.pool);
    }
}
