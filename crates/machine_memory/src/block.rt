//! A block of bytes, of which a part can be lent, to be written by others.
ghost use Rattle.std.specs.Prelude.{◌≡◌, ◌+◌, ◌≤◌, length, replicate, [], IfOk};
ghost use Rattle.std.specs.Borrow.{sem};
ghost use Rattle.machine_memory.specs.Writes.{part, written};
ghost use Rattle.machine_memory.specs.LentParts.{LendsPart, LendsWhole, LendsBytes};

use crate::lists::{wipe_at, write_at};
use region_pool::NoMemory;
use std::alloc::{AllocError, Global};
use std::marker::Model;

/// The bytes of a span, in memory of their own, or none. Contracts see the bytes.
#[derive(Drop)]
pub(crate) struct Block {
    items: Vec<u8>,
}

impl Model for Block {
    ghost use Rattle.std.specs.Prelude.{List, ℕ};

    ghost Value = { List ℕ };

    ghost view = { λ b. b.items.items };
}

/// Lends a part of a slice.
fn part_of(bytes: &mut [u8], at: usize, count: usize) -> &mut [u8]
    requires { at + count ≤ length bytes.old }
    ensures* lends { sem 𝓛 (LendsPart bytes.entry at count result) }
    ensures value { result.now ≡ part bytes.old at count }
{
    &mut bytes[at..at + count]
}

impl Block {
    /// A block of no bytes, which takes no memory.
    pub(crate) fn empty(alloc: Global) -> Block
        ensures { result ≡ [] }
    {
        Block {
            items: Vec::new(alloc),
        }
    }

    /// A block of so many zeros.
    pub(crate) fn zeros(alloc: Global, count: usize) -> Result<Block, NoMemory>
        ensures { IfOk result (λ block. block ≡ replicate count 0) }
    {
        match vec![in alloc; 0; count] {
            Ok(items) => Ok(Block { items }),
            Err(AllocError) => Err(NoMemory),
        }
    }

    /// Its bytes.
    pub(crate) fn bytes(&self) -> &[u8]
        ensures { result.now ≡ self.now }
    {
        self.items.as_slice()
    }

    /// Writes a piece over as many bytes from an index on.
    pub(crate) fn write(&mut self, at: usize, piece: &[u8])
        requires { at + length piece.now ≤ length self.old }
        ensures { self.new ≡ written self.old at piece.now }
    {
        write_at(&mut self.items, at, piece);
    }

    /// Makes so many of its first bytes zero.
    pub(crate) fn wipe(&mut self, count: usize)
        requires { count ≤ length self.old }
        ensures { self.new ≡ written self.old 0 (replicate count 0) }
    {
        wipe_at(&mut self.items, 0, count);
    }

    /// Makes all its bytes zero.
    pub(crate) fn wipe_all(&mut self)
        ensures { self.new ≡ replicate (length self.old) 0 }
    {
        self.items.fill(0);
    }

    /// Lends all bytes.
    fn whole(&mut self) -> &mut [u8]
        ensures* lends { sem 𝓛 (LendsWhole self.entry result) }
        ensures value { result.now ≡ self.old }
    {
        self.items.as_mut_slice()
    }

    /// Lends so many bytes from an index on.
    pub(crate) fn part(&mut self, at: usize, count: usize) -> &mut [u8]
        requires { at + count ≤ length self.old }
        ensures* lends { sem 𝓛 (LendsBytes self.entry at count result) }
        ensures value { result.now ≡ part self.old at count }
    {
        part_of(self.whole(), at, count)
    }
}
