//! Device writes that are armed for the turns of a session.
ghost use Rattle.std.specs.Prelude.{◌≡◌, [], ◌∷◌, ◌++◌, map, count_by, None, OnOk, OnErr};
ghost use Rattle.std.specs.Prelude.{if◌then◌else◌};
ghost use Rattle.machine_memory.specs.DeviceWrites.{after_device_write};
ghost use Rattle.machine_memory.specs.ArmedWrites.{Armed, is_waiting, is_done, is_blocked, is_due};
ghost use Rattle.machine_memory.specs.ArmedWrites.{memory_after_turn, ended_by};

use crate::device::DevEnd;
use crate::memory::Memory;
use region_pool::NoMemory;
use std::alloc::Global;
use std::marker::Model;

/// A write of a device. Contracts see its values.
#[derive(Drop)]
struct ArmedWrite {
    turn: u32,
    at: u32,
    bytes: Vec<u8>,
    ended: Option<DevEnd>,
}

impl Model for ArmedWrite {
    ghost use Rattle.machine_memory.specs.ArmedWrites.{Armed};

    ghost Value = { Armed };

    ghost view = { λ w. record {
      turn = w.turn;
      at = w.at;
      bytes = w.bytes.items;
      ended = w.ended;
    } };
}

impl ArmedWrite {
    fn is_due(&self, turn: u32) -> bool
        ensures { result ≡ is_due turn self.now }
    {
        self.ended.is_none() && self.turn == turn
    }

    /// Does the write, if it waits for the turn.
    fn run(&mut self, turn: u32, memory: &mut Memory)
        ensures memory { memory.new
            ≡ (if is_due turn self.old
            then after_device_write memory.old self.old.at self.old.bytes
            else memory.old) }
        ensures ended { self.new ≡ ended_by turn memory.old.excluded self.old }
    {
        if self.is_due(turn) {
            self.ended = Some(memory.dev_write(self.at, &self.bytes));
        }
    }
}

/// Writes of devices, in the order of arming: each waits for its turn, or it was done or blocked.
#[derive(Drop)]
pub struct Dma {
    writes: Vec<ArmedWrite>,
}

impl Model for Dma {
    ghost use Rattle.std.specs.Prelude.{List};
    ghost use Rattle.machine_memory.specs.ArmedWrites.{Armed};

    ghost Value = { List Armed };

    ghost view = { λ d. d.writes.items };
}

impl Dma {
    /// No writes.
    pub fn new(alloc: Global) -> Dma
        ensures { result ≡ [] }
    {
        Dma {
            writes: Vec::new(alloc),
        }
    }

    /// Arms a write for a turn, after all that were armed before.
    ///
    /// # Errors
    ///
    /// Where there is no memory for it. The writes are then as before.
    pub fn arm(&mut self, turn: u32, at: u32, bytes: &[u8]) -> Result<(), NoMemory>
        ensures armed { OnOk result (self.new
            ≡ self.old ++ record { turn = turn; at = at; bytes = bytes.now; ended = None } ∷ []) }
        ensures unchanged { OnErr result (self.new ≡ self.old) }
    {
        let alloc = *self.writes.allocator();
        let bytes = Vec::from_slice(alloc, bytes).map_err(|_| NoMemory)?;
        let write = ArmedWrite {
            turn,
            at,
            bytes,
            ended: None,
        };
        self.writes.push(write).map_err(|_| NoMemory)
    }

    /// Does the writes that wait for the turn, in the order of arming.
    pub fn run(&mut self, turn: u32, memory: &mut Memory)
        ensures memory { memory.new ≡ memory_after_turn turn memory.old self.old }
        ensures ended { self.new ≡ map (ended_by turn memory.old.excluded) self.old }
        ensures marks { memory.new.marks ≡ memory.old.marks }
        ensures excluded { memory.new.excluded ≡ memory.old.excluded }
    {
        for write in self.writes.iter_mut() {
            write.run(turn, memory);
        }
    }

    /// How many writes were done.
    pub fn done(&self) -> u64
        ensures { result ≡ count_by (λ write. is_done write.ended) self.now }
    {
        self.writes
            .iter()
            .filter(|write| matches!(write.ended, Some(DevEnd::Done)))
            .count() as u64
    }

    /// How many writes were blocked.
    pub fn blocked(&self) -> u64
        ensures { result ≡ count_by (λ write. is_blocked write.ended) self.now }
    {
        self.writes
            .iter()
            .filter(|write| matches!(write.ended, Some(DevEnd::Blocked)))
            .count() as u64
    }

    /// How many writes wait.
    pub fn left(&self) -> u64
        ensures { result ≡ count_by (λ write. is_waiting write.ended) self.now }
    {
        self.writes
            .iter()
            .filter(|write| write.ended.is_none())
            .count() as u64
    }

    /// Drops all writes.
    pub fn clear(&mut self)
        ensures { self.new ≡ [] }
    {
        self.writes.clear();
    }
}
