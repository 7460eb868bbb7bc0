// A source and a sink in memory, which fail at the calls whose numbers they are given.
ghost use Rattle.std.specs.Prelude.{◌≡◌, ◌+◌, ◌<◌, ◌≤◌, ◌↔◌, ◌==◌, ℕ, List, [], ◌++◌, Option, Some};
ghost use Rattle.std.specs.Prelude.{true, length, drop, min, Ok, Contains, IsTrue, IsErr, IfOk};
ghost use Rattle.std.specs.Prelude.{OnOk, OnErr};
ghost use Rattle.std.specs.Io.{ReadsAtMost};
ghost use Rattle.std.specs.Io.KnownBytes.{ReadConsumes, Appends};
ghost use Rattle.flk_base.specs.Causes.{HasCause, PutHasCause, next_count};
ghost use Rattle.flk_base.specs.Known.{AppendsPrefix, KeepsWhereKnown};

use crate::buffer::NoMemory;
use crate::streams::{Failed, PutFault, Sink, Source};
use std::alloc::Global;
use std::marker::Model;

/// A source over bytes in memory.
#[derive(Drop)]
pub struct MemSource {
    bytes: Vec<u8>,
    at: usize,
    failing: Vec<u32>,
    piece: u32,
    calls: u64,
    faults: u64,
}

impl Model for MemSource {
    ghost use Rattle.std.specs.Prelude.{◌<◌, ◌≤◌, drop, length};
    ghost use Rattle.flk_base.specs.InMemory.{MemReading};

    ghost Value = { MemReading };

    ghost view = { λ s. record {
      left = drop s.at s.bytes.items;
      failing = s.failing.items;
      piece = s.piece;
      calls = s.calls;
      faults = s.faults;
    } };

    ghost invariant = { λ s. (s.at ≤ length s.bytes.items) × (0 < s.piece) };
}

impl MemSource {
    /// A source that gives at most `piece` bytes a read, and fails the reads whose numbers, counted
    /// from 0, are in `failing`, and no others.
    pub fn new(
        alloc: Global,
        bytes: &[u8],
        failing: &[u32],
        piece: u32,
    ) -> Result<MemSource, NoMemory>
        requires { 0 < piece }
        ensures { IfOk result (λ source. source
            ≡ record {
              left = bytes.now;
              failing = failing.now;
              piece = piece;
              calls = 0;
              faults = 0;
            }) }
    {
        let Ok(bytes) = Vec::from_slice(alloc, bytes) else {
            return Err(NoMemory);
        };
        let Ok(failing) = Vec::from_slice(alloc, failing) else {
            return Err(NoMemory);
        };
        Ok(MemSource {
            bytes,
            at: 0,
            failing,
            piece,
            calls: 0,
            faults: 0,
        })
    }
}

// Whether the call of this number is to fail.
fn is_failing(failing: &[u32], call: u64) -> bool
    ensures { IsTrue result ↔ Contains failing.now call }
{
    failing.iter().any(|number| u64::from(*number) == call)
}

impl Source for MemSource {
    ghost left = { λ s. Some s.left };

    ghost fault_count = { λ s. s.faults };

    fn read(&mut self, buf: &mut [u8]) -> Result<usize, Failed>
        requires { 0 < length buf.old }
        ensures bound { ReadsAtMost result buf.new }
        ensures bytes { OnOk result
            (ReadConsumes (Some self.old.left) (Some self.new.left) result buf.new) }
        ensures kept { OnErr result (KeepsWhereKnown (Some self.old.left) (Some self.new.left)) }
        ensures cause { HasCause self.old.faults self.new.faults result }

        // Beside what the trait says: which reads fail, how many bytes one gives, and what stands
        // after it.
        ensures failing { IsErr result ↔ Contains self.old.failing self.old.calls }
        ensures count { IfOk result
            (λ n. n ≡ min (min (length buf.old) (length self.old.left)) self.old.piece) }
        ensures ok { IfOk result (λ n. self.new
            ≡ record self.old { left = drop n self.old.left; calls = next_count self.old.calls }) }
        ensures err { OnErr result (self.new
            ≡ record self.old {
              calls = next_count self.old.calls;
              faults = next_count self.old.faults;
            }) }
    {
        let call = self.calls;
        self.calls = self.calls.saturating_add(1);
        if is_failing(&self.failing, call) {
            self.faults = self.faults.saturating_add(1);
            return Err(Failed);
        }
        let count = buf
            .len()
            .min(self.bytes.len() - self.at)
            .min(self.piece as usize);
        let end = self.at + count;
        buf[..count].copy_from_slice(&self.bytes[self.at..end]);
        self.at = end;
        Ok(count)
    }

    fn faults(&self) -> u64 {
        self.faults
    }
}

/// A sink in memory.
#[derive(Drop)]
pub struct MemSink {
    bytes: Vec<u8>,
    failing: Vec<u32>,
    calls: u64,
    faults: u64,
}

impl Model for MemSink {
    ghost use Rattle.flk_base.specs.InMemory.{MemWriting};

    ghost Value = { MemWriting };

    ghost view = { λ s. record {
      contents = s.bytes.items;
      failing = s.failing.items;
      calls = s.calls;
      faults = s.faults;
    } };
}

impl MemSink {
    /// An empty sink that fails the puts whose numbers, counted from 0, are in `failing`, and no
    /// others.
    pub fn new(alloc: Global, failing: &[u32]) -> Result<MemSink, NoMemory>
        ensures { IfOk result (λ sink. sink
            ≡ record { contents = []; failing = failing.now; calls = 0; faults = 0 }) }
    {
        let Ok(failing) = Vec::from_slice(alloc, failing) else {
            return Err(NoMemory);
        };
        Ok(MemSink {
            bytes: Vec::new(alloc),
            failing,
            calls: 0,
            faults: 0,
        })
    }

    /// All that was put.
    pub fn contents(&self) -> &[u8]
        ensures { result.now ≡ self.now.contents }
    {
        self.bytes.as_slice()
    }
}

impl Sink for MemSink {
    ghost contents = { λ s. Some s.contents };

    ghost fault_count = { λ s. s.faults };

    ghost may_allocate = { true };

    fn put(&mut self, piece: &[u8]) -> Result<(), PutFault>
        ensures ok { OnOk result
            (Appends (Some self.old.contents) (Some self.new.contents) piece.now) }
        ensures err { OnErr result
            (AppendsPrefix (Some self.old.contents) (Some self.new.contents) [] piece.now) }
        ensures cause { PutHasCause result true self.old.faults self.new.faults }

        // Beside what the trait says: which puts fail, and what stands after each answer.
        ensures failing { (result ≡ Err PutFault.Failed)
            ↔ Contains self.old.failing self.old.calls }
        ensures put { OnOk result (self.new
            ≡ record self.old {
              contents = self.old.contents ++ piece.now;
              calls = next_count self.old.calls;
            }) }
        ensures failed { result ≡ Err PutFault.Failed → self.new
            ≡ record self.old {
              calls = next_count self.old.calls;
              faults = next_count self.old.faults;
            } }
        ensures out_of_memory { result ≡ Err PutFault.NoMemory
            → self.new ≡ record self.old { calls = next_count self.old.calls } }
    {
        let call = self.calls;
        self.calls = self.calls.saturating_add(1);
        if is_failing(&self.failing, call) {
            self.faults = self.faults.saturating_add(1);
            return Err(PutFault::Failed);
        }
        match self.bytes.extend_from_slice(piece) {
            Ok(()) => return Ok(()),
            Err(_) => return Err(PutFault::NoMemory),
        }
    }

    fn faults(&self) -> u64 {
        self.faults
    }
}
