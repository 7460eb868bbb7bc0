// Bytes that can be given room before they come.
ghost use Rattle.std.specs.Prelude.{vec_len, vec_capacity};
ghost use Rattle.std.specs.Prelude.{◌≡◌, ◌+◌, ◌≤◌, List, [], ◌++◌, length, IsOk, OnOk, OnErr};

use std::alloc::Global;
use std::marker::Model;

/// Memory ran out.
#[derive(Clone, Copy, Debug, PartialEq, Eq)]
pub struct NoMemory;

/// A list of bytes, with room for some more.
#[derive(Drop)]
pub struct Bytes {
    items: Vec<u8>,
}

impl Model for Bytes {
    ghost use Rattle.std.specs.Prelude.{◌-◌, vec_len, vec_capacity};
    ghost use Rattle.flk_base.specs.Buffer.{Buffer, buffer_code};

    ghost Value = { Buffer };

    ghost coded = { buffer_code };

    ghost view = { λ b. record {
      bytes = b.items.items;
      spare = vec_capacity b.items - vec_len b.items;
    } };
}

impl Bytes {
    /// No bytes. It never allocates.
    pub fn new(alloc: Global) -> Bytes
        ensures { result.bytes ≡ [] }
    {
        Bytes {
            items: Vec::new(alloc),
        }
    }

    // The bytes of a vector.
    pub(crate) fn from_vec(items: Vec<u8>) -> Bytes
        ensures { result.bytes ≡ items.items }
    {
        Bytes { items }
    }

    /// All the bytes.
    pub fn as_slice(&self) -> &[u8]
        ensures { result.now ≡ self.now.bytes }
    {
        self.items.as_slice()
    }

    /// Makes room for this many more bytes. Where the room is there already, nothing is asked for.
    pub fn reserve(&mut self, more: usize) -> Result<(), NoMemory>
        ensures bytes { self.new.bytes ≡ self.old.bytes }
        ensures room { OnOk result (more ≤ self.new.spare) }
        ensures err_room { OnErr result (self.new.spare ≡ self.old.spare) }
        ensures ample { more ≤ self.old.spare → IsOk result × (self.new ≡ self.old) }
    {
        if self.items.capacity() - self.items.len() >= more {
            return Ok(());
        }
        match self.items.reserve(more) {
            Ok(()) => Ok(()),
            Err(_) => Err(NoMemory),
        }
    }

    /// Appends bytes for which there is room. It never allocates.
    pub fn put(&mut self, bytes: &[u8])
        requires { length bytes.now ≤ self.old.spare }
        ensures bytes { self.new.bytes ≡ self.old.bytes ++ bytes.now }
        ensures spare { self.new.spare + length bytes.now ≡ self.old.spare }
    {
        append_reserved(&mut self.items, bytes);
    }

    /// Appends all the bytes, or nothing. Where there is room for them, nothing is asked for.
    pub fn push_all(&mut self, bytes: &[u8]) -> Result<(), NoMemory>
        ensures ok { OnOk result (self.new.bytes ≡ self.old.bytes ++ bytes.now) }
        ensures err { OnErr result (self.new.bytes ≡ self.old.bytes) }
        ensures err_room { OnErr result (self.new.spare ≡ self.old.spare) }
        ensures ample { length bytes.now ≤ self.old.spare
            → IsOk result × (self.new.spare + length bytes.now ≡ self.old.spare) }
    {
        self.reserve(bytes.len())?;
        self.put(bytes);
        Ok(())
    }
}

// Appends bytes into spare capacity.
fn append_reserved(items: &mut Vec<u8>, bytes: &[u8])
    requires { vec_len items.old + length bytes.now ≤ vec_capacity items.old }
    ensures items { items.new.items ≡ items.old.items ++ bytes.now }
    ensures len { vec_len items.new ≡ vec_len items.old + length bytes.now }
    ensures capacity { vec_capacity items.new ≡ vec_capacity items.old }
{
    for byte in bytes {
        items.push_reserved(*byte);
    }
}
