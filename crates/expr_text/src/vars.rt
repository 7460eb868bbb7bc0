// The variables of a script.
ghost use Rattle.std.specs.Prelude.{◌≡◌, ◌+◌, ◌≤◌, length, IsOk, OnOk, OnErr};
ghost use Rattle.std.specs.Option.{option_copied};
ghost use Rattle.std.specs.FinMap.{empty, get, insert};

use crate::name::{LONGEST_NAME, Name};
use flk_base::{Bytes, NoMemory};
use std::alloc::Global;
use std::collections::HashMap;
use std::marker::Model;

/// A table of values by their names. Contracts see the table, and how many more names may be bound
/// without allocating.
#[derive(Drop)]
pub struct Vars {
    values: HashMap<Name, Bytes>,
}

impl Model for Vars {
    ghost use Rattle.std.specs.HashMap.{spare};
    ghost use Rattle.expr_text.specs.Variables.{Variables, variables_code, table_of, HasShortNames};

    ghost Value = { Variables };

    ghost coded = { variables_code };

    ghost view = { λ v. record { table = table_of v.values.entries; spare = spare v.values } };

    ghost invariant = { λ v. HasShortNames v.values.entries };
}

impl Vars {
    /// A table in which no name is bound. It allocates nothing.
    pub fn new(alloc: Global) -> Vars
        ensures { result.table ≡ empty }
    {
        Vars {
            values: HashMap::new(alloc),
        }
    }

    /// The value that the name is bound to.
    pub fn get(&self, name: &[u8]) -> Option<&[u8]>
        ensures { option_copied result ≡ get self.now.table name.now }
    {
        let values = &self.values;
        if name.len() > LONGEST_NAME {
            return None;
        }
        let value = values.get(&Name::new(name))?;
        Some(value.as_slice())
    }

    /// Binds a name of 1 to 16 bytes to a value, in place of the one that it was bound to. Where
    /// there is no memory, no name is bound anew.
    pub fn set(&mut self, name: &[u8], value: Bytes) -> Result<(), NoMemory>
        requires some { 1 ≤ length name.now }
        requires short { length name.now ≤ LONGEST_NAME }
        ensures ok { OnOk result (self.new.table ≡ insert self.old.table name.now value.bytes) }
        ensures err { OnErr result (self.new.table ≡ self.old.table) }
        ensures ample { 1 ≤ self.old.spare → IsOk result }
        ensures spare { self.old.spare ≤ self.new.spare + 1 }
    {
        match self.values.insert(Name::new(name), value) {
            Ok(_) => Ok(()),
            Err(_) => Err(NoMemory),
        }
    }

    /// Makes room for one more name. Where the room is there already, nothing is asked for.
    pub fn room(&mut self) -> Result<(), NoMemory>
        ensures table { self.new.table ≡ self.old.table }
        ensures room { OnOk result (1 ≤ self.new.spare) }
        ensures ample { 1 ≤ self.old.spare → IsOk result }
        ensures spare { self.old.spare ≤ self.new.spare }
    {
        match self.values.reserve(1) {
            Ok(()) => Ok(()),
            Err(_) => Err(NoMemory),
        }
    }

    /// Binds a name of 1 to 16 bytes, as `set` does, where there is room. It allocates nothing.
    pub fn put(&mut self, name: &[u8], value: Bytes)
        requires some { 1 ≤ length name.now }
        requires short { length name.now ≤ LONGEST_NAME }
        requires room { 1 ≤ self.old.spare }
        ensures table { self.new.table ≡ insert self.old.table name.now value.bytes }
        ensures spare { self.old.spare ≤ self.new.spare + 1 }
    {
        let done = self.set(name, value);
        prove!(done.is_ok());
    }
}
