// The bank of registers.
ghost use Rattle.std.specs.Prelude.{◌≡◌, ◌≤◌, ◌↔◌, ◌++◌, [], map, length, IsErr, IfOk, OnOk, OnErr};
ghost use Rattle.std.specs.Prelude.{slice_index_or, slice_set};
ghost use Rattle.tpm_state.specs.Chain.{extended_value, value, power_chains, launch_chain};
ghost use Rattle.tpm_state.specs.Chain.{register_count};

use sha1::Sha1;
use std::marker::Model;

/// 1: there is no register of this number.
#[derive(Clone, Copy, Debug, PartialEq, Eq)]
pub struct NoRegister;

const REGISTERS: usize = 24;

/// The 24 registers. Contracts see the list of their values, 20 bytes each.
#[derive(Drop)]
pub struct Bank {
    registers: [[u8; 20]; REGISTERS],
}

impl Model for Bank {
    ghost use Rattle.std.specs.Prelude.{ℕ, List};

    ghost Value = { List (List ℕ) };

    ghost view = { λ b. b.registers };
}

impl Bank {
    /// The registers after power-on: 17 to 22 hold 20 bytes FF, the others 20 bytes 00.
    pub fn power_on() -> Bank
        ensures value { result ≡ map value power_chains }
        ensures count { length result ≡ register_count }
    {
        let zeros = [0x00; 20];
        let ones = [0xff; 20];
        Bank {
            registers: [
                zeros, zeros, zeros, zeros, zeros, zeros, zeros, zeros, zeros, zeros, zeros, zeros,
                zeros, zeros, zeros, zeros, zeros, ones, ones, ones, ones, ones, ones, zeros,
            ],
        }
    }

    /// Register 17 as a late launch resets it: 20 bytes 00.
    pub fn reset17(&mut self)
        ensures { self.new ≡ slice_set self.old 17 (value launch_chain) }
    {
        self.registers[17] = [0x00; 20];
    }

    /// Extends register `r` by the text that `prefix` and `text` are together.
    pub fn extend(&mut self, r: u32, prefix: &[u8], text: &[u8]) -> Result<(), NoRegister>
        ensures refused { IsErr result ↔ (register_count ≤ r) }
        ensures ok { OnOk result (self.new
            ≡ slice_set self.old r
            (extended_value (slice_index_or self.old r []) (prefix.now ++ text.now))) }
        ensures err { OnErr result (self.new ≡ self.old) }
    {
        let at = r as usize;
        if at >= REGISTERS {
            return Err(NoRegister);
        }
        self.registers[at] = extended_value(&self.registers[at], prefix, text);
        Ok(())
    }

    /// The value of register `r`.
    pub fn read(&self, r: u32) -> Result<[u8; 20], NoRegister>
        ensures refused { IsErr result ↔ (register_count ≤ r) }
        ensures value { IfOk result (λ shown. shown ≡ slice_index_or self.now r []) }
    {
        let at = r as usize;
        if at >= REGISTERS {
            return Err(NoRegister);
        }
        Ok(self.registers[at])
    }
}

/// The value that a register shows, once it showed a value and was extended by the text that `prefix`
/// and `text` are together.
pub fn extended_value(value: &[u8; 20], prefix: &[u8], text: &[u8]) -> [u8; 20]
    ensures { result ≡ extended_value value.now (prefix.now ++ text.now) }
{
    let mut inner = Sha1::new();
    inner.update(prefix);
    inner.update(text);
    let digest = inner.finalize();
    let mut outer = Sha1::new();
    outer.update(value);
    outer.update(&digest);
    outer.finalize()
}
