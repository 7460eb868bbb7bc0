//! Registers and flags, and what a step leads to.

ghost use Rattle.std.specs.Prelude.{◌≡◌};
ghost use Rattle.i386_profile.specs.Flags.{get, set, with_flags, is_negative};
ghost use Rattle.i386_profile.specs.Effects.{address};

use crate::operands::{Mem, Reg};

/// The registers and the four flags that instructions of the profile set and test.
#[derive(Clone, Copy)]
pub struct Cpu {
    /// The general registers, by their numbers.
    pub regs: [u32; 8],
    /// The offset of the next instruction.
    pub eip: u32,
    /// carry
    pub cf: bool,
    /// zero
    pub zf: bool,
    /// sign
    pub sf: bool,
    /// overflow
    pub of: bool,
}

/// Why an instruction could not be carried out, with the number of the fault.
#[derive(Clone, Copy)]
pub enum FaultKind {
    /// No instruction of the profile stands there. `exec` never answers it: it is for the caller of
    /// `decode`.
    Instruction = 1,
    /// An access passes the segment's end.
    Segment = 2,
    /// The divisor is 0, or the quotient passes 32 bits.
    Divide = 3,
}

/// What an instruction led to.
#[derive(Clone, Copy)]
pub enum Step {
    /// The instruction at `eip` is next.
    Next,
    /// `int n` calls the machine. The instruction at `eip` comes after.
    Gate(u8),
    /// Nothing was changed.
    Fault(FaultKind),
}

impl Cpu {
    pub(crate) fn get(&self, r: Reg) -> u32
        ensures { result ≡ get self.now r }
    {
        self.regs[r as usize]
    }

    pub(crate) fn set(&mut self, r: Reg, value: u32)
        ensures { self.new ≡ set self.old r value }
    {
        self.regs[r as usize] = value;
    }

    pub(crate) fn address(&self, m: Mem) -> u32
        ensures { result ≡ address self.now m }
    {
        match m.base {
            None => m.disp,
            Some(r) => self.get(r).wrapping_add(m.disp),
        }
    }

    /// Zero and sign go by the value.
    pub(crate) fn set_flags(&mut self, carry: bool, overflow: bool, value: u32)
        ensures { self.new ≡ with_flags self.old carry overflow value }
    {
        self.cf = carry;
        self.zf = value == 0;
        self.sf = is_negative(value);
        self.of = overflow;
    }
}

/// The top bit.
pub(crate) fn is_negative(value: u32) -> bool
    ensures { result ≡ is_negative value }
{
    value >= 0x8000_0000
}
