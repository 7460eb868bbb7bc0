//! Registers, addresses, and what a ModRM byte can name.

ghost use Rattle.std.specs.Prelude.{◌≡◌};
ghost use Rattle.i386_profile.specs.Codes.{reg_code, whole_of};

/// A general register of 32 bits, with its number in ModRM bytes and opcodes.
#[derive(Clone, Copy, PartialEq)]
pub enum Reg {
    Eax = 0,
    Ecx = 1,
    Edx = 2,
    Ebx = 3,
    Esp = 4,
    Ebp = 5,
    Esi = 6,
    Edi = 7,
}

impl Reg {
    pub(crate) fn code(self) -> u8
        ensures { result ≡ reg_code self }
    {
        self as u8
    }
}

/// The low byte of one of the first four registers, with its number. The high bytes (numbers 4 to
/// 7) are left out.
#[derive(Clone, Copy)]
pub enum ByteReg {
    Al = 0,
    Cl = 1,
    Dl = 2,
    Bl = 3,
}

impl ByteReg {
    pub(crate) fn whole(self) -> Reg
        ensures { result ≡ whole_of self }
    {
        match self {
            ByteReg::Al => Reg::Eax,
            ByteReg::Cl => Reg::Ecx,
            ByteReg::Dl => Reg::Edx,
            ByteReg::Bl => Reg::Ebx,
        }
    }
}

/// An address: base plus displacement, modulo 2^32, as an offset into the segment.
#[derive(Clone, Copy)]
pub struct Mem {
    /// The register whose value the displacement is added to. Without one the displacement is the
    /// whole address.
    pub base: Option<Reg>,
    /// The displacement modulo 2^32, so -4 is 0xFFFFFFFC.
    pub disp: u32,
}

/// The operand that the fields mod and rm of a ModRM byte name.
#[derive(Clone, Copy)]
pub enum Rm {
    /// mod 11
    Reg(Reg),
    /// Any other mod.
    Mem(Mem),
}
