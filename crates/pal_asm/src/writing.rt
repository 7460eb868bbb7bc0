//! The text of an instruction.

ghost use Rattle.std.specs.Prelude.{◌≡◌, ◌<◌, ◌++◌, [], false, codes, decimal, OnOk};
ghost use Rattle.pal_asm.specs.Names.{register_name, byte_register_name, mnemonic_name};
ghost use Rattle.pal_asm.specs.Listing.{displacement_text, memory_text, rm_text, dword_text, text0, text1, text2, target_text, ins_text};
ghost use Rattle.std.specs.Fmt.{digits};

use crate::names::{Branch, Mnemonic, byte_register_name, mnemonic_name, register_name};
use flk_base::{Bytes, NoMemory};
use i386_profile::{ByteReg, Ins, Mem, Reg, Rm};
use itoa::Buffer;
use std::alloc::Global;

/// A text that grows.
#[derive(Drop)]
pub(crate) struct Text {
    bytes: Bytes,
    alloc: Global,
}

impl Text {
    pub(crate) fn new(alloc: Global) -> Text
        ensures { result.bytes.bytes ≡ [] }
    {
        Text {
            bytes: Bytes::new(alloc),
            alloc,
        }
    }

    pub(crate) fn into_bytes(self) -> Bytes
        ensures { result ≡ self.bytes }
    {
        let Text { bytes, alloc: _ } = self;
        bytes
    }

    pub(crate) fn put(&mut self, bytes: &[u8]) -> Result<(), NoMemory>
        ensures { OnOk result (self.new.bytes.bytes ≡ self.old.bytes.bytes ++ bytes.now) }
    {
        self.bytes.push_all(bytes)
    }

    pub(crate) fn decimal(&mut self, n: u32) -> Result<(), NoMemory>
        ensures { OnOk result (self.new.bytes.bytes ≡ self.old.bytes.bytes ++ decimal n) }
    {
        let mut buffer = Buffer::new();
        self.put(buffer.format(n).as_bytes())
    }

    /// Lower-case hexadecimal digits without leading zeros.
    fn hexadecimal(&mut self, n: u32) -> Result<(), NoMemory>
        ensures { OnOk result (self.new.bytes.bytes ≡ self.old.bytes.bytes ++ digits 16 false n) }
    {
        match format!(in self.alloc; "{n:x}") {
            Ok(text) => self.put(text.as_bytes()),
            Err(_) => Err(NoMemory),
        }
    }

    fn register(&mut self, r: Reg) -> Result<(), NoMemory>
        ensures { OnOk result (self.new.bytes.bytes ≡ self.old.bytes.bytes ++ register_name r) }
    {
        self.put(register_name(r))
    }

    fn byte_register(&mut self, b: ByteReg) -> Result<(), NoMemory>
        ensures { OnOk result (self.new.bytes.bytes ≡ self.old.bytes.bytes
            ++ byte_register_name b) }
    {
        self.put(byte_register_name(b))
    }

    /// A displacement as a signed number, missing where it is 0.
    fn displacement(&mut self, disp: u32) -> Result<(), NoMemory>
        ensures { OnOk result (self.new.bytes.bytes ≡ self.old.bytes.bytes
            ++ displacement_text disp) }
    {
        if disp == 0 {
            Ok(())
        } else if disp < 0x8000_0000 {
            self.put(b"+")?;
            self.decimal(disp)
        } else {
            self.put(b"-")?;
            self.decimal(0xFFFF_FFFF - disp + 1)
        }
    }

    fn memory(&mut self, place: Mem) -> Result<(), NoMemory>
        ensures { OnOk result (self.new.bytes.bytes ≡ self.old.bytes.bytes ++ memory_text place) }
    {
        self.put(b"[")?;
        match place.base {
            None => self.decimal(place.disp)?,
            Some(r) => {
                self.register(r)?;
                self.displacement(place.disp)?;
            }
        }
        self.put(b"]")
    }

    fn rm(&mut self, rm: Rm) -> Result<(), NoMemory>
        ensures { OnOk result (self.new.bytes.bytes ≡ self.old.bytes.bytes ++ rm_text rm) }
    {
        match rm {
            Rm::Reg(r) => self.register(r),
            Rm::Mem(place) => self.memory(place),
        }
    }

    /// The same where the size of a place is said.
    fn dword(&mut self, rm: Rm) -> Result<(), NoMemory>
        ensures { OnOk result (self.new.bytes.bytes ≡ self.old.bytes.bytes ++ dword_text rm) }
    {
        match rm {
            Rm::Reg(r) => self.register(r),
            Rm::Mem(place) => {
                self.put(b"dword ")?;
                self.memory(place)
            }
        }
    }

    fn word(&mut self, mnemonic: Mnemonic) -> Result<(), NoMemory>
        ensures { OnOk result (self.new.bytes.bytes ≡ self.old.bytes.bytes ++ text0 mnemonic) }
    {
        self.put(mnemonic_name(mnemonic))
    }

    /// The word and the space after it.
    pub(crate) fn begin(&mut self, mnemonic: Mnemonic) -> Result<(), NoMemory>
        ensures { OnOk result (self.new.bytes.bytes ≡ self.old.bytes.bytes
            ++ (mnemonic_name mnemonic ++ codes " ")) }
    {
        self.word(mnemonic)?;
        self.put(b" ")
    }

    fn comma(&mut self) -> Result<(), NoMemory>
        ensures { OnOk result (self.new.bytes.bytes ≡ self.old.bytes.bytes ++ codes ", ") }
    {
        self.put(b", ")
    }

    fn register_only(&mut self, mnemonic: Mnemonic, r: Reg) -> Result<(), NoMemory>
        ensures { OnOk result (self.new.bytes.bytes ≡ self.old.bytes.bytes
            ++ text1 mnemonic (register_name r)) }
    {
        self.begin(mnemonic)?;
        self.register(r)
    }

    fn register_memory(&mut self, mnemonic: Mnemonic, r: Reg, place: Mem) -> Result<(), NoMemory>
        ensures { OnOk result (self.new.bytes.bytes ≡ self.old.bytes.bytes
            ++ text2 mnemonic (register_name r) (memory_text place)) }
    {
        self.begin(mnemonic)?;
        self.register(r)?;
        self.comma()?;
        self.memory(place)
    }

    fn rm_register(&mut self, mnemonic: Mnemonic, rm: Rm, r: Reg) -> Result<(), NoMemory>
        ensures { OnOk result (self.new.bytes.bytes ≡ self.old.bytes.bytes
            ++ text2 mnemonic (rm_text rm) (register_name r)) }
    {
        self.begin(mnemonic)?;
        self.rm(rm)?;
        self.comma()?;
        self.register(r)
    }

    fn dword_number(&mut self, mnemonic: Mnemonic, rm: Rm, n: u32) -> Result<(), NoMemory>
        ensures { OnOk result (self.new.bytes.bytes ≡ self.old.bytes.bytes
            ++ text2 mnemonic (dword_text rm) (decimal n)) }
    {
        self.begin(mnemonic)?;
        self.dword(rm)?;
        self.comma()?;
        self.decimal(n)
    }

    fn memory_byte(&mut self, place: Mem, b: ByteReg) -> Result<(), NoMemory>
        ensures { OnOk result (self.new.bytes.bytes ≡ self.old.bytes.bytes
            ++ text2 Mnemonic.Mov (memory_text place) (byte_register_name b)) }
    {
        self.begin(Mnemonic::Mov)?;
        self.memory(place)?;
        self.comma()?;
        self.byte_register(b)
    }

    fn byte_memory(&mut self, b: ByteReg, place: Mem) -> Result<(), NoMemory>
        ensures { OnOk result (self.new.bytes.bytes ≡ self.old.bytes.bytes
            ++ text2 Mnemonic.Mov (byte_register_name b) (memory_text place)) }
    {
        self.begin(Mnemonic::Mov)?;
        self.byte_register(b)?;
        self.comma()?;
        self.memory(place)
    }

    fn widen(&mut self, r: Reg, place: Mem) -> Result<(), NoMemory>
        ensures { OnOk result (self.new.bytes.bytes ≡ self.old.bytes.bytes
            ++ text2 Mnemonic.Movzx (register_name r) (codes "byte " ++ memory_text place)) }
    {
        self.begin(Mnemonic::Movzx)?;
        self.register(r)?;
        self.put(b", byte ")?;
        self.memory(place)
    }

    fn widen_register(&mut self, r: Reg, b: ByteReg) -> Result<(), NoMemory>
        ensures { OnOk result (self.new.bytes.bytes ≡ self.old.bytes.bytes
            ++ text2 Mnemonic.Movzx (register_name r) (byte_register_name b)) }
    {
        self.begin(Mnemonic::Movzx)?;
        self.register(r)?;
        self.comma()?;
        self.byte_register(b)
    }

    fn register_rm(&mut self, mnemonic: Mnemonic, r: Reg, rm: Rm) -> Result<(), NoMemory>
        ensures { OnOk result (self.new.bytes.bytes ≡ self.old.bytes.bytes
            ++ text2 mnemonic (register_name r) (rm_text rm)) }
    {
        self.begin(mnemonic)?;
        self.register(r)?;
        self.comma()?;
        self.rm(rm)
    }

    fn dword_only(&mut self, mnemonic: Mnemonic, rm: Rm) -> Result<(), NoMemory>
        ensures { OnOk result (self.new.bytes.bytes ≡ self.old.bytes.bytes
            ++ text1 mnemonic (dword_text rm)) }
    {
        self.begin(mnemonic)?;
        self.dword(rm)
    }

    /// A word and a number.
    pub(crate) fn number_only(&mut self, mnemonic: Mnemonic, n: u32) -> Result<(), NoMemory>
        ensures { OnOk result (self.new.bytes.bytes ≡ self.old.bytes.bytes
            ++ text1 mnemonic (decimal n)) }
    {
        self.begin(mnemonic)?;
        self.decimal(n)
    }

    fn branch(&mut self, branch: Branch, after: u32, rel: u32) -> Result<(), NoMemory>
        ensures { OnOk result (self.new.bytes.bytes ≡ self.old.bytes.bytes
            ++ text1 (Mnemonic.Branch branch) (target_text after rel)) }
    {
        self.begin(Mnemonic::Branch(branch))?;
        self.put(b"0x")?;
        self.hexadecimal(after.wrapping_add(rel))
    }

    /// An instruction, before this offset.
    pub(crate) fn ins(&mut self, after: u32, ins: Ins) -> Result<(), NoMemory>
        ensures { OnOk result (self.new.bytes.bytes ≡ self.old.bytes.bytes ++ ins_text after ins) }
    {
        match ins {
            Ins::Load(r, n) => self.dword_number(Mnemonic::Mov, Rm::Reg(r), n),
            Ins::Put(place, n) => self.dword_number(Mnemonic::Mov, Rm::Mem(place), n),
            Ins::MovTo(rm, r) => self.rm_register(Mnemonic::Mov, rm, r),
            Ins::MovFrom(r, place) => self.register_memory(Mnemonic::Mov, r, place),
            Ins::ByteTo(place, b) => self.memory_byte(place, b),
            Ins::ByteFrom(b, place) => self.byte_memory(b, place),
            Ins::Widen(r, place) => self.widen(r, place),
            Ins::WidenReg(r, b) => self.widen_register(r, b),
            Ins::Lea(r, place) => self.register_memory(Mnemonic::Lea, r, place),
            Ins::Alu(op, rm, r) => self.rm_register(Mnemonic::Alu(op), rm, r),
            Ins::AluFrom(op, r, place) => self.register_memory(Mnemonic::Alu(op), r, place),
            Ins::AluImm(op, rm, n) => self.dword_number(Mnemonic::Alu(op), rm, n),
            Ins::Test(rm, r) => self.rm_register(Mnemonic::Test, rm, r),
            Ins::Inc(r) => self.register_only(Mnemonic::Inc, r),
            Ins::Dec(r) => self.register_only(Mnemonic::Dec, r),
            Ins::Push(r) => self.register_only(Mnemonic::Push, r),
            Ins::Pop(r) => self.register_only(Mnemonic::Pop, r),
            Ins::PushImm(n) => self.number_only(Mnemonic::Push, n),
            Ins::Shift(op, rm, count) => {
                self.dword_number(Mnemonic::Shift(op), rm, u32::from(count))
            }
            Ins::Imul(r, rm) => self.register_rm(Mnemonic::Imul, r, rm),
            Ins::Unary(op, rm) => self.dword_only(Mnemonic::Unary(op), rm),
            Ins::Jmp(rel) => self.branch(Branch::Jmp, after, rel),
            Ins::Jcc(condition, rel) => self.branch(Branch::Jcc(condition), after, rel),
            Ins::Call(rel) => self.branch(Branch::Call, after, rel),
            Ins::Ret => self.word(Mnemonic::Ret),
            Ins::Gate(n) => self.number_only(Mnemonic::Int, u32::from(n)),
            Ins::Nop => self.word(Mnemonic::Nop),
        }
    }
}
