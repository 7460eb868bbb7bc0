//! The board.
ghost use Rattle.std.specs.Prelude.{◌≡◌, ◌≤◌, ◌++◌, IfOk};
ghost use Rattle.std.specs.Option.{option_map};
ghost use Rattle.flk_base.specs.Plan.{ask};
ghost use Rattle.flk_base.specs.Stop.{Ends, reported, reported_into};
ghost use Rattle.seal_device.specs.Commands.{Command, act};
ghost use Rattle.seal_device.specs.Digests.{digests, on_device};
ghost use Rattle.seal_device.specs.Faults.{provision_answer, register_fault, unseal_fault, read_fault};
ghost use Rattle.seal_device.specs.Faults.{quote_fault, random_fault};
ghost use Rattle.machine_memory.specs.Areas.{IsArea};
ghost use Rattle.late_launch.specs.Boards.{blank_board, zero_registers, fused_device, fallen};

use crate::dark::Dark;
use crate::suspended::Suspended;
use flk_base::{Fuse, NoMemory};
use i386_profile::Cpu;
use machine_memory::Memory;
use region_pool::Ticket;
use seal_device::{
    CounterFault, Device, LONGEST_SEALED, Provisioned, QuoteFault, RandomFault, RegisterFault,
    UnsealFault,
};
use std::alloc::Global;
use std::marker::Model;

/// A board: its device, its memory, the host's registers and its fuse. It must be spent. The device is reached
/// by the commands of a host alone, and by a session's.
pub struct Board {
    device: Device,
    /// Memory.
    pub memory: Memory,
    /// The host's registers.
    pub registers: Cpu,
    /// After how many steps of the device the power is lost.
    pub fuse: Fuse,
}

impl Model for Board {
    ghost use Rattle.late_launch.specs.Boards.{BoardParts};

    ghost Value = { BoardParts };

    ghost view = { λ b. record { device = b.device; memory = b.memory; registers = b.registers; fuse = b.fuse.left } };
}

/// All registers 0 and all flags clear.
pub(crate) fn zero_registers() -> Cpu
    ensures { result ≡ zero_registers }
{
    Cpu {
        regs: [0; 8],
        eip: 0,
        cf: false,
        zf: false,
        sf: false,
        of: false,
    }
}

impl Board {
    /// A board that was never used, without a fuse.
    ///
    /// # Errors
    ///
    /// Where there is no memory for its memory.
    pub fn blank(alloc: Global) -> Result<Board, NoMemory>
        ensures { IfOk result (λ board. board ≡ blank_board) }
    {
        match Memory::blank(alloc) {
            Ok(memory) => Ok(Board {
                device: Device::blank(),
                memory,
                registers: zero_registers(),
                fuse: Fuse { left: None },
            }),
            Err(_) => Err(NoMemory),
        }
    }

    /// The board of these parts.
    pub(crate) fn from_parts(device: Device, memory: Memory, registers: Cpu, fuse: Fuse) -> Board
        ensures { result ≡ record { device = device; memory = memory; registers = registers; fuse = fuse.left } }
    {
        Board {
            device,
            memory,
            registers,
            fuse,
        }
    }

    /// Extends register `r` by the text that `front` and `text` are together, in one step of the fuse.
    ///
    /// # Errors
    ///
    /// `PowerLost` where the fuse has no step left, and nothing changes; else `NoRegister` where there is no
    /// such register, and the step is taken.
    pub fn extend(&mut self, r: u32, front: &[u8], text: &[u8]) -> Result<(), RegisterFault>
        ensures ends { Ends (reported register_fault RegisterFault.PowerLost)
            (on_device (ask (Command.Extend r (front.now ++ text.now))) (fused_device self.old))
            (fused_device self.new) result }
        ensures memory { self.new.memory ≡ self.old.memory }
        ensures registers { self.new.registers ≡ self.old.registers }
    {
        self.device.extend(r, front, text, &mut self.fuse)
    }

    /// The value of register `r`, in one step of the fuse.
    ///
    /// # Errors
    ///
    /// Those of `extend`.
    pub fn read_register(&mut self, r: u32) -> Result<[u8; 20], RegisterFault>
        ensures ends { Ends (reported register_fault RegisterFault.PowerLost)
            (on_device (ask (Command.ReadRegister r)) (fused_device self.old))
            (fused_device self.new) result }
        ensures memory { self.new.memory ≡ self.old.memory }
        ensures registers { self.new.registers ≡ self.old.registers }
    {
        self.device.read_register(r, &mut self.fuse)
    }

    /// Takes a seed of any length, from which the device derives its keys. It takes no step of the fuse.
    ///
    /// # Errors
    ///
    /// Where the device has a seed, and nothing changes.
    pub fn provision(&mut self, seed: &[u8]) -> Result<(), Provisioned>
        ensures device { self.new ≡ record self.old {
          device = (act digests (Command.Provision seed.now) self.old.device).0;
        } }
        ensures answer { result ≡ provision_answer (act digests (Command.Provision seed.now) self.old.device).1 }
    {
        self.device.provision(seed)
    }

    /// Unseals a blob, in one step of the fuse: the bytes that were sealed stand in the first bytes of `out`, and
    /// how many they are is answered.
    ///
    /// # Errors
    ///
    /// `PowerLost` where the fuse has no step left, and nothing changes; else, with the step taken and `out` as it
    /// was, `Unprovisioned` where the device has no seed, `NotBlob` where the bytes are no blob of this device,
    /// `WrongChain` where register 17 has another value than at the sealing, `WrongCounter` where the blob bears a
    /// counter that is not in use or has another value.
    pub fn unseal(
        &mut self,
        blob: &[u8],
        out: &mut [u8; LONGEST_SEALED],
    ) -> Result<usize, UnsealFault>
        ensures ends { Ends (reported_into out.old unseal_fault UnsealFault.PowerLost)
            (on_device (ask (Command.Unseal blob.now)) (fused_device self.old))
            (fused_device self.new) (result, out.new) }
        ensures memory { self.new.memory ≡ self.old.memory }
        ensures registers { self.new.registers ≡ self.old.registers }
        ensures size { IfOk result (λ size. size ≤ LONGEST_SEALED) }
    {
        self.device.unseal(blob, out, &mut self.fuse)
    }

    /// The value of counter `id`, in one step of the fuse.
    ///
    /// # Errors
    ///
    /// `PowerLost` where the fuse has no step left, and nothing changes; else, with the step taken, `NoCounter` where
    /// the counter is not in use.
    pub fn read_counter(&mut self, id: u8) -> Result<u32, CounterFault>
        ensures ends { Ends (reported read_fault CounterFault.PowerLost)
            (on_device (ask (Command.ReadCounter id)) (fused_device self.old))
            (fused_device self.new) result }
        ensures memory { self.new.memory ≡ self.old.memory }
        ensures registers { self.new.registers ≡ self.old.registers }
    {
        self.device.read_counter(id, &mut self.fuse)
    }

    /// The quote of register 17 for a nonce, in one step of the fuse: its value, and the tag.
    ///
    /// # Errors
    ///
    /// `PowerLost` where the fuse has no step left, and nothing changes; else, with the step taken, `Unprovisioned`
    /// where the device has no seed.
    pub fn quote(&mut self, nonce: &[u8; 20]) -> Result<[u8; 40], QuoteFault>
        ensures ends { Ends (reported quote_fault QuoteFault.PowerLost)
            (on_device (ask (Command.Quote nonce.now)) (fused_device self.old))
            (fused_device self.new) result }
        ensures memory { self.new.memory ≡ self.old.memory }
        ensures registers { self.new.registers ≡ self.old.registers }
    {
        self.device.quote(nonce, &mut self.fuse)
    }

    /// The key for quotes, where the device has a seed. It takes no step.
    pub fn quote_key(&self) -> Option<[u8; 20]>
        ensures { result ≡ option_map (λ keys. keys.quoting) self.now.device.keys }
    {
        self.device.quote_key()
    }

    /// The next random word, in one step of the fuse.
    ///
    /// # Errors
    ///
    /// `PowerLost` where the fuse has no step left, and nothing changes; else, with the step taken, `Unprovisioned`
    /// where the device has no seed, `RandomEnd` where the next word's number is 2^64 - 1.
    pub fn random(&mut self) -> Result<[u8; 20], RandomFault>
        ensures ends { Ends (reported random_fault RandomFault.PowerLost)
            (on_device (ask Command.Random) (fused_device self.old))
            (fused_device self.new) result }
        ensures memory { self.new.memory ≡ self.old.memory }
        ensures registers { self.new.registers ≡ self.old.registers }
    {
        self.device.random(&mut self.fuse)
    }

    /// The host stands still, and its registers are saved; `area` is where a session is to run.
    pub fn suspend(self, area: Ticket) -> Suspended
        requires { IsArea self.memory.marks area }
        ensures { result ≡ record { board = self; area = area } }
    {
        Suspended::new(self, area)
    }

    /// The power is lost, with no session begun.
    pub fn fall(self) -> Dark
        ensures { result ≡ fallen self }
    {
        let Board {
            device,
            memory,
            registers: _,
            fuse: _,
        } = self;
        Dark::new(device, memory)
    }

    /// Ends the board.
    pub fn scrap(self) {
        let Board {
            device: _,
            memory: _,
            registers: _,
            fuse: _,
        } = self;
    }

    /// The parts of the board.
    pub(crate) fn part(self) -> (Device, Memory, Cpu, Fuse)
        ensures device { result.0 ≡ self.device }
        ensures memory { result.1 ≡ self.memory }
        ensures registers { result.2 ≡ self.registers }
        ensures fuse { result.3.left ≡ self.fuse }
    {
        let Board {
            device,
            memory,
            registers,
            fuse,
        } = self;
        (device, memory, registers, fuse)
    }
}
