// What the host does with a board and a disk: events without expressions.
ghost use Rattle.std.specs.Prelude.{◌≡◌, ◌↔◌, IsErr, ◌+◌, ◌*◌, ◌≤◌, ◌<◌, length, slice_set, take, true, [], ◌-◌, vec_len, vec_capacity, None, OnOk, OnErr, IfOk};
ghost use Rattle.flk_run.specs.Answers.{room_of};
ghost use Rattle.flk_run.specs.Seen.{Steps, seen_answer, seen_session, HasShortOutputs, IsShortShown, IsRoom};
ghost use Rattle.flk_run.specs.Sessions.{answer_to_end, armed_after};
ghost use Rattle.slb_core.specs.Reports.{count_of};
ghost use Rattle.machine_memory.specs.HostMemory.{is_untaken};
ghost use Rattle.late_launch.specs.Boards.{powered};
ghost use Rattle.job_engine.specs.Commands.{cycled};
ghost use Rattle.flk_run.specs.Parts.{IsHost};
ghost use Rattle.flk_run.specs.Tasks.{Extend, Read, Take, Give, Poke, Peek, Dma as WriteByDevice, SetRegister, ShowRegisters, Arm, RunSession, Seed, Unseal, ReadCounter, Draw, Quote, Check, ReadSlot, Overwrite};

use crate::answers::{
    Answer, LINE_ROOM, LONGEST_OUTPUTS, QUOTE_ROOM, REGISTER_ROOM, Refusal, SESSION_ROOM,
    SLOT_ROOM, SessionOver, UNSEAL_ROOM,
};
use crate::board::{dev_write, give, host_read, host_write, take};
use crate::checks::{CheckTask, is_said};
use crate::slots::{overwrite, read_slot};
use crate::spans::{Spans, keep, room_for_ticket, ticket_at};
use flk_base::{Bytes, NoMemory};
use i386_profile::Cpu;
use job_store::{Disk, JOBS, LONGEST_BLOB, SLOT_LEN, SimDisk, SlotFault};
use late_launch::{Board, Dark, End};
use machine_memory::{DevEnd, Dma, Memory, TakeFault, frame_law};
use region_pool::Ticket;
use seal_device::{
    CounterFault, LONGEST_SEALED, Provisioned, QuoteFault, RandomFault, RegisterFault, UnsealFault,
};
use session_driver::{SessionEnd, session};
use std::alloc::Global;
use std::marker::Model;
use std::snapshot::Snapshot;

/// A board with a disk, and the tickets of the spans that the host took of its memory. Where memory
/// held no span when the host came, these are all that it holds. It must be spent, by `part`.
pub(crate) struct Host {
    board: Board,
    disk: SimDisk,
    tickets: Vec<Ticket>,
    // The device writes that are armed for the next session.
    armed: Dma,
    // Memory as it was when the host came.
    found: Snapshot<Memory>,
}

impl Model for Host {
    ghost use Rattle.std.specs.Prelude.{◌-◌, vec_len, vec_capacity};
    ghost use Rattle.machine_memory.specs.HostMemory.{is_untaken};
    ghost use Rattle.flk_run.specs.Parts.{HostParts, IsHost};

    ghost Value = { HostParts };

    ghost view = { λ h. record {
      board = h.board;
      disk = h.disk;
      spans = h.tickets.items;
      untaken = is_untaken h.found.value;
      armed = h.armed;
      spare = vec_capacity h.tickets - vec_len h.tickets;
    } };

    ghost invariant = { λ h. IsHost (is_untaken h.found.value) h.board.memory h.tickets.items };
}

impl Host {
    ghost use Rattle.std.specs.Prelude.{[]};
    ghost use Rattle.machine_memory.specs.HostMemory.{is_untaken};
    ghost use Rattle.flk_run.specs.declared.answers.Answer.TheVariants as answer;
    ghost use Rattle.flk_run.specs.declared.answers.Refusal.TheVariants as refusal;
    ghost use Rattle.job_engine.specs.Commands.{cycled};
    ghost use Rattle.flk_run.specs.Parts.{HoldsSpans, board_after_power_on};

    /// The host of a board and a disk, who has taken nothing yet.
    pub(crate) fn new(alloc: Global, board: Board, disk: SimDisk) -> Host
        ensures board { result.board ≡ board }
        ensures disk { result.disk ≡ disk }
        ensures spans { result.spans ≡ [] }
        ensures untaken { result.untaken ≡ is_untaken board.memory }
        ensures armed { result.armed ≡ [] }
    {
        frame_law(&board.memory);
        let found = Snapshot::of(&board.memory);
        Host {
            board,
            disk,
            tickets: Vec::new(alloc),
            armed: Dma::new(alloc),
            found,
        }
    }

    /// The board, the disk, and the spans that the host holds of memory.
    pub(crate) fn part(self) -> (Board, SimDisk, Spans)
        ensures board { result.0 ≡ self.board }
        ensures disk { result.1 ≡ self.disk }
        ensures spans { result.2 ≡ self.spans }
        ensures held { HoldsSpans result.0.memory.marks result.2 }
    {
        let Host {
            board,
            disk,
            tickets,
            armed: _,
            found: _,
        } = self;
        (board, disk, Spans { tickets })
    }

    /// Makes room for one more ticket.
    pub(crate) fn room(&mut self) -> Result<(), NoMemory>
        ensures same { self.new ≡ record self.old { spare = self.new.spare } }
        ensures room { OnOk result (1 ≤ self.new.spare) }
    {
        room_for_ticket(&mut self.tickets)
    }

    // The power was lost, and comes back at once: no write stays armed, and the disk keeps what was
    // synced.
    fn power_lost(self) -> (Host, Answer)
        ensures left { result.0 ≡ record self {
          board = board_after_power_on self.board;
          disk = cycled 0 [] self.disk;
          armed = [];
        } }
        ensures answer { result.1 ≡ answer.Refused refusal.PowerLost }
    {
        let Host {
            board,
            disk,
            tickets,
            armed,
            found,
        } = self;
        let host = come_back(board.fall(), disk, tickets, armed, found);
        (host, Answer::Refused(Refusal::PowerLost))
    }

    /// Extends register `r` by the text `host` and these bytes.
    pub(crate) fn extend(self, r: u32, text: &[u8]) -> (Host, Answer)
        ensures untaken { result.0.untaken ≡ self.untaken }
        ensures steps { self.untaken ≡ true → Steps (Extend r text.now) self result.0 result.1 }
        ensures fits { room_of (seen_answer result.1) ≤ REGISTER_ROOM }
    {
        let mut host = self;
        match host.board.extend(r, b"host", text) {
            Ok(()) => return (host, Answer::Done),
            Err(RegisterFault::NoRegister) => return (host, Answer::Refused(Refusal::NoRegister)),
            Err(RegisterFault::PowerLost) => return host.power_lost(),
        }
    }

    /// Shows register `r`.
    pub(crate) fn read(self, r: u32) -> (Host, Answer)
        ensures untaken { result.0.untaken ≡ self.untaken }
        ensures steps { self.untaken ≡ true → Steps (Read r) self result.0 result.1 }
        ensures fits { room_of (seen_answer result.1) ≤ REGISTER_ROOM }
    {
        let mut host = self;
        match host.board.read_register(r) {
            Ok(value) => return (host, Answer::Register(value)),
            Err(RegisterFault::NoRegister) => return (host, Answer::Refused(Refusal::NoRegister)),
            Err(RegisterFault::PowerLost) => return host.power_lost(),
        }
    }

    /// Gives the device a seed.
    pub(crate) fn seed(self, seed: &[u8]) -> (Host, Answer)
        ensures untaken { result.0.untaken ≡ self.untaken }
        ensures steps { self.untaken ≡ true → Steps (Seed seed.now) self result.0 result.1 }
        ensures fits { room_of (seen_answer result.1) ≤ REGISTER_ROOM }
    {
        let mut host = self;
        match host.board.provision(seed) {
            Ok(()) => return (host, Answer::Done),
            Err(Provisioned) => return (host, Answer::Refused(Refusal::NoSeeded)),
        }
    }

    /// Unseals a blob, for whose bytes there is room.
    pub(crate) fn unseal(self, blob: &[u8], bytes: Bytes) -> (Host, Answer)
        requires { IsRoom bytes }
        ensures untaken { result.0.untaken ≡ self.untaken }
        ensures steps { self.untaken ≡ true → Steps (Unseal blob.now None) self result.0 result.1 }
        ensures fits { room_of (seen_answer result.1) ≤ UNSEAL_ROOM }
        ensures short { IsShortShown (seen_answer result.1) }
    {
        let mut host = self;
        let mut bytes = bytes;
        let mut out = [0; LONGEST_SEALED];
        match host.board.unseal(blob, &mut out) {
            Ok(size) => {
                bytes.put(&out[..size]);
                return (host, Answer::Shows(bytes));
            }
            Err(UnsealFault::PowerLost) => return host.power_lost(),
            Err(UnsealFault::Unprovisioned) => return (host, Answer::Refused(Refusal::NoSeed)),
            Err(UnsealFault::NotBlob) => return (host, Answer::Refused(Refusal::NoBlob)),
            Err(UnsealFault::WrongChain) => return (host, Answer::Refused(Refusal::NoChain)),
            Err(UnsealFault::WrongCounter) => return (host, Answer::Refused(Refusal::NoCounter)),
        }
    }

    /// The value of counter `id`.
    pub(crate) fn read_counter(self, id: u8) -> (Host, Answer)
        ensures untaken { result.0.untaken ≡ self.untaken }
        ensures steps { self.untaken ≡ true → Steps (ReadCounter id) self result.0 result.1 }
        ensures fits { room_of (seen_answer result.1) ≤ REGISTER_ROOM }
    {
        let mut host = self;
        match host.board.read_counter(id) {
            Ok(value) => return (host, Answer::Counts(value as usize)),
            Err(CounterFault::PowerLost) => return host.power_lost(),
            // A counter that is read needs no owner and no next value.
            Err(_) => return (host, Answer::Refused(Refusal::NoCounter)),
        }
    }

    /// The next random word.
    pub(crate) fn draw(self) -> (Host, Answer)
        ensures untaken { result.0.untaken ≡ self.untaken }
        ensures steps { self.untaken ≡ true → Steps (Draw None) self result.0 result.1 }
        ensures fits { room_of (seen_answer result.1) ≤ REGISTER_ROOM }
        ensures short { IsShortShown (seen_answer result.1) }
    {
        let mut host = self;
        match host.board.random() {
            Ok(word) => return (host, Answer::Register(word)),
            Err(RandomFault::PowerLost) => return host.power_lost(),
            Err(RandomFault::Unprovisioned) => return (host, Answer::Refused(Refusal::NoSeed)),
            Err(RandomFault::RandomEnd) => return (host, Answer::Refused(Refusal::NoEnd)),
        }
    }

    /// The quote of register 17 for a nonce.
    pub(crate) fn quote(self, nonce: &[u8; 20]) -> (Host, Answer)
        ensures untaken { result.0.untaken ≡ self.untaken }
        ensures steps { self.untaken ≡ true → Steps (Quote nonce.now None) self result.0 result.1 }
        ensures fits { room_of (seen_answer result.1) ≤ QUOTE_ROOM }
        ensures short { IsShortShown (seen_answer result.1) }
    {
        let mut host = self;
        match host.board.quote(nonce) {
            Ok(quote) => return (host, Answer::Quoted(quote)),
            Err(QuoteFault::PowerLost) => return host.power_lost(),
            Err(QuoteFault::Unprovisioned) => return (host, Answer::Refused(Refusal::NoSeed)),
        }
    }

    /// Whether bytes are the quote of a session.
    pub(crate) fn check(self, check: &CheckTask) -> (Host, Answer)
        ensures untaken { result.0.untaken ≡ self.untaken }
        ensures steps { self.untaken ≡ true
            → Steps (Check (seen_session check.now) check.now.quote.bytes) self result.0 result.1 }
        ensures fits { room_of (seen_answer result.1) ≤ REGISTER_ROOM }
        ensures short { HasShortOutputs (seen_answer result.1) }
    {
        match self.board.quote_key() {
            Some(key) => return (self, Answer::Says(is_said(&key, check))),
            None => return (self, Answer::Refused(Refusal::NoSeed)),
        }
    }

    /// Reads the blob of a slot, for whose bytes there is room.
    pub(crate) fn read_slot(self, j: u32, s: u32, bytes: Bytes) -> (Host, Answer)
        requires job { j < JOBS }
        requires slot { s < 2 }
        requires room { IsRoom bytes }
        ensures untaken { result.0.untaken ≡ self.untaken }
        ensures steps { self.untaken ≡ true → Steps (ReadSlot j s None) self result.0 result.1 }
        ensures fits { room_of (seen_answer result.1) ≤ SLOT_ROOM }
        ensures short { IsShortShown (seen_answer result.1) }
    {
        let mut host = self;
        let mut bytes = bytes;
        let mut out = [0; SLOT_LEN];
        match read_slot(&mut host.board, &mut host.disk, j, s, &mut out) {
            Ok(len) => {
                bytes.put(&out[..len]);
                return (host, Answer::Shows(bytes));
            }
            Err(SlotFault::NoBlob) => return (host, Answer::Refused(Refusal::NoBlob)),
            Err(SlotFault::DiskFault) => return (host, Answer::Refused(Refusal::NoDisk)),
            Err(SlotFault::PowerLost) => return host.power_lost(),
        }
    }

    /// Writes a blob into a slot, and syncs the disk.
    pub(crate) fn overwrite(self, j: u32, s: u32, blob: &[u8]) -> (Host, Answer)
        requires job { j < JOBS }
        requires slot { s < 2 }
        requires room { length blob.now ≤ LONGEST_BLOB }
        ensures untaken { result.0.untaken ≡ self.untaken }
        ensures steps { self.untaken ≡ true → Steps (Overwrite j s blob.now) self result.0 result.1 }
        ensures fits { room_of (seen_answer result.1) ≤ REGISTER_ROOM }
    {
        let mut host = self;
        match overwrite(&mut host.board, &mut host.disk, j, s, blob) {
            Ok(()) => return (host, Answer::Done),
            Err(SlotFault::PowerLost) => return host.power_lost(),
            Err(_) => return (host, Answer::Refused(Refusal::NoDisk)),
        }
    }

    /// Takes a span of so many frames, for whose ticket there is room. Where memory runs out for its
    /// bytes, nothing is done.
    pub(crate) fn take(self, frames: u32) -> (Host, Result<Answer, NoMemory>)
        requires { 1 ≤ self.spare }
        ensures untaken { result.0.untaken ≡ self.untaken }
        ensures steps { IfOk result.1
            (λ answer. self.untaken ≡ true → Steps (Take frames) self result.0 answer) }
        ensures fits { IfOk result.1 (λ answer. room_of (seen_answer answer) ≤ REGISTER_ROOM) }
        ensures kept { OnErr result.1 (result.0 ≡ self) }
    {
        if frames == 0 {
            return (self, Ok(Answer::Refused(Refusal::NoRoom)));
        }
        let mut host = self;
        match take(&mut host.board, frames) {
            Ok(ticket) => {
                let address = 4096 * ticket.first() as usize;
                keep(&mut host.tickets, ticket);
                return (host, Ok(Answer::Counts(address)));
            }
            Err(TakeFault::NoRoom) => return (host, Ok(Answer::Refused(Refusal::NoRoom))),
            Err(TakeFault::NoMemory) => return (host, Err(NoMemory)),
        }
    }

    /// Gives back the span that starts at an address.
    pub(crate) fn give(self, at: u32) -> (Host, Answer)
        ensures untaken { result.0.untaken ≡ self.untaken }
        ensures steps { self.untaken ≡ true → Steps (Give at) self result.0 result.1 }
        ensures fits { room_of (seen_answer result.1) ≤ REGISTER_ROOM }
    {
        let mut host = self;
        match ticket_at(&host.tickets, at) {
            Some(index) => {
                let ticket = host.tickets.remove(index);
                give(&mut host.board, ticket);
                return (host, Answer::Done);
            }
            None => return (host, Answer::Refused(Refusal::NoSpan)),
        }
    }

    /// Writes bytes of one span.
    pub(crate) fn poke(self, at: u32, bytes: &[u8]) -> (Host, Answer)
        ensures untaken { result.0.untaken ≡ self.untaken }
        ensures steps { self.untaken ≡ true → Steps (Poke at bytes.now) self result.0 result.1 }
        ensures fits { room_of (seen_answer result.1) ≤ REGISTER_ROOM }
    {
        let mut host = self;
        match host_write(&mut host.board, at, bytes) {
            Ok(()) => return (host, Answer::Done),
            Err(_) => return (host, Answer::Refused(Refusal::NoTaken)),
        }
    }

    /// Shows as many bytes of one span as `bytes` has room for.
    pub(crate) fn peek(self, at: u32, bytes: Vec<u8>) -> (Host, Answer)
        ensures untaken { result.0.untaken ≡ self.untaken }
        ensures steps { self.untaken ≡ true
            → Steps (Peek at (length bytes.items)) self result.0 result.1 }
        ensures fits { room_of (seen_answer result.1) ≤ LINE_ROOM + 2 * length bytes.items }
        ensures short { HasShortOutputs (seen_answer result.1) }
    {
        let mut bytes = bytes;
        match host_read(&self.board, at, &mut bytes) {
            Ok(()) => return (self, Answer::Peeked(bytes)),
            Err(_) => return (self, Answer::Refused(Refusal::NoTaken)),
        }
    }

    /// Has a device write bytes.
    pub(crate) fn dma(self, at: u32, bytes: &[u8]) -> (Host, Answer)
        ensures untaken { result.0.untaken ≡ self.untaken }
        ensures steps { self.untaken ≡ true → Steps (WriteByDevice at bytes.now) self result.0 result.1 }
        ensures fits { room_of (seen_answer result.1) ≤ REGISTER_ROOM }
    {
        let mut host = self;
        match dev_write(&mut host.board, at, bytes) {
            DevEnd::Done => return (host, Answer::Done),
            DevEnd::Blocked => return (host, Answer::Refused(Refusal::NoBlocked)),
        }
    }

    /// Sets a register of the processor.
    pub(crate) fn set_register(self, reg: u8, n: u32) -> (Host, Answer)
        ensures untaken { result.0.untaken ≡ self.untaken }
        ensures steps { self.untaken ≡ true → Steps (SetRegister reg n) self result.0 result.1 }
        ensures fits { room_of (seen_answer result.1) ≤ REGISTER_ROOM }
    {
        let mut host = self;
        put_register(&mut host.board.registers, reg, n);
        (host, Answer::Done)
    }

    /// Shows the registers of the processor.
    pub(crate) fn show_registers(self) -> (Host, Answer)
        ensures untaken { result.0.untaken ≡ self.untaken }
        ensures steps { self.untaken ≡ true → Steps ShowRegisters self result.0 result.1 }
        ensures fits { room_of (seen_answer result.1) ≤ REGISTER_ROOM }
    {
        let registers = self.board.registers;
        (self, Answer::Registers(registers.regs))
    }

    /// Arms a device write for a turn of the next session. Where memory runs out, nothing is done.
    pub(crate) fn arm(self, turn: u32, at: u32, bytes: &[u8]) -> (Host, Result<Answer, NoMemory>)
        ensures untaken { result.0.untaken ≡ self.untaken }
        ensures steps { IfOk result.1
            (λ answer. Steps (Arm turn at bytes.now) self result.0 answer) }
        ensures fits { IfOk result.1 (λ answer. room_of (seen_answer answer) ≤ REGISTER_ROOM) }
        ensures kept { OnErr result.1 (result.0 ≡ self) }
    {
        let mut host = self;
        match host.armed.arm(turn, at, bytes) {
            Ok(()) => return (host, Ok(Answer::Done)),
            Err(_) => return (host, Err(NoMemory)),
        }
    }

    /// Runs a session, for whose outputs there is room. Where memory runs out for the area's bytes,
    /// nothing is done.
    pub(crate) fn session(
        self,
        image: &[u8],
        inputs: &[u8],
        nonce: &[u8; 20],
        outputs: Bytes,
    ) -> (Host, Result<Answer, NoMemory>)
        requires { IsRoom outputs }
        ensures untaken { result.0.untaken ≡ self.untaken }
        ensures steps { IfOk result.1 (λ answer. self.untaken ≡ true
            → Steps (RunSession image.now inputs.now nonce.now None) self result.0 answer) }
        ensures fits { IfOk result.1 (λ answer. room_of (seen_answer answer) ≤ SESSION_ROOM) }
        ensures short { IfOk result.1 (λ answer. HasShortOutputs (seen_answer answer)) }
        ensures kept { OnErr result.1 (result.0 ≡ self) }
    {
        let Host {
            board,
            disk,
            tickets,
            mut armed,
            found,
        } = self;
        let mut out = [0; LONGEST_OUTPUTS];
        match session(board, image, inputs, nonce, &mut armed, &mut out) {
            Ok((board, end)) => {
                let answer = session_answer(end, &mut armed, &out, outputs);
                let host = Host {
                    board,
                    disk,
                    tickets,
                    armed,
                    found,
                };
                return (host, answer);
            }
            Err(dark) => {
                let host = come_back(dark, disk, tickets, armed, found);
                return (host, Ok(Answer::Refused(Refusal::PowerLost)));
            }
        }
    }
}

// The host once the power came back: no write stays armed, and the disk keeps what was synced.
fn come_back(
    dark: Dark,
    disk: SimDisk,
    tickets: Vec<Ticket>,
    armed: Dma,
    found: Snapshot<Memory>,
) -> Host
    requires { IsHost (is_untaken found.value) (powered dark).memory tickets.items }
    ensures { result ≡ record {
      board = powered dark;
      disk = cycled 0 [] disk;
      spans = tickets.items;
      untaken = is_untaken found.value;
      armed = [];
      spare = vec_capacity tickets - vec_len tickets;
    } }
{
    let mut disk = disk;
    let mut armed = armed;
    armed.clear();
    disk.power_cycle(0, &[]);
    Host {
        board: dark.power_on(),
        disk,
        tickets,
        armed,
        found,
    }
}

// Puts a value into a register of the processor, if there is one of this number.
fn put_register(registers: &mut Cpu, reg: u8, n: u32)
    ensures { registers.new ≡ record registers.old { regs = slice_set registers.old.regs reg n } }
{
    let index = reg as usize;
    if index < registers.regs.len() {
        registers.regs[index] = n;
    }
}

// What a session is answered, where memory did not run out: where it ended, no write stays armed.
fn session_answer(
    end: SessionEnd,
    armed: &mut Dma,
    out: &[u8; LONGEST_OUTPUTS],
    outputs: Bytes,
) -> Result<Answer, NoMemory>
    requires { IsRoom outputs }
    ensures answer { IfOk result
        (λ answer. seen_answer answer ≡ answer_to_end end armed.old out.now) }
    ensures armed { armed.new ≡ armed_after end armed.old }
    ensures short { IfOk result (λ answer. HasShortOutputs (seen_answer answer)) }
    ensures memory { IsErr result ↔ (end ≡ SessionEnd.NoMemory) }
{
    match end {
        SessionEnd::NoMemory => return Err(NoMemory),
        SessionEnd::NoPlace => return Ok(Answer::Refused(Refusal::NoPlace)),
        SessionEnd::BadImage(fault) => return Ok(Answer::Refused(Refusal::NoImage(fault))),
        SessionEnd::LongInput => return Ok(Answer::Refused(Refusal::NoInput)),
        SessionEnd::Ended { end, turns } => {
            let mut outputs = outputs;
            outputs.put(outputs_of(end, out));
            let over = SessionOver {
                end,
                turns,
                writes_done: armed.done(),
                writes_blocked: armed.blocked(),
                writes_left: armed.left(),
                outputs,
            };
            armed.clear();
            return Ok(Answer::Ended(over));
        }
    }
}

// The outputs of an end.
fn outputs_of(end: End, out: &[u8; LONGEST_OUTPUTS]) -> &[u8]
    ensures value { result.now ≡ take (count_of end) out.now }
    ensures short { length result.now ≤ LONGEST_OUTPUTS }
{
    match end {
        End::Done(count) => return &out[..(count as usize).min(LONGEST_OUTPUTS)],
        _ => return &out[..0],
    }
}
