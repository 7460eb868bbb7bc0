//! A turn, and the services that launched code calls by `int 0x80`.
ghost use Rattle.std.specs.Prelude.{◌≡◌, ◌≤◌, length};
ghost use Rattle.flk_base.specs.Plan.{Return};
ghost use Rattle.i386_profile.specs.Effects.{state};
ghost use Rattle.seal_device.specs.Digests.{on_device};
ghost use Rattle.late_launch.specs.States.{session_device};
ghost use Rattle.slb_core.specs.Services.{to_end, to_extend, to_read, to_keep, service_of, comes_to, comes_to_in_job, gate, turn};
ghost use Rattle.slb_core.specs.Reports.{TurnEnds};

use crate::counting::{to_create, to_draw, to_increment, to_read_counter};
use crate::sealing::{to_seal, to_unseal};
use crate::spans::{lies_in, read_span, write_span};
use crate::turn::{SEGMENT_SIZE, execute};
use flk_base::PowerLost;
use i386_profile::{Cpu, FaultKind, Reg, Step};
use late_launch::{End, Launched};
use seal_device::{LONGEST_SEALED, RegisterFault};

/// The gate that calls a service.
const SERVICE_GATE: u8 = 0x80;

/// The register that a launch resets, and that launched code extends.
const LAUNCH_REGISTER: u32 = 17;

/// The most bytes that inputs or outputs may have.
pub(crate) const PAGE_SIZE: usize = 4096;

/// Where the inputs lie in the region.
pub(crate) const INPUTS_OFFSET: u32 = 57_344;

/// Where the state of a job lies in the region.
pub(crate) const KEPT_OFFSET: u32 = 63_488;

/// Where the outputs lie in the region.
pub(crate) const OUTPUTS_OFFSET: u32 = 61_440;

/// The most bytes of outputs that the code of a job may have.
const LONGEST_JOB_OUTPUTS: usize = 1024;

/// The answer to a service that the code of a job may not call.
const NOT_FOR_JOBS: u32 = 7;

/// The services that code calls.
#[derive(Clone, Copy)]
pub(crate) enum Service {
    /// To end.
    End,
    /// To extend register 17.
    Extend,
    /// To read a register.
    ReadRegister,
    /// To seal bytes.
    Seal,
    /// To unseal a blob.
    Unseal,
    /// To create a counter.
    NewCounter,
    /// To read a counter.
    ReadCounter,
    /// To increment a counter.
    Increment,
    /// To draw a random word.
    Random,
}

/// How code ended, and how many bytes of state a job is to keep of it.
#[derive(Clone, Copy)]
pub(crate) struct Ending {
    pub(crate) end: End,
    pub(crate) kept: u16,
}

/// What a turn came to.
#[derive(Clone, Copy)]
pub(crate) enum Turned {
    /// The next turn.
    Next,
    /// The code's end.
    Over(Ending),
}

/// The code ends with this fault.
pub(crate) fn fault(kind: FaultKind) -> Turned
    ensures { result ≡ Turned.Over (record { end = End.Fault kind; kept = 0 }) }
{
    Turned::Over(Ending {
        end: End::Fault(kind),
        kept: 0,
    })
}

/// To end with so many bytes of outputs.
fn to_end(session: &mut Launched, cpu: &Cpu, outputs: &mut [u8; PAGE_SIZE]) -> Turned
    ensures { TurnEnds
        (on_device (Return (to_end (state cpu.now session.old.region))) (session_device session.old))
        session.old session.new cpu.now outputs.new (Ok result) }
{
    let count = cpu.regs[Reg::Ebx as usize] as usize;
    if count > PAGE_SIZE {
        return fault(FaultKind::Segment);
    }
    read_span(session, OUTPUTS_OFFSET as usize, &mut outputs[..count]);
    Turned::Over(Ending {
        end: End::Done(count as u16),
        kept: 0,
    })
}

/// To end the code of a job with so many bytes of outputs and of state.
fn to_keep(session: &mut Launched, cpu: &Cpu, outputs: &mut [u8; PAGE_SIZE]) -> Turned
    ensures { TurnEnds
        (on_device (Return (to_keep (state cpu.now session.old.region))) (session_device session.old))
        session.old session.new cpu.now outputs.new (Ok result) }
{
    let count = cpu.regs[Reg::Ebx as usize] as usize;
    let kept = cpu.regs[Reg::Edx as usize] as usize;
    if count > LONGEST_JOB_OUTPUTS {
        return fault(FaultKind::Segment);
    }
    if kept > LONGEST_SEALED {
        return fault(FaultKind::Segment);
    }
    read_span(session, OUTPUTS_OFFSET as usize, &mut outputs[..count]);
    Turned::Over(Ending {
        end: End::Done(count as u16),
        kept: kept as u16,
    })
}

/// To extend register 17 by a span of the region.
fn to_extend(
    session: &mut Launched,
    cpu: &mut Cpu,
    outputs: &[u8; PAGE_SIZE],
) -> Result<Turned, PowerLost>
    ensures { TurnEnds
        (on_device (to_extend (state cpu.old session.old.region)) (session_device session.old))
        session.old session.new cpu.new outputs.now result }
{
    let at = cpu.regs[Reg::Ebx as usize];
    let count = cpu.regs[Reg::Ecx as usize];
    if !lies_in(at, count) {
        return Ok(fault(FaultKind::Segment));
    }
    let mut text = [0; SEGMENT_SIZE];
    let text = &mut text[..count as usize];
    read_span(session, at as usize, text);
    match session.extend(LAUNCH_REGISTER, b"pal", text) {
        Err(RegisterFault::PowerLost) => return Err(PowerLost),
        // There is a register 17.
        Ok(()) | Err(RegisterFault::NoRegister) => (),
    }
    cpu.regs[Reg::Eax as usize] = 0;
    Ok(Turned::Next)
}

/// To read a register into a span of the region.
fn to_read(
    session: &mut Launched,
    cpu: &mut Cpu,
    outputs: &[u8; PAGE_SIZE],
) -> Result<Turned, PowerLost>
    ensures { TurnEnds
        (on_device (to_read (state cpu.old session.old.region)) (session_device session.old))
        session.old session.new cpu.new outputs.now result }
{
    let at = cpu.regs[Reg::Edi as usize];
    if !lies_in(at, 20) {
        return Ok(fault(FaultKind::Segment));
    }
    match session.read_register(cpu.regs[Reg::Ebx as usize]) {
        Err(RegisterFault::PowerLost) => return Err(PowerLost),
        Err(RegisterFault::NoRegister) => {
            cpu.regs[Reg::Eax as usize] = 1;
            return Ok(Turned::Next);
        }
        Ok(value) => {
            write_span(session, at as usize, &value);
            cpu.regs[Reg::Eax as usize] = 0;
            return Ok(Turned::Next);
        }
    }
}

/// The service of a number, if it has one.
fn service_of(number: u32) -> Option<Service>
    ensures { result ≡ service_of number }
{
    match number {
        0 => Some(Service::End),
        1 => Some(Service::Extend),
        2 => Some(Service::ReadRegister),
        3 => Some(Service::Seal),
        4 => Some(Service::Unseal),
        5 => Some(Service::NewCounter),
        6 => Some(Service::ReadCounter),
        7 => Some(Service::Increment),
        8 => Some(Service::Random),
        _ => None,
    }
}

/// A service that code calls.
fn serve(
    session: &mut Launched,
    cpu: &mut Cpu,
    outputs: &mut [u8; PAGE_SIZE],
    service: Option<Service>,
) -> Result<Turned, PowerLost>
    ensures { TurnEnds
        (on_device (comes_to service (state cpu.old session.old.region)) (session_device session.old))
        session.old session.new cpu.new outputs.new result }
{
    match service {
        Some(Service::End) => return Ok(to_end(session, cpu, outputs)),
        Some(Service::Extend) => return to_extend(session, cpu, outputs),
        Some(Service::ReadRegister) => return to_read(session, cpu, outputs),
        Some(Service::Seal) => return to_seal(session, cpu, outputs),
        Some(Service::Unseal) => return to_unseal(session, cpu, outputs),
        Some(Service::NewCounter) => return to_create(session, cpu, outputs),
        Some(Service::ReadCounter) => return to_read_counter(session, cpu, outputs),
        Some(Service::Increment) => return to_increment(session, cpu, outputs),
        Some(Service::Random) => return to_draw(session, cpu, outputs),
        None => return Ok(fault(FaultKind::Instruction)),
    }
}

/// A service that the code of a job calls.
fn serve_job(
    session: &mut Launched,
    cpu: &mut Cpu,
    outputs: &mut [u8; PAGE_SIZE],
    service: Option<Service>,
) -> Result<Turned, PowerLost>
    ensures { TurnEnds
        (on_device (comes_to_in_job service (state cpu.old session.old.region)) (session_device session.old))
        session.old session.new cpu.new outputs.new result }
{
    match service {
        Some(Service::End) => return Ok(to_keep(session, cpu, outputs)),
        Some(Service::Random) => return to_draw(session, cpu, outputs),
        Some(
            Service::Extend
            | Service::ReadRegister
            | Service::Seal
            | Service::Unseal
            | Service::NewCounter
            | Service::ReadCounter
            | Service::Increment,
        ) => {
            cpu.regs[Reg::Eax as usize] = NOT_FOR_JOBS;
            return Ok(Turned::Next);
        }
        None => return Ok(fault(FaultKind::Instruction)),
    }
}

/// What a gate comes to, by whether a job's code calls it.
fn serve_gate(
    session: &mut Launched,
    cpu: &mut Cpu,
    job: bool,
    outputs: &mut [u8; PAGE_SIZE],
    number: u8,
) -> Result<Turned, PowerLost>
    ensures { TurnEnds
        (on_device (gate job number (state cpu.old session.old.region)) (session_device session.old))
        session.old session.new cpu.new outputs.new result }
{
    if number != SERVICE_GATE {
        return Ok(fault(FaultKind::Instruction));
    }
    let service = service_of(cpu.regs[Reg::Eax as usize]);
    if job {
        return serve_job(session, cpu, outputs, service);
    }
    return serve(session, cpu, outputs, service);
}

/// A turn: the instruction at eip, and what it comes to.
pub(crate) fn take_turn(
    session: &mut Launched,
    cpu: &mut Cpu,
    job: bool,
    outputs: &mut [u8; PAGE_SIZE],
) -> Result<Turned, PowerLost>
    ensures { TurnEnds
        (on_device (turn job (state cpu.old session.old.region)) (session_device session.old))
        session.old session.new cpu.new outputs.new result }
{
    match execute(session, cpu) {
        Step::Next => return Ok(Turned::Next),
        Step::Gate(number) => return serve_gate(session, cpu, job, outputs, number),
        Step::Fault(kind) => return Ok(fault(kind)),
    }
}
