//! The services that seal bytes and unseal a blob.
ghost use Rattle.std.specs.Prelude.{◌≡◌, ◌≤◌, ◌+◌, length, Some};
ghost use Rattle.i386_profile.specs.Flags.{get};
ghost use Rattle.i386_profile.specs.Effects.{state};
ghost use Rattle.seal_device.specs.Sealed.{longest_sealed};
ghost use Rattle.seal_device.specs.Digests.{on_device};
ghost use Rattle.late_launch.specs.States.{session_device};
ghost use Rattle.slb_core.specs.Services.{counter_asked, handed_with_length, to_seal, to_seal_by, to_unseal};
ghost use Rattle.slb_core.specs.Spans.{with_region};
ghost use Rattle.slb_core.specs.Reports.{TurnEnds};

use crate::services::{PAGE_SIZE, Turned, fault};
use crate::spans::{lies_in, read_span, write_span};
use flk_base::PowerLost;
use i386_profile::{Cpu, FaultKind, Reg};
use late_launch::Launched;
use seal_device::{BLOB_ROOM, LONGEST_SEALED, SealFault, UnsealFault, blob_size};

/// How many bytes may be shown as a blob.
const LONGEST_SHOWN: usize = 4096;

/// The counter that launched code asks for.
#[derive(Clone, Copy)]
pub(crate) struct CounterAsked {
    /// Its number, where one is asked for.
    pub(crate) id: Option<u8>,
    /// Whether it is to be its next value.
    pub(crate) ahead: bool,
}

/// The counter that a number asks for, if there can be one.
fn counter_asked(number: u32) -> Option<CounterAsked>
    ensures { result ≡ counter_asked number }
{
    if number == u32::MAX {
        Some(CounterAsked {
            id: None,
            ahead: false,
        })
    } else if number < 256 {
        Some(CounterAsked {
            id: Some(number as u8),
            ahead: false,
        })
    } else if number < 512 {
        Some(CounterAsked {
            id: Some((number - 256) as u8),
            ahead: true,
        })
    } else {
        None
    }
}

/// Puts bytes at edi, and how many they are into ecx.
fn hand_over(session: &mut Launched, cpu: &mut Cpu, bytes: &[u8])
    requires fits { get cpu.old Reg.Edi + length bytes.now ≤ 65536 }
    ensures state { state cpu.new session.new.region ≡ handed_with_length (state cpu.old session.old.region) bytes.now }
    ensures others { session.new ≡ with_region session.old session.new.region }
{
    write_span(session, cpu.regs[Reg::Edi as usize] as usize, bytes);
    cpu.regs[Reg::Eax as usize] = 0;
    cpu.regs[Reg::Ecx as usize] = bytes.len() as u32;
}

/// To seal bytes of the region, with a counter that is asked for.
fn to_seal_by(
    session: &mut Launched,
    cpu: &mut Cpu,
    outputs: &[u8; PAGE_SIZE],
    asked: CounterAsked,
) -> Result<Turned, PowerLost>
    requires fits { get cpu.old Reg.Ebx + get cpu.old Reg.Ecx ≤ 65536 }
    requires short { get cpu.old Reg.Ecx ≤ longest_sealed }
    ensures { TurnEnds
        (on_device (to_seal_by (state cpu.old session.old.region) (Some asked)) (session_device session.old))
        session.old session.new cpu.new outputs.now result }
{
    let count = cpu.regs[Reg::Ecx as usize] as usize;
    if !lies_in(cpu.regs[Reg::Edi as usize], blob_size(count) as u32) {
        return Ok(fault(FaultKind::Segment));
    }
    let mut bytes = [0; LONGEST_SEALED];
    let bytes = &mut bytes[..count];
    read_span(session, cpu.regs[Reg::Ebx as usize] as usize, bytes);
    let mut blob = [0; BLOB_ROOM];
    match session.seal(bytes, asked.id, asked.ahead, &mut blob) {
        Ok(size) => hand_over(session, cpu, &blob[..size]),
        Err(SealFault::PowerLost) => return Err(PowerLost),
        Err(fault) => cpu.regs[Reg::Eax as usize] = fault as u32,
    }
    Ok(Turned::Next)
}

/// To seal a span of the region.
pub(crate) fn to_seal(
    session: &mut Launched,
    cpu: &mut Cpu,
    outputs: &[u8; PAGE_SIZE],
) -> Result<Turned, PowerLost>
    ensures { TurnEnds
        (on_device (to_seal (state cpu.old session.old.region)) (session_device session.old))
        session.old session.new cpu.new outputs.now result }
{
    let count = cpu.regs[Reg::Ecx as usize];
    if !lies_in(cpu.regs[Reg::Ebx as usize], count) {
        return Ok(fault(FaultKind::Segment));
    }
    if count as usize > LONGEST_SEALED {
        cpu.regs[Reg::Eax as usize] = SealFault::TooLong as u32;
        return Ok(Turned::Next);
    }
    match counter_asked(cpu.regs[Reg::Edx as usize]) {
        Some(asked) => return to_seal_by(session, cpu, outputs, asked),
        None => {
            cpu.regs[Reg::Eax as usize] = SealFault::NoCounter as u32;
            return Ok(Turned::Next);
        }
    }
}

/// To unseal the blob in a span of the region.
pub(crate) fn to_unseal(
    session: &mut Launched,
    cpu: &mut Cpu,
    outputs: &[u8; PAGE_SIZE],
) -> Result<Turned, PowerLost>
    ensures { TurnEnds
        (on_device (to_unseal (state cpu.old session.old.region)) (session_device session.old))
        session.old session.new cpu.new outputs.now result }
{
    let count = cpu.regs[Reg::Ecx as usize];
    if !lies_in(cpu.regs[Reg::Ebx as usize], count) {
        return Ok(fault(FaultKind::Segment));
    }
    if count as usize > LONGEST_SHOWN {
        cpu.regs[Reg::Eax as usize] = UnsealFault::NotBlob as u32;
        return Ok(Turned::Next);
    }
    let mut blob = [0; LONGEST_SHOWN];
    let blob = &mut blob[..count as usize];
    read_span(session, cpu.regs[Reg::Ebx as usize] as usize, blob);
    let mut bytes = [0; LONGEST_SEALED];
    match session.unseal(blob, &mut bytes) {
        Ok(size) => {
            if !lies_in(cpu.regs[Reg::Edi as usize], size as u32) {
                return Ok(fault(FaultKind::Segment));
            }
            hand_over(session, cpu, &bytes[..size]);
        }
        Err(UnsealFault::PowerLost) => return Err(PowerLost),
        Err(fault) => cpu.regs[Reg::Eax as usize] = fault as u32,
    }
    Ok(Turned::Next)
}
