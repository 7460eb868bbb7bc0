//! The services on counters, and of random words.
ghost use Rattle.std.specs.Prelude.{◌≡◌};
ghost use Rattle.i386_profile.specs.Effects.{state};
ghost use Rattle.seal_device.specs.Digests.{on_device};
ghost use Rattle.late_launch.specs.States.{session_device};
ghost use Rattle.slb_core.specs.Services.{to_create, to_read_counter, to_increment, to_draw};
ghost use Rattle.slb_core.specs.Reports.{TurnEnds};

use crate::services::{PAGE_SIZE, Turned, fault};
use crate::spans::{lies_in, write_span};
use flk_base::PowerLost;
use i386_profile::{Cpu, FaultKind, Reg};
use late_launch::Launched;
use seal_device::{CounterFault, RandomFault};

/// The last number that a counter may be asked for by.
const LAST_ID: u32 = 255;

/// How many bytes a random word has.
const WORD_LEN: u32 = 20;

/// To create a counter.
pub(crate) fn to_create(
    session: &mut Launched,
    cpu: &mut Cpu,
    outputs: &[u8; PAGE_SIZE],
) -> Result<Turned, PowerLost>
    ensures { TurnEnds
        (on_device (to_create (state cpu.old session.old.region)) (session_device session.old))
        session.old session.new cpu.new outputs.now result }
{
    match session.new_counter() {
        Ok(id) => {
            cpu.regs[Reg::Eax as usize] = 0;
            cpu.regs[Reg::Ebx as usize] = u32::from(id);
        }
        Err(CounterFault::PowerLost) => return Err(PowerLost),
        Err(fault) => cpu.regs[Reg::Eax as usize] = fault as u32,
    }
    Ok(Turned::Next)
}

/// To read a counter.
pub(crate) fn to_read_counter(
    session: &mut Launched,
    cpu: &mut Cpu,
    outputs: &[u8; PAGE_SIZE],
) -> Result<Turned, PowerLost>
    ensures { TurnEnds
        (on_device (to_read_counter (state cpu.old session.old.region)) (session_device session.old))
        session.old session.new cpu.new outputs.now result }
{
    let id = cpu.regs[Reg::Ebx as usize];
    if id > LAST_ID {
        cpu.regs[Reg::Eax as usize] = CounterFault::NoCounter as u32;
        return Ok(Turned::Next);
    }
    match session.read_counter(id as u8) {
        Ok(value) => {
            cpu.regs[Reg::Eax as usize] = 0;
            cpu.regs[Reg::Ecx as usize] = value;
        }
        Err(CounterFault::PowerLost) => return Err(PowerLost),
        Err(fault) => cpu.regs[Reg::Eax as usize] = fault as u32,
    }
    Ok(Turned::Next)
}

/// To increment a counter.
pub(crate) fn to_increment(
    session: &mut Launched,
    cpu: &mut Cpu,
    outputs: &[u8; PAGE_SIZE],
) -> Result<Turned, PowerLost>
    ensures { TurnEnds
        (on_device (to_increment (state cpu.old session.old.region)) (session_device session.old))
        session.old session.new cpu.new outputs.now result }
{
    let id = cpu.regs[Reg::Ebx as usize];
    if id > LAST_ID {
        cpu.regs[Reg::Eax as usize] = CounterFault::NoCounter as u32;
        return Ok(Turned::Next);
    }
    match session.increment(id as u8) {
        Ok(value) => {
            cpu.regs[Reg::Eax as usize] = 0;
            cpu.regs[Reg::Ecx as usize] = value;
        }
        Err(CounterFault::PowerLost) => return Err(PowerLost),
        Err(fault) => cpu.regs[Reg::Eax as usize] = fault as u32,
    }
    Ok(Turned::Next)
}

/// To draw a random word into a span of the region.
pub(crate) fn to_draw(
    session: &mut Launched,
    cpu: &mut Cpu,
    outputs: &[u8; PAGE_SIZE],
) -> Result<Turned, PowerLost>
    ensures { TurnEnds
        (on_device (to_draw (state cpu.old session.old.region)) (session_device session.old))
        session.old session.new cpu.new outputs.now result }
{
    let at = cpu.regs[Reg::Edi as usize];
    if !lies_in(at, WORD_LEN) {
        return Ok(fault(FaultKind::Segment));
    }
    match session.random() {
        Ok(word) => {
            write_span(session, at as usize, &word);
            cpu.regs[Reg::Eax as usize] = 0;
        }
        Err(RandomFault::PowerLost) => return Err(PowerLost),
        Err(fault) => cpu.regs[Reg::Eax as usize] = fault as u32,
    }
    Ok(Turned::Next)
}
