//! A session from its launch to its close.
ghost use Rattle.std.specs.Prelude.{◌≡◌, ◌≤◌, [], length, take, true, false};
ghost use Rattle.i386_profile.specs.Effects.{state};
ghost use Rattle.slb_image.specs.Fields.{image_of};
ghost use Rattle.machine_memory.specs.Writes.{part};
ghost use Rattle.machine_memory.specs.Areas.{guarded};
ghost use Rattle.seal_device.specs.Digests.{on_device};
ghost use Rattle.late_launch.specs.Regions.{inputs_offset};
ghost use Rattle.late_launch.specs.States.{has_image, image_in, session_device};
ghost use Rattle.slb_core.specs.Pal.{outside};
ghost use Rattle.slb_core.specs.Sessions.{first_outside, inputs_in, first_registers, runs, permits_of, setting_of, serving, serve_answer, begun, LeavesWrites, CountsOutputs};
ghost use Rattle.slb_core.specs.Reports.{count_of, start_in, PalEnds};
ghost use Rattle.slb_core.specs.Resume.{served, ResumesHost};

use crate::jobs::{Start, run_job};
use crate::pal::{Ended, run};
use crate::services::{INPUTS_OFFSET, OUTPUTS_OFFSET, PAGE_SIZE};
use crate::spans::read_span;
use flk_base::PowerLost;
use i386_profile::{Cpu, Reg};
use late_launch::{Closed, Dark, End, Launched};
use machine_memory::Dma;

/// What the image of a session says of its run: how many turns it may take, and whether it is a job's.
#[derive(Clone, Copy)]
struct Limits {
    budget: u32,
    job: bool,
}

/// What the image in the region says.
fn limits_in(session: &Launched) -> Limits
    requires { has_image session.now.region ≡ true }
    ensures budget { result.budget ≡ (image_of (image_in session.now.region)).budget }
    ensures job { result.job ≡ (image_of (image_in session.now.region)).job }
{
    let image = session.image();
    Limits {
        budget: image.budget(),
        job: image.job(),
    }
}

/// The registers that the code begins with: how many bytes the inputs are, and where inputs and outputs lie.
fn first_registers(start: Cpu, count: u16) -> Cpu
    ensures { result ≡ first_registers start count }
{
    let mut cpu = start;
    cpu.regs[Reg::Ecx as usize] = u32::from(count);
    cpu.regs[Reg::Esi as usize] = INPUTS_OFFSET;
    cpu.regs[Reg::Edi as usize] = OUTPUTS_OFFSET;
    cpu
}

/// Does the device writes of turn 0, and takes so many bytes of inputs, also into a copy that the code cannot reach.
fn begin(session: &mut Launched, count: u16, dma: &mut Dma, taken: &mut [u8])
    requires few { count ≤ 4096 }
    requires room { length taken.old ≡ count }
    ensures session { session.new ≡ begun session.old count (first_outside (setting_of session.old) dma.old) }
    ensures writes { dma.new ≡ (first_outside (setting_of session.old) dma.old).writes }
    ensures taken { taken.new ≡ inputs_in (setting_of session.old) count (first_outside (setting_of session.old) dma.old) }
{
    session.device_writes(dma, 0);
    session.take_inputs(count);
    read_span(session, INPUTS_OFFSET as usize, taken);
}

/// Runs the code of an image that is no job's.
fn run_code(
    session: &mut Launched,
    start: Start,
    dma: &mut Dma,
    outputs: &mut [u8; PAGE_SIZE],
) -> Result<Ended, PowerLost>
    ensures { PalEnds
        (on_device (runs false (start_in session.old start.cpu start.budget dma.old) []) (session_device session.old))
        session.old session.new dma.new outputs.new result }
{
    match run(session, start.cpu, false, start.budget, dma, outputs) {
        Err(PowerLost) => return Err(PowerLost),
        Ok(code) => {
            return Ok(Ended {
                end: code.end,
                turns: code.turns,
            });
        }
    }
}

/// Runs the code, or does what the inputs of a job ask for.
fn run_by(
    session: &mut Launched,
    job: bool,
    start: Start,
    dma: &mut Dma,
    inputs: &[u8],
    outputs: &mut [u8; PAGE_SIZE],
) -> Result<Ended, PowerLost>
    requires { length inputs.now ≤ 4096 }
    ensures { PalEnds
        (on_device (runs job (start_in session.old start.cpu start.budget dma.old) inputs.now) (session_device session.old))
        session.old session.new dma.new outputs.new result }
{
    if job {
        return run_job(session, start, dma, inputs, outputs);
    }
    return run_code(session, start, dma, outputs);
}

/// The outputs of an end.
fn outputs_of(end: End, outputs: &[u8; PAGE_SIZE]) -> &[u8]
    requires { count_of end ≤ 4096 }
    ensures value { result.now ≡ take (count_of end) outputs.now }
    ensures size { length result.now ≡ count_of end }
{
    match end {
        End::Done(count) => return &outputs[..count as usize],
        _ => return &outputs[..0],
    }
}

/// Runs the code of a launched session on so many bytes of the input page, and closes the session. The device
/// writes that wait for turn 0 are done first, those of each turn before it.
///
/// # Errors
///
/// Where the fuse had no step left for a step of the device.
pub fn serve(
    launched: Launched,
    inputs: u16,
    nonce: &[u8; 20],
    dma: &mut Dma,
) -> Result<Closed, Dark>
    requires few { inputs ≤ 4096 }
    requires image { has_image launched.region ≡ true }
    ensures answer { result ≡ serve_answer launched
        (on_device (serving (setting_of launched) inputs nonce.now dma.old) (session_device launched)) }
    ensures writes { LeavesWrites
        (on_device (serving (setting_of launched) inputs nonce.now dma.old) (session_device launched)) dma.new }
    ensures outputs { CountsOutputs
        (on_device (serving (setting_of launched) inputs nonce.now dma.old) (session_device launched)) }
    ensures resume { ResumesHost launched dma.old (served launched inputs nonce.now dma.old) result }
{
    let mut session = launched;
    let limits = limits_in(&session);
    let start = Start {
        cpu: first_registers(session.cpu(), inputs),
        budget: limits.budget,
    };
    let mut page = [0; PAGE_SIZE];
    let taken = &mut page[..inputs as usize];
    begin(&mut session, inputs, dma, taken);
    let mut outputs = [0; PAGE_SIZE];
    match run_by(&mut session, limits.job, start, dma, taken, &mut outputs) {
        Err(PowerLost) => return Err(session.lost()),
        Ok(ended) => {
            let outputs = outputs_of(ended.end, &outputs);
            return session.close(ended.end, ended.turns, taken, outputs, nonce);
        }
    }
}
