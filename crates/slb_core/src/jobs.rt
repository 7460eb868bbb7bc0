//! Sessions of a job's image: what each mode does.
ghost use Rattle.std.specs.Prelude.{◌≡◌, ◌≤◌, ◌+◌, ◌++◌, length, take, Ok, Some, IfOk};
ghost use Rattle.flk_base.specs.Plan.{Ask, Return, ask};
ghost use Rattle.flk_base.specs.Stop.{Ends, reported_into};
ghost use Rattle.machine_memory.specs.Writes.{part};
ghost use Rattle.seal_device.specs.Blobs.{blob_counter};
ghost use Rattle.seal_device.specs.Commands.{Command};
ghost use Rattle.seal_device.specs.Faults.{seal_fault};
ghost use Rattle.seal_device.specs.Sealed.{longest_sealed};
ghost use Rattle.seal_device.specs.Digests.{on_device};
ghost use Rattle.late_launch.specs.States.{session_device};
ghost use Rattle.slb_core.specs.Services.{kept_offset};
ghost use Rattle.slb_core.specs.Pal.{outside};
ghost use Rattle.slb_core.specs.JobInputs.{asked_of};
ghost use Rattle.slb_core.specs.Jobs.{registers_with, job_outputs, seals_after, runs_with, steps_from, commits, probed, in_mode, does_asked};
ghost use Rattle.slb_core.specs.Reports.{count_of, seal_fault_refusal, unseal_fault_refusal, seen_asked, start_in, code_seen, PalEnds};

use crate::job_inputs::{Asked, HEAD_LEN, Mode, asked_of};
use crate::pal::{CodeEnded, Ended, run};
use crate::services::{INPUTS_OFFSET, KEPT_OFFSET, PAGE_SIZE};
use crate::spans::{read_span, write_span};
use byteorder::{BigEndian, ByteOrder};
use flk_base::PowerLost;
use i386_profile::{Cpu, Reg};
use late_launch::{End, JobRefusal, Launched};
use machine_memory::Dma;
use seal_device::{BLOB_ROOM, CounterFault, LONGEST_SEALED, SealFault, UnsealFault, blob_counter};

/// What code runs with: its registers, and for how many turns at most.
#[derive(Clone, Copy)]
pub(crate) struct Start {
    pub(crate) cpu: Cpu,
    pub(crate) budget: u32,
}

/// A session that is refused, for which no code ran.
fn refused(why: JobRefusal) -> Ended
    ensures { result ≡ record { end = End.Refused why; turns = 0 } }
{
    Ended {
        end: End::Refused(why),
        turns: 0,
    }
}

/// A session that is done, for which no code ran.
fn passed_over() -> Ended
    ensures { result ≡ record { end = End.Done 0; turns = 0 } }
{
    Ended {
        end: End::Done(0),
        turns: 0,
    }
}

/// Puts the outputs of a session that sealed a state into a page: the blob, with its length before it, and the outputs
/// of the code, of which there are so many. It answers how many bytes they are.
fn put_outputs(blob: &[u8], count: usize, outputs: &mut [u8; PAGE_SIZE]) -> usize
    requires blob { length blob.now ≤ 2107 }
    requires few { count ≤ 1024 }
    ensures size { result ≡ length (job_outputs blob.now (take count outputs.old)) }
    ensures outputs { take result outputs.new ≡ job_outputs blob.now (take count outputs.old) }
    ensures short { result ≤ 4096 }
{
    let mut head = [0; 2];
    BigEndian::write_u16(&mut head, blob.len() as u16);
    let mut page = [0; PAGE_SIZE];
    let size = append(&mut page, 0, &head);
    let size = append(&mut page, size, blob);
    let size = append(&mut page, size, &outputs[..count]);
    *outputs = page;
    size
}

/// Puts bytes after so many first ones of a page, and answers how many these are then.
fn append(page: &mut [u8; PAGE_SIZE], at: usize, piece: &[u8]) -> usize
    requires { at + length piece.now ≤ 4096 }
    ensures size { result ≡ at + length piece.now }
    ensures front { take result page.new ≡ take at page.old ++ piece.now }
{
    let end = at + piece.len();
    page[at..end].copy_from_slice(piece);
    end
}

/// Seals so many bytes of state for a counter, for its next value where that is asked for.
fn seal_kept(
    session: &mut Launched,
    count: u16,
    id: u8,
    ahead: bool,
    blob: &mut [u8; BLOB_ROOM],
) -> Result<usize, SealFault>
    requires { count ≤ longest_sealed }
    ensures ends { Ends (reported_into blob.old seal_fault SealFault.PowerLost)
        (on_device (ask (Command.Seal (part session.old.region kept_offset count) (Some id) ahead)) (session_device session.old))
        (session_device session.new) (result, blob.new) }
    ensures others { session.new ≡ record session.old { device = session.new.device; fuse = session.new.fuse } }
    ensures size { IfOk result (λ size. size ≤ 2107) }
{
    let mut kept = [0; LONGEST_SEALED];
    let kept = &mut kept[..count as usize];
    read_span(session, KEPT_OFFSET as usize, kept);
    session.seal(kept, Some(id), ahead, blob)
}

/// After code that ended so: where it ended by itself, its state is sealed for a counter, for its next value where that
/// is asked for.
fn seal_after(
    session: &mut Launched,
    code: CodeEnded,
    id: u8,
    ahead: bool,
    dma: &Dma,
    outputs: &mut [u8; PAGE_SIZE],
) -> Result<Ended, PowerLost>
    requires few { count_of code.end ≤ 1024 }
    requires short { code.kept ≤ longest_sealed }
    ensures { PalEnds
        (on_device (seals_after code.end id ahead (code_seen code session.old dma.now outputs.old)) (session_device session.old))
        session.old session.new dma.now outputs.new result }
{
    let End::Done(count) = code.end else {
        return Ok(Ended {
            end: code.end,
            turns: code.turns,
        });
    };
    let mut blob = [0; BLOB_ROOM];
    match seal_kept(session, code.kept, id, ahead, &mut blob) {
        Ok(size) => {
            let count = put_outputs(&blob[..size], count as usize, outputs);
            return Ok(Ended {
                end: End::Done(count as u16),
                turns: code.turns,
            });
        }
        Err(SealFault::PowerLost) => return Err(PowerLost),
        Err(fault) => {
            return Ok(Ended {
                end: End::Refused(seal_refusal(fault)),
                turns: code.turns,
            });
        }
    }
}

/// Why a session is refused whose state is not sealed.
fn seal_refusal(fault: SealFault) -> JobRefusal
    ensures { result ≡ seal_fault_refusal fault }
{
    match fault {
        SealFault::CounterEnd => JobRefusal::CounterEnd,
        SealFault::SerialEnd => JobRefusal::SerialEnd,
        SealFault::Unprovisioned => JobRefusal::Unprovisioned,
        SealFault::TooLong | SealFault::NoCounter | SealFault::PowerLost => JobRefusal::NotOpen,
    }
}

/// Why a session is refused whose blob is not opened.
fn unseal_refusal(fault: UnsealFault) -> JobRefusal
    ensures { result ≡ unseal_fault_refusal fault }
{
    match fault {
        UnsealFault::Unprovisioned => JobRefusal::Unprovisioned,
        UnsealFault::NotBlob
        | UnsealFault::WrongChain
        | UnsealFault::WrongCounter
        | UnsealFault::PowerLost => JobRefusal::NotOpen,
    }
}

/// The registers that a job's code begins with.
fn job_registers(start: Cpu, asked: Asked<'_>, kept: usize) -> Cpu
    requires blob { length asked.blob.now ≤ 4096 }
    requires own { length asked.own.now ≤ 4096 }
    requires kept { kept ≤ 2048 }
    ensures { result ≡ registers_with start (length asked.entry.own.now) (length asked.entry.blob.now) kept }
{
    let mut cpu = start;
    cpu.regs[Reg::Ecx as usize] = asked.own.len() as u32;
    cpu.regs[Reg::Esi as usize] = INPUTS_OFFSET + (HEAD_LEN + asked.blob.len()) as u32;
    cpu.regs[Reg::Edx as usize] = kept as u32;
    cpu
}

/// Runs a job's code with the state that was kept, and seals its new one for a counter.
fn run_with(
    session: &mut Launched,
    start: Start,
    asked: Asked<'_>,
    kept: &[u8],
    id: u8,
    ahead: bool,
    dma: &mut Dma,
    outputs: &mut [u8; PAGE_SIZE],
) -> Result<Ended, PowerLost>
    requires blob { length asked.blob.now ≤ 4096 }
    requires own { length asked.own.now ≤ 4096 }
    requires kept { length kept.now ≤ 2048 }
    ensures { PalEnds
        (on_device (runs_with (start_in session.old start.cpu start.budget dma.old) (seen_asked asked.entry) kept.now id ahead) (session_device session.old))
        session.old session.new dma.new outputs.new result }
{
    write_span(session, KEPT_OFFSET as usize, kept);
    let cpu = job_registers(start.cpu, asked, kept.len());
    match run(session, cpu, true, start.budget, dma, outputs) {
        Err(PowerLost) => return Err(PowerLost),
        Ok(code) => return seal_after(session, code, id, ahead, dma, outputs),
    }
}

/// A job is born.
fn bear(
    session: &mut Launched,
    start: Start,
    asked: Asked<'_>,
    dma: &mut Dma,
    outputs: &mut [u8; PAGE_SIZE],
) -> Result<Ended, PowerLost>
    requires blob { length asked.blob.now ≤ 4096 }
    requires own { length asked.own.now ≤ 4096 }
    ensures { PalEnds
        (on_device (in_mode Mode.New (start_in session.old start.cpu start.budget dma.old) (seen_asked asked.entry)) (session_device session.old))
        session.old session.new dma.new outputs.new result }
{
    match session.new_counter() {
        Ok(id) => return run_with(session, start, asked, &[], id, false, dma, outputs),
        Err(CounterFault::PowerLost) => return Err(PowerLost),
        Err(_) => return Ok(refused(JobRefusal::NoCounterLeft)),
    }
}

/// A job takes a step, if its blob opens and bears a counter.
fn step(
    session: &mut Launched,
    start: Start,
    asked: Asked<'_>,
    dma: &mut Dma,
    outputs: &mut [u8; PAGE_SIZE],
) -> Result<Ended, PowerLost>
    requires blob { length asked.blob.now ≤ 4096 }
    requires own { length asked.own.now ≤ 4096 }
    ensures { PalEnds
        (on_device (in_mode Mode.Step (start_in session.old start.cpu start.budget dma.old) (seen_asked asked.entry)) (session_device session.old))
        session.old session.new dma.new outputs.new result }
{
    let mut kept = [0; LONGEST_SEALED];
    match session.unseal(asked.blob, &mut kept) {
        Ok(size) => return step_from(session, start, asked, &kept[..size], dma, outputs),
        Err(UnsealFault::PowerLost) => return Err(PowerLost),
        Err(fault) => return Ok(refused(unseal_refusal(fault))),
    }
}

/// A step from a state that was unsealed.
fn step_from(
    session: &mut Launched,
    start: Start,
    asked: Asked<'_>,
    kept: &[u8],
    dma: &mut Dma,
    outputs: &mut [u8; PAGE_SIZE],
) -> Result<Ended, PowerLost>
    requires blob { length asked.blob.now ≤ 4096 }
    requires own { length asked.own.now ≤ 4096 }
    requires kept { length kept.now ≤ 2048 }
    ensures { PalEnds
        (on_device (steps_from (start_in session.old start.cpu start.budget dma.old) (seen_asked asked.entry) kept.now (blob_counter asked.entry.blob.now)) (session_device session.old))
        session.old session.new dma.new outputs.new result }
{
    match blob_counter(asked.blob) {
        Some(id) => return run_with(session, start, asked, kept, id, true, dma, outputs),
        None => return Ok(refused(JobRefusal::NotOpen)),
    }
}

/// Increments the counter of a step that is committed.
fn increment(
    session: &mut Launched,
    id: u8,
    dma: &Dma,
    outputs: &[u8; PAGE_SIZE],
) -> Result<Ended, PowerLost>
    ensures { PalEnds
        (on_device (commits (outside session.old.around.bytes dma.now) (Ok id)) (session_device session.old))
        session.old session.new dma.now outputs.now result }
{
    match session.increment(id) {
        Ok(_value) => return Ok(passed_over()),
        Err(CounterFault::PowerLost) => return Err(PowerLost),
        Err(_) => return Ok(refused(JobRefusal::NotOpen)),
    }
}

/// A step is committed.
fn commit(
    session: &mut Launched,
    blob: &[u8],
    dma: &Dma,
    outputs: &[u8; PAGE_SIZE],
) -> Result<Ended, PowerLost>
    ensures { PalEnds
        (on_device (Ask (Command.CheckNext blob.now) (commits (outside session.old.around.bytes dma.now))) (session_device session.old))
        session.old session.new dma.now outputs.now result }
{
    match session.check_next(blob) {
        Ok(id) => return increment(session, id, dma, outputs),
        Err(UnsealFault::PowerLost) => return Err(PowerLost),
        Err(fault) => return Ok(refused(unseal_refusal(fault))),
    }
}

/// A blob is tried.
fn probe(
    session: &mut Launched,
    blob: &[u8],
    dma: &Dma,
    outputs: &[u8; PAGE_SIZE],
) -> Result<Ended, PowerLost>
    ensures { PalEnds
        (on_device (Ask (Command.Unseal blob.now) (λ reply. Return (probed (outside session.old.around.bytes dma.now) (blob_counter blob.now) reply))) (session_device session.old))
        session.old session.new dma.now outputs.now result }
{
    let mut kept = [0; LONGEST_SEALED];
    match session.unseal(blob, &mut kept) {
        Ok(_size) => match blob_counter(blob) {
            Some(_id) => return Ok(passed_over()),
            None => return Ok(refused(JobRefusal::NotOpen)),
        },
        Err(UnsealFault::PowerLost) => return Err(PowerLost),
        Err(fault) => return Ok(refused(unseal_refusal(fault))),
    }
}

/// Does what the inputs of a job's session ask for.
pub(crate) fn run_job(
    session: &mut Launched,
    start: Start,
    dma: &mut Dma,
    inputs: &[u8],
    outputs: &mut [u8; PAGE_SIZE],
) -> Result<Ended, PowerLost>
    requires { length inputs.now ≤ 4096 }
    ensures { PalEnds
        (on_device (does_asked (start_in session.old start.cpu start.budget dma.old) (asked_of inputs.now)) (session_device session.old))
        session.old session.new dma.new outputs.new result }
{
    let Some(asked) = asked_of(inputs) else {
        return Ok(refused(JobRefusal::Input));
    };
    match asked.mode {
        Mode::New => return bear(session, start, asked, dma, outputs),
        Mode::Step => return step(session, start, asked, dma, outputs),
        Mode::Commit => return commit(session, asked.blob, dma, outputs),
        Mode::Probe => return probe(session, asked.blob, dma, outputs),
    }
}
