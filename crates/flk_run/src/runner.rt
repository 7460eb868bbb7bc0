// Runs events.
ghost use Rattle.std.specs.Prelude.{◌≡◌, ◌≤◌, true, false, IfOk, IsOk, IsErr, OnOk};
ghost use Rattle.script_text.specs.Seen.{request_of, HasShortName};
ghost use Rattle.flk_run.specs.Tasks.{room, task_of, MayAllocateFor};
ghost use Rattle.flk_run.specs.Seen.{seen_task, binds, takes, IsNamed, HasRoom, HasSlot};

use crate::answers::put_answer;
use crate::events::perform;
use crate::host::Host;
use crate::spans::Spans;
use crate::tasks::{Task, task_of};
use flk_base::{Bytes, NoMemory};
use job_store::SimDisk;
use late_launch::Board;
use script_text::{Event, Vars};
use std::alloc::Global;
use std::marker::Model;

/// How an event ended.
#[derive(Clone, Copy)]
pub enum StepEnd {
    /// It was done, and its line of the transcript was appended.
    Done,
    /// There was no memory for it, and nothing was done.
    NoMemory,
}

/// Runs events on a board and a disk, and keeps the tickets of the spans that the host takes, and
/// the variables of the script. Where the board's memory held no span when the runner was made,
/// contracts know the platform by digests that it is. It must be spent, by `finish`.
pub struct Runner {
    host: Host,
    vars: Vars,
    alloc: Global,
}

impl Model for Runner {
    ghost use Rattle.std.specs.Coded.{codes};
    ghost use Rattle.flk_run.specs.Parts.{Experiment, experiment, table_code};

    ghost Value = { Experiment };

    ghost coded = { Prim.hlevel (codes, table_code) };

    ghost view = { λ r. experiment r.host r.vars.table };
}

impl Runner {
    ghost use Rattle.std.specs.Prelude.{◌≡◌, ◌≤◌, ◌++◌, [], true, OnOk, IsErr};
    ghost use Rattle.std.specs.FinMap.{empty};
    ghost use Rattle.std.specs.Option.{IfSome, option_map};
    ghost use Rattle.seal_device.specs.Digests.{digests};
    ghost use Rattle.script_text.specs.Seen.{request_of, HasShortName};
    ghost use Rattle.machine_memory.specs.HostMemory.{is_untaken};
    ghost use Rattle.flk_run.specs.Tasks.{room, task_of, MayAllocateFor};
    ghost use Rattle.flk_run.specs.Events.{after, transcript_line};
    ghost use Rattle.flk_run.specs.Parts.{HoldsSpans, platform};

    /// A runner over this board and this disk, with no span taken and no name bound.
    pub fn new(alloc: Global, board: Board, disk: SimDisk) -> Runner
        ensures { result
            ≡ record {
              board = board;
              disk = disk;
              spans = [];
              untaken = is_untaken board.memory;
              armed = [];
              variables = empty;
            } }
    {
        Runner {
            host: Host::new(alloc, board, disk),
            vars: Vars::new(alloc),
            alloc,
        }
    }

    /// Does an event, and appends its line of the transcript, or nothing for a blank line. It
    /// allocates only before its first step.
    pub fn step(self, number: u32, event: &Event, answer: &mut Bytes) -> (Runner, StepEnd)
        requires { HasShortName (request_of event.now) }
        // It is a step of the platform by digests.
        ensures stepped { result.1 ≡ StepEnd.Done
            → platform result.0
            ≡ option_map (after digests (request_of event.now)) (platform self) }
        ensures written { result.1 ≡ StepEnd.Done → IfSome (platform self) (λ p.
            answer.new.bytes ≡ answer.old.bytes
            ++ transcript_line digests number (request_of event.now) p) }
        // Whether the platform is known stays as it was.
        ensures untaken { result.0.untaken ≡ self.untaken }
        // Out of memory leaves all as it was.
        ensures kept { result.1 ≡ StepEnd.NoMemory → result.0 ≡ self }
        ensures unwritten { result.1 ≡ StepEnd.NoMemory → answer.new.bytes ≡ answer.old.bytes }
        // Where there is room for its line, memory runs out only at a request that may allocate.
        ensures memory { result.1 ≡ StepEnd.NoMemory
            → room (task_of (request_of event.now) self.variables) ≤ answer.old.spare
            → MayAllocateFor (request_of event.now) self.variables }
    {
        let mut runner = self;
        match prepared(
            runner.alloc,
            event,
            &mut runner.host,
            &mut runner.vars,
            answer,
        ) {
            Ok(task) => {
                let Runner {
                    host,
                    mut vars,
                    alloc,
                } = runner;
                let (host, done) = perform(host, &mut vars, task);
                let runner = Runner { host, vars, alloc };
                match done {
                    Ok(done) => {
                        put_answer(answer, number, &done);
                        return (runner, StepEnd::Done);
                    }
                    Err(NoMemory) => return (runner, StepEnd::NoMemory),
                }
            }
            Err(NoMemory) => return (runner, StepEnd::NoMemory),
        }
    }

    /// The board, the disk and the spans that the host holds.
    pub fn finish(self) -> (Board, SimDisk, Spans)
        ensures board { result.0 ≡ self.board }
        ensures disk { result.1 ≡ self.disk }
        ensures spans { result.2 ≡ self.spans }
        ensures held { HoldsSpans result.0.memory.marks result.2 }
    {
        let Runner {
            host,
            vars: _,
            alloc: _,
        } = self;
        host.part()
    }
}

// What an event comes to, with room for its line, the name that it binds and its ticket: all that
// it allocates.
fn prepared<'e>(
    alloc: Global,
    event: &'e Event,
    host: &mut Host,
    vars: &mut Vars,
    answer: &mut Bytes,
) -> Result<Task<'e>, NoMemory>
    requires { HasShortName (request_of event.now) }
    ensures task { IfOk result (λ task. seen_task task
        ≡ task_of (request_of event.now) vars.old.table) }
    ensures named { IfOk result (λ task. IsNamed (seen_task task)) }
    ensures room { IfOk result HasRoom }
    ensures slot { IfOk result (λ task. HasSlot (seen_task task)) }
    ensures line { IfOk result (λ task. room (seen_task task) ≤ answer.new.spare) }
    ensures name { IfOk result (λ task. binds (seen_task task) ≡ true → 1 ≤ vars.new.spare) }
    ensures ticket { IfOk result (λ task. takes (seen_task task) ≡ true → 1 ≤ host.new.spare) }
    ensures host { host.new ≡ record host.old { spare = host.new.spare } }
    ensures table { vars.new.table ≡ vars.old.table }
    ensures unwritten { answer.new.bytes ≡ answer.old.bytes }
    ensures memory { IsErr result
        → room (task_of (request_of event.now) vars.old.table) ≤ answer.old.spare
        → MayAllocateFor (request_of event.now) vars.old.table }
{
    let task = task_of(alloc, event, vars)?;
    answer.reserve(task.room())?;
    room_for_name(&task, vars)?;
    room_for_span(&task, host)?;
    Ok(task)
}

// Makes room for the name that a task binds, where it binds one.
fn room_for_name(task: &Task<'_>, vars: &mut Vars) -> Result<(), NoMemory>
    ensures table { vars.new.table ≡ vars.old.table }
    ensures room { OnOk result (binds (seen_task task.now) ≡ true → 1 ≤ vars.new.spare) }
    ensures unasked { binds (seen_task task.now) ≡ false → IsOk result }
{
    if task.binds() {
        return vars.room();
    }
    Ok(())
}

// Makes room for the ticket that a task takes, where it takes one.
fn room_for_span(task: &Task<'_>, host: &mut Host) -> Result<(), NoMemory>
    ensures same { host.new ≡ record host.old { spare = host.new.spare } }
    ensures room { OnOk result (takes (seen_task task.now) ≡ true → 1 ≤ host.new.spare) }
    ensures unasked { takes (seen_task task.now) ≡ false → IsOk result }
{
    if task.takes() {
        return host.room();
    }
    Ok(())
}
