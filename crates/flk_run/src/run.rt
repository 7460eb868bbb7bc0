// Runs a script, line by line.
ghost use Rattle.std.specs.Prelude.{◌≡◌, ℕ, ◌≤◌, ◌+◌, List, [], false, Some};
ghost use Rattle.flk_base.specs.Streams.{intake, output};
ghost use Rattle.flk_base.specs.RunEnds.{HasCauses, WriteHasCause};
ghost use Rattle.seal_device.specs.Digests.{digests};
ghost use Rattle.script_text.specs.Reading.{judged};
ghost use Rattle.script_text.specs.Seen.{request_of, HasShortName};
ghost use Rattle.flk_run.specs.Parts.{platform};
ghost use Rattle.flk_run.specs.Agreement.{RanTwice};
ghost use Rattle.flk_run.specs.Runs.{Ran};
ghost use Rattle.flk_run.specs.LineRuns.{LineRan};

use crate::runner::{Runner, StepEnd};
use flk_base::{Bytes, RunEnd, Sink, Source};
use script_text::{
    AnyEnd, BadLine, Event, LineEnd, LineError, LineFault, LineReader, MOST_LINES, read_line,
};
use std::alloc::Global;

/// The first bad line of a script.
#[derive(Clone, Copy, Debug, PartialEq, Eq)]
pub struct ScriptFault {
    /// Its number, from 1 on.
    pub line: u32,
    /// Why it is bad.
    pub bad: BadLine,
}

/// Runs a script up to its end, its first bad line or a fault. Each line is done, and its line of
/// the transcript is written by one put, before a further read is made for a line that is not
/// whole.
pub fn run_script<S: Source, K: Sink>(
    alloc: Global,
    source: &mut S,
    out: &mut K,
    runner: Runner,
) -> (Runner, RunEnd<ScriptFault>)
    // What was taken, done and written: on the platform by digests, and, where no command compared, by lists, from each
    // platform of lists that stands for the runner's.
    ensures ran { RanTwice result.1 (intake S.Source source.old source.new)
        (output K.Sink out.old out.new) (platform runner) (platform result.0) }
    // Whether the platform is known stays as it was.
    ensures untaken { result.0.untaken ≡ runner.untaken }
    // No fault is passed over, or reported as another end.
    ensures caused { HasCauses result.1 (intake S.Source source.old source.new)
        (output K.Sink out.old out.new) }
{
    match LineReader::new(alloc) {
        Ok(reader) => run_lines(alloc, reader, source, out, runner),
        Err(_) => (runner, RunEnd::NoMemory),
    }
}

// Runs the lines that a reader gives, the first of which is the script's first.
fn run_lines<S: Source, K: Sink>(
    alloc: Global,
    reader: LineReader,
    source: &mut S,
    out: &mut K,
    runner: Runner,
) -> (Runner, RunEnd<ScriptFault>)
    requires { reader ≡ record { bytes = []; ended = false; line = [] } }
    ensures ran { Ran digests result.1 (intake S.Source source.old source.new)
        (output K.Sink out.old out.new) (platform runner) (platform result.0) }
    ensures untaken { result.0.untaken ≡ runner.untaken }
    ensures caused { HasCauses result.1 (intake S.Source source.old source.new)
        (output K.Sink out.old out.new) }
{
    let mut reader = reader;
    let mut runner = runner;
    for before in 0..MOST_LINES {
        let number = before + 1;
        match reader.next(source) {
            LineEnd::Line => {}
            LineEnd::End => return (runner, RunEnd::Done),
            LineEnd::Long => return (runner, bad_line(number, LineFault::LongLine)),
            LineEnd::Failed => return (runner, RunEnd::ReadFault),
        }
        let (next, end) = run_line(alloc, number, reader.line(), runner, out);
        runner = next;
        match end {
            RunEnd::Done => {}
            _ => return (runner, end),
        }
    }
    match reader.any(source) {
        AnyEnd::Some => return (runner, too_many_lines()),
        AnyEnd::End => return (runner, RunEnd::Done),
        AnyEnd::Failed => return (runner, RunEnd::ReadFault),
    }
}

// The line of this number has a fault.
fn bad_line(line: u32, fault: LineFault) -> RunEnd<ScriptFault>
    ensures { result ≡ RunEnd.Bad (record { line = line; bad = BadLine.Faulty fault }) }
{
    RunEnd::Bad(ScriptFault {
        line,
        bad: BadLine::Faulty(fault),
    })
}

// There is one line too many.
fn too_many_lines() -> RunEnd<ScriptFault>
    ensures { result ≡ RunEnd.Bad (record { line = MOST_LINES + 1; bad = BadLine.TooMany }) }
{
    RunEnd::Bad(ScriptFault {
        line: MOST_LINES + 1,
        bad: BadLine::TooMany,
    })
}

// Does the line of this number, and writes its line of the transcript.
fn run_line<K: Sink>(
    alloc: Global,
    number: u32,
    line: &[u8],
    runner: Runner,
    out: &mut K,
) -> (Runner, RunEnd<ScriptFault>)
    requires { number ≤ MOST_LINES }
    ensures ran { LineRan result.1 number line.now (judged number line.now) (K.contents out.old)
        (K.contents out.new) (platform runner) (platform result.0) }
    ensures untaken { result.0.untaken ≡ runner.untaken }
    ensures caused { WriteHasCause result.1 (output K.Sink out.old out.new) }
{
    match read_line(alloc, line) {
        Err(LineError::NoMemory) => return (runner, RunEnd::NoMemory),
        Err(LineError::Fault(fault)) => return (runner, bad_line(number, fault)),
        Ok(event) => return run_event(alloc, number, &event, runner, out),
    }
}

// Does an event, and writes its line of the transcript, where it has one.
fn run_event<K: Sink>(
    alloc: Global,
    number: u32,
    event: &Event,
    runner: Runner,
    out: &mut K,
) -> (Runner, RunEnd<ScriptFault>)
    requires { HasShortName (request_of event.now) }
    ensures ran { (text : List ℕ)
        → LineRan result.1 number text (Ok (request_of event.now)) (K.contents out.old)
        (K.contents out.new) (platform runner) (platform result.0) }
    ensures untaken { result.0.untaken ≡ runner.untaken }
    ensures caused { WriteHasCause result.1 (output K.Sink out.old out.new) }
{
    let mut answer = Bytes::new(alloc);
    let (runner, end) = runner.step(number, event, &mut answer);
    match end {
        StepEnd::NoMemory => return (runner, RunEnd::NoMemory),
        StepEnd::Done => {}
    }
    if answer.as_slice().is_empty() {
        return (runner, RunEnd::Done);
    }
    match out.put(answer.as_slice()) {
        Ok(()) => return (runner, RunEnd::Done),
        Err(fault) => return (runner, RunEnd::Cut(fault)),
    }
}
