// Runs of whole scripts over a source and a sink in memory.
use crate::machine::{runner, spend};
use flk_base::{MemSink, MemSource, PutFault, RunEnd};
use flk_run::{ScriptFault, run_script};
use script_text::{BadLine, LineFault};
use std::alloc::Global;

// A script, in pieces of so many bytes, with a read and a put that fail (none past the last).
#[derive(Drop)]
struct Input {
    script: &'static str,
    piece: u32,
    failing_read: u32,
    failing_put: u32,
}

const NEVER: u32 = u32::MAX;

fn ends(alloc: Global, input: &Input, wanted: RunEnd<ScriptFault>, written: &str) -> bool {
    let bytes = input.script.as_bytes();
    let piece = input.piece.max(1);
    let Ok(mut source) = MemSource::new(alloc, bytes, &[input.failing_read], piece) else {
        return false;
    };
    let Ok(mut out) = MemSink::new(alloc, &[input.failing_put]) else {
        return false;
    };
    let Some(machine) = runner(alloc) else {
        return false;
    };
    let (machine, end) = run_script(alloc, &mut source, &mut out, machine);
    spend(machine);
    end == wanted && out.contents() == written.as_bytes()
}

fn input_of(script: &'static str, piece: u32, failing_read: u32, failing_put: u32) -> Input {
    Input {
        script,
        piece,
        failing_read,
        failing_put,
    }
}

#[test]
fn runs(rt: HostRuntime) {
    let unknown = RunEnd::Bad(ScriptFault {
        line: 4,
        bad: BadLine::Faulty(LineFault::Command),
    });
    let script = "extend 0 x:\n\nextend 99 x:\nreed\nextend 1 x:\n";
    let transcript = "1 ok\n3 no register\n";
    let two = "extend 0 x:\nextend 1 x:\n";
    let three = "extend 0 x:\nextend 1 x:\nextend 2 x:\n";
    let session = "image m pal 32 3 x:31db31c0cd80\nsession m x: rep:00*20 o\nshow o\n";
    let answers = "1 ok 38\n2 ok done turns 3 dma 0 0 0 x:\n3 ok x:\n";
    let rows: [(Input, RunEnd<ScriptFault>, &str); 8] = [
        (input_of(script, 1, NEVER, NEVER), unknown, transcript),
        (input_of(script, 7, NEVER, NEVER), unknown, transcript),
        (input_of(script, 65_536, NEVER, NEVER), unknown, transcript),
        // The third read fails: the whole lines of the first two are done.
        (
            input_of(two, 13, 2, NEVER),
            RunEnd::ReadFault,
            "1 ok\n2 ok\n",
        ),
        // The second put fails: no line after it is begun.
        (
            input_of(three, 99, NEVER, 1),
            RunEnd::Cut(PutFault::Failed),
            "1 ok\n",
        ),
        (input_of(session, 5, NEVER, NEVER), RunEnd::Done, answers),
        // The session's put fails: it was done, and the line after it is not begun.
        (
            input_of(session, 99, NEVER, 1),
            RunEnd::Cut(PutFault::Failed),
            "1 ok 38\n",
        ),
        (
            input_of("extend 0 x:", 99, NEVER, NEVER),
            RunEnd::Done,
            "1 ok\n",
        ),
    ];
    for (i, (input, end, written)) in rows.iter().enumerate() {
        assert!(rt; ends(rt.alloc(), input, *end, written), "row {i}");
    }
}
