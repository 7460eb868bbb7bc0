// A machine for a test, and its end; a script on a machine of its own, line by line.
use flk_base::Bytes;
use flk_run::{Board, Runner, SimDisk, StepEnd};
use script_text::read_line;
use std::alloc::Global;

// A line of a script and its answer, or nothing where it has no line of the transcript.
pub(crate) type Row = (&'static str, &'static str);

// In place of an answer that is too long to be written here: the rows after it show what it came to.
pub(crate) const LONG: &str = "..";

pub(crate) fn runner(alloc: Global) -> Option<Runner> {
    runner_failing(alloc, &[])
}

// One on whose disk the calls of these numbers fail.
fn runner_failing(alloc: Global, calls: &[u32]) -> Option<Runner> {
    let Ok(board) = Board::blank(alloc) else {
        return None;
    };
    let Ok(disk) = SimDisk::failing(alloc, calls) else {
        board.scrap();
        return None;
    };
    Some(Runner::new(alloc, board, disk))
}

pub(crate) fn spend(runner: Runner) {
    let (mut board, disk, spans) = runner.finish();
    spans.give_all(&mut board);
    board.scrap();
    disk.scrap();
}

// This is the line of event 7 with this answer.
fn is_answer(written: &[u8], wanted: &str) -> bool {
    if wanted == LONG {
        return true;
    }
    if wanted.is_empty() {
        return written.is_empty();
    }
    let Some(answer) = written.strip_prefix(b"7 ") else {
        return false;
    };
    answer.strip_suffix(b"\n") == Some(wanted.as_bytes())
}

// The event of the line as event 7, and whether it has this answer.
fn is_row(alloc: Global, runner: Runner, line: &str, wanted: &str) -> (Runner, bool) {
    let Ok(event) = read_line(alloc, line.as_bytes()) else {
        return (runner, false);
    };
    let mut answer = Bytes::new(alloc);
    let (runner, end) = runner.step(7, &event, &mut answer);
    let is_done = matches!(end, StepEnd::Done) && is_answer(answer.as_slice(), wanted);
    (runner, is_done)
}

// The index of the first row with another answer, or how many rows there are.
pub(crate) fn first_wrong(alloc: Global, rows: &[Row]) -> usize {
    first_wrong_failing(alloc, &[], rows)
}

// The same where the calls of these numbers to the disk fail.
pub(crate) fn first_wrong_failing(alloc: Global, calls: &[u32], rows: &[Row]) -> usize {
    let Some(mut machine) = runner_failing(alloc, calls) else {
        return 0;
    };
    for (i, (line, wanted)) in rows.iter().enumerate() {
        let (next, is_right) = is_row(alloc, machine, line, wanted);
        machine = next;
        if !is_right {
            spend(machine);
            return i;
        }
    }
    spend(machine);
    rows.len()
}
