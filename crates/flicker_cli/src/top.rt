// The top call.
ghost use Rattle.std.specs.Prelude.{◌≡◌, ◌⊎◌, ◌≤◌, ℕ, List, [], map, true, Some, None, string_bytes};
ghost use Rattle.std.specs.FinMap.{empty};
ghost use Rattle.flk_base.specs.Causes.{Rose};
ghost use Rattle.flk_base.specs.Streams.{intake, output};
ghost use Rattle.flk_base.specs.RunEnds.{HasCauses, mapped_end};
ghost use Rattle.seal_device.specs.Digests.{digests};
ghost use Rattle.machine_memory.specs.HostMemory.{is_untaken};
ghost use Rattle.flk_run.specs.Parts.{HoldsSpans, platform_of, known_if};
ghost use Rattle.flicker_cli.specs.declared.words.Command.{Command as CommandView};
ghost use Rattle.flicker_cli.specs.Commands.{command};
ghost use Rattle.flicker_cli.specs.Calls.{AnsweredTwice, CallRan, ScriptRan};
ghost use Rattle.flicker_cli.specs.Room.{wants_room};
ghost use Rattle.flicker_cli.specs.Texts.{IsText, IsTextStatus, IsDenied, end_on};
ghost use Rattle.flicker_cli.specs.Messages.{status_of};

use crate::fault::Fault;
use crate::finished::Finished;
use crate::messages::{MESSAGE_ROOM, report, status_after};
use crate::words::{Command, command_of};
use flk_base::{Bytes, RunEnd, Sink, Source};
use flk_filters::{BadInput, run_filter};
use flk_run::{Board, Runner, ScriptFault, SimDisk, Spans, run_script};
use std::alloc::Global;

/// Does what the words of the command line say, over this source and these sinks, on this board and disk.
pub fn flicker<S: Source, K: Sink, E: Sink>(
    alloc: Global,
    words: &[String],
    source: &mut S,
    out: &mut K,
    err: &mut E,
    board: Board,
    disk: SimDisk,
) -> Finished
    // How the call ended: what was taken, done and written, by which cause, with which message and status. The platform is
    // known where the board's memory held no span.
    // It ended so by digests; and where no command compared, by lists, from each platform of lists that stands for this one.
    ensures answered { AnsweredTwice (command (map string_bytes words.now)) result.status
        (intake S.Source source.old source.new) (output K.Sink out.old out.new) (output E.Sink err.old err.new)
        (known_if (is_untaken board.memory) (platform_of board [] disk empty))
        (known_if (is_untaken board.memory) (platform_of result.board result.spans result.disk empty)) }
    // Only a script changes the board or the disk, or takes a span.
    ensures kept { (command (map string_bytes words.now) ≡ Some CommandView.Run → ⊥)
        → (result.board ≡ board) × (result.disk ≡ disk) × (result.spans ≡ []) }
    // Memory holds the spans that are handed back.
    ensures held { HoldsSpans result.board.memory.marks result.spans }

    // Status 0, 1, 2 or 6: the end is that of the words and the bytes taken, whatever follows these.
    ensures text { IsTextStatus result.status → IsText (command (map string_bytes words.now)) result.status
        (intake S.Source source.old source.new) (output E.Sink err.old err.new) }

    // There is no other status, and each has its cause.
    ensures known { result.status ≤ 6 }
    ensures usage { result.status ≡ 2 → command (map string_bytes words.now) ≡ None }
    ensures no_command { command (map string_bytes words.now) ≡ None
        → (result.status ≡ 2) ⊎ (result.status ≡ 4) ⊎ (result.status ≡ 5) }
    ensures unread { command (map string_bytes words.now) ≡ None → source.new ≡ source.old }
    ensures read { result.status ≡ 3 → Rose (S.fault_count source.old) (S.fault_count source.new) }
    ensures write { result.status ≡ 4
        → Rose (K.fault_count out.old) (K.fault_count out.new) ⊎ Rose (E.fault_count err.old) (E.fault_count err.new) }

    ensures denied { result.status ≡ 6
        → IsDenied (command (map string_bytes words.now)) (intake S.Source source.old source.new) }

    // The status is that of the whole source, unless a fault comes or memory runs out: 0 where it is of its command's form,
    // 1 where it is not, and 6 where it is a line of `verify` whose quote is another.
    ensures complete { (task : CommandView) → command (map string_bytes words.now) ≡ Some task
        → (content : List ℕ) → S.left source.old ≡ Some content
        → (result.status ≡ status_of (end_on (Some task) content true)) ⊎ (result.status ≡ 5)
        ⊎ Rose (S.fault_count source.old) (S.fault_count source.new)
        ⊎ Rose (K.fault_count out.old) (K.fault_count out.new) ⊎ Rose (E.fault_count err.old) (E.fault_count err.new) }
{
    let mut room = Bytes::new(alloc);
    let Ended {
        end,
        board,
        disk,
        spans,
    } = carry_out(alloc, words, &mut room, source, out, board, disk);
    let cut = report(end, &mut room, err);
    Finished {
        status: status_after(end, cut),
        board,
        disk,
        spans,
    }
}

// How a call ended, and what it leaves. It must be spent.
struct Ended {
    end: RunEnd<Fault>,
    board: Board,
    disk: SimDisk,
    spans: Spans,
}

// Does what the words say. Room for a message that needs some is made before anything is begun.
fn carry_out<S: Source, K: Sink>(
    alloc: Global,
    words: &[String],
    room: &mut Bytes,
    source: &mut S,
    out: &mut K,
    board: Board,
    disk: SimDisk,
) -> Ended
    requires { room.old.bytes ≡ [] }
    ensures ran { CallRan digests (command (map string_bytes words.now)) result.end
        (intake S.Source source.old source.new) (output K.Sink out.old out.new)
        (known_if (is_untaken board.memory) (platform_of board [] disk empty))
        (known_if (is_untaken board.memory) (platform_of result.board result.spans result.disk empty)) }
    ensures kept { (command (map string_bytes words.now) ≡ Some CommandView.Run → ⊥)
        → (result.board ≡ board) × (result.disk ≡ disk) × (result.spans ≡ []) }
    ensures held { HoldsSpans result.board.memory.marks result.spans }
    ensures caused { HasCauses result.end (intake S.Source source.old source.new) (output K.Sink out.old out.new) }
    ensures room { wants_room result.end ≡ true → (room.new.bytes ≡ []) × (64 ≤ room.new.spare) }
{
    let Some(command) = command_of(words) else {
        return as_it_was(alloc, RunEnd::Bad(Fault::Words), board, disk);
    };
    if room.reserve(MESSAGE_ROOM).is_err() {
        return as_it_was(alloc, RunEnd::NoMemory, board, disk);
    }
    match command {
        Command::Run => return script(alloc, source, out, board, disk),
        Command::Filter(filter) => {
            let end = run_filter(alloc, filter, source, out);
            return as_it_was(alloc, of_filter(end), board, disk);
        }
    }
}

// The end of a call that leaves the board and the disk as they were.
fn as_it_was(alloc: Global, end: RunEnd<Fault>, board: Board, disk: SimDisk) -> Ended
    ensures end { result.end ≡ end }
    ensures board { result.board ≡ board }
    ensures disk { result.disk ≡ disk }
    ensures spans { result.spans ≡ [] }
{
    Ended {
        end,
        board,
        disk,
        spans: Spans::none(alloc),
    }
}

// Runs a script, with no span taken and no name bound.
fn script<S: Source, K: Sink>(
    alloc: Global,
    source: &mut S,
    out: &mut K,
    board: Board,
    disk: SimDisk,
) -> Ended
    ensures ran { ScriptRan digests result.end (intake S.Source source.old source.new) (output K.Sink out.old out.new)
        (known_if (is_untaken board.memory) (platform_of board [] disk empty))
        (known_if (is_untaken board.memory) (platform_of result.board result.spans result.disk empty)) }
    ensures held { HoldsSpans result.board.memory.marks result.spans }
    ensures caused { HasCauses result.end (intake S.Source source.old source.new) (output K.Sink out.old out.new) }
{
    let (runner, end) = run_script(alloc, source, out, Runner::new(alloc, board, disk));
    let (board, disk, spans) = runner.finish();
    Ended {
        end: of_script(end),
        board,
        disk,
        spans,
    }
}

// The end of a script as that of a call.
fn of_script(end: RunEnd<ScriptFault>) -> RunEnd<Fault>
    ensures { result ≡ mapped_end Fault.Script end }
{
    match end {
        RunEnd::Done => RunEnd::Done,
        RunEnd::Bad(first) => RunEnd::Bad(Fault::Script(first)),
        RunEnd::ReadFault => RunEnd::ReadFault,
        RunEnd::Cut(fault) => RunEnd::Cut(fault),
        RunEnd::NoMemory => RunEnd::NoMemory,
    }
}

// The end of a filter as that of a call.
fn of_filter(end: RunEnd<BadInput>) -> RunEnd<Fault>
    ensures { result ≡ mapped_end Fault.Input end }
{
    match end {
        RunEnd::Done => RunEnd::Done,
        RunEnd::Bad(bad) => RunEnd::Bad(Fault::Input(bad)),
        RunEnd::ReadFault => RunEnd::ReadFault,
        RunEnd::Cut(fault) => RunEnd::Cut(fault),
        RunEnd::NoMemory => RunEnd::NoMemory,
    }
}
