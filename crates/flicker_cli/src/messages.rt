// What is put on err.
ghost use Rattle.std.specs.Prelude.{◌≡◌, ◌≢◌, ◌+◌, ◌≤◌, ◌++◌, [], length, codes, decimal, true};
ghost use Rattle.flk_base.specs.Streams.{output};
ghost use Rattle.flicker_cli.specs.Messages.{bad_text, asm_text, line_message, input_message, fault_message, message_of, input_status, status_of};
ghost use Rattle.flicker_cli.specs.Room.{wants_room};
ghost use Rattle.flicker_cli.specs.Calls.{Reported, status_after};

use crate::fault::Fault;
use flk_base::{Bytes, PutFault, RunEnd, Sink};
use flk_filters::BadInput;
use itoa::Buffer;
use pal_asm::AsmKind;
use script_text::{BadLine, LineFault};
use slb_image::{ImageFault, fault_number};

/// The room that a message with a number or a word of its own needs.
pub const MESSAGE_ROOM: usize = 64;

const USAGE: &[u8] = b"flicker: usage: flicker run, asm, dis, measure, verify or gen N SEED\n";

const READ_FAULT: &[u8] = b"flicker: read fault\n";

const WRITE_FAULT: &[u8] = b"flicker: write fault\n";

const NO_MEMORY: &[u8] = b"flicker: no memory\n";

// Tries a message, which has bytes, by one put, and answers what cut it short.
fn say<E: Sink>(err: &mut E, message: &[u8]) -> Option<PutFault>
    requires { message.now ≢ [] }
    ensures { Reported message.now result (output E.Sink err.old err.new) }
{
    match err.put(message) {
        Ok(()) => return None,
        Err(fault) => return Some(fault),
    }
}

// Why a line of a script is bad.
fn bad_text(bad: BadLine) -> &'static [u8]
    ensures text { result.now ≡ bad_text bad }
    ensures short { length result.now ≤ 15 }
{
    match bad {
        BadLine::Faulty(LineFault::LongLine) => b"long line",
        BadLine::Faulty(LineFault::Byte) => b"bad byte",
        BadLine::Faulty(LineFault::Command) => b"unknown command",
        BadLine::Faulty(LineFault::Count) => b"word count",
        BadLine::Faulty(LineFault::Number) => b"bad number",
        BadLine::Faulty(LineFault::Expression) => b"bad expression",
        BadLine::Faulty(LineFault::Name) => b"bad name",
        BadLine::TooMany => b"too many lines",
    }
}

// Why a line of an assembler text is bad.
fn asm_text(kind: AsmKind) -> &'static [u8]
    ensures text { result.now ≡ asm_text kind }
    ensures short { length result.now ≤ 15 }
{
    match kind {
        AsmKind::Word => b"unknown word",
        AsmKind::Operand => b"bad operand",
        AsmKind::Range => b"out of range",
        AsmKind::Label => b"unknown label",
        AsmKind::Twice => b"label twice",
        AsmKind::TooLong => b"code too long",
    }
}

// The message on a line, for which there is room.
fn put_line_message(message: &mut Bytes, number: u32, text: &[u8])
    requires room { 64 ≤ message.old.spare }
    requires short { length text.now ≤ 15 }
    ensures { message.new.bytes ≡ message.old.bytes ++ line_message number text.now }
{
    let mut buffer = Buffer::new();
    message.put(b"flicker: line ");
    message.put(buffer.format(number).as_bytes());
    message.put(b": ");
    message.put(text);
    message.put(b"\n");
}

// The message on bytes that are no image, for which there is room.
fn put_image_message(message: &mut Bytes, fault: ImageFault)
    requires { 64 ≤ message.old.spare }
    ensures { message.new.bytes ≡ message.old.bytes ++ input_message (BadInput.NotImage fault) }
{
    let mut buffer = Buffer::new();
    message.put(b"flicker: not an image: ");
    message.put(buffer.format(fault_number(fault)).as_bytes());
    message.put(b"\n");
}

// The message on an input that is not of its filter's form, for which there is room.
fn put_input_message(message: &mut Bytes, bad: BadInput)
    requires { 64 ≤ message.old.spare }
    ensures { message.new.bytes ≡ message.old.bytes ++ input_message bad }
{
    match bad {
        BadInput::TooLong => message.put(b"flicker: input too long\n"),
        BadInput::Hex => message.put(b"flicker: bad hex\n"),
        BadInput::Assembly(fault) => put_line_message(message, fault.line, asm_text(fault.kind)),
        BadInput::NotImage(fault) => put_image_message(message, fault),
        BadInput::VerifyLine => message.put(b"flicker: bad verify line\n"),
        BadInput::Denied => {}
    }
}

// Reports an input that is not of its filter's form; of a line of `verify` whose quote is another nothing is said.
fn report_input<E: Sink>(bad: BadInput, room: &mut Bytes, err: &mut E) -> Option<PutFault>
    requires empty { room.old.bytes ≡ [] }
    requires room { 64 ≤ room.old.spare }
    ensures { Reported (input_message bad) result (output E.Sink err.old err.new) }
{
    if matches!(bad, BadInput::Denied) {
        return None;
    }
    put_input_message(room, bad);
    say(err, room.as_slice())
}

// Reports what is not of its form. `room` is where a message is made that has a number or a word of its own.
fn report_fault<E: Sink>(fault: Fault, room: &mut Bytes, err: &mut E) -> Option<PutFault>
    requires { wants_room (RunEnd.Bad fault) ≡ true → (room.old.bytes ≡ []) × (64 ≤ room.old.spare) }
    ensures { Reported (fault_message fault) result (output E.Sink err.old err.new) }
{
    match fault {
        Fault::Words => return say(err, USAGE),
        Fault::Script(first) => put_line_message(room, first.line, bad_text(first.bad)),
        Fault::Input(bad) => return report_input(bad, room, err),
    }
    say(err, room.as_slice())
}

/// Reports how a call ended, by one put or by none, and answers what cut its message short.
pub fn report<E: Sink>(end: RunEnd<Fault>, room: &mut Bytes, err: &mut E) -> Option<PutFault>
    requires { wants_room end ≡ true → (room.old.bytes ≡ []) × (64 ≤ room.old.spare) }
    ensures { Reported (message_of end) result (output E.Sink err.old err.new) }
{
    match end {
        RunEnd::Done => return None,
        RunEnd::Bad(fault) => return report_fault(fault, room, err),
        RunEnd::ReadFault => return say(err, READ_FAULT),
        RunEnd::Cut(PutFault::Failed) => return say(err, WRITE_FAULT),
        RunEnd::Cut(PutFault::NoMemory) => return say(err, NO_MEMORY),
        RunEnd::NoMemory => return say(err, NO_MEMORY),
    }
}

// The status of an input that is not of its filter's form, and of a line of `verify` whose quote is another.
fn input_status(bad: BadInput) -> u8
    ensures { result ≡ input_status bad }
{
    match bad {
        BadInput::Denied => 6,
        _ => 1,
    }
}

// The status where the message of an end is written.
fn status_of(end: RunEnd<Fault>) -> u8
    ensures { result ≡ status_of end }
{
    match end {
        RunEnd::Done => 0,
        RunEnd::Bad(Fault::Words) => 2,
        RunEnd::Bad(Fault::Script(_)) => 1,
        RunEnd::Bad(Fault::Input(bad)) => input_status(bad),
        RunEnd::ReadFault => 3,
        RunEnd::Cut(PutFault::Failed) => 4,
        RunEnd::Cut(PutFault::NoMemory) => 5,
        RunEnd::NoMemory => 5,
    }
}

/// The status of a call that ended so, with a message that was cut short by this, if it was.
pub fn status_after(end: RunEnd<Fault>, cut: Option<PutFault>) -> u8
    ensures { result ≡ status_after end cut }
{
    match cut {
        None => status_of(end),
        Some(PutFault::Failed) => 4,
        Some(PutFault::NoMemory) => 5,
    }
}
