// The answers to events, as lines of the transcript.
ghost use Rattle.std.specs.Prelude.{◌≡◌, ◌+◌, ◌*◌, ◌≤◌, ◌++◌, [], ◌∷◌, length, codes, decimal};
ghost use Rattle.hex.specs.Hex.{encode_lower};
ghost use Rattle.flk_run.specs.Answers.{fault_text, end_text, counts_text, spaced, numbered_line, line_of, room_of, Done, Counts, Shows, Registers, Says, Refused};
ghost use Rattle.flk_run.specs.Seen.{seen_answer, HasShortOutputs};

use flk_base::{Bytes, print_hex};
use itoa::Buffer;
use job_store::LONGEST_BLOB;
use late_launch::End;
use script_text::ExprFault;
use seal_device::LONGEST_SEALED;
use slb_image::{ImageFault, fault_number};

/// The room that a line of the transcript has, beside the digits of a value.
pub(crate) const LINE_ROOM: usize = 64;

/// The room that it has with the value of a register, or with the registers of the processor.
pub(crate) const REGISTER_ROOM: usize = LINE_ROOM + 40;

/// The most bytes of outputs that a session has.
pub(crate) const LONGEST_OUTPUTS: usize = 4096;

/// The room that it has with a quote.
pub(crate) const QUOTE_ROOM: usize = LINE_ROOM + 80;

/// The room that it has with what was sealed in a blob.
pub(crate) const UNSEAL_ROOM: usize = LINE_ROOM + 2 * LONGEST_SEALED;

/// The room that it has with the blob of a slot.
pub(crate) const SLOT_ROOM: usize = LINE_ROOM + 2 * LONGEST_BLOB;

/// The room that it has with the end of a session, whose outputs have at most 4,096 bytes.
pub(crate) const SESSION_ROOM: usize = 128 + 2 * LONGEST_OUTPUTS;

/// Why an event was not done.
#[derive(Clone, Copy, Debug, PartialEq, Eq)]
pub enum Refusal {
    /// There is no register of this number.
    NoRegister,
    /// An expression has no value.
    NoValue(ExprFault),
    /// The values have no image.
    NoImage(ImageFault),
    /// No frame begins so many free ones, or no frames were asked for.
    NoRoom,
    /// No span of the host starts at the address.
    NoSpan,
    /// The bytes lie in no one span.
    NoTaken,
    /// More bytes are asked for than a value may have, or are to be written than a slot has room for.
    NoLong,
    /// Some byte lies in no span, so no device may write it.
    NoBlocked,
    /// A nonce has not 20 bytes.
    NoNonce,
    /// The inputs of a session have more than 4,096 bytes.
    NoInput,
    /// No area is free for a session.
    NoPlace,
    /// The device has a seed.
    NoSeeded,
    /// The device has no seed.
    NoSeed,
    /// The bytes are no blob of this device, or the slot holds none.
    NoBlob,
    /// Register 17 has another value than when the blob was sealed.
    NoChain,
    /// The counter is not in use, or one that a blob bears has another value.
    NoCounter,
    /// There are no more random words, or no session ends so.
    NoEnd,
    /// There is no slot of these numbers.
    NoSlot,
    /// The disk failed.
    NoDisk,
    /// The power was lost before the event was done.
    PowerLost,
}

/// How a session ended: after how many turns, how many device writes were done, were blocked and are
/// left, and its outputs.
#[derive(Drop)]
pub(crate) struct SessionOver {
    pub(crate) end: End,
    pub(crate) turns: u32,
    pub(crate) writes_done: u64,
    pub(crate) writes_blocked: u64,
    pub(crate) writes_left: u64,
    pub(crate) outputs: Bytes,
}

/// The answer to an event.
#[derive(Drop)]
pub(crate) enum Answer {
    /// None: the line asks for nothing.
    Quiet,
    /// It was done.
    Done,
    /// It was done, with a number.
    Counts(usize),
    /// It shows the value of a register.
    Register([u8; 20]),
    /// It shows a quote.
    Quoted([u8; 40]),
    /// It shows a value.
    Shows(Bytes),
    /// It shows bytes of memory.
    Peeked(Vec<u8>),
    /// It shows the registers of the processor.
    Registers([u32; 8]),
    /// A session ended.
    Ended(SessionOver),
    /// It says yes or no.
    Says(bool),
    /// It was not done.
    Refused(Refusal),
}

// The number of a line, and a space.
fn put_number(out: &mut Bytes, number: u32)
    requires { 11 ≤ out.old.spare }
    ensures bytes { out.new.bytes ≡ out.old.bytes ++ decimal number ++ codes " " }
    ensures spare { out.old.spare ≤ out.new.spare + 11 }
{
    let mut buffer = Buffer::new();
    out.put(buffer.format(number).as_bytes());
    out.put(b" ");
}

// A line of the transcript, for which there is room.
fn put_line(out: &mut Bytes, number: u32, text: &[u8])
    requires { length text.now + 12 ≤ out.old.spare }
    ensures { out.new.bytes ≡ out.old.bytes ++ numbered_line number text.now }
{
    put_number(out, number);
    out.put(text);
    out.put(b"\n");
}

// A line that an event was done.
fn put_done(out: &mut Bytes, number: u32)
    requires { LINE_ROOM ≤ out.old.spare }
    ensures { out.new.bytes ≡ out.old.bytes ++ line_of number Done }
{
    put_line(out, number, b"ok");
}

// A line with a number.
fn put_count(out: &mut Bytes, number: u32, count: usize)
    requires { LINE_ROOM ≤ out.old.spare }
    ensures { out.new.bytes ≡ out.old.bytes ++ line_of number (Counts count) }
{
    let mut buffer = Buffer::new();
    put_number(out, number);
    out.put(b"ok ");
    out.put(buffer.format(count).as_bytes());
    out.put(b"\n");
}

// A line with a value, for which there is room.
fn put_value(out: &mut Bytes, number: u32, value: &[u8])
    requires { LINE_ROOM + 2 * length value.now ≤ out.old.spare }
    ensures { out.new.bytes ≡ out.old.bytes ++ line_of number (Shows value.now) }
{
    put_number(out, number);
    out.put(b"ok x:");
    // It can't fail: there is room for the digits (`ample` of `print_hex`).
    let _ = print_hex(out, value);
    out.put(b"\n");
}

// A space and a number.
fn put_spaced(out: &mut Bytes, value: u64)
    requires { 21 ≤ out.old.spare }
    ensures bytes { out.new.bytes ≡ out.old.bytes ++ codes " " ++ decimal value }
    ensures spare { out.old.spare ≤ out.new.spare + 21 }
{
    let mut buffer = Buffer::new();
    out.put(b" ");
    out.put(buffer.format(value).as_bytes());
}

// A line with the registers of the processor.
fn put_registers(out: &mut Bytes, number: u32, values: &[u32; 8])
    requires { REGISTER_ROOM ≤ out.old.spare }
    ensures { out.new.bytes ≡ out.old.bytes ++ line_of number (Registers values.now) }
{
    put_number(out, number);
    out.put(b"ok");
    for value in values {
        put_word(out, *value);
    }
    out.put(b"\n");
}

// A space and a number below 2^32.
fn put_word(out: &mut Bytes, value: u32)
    requires { 11 ≤ out.old.spare }
    ensures bytes { out.new.bytes ≡ out.old.bytes ++ codes " " ++ decimal value }
    ensures spare { out.old.spare ≤ out.new.spare + 11 }
{
    let mut buffer = Buffer::new();
    out.put(b" ");
    out.put(buffer.format(value).as_bytes());
}

// How a session ended, in words.
fn put_end(out: &mut Bytes, end: End)
    requires { 11 ≤ out.old.spare }
    ensures bytes { out.new.bytes ≡ out.old.bytes ++ end_text end }
    ensures spare { out.old.spare ≤ out.new.spare + 11 }
{
    let mut buffer = Buffer::new();
    match end {
        End::Done(_) => out.put(b"done"),
        End::Budget => out.put(b"budget"),
        End::Fault(_) => {
            out.put(b"fault ");
            out.put(buffer.format(end.byte()).as_bytes());
        }
        End::Refused(_) => {
            out.put(b"refused ");
            out.put(buffer.format(end.byte()).as_bytes());
        }
    }
}

// What was done in a session, beside how it ended and its outputs.
fn put_counts(out: &mut Bytes, over: &SessionOver)
    requires { 90 ≤ out.old.spare }
    ensures bytes { out.new.bytes ≡ out.old.bytes ++ counts_text over.now.turns
        over.now.writes_done over.now.writes_blocked over.now.writes_left }
    ensures spare { out.old.spare ≤ out.new.spare + 90 }
{
    out.put(b" turns");
    put_word(out, over.turns);
    out.put(b" dma");
    put_spaced(out, over.writes_done);
    put_spaced(out, over.writes_blocked);
    put_spaced(out, over.writes_left);
}

// A line that a session ended.
fn put_over(out: &mut Bytes, number: u32, over: &SessionOver)
    requires room { SESSION_ROOM ≤ out.old.spare }
    requires short { length over.now.outputs.bytes ≤ LONGEST_OUTPUTS }
    ensures { out.new.bytes ≡ out.old.bytes ++ line_of number (seen_answer (Answer.Ended over.now)) }
{
    put_number(out, number);
    out.put(b"ok ");
    put_end(out, over.end);
    put_counts(out, over);
    out.put(b" x:");
    // It can't fail: there is room for the digits (`ample` of `print_hex`).
    let _ = print_hex(out, over.outputs.as_slice());
    out.put(b"\n");
}

// A line that says yes or no.
fn put_verdict(out: &mut Bytes, number: u32, yes: bool)
    requires { LINE_ROOM ≤ out.old.spare }
    ensures { out.new.bytes ≡ out.old.bytes ++ line_of number (Says yes) }
{
    if yes {
        put_line(out, number, b"ok yes");
    } else {
        put_line(out, number, b"ok no");
    }
}

// What is wrong with an expression.
fn fault_text(fault: ExprFault) -> &'static [u8]
    ensures text { result.now ≡ fault_text fault }
    ensures short { length result.now ≤ 9 }
{
    match fault {
        ExprFault::Name => b"no name",
        ExprFault::Range => b"no range",
        ExprFault::Long => b"no long",
    }
}

// A line that values have no image.
fn put_no_image(out: &mut Bytes, number: u32, fault: ImageFault)
    requires { LINE_ROOM ≤ out.old.spare }
    ensures { out.new.bytes ≡ out.old.bytes ++ line_of number (Refused (Refusal.NoImage fault)) }
{
    let mut buffer = Buffer::new();
    put_number(out, number);
    out.put(b"no image ");
    out.put(buffer.format(fault_number(fault)).as_bytes());
    out.put(b"\n");
}

// A line that an event was not done.
fn put_refusal(out: &mut Bytes, number: u32, refusal: Refusal)
    requires { LINE_ROOM ≤ out.old.spare }
    ensures { out.new.bytes ≡ out.old.bytes ++ line_of number (Refused refusal) }
{
    match refusal {
        Refusal::NoRegister => put_line(out, number, b"no register"),
        Refusal::NoValue(fault) => put_line(out, number, fault_text(fault)),
        Refusal::NoImage(fault) => put_no_image(out, number, fault),
        Refusal::NoRoom => put_line(out, number, b"no room"),
        Refusal::NoSpan => put_line(out, number, b"no span"),
        Refusal::NoTaken => put_line(out, number, b"no taken"),
        Refusal::NoLong => put_line(out, number, b"no long"),
        Refusal::NoBlocked => put_line(out, number, b"no blocked"),
        Refusal::NoNonce => put_line(out, number, b"no nonce"),
        Refusal::NoInput => put_line(out, number, b"no input"),
        Refusal::NoPlace => put_line(out, number, b"no place"),
        Refusal::NoSeeded => put_line(out, number, b"no seeded"),
        Refusal::NoSeed => put_line(out, number, b"no seed"),
        Refusal::NoBlob => put_line(out, number, b"no blob"),
        Refusal::NoChain => put_line(out, number, b"no chain"),
        Refusal::NoCounter => put_line(out, number, b"no counter"),
        Refusal::NoEnd => put_line(out, number, b"no end"),
        Refusal::NoSlot => put_line(out, number, b"no slot"),
        Refusal::NoDisk => put_line(out, number, b"no disk"),
        Refusal::PowerLost => put_line(out, number, b"power lost"),
    }
}

/// The line of an answer, for which there is room; nothing where there is none.
pub(crate) fn put_answer(out: &mut Bytes, number: u32, answer: &Answer)
    requires room { room_of (seen_answer answer.now) ≤ out.old.spare }
    requires short { HasShortOutputs (seen_answer answer.now) }
    ensures { out.new.bytes ≡ out.old.bytes ++ line_of number (seen_answer answer.now) }
{
    match answer {
        Answer::Quiet => {}
        Answer::Done => put_done(out, number),
        Answer::Counts(count) => put_count(out, number, *count),
        Answer::Register(value) => put_value(out, number, value),
        Answer::Quoted(value) => put_value(out, number, value),
        Answer::Shows(value) => put_value(out, number, value.as_slice()),
        Answer::Peeked(bytes) => put_value(out, number, bytes),
        Answer::Registers(values) => put_registers(out, number, values),
        Answer::Ended(over) => put_over(out, number, over),
        Answer::Says(yes) => put_verdict(out, number, *yes),
        Answer::Refused(refusal) => put_refusal(out, number, *refusal),
    }
}
