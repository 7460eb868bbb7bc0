// What a line asks for.
ghost use Rattle.std.specs.Prelude.{◌≡◌, ◌≢◌, ◌↔◌, ℕ, false, true, List, length, IfOk, IsOk, Ok, Err};
ghost use Rattle.std.specs.List.{list_all};
ghost use Rattle.flk_base.specs.Checks.{Gives};
ghost use Rattle.script_text.specs.Lines.{words, content};
ghost use Rattle.script_text.specs.Grammar.{Request, Nothing, SpellsCommand, SpellsLine, row, is_printable, is_comment};
ghost use Rattle.script_text.specs.Reading.{IsEarly, IsLate, may_allocate, words_may_allocate, reading, words_in, command_in, command_may_allocate, command_of};
ghost use Rattle.script_text.specs.Seen.{line_fault, request_of, HasShortName, HasRegister};
ghost use Rattle.script_text.specs.declared.line.LineError.TheVariants.{Fault};

use crate::argument::{event_of, read_arguments, read_texts};
use crate::command::command_for;
use crate::words::{Words, content};
use expr_text::{Expr, Exprs};
use flk_base::Bytes;
use std::alloc::Global;

/// The most bytes that a line may have, without its LF.
pub const LONGEST_LINE: usize = 16_384;

/// The most lines that a script may have.
pub const MOST_LINES: u32 = 100_000;

/// What a line asks for.
#[derive(Drop)]
pub enum Event {
    /// Nothing: the line has no words, or is a comment.
    Blank,
    /// To extend register `r` by the text `host` and a value.
    Extend {
        r: u32,
        text: Expr,
    },
    /// To show the value of register `r`.
    Read {
        r: u32,
    },
    /// To bind a name to a value.
    Let {
        var: Bytes,
        value: Expr,
    },
    /// To show a value.
    Show {
        value: Expr,
    },
    /// To bind a name to the image of some code.
    Image {
        var: Bytes,
        /// Whether it is the image of a job.
        job: bool,
        /// The offset of the first instruction.
        entry: u32,
        /// How many turns a session of it has.
        budget: u32,
        code: Expr,
    },
    /// To take a span of so many frames.
    Take {
        n: u32,
    },
    /// To give back the span that starts at an address.
    Give {
        at: u32,
    },
    /// To write a value into a span, from an address on.
    Poke {
        at: u32,
        bytes: Expr,
    },
    /// To show so many bytes of a span, from an address on.
    Peek {
        at: u32,
        len: u32,
    },
    /// To have a device write a value, from an address on.
    Dma {
        at: u32,
        bytes: Expr,
    },
    /// To set a register of the processor: eax, ecx, edx, ebx, esp, ebp, esi and edi are 0 to 7.
    SetReg {
        reg: u8,
        n: u32,
    },
    /// To show the registers of the processor.
    Regs,
    /// To have a device write a value at a turn of the next session, from an address on.
    Arm {
        turn: u32,
        at: u32,
        bytes: Expr,
    },
    /// To run a session of an image on inputs, and to bind a name, if there is one, to what it puts
    /// out.
    Session {
        image: Expr,
        inputs: Expr,
        nonce: Expr,
        var: Option<Bytes>,
    },
    /// To give the device a seed, from which it derives its keys.
    Seed {
        seed: Expr,
    },
    /// To open a blob, and to bind a name, if there is one, to the bytes that were sealed in it.
    Unseal {
        blob: Expr,
        var: Option<Bytes>,
    },
    /// To show the value of the device's counter of this number.
    Counter {
        id: u32,
    },
    /// To draw a random word from the device, and to bind a name, if there is one, to its bytes.
    Random {
        var: Option<Bytes>,
    },
    /// To have the device quote register 17 for a nonce, and to bind a name, if there is one, to the
    /// quote.
    Quote {
        nonce: Expr,
        var: Option<Bytes>,
    },
    /// To check whether a quote is that of a session of an image on inputs.
    Check {
        quote: Expr,
        image: Expr,
        inputs: Expr,
        /// What the session put out.
        outputs: Expr,
        /// The byte that says how the session ended.
        end: u32,
        nonce: Expr,
        /// What the session extended register 17 by, from the first on.
        texts: Exprs,
    },
    /// To show the blob in slot `s` of job `j`, and to bind a name, if there is one, to it.
    Slot {
        j: u32,
        s: u32,
        var: Option<Bytes>,
    },
    /// To write a blob into slot `s` of job `j`.
    Overwrite {
        j: u32,
        s: u32,
        blob: Expr,
    },
}

/// The first thing that is wrong with a line, in the order of the checks. Of the words of one line,
/// which have the checks 5 to 7, the leftmost bad one counts.
#[derive(Clone, Copy, Debug, PartialEq, Eq)]
pub enum LineFault {
    /// 1: more than 16,384 bytes stand before the LF.
    LongLine,
    /// 2: a byte is neither a tab nor one of 32 to 126.
    Byte,
    /// 3: the first word is no command.
    Command,
    /// 4: the number of words is not that of the command, or none of its two where one word may be
    /// missing, or below it where any number of words may follow.
    Count,
    /// 5: a word that has to be a Number is none.
    Number,
    /// 6: a word that has to be an Expression is none.
    Expression,
    /// 7: a word that has to be a Name is none, or one that has to be `pal` or `job` is neither, or
    /// one that has to be a register's name is none.
    Name,
}

/// Why no event is read from a line.
#[derive(Clone, Copy)]
pub enum LineError {
    /// The line has this fault.
    Fault(LineFault),
    /// Memory ran out.
    NoMemory,
}

impl From<LineFault> for LineError {
    ghost from_gives = { λ fault error. error ≡ Fault fault };

    fn from(fault: LineFault) -> LineError {
        LineError::Fault(fault)
    }
}

/// Why a line of a script is bad.
#[derive(Clone, Copy, Debug, PartialEq, Eq)]
pub enum BadLine {
    /// The line by itself has this fault.
    Faulty(LineFault),
    /// 8: it stands after 100,000 lines.
    TooMany,
}

fn is_printable(c: u8) -> bool
    ensures { result ≡ is_printable c }
{
    c == b'\t' || (32 <= c && c <= 126)
}

fn are_printable(text: &[u8]) -> bool
    ensures { result ≡ list_all is_printable text.now }
{
    text.iter().all(|c| is_printable(*c))
}

/// What the line, without its LF, asks for, or the first thing that is wrong with it.
pub fn read_line(alloc: Global, bytes: &[u8]) -> Result<Event, LineError>
    // What is read is spelled so.
    ensures spelled { IfOk result (λ event. SpellsLine (request_of event) bytes.now) }
    // What is spelled so is read, unless memory runs out.
    ensures only { (asked : Request) → SpellsLine asked bytes.now
        → Gives line_fault request_of result (Ok asked) }
    // Which fault it is: the first in the order of the checks.
    ensures exact { Gives line_fault request_of result (reading bytes.now) }
    // What is wrong before any word after the command is tried is reported, also where there is no
    // memory.
    ensures early { (fault : LineFault) → IsEarly fault → reading bytes.now ≡ Err fault
        → result ≡ Err (LineError.Fault fault) }
    // A line without words and a comment allocate nothing.
    ensures blank { reading bytes.now ≡ Ok Nothing → result ≡ Ok Event.Blank }
    // Nor does a good line whose command has neither a name nor an expression after it.
    ensures plain { (asked : Request) → (spelled : SpellsCommand asked (words (content bytes.now)))
        → may_allocate (row spelled.command).kinds ≡ false → reading bytes.now ≡ Ok asked
        → IsOk result }
    // Nor does memory run out for a bad one.
    ensures unasked { words_may_allocate (words (content bytes.now)) ≡ false
        → result ≢ Err LineError.NoMemory }
    // A name that is bound has 1 to 16 bytes.
    ensures name { IfOk result (λ event. HasShortName (request_of event)) }
    // A register that is set is one of the eight.
    ensures register { IfOk result (λ event. HasRegister (request_of event)) }
{
    first_fault(alloc, bytes)
}

/// No line spells two requests, and what a line spells is what reading it gives.
pub fn one_request()
    ensures one { (line : List ℕ) (a : Request) (b : Request) → SpellsLine a line
        → SpellsLine b line → a ≡ b }
    ensures read { (line : List ℕ) (asked : Request)
        → SpellsLine asked line ↔ (reading line ≡ Ok asked) }
{}

fn first_fault(alloc: Global, bytes: &[u8]) -> Result<Event, LineError>
    ensures exact { Gives line_fault request_of result (reading bytes.now) }
    ensures late { result ≡ Err LineError.NoMemory → IsLate (reading bytes.now) }
    ensures asked { result ≡ Err LineError.NoMemory
        → words_may_allocate (words (content bytes.now)) ≡ true }
    ensures worded { result ≡ Err LineError.NoMemory
        → is_comment (words (content bytes.now)) ≡ false }
{
    if bytes.len() > LONGEST_LINE {
        return Err(LineError::Fault(LineFault::LongLine));
    }
    let content = content(bytes);
    if !are_printable(content) {
        return Err(LineError::Fault(LineFault::Byte));
    }
    read_words(alloc, Words::new(content))
}

fn read_words(alloc: Global, mut words: Words<'_>) -> Result<Event, LineError>
    ensures exact { Gives line_fault request_of result (words_in words.entry) }
    ensures late { result ≡ Err LineError.NoMemory → IsLate (words_in words.entry) }
    ensures asked { result ≡ Err LineError.NoMemory → words_may_allocate words.entry ≡ true }
    ensures worded { result ≡ Err LineError.NoMemory → is_comment words.entry ≡ false }
{
    match words.next() {
        None => Ok(Event::Blank),
        Some([b'#', ..]) => Ok(Event::Blank),
        Some(command) => read_command(alloc, command, words),
    }
}

fn read_command(alloc: Global, word: &[u8], mut words: Words<'_>) -> Result<Event, LineError>
    ensures exact { Gives line_fault request_of result (command_in word.now words.entry) }
    ensures late { result ≡ Err LineError.NoMemory → IsLate (command_in word.now words.entry) }
    ensures asked { result ≡ Err LineError.NoMemory
        → command_may_allocate (command_of word.now (length words.entry)) ≡ true }
{
    let command = match command_for(word, &words) {
        Ok(command) => command,
        Err(fault) => return Err(LineError::Fault(fault)),
    };
    let arguments = read_arguments(alloc, command.row().kinds, &mut words)?;
    let texts = read_texts(alloc, words)?;
    Ok(event_of(command, arguments, texts))
}
