// The words after a command's, read by their kinds, and the event that they make.
ghost use Rattle.std.specs.Prelude.{◌≡◌, ◌≢◌, ◌≤◌, [], ◌∷◌, ◌++◌, ◌+◌, true, Some, drop, length, Err, OnOk, List};
ghost use Rattle.std.specs.Option.{ok_or};
ghost use Rattle.flk_base.specs.Checks.{Gives};
ghost use Rattle.expr_text.specs.Expressions.{Term};
ghost use Rattle.expr_text.specs.ExpressionReading.{all_of, expression_of};
ghost use Rattle.script_text.specs.Arguments.{IsOf, ANumber, AName, AnImageKind, ARegister, AnExpression, seen_argument, first_kind, value_in, values_in, request_from};
ghost use Rattle.script_text.specs.Grammar.{row, register_of};
ghost use Rattle.script_text.specs.Reading.{meaning_in, is_kept, may_allocate};
ghost use Rattle.script_text.specs.Seen.{line_fault, request_of};
ghost use Rattle.script_text.specs.declared.command.Kind.TheVariants.{Number, Name, ImageKind, Register, Expression};

use crate::command::{
    Command, DeviceCommand, DiskCommand, Kind, MOST_ARGUMENTS, MemoryCommand, ProcessorCommand,
    ValuesCommand,
};
use crate::line::{Event, LineError, LineFault};
use crate::words::Words;
use arrayvec::ArrayVec;
use expr_text::{Expr, Exprs, Unread, is_name, number_of};
use flk_base::Bytes;
use std::alloc::Global;
use std::marker::Model;

/// The names of the registers of the processor, by their numbers.
const REGISTERS: [&[u8]; 8] = [
    b"eax", b"ecx", b"edx", b"ebx", b"esp", b"ebp", b"esi", b"edi",
];

/// What a word stands for, by its kind.
#[derive(Drop)]
pub(crate) enum Argument {
    Number(u32),
    Name(Bytes),
    ImageKind(bool),
    Register(u8),
    Expression(Expr),
}

impl Default for Argument {
    fn default() -> Argument {
        Argument::Number(0)
    }
}

/// The arguments of a command that are left, which allocate nothing themselves. Contracts see what
/// their words stand for.
#[derive(Drop)]
pub(crate) struct Arguments {
    items: ArrayVec<Argument, MOST_ARGUMENTS>,
}

impl Model for Arguments {
    ghost use Rattle.std.specs.Prelude.{List, map};
    ghost use Rattle.script_text.specs.Arguments.{Value as Meant, seen_argument};

    ghost Value = { List Meant };

    ghost view = { λ a. map seen_argument a.items.items };
}

impl Arguments {
    // None yet.
    fn new() -> Arguments
        ensures { result ≡ [] }
    {
        Arguments {
            items: ArrayVec::new(),
        }
    }

    // One more, for which there is room.
    fn push(&mut self, argument: Argument)
        requires { length self.old + 1 ≤ MOST_ARGUMENTS }
        ensures { self.new ≡ self.old ++ seen_argument argument ∷ [] }
    {
        self.items.push(argument);
    }

    // The next one.
    fn next(&mut self) -> Argument
        requires { 1 ≤ length self.old }
        ensures { self.old ≡ seen_argument result ∷ self.new }
    {
        self.items.remove(0)
    }

    fn number(&mut self) -> u32
        requires { first_kind self.old ≡ Some Number }
        ensures { self.old ≡ ANumber result ∷ self.new }
    {
        match self.next() {
            Argument::Number(number) => number,
            _ => unreachable!(),
        }
    }

    fn name(&mut self) -> Bytes
        requires { first_kind self.old ≡ Some Name }
        ensures { self.old ≡ AName result.bytes ∷ self.new }
    {
        match self.next() {
            Argument::Name(name) => name,
            _ => unreachable!(),
        }
    }

    fn image_kind(&mut self) -> bool
        requires { first_kind self.old ≡ Some ImageKind }
        ensures { self.old ≡ AnImageKind result ∷ self.new }
    {
        match self.next() {
            Argument::ImageKind(job) => job,
            _ => unreachable!(),
        }
    }

    fn register(&mut self) -> u8
        requires { first_kind self.old ≡ Some Register }
        ensures { self.old ≡ ARegister result ∷ self.new }
    {
        match self.next() {
            Argument::Register(reg) => reg,
            _ => unreachable!(),
        }
    }

    fn expression(&mut self) -> Expr
        requires { first_kind self.old ≡ Some Expression }
        ensures { self.old ≡ AnExpression result ∷ self.new }
    {
        match self.next() {
            Argument::Expression(expression) => expression,
            _ => unreachable!(),
        }
    }
}

/// The arguments of these kinds: each from the left, of the first words.
pub(crate) fn read_arguments(
    alloc: Global,
    kinds: &[Kind],
    words: &mut Words<'_>,
) -> Result<Arguments, LineError>
    requires few { length kinds.now ≤ MOST_ARGUMENTS }
    requires counted { length kinds.now ≤ length words.old }
    ensures exact { Gives line_fault
        (λ arguments. arguments) result (values_in kinds.now words.old) }
    ensures rest { OnOk result (words.new ≡ drop (length kinds.now) words.old) }
    ensures kept { result ≡ Err LineError.NoMemory → may_allocate kinds.now ≡ true }
{
    let mut arguments = Arguments::new();
    for kind in kinds {
        let Some(word) = words.next() else {
            unreachable!()
        };
        arguments.push(argument_in(alloc, *kind, word)?);
    }
    Ok(arguments)
}

/// The expressions that all of these words spell.
pub(crate) fn read_texts(alloc: Global, mut words: Words<'_>) -> Result<Exprs, LineError>
    ensures exact { Gives line_fault (λ texts. texts) result
        (ok_or (all_of expression_of words.entry) LineFault.Expression) }
    ensures kept { result ≡ Err LineError.NoMemory → words.entry ≢ [] }
{
    let mut texts = Exprs::new(alloc);
    while let Some(word) = words.next() {
        let text = text_in(alloc, word)?;
        if texts.push(text).is_err() {
            return Err(LineError::NoMemory);
        }
    }
    Ok(texts)
}

fn text_in(alloc: Global, word: &[u8]) -> Result<Expr, LineError>
    ensures { Gives line_fault (λ terms. terms) result (meaning_in Expression word.now) }
{
    match expr_text::expression_in(alloc, word) {
        Ok(text) => Ok(text),
        Err(Unread::Spelling) => Err(LineError::Fault(LineFault::Expression)),
        Err(Unread::NoMemory) => Err(LineError::NoMemory),
    }
}

fn argument_in(alloc: Global, kind: Kind, word: &[u8]) -> Result<Argument, LineError>
    ensures exact { Gives line_fault seen_argument result (value_in kind word.now) }
    ensures kept { result ≡ Err LineError.NoMemory → is_kept kind ≡ true }
{
    match kind {
        Kind::Number => number_in(word),
        Kind::Name => name_in(alloc, word),
        Kind::ImageKind => image_kind_in(word),
        Kind::Register => register_in(word),
        Kind::Expression => expression_in(alloc, word),
    }
}

fn number_in(word: &[u8]) -> Result<Argument, LineError>
    ensures exact { Gives line_fault seen_argument result (value_in Number word.now) }
    ensures kept { result ≢ Err LineError.NoMemory }
{
    match number_of(word) {
        Some(number) => Ok(Argument::Number(number)),
        None => Err(LineError::Fault(LineFault::Number)),
    }
}

fn name_in(alloc: Global, word: &[u8]) -> Result<Argument, LineError>
    ensures { Gives line_fault seen_argument result (value_in Name word.now) }
{
    if !is_name(word) {
        return Err(LineError::Fault(LineFault::Name));
    }
    let mut name = Bytes::new(alloc);
    match name.push_all(word) {
        Ok(()) => Ok(Argument::Name(name)),
        Err(_) => Err(LineError::NoMemory),
    }
}

fn image_kind_in(word: &[u8]) -> Result<Argument, LineError>
    ensures exact { Gives line_fault seen_argument result (value_in ImageKind word.now) }
    ensures kept { result ≢ Err LineError.NoMemory }
{
    if word == b"pal".as_slice() {
        Ok(Argument::ImageKind(false))
    } else if word == b"job".as_slice() {
        Ok(Argument::ImageKind(true))
    } else {
        Err(LineError::Fault(LineFault::Name))
    }
}

#[tactic(auto, unfolding(crate::specs::Grammar::register_of))]
fn register_of(word: &[u8]) -> Option<u8>
    ensures { result ≡ register_of word.now }
{
    match REGISTERS.iter().position(|name| *name == word) {
        Some(reg) => Some(reg as u8),
        None => None,
    }
}

fn register_in(word: &[u8]) -> Result<Argument, LineError>
    ensures exact { Gives line_fault seen_argument result (value_in Register word.now) }
    ensures kept { result ≢ Err LineError.NoMemory }
{
    match register_of(word) {
        Some(reg) => Ok(Argument::Register(reg)),
        None => Err(LineError::Fault(LineFault::Name)),
    }
}

fn expression_in(alloc: Global, word: &[u8]) -> Result<Argument, LineError>
    ensures { Gives line_fault seen_argument result (value_in Expression word.now) }
{
    let text = text_in(alloc, word)?;
    Ok(Argument::Expression(text))
}

/// What a line asks for that has this command, these arguments and these texts.
pub(crate) fn event_of(command: Command, arguments: Arguments, texts: Exprs) -> Event
    requires { IsOf (row command).kinds arguments }
    ensures { request_from command arguments texts ≡ Some (request_of result) }
{
    match command {
        Command::Device(command) => device_event(command, arguments, texts),
        Command::Values(command) => values_event(command, arguments),
        Command::Memory(command) => memory_event(command, arguments),
        Command::Processor(command) => processor_event(command, arguments),
        Command::Disk(command) => disk_event(command, arguments),
    }
}

// The same of a command for the sealing device.
fn device_event(command: DeviceCommand, mut arguments: Arguments, texts: Exprs) -> Event
    requires { IsOf (row (Command.Device command)).kinds arguments }
    ensures { request_from (Command.Device command) arguments texts ≡ Some (request_of result) }
{
    match command {
        DeviceCommand::Extend => Event::Extend {
            r: arguments.number(),
            text: arguments.expression(),
        },
        DeviceCommand::Read => Event::Read {
            r: arguments.number(),
        },
        DeviceCommand::Seed => Event::Seed {
            seed: arguments.expression(),
        },
        DeviceCommand::Unseal => Event::Unseal {
            blob: arguments.expression(),
            var: None,
        },
        DeviceCommand::UnsealInto => Event::Unseal {
            blob: arguments.expression(),
            var: Some(arguments.name()),
        },
        DeviceCommand::Counter => Event::Counter {
            id: arguments.number(),
        },
        DeviceCommand::Random => Event::Random { var: None },
        DeviceCommand::RandomInto => Event::Random {
            var: Some(arguments.name()),
        },
        DeviceCommand::Quote => Event::Quote {
            nonce: arguments.expression(),
            var: None,
        },
        DeviceCommand::QuoteInto => Event::Quote {
            nonce: arguments.expression(),
            var: Some(arguments.name()),
        },
        DeviceCommand::Check => check_event(arguments, texts),
    }
}

// The same of `check`.
fn check_event(mut arguments: Arguments, texts: Exprs) -> Event
    requires { IsOf (row (Command.Device DeviceCommand.Check)).kinds arguments }
    ensures { request_from (Command.Device DeviceCommand.Check) arguments texts
        ≡ Some (request_of result) }
{
    Event::Check {
        quote: arguments.expression(),
        image: arguments.expression(),
        inputs: arguments.expression(),
        outputs: arguments.expression(),
        end: arguments.number(),
        nonce: arguments.expression(),
        texts,
    }
}

// The same of a command for names and values.
fn values_event(command: ValuesCommand, mut arguments: Arguments) -> Event
    requires { IsOf (row (Command.Values command)).kinds arguments }
    ensures { (texts : List (List Term)) → request_from (Command.Values command) arguments texts
        ≡ Some (request_of result) }
{
    match command {
        ValuesCommand::Let => Event::Let {
            var: arguments.name(),
            value: arguments.expression(),
        },
        ValuesCommand::Show => Event::Show {
            value: arguments.expression(),
        },
        ValuesCommand::Image => Event::Image {
            var: arguments.name(),
            job: arguments.image_kind(),
            entry: arguments.number(),
            budget: arguments.number(),
            code: arguments.expression(),
        },
    }
}

// The same of a command for memory.
fn memory_event(command: MemoryCommand, mut arguments: Arguments) -> Event
    requires { IsOf (row (Command.Memory command)).kinds arguments }
    ensures { (texts : List (List Term)) → request_from (Command.Memory command) arguments texts
        ≡ Some (request_of result) }
{
    match command {
        MemoryCommand::Take => Event::Take {
            n: arguments.number(),
        },
        MemoryCommand::Give => Event::Give {
            at: arguments.number(),
        },
        MemoryCommand::Poke => Event::Poke {
            at: arguments.number(),
            bytes: arguments.expression(),
        },
        MemoryCommand::Peek => Event::Peek {
            at: arguments.number(),
            len: arguments.number(),
        },
        MemoryCommand::Dma => Event::Dma {
            at: arguments.number(),
            bytes: arguments.expression(),
        },
    }
}

// The same of a command for the processor.
fn processor_event(command: ProcessorCommand, mut arguments: Arguments) -> Event
    requires { IsOf (row (Command.Processor command)).kinds arguments }
    ensures { (texts : List (List Term)) → request_from (Command.Processor command) arguments texts
        ≡ Some (request_of result) }
{
    match command {
        ProcessorCommand::SetReg => Event::SetReg {
            reg: arguments.register(),
            n: arguments.number(),
        },
        ProcessorCommand::Regs => Event::Regs,
        ProcessorCommand::Arm => Event::Arm {
            turn: arguments.number(),
            at: arguments.number(),
            bytes: arguments.expression(),
        },
        ProcessorCommand::Session => Event::Session {
            image: arguments.expression(),
            inputs: arguments.expression(),
            nonce: arguments.expression(),
            var: None,
        },
        ProcessorCommand::SessionInto => Event::Session {
            image: arguments.expression(),
            inputs: arguments.expression(),
            nonce: arguments.expression(),
            var: Some(arguments.name()),
        },
    }
}

// The same of a command for the disk.
fn disk_event(command: DiskCommand, mut arguments: Arguments) -> Event
    requires { IsOf (row (Command.Disk command)).kinds arguments }
    ensures { (texts : List (List Term)) → request_from (Command.Disk command) arguments texts
        ≡ Some (request_of result) }
{
    match command {
        DiskCommand::Slot => Event::Slot {
            j: arguments.number(),
            s: arguments.number(),
            var: None,
        },
        DiskCommand::SlotInto => Event::Slot {
            j: arguments.number(),
            s: arguments.number(),
            var: Some(arguments.name()),
        },
        DiskCommand::Overwrite => Event::Overwrite {
            j: arguments.number(),
            s: arguments.number(),
            blob: arguments.expression(),
        },
    }
}
