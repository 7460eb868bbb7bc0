// The commands of a script, as a table: the word of each, and what the words after it may be.
ghost use Rattle.std.specs.Prelude.{◌≡◌, ◌≤◌, length};
ghost use Rattle.script_text.specs.Grammar.{row};
ghost use Rattle.script_text.specs.Reading.{is_command, fits, command_of, command_for};

use crate::line::LineFault;
use crate::words::Words;

/// What a word after the command's may be.
#[derive(Clone, Copy)]
pub(crate) enum Kind {
    /// A Number.
    Number,
    /// A Name.
    Name,
    /// `pal` or `job`.
    ImageKind,
    /// The name of a register of the processor.
    Register,
    /// An Expression.
    Expression,
}

/// The commands, by what they are for. A line with a word that may be missing is two of them,
/// without it and with it.
#[derive(Clone, Copy)]
pub(crate) enum Command {
    /// For the sealing device.
    Device(DeviceCommand),
    /// For names and values.
    Values(ValuesCommand),
    /// For memory.
    Memory(MemoryCommand),
    /// For the processor.
    Processor(ProcessorCommand),
    /// For the disk.
    Disk(DiskCommand),
}

/// The commands for the sealing device.
#[derive(Clone, Copy)]
pub(crate) enum DeviceCommand {
    Extend,
    Read,
    Seed,
    Unseal,
    UnsealInto,
    Counter,
    Random,
    RandomInto,
    Quote,
    QuoteInto,
    Check,
}

/// The commands for names and values.
#[derive(Clone, Copy)]
pub(crate) enum ValuesCommand {
    Let,
    Show,
    Image,
}

/// The commands for memory.
#[derive(Clone, Copy)]
pub(crate) enum MemoryCommand {
    Take,
    Give,
    Poke,
    Peek,
    Dma,
}

/// The commands for the processor.
#[derive(Clone, Copy)]
pub(crate) enum ProcessorCommand {
    SetReg,
    Regs,
    Arm,
    Session,
    SessionInto,
}

/// The commands for the disk.
#[derive(Clone, Copy)]
pub(crate) enum DiskCommand {
    Slot,
    SlotInto,
    Overwrite,
}

/// All of them.
pub(crate) const COMMANDS: [Command; 27] = [
    Command::Device(DeviceCommand::Extend),
    Command::Device(DeviceCommand::Read),
    Command::Device(DeviceCommand::Seed),
    Command::Device(DeviceCommand::Unseal),
    Command::Device(DeviceCommand::UnsealInto),
    Command::Device(DeviceCommand::Counter),
    Command::Device(DeviceCommand::Random),
    Command::Device(DeviceCommand::RandomInto),
    Command::Device(DeviceCommand::Quote),
    Command::Device(DeviceCommand::QuoteInto),
    Command::Device(DeviceCommand::Check),
    Command::Values(ValuesCommand::Let),
    Command::Values(ValuesCommand::Show),
    Command::Values(ValuesCommand::Image),
    Command::Memory(MemoryCommand::Take),
    Command::Memory(MemoryCommand::Give),
    Command::Memory(MemoryCommand::Poke),
    Command::Memory(MemoryCommand::Peek),
    Command::Memory(MemoryCommand::Dma),
    Command::Processor(ProcessorCommand::SetReg),
    Command::Processor(ProcessorCommand::Regs),
    Command::Processor(ProcessorCommand::Arm),
    Command::Processor(ProcessorCommand::Session),
    Command::Processor(ProcessorCommand::SessionInto),
    Command::Disk(DiskCommand::Slot),
    Command::Disk(DiskCommand::SlotInto),
    Command::Disk(DiskCommand::Overwrite),
];

/// The most arguments that a command has, without the texts that may follow them.
pub(crate) const MOST_ARGUMENTS: usize = 6;

/// A row of the table: a command's word, the kinds of its arguments, and whether any number of
/// expressions may follow them.
#[derive(Clone, Copy)]
pub(crate) struct Row {
    pub(crate) word: &'static [u8],
    pub(crate) kinds: &'static [Kind],
    pub(crate) more: bool,
}

// The kinds of the arguments of `check`.
const CHECK_KINDS: &[Kind] = &[
    Kind::Expression,
    Kind::Expression,
    Kind::Expression,
    Kind::Expression,
    Kind::Number,
    Kind::Expression,
];

impl DeviceCommand {
    // Its row.
    fn row(self) -> Row
        ensures word { result.word.now ≡ (row (Command.Device self)).word }
        ensures kinds { result.kinds.now ≡ (row (Command.Device self)).kinds }
        ensures more { result.more ≡ (row (Command.Device self)).more }
        ensures few { length result.kinds.now ≤ MOST_ARGUMENTS }
    {
        let (word, kinds): (&'static [u8], &'static [Kind]) = match self {
            DeviceCommand::Extend => (b"extend", &[Kind::Number, Kind::Expression]),
            DeviceCommand::Read => (b"read", &[Kind::Number]),
            DeviceCommand::Seed => (b"seed", &[Kind::Expression]),
            DeviceCommand::Unseal => (b"unseal", &[Kind::Expression]),
            DeviceCommand::UnsealInto => (b"unseal", &[Kind::Expression, Kind::Name]),
            DeviceCommand::Counter => (b"counter", &[Kind::Number]),
            DeviceCommand::Random => (b"random", &[]),
            DeviceCommand::RandomInto => (b"random", &[Kind::Name]),
            DeviceCommand::Quote => (b"quote", &[Kind::Expression]),
            DeviceCommand::QuoteInto => (b"quote", &[Kind::Expression, Kind::Name]),
            DeviceCommand::Check => (b"check", CHECK_KINDS),
        };
        let more = matches!(self, DeviceCommand::Check);
        Row { word, kinds, more }
    }
}

impl ValuesCommand {
    // Its row.
    fn row(self) -> Row
        ensures word { result.word.now ≡ (row (Command.Values self)).word }
        ensures kinds { result.kinds.now ≡ (row (Command.Values self)).kinds }
        ensures more { result.more ≡ (row (Command.Values self)).more }
        ensures few { length result.kinds.now ≤ MOST_ARGUMENTS }
    {
        let (word, kinds): (&'static [u8], &'static [Kind]) = match self {
            ValuesCommand::Let => (b"let", &[Kind::Name, Kind::Expression]),
            ValuesCommand::Show => (b"show", &[Kind::Expression]),
            ValuesCommand::Image => (
                b"image",
                &[
                    Kind::Name,
                    Kind::ImageKind,
                    Kind::Number,
                    Kind::Number,
                    Kind::Expression,
                ],
            ),
        };
        Row {
            word,
            kinds,
            more: false,
        }
    }
}

impl MemoryCommand {
    // Its row.
    fn row(self) -> Row
        ensures word { result.word.now ≡ (row (Command.Memory self)).word }
        ensures kinds { result.kinds.now ≡ (row (Command.Memory self)).kinds }
        ensures more { result.more ≡ (row (Command.Memory self)).more }
        ensures few { length result.kinds.now ≤ MOST_ARGUMENTS }
    {
        let (word, kinds): (&'static [u8], &'static [Kind]) = match self {
            MemoryCommand::Take => (b"take", &[Kind::Number]),
            MemoryCommand::Give => (b"give", &[Kind::Number]),
            MemoryCommand::Poke => (b"poke", &[Kind::Number, Kind::Expression]),
            MemoryCommand::Peek => (b"peek", &[Kind::Number, Kind::Number]),
            MemoryCommand::Dma => (b"dma", &[Kind::Number, Kind::Expression]),
        };
        Row {
            word,
            kinds,
            more: false,
        }
    }
}

impl ProcessorCommand {
    // Its row.
    fn row(self) -> Row
        ensures word { result.word.now ≡ (row (Command.Processor self)).word }
        ensures kinds { result.kinds.now ≡ (row (Command.Processor self)).kinds }
        ensures more { result.more ≡ (row (Command.Processor self)).more }
        ensures few { length result.kinds.now ≤ MOST_ARGUMENTS }
    {
        let (word, kinds): (&'static [u8], &'static [Kind]) = match self {
            ProcessorCommand::SetReg => (b"reg", &[Kind::Register, Kind::Number]),
            ProcessorCommand::Regs => (b"regs", &[]),
            ProcessorCommand::Arm => (b"arm", &[Kind::Number, Kind::Number, Kind::Expression]),
            ProcessorCommand::Session => (
                b"session",
                &[Kind::Expression, Kind::Expression, Kind::Expression],
            ),
            ProcessorCommand::SessionInto => (
                b"session",
                &[
                    Kind::Expression,
                    Kind::Expression,
                    Kind::Expression,
                    Kind::Name,
                ],
            ),
        };
        Row {
            word,
            kinds,
            more: false,
        }
    }
}

impl DiskCommand {
    // Its row.
    fn row(self) -> Row
        ensures word { result.word.now ≡ (row (Command.Disk self)).word }
        ensures kinds { result.kinds.now ≡ (row (Command.Disk self)).kinds }
        ensures more { result.more ≡ (row (Command.Disk self)).more }
        ensures few { length result.kinds.now ≤ MOST_ARGUMENTS }
    {
        let (word, kinds): (&'static [u8], &'static [Kind]) = match self {
            DiskCommand::Slot => (b"slot", &[Kind::Number, Kind::Number]),
            DiskCommand::SlotInto => (b"slot", &[Kind::Number, Kind::Number, Kind::Name]),
            DiskCommand::Overwrite => (
                b"overwrite",
                &[Kind::Number, Kind::Number, Kind::Expression],
            ),
        };
        Row {
            word,
            kinds,
            more: false,
        }
    }
}

impl Command {
    /// Its row.
    pub(crate) fn row(self) -> Row
        ensures word { result.word.now ≡ (row self).word }
        ensures kinds { result.kinds.now ≡ (row self).kinds }
        ensures more { result.more ≡ (row self).more }
        ensures few { length result.kinds.now ≤ MOST_ARGUMENTS }
    {
        match self {
            Command::Device(command) => command.row(),
            Command::Values(command) => command.row(),
            Command::Memory(command) => command.row(),
            Command::Processor(command) => command.row(),
            Command::Disk(command) => command.row(),
        }
    }

    // Whether it has this word, and may have as many words after it as these.
    fn fits(self, word: &[u8], others: &Words<'_>) -> bool
        ensures { result ≡ fits word.now (length others.now) self }
    {
        let row = self.row();
        row.word == word && others.has(row.kinds.len(), row.more)
    }
}

#[tactic(auto, unfolding(crate::specs::Reading::is_command))]
fn is_command(word: &[u8]) -> bool
    ensures { result ≡ is_command word.now }
{
    COMMANDS.iter().any(|command| command.row().word == word)
}

fn command_of(word: &[u8], others: &Words<'_>) -> Option<Command>
    ensures { result ≡ command_of word.now (length others.now) }
{
    for command in COMMANDS {
        if command.fits(word, others) {
            return Some(command);
        }
    }
    None
}

/// The command of a word with as many words after it as these.
pub(crate) fn command_for(word: &[u8], others: &Words<'_>) -> Result<Command, LineFault>
    ensures { result ≡ command_for word.now (length others.now) }
{
    if !is_command(word) {
        return Err(LineFault::Command);
    }
    command_of(word, others).ok_or(LineFault::Count)
}
