//! What can be wrong with an assembler text.

/// The kinds of faults. Within a line they are looked for in the order Word, Twice, Operand, Range,
/// TooLong; Label comes only where no line has any of these.
#[derive(Clone, Copy, Debug, PartialEq, Eq)]
pub enum AsmKind {
    /// The name before a colon is none, or the word that begins the statement is not known.
    Word = 1,
    /// The operands do not fit the statement.
    Operand = 2,
    /// A number is outside its range.
    Range = 3,
    /// A label that is used is not defined.
    Label = 4,
    /// A label was defined on a line before.
    Twice = 5,
    /// The code up to here has more than 49,120 bytes.
    TooLong = 6,
}

/// The first fault of a text, with the number of its line from 1 on.
#[derive(Clone, Copy, Debug, PartialEq, Eq)]
pub struct AsmFault {
    pub line: u32,
    pub kind: AsmKind,
}

/// Why there is no code.
#[derive(Clone, Copy)]
pub enum AsmError {
    /// The text has this fault.
    At(AsmFault),
    /// Memory ran out.
    NoMemory,
}

/// Why a line adds nothing.
#[derive(Clone, Copy)]
pub(crate) enum LineFault {
    /// The line has this fault.
    Kind(AsmKind),
    /// Memory ran out.
    NoMemory,
}
