//! The lines of a script: how they are read from a source, and what each asks for.
#![tactic(auto)]

mod argument;
mod command;
mod line;
mod reader;
mod verify;
mod words;

pub use expr_text::{Expr, ExprError, ExprFault, Exprs, LONGEST_VALUE, Vars, one_expression};
pub use line::{
    BadLine, Event, LONGEST_LINE, LineError, LineFault, MOST_LINES, one_request, read_line,
};
pub use reader::{AnyEnd, LineEnd, LineReader, READ_SIZE};
pub use verify::{Texts, VerifyFault, VerifyLine, one_claim, read_verify};
