//! The assembler of the i386 profile and its listing: text to code in chosen spellings, and code to
//! text, which assembles to the code again where that is in chosen spellings. docs/ASSEMBLER.md has
//! the language.
#![tactic(auto)]

mod assembling;
mod commas;
mod draft;
mod fault;
mod labels;
mod laws;
mod limits;
mod lines;
mod listing;
mod marks;
mod name;
mod names;
mod numbers;
mod operand;
mod placed;
mod spelling;
mod statement;
mod tokens;
mod writing;

pub use assembling::assemble;
pub use fault::{AsmError, AsmFault, AsmKind};
pub use laws::{
    each_is_listed, listing_assembles, listing_is_short, offsets_are_lengths, one_listing,
};
pub use limits::MOST_CODE;
pub use listing::disassemble;
