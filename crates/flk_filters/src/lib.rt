//! The filters of `flicker`, the commands that read their whole input: `asm` from an assembler text
//! to its code, `dis` from code to its listing, `measure` from an image to its digest and to what
//! register 17 shows after its launch, and `verify` from the description of a session to whether a
//! quote is that of the session.
#![tactic(auto)]

mod asm;
mod dis;
mod fault;
mod filter;
mod hexadecimal;
mod input;
mod measure;
mod run;
mod verify;

pub use fault::BadInput;
pub use filter::Filter;
pub use run::run_filter;
