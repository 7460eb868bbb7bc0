//! The instructions of the i386 that this machine knows: their spellings, their decoding and
//! encoding, and what each does to registers, flags and a segment of memory. Nothing here
//! allocates.
#![tactic(auto)]

mod arithmetic;
mod arrays;
mod cpu;
mod decoding;
mod effects;
mod encoding;
mod ins;
mod operands;
mod reading;
mod segment;
mod writer;

pub use cpu::{Cpu, FaultKind, Step};
pub use decoding::{Undecoded, decode, one_spelling};
pub use effects::exec;
pub use encoding::{chosen_spells, encode, round_trip};
pub use ins::{AluOp, Cond, Ins, ShiftOp, UnaryOp};
pub use operands::{ByteReg, Mem, Reg, Rm};
pub use segment::{Outside, Segment};
