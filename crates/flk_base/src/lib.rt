//! What every crate of the workspace stands on: bytes that can be given room before they come, a
//! source and a sink that count their faults, how a call over them ends, hexadecimal text, the
//! fuse, and plans of commands.
#![tactic(auto)]

mod buffer;
mod edge;
mod fuse;
mod hexadecimal;
mod memory;
mod plans;
mod run_end;
mod streams;

pub use buffer::{Bytes, NoMemory};
pub use edge::{StdSink, StdSource};
pub use fuse::{Fuse, PowerLost};
pub use hexadecimal::{HexFault, print_hex, read_hex};
pub use memory::{MemSink, MemSource};
pub use plans::{
    calls_in_turn, fuses_add_up, one_after_other, parts_in_place, parts_in_turn, plans_alike,
    plans_keep, prefix_is_longest, stops,
};
pub use run_end::RunEnd;
pub use streams::{Failed, PutFault, Sink, Source};
