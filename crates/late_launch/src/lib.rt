//! The late launch: the board, and the states of a session from the host's suspension to its resume. Each state
//! must be spent, so a session that began ends in a resumed host or in a machine without power.
#![tactic(auto)]

mod board;
mod closed;
mod dark;
mod ends;
mod launched;
mod region;
mod suspended;

pub use board::Board;
pub use closed::Closed;
pub use dark::Dark;
pub use ends::{End, JobRefusal};
pub use launched::Launched;
pub use suspended::{LaunchEnd, Suspended};
