//! A pool of frames. A span of frames is taken at the lowest place where it fits, under a ticket
//! that has to be spent by giving the span back.
#![tactic(auto)]

mod extent;
mod mark;
mod place;
mod pool;
mod ticket;

pub use mark::Mark;
pub use place::place_law;
pub use pool::{NoMemory, NoRoom, Pool, frame_span_law, held_spans_law};
pub use ticket::{Purpose, Ticket};
