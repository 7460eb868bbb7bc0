//! Jobs: code that runs in many sessions, whose state is kept sealed in two slots of a disk. Of the two states of a step,
//! the old one opens until its counter is incremented, and the new one from then on.
#![tactic(auto)]

mod calls;
mod ends;
mod jobs;
mod laws;
mod parts;

pub use ends::{JobEnd, LONGEST_INPUTS};
pub use jobs::Jobs;
pub use laws::{lasting_law, whole_law};
