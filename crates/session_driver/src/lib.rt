//! One session on a board: the driver takes an area, fills it, launches what it holds, and gives it back wiped.
#![tactic(auto)]

mod driver;
mod laws;

pub use driver::{SessionEnd, session};
pub use laws::{permitted_writes_law, quiet_session_law};
