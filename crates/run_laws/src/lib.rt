//! Laws of whole runs: what an answer tells of all that was asked before it. No program stands on
//! this crate.
#![tactic(auto)]

mod quotes;

pub use quotes::check_law;
