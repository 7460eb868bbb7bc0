//! Runs the events of a script on a board and a disk, and says what a platform of plain lists would
//! answer.
#![tactic(auto)]

mod answers;
mod board;
mod checks;
mod events;
mod host;
mod laws;
mod run;
mod runner;
mod slots;
mod spans;
mod tasks;

pub use answers::Refusal;
pub use job_store::SimDisk;
pub use late_launch::Board;
pub use laws::{blank_board_is_blank, fair_scripts_agree, script_is_one_plan, scripts_by_lists};
pub use run::{ScriptFault, run_script};
pub use runner::{Runner, StepEnd};
pub use spans::Spans;
