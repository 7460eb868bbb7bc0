//! The core of a session: it runs the launched code turn by turn, serves its gates, and closes the session.
#![tactic(auto)]

mod counting;
mod job_inputs;
mod jobs;
mod laws;
mod pal;
mod sealing;
mod services;
mod serving;
mod spans;
mod turn;

pub use job_inputs::Mode;
pub use laws::{device_writes_law, job_inputs_law, job_outputs_law};
pub use serving::serve;
