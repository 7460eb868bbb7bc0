//! The machine's memory: bytes, taken in spans of frames, and for each frame whether devices are
//! kept out of it. A frame that is free is zero, and devices are kept out of it.
#![tactic(auto)]

mod area;
mod block;
mod blocks;
mod device;
mod dma;
mod laws;
mod lists;
mod memory;
mod sizes;
mod spans;

pub use device::DevEnd;
pub use dma::Dma;
pub use laws::{counts_law, frame_law, loan_law, spans_law, taken_frame_law};
pub use memory::{Memory, NotTaken, TakeFault};
pub use sizes::{FRAME_LEN, FRAMES, REGION_FRAMES};
