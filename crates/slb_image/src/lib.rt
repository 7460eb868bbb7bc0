//! The image of a PAL: a front of 32 bytes that says where the code is entered and how many turns
//! it may take, and the code. `build` makes images, and `view` takes exactly the images and lends
//! their parts.
#![tactic(auto)]

mod building;
mod checks;
mod fault;
mod fields;
mod laws;
mod viewing;

pub use building::{BuildError, build};
pub use fault::{ImageFault, fault_number};
pub use laws::image_law;
pub use viewing::{ImageView, view};
