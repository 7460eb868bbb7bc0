//! A disk that loses power, and the slots of jobs on it. What was written and then synced stands
//! through every later call and power cycle, until its slot is written again.
#![tactic(auto)]

mod disk;
mod laws;
mod sim_disk;
mod sizes;
mod slots;

pub use disk::{Disk, DiskFailed};
pub use laws::{call_law, other_slots_law, power_law, simulated_law, slot_law, stored_law};
pub use sim_disk::SimDisk;
pub use sizes::{DISK_LEN, JOBS, LONGEST_BLOB, SLOT_LEN};
pub use slots::{SlotFault, Slots};
