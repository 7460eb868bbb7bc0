//! The device of a platform: its registers, its keys, what it seals and what it quotes, the commands
//! over them, and the law that keeping digests of what was hashed answers as keeping all of it does.
#![tactic(auto)]

mod bearings;
mod blob_laws;
mod blobs;
mod device;
mod faults;
mod keys;
mod laws;
mod quote_laws;

pub use blob_laws::{blob_law, opening_law};
pub use blobs::{BLOB_ROOM, LONGEST_SEALED, blob_counter, blob_size};
pub use device::Device;
pub use faults::{
    CounterFault, Provisioned, QuoteFault, RandomFault, RegisterFault, SealFault, UnsealFault,
};
pub use laws::{
    clean_runs_agree, clean_values_are_apart, commands_and_the_fuse, commands_by_counters,
    commands_by_keys, commands_by_registers, digested_is_a_homomorphism, fair_plans_agree,
    ledger_has_what_is_known,
};
pub use quote_laws::quote_law;
