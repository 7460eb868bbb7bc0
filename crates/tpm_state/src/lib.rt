//! The registers of a TPM 1.2, values that software extends by a text and can't write; and its
//! monotonic counters.
#![tactic(auto)]

mod bank;
mod counters;
mod laws;

pub use bank::{Bank, NoRegister, extended_value};
pub use counters::{CounterFault, Counters};
pub use laws::{
    calls_by_counters, counters_by_owners, counters_only_grow, counters_stay_in_range,
    numbers_are_given_once,
};
