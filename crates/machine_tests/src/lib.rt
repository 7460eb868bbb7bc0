//! Tests of region_pool and machine_memory, by their public calls alone. Each row is a function to
//! `bool`, and each test a loop over rows.
#![tactic(auto)]

#[cfg(test)]
mod areas;
#[cfg(test)]
mod loans;
#[cfg(test)]
mod pools;
#[cfg(test)]
mod spans;
#[cfg(test)]
mod steps;
#[cfg(test)]
mod turns;
