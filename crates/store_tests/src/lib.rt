//! Tests of job_store, by its public calls alone. Each row is a function to `bool`, and each test a
//! loop over rows.
#![tactic(auto)]

#[cfg(test)]
mod cycles;
#[cfg(test)]
mod hostile;
#[cfg(test)]
mod slots;
#[cfg(test)]
mod steps;
