//! Tests of job_engine, by its public calls alone. Each row is a function to `bool`, and each test a loop over rows.
#![tactic(auto)]

#[cfg(test)]
mod hostile;
#[cfg(test)]
mod machine;
#[cfg(test)]
mod rows;
#[cfg(test)]
mod stops;
