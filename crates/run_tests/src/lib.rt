//! Tests of events, of sessions and of runs of whole scripts: worked rows, by public calls.
#![tactic(auto)]

#[cfg(test)]
mod counting;
#[cfg(test)]
mod devices;
#[cfg(test)]
mod events;
#[cfg(test)]
mod hosts;
#[cfg(test)]
mod job_modes;
#[cfg(test)]
mod machine;
#[cfg(test)]
mod quoting;
#[cfg(test)]
mod regions;
#[cfg(test)]
mod runs;
#[cfg(test)]
mod sealing;
#[cfg(test)]
mod sessions;
#[cfg(test)]
mod slots;
