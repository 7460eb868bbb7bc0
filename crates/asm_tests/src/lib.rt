//! Tests of the instructions, of the assembler and its listing, and of the filters, on public calls
//! alone.
#![tactic(auto)]

#[cfg(test)]
mod accesses;
#[cfg(test)]
mod assembly;
#[cfg(test)]
mod block;
#[cfg(test)]
mod codes;
#[cfg(test)]
mod effects;
#[cfg(test)]
mod encodings;
#[cfg(test)]
mod filters;
#[cfg(test)]
mod spellings;
#[cfg(test)]
mod texts;
#[cfg(test)]
mod vectors;
#[cfg(test)]
mod verify;
