//! Tests of the text of a script: worked rows for expressions, lines and the reader of lines, by
//! public calls.
#![tactic(auto)]

#[cfg(test)]
mod expressions;
#[cfg(test)]
mod lines;
#[cfg(test)]
mod readers;
